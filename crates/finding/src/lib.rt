// What is wrong with a stripe: how many rows and diagonals have a wrong parity, and which element that finds.
#![tactic(auto)]

ghost use Rattle.std.specs.Prelude.{◌≡◌, ◌+◌, ◌≤◌, ◌<◌};
ghost use Rattle.code.specs.Layout.{line};
ghost use Rattle.shape.specs.Shape.{layout_of};
ghost use Rattle.lines.specs.Unbalanced.{unbalanced};
ghost use Rattle.finding.specs.Found.{found_of, Finds};
ghost use Rattle.finding.specs.Tally.{Tallied};

use lines::{Listing, Stripe};
use shape::Shape;

#[derive(Clone, Copy, Debug, PartialEq, Eq)]
pub enum Finding {
    Sound,
    // H of this row.
    H(usize),
    // U of this diagonal.
    U(usize),
    // The data element of this row and strip.
    Element(usize, usize),
    Several,
}

// How many rows have a wrong H and how many diagonals a wrong U, and what that finds.
#[derive(Clone, Copy, Debug, PartialEq, Eq)]
pub struct Counts {
    pub rows: usize,
    pub diagonals: usize,
    pub finding: Finding,
}

// How many of a run of lines are wrong, and the first that is; where none is, the run's end. No enum of none, one and several: `Counts` has
// how many they are also where they are several.
#[derive(Clone, Copy)]
struct Tally {
    count: usize,
    first: usize,
}

// The wrong ones among the m lines from line `from` on. They are read from the last down, so that the last one found is the first.
fn wrong_lines(stripe: Stripe<'_>, from: usize, m: usize) -> Tally
    requires run { from + m ≤ stripe.shape.r + stripe.shape.n }
    ensures { Tallied m (λ v. unbalanced stripe.entry.shape.e stripe.entry.bytes.now (line (layout_of stripe.entry.shape) (from + v))) result.count result.first }
{
    let mut count: usize = 0;
    let mut first = m;
    let mut listing = Listing::new();
    for v in (0..m).rev() {
        if stripe.wrong_line(from + v, &mut listing) {
            count += 1;
            first = v;
        }
    }
    Tally { count, first }
}

// What the tallies of the rows and of the diagonals find.
#[tactic(auto, unfolding(crate::specs::Found::found_of))]
fn found(shape: Shape, rows: Tally, diagonals: Tally) -> Finding
    requires row { 0 < rows.count → rows.first < shape.r }
    requires diagonal { 0 < diagonals.count → diagonals.first < shape.n }
    ensures { result ≡ found_of (layout_of shape) rows.count rows.first diagonals.count diagonals.first }
{
    let i = rows.first;
    let d = diagonals.first;
    match (rows.count, diagonals.count) {
        (0, 0) => Finding::Sound,
        (1, 0) => Finding::H(i),
        (0, 1) => Finding::U(d),
        (1, 1) => {
            let j = shape.meets(i, d);
            Finding::Element(i, j)
        }
        _ => Finding::Several,
    }
}

// Scrub of a stripe: each line is listed and read once.
pub fn scrub_shape(stripe: Stripe<'_>) -> Counts
    ensures { Finds (layout_of stripe.entry.shape) stripe.entry.shape.e stripe.entry.bytes.now result }
{
    let shape = stripe.shape;
    let r = shape.r;
    let n = shape.n;
    let rows = wrong_lines(stripe, 0, r);
    let diagonals = wrong_lines(stripe, r, n);
    let a = rows.count;
    let b = diagonals.count;
    let finding = found(shape, rows, diagonals);
    Counts {
        rows: a,
        diagonals: b,
        finding,
    }
}
