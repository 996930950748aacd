// The lines that no step of the plan uses, told from the walker's steps alone.
ghost use Rattle.std.specs.Prelude.{ℕ, ◌<◌};
ghost use Rattle.walker.specs.Written.{read, written};
ghost use Rattle.rebuild.specs.Stepping.{Shaped};

use crate::lost_set::LostSet;
use shape::Shape;
use shape::map::map_of;
use walker::{Kind, Plan, Step};

// The line that a step uses: its row, its diagonal, or the diagonal whose U the strip stores.
// Nothing here asks rebuild, whose marks it is there to check.
fn line_of(shape: Shape, step: Step) -> usize
    requires shaped { Shaped shape.n shape.r (read step) }
    ensures { result < 64 }
{
    let row = usize::from(step.row);
    let strip = usize::from(step.strip);
    match step.kind {
        Kind::ByRow | Kind::H => row,
        Kind::ByDiagonal => shape.r + shape.diagonal(row, strip),
        Kind::U => shape.r + strip,
    }
}

// Marks the lines that the steps of a plan use.
fn mark(shape: Shape, plan: &Plan) -> [bool; 64]
    requires steps { (u : ℕ) → u < plan.now.count → Shaped shape.n shape.r (written plan.now.steps u) }
{
    let mut used = [false; 64];
    for step in plan.steps() {
        used[line_of(shape, *step)] = true;
    }
    used
}

// Marks the lines that the plan for a lost set uses.
pub(crate) fn used_lines(lost: LostSet) -> [bool; 64] {
    let map = map_of(lost.shape);
    let plan = walker::walk(&map, lost.a, lost.b).plan;
    mark(lost.shape, &plan)
}

// Whether place p is the parity of a line that is not marked.
pub(crate) fn unused_parity(shape: Shape, used: &[bool; 64], p: usize) -> bool {
    let i = p % (shape.r + 1);
    let j = p / (shape.r + 1);
    if j < shape.n {
        i == shape.r && !used[shape.r + j]
    } else {
        !used[i]
    }
}
