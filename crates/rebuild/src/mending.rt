// Mend: the plan of the lost strips is run, the lines that it did not use are tested, and where one is wrong the lost strips are cleared.
// Good stays a clause of the three functions here: a type for it is a struct, its literal and a proof that Good has one proof at most.
ghost use Rattle.std.specs.Prelude.{◌≡◌, false, ◌≤◌, length};
ghost use Rattle.code.specs.Below.{count};
ghost use Rattle.code.specs.Layout.{pair};
ghost use Rattle.code.specs.Bound.{Good};
ghost use Rattle.shape.specs.Shape.{layout_of, size_of};
ghost use Rattle.shape.specs.Mask.{lost_in, above_test};
ghost use Rattle.rebuild.specs.PlanRun.{PlanRun, Mends};

use crate::clearing::fill_strip;
use crate::stepping::run_steps;
use crate::testing::unused_zero;
use lines::Stripe;
use shape::Shape;
use shape::lost::{first_lost, last_lost};
use shape::map::map_of;

// Runs the walker's plan for the strips a and b on the bytes, and marks the lines that it used. The two are a clause and no struct: the walker's
// Lost is that struct, and needs the map that is made here.
fn run(shape: Shape, a: usize, b: usize, stripe: &mut [u8]) -> [bool; 64]
    requires good { Good shape.n shape.r shape.s }
    requires strips { (a ≤ b) × (b ≤ shape.n) }
    requires size { length stripe.old ≡ size_of shape }
    ensures { PlanRun (layout_of shape) shape.e (pair a b) stripe.old stripe.new result }
{
    let map = map_of(shape);
    let plan = walker::walk(&map, a, b).plan;
    run_steps(shape, &plan, stripe)
}

// With the strips a and b lost, which are one strip where they are the same.
fn mend_pair(shape: Shape, a: usize, b: usize, stripe: &mut [u8]) -> bool
    requires good { Good shape.n shape.r shape.s }
    requires strips { (a ≤ b) × (b ≤ shape.n) }
    requires size { length stripe.old ≡ size_of shape }
    ensures { Mends (layout_of shape) shape.e (pair a b) stripe.old stripe.new result }
{
    let used = run(shape, a, b, stripe);
    let ran = Stripe {
        shape,
        bytes: stripe,
    };
    if unused_zero(ran, &used) {
        return true;
    }
    fill_strip(shape, a, 0, stripe);
    fill_strip(shape, b, 0, stripe);
    false
}

// The strips of the mask mended: true, and the one sound stripe that agrees with the survivors; or false, and the lost strips cleared, since
// there is none. A caller with room of its own can mend a copy there.
pub fn mend(shape: Shape, stripe: &mut [u8], mask: u64) -> bool
    requires good { Good shape.n shape.r shape.s }
    requires lost { (above_test mask shape.n ≡ false) × (count 64 (lost_in mask) ≤ 2) }
    requires size { length stripe.old ≡ size_of shape }
    ensures { Mends (layout_of shape) shape.e (lost_in mask) stripe.old stripe.new result }
{
    if mask == 0 {
        let used = [false; 64];
        let stripe = Stripe {
            shape,
            bytes: stripe,
        };
        return unused_zero(stripe, &used);
    }
    let a = first_lost(mask);
    let b = last_lost(mask);
    mend_pair(shape, a, b, stripe)
}
