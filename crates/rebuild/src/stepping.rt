// The steps of a plan run on the bytes, one gather each.
ghost use Rattle.std.specs.Prelude.{◌≡◌, ℕ, ◌<◌, length};
ghost use Rattle.walker.specs.Written.{read, written};
ghost use Rattle.shape.specs.Shape.{layout_of, size_of};
ghost use Rattle.rebuild.specs.Running.{Running};
ghost use Rattle.rebuild.specs.Stepping.{Shaped, Stepped};
ghost use Rattle.rebuild.specs.SteppingLaws.{Where};

use lines::Listing;
use shape::Shape;
use walker::{Kind, Plan, Step};

// The line that a step uses, and which place of the line it builds.
fn where_built(shape: Shape, step: Step) -> (usize, usize)
    requires shaped { Shaped shape.n shape.r (read step) }
    ensures { Where (layout_of shape) (read step) result.0 result.1 }
{
    let row = usize::from(step.row);
    let strip = usize::from(step.strip);
    match step.kind {
        Kind::ByRow | Kind::H => (row, strip),
        Kind::ByDiagonal => (shape.r + shape.diagonal(row, strip), row),
        Kind::U => (shape.r + strip, row),
    }
}

// Runs a step, and hands back the line that it used.
fn run_step(shape: Shape, step: Step, listing: &mut Listing, stripe: &mut [u8]) -> usize
    requires shaped { Shaped shape.n shape.r (read step) }
    requires size { length stripe.old ≡ size_of shape }
    ensures { Stepped (layout_of shape) shape.e (read step) stripe.old stripe.new result }
{
    let (t, at) = where_built(shape, step);
    lines::build(shape, t, at, listing, stripe);
    t
}

// Runs the steps of a plan, and marks the lines that they used.
pub fn run_steps(shape: Shape, plan: &Plan, stripe: &mut [u8]) -> [bool; 64]
    requires steps { (u : ℕ) → u < plan.now.count → Shaped shape.n shape.r (written plan.now.steps u) }
    requires size { length stripe.old ≡ size_of shape }
    ensures { Running (layout_of shape) shape.e (written plan.now.steps) plan.now.count stripe.old stripe.new result }
{
    let mut used = [false; 64];
    let mut listing = Listing::new();
    let steps = plan.steps();
    for step in steps {
        let t = run_step(shape, *step, &mut listing, stripe);
        used[t] = true;
    }
    used
}
