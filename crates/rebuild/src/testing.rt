// The lines that no step used, tested.
ghost use Rattle.std.specs.Prelude.{◌≡◌};
ghost use Rattle.shape.specs.Shape.{layout_of};
ghost use Rattle.rebuild.specs.Testing.{Tests};

use lines::{Listing, Stripe};

// Whether every line that has no mark sums to zero in every byte.
pub fn unused_zero(stripe: Stripe<'_>, used: &[bool; 64]) -> bool
    ensures { Tests (layout_of stripe.entry.shape) stripe.entry.shape.e used.now stripe.entry.bytes.now result }
{
    let m = stripe.shape.r + stripe.shape.n;
    let mut listing = Listing::new();
    for t in 0..m {
        let unused = !used[t];
        if unused && stripe.wrong_line(t, &mut listing) {
            return false;
        }
    }
    true
}
