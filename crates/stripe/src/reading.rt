// Read: an element as that part of the lent stripe.
ghost use Rattle.std.specs.Prelude.{◌≡◌, ◌*◌, ◌<◌, take, drop};
ghost use Rattle.code.specs.Layout.{X};
ghost use Rattle.shape.specs.Shape.{layout_of};

use lines::{Stripe, place};

// The element of row and strip.
pub fn part(stripe: Stripe<'_>, row: usize, strip: usize) -> &[u8]
    requires place { (row < stripe.shape.r) × (strip < stripe.shape.n) }
    ensures { result.now ≡ take stripe.entry.shape.e (drop (X (layout_of stripe.entry.shape) row strip * stripe.entry.shape.e) stripe.entry.bytes.now) }
{
    let e = stripe.shape.e;
    let a = place(stripe.shape, row, strip) * e;
    let b = a + e;
    &stripe.bytes[a..b]
}
