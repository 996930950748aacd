// Encode: every H and U set, all data kept.
ghost use Rattle.std.specs.Prelude.{◌≡◌, ◌-◌, length};
ghost use Rattle.code.specs.Layout.{line};
ghost use Rattle.shape.specs.Shape.{layout_of, size_of};
ghost use Rattle.stripe.specs.Encode.{EncodedFrom};

use lines::Listing;
use shape::Shape;

// Where in line t its parity stands: after the n strips of a row, after the r rows of a diagonal.
fn parity_in(shape: Shape, t: usize) -> usize
    ensures { result ≡ length (line (layout_of shape) t) - 1 }
{
    let r = shape.r;
    if t < r { shape.n } else { r }
}

// Every line's parity in turn: none stands on a line that is already set.
pub(crate) fn encode_shape(shape: Shape, stripe: &mut [u8])
    requires { length stripe.old ≡ size_of shape }
    ensures { EncodedFrom (layout_of shape) shape.e stripe.old stripe.new }
{
    let mut listing = Listing::new();
    for t in 0..shape.r + shape.n {
        lines::build(shape, t, parity_in(shape, t), &mut listing, stripe);
    }
}
