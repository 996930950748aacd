// An element built from its line: it becomes the sum of the others.
ghost use Rattle.std.specs.Prelude.{◌≡◌, ◌+◌, ◌<◌, length};
ghost use Rattle.code.specs.Layout.{line};
ghost use Rattle.shape.specs.Shape.{layout_of, size_of};
ghost use Rattle.lines.specs.Others.{Builds};

use crate::listing::Listing;
use shape::Shape;

// Place v of line t becomes the sum of the others. The listing is room that the caller lends.
// Shape and bytes apart: a struct that holds the &mut needs two clauses, same shape and same reference, for each one on the length.
pub fn build(shape: Shape, t: usize, v: usize, listing: &mut Listing, stripe: &mut [u8])
    requires line { (t < shape.r + shape.n) × (v < length (line (layout_of shape) t)) }
    requires size { length stripe.old ≡ size_of shape }
    ensures { Builds (layout_of shape) shape.e t v stripe.old stripe.new }
{
    listing.line(shape, t);
    let o = listing.swap_remove(v);
    element::gather(stripe, shape.e, o, listing.starts());
}
