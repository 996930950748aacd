// A stripe that is lent to be read, and a line of it tested: whether it sums to zero in every byte.
ghost use Rattle.std.specs.Prelude.{◌≡◌, ◌+◌, ◌<◌, length};
ghost use Rattle.code.specs.Layout.{line};
ghost use Rattle.shape.specs.Shape.{layout_of, size_of};
ghost use Rattle.lines.specs.Unbalanced.{unbalanced};

use crate::listing::Listing;
use shape::Shape;

// Bytes that are lent to be read, as many as their shape has.
#[derive(Clone, Copy)]
pub struct Stripe<'a> {
    pub shape: Shape,
    pub bytes: &'a [u8],
    pub ghost sized: { length bytes.now ≡ size_of shape },
}

impl Stripe<'_> {
    // Whether line t, the rows and then the diagonals, does not sum to zero in some byte. The listing is lent, as for `build`.
    pub fn wrong_line(self, t: usize, listing: &mut Listing) -> bool
        requires line { t < self.shape.r + self.shape.n }
        ensures { result ≡ unbalanced self.entry.shape.e self.entry.bytes.now (line (layout_of self.entry.shape) t) }
    {
        listing.line(self.shape, t);
        !element::is_zero(self.bytes, self.shape.e, listing.starts())
    }
}
