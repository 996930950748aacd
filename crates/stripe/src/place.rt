// Line 9: whether a row, a strip or a run lies outside the shape.
ghost use Rattle.std.specs.Prelude.{◌≡◌};
ghost use Rattle.stripe.specs.Write.{place_outside};

use shape::Shape;

// Line 9, by row, then strip, then run, for any four numbers.
pub fn outside(shape: Shape, row: usize, strip: usize, offset: usize, len: usize) -> bool
    ensures { result ≡ place_outside shape.n shape.r shape.e row strip offset len }
{
    // The sum of two numbers can wrap: it is taken where neither is above e.
    let e = shape.e;
    shape.r <= row || shape.n <= strip || e < offset || e < len || e < offset + len
}
