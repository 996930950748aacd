// The limits of a shape's four numbers, tested in the order of the refusals.
ghost use Rattle.std.specs.Prelude.{◌≡◌};
ghost use Rattle.shape.specs.Limits.{outside};
ghost use Rattle.shape.specs.Within.{Within};

use crate::refusal::Refusal;
pub use crate::shapes::Shape;

// Whether x is not among low to high.
fn outside(low: usize, high: usize, x: usize) -> bool
    ensures { result ≡ outside low high x }
{
    !(low..=high).contains(&x)
}

// The shape of four numbers, or the first of the refusals 1 to 4 that holds.
pub fn within(n: usize, r: usize, s: usize, e: usize) -> Result<Shape, Refusal>
    ensures { Within n r s e result }
{
    if outside(3, 32, n) {
        return Err(Refusal::Strips);
    }
    let last = n - 1;
    if outside(1, 32, r) {
        return Err(Refusal::Rows);
    }
    if outside(1, last, s) {
        return Err(Refusal::Shift);
    }
    if outside(1, 4096, e) {
        return Err(Refusal::Element);
    }
    Ok(Shape { n, r, s, e })
}
