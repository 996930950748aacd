// A strip filled with a value. A lost strip is cleared: filled with zero, so that what is lost is no longer read as data.
ghost use Rattle.std.specs.Prelude.{◌≡◌, ◌+◌, ◌*◌, ◌≤◌, length};
ghost use Rattle.element.specs.Filled.{Filled};
ghost use Rattle.shape.specs.Shape.{layout_of, size_of};
ghost use Rattle.rebuild.specs.Clear.{Rows, FillsStrip};

use shape::Shape;

// The rows that a strip stores: the last one has no corner.
pub fn rows(shape: Shape, strip: usize) -> usize
    ensures { Rows (layout_of shape) strip result }
{
    let r = shape.r;
    if strip < shape.n { r + 1 } else { r }
}

// The m bytes from d on become value.
pub fn fill(stripe: &mut [u8], d: usize, m: usize, value: u8)
    requires { d + m ≤ length stripe.old }
    ensures { Filled stripe.old d m (λ k. value) stripe.new }
{
    stripe[d..d + m].fill(value);
}

// Every byte of the strip becomes value; nothing else changes.
pub fn fill_strip(shape: Shape, strip: usize, value: u8, stripe: &mut [u8])
    requires strip { strip ≤ shape.n }
    requires size { length stripe.old ≡ size_of shape }
    ensures { FillsStrip (layout_of shape) shape.e strip value stripe.old stripe.new }
{
    let m = rows(shape, strip);
    let e = shape.e;
    let d = strip * (shape.r + 1) * e;
    fill(stripe, d, m * e, value);
}
