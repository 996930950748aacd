// Short write: a run of bytes of one data element, with H of its row and U of its diagonal.
#![tactic(auto)]

ghost use Rattle.std.specs.Prelude.{◌≡◌, ◌+◌, ◌-◌, ◌*◌, ◌≤◌, ◌<◌, length, get_or};
ghost use Rattle.shape.specs.Shape.{layout_of, size_of};
ghost use Rattle.patch.specs.Written.{written_over};
ghost use Rattle.patch.specs.Patch.{Touches, Spots, Patched};

use lines::place;
use shape::Shape;

// The places that a write touches: the data element, H of its row and U of its diagonal.
#[derive(Clone, Copy)]
struct Touched {
    pub x: usize,
    pub h: usize,
    pub u: usize,
}

// The places of row and strip, of their H and of their U.
fn places(shape: Shape, row: usize, strip: usize) -> Touched
    requires { (row < shape.r) × (strip < shape.n) }
    ensures { Touches (layout_of shape) row strip result }
{
    let n = shape.n;
    let r = shape.r;
    let d = shape.diagonal(row, strip);
    let x = place(shape, row, strip);
    let h = place(shape, row, n);
    let u = place(shape, r, d);
    Touched { x, h, u }
}

// A block of a write, at most 128 bytes, from byte o of each element on: it is the new data at t.x; old and new are added at t.h and t.u.
fn patch(stripe: &mut [u8], e: usize, t: Touched, o: usize, block: &[u8])
    requires spots { Spots stripe.old e t.x t.h t.u }
    requires block { (o + length block.now ≤ e) × (length block.now ≤ 128) × (1 ≤ e) }
    ensures { Patched e t.x t.h t.u o (length block.now) (λ k. get_or block.now (k - o) 0) stripe.old stripe.new }
{
    let m = block.len();
    let x = t.x * e + o;
    let h = t.h * e + o;
    let u = t.u * e + o;
    let d = element::delta(stripe, x, block, 0, m);
    let sum = &d[..m];
    element::add_at(stripe, x, sum);
    element::add_at(stripe, h, sum);
    element::add_at(stripe, u, sum);
}

// The run written at row, strip and offset, whatever the stripe holds: blocks of 128 bytes, and what is left of the run. They are not the `chunks` of
// the run, whose last may be shorter: 4096 bytes then took 6592 instructions and not 2891, as no block is known to have 128.
pub fn write_shape(
    shape: Shape,
    stripe: &mut [u8],
    row: usize,
    strip: usize,
    offset: usize,
    run: &[u8],
)
    requires size { length stripe.old ≡ size_of shape }
    requires place { (row < shape.r) × (strip < shape.n) × (offset + length run.now ≤ shape.e) }
    ensures { stripe.new ≡ written_over (layout_of shape) shape.e row strip offset run.now stripe.old }
{
    let e = shape.e;
    let t = places(shape, row, strip);
    let mut c = 0;
    for block in run.chunks_exact(128) {
        patch(stripe, e, t, offset + c, block);
        c += block.len();
    }
    let rest = &run[c..];
    let left = 0 < rest.len();
    if left {
        patch(stripe, e, t, offset + c, rest);
    }
}
