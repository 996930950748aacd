// Numbers in, a judged shape out: a good shape with its size, or the refusal.
#![tactic(auto)]

pub mod bound;
pub mod limits;
pub mod lost;
pub mod map;
pub mod pairs;
pub mod refusal;
pub mod shapes;

ghost use Rattle.std.specs.Prelude.{◌≤◌};
ghost use Rattle.shape.specs.Judge.{Judges};

pub use limits::within;
pub use refusal::Refusal;
pub use shapes::Shape;

// The shape of four numbers, with the bytes of its stripe, or the first of the refusals 1 to 5 that holds.
pub fn judge(n: usize, r: usize, s: usize, e: usize) -> Result<(Shape, usize), Refusal>
    ensures { Judges n r s e result }
{
    let shape = within(n, r, s, e)?;
    judge_shape(shape)
}

// A shape within the limits: good or weak by the bound; only a weak one pays for the search of its pair.
fn judge_shape(shape: Shape) -> Result<(Shape, usize), Refusal>
    ensures { Judges shape.n shape.r shape.s shape.e result }
{
    let n = shape.n;
    let r = shape.r;
    let s = shape.s;
    if bound::good(n, r, s) {
        return Ok((shape, shape.size()));
    }
    // An element lies on its own strip's diagonal: strips 0 and 1 fail at once, also where a strip has a diagonal twice.
    let over = n < r + s;
    if over {
        return Err(Refusal::Weak(0, 1));
    }
    judge_pairs(shape)
}

// The same by the pairs of its map alone, in order.
fn judge_pairs(shape: Shape) -> Result<(Shape, usize), Refusal>
    requires { shape.r ≤ shape.n }
    ensures { Judges shape.n shape.r shape.s shape.e result }
{
    match pairs::first_failing(map::map_of(shape)) {
        Some((a, b)) => Err(Refusal::Weak(a, b)),
        None => Ok((shape, shape.size())),
    }
}
