// The map of diagonals of a shape: each row and strip's diagonal, and the strips that store their parities.
ghost use Rattle.std.specs.Prelude.{◌+◌, ◌%◌, ◌<◌, ◌≤◌};
ghost use Rattle.shape.specs.Answers.{Among};
ghost use Rattle.shape.specs.Map.{Turned, Filled, Homes, Maps};

use crate::shapes::Shape;
use walker::Map;

// The diagonal after d, round the n of them.
fn next(d: usize, n: usize) -> usize
    requires { (d < n) × (n ≤ 32) }
    ensures { Among n ((d + 1) % n) result }
{
    let x = d + 1;
    if x < n { x } else { 0 }
}

// The n diagonals from d on, round them.
fn turned(d: usize, n: usize) -> [u8; 32]
    requires { (d < n) × (n ≤ 32) }
    ensures { Turned result d n n }
{
    let mut t = [0u8; 32];
    let mut x = d;
    for entry in t[..n].iter_mut() {
        *entry = x as u8;
        x = next(x, n);
    }
    t
}

// Every row is the one above it turned by one, so one division finds them all.
fn diagonals_of(shape: Shape) -> [[u8; 32]; 32]
    ensures { Filled result shape.n shape.r shape.s }
{
    let n = shape.n;
    let mut d = shape.diagonal(0, 0);
    let mut g = [[0u8; 32]; 32];
    for row in g[..shape.r].iter_mut() {
        *row = turned(d, n);
        d = next(d, n);
    }
    g
}

// The strip that stores the parity of diagonal d is strip d.
fn homes() -> [u8; 32]
    ensures { Homes result }
{
    turned(0, 32)
}

// The map of a shape.
pub fn map_of(shape: Shape) -> Map
    ensures { Maps shape result }
{
    Map {
        diagonals: diagonals_of(shape),
        homes: homes(),
        n: shape.n,
        r: shape.r,
    }
}
