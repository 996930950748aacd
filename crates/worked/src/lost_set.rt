// A lost set of one or two strips of a stripe at e = 3, and its bytes: which are lost, and whether they and the survivors are what they
// should be.
ghost use Rattle.std.specs.Prelude.{◌≡◌, ◌<◌, ◌≤◌, length};

use shape::Shape;
use std::fmt;

// e, the bytes of an element.
pub(crate) const E: usize = 3;

// A number that is added to a byte.
#[derive(Clone, Copy)]
pub(crate) struct Damage {
    pub byte: usize,
    pub number: u8,
}

// Byte k, which is y, after the damage, if any.
fn changed(damage: Option<Damage>, k: usize, y: u8) -> u8 {
    match damage {
        Some(d) if k == d.byte => y ^ d.number,
        _ => y,
    }
}

// The shape's strips a and b are lost, which are one strip where they are the same, as the walker takes them.
#[derive(Clone, Copy)]
pub(crate) struct LostSet {
    pub shape: Shape,
    pub a: usize,
    pub b: usize,
    ghost strips: { (a ≤ b) × (b ≤ shape.n) },
}

impl fmt::Display for LostSet {
    fn fmt<W: fmt::Write>(&self, f: &mut fmt::Formatter<W>) -> fmt::Result {
        let Shape { n, r, s, .. } = self.shape;
        write!(f, "n {n} r {r} s {s} lost {} and {}", self.a, self.b)
    }
}

impl LostSet {
    // How many strips are lost.
    pub(crate) fn count(self) -> usize {
        if self.a == self.b { 1 } else { 2 }
    }

    // A number of its own for each shape and lost set.
    pub(crate) fn seed(self) -> u64
        ensures { result < 2147483647 }
    {
        let Shape { n, r, s, .. } = self.shape;
        ((((n * 33 + r) * 33 + s) * 33 + self.a) * 33 + self.b) as u64
    }

    // The lost strips as a mask.
    pub(crate) fn mask(self) -> u64 {
        (1 << self.a) | (1 << self.b)
    }

    // Whether strip j is lost.
    fn has(self, j: usize) -> bool {
        j == self.a || j == self.b
    }

    // Whether place p stands in a lost strip.
    pub(crate) fn has_place(self, p: usize) -> bool {
        self.has(p / (self.shape.r + 1))
    }

    // Whether byte k does. One division finds its strip, as it is asked of every byte.
    fn has_byte(self, k: usize) -> bool {
        self.has(k / (E * (self.shape.r + 1)))
    }

    // The room becomes the stripe with the damage, and FF in the lost strips.
    pub(crate) fn lose(self, stripe: &[u8], damage: Option<Damage>, room: &mut [u8])
        requires { length stripe.now ≡ length room.old }
    {
        for ((k, y), &x) in room.iter_mut().enumerate().zip(stripe) {
            *y = if self.has_byte(k) {
                0xff
            } else {
                changed(damage, k, x)
            };
        }
    }

    // Whether the survivors of the room are those of the stripe with the damage.
    pub(crate) fn kept(self, stripe: &[u8], damage: Option<Damage>, room: &[u8]) -> bool
        requires { length stripe.now ≡ length room.now }
    {
        room.iter().zip(stripe).enumerate().all(|(k, (&y, &x))| self.has_byte(k)
            || y == changed(damage, k, x))
    }

    // Whether every byte of the lost strips is zero.
    pub(crate) fn cleared(self, room: &[u8]) -> bool {
        room.iter()
            .enumerate()
            .all(|(k, &y)| !self.has_byte(k) || y == 0)
    }
}
