// A shape within the limits, weak or not, and what it answers of itself.
ghost use Rattle.std.specs.Prelude.{◌≡◌, ◌<◌};
ghost use Rattle.code.specs.Shift.{diagonal, meets};
ghost use Rattle.shape.specs.Limits.{Limits};
ghost use Rattle.shape.specs.Answers.{Sized, Among};

// n data strips of r rows, shift s, elements of e bytes; every value is within the limits.
#[derive(Clone, Copy, Debug, PartialEq, Eq)]
pub struct Shape {
    pub n: usize,
    pub r: usize,
    pub s: usize,
    pub e: usize,
    pub ghost limits: { Limits n r s e },
}

impl Shape {
    // The bytes of a stripe.
    pub fn size(self) -> usize
        ensures { Sized self.n self.r self.e result }
    {
        self.e * (self.n * (self.r + 1) + self.r)
    }

    // The diagonal of row i of strip j. The multiple of n in front keeps the difference from falling below zero.
    pub fn diagonal(self, i: usize, j: usize) -> usize
        requires { (i < self.r) × (j < self.n) }
        ensures { Among self.n (diagonal self.n self.r self.s i j) result }
    {
        let n = self.n;
        let c = self.r - 1 + self.s;
        (n * c + j + i - c) % n
    }

    // The strip where row i meets diagonal d.
    pub fn meets(self, i: usize, d: usize) -> usize
        requires { (i < self.r) × (d < self.n) }
        ensures { Among self.n (meets self.n self.r self.s i d) result }
    {
        let n = self.n;
        let r = self.r;
        (d + (r - 1 - i) + self.s) % n
    }
}
