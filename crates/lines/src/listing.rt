// Where elements stand: the place of a row and a strip, and the bytes where the elements of a line start.
ghost use Rattle.std.specs.Prelude.{◌≡◌, ◌+◌, ◌*◌, ◌≤◌, ◌<◌};
ghost use Rattle.code.specs.Layout.{X, places};
ghost use Rattle.shape.specs.Shape.{layout_of};
ghost use Rattle.shape.specs.Answers.{Among};

use shape::Shape;

// The place of row i of strip j: row r is the strip's U, strip n holds the H, and the corner where they would meet is not stored.
pub fn place(shape: Shape, i: usize, j: usize) -> usize
    requires { (i ≤ shape.r) × (j ≤ shape.n) × (i + j < shape.r + shape.n) }
    ensures { Among (places (layout_of shape)) (X (layout_of shape) i j) result }
{
    j * (shape.r + 1) + i
}

// The byte where row i of strip j starts.
fn start(shape: Shape, i: usize, j: usize) -> usize
    requires { (i ≤ shape.r) × (j ≤ shape.n) × (i + j < shape.r + shape.n) }
    ensures { result ≡ X (layout_of shape) i j * shape.e }
{
    place(shape, i, j) * shape.e
}

// A line as a list: the first `count` of the numbers are the bytes where its elements start, its parity last. No line has more than 33.
// It is an array, and no Vec, since nothing here may use the heap.
#[derive(Clone, Copy, Debug, PartialEq, Eq)]
pub struct Listing {
    pub starts: [usize; 33],
    pub count: usize,
    pub ghost room: { count ≤ 33 },
}

impl Listing {
    ghost use Rattle.std.specs.Prelude.{◌-◌, length, get_or, set, take};
    ghost use Rattle.lines.specs.Listed.{Listed};

    // Room for a line, with nothing in it. A loop makes it once and lists each of its lines there, so that it is cleared once and not for every line.
    pub fn new() -> Listing
        ensures { result.count ≡ 0 }
    {
        Listing {
            starts: [0; 33],
            count: 0,
        }
    }

    // Row i: the next element starts a whole strip further on, and H is that of strip n.
    fn row(&mut self, shape: Shape, i: usize)
        requires row { i < shape.r }
        ensures { Listed (layout_of shape) shape.e i self.new.starts self.new.count }
    {
        let m = shape.n + 1;
        let h = shape.r + 1;
        let e = shape.e;
        let step = h * e;
        let mut o = i * e;
        // By number: tried with `iter_mut`, and what that loop leaves in a field of a struct with a ghost field has no name in a proof.
        for v in 0..m {
            self.starts[v] = o;
            o += step;
        }
        self.count = m;
    }

    // Diagonal d: the strip falls by one from row to row, so the next element starts r elements sooner, but after strip 0 comes strip n - 1.
    // One division finds them all, and no product is formed for each.
    fn diagonal(&mut self, shape: Shape, d: usize)
        requires diagonal { d < shape.n }
        ensures { Listed (layout_of shape) shape.e (shape.r + d) self.new.starts self.new.count }
    {
        let r = shape.r;
        let e = shape.e;
        let back = r * e;
        let wrap = start(shape, 1, shape.n - 1);
        let j = shape.meets(0, d);
        let mut o = start(shape, 0, j);
        // By number, as in `row`.
        for i in 0..r {
            self.starts[i] = o;
            o = if back <= o { o - back } else { o + wrap };
        }
        self.starts[r] = start(shape, r, d);
        self.count = r + 1;
    }

    // Line t: the rows, then the diagonals.
    pub fn line(&mut self, shape: Shape, t: usize)
        requires line { t < shape.r + shape.n }
        ensures { Listed (layout_of shape) shape.e t self.new.starts self.new.count }
    {
        let r = shape.r;
        if t < r {
            self.row(shape, t);
        } else {
            self.diagonal(shape, t - r);
        }
    }

    // Takes the start at v out and hands it back; the last one takes its room, as in `Vec`.
    pub fn swap_remove(&mut self, v: usize) -> usize
        requires { v < self.old.count }
        ensures its { result ≡ get_or self.old.starts v 0 }
        ensures starts { self.new.starts ≡ set self.old.starts v (get_or self.old.starts (self.old.count - 1) 0) }
        ensures count { self.new.count ≡ self.old.count - 1 }
    {
        let o = self.starts[v];
        self.starts[v] = self.starts[self.count - 1];
        self.count -= 1;
        o
    }

    // The starts that are listed.
    pub fn starts(&self) -> &[usize]
        ensures { result.now ≡ take self.now.count self.now.starts }
    {
        &self.starts[..self.count]
    }
}
