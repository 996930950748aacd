// A plan: the steps that a walk writes down, each of which builds one lost place.
ghost use Rattle.std.specs.Prelude.{◌≡◌, ◌+◌, ◌<◌, ◌≤◌};

// What a step builds, and by which line; one byte.
#[repr(u8)]
#[derive(Clone, Copy, Debug, PartialEq, Eq)]
pub enum Kind {
    // A data element, by its row.
    ByRow,
    // A data element, by its diagonal.
    ByDiagonal,
    // The H of a row, on strip n.
    H,
    // The U that a strip stores, in row r.
    U,
}

// The place of row `row` in strip `strip` is built. A step is three bytes, and row and strip are no `usize`, for speed: a walk fills 66 steps and
// hands them back, and with `usize` judging the weak shape n=8 r=5 s=1 took 10,199 instructions, with bytes 7,626.
#[derive(Clone, Copy, Debug, PartialEq, Eq)]
pub struct Step {
    pub kind: Kind,
    pub row: u8,
    pub strip: u8,
}

// The first `count` of the steps are written down. It is an array, and no Vec, since nothing here may use the heap; two lost strips have at most
// 66 places.
#[derive(Clone, Copy, Debug, PartialEq, Eq)]
pub struct Plan {
    pub steps: [Step; 66],
    pub count: usize,
    pub ghost room: { count ≤ 66 },
}

impl Plan {
    ghost use Rattle.std.specs.Prelude.{length, take};
    ghost use Rattle.walker.specs.Written.{number, Recorded};

    // No step is written down.
    pub(crate) fn new() -> Plan
        ensures { result.count ≡ 0 }
    {
        let none = Step {
            kind: Kind::ByRow,
            row: 0,
            strip: 0,
        };
        Plan {
            steps: [none; 66],
            count: 0,
        }
    }

    // Writes one step more down.
    pub(crate) fn push(&mut self, kind: Kind, row: usize, strip: usize)
        requires { (self.old.count < 66) × (row ≤ 32) × (strip ≤ 32) }
        ensures { Recorded self.old.steps self.old.count (number kind) row strip self.new.steps self.new.count }
    {
        self.steps[self.count] = Step {
            kind,
            row: row as u8,
            strip: strip as u8,
        };
        self.count += 1;
    }

    // The steps that are written down.
    pub fn steps(&self) -> &[Step]
        ensures count { length result.now ≡ self.now.count }
        ensures steps { result.now ≡ take self.now.count self.now.steps }
    {
        &self.steps[..self.count]
    }
}
