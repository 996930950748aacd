// What came of one lost set, and of many, counted and printed. The counts wrap, so that no bound has to be known.
use crate::trial::Damaged;
use std::fmt;
use std::num::Wrapping;
use std::ops::AddAssign;

// What came of damage to survivors: how many were damaged, those refused, those that another sound stripe agrees with; `unused`: of those
// refused, the parities of lines that no step uses.
#[derive(Clone, Copy, Default)]
pub(crate) struct Seen {
    survivors: Wrapping<u64>,
    refused: Wrapping<u64>,
    other: Wrapping<u64>,
    unused: Wrapping<u64>,
    failures: Wrapping<u64>,
}

impl Seen {
    // Counts what came of one survivor; `unused` says that it is the parity of a line that no step uses.
    pub(crate) fn count(&mut self, came: Damaged, unused: bool) {
        self.survivors += 1;
        match came {
            Damaged::Refused => {
                self.refused += 1;
                self.unused += u64::from(unused);
            }
            Damaged::Other => self.other += 1,
            Damaged::Wrong => {}
        }
        self.failures += u64::from(came.fails(unused));
    }
}

impl AddAssign for Seen {
    fn add_assign(&mut self, other: Self) {
        self.survivors += other.survivors;
        self.refused += other.refused;
        self.other += other.other;
        self.unused += other.unused;
        self.failures += other.failures;
    }
}

// Shapes accepted; lost sets, those that came back, and those without an unused line whose damaged parity was refused (tight); sets where no
// damage was refused, and where all was; and what came of damage.
#[derive(Clone, Copy, Default)]
pub(crate) struct Counts {
    shapes: Wrapping<u64>,
    sets: Wrapping<u64>,
    back: Wrapping<u64>,
    tight: Wrapping<u64>,
    none: Wrapping<u64>,
    all: Wrapping<u64>,
    seen: Seen,
}

impl Counts {
    // Of one accepted shape, with none of its lost sets yet.
    pub(crate) fn of_shape() -> Self {
        Counts {
            shapes: Wrapping(1),
            ..Counts::default()
        }
    }

    // Counts a lost set: whether it came back, and what came of damage.
    pub(crate) fn count(&mut self, back: bool, seen: Seen) {
        self.sets += 1;
        self.back += u64::from(back);
        self.tight += u64::from(seen.unused.0 == 0);
        self.none += u64::from(seen.refused.0 == 0);
        self.all += u64::from(seen.refused == seen.survivors);
        self.seen += seen;
        self.seen.failures += u64::from(!back);
    }

    // How often something came that may not.
    pub(crate) fn failures(&self) -> Wrapping<u64> {
        self.seen.failures
    }
}

impl AddAssign for Counts {
    fn add_assign(&mut self, other: Self) {
        self.shapes += other.shapes;
        self.sets += other.sets;
        self.back += other.back;
        self.tight += other.tight;
        self.none += other.none;
        self.all += other.all;
        self.seen += other.seen;
    }
}

// The counts, each after its word.
impl fmt::Display for Counts {
    fn fmt<W: fmt::Write>(&self, f: &mut fmt::Formatter<W>) -> fmt::Result {
        let seen = self.seen;
        write!(
            f,
            "shapes {} sets {} back {}",
            self.shapes.0, self.sets.0, self.back.0
        )?;
        write!(f, " unused {} tight {}", seen.unused.0, self.tight.0)?;
        write!(
            f,
            " survivors {} refused {} other {}",
            seen.survivors.0, seen.refused.0, seen.other.0
        )?;
        write!(f, " none {} all {}", self.none.0, self.all.0)
    }
}
