// Judges every n, r and s from 0 to 33 at e = 1, and prints how many inputs give each number and what the named pairs add up to.
use shape::Refusal;
use std::io;
use std::num::Wrapping;

// How many inputs gave each number, and the sums of the pairs' strips. They wrap, so that no bound has to be known.
#[derive(Clone, Copy, Default)]
struct Tally {
    good: Wrapping<u64>,
    strips: Wrapping<u64>,
    rows: Wrapping<u64>,
    shift: Wrapping<u64>,
    element: Wrapping<u64>,
    weak: Wrapping<u64>,
    lower: Wrapping<u64>,
    upper: Wrapping<u64>,
}

impl Tally {
    // Counts the answer for n, r and s.
    fn count(&mut self, n: usize, r: usize, s: usize) {
        let Err(refusal) = shape::judge(n, r, s, 1) else {
            self.good += 1;
            return;
        };
        match refusal {
            Refusal::Strips => self.strips += 1,
            Refusal::Rows => self.rows += 1,
            Refusal::Shift => self.shift += 1,
            Refusal::Element => self.element += 1,
            Refusal::Weak(a, b) => {
                self.weak += 1;
                self.lower += a as u64;
                self.upper += b as u64;
            }
            _ => {}
        }
    }

    // Counts the answers for n with every r and s from 0 to 33.
    fn count_strips(&mut self, n: usize) {
        for r in 0..34 {
            for s in 0..34 {
                self.count(n, r, s);
            }
        }
    }
}

// How many of all inputs give each number.
pub(crate) fn totals(rt: &impl Print) -> io::Result<()> {
    let mut t = Tally::default();
    for n in 0..34 {
        t.count_strips(n);
    }
    println!(rt; "0 {}", t.good.0)?;
    println!(rt; "1 {}", t.strips.0)?;
    println!(rt; "2 {}", t.rows.0)?;
    println!(rt; "3 {}", t.shift.0)?;
    println!(rt; "4 {}", t.element.0)?;
    println!(rt; "5 {}", t.weak.0)?;
    println!(rt; "upper {}", t.upper.0)?;
    println!(rt; "lower {}", t.lower.0)
}

// How many shapes of each n from 3 to 32 are good and weak.
pub(crate) fn by_strips(rt: &impl Print) -> io::Result<()> {
    for n in 3..33 {
        let mut t = Tally::default();
        t.count_strips(n);
        println!(rt;
            "n {n} good {} weak {} upper {}",
            t.good.0, t.weak.0, t.upper.0
        )?;
    }
    Ok(())
}
