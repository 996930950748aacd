// How answers, bytes and findings are printed.
use finding::Finding;
use shape::Refusal;
use std::fmt::{self, Display};
use std::io;

// Bytes, each after a space, in hexadecimal digits.
#[derive(Clone, Copy)]
struct Hex<'a>(&'a [u8]);

impl Display for Hex<'_> {
    fn fmt<W: fmt::Write>(&self, f: &mut fmt::Formatter<W>) -> fmt::Result {
        for b in self.0 {
            write!(f, " {b:02X}")?;
        }
        Ok(())
    }
}

// What scrub found, in words; a type of its own, since `Finding` is another crate's.
#[derive(Clone, Copy)]
pub(crate) struct Found(pub Finding);

impl Display for Found {
    fn fmt<W: fmt::Write>(&self, f: &mut fmt::Formatter<W>) -> fmt::Result {
        match self.0 {
            Finding::Sound => write!(f, "sound"),
            Finding::H(i) => write!(f, "H {i}"),
            Finding::U(d) => write!(f, "U {d}"),
            Finding::Element(i, j) => write!(f, "element {i} {j}"),
            Finding::Several => write!(f, "several"),
        }
    }
}

// The number of an answer: 0 where the call is done. It is no From, since neither type is of this crate.
fn number(answer: Result<(), Refusal>) -> u64 {
    answer.err().map_or(0, |refusal| refusal.number())
}

// What was called, the number of its answer, and bytes.
pub(crate) fn line(
    rt: &impl Print,
    call: impl Display + Drop,
    answer: Result<(), Refusal>,
    bytes: &[u8],
) -> io::Result<()> {
    println!(rt; "{call} {}{}", number(answer), Hex(bytes))
}
