// An answer as one 64-bit number: byte 0 is the number that comes back.
ghost use Rattle.std.specs.Prelude.{◌≡◌, ◌≤◌};
ghost use Rattle.shape.specs.Refusal.{lower_of, upper_of};
ghost use Rattle.fiddlefern.specs.Packed.{refusal_packed, answer_packed, finding_values, counted_packed, SmallAnswer, SmallFinding};

use finding::{Counts, Finding};
use shape::Refusal;

// Byte 0 is the number; with 5, bytes 1 and 2 are the lower and the upper strip.
pub fn packed(x: Refusal) -> u64
    requires { (lower_of x ≤ 32) × (upper_of x ≤ 32) }
    ensures { result ≡ refusal_packed x }
{
    let (lower, upper) = x.pair().unwrap_or((0, 0));
    x.number() + (lower as u64) * 256 + (upper as u64) * 65536
}

// An answer that hands nothing back.
pub fn packed_answer(x: Result<(), Refusal>) -> u64
    requires { SmallAnswer x }
    ensures { result ≡ answer_packed 0 x }
{
    match x {
        Ok(()) => 0,
        Err(y) => packed(y),
    }
}

// A finding's number, the row that comes with it, and the diagonal or the strip; 0 where none does, and no Option: the word of the C interface has
// a place for each.
fn values(f: Finding) -> (u64, usize, usize)
    ensures { result ≡ finding_values f }
{
    match f {
        Finding::Sound => (0, 0, 0),
        Finding::H(i) => (1, i, 0),
        Finding::U(d) => (2, 0, d),
        Finding::Element(i, j) => (3, i, j),
        Finding::Several => (4, 0, 0),
    }
}

// Bytes 1 and 2 are the counts, byte 3 the finding's number, byte 4 its row, byte 5 its diagonal or its strip.
pub fn packed_count(c: Counts) -> u64
    requires counts { (c.rows ≤ 32) × (c.diagonals ≤ 32) }
    requires finding { SmallFinding c.finding }
    ensures { result ≡ counted_packed c.rows c.diagonals c.finding }
{
    let (number, row, other) = values(c.finding);
    (c.rows as u64) * 256
        + (c.diagonals as u64) * 65536
        + number * 16777216
        + (row as u64) * 4294967296
        + (other as u64) * 1099511627776
}
