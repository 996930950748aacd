// The C boundary: exports, and how an answer becomes one 64-bit number.
#![tactic(auto)]

mod packing;

ghost use Rattle.fiddlefern.specs.Packed.{JudgeAnswer, EncodeAnswer, WriteAnswer, ReadAnswer, ScrubAnswer, RebuildAnswer, VersionAnswer};

use packing::{packed, packed_answer, packed_count};

// Judges a shape: 0 with the stripe's size in the upper 32 bits, or the refusal.
#[unsafe(no_mangle)]
pub extern "C" fn fiddlefern_judge(n: usize, r: usize, s: usize, e: usize) -> u64
    ensures { JudgeAnswer n r s e result }
{
    match shape::judge(n, r, s, e) {
        Ok((_, size)) => (size as u64) * 4294967296,
        Err(x) => packed(x),
    }
}

// Keeps all data and sets every H and U: 0, or the refusal.
#[unsafe(no_mangle)]
pub extern "C" fn fiddlefern_encode(
    n: usize,
    r: usize,
    s: usize,
    e: usize,
    stripe: &mut [u8],
) -> u64
    ensures { EncodeAnswer n r s e stripe.old stripe.new result }
{
    packed_answer(stripe::encode(n, r, s, e, stripe))
}

// Replaces the bytes of a data element from offset on by the run; H of its row and U of its diagonal follow: 0, or the refusal.
#[unsafe(no_mangle)]
pub extern "C" fn fiddlefern_write(
    n: usize,
    r: usize,
    s: usize,
    e: usize,
    stripe: &mut [u8],
    row: usize,
    strip: usize,
    offset: usize,
    run: &[u8],
) -> u64
    ensures { WriteAnswer n r s e row strip offset run.now stripe.old stripe.new result }
{
    packed_answer(stripe::write(n, r, s, e, stripe, row, strip, offset, run))
}

// Where the element of this row and strip stands: 0 with its byte offset in the upper 32 bits, or the refusal.
#[unsafe(no_mangle)]
pub extern "C" fn fiddlefern_read(
    n: usize,
    r: usize,
    s: usize,
    e: usize,
    stripe: &[u8],
    row: usize,
    strip: usize,
) -> u64
    ensures { ReadAnswer n r s e row strip stripe.now result }
{
    match stripe::read_check(n, r, s, e, stripe, row, strip) {
        Ok(()) => (((strip * (r + 1) + row) * e) as u64) * 4294967296,
        Err(x) => packed(x),
    }
}

// Counts the wrong rows and the wrong diagonals: 0 with the counts and what they find in bytes 1 to 5, or the refusal.
#[unsafe(no_mangle)]
pub extern "C" fn fiddlefern_scrub(n: usize, r: usize, s: usize, e: usize, stripe: &[u8]) -> u64
    ensures { ScrubAnswer n r s e stripe.now result }
{
    match stripe::scrub(n, r, s, e, stripe) {
        Ok(counts) => packed_count(counts),
        Err(x) => packed(x),
    }
}

// Gives the strips of the mask back from the others: 0, or the refusal.
#[unsafe(no_mangle)]
pub extern "C" fn fiddlefern_rebuild(
    n: usize,
    r: usize,
    s: usize,
    e: usize,
    stripe: &mut [u8],
    mask: u64,
) -> u64
    ensures { RebuildAnswer n r s e mask stripe.old stripe.new result }
{
    packed_answer(rebuild::rebuild(n, r, s, e, stripe, mask))
}

const MAJOR: u64 = 0;

const MINOR: u64 = 2;

const PATCH: u64 = 0;

// The version of this archive: byte 2 is the major number, byte 1 the minor one, byte 0 the patch.
#[unsafe(no_mangle)]
pub extern "C" fn fiddlefern_version() -> u64
    ensures { VersionAnswer result }
{
    MAJOR * 65536 + MINOR * 256 + PATCH
}
