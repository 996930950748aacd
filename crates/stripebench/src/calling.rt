// The calls on the stripe that is there: kinds 2 to 5.
ghost use Rattle.std.specs.Prelude.{◌≡◌};
ghost use Rattle.shape.specs.Refusal.{number_of};
ghost use Rattle.stripebench.specs.Acting.{write_reply, write_stripe, rebuild_reply, scrub_reply, read_reply, Calls};
ghost use Rattle.stripebench.specs.Holding.{Ready};
ghost use Rattle.stripebench.specs.Replies.{numbered};

use crate::records::Call;
use crate::replies::Reply;
use crate::ruining::ruin;
use shape::lost::{above, lost_count};
use shape::{Refusal, Shape};

// Writes one byte.
fn write(shape: Shape, body: &[u8; 8], stripe: &mut [u8]) -> Result<Reply, Refusal>
    ensures reply { numbered number_of result ≡ write_reply shape body.now stripe.old }
    ensures stripe { stripe.new ≡ write_stripe shape body.now stripe.old }
{
    let [row, strip, low, high, value, ..] = *body;
    let offset = u16::from_le_bytes([low, high]);
    stripe::write(
        shape.n,
        shape.r,
        shape.s,
        shape.e,
        stripe,
        usize::from(row),
        usize::from(strip),
        usize::from(offset),
        &[value],
    )?;
    Ok(Reply::Done)
}

// Loses the strips of a mask and gives them back.
fn rebuild(shape: Shape, body: &[u8; 8], stripe: &mut [u8]) -> Result<Reply, Refusal>
    requires { Ready shape stripe.old }
    ensures reply { numbered number_of result ≡ rebuild_reply shape body.now stripe.old }
    ensures stripe { stripe.new ≡ stripe.old }
{
    let mask = u64::from_le_bytes(*body);
    if above(mask, shape.n) {
        return Err(Refusal::Mask);
    }
    let lost = lost_count(mask);
    if 2 < lost {
        return Err(Refusal::Many);
    }
    ruin(shape, mask, stripe);
    rebuild::rebuild(shape.n, shape.r, shape.s, shape.e, stripe, mask)?;
    Ok(Reply::One(u64::from(lost)))
}

// Counts the wrong rows and the wrong diagonals.
fn scrub(shape: Shape, stripe: &[u8]) -> Result<Reply, Refusal>
    ensures { numbered number_of result ≡ scrub_reply shape stripe.now }
{
    let counts = stripe::scrub(shape.n, shape.r, shape.s, shape.e, stripe)?;
    Ok(Reply::Two(counts.rows as u64, counts.diagonals as u64))
}

// Reads the first byte of an element.
fn read(shape: Shape, body: &[u8; 8], stripe: &[u8]) -> Result<Reply, Refusal>
    ensures { numbered number_of result ≡ read_reply shape body.now stripe.now }
{
    let Shape { n, r, s, e } = shape;
    let row = usize::from(body[0]);
    let strip = usize::from(body[1]);
    stripe::read_check(n, r, s, e, stripe, row, strip)?;
    let element = stripe::read(n, r, s, e, stripe, row, strip);
    Ok(Reply::One(u64::from(element[0])))
}

// Does what the call says. It is a match, since the four take different arguments, the stripe lent to write or to read.
pub fn on_stripe(
    call: Call,
    shape: Shape,
    body: &[u8; 8],
    stripe: &mut [u8],
) -> Result<Reply, Refusal>
    requires { Ready shape stripe.old }
    ensures { Calls call shape body.now stripe.old stripe.new (numbered number_of result) }
{
    match call {
        Call::Write => write(shape, body, stripe),
        Call::Rebuild => rebuild(shape, body, stripe),
        Call::Scrub => scrub(shape, stripe),
        Call::Read => read(shape, body, stripe),
    }
}
