// The calls on a stripe: encode, write, read, scrub. Each takes any numbers and any buffer, and checks for itself, in 01's order. At the head
// of each stands `let .. else` on the judged shape, the form that SPEC 12 names, and no `?`.
#![tactic(auto)]

mod encoding;
mod place;
mod reading;

ghost use Rattle.std.specs.Prelude.{◌≡◌, length};
ghost use Rattle.shape.specs.Call.{Answered};
ghost use Rattle.stripe.specs.Opened.{Opens};
ghost use Rattle.stripe.specs.Encode.{Encodes};
ghost use Rattle.stripe.specs.Write.{Writes};
ghost use Rattle.stripe.specs.Read.{read_number, read_part};
ghost use Rattle.stripe.specs.Scrub.{Scrubs};

use finding::Counts;
use lines::Stripe;
use shape::{Refusal, Shape};

// Lines 1 to 6: the judged shape with its size, which is refused also where the buffer's length is not that size.
pub fn opened(n: usize, r: usize, s: usize, e: usize, len: usize) -> Result<(Shape, usize), Refusal>
    ensures { Opens n r s e len result }
{
    let (shape, size) = shape::judge(n, r, s, e)?;
    let other = len != size;
    if other {
        return Err(Refusal::Length);
    }
    Ok((shape, size))
}

// Keeps all data and sets every H and U.
pub fn encode(n: usize, r: usize, s: usize, e: usize, stripe: &mut [u8]) -> Result<(), Refusal>
    ensures { Encodes n r s e stripe.old stripe.new result }
{
    let judged = opened(n, r, s, e, stripe.len());
    let Ok((shape, _)) = judged else {
        return Err(judged.unwrap_err());
    };
    encoding::encode_shape(shape, stripe);
    Ok(())
}

// Replaces the bytes of a data element from offset on by the run; H of its row and U of its diagonal follow.
pub fn write(
    n: usize,
    r: usize,
    s: usize,
    e: usize,
    stripe: &mut [u8],
    row: usize,
    strip: usize,
    offset: usize,
    run: &[u8],
) -> Result<(), Refusal>
    ensures { Writes n r s e row strip offset run.now stripe.old stripe.new result }
{
    let judged = opened(n, r, s, e, stripe.len());
    let Ok((shape, _)) = judged else {
        return Err(judged.unwrap_err());
    };
    if place::outside(shape, row, strip, offset, run.len()) {
        return Err(Refusal::Place);
    }
    patch::write_shape(shape, stripe, row, strip, offset, run);
    Ok(())
}

// Why a read of this row and strip is refused, or that it is not.
pub fn read_check(
    n: usize,
    r: usize,
    s: usize,
    e: usize,
    stripe: &[u8],
    row: usize,
    strip: usize,
) -> Result<(), Refusal>
    ensures { Answered n r s (read_number n r s e (length stripe.now) row strip) result }
{
    let judged = opened(n, r, s, e, stripe.len());
    let Ok((shape, _)) = judged else {
        return Err(judged.unwrap_err());
    };
    if place::outside(shape, row, strip, 0, 0) {
        return Err(Refusal::Place);
    }
    Ok(())
}

// The element of this row and strip, as that part of the stripe; an empty part, and no Result, where read_check refuses:
// read cannot fail, and read_check has the reason.
pub fn read(
    n: usize,
    r: usize,
    s: usize,
    e: usize,
    stripe: &[u8],
    row: usize,
    strip: usize,
) -> &[u8]
    ensures { result.now ≡ read_part n r s e row strip stripe.now }
{
    let len = stripe.len();
    let none = &stripe[0..0];
    let Ok((shape, _)) = opened(n, r, s, e, len) else {
        return none;
    };
    if place::outside(shape, row, strip, 0, 0) {
        return none;
    }
    let stripe = Stripe {
        shape,
        bytes: stripe,
    };
    reading::part(stripe, row, strip)
}

// Counts the rows whose H is wrong and the diagonals whose U is wrong, and says what that finds.
pub fn scrub(n: usize, r: usize, s: usize, e: usize, stripe: &[u8]) -> Result<Counts, Refusal>
    ensures { Scrubs n r s e stripe.now result }
{
    let len = stripe.len();
    let judged = opened(n, r, s, e, len);
    let Ok((shape, _)) = judged else {
        return Err(judged.unwrap_err());
    };
    let stripe = Stripe {
        shape,
        bytes: stripe,
    };
    let counts = finding::scrub_shape(stripe);
    Ok(counts)
}
