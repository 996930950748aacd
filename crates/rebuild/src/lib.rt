// Rebuild: up to two lost strips given back from the others, or the answer that no sound stripe agrees with them.
#![tactic(auto)]

pub mod clearing;
mod mending;
mod stepping;
mod testing;

ghost use Rattle.rebuild.specs.Rebuild.{Rebuilds};

pub use mending::mend;
use shape::Refusal;
use shape::lost::{above, lost_count};

// The strips of the mask are lost: the stripe becomes the sound one that agrees with the rest. At the head `let .. else`, as SPEC 12 names it.
pub fn rebuild(
    n: usize,
    r: usize,
    s: usize,
    e: usize,
    stripe: &mut [u8],
    mask: u64,
) -> Result<(), Refusal>
    ensures { Rebuilds n r s e mask stripe.old stripe.new result }
{
    let judged = stripe::opened(n, r, s, e, stripe.len());
    let Ok((shape, _)) = judged else {
        return Err(judged.unwrap_err());
    };
    if above(mask, n) {
        return Err(Refusal::Mask);
    }
    if 2 < lost_count(mask) {
        return Err(Refusal::Many);
    }
    if mend(shape, stripe, mask) {
        return Ok(());
    }
    Err(Refusal::NoSound)
}
