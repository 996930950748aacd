// A trial of a lost set: a stripe loses it and is rebuilt, from sound survivors or from damaged ones, and every byte is compared.
ghost use Rattle.std.specs.Prelude.{◌≡◌, ◌+◌, ◌*◌, ◌/◌, ◌<◌, length};

use crate::lost_set::{Damage, E, LostSet};
use crate::random::Random;
use crate::unused::{unused_parity, used_lines};
use shape::{Refusal, Shape};

// What rebuild makes of damaged survivors: 10 and the lost strips zero; or 0 and a sound stripe, other than the one that was damaged; both with
// the survivors kept as they stand. Wrong is anything else.
#[derive(Clone, Copy)]
pub(crate) enum Damaged {
    Refused,
    Other,
    Wrong,
}

impl Damaged {
    // Whether it may not come; `unused` says that the parity of a line that no step uses was damaged, which must be refused.
    pub(crate) fn fails(self, unused: bool) -> bool {
        match self {
            Damaged::Refused => false,
            Damaged::Other => unused,
            Damaged::Wrong => true,
        }
    }
}

// Makes the stripe a sound one, of data that are other ones for each shape and lost set; whether encode answered 0.
pub(crate) fn fresh(lost: LostSet, stripe: &mut [u8]) -> bool {
    for (x, y) in stripe.iter_mut().zip(Random::new(lost.seed())) {
        *x = y;
    }
    let Shape { n, r, s, .. } = lost.shape;
    stripe::encode(n, r, s, E, stripe).is_ok()
}

// Whether scrub counts no wrong line.
fn sound(shape: Shape, stripe: &[u8]) -> bool {
    let Shape { n, r, s, .. } = shape;
    stripe::scrub(n, r, s, E, stripe).is_ok_and(|x| x.rows == 0 && x.diagonals == 0)
}

// A lost set, the lines that its plan uses, which are marked, and a sound stripe, which loses the set and is rebuilt in a room of its length.
#[derive(Clone, Copy)]
pub(crate) struct Trial<'a> {
    pub lost: LostSet,
    used: [bool; 64],
    stripe: &'a [u8],
}

impl<'a> Trial<'a> {
    pub(crate) fn new(lost: LostSet, stripe: &'a [u8]) -> Self
        ensures { result.stripe.now ≡ stripe.now }
    {
        let used = used_lines(lost);
        Trial { lost, used, stripe }
    }

    // The places of the stripe.
    pub(crate) fn places(&self) -> usize
        ensures { result ≡ length self.now.stripe.now / 3 }
    {
        self.stripe.len() / E
    }

    // Whether place p is the parity of a line that the plan does not use.
    pub(crate) fn unused_parity(&self, p: usize) -> bool {
        unused_parity(self.lost.shape, &self.used, p)
    }

    // Loses the set from the stripe with the damage, and rebuilds it in the room.
    fn rebuild(&self, damage: Option<Damage>, room: &mut [u8]) -> Result<(), Refusal>
        requires { length self.now.stripe.now ≡ length room.old }
    {
        let Shape { n, r, s, .. } = self.lost.shape;
        self.lost.lose(self.stripe, damage, room);
        rebuild::rebuild(n, r, s, E, room, self.lost.mask())
    }

    // Whether the stripe comes back from the loss: answer 0, and every byte is the same.
    pub(crate) fn comes_back(&self, room: &mut [u8]) -> bool
        requires { length self.now.stripe.now ≡ length room.old }
    {
        self.rebuild(None, room).is_ok() && self.stripe == &*room
    }

    // What rebuild makes of the stripe with damage to place p: a number that is not 0, another one for each place, is added to one byte of it.
    pub(crate) fn damaged(&self, p: usize, room: &mut [u8]) -> Damaged
        requires place { p * 3 + 2 < length self.now.stripe.now }
        requires size { length self.now.stripe.now ≡ length room.old }
    {
        let damage = Some(Damage {
            byte: p * E + p % E,
            number: (p % 255 + 1) as u8,
        });
        let answer = self.rebuild(damage, room);
        if !self.lost.kept(self.stripe, damage, room) {
            return Damaged::Wrong;
        }
        match answer {
            Err(Refusal::NoSound) if self.lost.cleared(room) => Damaged::Refused,
            Ok(()) if sound(self.lost.shape, room) => Damaged::Other,
            _ => Damaged::Wrong,
        }
    }
}
