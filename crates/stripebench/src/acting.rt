// What a record does: it sets a shape, or calls on the stripe of the one that is set.
ghost use Rattle.std.specs.Prelude.{◌≡◌, ◌≤◌, length, take};
ghost use Rattle.shape.specs.Shape.{size_of};
ghost use Rattle.stripebench.specs.Acting.{Calls, Acts};
ghost use Rattle.stripebench.specs.Holding.{Ready, Holds, Holds-prop};
ghost use Rattle.stripebench.specs.Replies.{numbered, refused_number};
ghost use Rattle.shape.specs.Refusal.{number_of};

use crate::calling::on_stripe;
use crate::records::{Action, Call};
use crate::replies::{Refused, Reply};
use rebuild::clearing::fill;
use shape::{Refusal, Shape};

// The shape that is set, and the bytes at whose start its stripe stands.
#[derive(Drop)]
pub struct Room {
    pub shape: Option<Shape>,
    pub bytes: [u8; 32768],
    ghost holds: { Holds shape bytes } by { Holds-prop shape bytes },
}

impl Room {
    // Sets a good shape that fits, with a stripe of zeros; another one changes nothing.
    fn judge(&mut self, body: &[u8; 8]) -> Result<Reply, Refusal>
        ensures { Acts Action.Judge body.now self.old.shape self.old.bytes self.new.shape self.new.bytes (numbered number_of result) }
    {
        let [n, r, s, low, high, ..] = *body;
        let e = u16::from_le_bytes([low, high]);
        let (shape, size) = shape::judge(
            usize::from(n),
            usize::from(r),
            usize::from(s),
            usize::from(e),
        )?;
        let room = self.bytes.len();
        if room < size {
            return Err(Refusal::Length);
        }
        fill(&mut self.bytes, 0, size, 0);
        self.shape = Some(shape);
        Ok(Reply::One(size as u64))
    }

    // Does what a record of this action and body says. Without a shape every call on the stripe is refused.
    // It is a match, since the two need different things: a call needs a shape, and judge makes one.
    pub fn act(&mut self, action: Action, body: &[u8; 8]) -> Result<Reply, Refused>
        ensures { Acts action body.now self.old.shape self.old.bytes self.new.shape self.new.bytes (numbered refused_number result) }
    {
        match action {
            Action::Judge => Ok(self.judge(body)?),
            Action::Stripe(call) => {
                let shape = self.shape.ok_or(Refused::NoShape)?;
                Ok(at_start(call, shape, body, &mut self.bytes)?)
            }
        }
    }
}

// Does what the call says, on the stripe at the start of the bytes. `act` lends them whole: of a field of a struct with a ghost field no part
// is lent as `&mut`.
fn at_start(call: Call, shape: Shape, body: &[u8; 8], bytes: &mut [u8]) -> Result<Reply, Refusal>
    requires fits { size_of shape ≤ length bytes.old }
    requires ready { Ready shape (take (size_of shape) bytes.old) }
    ensures len { length bytes.new ≡ length bytes.old }
    ensures calls { Calls call shape body.now (take (size_of shape) bytes.old) (take (size_of shape) bytes.new) (numbered number_of result) }
{
    let size = shape.size();
    on_stripe(call, shape, body, &mut bytes[..size])
}
