// Records: what a kind says of its body's length and of what is done.
ghost use Rattle.stripebench.specs.Records.{Decodes};

// A call on the stripe that is there.
#[derive(Clone, Copy, Debug, PartialEq, Eq)]
pub enum Call {
    Write,
    Rebuild,
    Scrub,
    Read,
}

#[derive(Clone, Copy, Debug, PartialEq, Eq)]
pub enum Action {
    // A shape is judged, and a good one makes a new stripe.
    Judge,
    Stripe(Call),
}

// The bytes of a record's body, and what is done with them.
#[derive(Clone, Copy, Debug, PartialEq, Eq)]
pub struct Record {
    pub length: usize,
    pub action: Action,
}

// A byte that is the kind of no record.
#[derive(Clone, Copy, Debug, PartialEq, Eq)]
pub struct UnknownKind(pub u8);

// What a record's first byte says of it.
impl TryFrom<u8> for Record {
    type Error = UnknownKind;

    ghost try_from_gives = { Decodes };

    fn try_from(kind: u8) -> Result<Self, UnknownKind> {
        let (length, action) = match kind {
            1 => (5, Action::Judge),
            2 => (5, Action::Stripe(Call::Write)),
            3 => (8, Action::Stripe(Call::Rebuild)),
            4 => (0, Action::Stripe(Call::Scrub)),
            5 => (2, Action::Stripe(Call::Read)),
            _ => return Err(UnknownKind(kind)),
        };
        Ok(Record { length, action })
    }
}
