// Replies: what a record answers, and the text of it on the record's line, in decimal with single spaces.
ghost use Rattle.std.specs.Prelude.{◌≡◌, Some};
ghost use Rattle.stripebench.specs.declared.replies.Refused.TheVariants.{Library};
ghost use Rattle.stripebench.specs.Replies.{refused_number, reply_text, refused_text};

use shape::Refusal;
use std::fmt;

// What comes with a record that is done: no number, one or two, which no Option says.
#[derive(Clone, Copy, Debug, PartialEq, Eq)]
pub enum Reply {
    Done,
    One(u64),
    Two(u64, u64),
}

// Why nothing is done: the library refuses it, or no shape is set yet.
#[derive(Clone, Copy, Debug, PartialEq, Eq)]
pub enum Refused {
    Library(Refusal),
    NoShape,
}

impl Refused {
    pub fn number(self) -> u64
        ensures { result ≡ refused_number self }
    {
        match self {
            Refused::Library(x) => x.number(),
            Refused::NoShape => 11,
        }
    }
}

impl From<Refusal> for Refused {
    ghost from_gives = { λ x r. r ≡ Library x };

    fn from(x: Refusal) -> Self {
        Self::Library(x)
    }
}

// 0 with what comes with it.
impl fmt::Display for Reply {
    ghost output = { λ x. Some (reply_text x) };

    fn fmt<W: fmt::Write>(&self, f: &mut fmt::Formatter<W>) -> fmt::Result {
        match self {
            Reply::Done => write!(f, "0"),
            Reply::One(x) => write!(f, "0 {x}"),
            Reply::Two(x, y) => write!(f, "0 {x} {y}"),
        }
    }
}

// The number alone.
impl fmt::Display for Refused {
    ghost output = { λ x. Some (refused_text x) };

    fn fmt<W: fmt::Write>(&self, f: &mut fmt::Formatter<W>) -> fmt::Result {
        let number = self.number();
        write!(f, "{number}")
    }
}
