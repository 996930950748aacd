// Why a call is refused: the numbers 1 to 10 that come back.
ghost use Rattle.std.specs.Prelude.{◌≡◌};
ghost use Rattle.shape.specs.Refusal.{number_of, pair_of};

#[derive(Clone, Copy, Debug, PartialEq, Eq)]
pub enum Refusal {
    Strips,
    Rows,
    Shift,
    Element,
    // The pair of strips that fails, the lower one first.
    Weak(usize, usize),
    Length,
    Mask,
    Many,
    Place,
    NoSound,
}

impl Refusal {
    // The number that comes back. It is no From for u64, since a refusal gives two values, and a conversion would not say which.
    pub fn number(self) -> u64
        ensures { result ≡ number_of self }
    {
        match self {
            Refusal::Strips => 1,
            Refusal::Rows => 2,
            Refusal::Shift => 3,
            Refusal::Element => 4,
            Refusal::Weak(_, _) => 5,
            Refusal::Length => 6,
            Refusal::Mask => 7,
            Refusal::Many => 8,
            Refusal::Place => 9,
            Refusal::NoSound => 10,
        }
    }

    // The pair of strips that comes with a weak shape.
    pub fn pair(self) -> Option<(usize, usize)>
        ensures { result ≡ pair_of self }
    {
        match self {
            Refusal::Weak(a, b) => Some((a, b)),
            _ => None,
        }
    }
}
