// The map of diagonals: the whole layout that the walker walks over.
ghost use Rattle.std.specs.Prelude.{◌≤◌};
ghost use Rattle.code.specs.Drawn.{drawn};
ghost use Rattle.code.specs.Layout.{Fair};

// Of n data strips and r rows: the diagonal of each row in each data strip, and the strip that stores each diagonal's U.
// It is 1 KiB: it can be copied, as the arrays that it holds, and a walk has it lent.
#[derive(Clone, Copy, Debug, PartialEq, Eq)]
pub struct Map {
    pub diagonals: [[u8; 32]; 32],
    pub homes: [u8; 32],
    pub n: usize,
    pub r: usize,
    pub ghost strips: { n ≤ 32 },
    pub ghost rows: { r ≤ 32 },
    pub ghost fair: { Fair (drawn diagonals homes n r) },
}
