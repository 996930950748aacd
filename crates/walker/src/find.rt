// The searches of the walker: which element of a row or of a diagonal is its one unknown, and whether a strip is built.
ghost use Rattle.std.specs.Prelude.{◌≡◌, ◌<◌, ◌≤◌, get_or, false};
ghost use Rattle.std.specs.List.{list_all};
ghost use Rattle.code.specs.Drawn.{cell};
ghost use Rattle.code.specs.Live.{row, diagonal};
ghost use Rattle.walker.specs.Search.{OpenAt, NextOn, FoundOn, StripBuilt};

use crate::lost::Lost;

impl Lost<'_> {
    ghost use Rattle.walker.specs.Lines.{layout, lost};

    // Is the element of row i in strip c on diagonal d and not built? Strip n has no data.
    fn open_at(&self, built: &[[bool; 32]; 32], c: usize, d: usize, i: usize) -> bool
        requires { i < 32 }
        ensures { OpenAt (cell self.now.map.now.diagonals) self.now.map.now.n built.now c d i result }
    {
        c < self.map.n && usize::from(self.map.diagonals[i][c]) == d && !built[i][c]
    }

    // The first unknown element of diagonal d, from row `from` on: its row and its strip.
    fn next_on(&self, built: &[[bool; 32]; 32], d: usize, from: usize) -> Option<(usize, usize)>
        requires { from ≤ self.now.map.now.r }
        ensures { NextOn (cell self.now.map.now.diagonals) self.now.map.now.n self.now.map.now.r (lost self.now) built.now d from result }
    {
        for i in from..self.map.r {
            if self.open_at(built, self.a, d, i) {
                return Some((i, self.a));
            }
            if self.open_at(built, self.b, d, i) {
                return Some((i, self.b));
            }
        }
        None
    }

    // The one unknown element of diagonal d, where the diagonal is live and has exactly one.
    pub fn lone_on_diagonal(&self, built: &[[bool; 32]; 32], d: usize) -> Option<(usize, usize)>
        requires { d < self.now.map.now.n }
        ensures { FoundOn (layout self.now) (lost self.now) built.now (diagonal d) result }
    {
        let u = usize::from(self.map.homes[d]);
        let upper = u == self.b;
        if u == self.a || upper {
            return None;
        }
        let (i, j) = self.next_on(built, d, 0)?;
        match self.next_on(built, d, i + 1) {
            Some(_) => None,
            None => Some((i, j)),
        }
    }

    // The one unknown element of row i, where the row is live and has exactly one.
    pub fn lone_in_row(&self, built: &[[bool; 32]; 32], i: usize) -> Option<(usize, usize)>
        requires { i < self.now.map.now.r }
        ensures { FoundOn (layout self.now) (lost self.now) built.now (row i) result }
    {
        if self.b == self.map.n {
            return None;
        }
        match (built[i][self.a], built[i][self.b]) {
            (false, true) => Some((i, self.a)),
            (true, false) => Some((i, self.b)),
            (false, false) if self.a == self.b => Some((i, self.b)),
            _ => None,
        }
    }

    // Is every element of strip c built? Strip n has no data.
    pub fn strip_built(&self, built: &[[bool; 32]; 32], c: usize) -> bool
        requires { c ≤ self.now.map.now.n }
        ensures { StripBuilt self.now.map.now.n self.now.map.now.r built.now c result }
    {
        c == self.map.n || built_in(&built[..self.map.r], c)
    }
}

// Is strip c built in each of the rows?
fn built_in(rows: &[[bool; 32]], c: usize) -> bool
    requires { c < 32 }
    ensures { result ≡ list_all (λ flags. get_or flags c false) rows.now }
{
    rows.iter().all(|flags| flags[c])
}
