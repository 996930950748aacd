// What the walker sees: two lost strips over the map of diagonals.
ghost use Rattle.std.specs.Prelude.{◌≤◌};

use crate::map::Map;

// Of the map's data strips and strip n the strips a and b are lost, which are one where a = b.
#[derive(Clone, Copy)]
pub struct Lost<'a> {
    pub map: &'a Map,
    pub a: usize,
    pub b: usize,
    pub ghost ordered: { a ≤ b },
    pub ghost within: { b ≤ map.now.n },
}
