// The pair judge: whether two strips of a map of diagonals fail, told by the walker; and the first pair that does.
ghost use Rattle.std.specs.Prelude.{◌<◌, ◌≤◌};
ghost use Rattle.code.specs.Layout.{Latin};
ghost use Rattle.code.specs.Stopped.{Exact};
ghost use Rattle.walker.specs.Map.{drawn_by};
ghost use Rattle.shape.specs.Pairs.{FirstOf};

use walker::Map;

// Does the pair of strips (a, b) fail? The map goes in by value (SPEC 12); b is a data strip or strip n. No strip of the map has a diagonal twice.
pub fn fails(map: Map, a: usize, b: usize) -> bool
    requires pair { (a < b) × (b ≤ map.n) }
    requires latin { Latin (drawn_by map) }
    ensures { Exact (drawn_by map) a b result }
{
    !walker::walk(&map, a, b).whole
}

// The first pair of the strips 0 to n that fails, by lower strip, then by upper strip.
pub fn first_failing(map: Map) -> Option<(usize, usize)>
    requires { Latin (drawn_by map) }
    ensures { FirstOf (drawn_by map) result }
{
    for a in 0..map.n {
        for b in a + 1..map.n + 1 {
            if fails(map, a, b) {
                return Some((a, b));
            }
        }
    }
    None
}
