// The set of lost strips as a 64-bit mask, bit j for strip j: how many are lost, whether one is no strip, the first and the last.
ghost use Rattle.std.specs.Prelude.{◌≡◌, ◌≤◌, ◌<◌};
ghost use Rattle.code.specs.Below.{count};
ghost use Rattle.shape.specs.Answers.{Among};
ghost use Rattle.shape.specs.Mask.{lost_in, above_test, FirstLost, LastLost};

// The number of lost strips: the ones of the mask.
pub fn lost_count(mask: u64) -> u32
    ensures { Among 65 (count 64 (lost_in mask)) result }
{
    u64::count_ones(mask)
}

// Whether the mask has a one above bit n; bit n itself is the h-parity strip's.
pub fn above(mask: u64, n: usize) -> bool
    requires { n ≤ 63 }
    ensures { result ≡ above_test mask n }
{
    (u64::leading_zeros(mask) as usize) < 63 - n
}

// The lowest lost strip of a mask that is not zero.
pub fn first_lost(mask: u64) -> usize
    requires { 0 < mask }
    ensures { FirstLost (lost_in mask) result }
{
    u64::trailing_zeros(mask) as usize
}

// The highest lost strip of a mask that is not zero.
pub fn last_lost(mask: u64) -> usize
    requires { 0 < mask }
    ensures { LastLost (lost_in mask) result }
{
    63 - (u64::leading_zeros(mask) as usize)
}
