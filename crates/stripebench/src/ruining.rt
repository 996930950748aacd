// Lost strips are ruined before they are rebuilt: all their bytes become FF.
ghost use Rattle.std.specs.Prelude.{◌≡◌, false, ◌≤◌, length};
ghost use Rattle.code.specs.Below.{count};
ghost use Rattle.shape.specs.Shape.{layout_of, size_of};
ghost use Rattle.shape.specs.Mask.{lost_in, above_test};
ghost use Rattle.stripebench.specs.Ruin.{Ruins};

use rebuild::clearing::fill_strip;
use shape::Shape;
use shape::lost::{first_lost, last_lost};

// Every byte of the mask's strips, at most two, becomes FF; nothing else changes.
pub fn ruin(shape: Shape, mask: u64, stripe: &mut [u8])
    requires lost { (above_test mask shape.n ≡ false) × (count 64 (lost_in mask) ≤ 2) }
    requires size { length stripe.old ≡ size_of shape }
    ensures { Ruins (layout_of shape) shape.e (lost_in mask) stripe.old stripe.new }
{
    if mask == 0 {
        return;
    }
    let a = first_lost(mask);
    let b = last_lost(mask);
    fill_strip(shape, a, 0xff, stripe);
    fill_strip(shape, b, 0xff, stripe);
}
