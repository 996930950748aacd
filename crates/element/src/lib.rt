// Elements as ranges of bytes of one buffer: one becomes the sum of others, a sum is tested for zero, a run is added to a part.
#![tactic(auto)]

mod adder;
mod kernel;

ghost use Rattle.std.specs.Prelude.{◌+◌, ◌≤◌, length};
ghost use Rattle.element.specs.Gather.{Fits, Apart, Gathered, Tells};

pub use adder::{add, add_at, delta};

// The e bytes from d on become the sum of the e bytes from each of offs on; nothing else changes.
pub fn gather(s: &mut [u8], e: usize, d: usize, offs: &[usize])
    requires { (d + e ≤ length s.old) × Fits s.old e offs.now × Apart e d offs.now }
    ensures { Gathered s.old e d offs.now s.new }
{
    let m = e % 128;
    for k in (0..e - m).step_by(128) {
        let acc = kernel::sum(s, offs, k, 128);
        kernel::put(s, d + k, &acc);
    }
    let rest = 0 < m;
    if rest {
        let k = e - m;
        let last = kernel::sum(s, offs, k, m);
        kernel::put(s, d + k, &last[..m]);
    }
}

// Whether the sum of the e bytes from each of offs on is zero.
pub fn is_zero(s: &[u8], e: usize, offs: &[usize]) -> bool
    requires { Fits s.now e offs.now }
    ensures { Tells s.now e offs.now result }
{
    let m = e % 128;
    for k in (0..e - m).step_by(128) {
        let acc = kernel::sum(s, offs, k, 128);
        if !kernel::all_zero(&acc) {
            return false;
        }
    }
    if m == 0 {
        return true;
    }
    let last = kernel::sum(s, offs, e - m, m);
    kernel::all_zero(&last[..m])
}
