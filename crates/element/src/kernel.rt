// Blocks of 128 bytes: sources added to a block, the sum of a list of sources, a run put in its place, a run tested for zero.
ghost use Rattle.std.specs.Prelude.{◌≡◌, ◌+◌, ◌≤◌, length, get_or};
ghost use Rattle.code.specs.Xor.{◌⊕◌};
ghost use Rattle.element.specs.Filled.{Begins, Filled};
ghost use Rattle.element.specs.Gather.{total, Fits, AllZero};

// The N sources at offs, from byte k of each on, added to the first m bytes of acc.
fn add<const N: usize>(acc: &mut [u8; 128], s: &[u8], offs: &[usize; N], k: usize, m: usize)
    requires acc_len { (length acc.old ≡ 128) × (m ≤ 128) }
    requires m_in_bounds { Fits s.now (k + m) offs.now }
    ensures { Filled acc.old 0 m (λ t. get_or acc.old t 0 ⊕ total s.now offs.now (k + t)) acc.new }
{
    for t in 0..m {
        let mut x = acc[t];
        for o in offs {
            x ^= s[*o + k + t];
        }
        acc[t] = x;
    }
}

// The first m bytes of the sum, at most a block, from byte k of each source on: up to three sources one by one, then four a turn. So the first source
// of all is added to zeros, which the compiler sees: it is loaded, and nothing is cleared.
pub fn sum(s: &[u8], offs: &[usize], k: usize, m: usize) -> [u8; 128]
    requires { Fits s.now (k + m) offs.now × (m ≤ 128) }
    ensures { Begins m (λ t. total s.now offs.now (k + t)) result }
{
    let mut acc = [0; 128];
    let (few, fours) = offs.as_rchunks::<4>();
    for one in few {
        add(&mut acc, s, &[*one], k, m);
    }
    for four in fours {
        add(&mut acc, s, four, k, m);
    }
    acc
}

// The run, put at d.
pub fn put(s: &mut [u8], d: usize, run: &[u8])
    requires { d + length run.now ≤ length s.old }
    ensures { Filled s.old d (length run.now) (λ t. get_or run.now t 0) s.new }
{
    s[d..d + run.len()].copy_from_slice(run);
}

// Whether every byte is zero.
pub fn all_zero(run: &[u8]) -> bool
    ensures { AllZero (length run.now) (λ t. get_or run.now t 0) result }
{
    // every byte is read: by all, which stops at the first that is not zero, scrub took 226,539 instructions, and 60,894 so
    run.iter().fold(0, |any, x| any | *x) == 0
}
