// The element adder: a run of bytes added to a part of a buffer that is lent at its own place; and such a run, from old and new bytes.
ghost use Rattle.std.specs.Prelude.{◌≡◌, ◌+◌, ◌≤◌, length, get_or, replicate};
ghost use Rattle.code.specs.Xor.{◌⊕◌};
ghost use Rattle.element.specs.Filled.{Filled};
ghost use Rattle.element.specs.Added.{added};

// Each byte of run added to the byte of part at the same index.
pub fn add(part: &mut [u8], run: &[u8])
    requires { length run.now ≡ length part.old }
    ensures { part.new ≡ added part.old run.now }
{
    for (t, x) in part.iter_mut().enumerate() {
        *x ^= run[t];
    }
}

// The run added to as many bytes from d on, which are lent in their place; nothing else changes.
pub fn add_at(s: &mut [u8], d: usize, run: &[u8])
    requires { d + length run.now ≤ length s.old }
    ensures { Filled s.old d (length run.now) (λ t. get_or s.old (d + t) 0 ⊕ get_or run.now t 0) s.new }
{
    add(&mut s[d..d + run.len()], run);
}

// A block that begins with the m bytes from d on of s, each with the byte of v from c on added, and is zero from there on.
pub fn delta(s: &[u8], d: usize, v: &[u8], c: usize, m: usize) -> [u8; 128]
    requires { (d + m ≤ length s.now) × (c + m ≤ length v.now) × (m ≤ 128) }
    ensures { Filled (replicate 128 0) 0 m (λ t. get_or s.now (d + t) 0 ⊕ get_or v.now (c + t) 0) result }
{
    let mut a = [0; 128];
    // a range: by put and add_at, with slices, a write of one byte took 276 instructions, and 244 so
    for t in 0..m {
        a[t] = s[d + t] ^ v[c + t];
    }
    a
}
