// Bytes that look random and are the same in every run.
ghost use Rattle.std.specs.Prelude.{◌<◌};

// Yields a byte of each number of a run that comes back to its start after 2147483646 steps, and never to 0.
#[derive(Drop)]
pub(crate) struct Random {
    x: u64,
    ghost below: { x < 2147483647 },
}

impl Random {
    pub(crate) fn new(seed: u64) -> Self
        requires { seed < 2147483647 }
    {
        Random { x: seed }
    }
}

impl Iterator for Random {
    type Item = u8;

    fn next(&mut self) -> Option<u8> {
        self.x = self.x * 48271 % 2147483647;
        Some((self.x % 256) as u8)
    }
}
