// The published bound of the rows at a shift, decided without a division.
ghost use Rattle.std.specs.Prelude.{◌≡◌, ◌<◌, ◌≤◌};
ghost use Rattle.code.specs.Bound.{q};
ghost use Rattle.shape.specs.Answers.{Among};
ghost use Rattle.shape.specs.GoodTest.{good_test};

// q, which is n divided by its smallest prime divisor, for each n from 0 to 32.
const WIDEST: [u8; 33] = [
    0, 1, 1, 1, 2, 1, 3, 1, 4, 3, 5, 1, 6, 1, 7, 5, 8, 1, 9, 1, 10, 7, 11, 1, 12, 5, 13, 9, 14, 1,
    15, 1, 16,
];

fn widest(n: usize) -> usize
    requires { n ≤ 32 }
    ensures { Among 33 (q n) result }
{
    WIDEST[n] as usize
}

// Whether n, r and s meet the bound.
pub fn good(n: usize, r: usize, s: usize) -> bool
    requires { (n ≤ 32) × (r ≤ 32) × (s < n) }
    ensures { result ≡ good_test n r s }
{
    let w = widest(n);
    let wide = s > w;
    if wide { r <= n - s } else { r + w + s <= n }
}
