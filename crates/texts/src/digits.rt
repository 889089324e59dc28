//! How many digits a number has.
ghost use Rattle.std.specs.Prelude.{◌≡◌, ◌<◌, decimal, length};

/// How many digits a number has.
#[inline]
pub fn digits_in(n: u64) -> usize
    ensures { result ≡ length (decimal n) }
{
    let (mut left, mut digits) = (n, 0);
    while left >= 10_000 {
        left /= 10_000;
        digits += 4;
    }
    digits + few_digits_in(left)
}

/// The same of a number below 10,000.
#[inline]
fn few_digits_in(n: u64) -> usize
    requires { n < 10000 }
    ensures { result ≡ length (decimal n) }
{
    match n {
        0..=9 => 1,
        10..=99 => 2,
        100..=999 => 3,
        _ => 4,
    }
}
