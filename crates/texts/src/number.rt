//! Numbers as texts have them.
ghost use Rattle.std.specs.Prelude.{◌≡◌, ◌≢◌, ℕ, ◌*◌, ◌+◌, ◌^◌, ◌<◌, ◌≤◌, ◌↔◌, List, decimal, IfSome, IsSome, IsTrue, MatchOption};

/// What a text may spell: a word, or a value of two words.
pub trait Number: Copy {
    /// All are below it.
    ghost limit: { ℕ };

    /// The number that it is.
    ghost number: { Self → ℕ };

    /// The number of one digit.
    fn of_digit(digit: u8) -> Self
        ensures { number result ≡ digit };

    /// The number that has one digit more, if there is room for it.
    fn with_digit(self, digit: u8) -> Option<Self>
        requires { digit < 10 }
        ensures fits { IsSome result ↔ (number self * 10 + digit < limit) }
        ensures value { IfSome result (λ n. number n ≡ number self * 10 + digit) };

    /// None has more than 64 digits.
    ghost few_digits: { limit ≤ 10 ^ 64 };
}

impl Number for u64 {
    ghost limit = { 2 ^ 64 };

    ghost number = { λ n. n };

    #[inline]
    fn of_digit(digit: u8) -> u64 {
        u64::from(digit)
    }

    /// One below 10 ^ 18 has room for the digit, so that no product is tested.
    #[inline]
    fn with_digit(self, digit: u8) -> Option<u64> {
        if self < 1_000_000_000_000_000_000 {
            return Some(self * 10 + u64::from(digit));
        }
        self.checked_mul(10)?.checked_add(u64::from(digit))
    }

    ghost use Rattle.std.proofs.Common.{lit≤};

    ghost few_digits = { lit≤ tt };
}

impl Number for u128 {
    ghost limit = { 2 ^ 128 };

    ghost number = { λ n. n };

    #[inline]
    fn of_digit(digit: u8) -> u128 {
        u128::from(digit)
    }

    #[inline]
    fn with_digit(self, digit: u8) -> Option<u128> {
        self.checked_mul(10)?.checked_add(u128::from(digit))
    }

    ghost use Rattle.std.proofs.Common.{lit≤};

    ghost few_digits = { lit≤ tt };
}

/// The number that a text spells: decimal digits, with no leading zero and no sign.
pub fn number_of<N: Number>(text: &str) -> Option<N>
    ensures { MatchOption result ((n : ℕ) → n < N.limit →
        text.now ≢ decimal n) (λ n. text.now ≡ decimal (N.number n)) }
{
    let (first, more) = text.as_bytes().split_first()?;
    let digit = digit_of(*first)?;
    if digit == 0 && !more.is_empty() {
        return None;
    }
    let mut number = N::of_digit(digit);
    for byte in more {
        number = number.with_digit(digit_of(*byte)?)?;
    }
    Some(number)
}

/// The number that a digit spells.
#[inline]
fn digit_of(byte: u8) -> Option<u8>
    ensures { MatchOption result ((n : ℕ) → n < 10 → byte ≢ 48 + n) (λ n. (n < 10) ×
        (byte ≡ 48 + n)) }
{
    match byte {
        b'0'..=b'9' => Some(byte - b'0'),
        _ => None,
    }
}

/// Whether a text spells this number.
#[tactic(auto, using(crate::proofs::Numbers::same_number))]
pub fn is_number(text: &str, number: u64) -> bool
    ensures { IsTrue result ↔ (text.now ≡ decimal number) }
{
    number_of(text) == Some(number)
}

/// The same of a number below 2 ^ 32.
#[tactic(auto, using(crate::proofs::Numbers::same_number))]
pub fn small_number_of(text: &str) -> Option<u32>
    ensures spells { MatchOption result ((n : ℕ) → n < 2 ^ 32 →
        text.now ≢ decimal n) (λ n. text.now ≡ decimal n) }
    ensures fits { IfSome result (λ n. n < 2 ^ 32) }
{
    u32::try_from(number_of::<u64>(text)?).ok()
}
