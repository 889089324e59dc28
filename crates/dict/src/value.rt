//! Values of two words.
ghost use Rattle.std.specs.Prelude.{◌≡◌, ◌≢◌, ℕ, ◌<◌, ◌^◌, IfSome, IsNone};
ghost use Rattle.std.proofs.Common.{arith};
ghost use Rattle.dict.specs.Words.{number_of_words};

use ordered_map::{halves, wide_value};

/// A type of values that two words hold: each has a number of its own. `u128`, `u64` and `u32` have
/// it.
pub trait WordValue: Copy {
    /// Whether this is a value of the type. In proofs an integer is any number, also one that the
    /// type does not have.
    ghost is_valid: { Self → Type 0 };

    /// The number of each.
    ghost word_of: { Self → ℕ };

    /// The words of that number, the high one first.
    fn words(&self) -> [u64; 2]
        ensures { number_of_words result ≡ word_of self.now };

    /// What is in hand is a value of the type. It does nothing; a caller learns it from its
    /// contract.
    fn valid(&self)
        ensures { is_valid self.now };

    /// The value of these words, if it is one's.
    fn from_words(words: [u64; 2]) -> Option<Self>
        ensures some { IfSome result (λ v. is_valid v × (word_of v ≡ number_of_words words)) }
        ensures none { IsNone result → (v : Self) → is_valid v → word_of v ≢ number_of_words words };

    /// Two words hold it.
    ghost fits: { (v : Self) → is_valid v → word_of v < 2 ^ 128 };

    /// No two values have one number.
    ghost exact: { (v w : Self) → is_valid v → is_valid w → word_of v ≡ word_of w → v ≡ w };
}

impl WordValue for u128 {
    ghost is_valid = { λ v. v < 2 ^ 128 };

    ghost word_of = { λ v. v };

    fn words(&self) -> [u64; 2] {
        let (low, high) = halves(*self);
        [high, low]
    }

    fn valid(&self) {
        let _value = *self;
    }

    fn from_words(words: [u64; 2]) -> Option<u128> {
        let [high, low] = words;
        Some(wide_value(low, high))
    }

    ghost fits = { λ _ fits. fits };

    ghost exact = { λ _ _ _ _ same. same };
}

impl WordValue for u64 {
    ghost is_valid = { λ v. v < 2 ^ 64 };

    ghost word_of = { λ v. v };

    fn words(&self) -> [u64; 2] {
        [0, *self]
    }

    fn valid(&self) {
        let _value = *self;
    }

    fn from_words(words: [u64; 2]) -> Option<u64> {
        let [high, low] = words;
        if high > 0 {
            return None;
        }
        Some(low)
    }

    ghost fits = { λ v fits. Prim.omega arith };

    ghost exact = { λ _ _ _ _ same. same };
}

impl WordValue for u32 {
    ghost is_valid = { λ v. v < 2 ^ 32 };

    ghost word_of = { λ v. v };

    fn words(&self) -> [u64; 2] {
        [0, u64::from(*self)]
    }

    fn valid(&self) {
        let _value = *self;
    }

    fn from_words(words: [u64; 2]) -> Option<u32> {
        let [high, low] = words;
        if high > 0 || low > 4294967295 {
            return None;
        }
        Some(low as u32)
    }

    ghost fits = { λ v fits. Prim.omega arith };

    ghost exact = { λ _ _ _ _ same. same };
}
