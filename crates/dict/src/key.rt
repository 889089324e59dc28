//! Keys of one word.
ghost use Rattle.std.specs.Prelude.{◌≡◌, ◌≢◌, ℕ, ◌<◌, ◌^◌, IfSome, IsNone, refl};
ghost use Rattle.std.specs.Ordering.{nat_cmp};
ghost use Rattle.dict.specs.Laws.Offsets.{IsLong, offset_of, offset_fits, offset_exact, offset_ordered};

/// A type of keys that a word holds: each has a word of its own, and their order is that of the
/// words. `u64`, `u32`, `i64` and `Name8` have it; for a pair of `u32` see `docs/USING.md`.
pub trait WordKey: Copy + Ord {
    /// Whether this is a value of the type. In proofs an integer is any number, also one that the
    /// type does not have.
    ghost is_valid: { Self → Type 0 };

    /// The word of each.
    ghost word_of: { Self → ℕ };

    /// The word of it.
    fn word(&self) -> u64
        ensures { result ≡ word_of self.now };

    /// What is in hand is a value of the type. It does nothing; a caller learns it from its
    /// contract.
    fn valid(&self)
        ensures { is_valid self.now };

    /// The key of this word, if it is one's.
    fn from_word(word: u64) -> Option<Self>
        ensures some { IfSome result (λ k. is_valid k × (word_of k ≡ word)) }
        ensures none { IsNone result → (k : Self) → is_valid k → word_of k ≢ word };

    /// A word holds it.
    ghost fits: { (k : Self) → is_valid k → word_of k < 2 ^ 64 };

    /// No two keys have one word.
    ghost exact: { (j k : Self) → is_valid j → is_valid k → word_of j ≡ word_of k → j ≡ k };

    /// The order of the keys is that of their words.
    ghost ordered: { (j k : Self) → is_valid j → is_valid k → Self.cmp j k ≡ nat_cmp (word_of j) (word_of k) };
}

impl WordKey for u64 {
    ghost is_valid = { λ k. k < 2 ^ 64 };

    ghost word_of = { λ k. k };

    fn word(&self) -> u64 {
        *self
    }

    fn valid(&self) {
        let _key = *self;
    }

    fn from_word(word: u64) -> Option<u64> {
        Some(word)
    }

    ghost fits = { λ _ fits. fits };

    ghost exact = { λ _ _ _ _ same. same };

    ghost ordered = { λ _ _ _ _. refl };
}

impl WordKey for u32 {
    ghost is_valid = { λ k. k < 2 ^ 32 };

    ghost word_of = { λ k. k };

    fn word(&self) -> u64 {
        u64::from(*self)
    }

    fn valid(&self) {
        let _key = *self;
    }

    fn from_word(word: u64) -> Option<u32> {
        if word > 4294967295 {
            return None;
        }
        Some(word as u32)
    }

    ghost fits = { λ k fits. Prim.omega arith };

    ghost exact = { λ _ _ _ _ same. same };

    ghost ordered = { λ _ _ _ _. refl };
}

/// Its word is the number of those below it: -1 and 0 are in the middle.
impl WordKey for i64 {
    ghost is_valid = { IsLong };

    ghost word_of = { offset_of };

    fn word(&self) -> u64 {
        let key = *self;
        if key < 0 {
            (key - i64::MIN) as u64
        } else {
            key as u64 + 9223372036854775808
        }
    }

    fn valid(&self) {
        let _key = *self;
    }

    fn from_word(word: u64) -> Option<i64> {
        if word < 9223372036854775808 {
            Some(word as i64 + i64::MIN)
        } else {
            Some((word - 9223372036854775808) as i64)
        }
    }

    ghost fits = { offset_fits };

    ghost exact = { offset_exact };

    ghost ordered = { offset_ordered };
}

ghost use Rattle.std.proofs.Common.{arith};
