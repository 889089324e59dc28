//! Whether a dictionary is a tree or a trie: as a value, and as types, so that what is known when the
//! program is built costs nothing.
ghost use Rattle.std.specs.Prelude.{◌≡◌, Bool, true, false};
ghost use Rattle.template.specs.Balance.{map_mode};

use arena::Mode;

/// Whether a dictionary is a tree or a trie.
pub trait Balance: Copy {
    /// Whether that is a trie.
    ghost trie: { Self → Bool };

    /// Whether that is a trie.
    fn in_trie(&self) -> bool
        ensures { result ≡ trie self.now };
}

impl Balance for bool {
    ghost trie = { λ b. b };

    fn in_trie(&self) -> bool {
        *self
    }
}

/// The mode of a dictionary's tables.
#[inline(always)]
pub fn map_mode(trie: bool) -> Mode
    ensures { result ≡ map_mode trie }
{
    if trie { Mode::Trie } else { Mode::Tree }
}

/// Which of the two a type says by itself.
pub trait FixedBalance: Balance {
    /// The value that it has.
    ghost the: { Self };

    /// That value.
    fn the() -> Self
        ensures { result ≡ the };
}

/// A tree, whose forks part keys as leaves were split, in the order of the keys alone.
#[derive(Clone, Copy, Debug, PartialEq, Eq)]
pub struct ByOrder;

impl Balance for ByOrder {
    ghost trie = { λ b. false };

    #[inline(always)]
    fn in_trie(&self) -> bool {
        false
    }
}

impl FixedBalance for ByOrder {
    ghost the = { record {} };

    #[inline(always)]
    fn the() -> ByOrder {
        ByOrder
    }
}

/// A trie, whose forks part keys at their highest differing bit.
#[derive(Clone, Copy, Debug, PartialEq, Eq)]
pub struct ByBits;

impl Balance for ByBits {
    ghost trie = { λ b. true };

    #[inline(always)]
    fn in_trie(&self) -> bool {
        true
    }
}

impl FixedBalance for ByBits {
    ghost the = { record {} };

    #[inline(always)]
    fn the() -> ByBits {
        ByBits
    }
}
