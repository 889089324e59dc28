//! Whether the records of a table come back, as its type says: where they do not, it costs nothing.
ghost use Rattle.std.specs.Prelude.{◌≡◌, Bool, false, None};
ghost use Rattle.dict.specs.Words.{IsWordOf};
ghost use Rattle.tables.specs.Ruled.{MayLast};
ghost use Rattle.tables.specs.declared.rule.Site.{Site};

use arena::Shape;
use dict::{Dict, WordKey, WordValue};
use prims::Cells;
use template::{ByBits, ByOrder, FixedBalance};

/// A shape of a forest's tables.
pub trait TableShape: Shape {
    /// Whether their records come back.
    ghost lasts: { Bool };

    /// Whether their records come back.
    fn lasts() -> bool
        ensures { result ≡ lasts };

    /// They may, where they do.
    ghost may_last: { (site : Site) → site.layout.mode ≡ Self.mode → (lasts ≡ false → site.turns ≡ None) → MayLast Self.mode Self.allows site };
}

/// A balance that says, too, whether records come back.
pub trait Keeping: FixedBalance {
    /// Whether they do.
    ghost lasts: { Bool };

    /// Whether they do.
    fn lasts() -> bool
        ensures { result ≡ lasts };
}

impl Keeping for ByOrder {
    ghost lasts = { false };

    #[inline(always)]
    fn lasts() -> bool {
        false
    }
}

impl Keeping for ByBits {
    ghost lasts = { false };

    #[inline(always)]
    fn lasts() -> bool {
        false
    }
}

impl TableShape for Cells {
    ghost use Rattle.std.specs.Prelude.{refl};
    ghost use Rattle.tables.specs.Lasts.{never_lasts};

    ghost lasts = { false };

    ghost may_last = { λ site mode none. never_lasts Self.mode Self.allows site (none refl) };

    #[inline(always)]
    fn lasts() -> bool {
        false
    }
}

impl<K: WordKey, V: WordValue, B: Keeping> TableShape for Dict<K, V, B> {
    ghost use Rattle.tables.specs.Lasts.{dict_may_last};

    ghost lasts = { B.lasts };

    ghost may_last = { λ site mode none. dict_may_last (IsWordOf K.is_valid K.word_of) (IsWordOf V.is_valid V.word_of) (B.trie B.the) site mode };

    #[inline(always)]
    fn lasts() -> bool {
        B::lasts()
    }
}
