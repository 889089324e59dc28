//! Whether a dictionary is a tree or a trie, as its type says.
ghost use Rattle.std.specs.Prelude.{◌≡◌};

use template::FixedBalance;

/// Whether it is a trie.
#[inline(always)]
pub fn in_trie<B: FixedBalance>() -> bool
    ensures { result ≡ B.trie B.the }
{
    B::the().in_trie()
}
