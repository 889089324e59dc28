//! The word `head` of a node of the tree.
ghost use Rattle.std.specs.Prelude.{◌≡◌};
ghost use Rattle.arena.specs.Heads.{FitsWord, head_of, head_word};

/// How deep a node is (the root's level is 0), whether it is a leaf, and its class: 0 for keys, 1
/// and 2 for what is above all keys. Its word is `8 * level + 4 * leaf + class`.
#[derive(Clone, Copy, Debug, PartialEq, Eq)]
pub struct Head {
    pub level: u64,
    pub leaf: bool,
    pub class: u8,
}

impl Head {
    /// What a word says as a head.
    pub fn of(word: u64) -> Head
        ensures { result ≡ head_of word }
    {
        Head {
            level: word / 8,
            leaf: word / 4 % 2 == 1,
            class: (word % 4) as u8,
        }
    }

    /// The word of a head: of a level below 2^61 and a class below 4.
    pub fn word(self) -> u64
        requires { FitsWord self }
        ensures { result ≡ head_word self }
    {
        8 * self.level + 4 * u64::from(self.leaf) + u64::from(self.class)
    }
}
