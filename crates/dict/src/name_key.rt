//! Names as keys.
ghost use Rattle.std.specs.Prelude.{◌<◌, ◌^◌, refl};
ghost use Rattle.dict.specs.Laws.NameKeys.{name_exact};

use crate::key::WordKey;
use crate::name::Name8;

impl WordKey for Name8 {
    ghost is_valid = { λ k. k.word < 2 ^ 64 };

    ghost word_of = { λ k. k.word };

    fn word(&self) -> u64 {
        self.to_word()
    }

    fn valid(&self) {
        let _word = self.to_word();
    }

    fn from_word(word: u64) -> Option<Name8> {
        Name8::of_word(word)
    }

    ghost fits = { λ _ fits. fits };

    ghost exact = { λ j k _ _ same. name_exact j k same };

    ghost ordered = { λ _ _ _ _. refl };
}
