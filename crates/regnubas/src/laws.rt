//! What follows from several calls of a dictionary together.
ghost use Rattle.dict.specs.Typed.{TypedAllows};
ghost use Rattle.dict.specs.Words.{IsWordOf};
ghost use Rattle.regnubas.specs.Versions.{VersionLaws};

use dict::{WordKey, WordValue};

/// What a caller may conclude of several calls of a dictionary of such keys and values, besides
/// what `laws_hold`, `trie_laws_hold` and `map_laws_hold` say: every run begins with the pairs
/// that were planted, or with the empty map, and if no pass has made an entry between two moments
/// of it, the map is the same at both. It does nothing; a caller learns the laws from its contract.
pub fn version_laws_hold<K: WordKey, V: WordValue>()
    ensures { VersionLaws (TypedAllows (IsWordOf K.is_valid K.word_of) (IsWordOf V.is_valid V.word_of)) }
{}
