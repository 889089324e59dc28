//! The shape of a typed dictionary.
ghost use Rattle.template.specs.Balance.{map_mode};
ghost use Rattle.dict.specs.Typed.{TypedAllows, IsTypedThere};
ghost use Rattle.dict.specs.Laws.TypedMaps.{typed_opens, typed_stays};
ghost use Rattle.dict.specs.Words.{IsWordOf};

use crate::key::WordKey;
use crate::value::WordValue;
use arena::Shape;
use std::marker::PhantomData;
use template::{ByBits, ByOrder, FixedBalance, map_mode};

/// The shape of a dictionary with keys `K` and values `V`: `Forest<Dict<Name8, u32>>` is one from
/// names to numbers. Each SCX-record that begins makes an edit of the words of such a key, and of
/// such a value. It is a tree, or by `B` a trie.
#[derive(Debug, Drop)]
pub struct Dict<K, V, B = ByOrder>(PhantomData<(K, V, B)>);

/// The shape of such a dictionary that is a trie.
pub type Trie<K, V> = Dict<K, V, ByBits>;

impl<K: WordKey, V: WordValue, B: FixedBalance> Shape for Dict<K, V, B> {
    ghost mode = { map_mode (B.trie B.the) };

    ghost allows = { TypedAllows (IsWordOf K.is_valid K.word_of) (IsWordOf V.is_valid V.word_of) };

    ghost holds = { IsTypedThere (IsWordOf K.is_valid K.word_of) (IsWordOf V.is_valid V.word_of) };

    ghost opens = { typed_opens (IsWordOf K.is_valid K.word_of) (IsWordOf V.is_valid V.word_of) };

    ghost stays = { typed_stays (IsWordOf K.is_valid K.word_of) (IsWordOf V.is_valid V.word_of) };

    #[inline(always)]
    fn node_size() -> usize {
        map_mode(B::the().in_trie()).node_size()
    }
}
