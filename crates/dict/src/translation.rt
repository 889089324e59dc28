//! Numbers as keys and values.
ghost use Rattle.std.specs.Prelude.{◌≡◌, ◌≢◌, IfSome, IfOk, IsNone, Option};
ghost use Rattle.std.specs.Option.{option_map};
ghost use Rattle.dict.specs.Words.{IsWordOf};
ghost use Rattle.dict.specs.Translated.{ArePairsOf, IsPairOf};

use crate::key::WordKey;
use crate::value::WordValue;
use arena::NoMemory;
use ordered_map::{Pair, halves, wide_value};
use std::alloc::Global;

/// The number of a value.
#[inline(always)]
pub fn number_of<V: WordValue>(value: &V) -> u128
    ensures { result ≡ V.word_of value.now }
{
    let [high, low] = value.words();
    wide_value(low, high)
}

/// The value of a number, if it is one's.
#[inline(always)]
fn known_value<V: WordValue>(number: u128) -> Option<V>
    ensures some { IfSome result (λ v. V.is_valid v × (V.word_of v ≡ number)) }
    ensures none { IsNone result → (v : V) → V.is_valid v → V.word_of v ≢ number }
{
    let (low, high) = halves(number);
    V::from_words([high, low])
}

/// The same, if there is a number.
#[inline(always)]
pub fn value_of<V: WordValue>(number: Option<u128>) -> Option<V>
    ensures valid { IfSome result (λ v. V.is_valid v) }
    ensures number { IfSome number (IsWordOf V.is_valid V.word_of) → option_map V.word_of result ≡ number }
    ensures own { IfSome result (λ v. number ≡ Option.Some (V.word_of v)) }
{
    match number {
        Some(number) => known_value(number),
        None => None,
    }
}

/// The pair of two words, if they are a key's and a value's.
#[inline(always)]
fn known_pair<K: WordKey, V: WordValue>(words: Pair) -> Option<(K, V)>
    ensures { IsPairOf K.is_valid K.word_of V.is_valid V.word_of (Option.Some words) result }
{
    let key = K::from_word(words.key)?;
    let value = known_value(words.value)?;
    Some((key, value))
}

/// The same, if there are two words.
#[inline(always)]
pub(crate) fn pair_of<K: WordKey, V: WordValue>(words: Option<Pair>) -> Option<(K, V)>
    ensures { IsPairOf K.is_valid K.word_of V.is_valid V.word_of words result }
{
    match words {
        Some(words) => known_pair(words),
        None => None,
    }
}

/// The pairs of such words, in their order; what is none is left out.
pub fn pairs_of<K: WordKey, V: WordValue>(
    alloc: Global,
    words: &[Pair],
) -> Result<Vec<(K, V)>, NoMemory>
    ensures { IfOk result (λ ps. ArePairsOf K.is_valid K.word_of V.is_valid V.word_of words.now ps.items) }
{
    let mut pairs = Vec::with_capacity(alloc, words.len())?;
    for both in words {
        match known_pair(*both) {
            Some(pair) => pairs.push(pair)?,
            None => {}
        }
    }
    Ok(pairs)
}
