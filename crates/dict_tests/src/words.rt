//! Words of typed keys and values.
use crate::same::same;
use dict::{Name8, WordKey, WordValue};
use std::fmt::Debug;
use std::process::Abort;
use std::test::Fail;

fn name(text: &str) -> Result<Name8, Fail> {
    Ok(Name8::new(text).ok_or("no name")?)
}

/// The key has this word, and the word is that of this key.
fn are_one<K: WordKey + Debug>(rt: &impl Abort, key: K, word: u64) {
    same(rt, (key.word(), K::from_word(word)), (word, Some(key)));
}

/// The value has these words, the high one first, and they are those of this value.
fn have_words<V: WordValue + PartialEq + Debug>(rt: &impl Abort, value: V, words: [u64; 2]) {
    same(
        rt,
        (value.words(), V::from_words(words)),
        (words, Some(value)),
    );
}

#[test]
fn words_stand_for_keys(rt: HostRuntime) -> Result<(), Fail> {
    are_one(&rt, name("ab")?, 7017171169396654080);
    are_one(&rt, name("")?, 0);
    are_one(&rt, -1i64, 9223372036854775807);
    are_one(&rt, 0i64, 9223372036854775808);
    are_one(&rt, i64::MIN, 0);
    are_one(&rt, 4294967295u32, 4294967295);
    let beyond: Option<u32> = WordKey::from_word(4294967296);
    same(&rt, beyond, None);
    let small: Option<Name8> = WordKey::from_word(98);
    same(&rt, small, None);
    Ok(())
}

#[test]
fn words_stand_for_values(rt: HostRuntime) {
    have_words(&rt, 18446744073709551621u128, [1, 5]);
    have_words(&rt, 5u64, [0, 5]);
    let beyond: Option<u32> = WordValue::from_words([0, 4294967296]);
    same(&rt, beyond, None);
    let beyond: Option<u64> = WordValue::from_words([1, 0]);
    same(&rt, beyond, None);
}

#[test]
fn names_are_visible_and_short(rt: HostRuntime) -> Result<(), Fail> {
    for text in ["ninechars", "a b", "caf\u{e9}", "tab\t", " "] {
        assert!(rt; Name8::new(text).is_none(), "{text}");
    }
    for text in ["", "a", "~!~!~!~!", "eightlet"] {
        let printed = name(text)?.to_string(rt.alloc())?;
        same(&rt, printed.as_str(), text);
    }
    Ok(())
}

#[test]
fn names_are_in_the_order_of_texts(rt: HostRuntime) -> Result<(), Fail> {
    let rising = ["", "!", "A", "Z", "a", "aa", "aaaaaaaa", "ab", "b", "~"];
    for pair in rising.windows(2) {
        if let [less, more] = pair {
            assert!(rt; name(less)? < name(more)?, "{less} {more}");
        }
    }
    Ok(())
}
