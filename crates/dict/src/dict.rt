//! The machine of a call of a dictionary.
ghost use Rattle.std.specs.Prelude.{◌≡◌, ◌<◌, ◌≤◌, ℕ, IsSome};
ghost use Rattle.dict.specs.Calls.{KeepsEnd, KeepsTriesButOne, call_in, share_of, trie_in};
ghost use Rattle.template.specs.Balance.{nodes_by};
ghost use Rattle.dict.specs.Known.{AsksFirst, IsUnbegun};
ghost use Rattle.dict.specs.Says.{KeepsLists};
ghost use Rattle.ordered_map.specs.CallRules.{most_steps};
ghost use Rattle.dict.specs.Steps.{map_left, MapFits};
ghost use Rattle.dict.specs.Typed.{IsTypedCall};
ghost use Rattle.dict.specs.Words.{IsWordOf};
ghost use Rattle.ordered_map.specs.Requests.{as_map_call};

use crate::key::WordKey;
use crate::run::MapRun;
use crate::shape::Dict;
use crate::translation::number_of;
use crate::value::WordValue;
use arena::{Machine, Share, Turn};
use ordered_map::{Reply, Request};
use std::alloc::Global;
use std::marker::PhantomData;
use template::FixedBalance;

/// A call of a dictionary that has begun. It has its pass's share until it has answered.
#[derive(Debug, Drop)]
pub struct DictRun<K, V> {
    /// The call, in words.
    pub run: MapRun,
    /// How many tries it has in all.
    pub tries: u32,
    pub types: PhantomData<(K, V)>,
}

impl<K: WordKey, V: WordValue> DictRun<K, V> {
    /// A call of a trie, or of a tree, that has not begun, with `tries` tries, in the caller's call of
    /// this number. The
    /// pairs of its reply, and what an ordered read keeps, grow with this allocator; other calls
    /// need none. What is said of its turns holds for at least one try, and of a range for at most
    /// 64 pairs.
    #[inline(always)]
    pub fn new(
        alloc: Option<Global>,
        request: Request<K, V>,
        share: Share,
        tries: u32,
        call: u64,
        trie: bool,
    ) -> DictRun<K, V>
        requires memory { KeepsLists (as_map_call K.word_of V.word_of request) → IsSome alloc }
        ensures call { call_in result.run ≡ as_map_call K.word_of V.word_of request }
        ensures typed { IsTypedCall (IsWordOf K.is_valid K.word_of) (IsWordOf V.is_valid V.word_of) (call_in result.run) }
        ensures share { share_of result.run ≡ share }
        ensures tries { result.tries ≡ tries }
        ensures trie { trie_in result.run ≡ trie }
        ensures fresh { 0 < tries → IsUnbegun result.run tries call }
        ensures steps { (nodes : ℕ) → 0 < tries →
            map_left result.run nodes ≤ most_steps (call_in result.run) tries (nodes_by trie nodes) }
    {
        DictRun {
            run: MapRun::new(alloc, in_words(request), share, tries, call, trie),
            tries,
            types: PhantomData,
        }
    }

    /// Gives the share back.
    #[inline(always)]
    pub fn into_share(self) -> Share
        ensures { result ≡ share_of self.run }
    {
        self.run.into_share()
    }
}

/// The word of a key.
#[inline(always)]
fn word_of<K: WordKey>(key: K) -> u64
    ensures word { result ≡ K.word_of key }
    ensures key { IsWordOf K.is_valid K.word_of result }
{
    key.valid();
    key.word()
}

/// The number of a value.
#[inline(always)]
fn number_in<V: WordValue>(value: V) -> u128
    ensures number { result ≡ V.word_of value }
    ensures value { IsWordOf V.is_valid V.word_of result }
{
    value.valid();
    number_of(&value)
}

/// The same call, in words.
#[inline(always)]
fn in_words<K: WordKey, V: WordValue>(request: Request<K, V>) -> Request<u64, u128>
    ensures call { as_map_call (λ k. k) (λ v. v) result ≡ as_map_call K.word_of V.word_of request }
    ensures typed { IsTypedCall (IsWordOf K.is_valid K.word_of) (IsWordOf V.is_valid V.word_of) (as_map_call K.word_of V.word_of request) }
{
    match request {
        Request::Insert { key, value } => {
            let (key, value) = (word_of(key), number_in(value));
            Request::Insert { key, value }
        }
        Request::InsertNew { key, value } => {
            let (key, value) = (word_of(key), number_in(value));
            Request::InsertNew { key, value }
        }
        Request::Delete { key } => Request::Delete { key: word_of(key) },
        Request::DeleteIf { key, expected } => {
            let (key, expected) = (word_of(key), number_in(expected));
            Request::DeleteIf { key, expected }
        }
        Request::PopFirst => Request::PopFirst,
        Request::PopLast => Request::PopLast,
        Request::ReplaceIf {
            key,
            expected,
            value,
        } => {
            let (key, expected, value) = (word_of(key), number_in(expected), number_in(value));
            Request::ReplaceIf {
                key,
                expected,
                value,
            }
        }
        Request::Get { key } => Request::Get { key: word_of(key) },
        Request::Successor { key } => Request::Successor { key: word_of(key) },
        Request::Predecessor { key } => Request::Predecessor { key: word_of(key) },
        Request::Range { low, high, most } => {
            let (low, high) = (word_of(low), word_of(high));
            Request::Range { low, high, most }
        }
    }
}

impl<K: WordKey, V: WordValue, B: FixedBalance> Machine<Dict<K, V, B>> for DictRun<K, V> {
    type Answer = Reply<K, V>;

    ghost use Rattle.dict.specs.DictKnown.{DictIsReady, DictWaits, DictAnswers};
    ghost use Rattle.dict.specs.Laws.Dict.{dict_keeps, dict_lawful, dict_made, dict_told};

    ghost ready = { DictIsReady (IsWordOf K.is_valid K.word_of) (IsWordOf V.is_valid V.word_of) };

    ghost waits = { DictWaits (IsWordOf K.is_valid K.word_of) (IsWordOf V.is_valid V.word_of) };

    ghost answers = { DictAnswers K.is_valid K.word_of V.is_valid V.word_of };

    ghost same = { λ old now. (call_in now.run ≡ call_in old.run) × (now.tries ≡ old.tries)
        × KeepsTriesButOne old.run now.run × (trie_in now.run ≡ trie_in old.run)
        × KeepsEnd old.run now.run };

    ghost left = { λ m nodes. map_left m.run nodes };

    ghost fits = { λ m got nodes. MapFits m.run got nodes };

    ghost asks_first = { λ m. AsksFirst m.run };

    fn next(&mut self, got: Option<u64>) -> Turn<Reply<K, V>> {
        self.run.next(got)
    }

    ghost keeps = { dict_keeps (IsWordOf K.is_valid K.word_of) (IsWordOf V.is_valid V.word_of) };

    ghost lawful = { dict_lawful (IsWordOf K.is_valid K.word_of) (IsWordOf V.is_valid V.word_of) };

    ghost made = { dict_made (IsWordOf K.is_valid K.word_of) (IsWordOf V.is_valid V.word_of) };

    ghost told = { dict_told (IsWordOf K.is_valid K.word_of) (IsWordOf V.is_valid V.word_of) };
}
