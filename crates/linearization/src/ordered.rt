//! Ordered reads: which keys they look for, and what they answer of the map.
ghost use Rattle.std.specs.Prelude.{◌≡◌, ◌≢◌, ℕ, ◌+◌, ◌^◌, ◌<◌, List, ◌∷◌, IfSome, IfNone, nat_le};
ghost use Rattle.std.specs.List.{list_any};
ghost use Rattle.std.specs.Ordering.{nat_cmp};
ghost use Rattle.std.specs.Range.Bound.{IsForward};
ghost use Rattle.std.specs.BTreeMap.Range.{IsLeBy, IsLtBy, range_contains};
ghost use Rattle.ordered_map.specs.declared.pair.Pair.{Pair as PairOf};
ghost use Rattle.ordered_map.specs.OrderedMap.{get};
ghost use Rattle.ordered_map.specs.Replies.{number_reply};
ghost use Rattle.record.specs.MapRecord.{number_pairs};
ghost use Rattle.linearization.specs.Ordered.{is_from, looks_for, most_told, pairs_in, reaches, is_unlike, IsNextBest};

use ordered_map::{Reply, Request};
use script::Command;
use std::ops::Bound;
use std::slice;

/// The pairs that a reply has.
pub fn pairs_told(reply: &Reply<u64, u128>) -> &[(u64, u128)]
    ensures { number_pairs result.now ≡ pairs_in (number_reply reply.now) }
{
    match reply {
        Reply::Pair(Some(pair)) => slice::from_ref(pair),
        Reply::Pairs(pairs) => pairs.as_slice(),
        _ => &[],
    }
}

/// Whether a key of this value is not as these pairs say, which the read has answered.
pub(crate) fn is_unlike(
    command: &Command,
    pairs: &[(u64, u128)],
    key: u64,
    value: Option<u128>,
) -> bool
    ensures { result ≡ is_unlike command.now (number_pairs pairs.now) key value }
{
    looks_for(command, pairs, key)
        && reaches(most_told(command), pairs, key)
        && value_in(pairs, key) != value
}

/// Whether the read looks for this key, if it answers these pairs.
fn looks_for(command: &Command, pairs: &[(u64, u128)], key: u64) -> bool
    ensures { result ≡ looks_for command.now (number_pairs pairs.now) key }
{
    match command {
        Command::Map(Request::PopFirst) => true,
        Command::Map(Request::PopLast) => is_from(pairs, key),
        Command::Map(Request::Successor { key: above }) => *above < key,
        Command::Map(Request::Predecessor { key: below }) => key < *below && is_from(pairs, key),
        Command::Map(Request::Range { low, high, most: _ }) => *low <= key && key <= *high,
        _ => false,
    }
}

/// Whether what tells the last of some pairs, or none, looks for this key of one of them.
fn is_from(pairs: &[(u64, u128)], key: u64) -> bool
    ensures { result ≡ is_from (number_pairs pairs.now) key }
{
    match pairs {
        [] => true,
        [pair] => pair.0 <= key,
        _ => false,
    }
}

/// Between which keys it looks.
pub(crate) fn bounds(command: &Command, pairs: &[(u64, u128)]) -> (Bound<u64>, Bound<u64>)
    ensures forward { IsForward (IsLeBy nat_cmp) (IsLtBy nat_cmp) result.0 result.1 }
    ensures keys { (key : ℕ) →
        range_contains nat_cmp result.0 result.1 key ≡ looks_for command.now (number_pairs pairs.now) key }
{
    match command {
        Command::Map(Request::PopFirst) => (Bound::Unbounded, Bound::Unbounded),
        Command::Map(Request::PopLast) => match pairs {
            [] => (Bound::Unbounded, Bound::Unbounded),
            [pair] => (Bound::Included(pair.0), Bound::Unbounded),
            _ => (Bound::Included(0), Bound::Excluded(0)),
        },
        Command::Map(Request::Successor { key }) => (Bound::Excluded(*key), Bound::Unbounded),
        Command::Map(Request::Predecessor { key }) => match pairs {
            [] => (Bound::Unbounded, Bound::Excluded(*key)),
            [pair] if pair.0 <= *key => (Bound::Included(pair.0), Bound::Excluded(*key)),
            _ => (Bound::Included(0), Bound::Excluded(0)),
        },
        Command::Map(Request::Range { low, high, .. }) if *low <= *high => {
            (Bound::Included(*low), Bound::Included(*high))
        }
        _ => (Bound::Included(0), Bound::Excluded(0)),
    }
}

/// How many pairs it finds at most.
pub(crate) fn most_told(command: &Command) -> usize
    ensures { result ≡ most_told command.now }
{
    match command {
        Command::Map(Request::PopFirst) => 1,
        Command::Map(Request::PopLast) => 2,
        Command::Map(Request::Successor { key: _ }) => 1,
        Command::Map(Request::Predecessor { key: _ }) => 2,
        Command::Map(Request::Range { most, .. }) => *most as usize,
        _ => 0,
    }
}

/// Whether these pairs, at most `most`, say what the key has.
fn reaches(most: usize, pairs: &[(u64, u128)], key: u64) -> bool
    ensures { result ≡ reaches most (number_pairs pairs.now) key }
{
    pairs.len() < most || go_as_far(pairs, key)
}

/// Whether one of these pairs has this key, or a key above it.
fn go_as_far(pairs: &[(u64, u128)], key: u64) -> bool
    ensures { result ≡ list_any (λ p. nat_le key p.key) (number_pairs pairs.now) }
{
    for pair in pairs {
        if key <= pair.0 {
            return true;
        }
    }
    false
}

/// The pairs after the first one, if that has this key and this value.
pub(crate) fn behind(pairs: &[(u64, u128)], key: u64, value: u128) -> Option<&[(u64, u128)]>
    ensures some { IfSome result (λ rest. (first : PairOf) × (first.key ≡ key) × (first.value ≡ value) ×
        (number_pairs pairs.now ≡ first ∷ number_pairs rest.now)) }
    ensures none { IfNone result ((first : PairOf) (rest : List PairOf) → first.key ≡ key →
        first.value ≡ value → number_pairs pairs.now ≢ first ∷ rest) }
{
    let (first, rest) = pairs.split_first()?;
    if first.0 == key && first.1 == value {
        Some(rest)
    } else {
        None
    }
}

/// The value of the key in these pairs.
fn value_in(pairs: &[(u64, u128)], key: u64) -> Option<u128>
    ensures { result ≡ get key (number_pairs pairs.now) }
{
    for pair in pairs {
        if key == pair.0 {
            return Some(pair.1);
        }
    }
    None
}

/// The better of two turns, and how many keys more are not as answered after the older one: just
/// before a change whose key was not so before it, or is not so after it.
pub(crate) fn next_best(was: bool, is: bool, older: u64, best: u64, more: usize) -> (u64, usize)
    requires { more + 1 < 2 ^ 64 }
    ensures { IsNextBest was is older best more result.0 result.1 }
{
    match (was, is) {
        (true, false) => (best, more + 1),
        (false, true) if more == 0 => (older, 0),
        (false, true) => (best, more - 1),
        _ => (best, more),
    }
}
