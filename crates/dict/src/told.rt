//! What a call replies of what its machine has answered.
ghost use Rattle.dict.specs.Translated.{IsReplyOf};
ghost use Rattle.dict.specs.WordReplies.{WordReply, edit_reply, goal_reply, neighbour_reply, range_reply};

use crate::key::WordKey;
use crate::translation::{pair_of, pairs_of, value_of};
use crate::value::WordValue;
use arena::NoMemory;
use edits::Updated;
use order::Refused;
use ordered_map::{Pair, Reply};
use std::alloc::Global;
use template::Goal;

/// What a call replies that finds this value.
#[inline(always)]
pub(crate) fn of_value<K: WordKey, V: WordValue>(value: Option<u128>) -> Reply<K, V>
    ensures { IsReplyOf K.is_valid K.word_of V.is_valid V.word_of (WordReply.Value value) result }
{
    Reply::Value(value_of(value))
}

/// What an edit that walks there replies if its leaf has this key, with this value.
#[inline(always)]
fn of_leaf<K: WordKey, V: WordValue>(goal: Goal, key: u64, value: Option<u128>) -> Reply<K, V>
    ensures { IsReplyOf K.is_valid K.word_of V.is_valid V.word_of (goal_reply goal key value) result }
{
    match goal {
        Goal::Key(_) => of_value(value),
        Goal::End(_) => Reply::Pair(pair_of(value.map(|value| Pair { key, value }))),
    }
}

/// What an edit that walks there replies of what its update has answered.
#[inline(always)]
pub fn of_update<K: WordKey, V: WordValue>(goal: Goal, updated: Updated) -> Reply<K, V>
    ensures { IsReplyOf K.is_valid K.word_of V.is_valid V.word_of (edit_reply goal updated) result }
{
    match updated {
        Updated::Done { key, value } => of_leaf(goal, key, value),
        Updated::Contended { node, scx } => Reply::Contended { node, scx },
        Updated::Full(full) => Reply::Full(full),
    }
}

/// What a search for the pair beside a key replies of what its machine has answered.
#[inline(always)]
pub fn of_neighbour<K: WordKey, V: WordValue>(told: Result<Option<Pair>, Refused>) -> Reply<K, V>
    ensures { IsReplyOf K.is_valid K.word_of V.is_valid V.word_of (neighbour_reply told) result }
{
    match told {
        Ok(pair) => Reply::Pair(pair_of(pair)),
        Err(Refused::Contended { node, scx }) => Reply::Contended { node, scx },
        Err(Refused::NoMemory) => Reply::NoMemory,
    }
}

/// What a range replies of what its machine has answered. What it lists grows with this allocator.
/// Out of line, so that a machine does not pay for its locals at each step.
#[inline(never)]
pub fn of_range<K: WordKey, V: WordValue>(
    alloc: Global,
    told: Result<Vec<Pair>, Refused>,
) -> Reply<K, V>
    ensures { IsReplyOf K.is_valid K.word_of V.is_valid V.word_of (range_reply told) result }
{
    match told {
        Ok(words) => match pairs_of(alloc, &words) {
            Ok(pairs) => Reply::Pairs(pairs),
            Err(NoMemory) => Reply::NoMemory,
        },
        Err(Refused::Contended { node, scx }) => Reply::Contended { node, scx },
        Err(Refused::NoMemory) => Reply::NoMemory,
    }
}
