//! A dictionary begins with pairs.
ghost use Rattle.std.specs.Prelude.{◌≡◌, ◌↔◌, ◌*◌, true, false, Err, IfErr, IfOk, length, take, vec_len};
ghost use Rattle.std.specs.List.{All};
ghost use Rattle.arena.specs.Limits.{IsAccepted};
ghost use Rattle.arena.specs.declared.limits.Mode.TheVariants.{Tree, Trie};
ghost use Rattle.regnubas.specs.Balance.{map_mode};
ghost use Rattle.forest.specs.Beginnings.{IsRefusalOfPairs};
ghost use Rattle.capi.specs.Answers.{StandIn};
ghost use Rattle.capi.specs.Begins.{HaveBegun, NextSays, map_pairs};
ghost use Rattle.capi.specs.Ends.{IsEmpty, held_in};

use crate::answer::{Count, KeyValue, status_of_pairs};
use crate::handle::HandleSlot;
use crate::held::Numbers;
use crate::open::{hand_out_tree, hand_out_trie};
use regnubas::{ByBits, ByOrder, Forest, Limits, NoMemory, PairsFault};
use std::alloc::Global;

/// A place for each pass of a new dictionary that begins with these pairs, a trie or a tree, with a
/// handle that holds it.
pub(crate) fn begin(
    alloc: Global,
    limits: Limits,
    trie: bool,
    pairs: &[(u64, u128)],
) -> Result<Vec<HandleSlot>, PairsFault>
    ensures limits { (result ≡ Err PairsFault.Limits) ↔ (¬ IsAccepted limits) }
    ensures refused { IfErr result
        (IsRefusalOfPairs trie (limits.passes * limits.nodes) (map_pairs pairs.now)) }
    ensures begun { IfOk result
        (λ places. HaveBegun (map_mode trie) limits pairs.now places.items) }
    ensures count { IfOk result (λ places. vec_len places ≡ limits.passes) }
{
    if trie {
        begin_trie(alloc, limits, pairs)
    } else {
        begin_tree(alloc, limits, pairs)
    }
}

/// The same of a tree.
fn begin_tree(
    alloc: Global,
    limits: Limits,
    pairs: &[(u64, u128)],
) -> Result<Vec<HandleSlot>, PairsFault>
    ensures limits { (result ≡ Err PairsFault.Limits) ↔ (¬ IsAccepted limits) }
    ensures refused { IfErr result
        (IsRefusalOfPairs false (limits.passes * limits.nodes) (map_pairs pairs.now)) }
    ensures begun { IfOk result (λ places. HaveBegun Tree limits pairs.now places.items) }
    ensures count { IfOk result (λ places. vec_len places ≡ limits.passes) }
{
    let (forest, passes) = match Forest::<Numbers<ByOrder>>::of_pairs(alloc, limits, pairs) {
        Ok(opened) => opened,
        Err(fault) => return Err(fault),
    };
    match hand_out_tree(alloc, forest, passes, limits.passes) {
        Ok(places) => Ok(places),
        Err(NoMemory) => Err(PairsFault::NoMemory),
    }
}

/// The same of a trie.
fn begin_trie(
    alloc: Global,
    limits: Limits,
    pairs: &[(u64, u128)],
) -> Result<Vec<HandleSlot>, PairsFault>
    ensures limits { (result ≡ Err PairsFault.Limits) ↔ (¬ IsAccepted limits) }
    ensures refused { IfErr result
        (IsRefusalOfPairs true (limits.passes * limits.nodes) (map_pairs pairs.now)) }
    ensures begun { IfOk result (λ places. HaveBegun Trie limits pairs.now places.items) }
    ensures count { IfOk result (λ places. vec_len places ≡ limits.passes) }
{
    let (forest, passes) = match Forest::<Numbers<ByBits>>::of_pairs(alloc, limits, pairs) {
        Ok(opened) => opened,
        Err(fault) => return Err(fault),
    };
    match hand_out_trie(alloc, forest, passes, limits.passes) {
        Ok(places) => Ok(places),
        Err(NoMemory) => Err(PairsFault::NoMemory),
    }
}

/// Leaves the pairs of a dictionary that has ended in the room, and begins the next with them, whose
/// passes the handles hold then. It answers how many pairs there are.
pub(crate) fn begin_next(
    alloc: Global,
    limits: Limits,
    trie: bool,
    pairs: Vec<(u64, u128)>,
    passes: &mut [HandleSlot],
    room: &mut [KeyValue],
) -> Count
    requires len { length passes.old ≡ limits.passes }
    requires empty { All IsEmpty (held_in passes.old) }
    ensures count { result.pairs ≡ vec_len pairs }
    ensures put { StandIn (take (length room.new) pairs.items) room.new }
    ensures next { NextSays trie limits pairs.items passes.new result.status }
{
    let begun = begin(alloc, limits, trie, &pairs);
    let told = Count::of_pairs(pairs, room);
    match begun {
        Ok(mut places) => {
            passes.swap_with_slice(&mut places);
            told
        }
        Err(fault) => Count {
            pairs: told.pairs,
            status: status_of_pairs(fault),
        },
    }
}
