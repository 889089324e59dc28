//! Forests that begin with pairs.
ghost use Rattle.std.specs.Prelude.{◌≡◌, ◌≢◌, ◌+◌, ◌*◌, ◌^◌, ◌≤◌, ◌↔◌, Err, IfOk, IfErr, OnOk, List, map};
ghost use Rattle.arena.specs.History.{Opened, value};
ghost use Rattle.arena.specs.Limits.{IsAccepted};
ghost use Rattle.arena.specs.Machines.{IsRun};
ghost use Rattle.template.specs.Balance.{map_mode};
ghost use Rattle.ordered_map.specs.declared.pair.Pair.{Pair as PairOf};
ghost use Rattle.ordered_map.specs.OrderedMap.{AllBelow, IsRising};
ghost use Rattle.ordered_map.specs.Replies.{word_pair};
ghost use Rattle.ordered_map.specs.Spelled.{Spells};
ghost use Rattle.dict.specs.Typed.{AreTyped, TypedAllows};
ghost use Rattle.dict.specs.Words.{IsWordOf};
ghost use Rattle.planting.specs.Plantings.{opening_for};
ghost use Rattle.tables.specs.Passes.{AreNew, PassView, IsClosed};
ghost use Rattle.tables.specs.TableRule.{history_of};
ghost use Rattle.forest.specs.Beginnings.{BeginsWithPairs, HasLimits, IsPlotWith, IsRefusalOfPairs};

use crate::close::Closed;
use crate::fault::PairsFault;
use crate::filled_once::FilledOnce;
use crate::forest::Forest;
use crate::pass::Pass;
use arena::{Layout, Limits, NoMemory};
use dict::{Dict, WordKey, WordValue, number_of};
use ordered_map::Pair;
use planting::{MOST_NODES, Planting, first_fall, with_room};
use std::alloc::Global;
use straight::balance::in_trie;
use tables::rule::Plot;
use template::map_mode;

impl<K: WordKey, V: WordValue, B: FilledOnce> Forest<Dict<K, V, B>> {
    /// A dictionary that begins with these pairs, in rising order of keys, and a pass for each
    /// client. Each pass has its whole share: the nodes of the pairs are beside the shares, so that
    /// a pass may do as much as in an empty dictionary. A tree is balanced, with as few leaves as
    /// hold the pairs; a trie has at most two nodes a pair. No SCX is made for it. Refused are
    /// limits out of range, keys that do not rise, more nodes than there is room for, and want of
    /// memory: then nothing is made.
    pub fn of_pairs(
        alloc: Global,
        limits: Limits,
        pairs: &[(K, V)],
    ) -> Result<(Forest<Dict<K, V, B>>, Vec<Pass<Dict<K, V, B>>>), PairsFault>
        ensures accepted { OnOk result (IsAccepted limits) }
        ensures limits { (result ≡ Err PairsFault.Limits) ↔ (¬ IsAccepted limits) }
        ensures rising { OnOk result (IsRising (map (word_pair K.word_of V.word_of) pairs.now)) }
        ensures refused { IfErr result (IsRefusalOfPairs
            (B.trie B.the) (limits.passes * limits.nodes) (map (word_pair K.word_of V.word_of) pairs.now)) }
        ensures layout { IfOk result (λ r. HasLimits limits (map_mode (B.trie B.the)) r.0.layout) }
        ensures tries { IfOk result (λ r. r.0.tries ≡ limits.tries) }
        ensures begins { IfOk result (λ r. BeginsWithPairs r.0 (map (word_pair K.word_of V.word_of) pairs.now)) }
        ensures passes { IfOk result (λ r. AreNew r.0 r.1.items) }
    {
        let Ok(layout) = limits.check(map_mode(in_trie::<B>())) else {
            return Err(PairsFault::Limits);
        };
        let plot = plot_with(alloc, in_trie::<B>(), &layout, pairs)?;
        match Forest::with_plot(alloc, plot, limits.tries) {
            Ok(begun) => Ok(begun),
            Err(NoMemory) => Err(PairsFault::NoMemory),
        }
    }
}

impl<K: WordKey, V: WordValue, B: FilledOnce> Closed<Dict<K, V, B>> {
    /// A dictionary that begins with the pairs that this one was left with, and a pass for each
    /// client, as `Forest::of_pairs`. It reads the table once. What was closed stays, so that after
    /// a refusal it may be tried again; the keys of a map rise, so that `Order` does not come.
    pub fn renewed(
        &self,
        alloc: Global,
        limits: Limits,
    ) -> Result<(Forest<Dict<K, V, B>>, Vec<Pass<Dict<K, V, B>>>), PairsFault>
        ensures accepted { OnOk result (IsAccepted limits) }
        ensures limits { (result ≡ Err PairsFault.Limits) ↔ (¬ IsAccepted limits) }
        ensures refused { (lay : Layout) (passes : List PassView)
            (c : IsClosed (TypedAllows (IsWordOf K.is_valid K.word_of) (IsWordOf V.is_valid V.word_of)) lay passes self.now)
            (m : List PairOf) → Spells lay (value (history_of c.planting c.rows)) m
            → IfErr result (IsRefusalOfPairs (B.trie B.the) (limits.passes * limits.nodes) m) }
        ensures layout { IfOk result (λ r. HasLimits limits (map_mode (B.trie B.the)) r.0.layout) }
        ensures tries { IfOk result (λ r. r.0.tries ≡ limits.tries) }
        ensures begins { (lay : Layout) (passes : List PassView)
            (c : IsClosed (TypedAllows (IsWordOf K.is_valid K.word_of) (IsWordOf V.is_valid V.word_of)) lay passes self.now)
            → IfOk result (λ r. (m : List PairOf) × Spells lay (value (history_of c.planting c.rows)) m × BeginsWithPairs r.0 m) }
        ensures passes { IfOk result (λ r. AreNew r.0 r.1.items) }
    {
        // First, so that the table is not read in vain.
        let Ok(_layout) = limits.check(map_mode(in_trie::<B>())) else {
            return Err(PairsFault::Limits);
        };
        let pairs = self.pairs(alloc)?;
        Forest::of_pairs(alloc, limits, &pairs)
    }
}

/// This layout with room for these pairs, and the pairs as they are planted.
fn plot_with<K: WordKey, V: WordValue>(
    alloc: Global,
    trie: bool,
    layout: &Layout,
    pairs: &[(K, V)],
) -> Result<Plot, PairsFault>
    requires mode { layout.now.mode ≡ map_mode trie }
    requires none { layout.now.planted ≡ 0 }
    requires shares { (layout.now.nodes ≤ 32768) × (layout.now.scx ≤ 32768) }
    ensures plot { IfOk result (IsPlotWith layout.now (map (word_pair K.word_of V.word_of) pairs.now)) }
    ensures run { IfOk result (λ plot. IsRun (TypedAllows (IsWordOf K.is_valid K.word_of) (IsWordOf V.is_valid V.word_of))
        plot.layout (Opened (opening_for plot.planting))) }
    ensures rising { OnOk result (IsRising (map (word_pair K.word_of V.word_of) pairs.now)) }
    ensures refused { IfErr result (IsRefusalOfPairs
        trie (layout.now.passes * layout.now.nodes) (map (word_pair K.word_of V.word_of) pairs.now)) }
    ensures limits { result ≢ Err PairsFault.Limits }
{
    let words = words_of(alloc, pairs)?;
    if let Some(place) = first_fall(&words) {
        return Err(PairsFault::Order { place });
    }
    let room = MOST_NODES - layout.passes * layout.nodes;
    // A leaf has at most four.
    if words.len() > 4 * MOST_NODES as usize {
        return Err(PairsFault::TooMany { room });
    }
    let planting = Planting::of_pairs(alloc, trie, words)?;
    match with_room(layout, planting.count() as u32) {
        Some(layout) => Ok(Plot { layout, planting }),
        None => Err(PairsFault::TooMany { room }),
    }
}

/// The words of these pairs, in their order.
fn words_of<K: WordKey, V: WordValue>(
    alloc: Global,
    pairs: &[(K, V)],
) -> Result<Vec<Pair>, NoMemory>
    ensures words { IfOk result (λ words. words.items ≡ map (word_pair K.word_of V.word_of) pairs.now) }
    ensures keys { IfOk result (λ words. AllBelow (2 ^ 64) words.items) }
    ensures typed { IfOk result (λ words.
        AreTyped (IsWordOf K.is_valid K.word_of) (IsWordOf V.is_valid V.word_of) words.items) }
{
    let mut words = Vec::with_capacity(alloc, pairs.len())?;
    for (key, value) in pairs {
        key.valid();
        value.valid();
        words.push(Pair {
            key: key.word(),
            value: number_of(value),
        })?;
    }
    Ok(words)
}
