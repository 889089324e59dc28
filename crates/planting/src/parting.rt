//! Where a fork parts a list of pairs.
ghost use Rattle.std.specs.Prelude.{◌≡◌, ◌<◌, ◌≤◌, length, true, false};
ghost use Rattle.ordered_map.specs.OrderedMap.{IsRising};
ghost use Rattle.planting.specs.Groves.{IsPartedAt};

use ordered_map::{Pair, fork_between};

/// A fork over a list of pairs: it has those before the place `middle` on its left.
#[derive(Clone, Copy, Debug)]
pub(crate) struct Parting {
    pub(crate) middle: usize,
    pub(crate) key: u64,
    pub(crate) level: u64,
}

/// The fork over more pairs than a leaf holds: in a tree on this level.
pub(crate) fn part(pairs: &[Pair], trie: bool, level: u64) -> Parting
    requires many { 4 < length pairs.now }
    requires few { length pairs.now ≤ 33554432 }
    requires rising { IsRising pairs.now }
    ensures { IsPartedAt trie pairs.now level result.middle result.key result.level }
{
    if trie {
        by_bits(pairs)
    } else {
        halves(pairs, level)
    }
}

/// Two halves, the first of full leaves.
fn halves(pairs: &[Pair], level: u64) -> Parting
    requires many { 4 < length pairs.now }
    requires few { length pairs.now ≤ 33554432 }
    requires rising { IsRising pairs.now }
    ensures { IsPartedAt false pairs.now level result.middle result.key result.level }
{
    let leaves = (pairs.len() + 3) / 4;
    let middle = 4 * ((leaves + 1) / 2);
    Parting {
        middle,
        key: pairs[middle].key,
        level,
    }
}

/// By the highest bit in which the first key and the last differ.
fn by_bits(pairs: &[Pair]) -> Parting
    requires many { 4 < length pairs.now }
    requires rising { IsRising pairs.now }
    ensures { (deep : _) → IsPartedAt true pairs.now deep result.middle result.key result.level }
{
    let place = fork_between(pairs[0].key, pairs[pairs.len() - 1].key);
    Parting {
        middle: pairs.partition_point(|pair| pair.key < place.key),
        key: place.key,
        level: place.level,
    }
}
