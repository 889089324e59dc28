//! Whether what stands below a fork of a trie keeps to the keys of its side.
ghost use Rattle.std.specs.Prelude.{◌≡◌, ◌≢◌, ◌+◌, ◌^◌, ◌<◌, ◌≤◌, false, true, IsTrue};
ghost use Rattle.arena.specs.Words.{child as child_of};
ghost use Rattle.arena.specs.declared.word.Side.{Side as SideOf};
ghost use Rattle.arena.specs.declared.word.Side.TheVariants.{Left, Right};
ghost use Rattle.ordered_map.specs.Bits.{IsForkKey, IsParted, IsTrieFork, Keeps, Shares, room_at, side_from, side_to};
ghost use Rattle.ordered_map.specs.Holding.{held_pairs, IsWellCounted};
ghost use Rattle.ordered_map.specs.OrderedMap.{AllBelow, AllFrom};
ghost use Rattle.ordered_map.specs.TreeWords.{class, is_leaf, level};
ghost use Rattle.ordered_map.specs.TrieShape.{FitsTrie};
ghost use Rattle.record.specs.MapRecord.{number_pairs};
ghost use Rattle.audit.specs.Edits.{word_now};

use crate::leaves::{head, held, is_well_counted, key_of, node_word};
use crate::levels::rises;
use arena::{NodeWord, Side};
use judge::Judge;

/// How many keys there are.
const ALL_KEYS: u128 = 1 << 64;

/// Which keys may stand below a fork: from `low` to below `middle` on its left, from there to below
/// `high` on its right. Above all keys they are all on the left.
#[derive(Clone, Copy)]
struct Span {
    low: u128,
    middle: u128,
    high: u128,
}

/// Which keys may stand below a fork.
#[tactic(auto, using(crate::proofs::TrieShapes::low_sides, crate::proofs::TrieShapes::high_sides))]
fn span_of(judge: &Judge, fork: u64) -> Span
    ensures low { result.low ≡ side_from (word_now judge.now) fork Left }
    ensures to_middle { result.middle ≡ side_to (word_now judge.now) fork Left }
    ensures from_middle { result.middle ≡ side_from (word_now judge.now) fork Right }
    ensures high { result.high ≡ side_to (word_now judge.now) fork Right }
{
    let (class, key) = (head(judge, fork).class, u128::from(key_of(judge, fork)));
    let room = room_at(head(judge, fork).level);
    if class == 0 {
        Span {
            low: key.saturating_sub(room),
            middle: key,
            high: key + room,
        }
    } else {
        Span {
            low: 0,
            middle: ALL_KEYS,
            high: ALL_KEYS,
        }
    }
}

/// How many keys each side of a fork of class 0 on this level has room for.
#[tactic(auto, using(crate::proofs::TrieShapes::room_small))]
fn room_at(level: u64) -> u128
    ensures room { result ≡ room_at level }
    ensures few { result < 2 ^ 66 }
{
    1 << (65u64.saturating_sub(level) as u32)
}

/// Whether a key may stand below a fork.
pub(crate) fn shares(judge: &Judge, fork: u64, key: u64) -> bool
    ensures { IsTrue result → class (word_now judge.now) fork ≡ 0 →
        Shares (word_now judge.now) fork key }
{
    let (span, key) = (span_of(judge, fork), u128::from(key));
    head(judge, fork).class > 0 || (span.low <= key && key < span.high)
}

/// Whether a node that is to stand below a fork on this side fits there: it keeps to the keys of the
/// side, and what is below it to its own, and levels rise.
pub(crate) fn fits(judge: &Judge, fork: u64, side: Side, node: u64) -> bool
    ensures { IsTrue result → FitsTrie (word_now judge.now) fork side node }
{
    keeps(judge, fork, side, node)
        && is_trie_fork(judge, node)
        && head(judge, fork).level < head(judge, node).level
        && rises(judge, node)
}

/// Whether a node keeps to the keys of a fork's side: a fork with all that it shares, a leaf with
/// those of its pairs.
fn keeps(judge: &Judge, fork: u64, side: Side, node: u64) -> bool
    ensures { IsTrue result → Keeps (word_now judge.now) fork side node }
{
    let (from, to) = side_of(judge, fork, side);
    fork_keeps(judge, node, from, to)
        && leaf_keeps(judge, node, from, to)
        && last_keeps(judge, node)
}

/// Which keys may stand on a side of a fork: from the first of these to below the second.
fn side_of(judge: &Judge, fork: u64, side: Side) -> (u128, u128)
    ensures from { result.0 ≡ side_from (word_now judge.now) fork side }
    ensures to { result.1 ≡ side_to (word_now judge.now) fork side }
{
    let span = span_of(judge, fork);
    match side {
        Side::Left => (span.low, span.middle),
        Side::Right => (span.middle, span.high),
    }
}

/// Whether a node, if it is a fork of class 0, shares no key but those from one to below another.
fn fork_keeps(judge: &Judge, node: u64, from: u128, to: u128) -> bool
    ensures { IsTrue result → is_leaf (word_now judge.now) node ≡ false →
        class (word_now judge.now) node ≡ 0 →
        (from ≤ side_from (word_now judge.now) node Left)
        × (side_to (word_now judge.now) node Right ≤ to) }
{
    let span = span_of(judge, node);
    !is_low_fork(judge, node) || (from <= span.low && span.high <= to)
}

/// Whether a node, if it is a leaf of class 0, is on its level, and has no key but such.
fn leaf_keeps(judge: &Judge, node: u64, from: u128, to: u128) -> bool
    ensures { IsTrue result → is_leaf (word_now judge.now) node ≡ true →
        class (word_now judge.now) node ≡ 0 → (level (word_now judge.now) node ≡ 66)
        × AllFrom from (held_pairs (word_now judge.now) node)
        × AllBelow to (held_pairs (word_now judge.now) node) }
{
    !head(judge, node).leaf
        || head(judge, node).class > 0
        || (head(judge, node).level == 66
            && is_well_counted(judge, node)
            && are_held_within(judge, node, from, to))
}

/// Whether a node, if it is a leaf above all keys, is on its level.
fn last_keeps(judge: &Judge, node: u64) -> bool
    ensures { IsTrue result → is_leaf (word_now judge.now) node ≡ true →
        class (word_now judge.now) node ≢ 0 →
        level (word_now judge.now) node + class (word_now judge.now) node ≤ 3 }
{
    let of = head(judge, node);
    !of.leaf || of.class == 0 || (of.level <= 2 && of.level + u64::from(of.class) <= 3)
}

/// Whether a node is a fork of class 0.
pub(crate) fn is_low_fork(judge: &Judge, node: u64) -> bool
    ensures fork { IsTrue result → is_leaf (word_now judge.now) node ≡ false }
    ensures low { IsTrue result → class (word_now judge.now) node ≡ 0 }
    ensures none { result ≡ false → is_leaf (word_now judge.now) node ≡ false →
        class (word_now judge.now) node ≢ 0 }
{
    !head(judge, node).leaf && head(judge, node).class == 0
}

/// Whether the keys of all pairs that a leaf holds are from one number to below another.
fn are_held_within(judge: &Judge, leaf: u64, from: u128, to: u128) -> bool
    requires { IsWellCounted (word_now judge.now) leaf }
    ensures from { IsTrue result → AllFrom from (held_pairs (word_now judge.now) leaf) }
    ensures below { IsTrue result → AllBelow to (held_pairs (word_now judge.now) leaf) }
{
    let pairs = held(judge, leaf);
    are_within(pairs.as_slice(), from, to)
}

/// Whether the keys of all these pairs are from one number to below another.
fn are_within(pairs: &[(u64, u128)], from: u128, to: u128) -> bool
    ensures from { IsTrue result → AllFrom from (number_pairs pairs.now) }
    ensures below { IsTrue result → AllBelow to (number_pairs pairs.now) }
{
    for pair in pairs {
        let key = u128::from(pair.0);
        if key < from || to <= key {
            return false;
        }
    }
    true
}

/// Whether a node, if it is a fork, parts keys at a bit, and its children keep to its sides.
fn is_trie_fork(judge: &Judge, node: u64) -> bool
    ensures { IsTrue result → IsTrieFork (word_now judge.now) node }
{
    head(judge, node).leaf
        || (is_parted(judge, node)
            && keeps_child(judge, node, Side::Left)
            && keeps_child(judge, node, Side::Right))
}

/// Whether the child of a fork on this side keeps to the keys there.
fn keeps_child(judge: &Judge, fork: u64, side: Side) -> bool
    ensures { IsTrue result → Keeps (word_now judge.now) fork side
        (word_now judge.now (child_of fork side)) }
{
    keeps(
        judge,
        fork,
        side,
        node_word(judge, fork, NodeWord::Child(side)),
    )
}

/// Whether a fork stands on the level that it should: above all keys on 0 or 1, by its class, and
/// else on that of the lowest bit of its key.
fn is_parted(judge: &Judge, fork: u64) -> bool
    ensures { IsTrue result → IsParted (word_now judge.now) fork }
{
    let of = head(judge, fork);
    (of.class == 0 || (of.level <= 2 && of.level + u64::from(of.class) == 2))
        && (of.class > 0 || is_fork_key(key_of(judge, fork), of.level))
}

/// Whether a fork of class 0 with this key may stand on this level.
fn is_fork_key(key: u64, level: u64) -> bool
    ensures { IsTrue result → IsForkKey key level }
{
    let room = room_at(level);
    2 <= level && level <= 65 && u128::from(key) % (2 * room) == room
}
