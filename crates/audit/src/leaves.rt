//! What leaves hold, read from the words that a judge has: pairs by rising key.
ghost use Rattle.std.specs.Prelude.{◌≡◌, ◌^◌, ◌<◌, ◌≤◌, length, IsTrue};
ghost use Rattle.record.specs.Common.{pair, class, said, number_pairs};
ghost use Rattle.histories.specs.Common.{head_of, first_key, node as node_of, Settled, Head as HeadWord};
ghost use Rattle.ordered_map.specs.Edits.{IsLowLeaf};
ghost use Rattle.ordered_map.specs.Holding.{held_pairs, pair_in, IsWellCounted};
ghost use Rattle.ordered_map.specs.TreeWords.{leaf_pairs};
ghost use Rattle.audit.specs.Edits.{word_now};

use arena::{Head, NodeNo, NodeWord, SettledPart, Slot, Word};
use arrayvec::ArrayVec;
use judge::Judge;
use ordered_map::{slot_behind, wide_value};

/// Pairs by rising key, of two leaves at most, each of which holds four at most.
pub(crate) type Pairs = ArrayVec<(u64, u128), 8>;

/// What a leaf says of a key.
pub(crate) fn said(judge: &Judge, leaf: u64, key: u64) -> Option<u128>
    requires readable { class (word_now judge.now) leaf ≡ 0 →
        IsWellCounted (word_now judge.now) leaf }
    ensures { result ≡ said (word_now judge.now) key leaf }
{
    for pair in pairs_of_leaf(judge, leaf).as_slice() {
        if key == pair.0 {
            return Some(pair.1);
        }
    }
    None
}

/// What a leaf gives the map.
pub(crate) fn pairs_of_leaf(judge: &Judge, leaf: u64) -> Pairs
    requires readable { class (word_now judge.now) leaf ≡ 0 →
        IsWellCounted (word_now judge.now) leaf }
    ensures pairs { number_pairs result.items ≡ leaf_pairs (word_now judge.now) leaf }
    ensures few { length result.items ≤ 4 }
{
    if head(judge, leaf).class == 0 {
        held(judge, leaf)
    } else {
        ArrayVec::new()
    }
}

/// What a leaf holds: its pairs, slot by slot.
pub(crate) fn held(judge: &Judge, leaf: u64) -> Pairs
    requires { IsWellCounted (word_now judge.now) leaf }
    ensures pairs { number_pairs result.items ≡ held_pairs (word_now judge.now) leaf }
    ensures few { length result.items ≤ 4 }
{
    let more = settled(judge, leaf, SettledPart::More);
    let mut pairs = ArrayVec::new();
    let mut next = Some(Slot::First);
    while let Some(slot) = next {
        pairs.push(pair_in(judge, leaf, slot));
        next = slot_behind(more, slot);
    }
    pairs
}

/// The pair of a leaf in a slot.
fn pair_in(judge: &Judge, leaf: u64, slot: Slot) -> (u64, u128)
    ensures { pair result.0 result.1 ≡ pair_in (word_now judge.now) leaf slot }
{
    (
        settled(judge, leaf, SettledPart::Key(slot)),
        wide_value(
            settled(judge, leaf, SettledPart::Value(slot)),
            settled(judge, leaf, SettledPart::High(slot)),
        ),
    )
}

/// Whether what a leaf gives the map may be read: of class 0, it holds no more than it may hold.
pub(crate) fn is_readable(judge: &Judge, leaf: u64) -> bool
    ensures { IsTrue result → class (word_now judge.now) leaf ≡ 0 →
        IsWellCounted (word_now judge.now) leaf }
{
    head(judge, leaf).class != 0 || is_well_counted(judge, leaf)
}

/// Whether a leaf of class 0 holds as many pairs as it may hold: three after its first, at most.
#[tactic(auto, using(ordered_map::proofs::Lemmas::few_counted))]
pub(crate) fn is_well_counted(judge: &Judge, leaf: u64) -> bool
    ensures { IsTrue result → IsWellCounted (word_now judge.now) leaf }
{
    settled(judge, leaf, SettledPart::More) < 4
}

/// Whether a node is a leaf of class 0, which holds as many pairs as it may hold.
pub(crate) fn is_low_leaf(judge: &Judge, node: u64) -> bool
    ensures { IsTrue result → IsLowLeaf (word_now judge.now) node }
{
    head(judge, node).leaf && head(judge, node).class == 0 && is_well_counted(judge, node)
}

/// Whether a leaf holds what another holds.
pub(crate) fn is_leaf_copy(judge: &Judge, one: u64, other: u64) -> bool
    ensures counted { IsTrue result → class (word_now judge.now) one ≡ 0 →
        IsWellCounted (word_now judge.now) one }
    ensures pairs { IsTrue result →
        leaf_pairs (word_now judge.now) one ≡ leaf_pairs (word_now judge.now) other }
{
    is_readable(judge, one)
        && is_readable(judge, other)
        && pairs_of_leaf(judge, one) == pairs_of_leaf(judge, other)
}

/// What a node's head says.
pub(crate) fn head(judge: &Judge, node: u64) -> Head
    ensures { result ≡ head_of (word_now judge.now (node_of node (Settled HeadWord))) }
{
    Head::of(settled(judge, node, SettledPart::Head))
}

pub(crate) fn key_of(judge: &Judge, node: u64) -> u64
    ensures key { result ≡ word_now judge.now (node_of node first_key) }
    ensures small { result < 2 ^ 64 }
{
    settled(judge, node, SettledPart::Key(Slot::First))
}

pub(crate) fn settled(judge: &Judge, node: u64, part: SettledPart) -> u64
    ensures { result ≡ word_now judge.now (node_of node (Settled part)) }
{
    node_word(judge, node, NodeWord::Settled(part))
}

pub(crate) fn node_word(judge: &Judge, node: u64, part: NodeWord) -> u64
    ensures { result ≡ word_now judge.now (node_of node part) }
{
    judge.get(Word::Node(NodeNo(node), part))
}
