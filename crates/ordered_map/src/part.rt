//! Parts of the tree that words may show.
ghost use Rattle.std.specs.Prelude.{◌≡◌, ℕ, ◌+◌, ◌*◌, ◌/◌, ◌%◌, ◌^◌, ◌<◌, ◌≤◌, ◌↔◌, IsTrue};
ghost use Rattle.arena.specs.Layout.{all_nodes};
ghost use Rattle.arena.specs.Words.{node, first_key};
ghost use Rattle.arena.specs.PlainWords.{word_at};
ghost use Rattle.arena.specs.declared.word.NodeWord.TheVariants.{Settled};
ghost use Rattle.arena.specs.declared.word.SettledPart.TheVariants.{Head};
ghost use Rattle.arena.specs.declared.word.NodeWord.{NodeWord};
ghost use Rattle.arena.specs.declared.word.Word.{Word};
ghost use Rattle.ordered_map.specs.Parts.{IsFit, IsLeafRoot, IsRoot, IsSeen};

use crate::held::holds_in_order;
use arena::{NodeNo, NodeWord, PlainWords, SettledPart, Side, Slot, Word};

/// A part of the tree: its root, a level that the root's is not below, and the ranks of its leaves,
/// from `low` to below `high`.
#[derive(Clone, Copy, Debug)]
pub(crate) struct Part {
    pub node: u64,
    pub level: u64,
    pub low: u128,
    pub high: u128,
}

/// What the words show at the root of a part.
#[derive(Clone, Copy, Debug)]
pub(crate) enum Seen {
    Leaf,
    Fork { left: Part, right: Part },
    /// No tree such as the part asks for.
    Nothing,
}

/// Class and key of a node as one number.
fn rank_of(head: u64, key: u64) -> u128
    ensures { result ≡ head % 4 * 2 ^ 64 + key }
{
    (head % 4) as u128 * 18446744073709551616 + key as u128
}

/// What the words show at the root of a part.
pub(crate) fn look(words: &PlainWords, part: Part) -> Seen
    ensures { IsSeen words.now part result }
{
    if part.node >= words.layout().all_nodes() as u64 {
        return Seen::Nothing;
    }
    let node = NodeNo(part.node);
    let head = words.get(Word::Node(node, NodeWord::Settled(SettledPart::Head)));
    look_at(
        words,
        part,
        head,
        words.get(Word::Node(node, NodeWord::Settled(SettledPart::Key(Slot::First)))),
    )
}

/// The same, at a root of the table with this head and this key.
fn look_at(words: &PlainWords, part: Part, head: u64, key: u64) -> Seen
    requires inside { part.node < all_nodes words.now.layout }
    requires head { head ≡ word_at words.now (node part.node (Settled Head)) }
    requires key { key ≡ word_at words.now (node part.node first_key) }
    ensures { IsSeen words.now part result }
{
    let rank = rank_of(head, key);
    if !may_be_root(&part, head / 8, rank) {
        Seen::Nothing
    } else if head / 4 % 2 == 1 {
        look_leaf(words, part)
    } else {
        look_below(words, part, head / 8 + 1, rank)
    }
}

/// The same, at a leaf: one of class 0 holds as many pairs as it may hold, in the order of their
/// keys, and all below the part's end.
fn look_leaf(words: &PlainWords, part: Part) -> Seen
    requires { IsLeafRoot words.now part }
    ensures { IsSeen words.now part result }
{
    let node = NodeNo(part.node);
    let head = words.get(Word::Node(node, NodeWord::Settled(SettledPart::Head)));
    if head % 4 != 0 || holds_in_order(words, node, part.high) {
        Seen::Leaf
    } else {
        Seen::Nothing
    }
}

/// Whether a part's root may be of this level and this rank.
fn may_be_root(part: &Part, level: u64, rank: u128) -> bool
    ensures { IsTrue result ↔ IsFit part.now level rank }
{
    part.level <= level && part.low <= rank && rank < part.high
}

/// The same, at a fork: its parts are on the left and on the right of its rank, and deeper.
fn look_below(words: &PlainWords, part: Part, level: u64, rank: u128) -> Seen
    requires { IsRoot words.now part level rank }
    ensures { IsSeen words.now part result }
{
    if rank == part.low {
        return Seen::Nothing;
    }
    let left = Part {
        node: words.get(Word::Node(NodeNo(part.node), NodeWord::Child(Side::Left))),
        level,
        low: part.low,
        high: rank,
    };
    let right = Part {
        node: words.get(Word::Node(NodeNo(part.node), NodeWord::Child(Side::Right))),
        level,
        low: rank,
        high: part.high,
    };
    Seen::Fork { left, right }
}
