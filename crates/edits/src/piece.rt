//! What fresh nodes are to hold.
ghost use Rattle.std.specs.Prelude.{◌≡◌, ◌/◌, ◌%◌, ◌^◌};
ghost use Rattle.edits.specs.Pieces.{piece_head, leaf_word, has_high, value_in, key_first, key_behind, leaf_behind, fork_behind};

use crate::pairs::Pairs;
use arena::{Head, NodeNo, NodeWord, SettledPart, Side, Slot};
use ordered_map::{Pair, halves, slot_behind};

/// What a fresh node is to hold. A leaf above all keys has one pair: its key, and the value 0.
#[derive(Clone, Copy, Debug)]
pub enum Piece {
    Leaf {
        level: u64,
        class: u8,
        pairs: Pairs,
    },
    Fork {
        level: u64,
        class: u8,
        key: u64,
        left: NodeNo,
        right: NodeNo,
    },
}

impl Piece {
    ghost use Rattle.std.specs.Prelude.{◌≡◌};
    ghost use Rattle.arena.specs.declared.word.NodeWord.{NodeWord};
    ghost use Rattle.arena.specs.declared.word.SettledPart.{SettledPart};
    ghost use Rattle.edits.specs.Pieces.{word_of, part_behind};

    /// What one of its words is to hold.
    #[inline(always)]
    pub fn word(&self, part: NodeWord) -> u64
        ensures { result ≡ word_of self.now part }
    {
        match *self {
            Piece::Leaf {
                level,
                class,
                pairs,
            } => match part {
                NodeWord::Settled(SettledPart::Head) => head(level, true, class),
                _ => leaf_word(&pairs, part),
            },
            Piece::Fork {
                level,
                class,
                key,
                left,
                right,
            } => match part {
                NodeWord::Settled(SettledPart::Head) => head(level, false, class),
                NodeWord::Settled(SettledPart::Key(Slot::First)) => key,
                NodeWord::Child(Side::Left) => left.0,
                NodeWord::Child(Side::Right) => right.0,
                _ => 0,
            },
        }
    }

    /// What the words of the pair in this slot are to hold: key, value and high half.
    #[inline(always)]
    pub fn pair_words(&self, slot: Slot) -> (u64, u64, u64)
        ensures key { result.0 ≡ word_of self.now (NodeWord.Settled (SettledPart.Key slot)) }
        ensures low { result.1 ≡ word_of self.now (NodeWord.Settled (SettledPart.Value slot)) }
        ensures high { result.2 ≡ word_of self.now (NodeWord.Settled (SettledPart.High slot)) }
    {
        match self {
            Piece::Leaf { pairs, .. } => {
                let Pair { key, value } = pairs.at(slot);
                let (low, high) = halves(value);
                (key, low, high)
            }
            Piece::Fork { .. } => (self.word(NodeWord::Settled(SettledPart::Key(slot))), 0, 0),
        }
    }

    /// The key that is filled after the pair in this slot, if one is.
    #[inline(always)]
    pub fn key_behind(&self, slot: Slot) -> Option<NodeWord>
        ensures { result ≡ part_behind self.now (NodeWord.Settled (SettledPart.High slot)) }
    {
        match self {
            Piece::Leaf { pairs, .. } => key_behind(pairs, slot),
            Piece::Fork { .. } => None,
        }
    }

    /// The word that is filled after this one, if one is: of a leaf the count of its pairs, and
    /// then key and value of each, where a count and a high half that are 0 are left out.
    #[inline(always)]
    pub fn behind(&self, part: NodeWord) -> Option<NodeWord>
        ensures { result ≡ part_behind self.now part }
    {
        match *self {
            Piece::Leaf { pairs, .. } => leaf_behind(&pairs, part),
            Piece::Fork { .. } => fork_behind(part),
        }
    }
}

/// The word of a head. A level beyond the deepest that a word holds is taken for that one.
fn head(level: u64, leaf: bool, class: u8) -> u64
    ensures { result ≡ piece_head level leaf class }
{
    let deepest = 2305843009213693951;
    Head {
        level: level.min(deepest),
        leaf,
        class: class % 4,
    }
    .word()
}

/// What a word of a leaf after its head is to hold.
#[inline(always)]
fn leaf_word(pairs: &Pairs, part: NodeWord) -> u64
    ensures { result ≡ leaf_word pairs.now part }
{
    match part {
        NodeWord::Settled(SettledPart::More) => pairs.more(),
        NodeWord::Settled(SettledPart::Key(slot)) => pairs.at(slot).key,
        NodeWord::Settled(SettledPart::Value(slot)) => low_half(pairs.at(slot).value),
        NodeWord::Settled(SettledPart::High(slot)) => high_half(pairs.at(slot).value),
        _ => 0,
    }
}

/// A value without its high half.
#[inline(always)]
fn low_half(value: u128) -> u64
    ensures { result ≡ value % 2 ^ 64 }
{
    halves(value).0
}

/// The high half of a value.
#[inline(always)]
fn high_half(value: u128) -> u64
    ensures { result ≡ value / 2 ^ 64 }
{
    halves(value).1
}

/// The word that is filled after this one of a leaf.
#[inline(always)]
fn leaf_behind(pairs: &Pairs, part: NodeWord) -> Option<NodeWord>
    ensures { result ≡ leaf_behind pairs.now part }
{
    match part {
        NodeWord::Settled(SettledPart::Head) => count_or_key(pairs),
        NodeWord::Settled(SettledPart::More) => key_first(pairs),
        NodeWord::Settled(SettledPart::Key(slot)) => value_in(pairs, slot),
        NodeWord::Settled(SettledPart::Value(slot)) => high_or_key(pairs, slot),
        NodeWord::Settled(SettledPart::High(slot)) => key_behind(pairs, slot),
        _ => None,
    }
}

/// The word that is filled after this one of a fork.
#[inline(always)]
fn fork_behind(part: NodeWord) -> Option<NodeWord>
    ensures { result ≡ fork_behind part }
{
    match part {
        NodeWord::Settled(SettledPart::Head) => {
            Some(NodeWord::Settled(SettledPart::Key(Slot::First)))
        }
        NodeWord::Settled(SettledPart::Key(Slot::First)) => Some(NodeWord::Child(Side::Left)),
        NodeWord::Child(Side::Left) => Some(NodeWord::Child(Side::Right)),
        _ => None,
    }
}

/// The count of the pairs, where that is not 0, or else the first key.
#[inline(always)]
fn count_or_key(pairs: &Pairs) -> Option<NodeWord>
    ensures { result ≡ leaf_behind pairs.now (NodeWord.Settled SettledPart.Head) }
{
    if 1 < pairs.len() {
        Some(NodeWord::Settled(SettledPart::More))
    } else {
        key_first(pairs)
    }
}

/// The key of the first pair, if there is one.
#[inline(always)]
fn key_first(pairs: &Pairs) -> Option<NodeWord>
    ensures { result ≡ key_first pairs.now }
{
    if 0 < pairs.len() {
        Some(NodeWord::Settled(SettledPart::Key(Slot::First)))
    } else {
        None
    }
}

/// The value in this slot, if the list has a pair there.
#[inline(always)]
fn value_in(pairs: &Pairs, slot: Slot) -> Option<NodeWord>
    ensures { result ≡ value_in pairs.now slot }
{
    if pairs.has(slot) {
        Some(NodeWord::Settled(SettledPart::Value(slot)))
    } else {
        None
    }
}

/// The high half of the value in this slot, if that is not 0, or else the next key.
#[inline(always)]
fn high_or_key(pairs: &Pairs, slot: Slot) -> Option<NodeWord>
    ensures { result ≡ leaf_behind pairs.now (NodeWord.Settled (SettledPart.Value slot)) }
{
    if 0 < high_half(pairs.at(slot).value) {
        Some(NodeWord::Settled(SettledPart::High(slot)))
    } else {
        key_behind(pairs, slot)
    }
}

/// The key after the pair of this slot, if there is one.
#[inline(always)]
fn key_behind(pairs: &Pairs, slot: Slot) -> Option<NodeWord>
    ensures { result ≡ key_behind pairs.now slot }
{
    match slot_behind(pairs.more(), slot) {
        Some(next) => Some(NodeWord::Settled(SettledPart::Key(next))),
        None => None,
    }
}
