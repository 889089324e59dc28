//! The pairs that a leaf holds.
ghost use Rattle.std.specs.Prelude.{◌≡◌, ◌<◌, ◌++◌, ◌↔◌, IfOk, IsTrue};
ghost use Rattle.arena.specs.Layout.{all_nodes};
ghost use Rattle.arena.specs.PlainWords.{word_at};
ghost use Rattle.ordered_map.specs.Holding.{slot_behind, end_slot, pair_in, held_from};
ghost use Rattle.ordered_map.specs.Parts.{AreInOrder, HoldsInOrder};

use crate::pair::Pair;
use crate::wide::wide_value;
use arena::{NoMemory, NodeNo, NodeWord, PlainWords, SettledPart, Side, Slot, Word};

/// The next slot in a leaf with `more` pairs after its first, if there is one.
pub fn slot_behind(more: u64, slot: Slot) -> Option<Slot>
    ensures { result ≡ slot_behind more slot }
{
    match slot {
        Slot::First if more > 0 => Some(Slot::Second),
        Slot::Second if more > 1 => Some(Slot::Third),
        Slot::Third if more > 2 => Some(Slot::Fourth),
        _ => None,
    }
}

/// The slot at this end of a leaf with `more` pairs after its first.
#[inline(always)]
pub fn end_slot(side: Side, more: u64) -> Slot
    ensures { result ≡ end_slot side more }
{
    match (side, more) {
        (Side::Left, _) | (_, 0) => Slot::First,
        (_, 1) => Slot::Second,
        (_, 2) => Slot::Third,
        _ => Slot::Fourth,
    }
}

/// A settled word of a node.
fn settled(words: &PlainWords, node: NodeNo, part: SettledPart) -> u64
    requires { node.0 < all_nodes words.now.layout }
    ensures { result ≡ word_at words.now (Word.Node node (NodeWord.Settled part)) }
{
    words.get(Word::Node(node, NodeWord::Settled(part)))
}

/// The pair of a leaf in this slot.
fn pair_in(words: &PlainWords, leaf: NodeNo, slot: Slot) -> Pair
    requires { leaf.0 < all_nodes words.now.layout }
    ensures { result ≡ pair_in (word_at words.now) leaf.0 slot }
{
    Pair {
        key: settled(words, leaf, SettledPart::Key(slot)),
        value: wide_value(
            settled(words, leaf, SettledPart::Value(slot)),
            settled(words, leaf, SettledPart::High(slot)),
        ),
    }
}

/// The next slot in a leaf, if there is one.
fn behind(words: &PlainWords, leaf: NodeNo, slot: Slot) -> Option<Slot>
    requires { leaf.0 < all_nodes words.now.layout }
    ensures { result ≡ slot_behind (word_at words.now (Word.Node leaf (NodeWord.Settled SettledPart.More))) slot }
{
    slot_behind(settled(words, leaf, SettledPart::More), slot)
}

/// Adds the pairs that a leaf holds from this slot on.
pub(crate) fn push_held(
    words: &PlainWords,
    leaf: NodeNo,
    slot: Slot,
    pairs: &mut Vec<Pair>,
) -> Result<(), NoMemory>
    requires { leaf.0 < all_nodes words.now.layout }
    ensures { IfOk result (λ _. pairs.new.items ≡ pairs.old.items ++ held_from (word_at words.now) leaf.0 slot) }
{
    pairs.push(pair_in(words, leaf, slot))?;
    match behind(words, leaf, slot) {
        Some(next) => push_held(words, leaf, next, pairs),
        None => Ok(()),
    }
}

/// Whether the keys of a leaf of class 0 rise from this slot on, and are below `high`.
fn are_in_order(words: &PlainWords, leaf: NodeNo, slot: Slot, high: u128) -> bool
    requires { leaf.0 < all_nodes words.now.layout }
    ensures { IsTrue result ↔ AreInOrder high (held_from (word_at words.now) leaf.0 slot) }
{
    let key = settled(words, leaf, SettledPart::Key(slot));
    if u128::from(key) >= high {
        return false;
    }
    match behind(words, leaf, slot) {
        Some(next) => {
            key < settled(words, leaf, SettledPart::Key(next))
                && are_in_order(words, leaf, next, high)
        }
        None => true,
    }
}

/// Whether a leaf of class 0 holds as many pairs as it may hold, by rising key, all below `high`.
pub(crate) fn holds_in_order(words: &PlainWords, leaf: NodeNo, high: u128) -> bool
    requires { leaf.0 < all_nodes words.now.layout }
    ensures { IsTrue result ↔ HoldsInOrder words.now leaf.0 high }
{
    settled(words, leaf, SettledPart::More) < 4 && are_in_order(words, leaf, Slot::First, high)
}
