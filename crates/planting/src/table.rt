//! The nodes that are planted, as words of a table.
ghost use Rattle.std.specs.Prelude.{◌≡◌, ℕ, ◌+◌, ◌<◌, ◌≤◌, true, false, length};
ghost use Rattle.arena.specs.Layout.{all_nodes, tree_opening, IsWord};
ghost use Rattle.arena.specs.PlainWords.{word_at};
ghost use Rattle.arena.specs.declared.word.NodeWord.{NodeWord};
ghost use Rattle.arena.specs.declared.word.Word.{Word};
ghost use Rattle.edits.specs.Pieces.{is_leaf_piece, word_of};
ghost use Rattle.planting.specs.Laid.{HoldsNode, LeavesOthers, HoldsNoOther, laid_word, stored, with_pair};
ghost use Rattle.planting.specs.Plantings.{all_pieces, capped, end_piece, planted_words, root_piece};
ghost use Rattle.planting.specs.Seedlings.{pieces_of};

use crate::seedling::Seedling;
use arena::{Access, Kind, NodeNo, NodeWord, PlainWords, SettledPart, Side, Slot, Step, Word};
use edits::{Pairs, Piece};
use ordered_map::Pair;

const HEAD: NodeWord = NodeWord::Settled(SettledPart::Head);

const MORE: NodeWord = NodeWord::Settled(SettledPart::More);

const KEY: NodeWord = NodeWord::Settled(SettledPart::Key(Slot::First));

const LEFT: NodeWord = NodeWord::Child(Side::Left);

const RIGHT: NodeWord = NodeWord::Child(Side::Right);

/// Lays these nodes of these pairs into a table that is as an empty map's, from node 3 on, below a
/// root and two leaves above all keys.
pub(crate) fn plant(words: &mut PlainWords, nodes: &[Seedling], pairs: &[Pair])
    requires room { 3 + length nodes.now ≤ all_nodes words.old.layout }
    requires empty { (w : Word) → IsWord words.old.layout w → word_at words.old w ≡ tree_opening w }
    ensures layout { words.new.layout ≡ words.old.layout }
    ensures words { (w : Word) → IsWord words.old.layout w
        → word_at words.new w ≡ planted_words (all_pieces (pieces_of pairs.now nodes.now)) w }
{
    let most = 3 + nodes.len() as u64;
    lay(words, NodeNo(0), &root_piece(most - 1), most);
    lay(words, NodeNo(1), &end_piece(2, 1), most);
    lay(words, NodeNo(2), &end_piece(1, 2), most);
    for at in 0..nodes.len() {
        let piece = nodes[at].piece(pairs);
        lay(words, NodeNo(3 + at as u64), &piece, most);
    }
}

/// Lays a node with this number, whose words are 0 where the piece has none.
#[inline(always)]
fn lay(words: &mut PlainWords, node: NodeNo, piece: &Piece, most: u64)
    requires there { node.0 < all_nodes words.old.layout }
    requires blank { HoldsNoOther words.old node piece.now }
    ensures laid { HoldsNode words.new node (laid_word most piece.now) }
    ensures others { LeavesOthers words.old words.new node }
{
    match piece {
        Piece::Leaf { .. } => lay_leaf(words, node, piece),
        Piece::Fork { .. } => lay_fork(words, node, piece, most),
    }
}

/// Lays a leaf.
#[inline(always)]
fn lay_leaf(words: &mut PlainWords, node: NodeNo, piece: &Piece)
    requires leaf { is_leaf_piece piece.now ≡ true }
    requires there { node.0 < all_nodes words.old.layout }
    requires blank { HoldsNoOther words.old node piece.now }
    ensures laid { HoldsNode words.new node (word_of piece.now) }
    ensures others { LeavesOthers words.old words.new node }
{
    store(words, node, HEAD, piece.word(HEAD));
    store(words, node, MORE, piece.word(MORE));
    lay_pair(words, node, piece, Slot::First);
    lay_pair(words, node, piece, Slot::Second);
    lay_pair(words, node, piece, Slot::Third);
    lay_pair(words, node, piece, Slot::Fourth);
}

/// Lays the pair in this slot of a leaf.
fn lay_pair(words: &mut PlainWords, node: NodeNo, piece: &Piece, slot: Slot)
    requires there { node.0 < all_nodes words.old.layout }
    ensures laid { (f : NodeWord → ℕ) → HoldsNode words.old node f → HoldsNode words.new node (with_pair f piece.now slot) }
    ensures others { LeavesOthers words.old words.new node }
{
    let (key, low, high) = piece.pair_words(slot);
    let part = NodeWord::Settled(SettledPart::Key(slot));
    store(words, node, part, key);
    let part = NodeWord::Settled(SettledPart::Value(slot));
    store(words, node, part, low);
    let part = NodeWord::Settled(SettledPart::High(slot));
    store(words, node, part, high);
}

/// Lays a fork over nodes whose numbers are below `most`.
#[inline(always)]
fn lay_fork(words: &mut PlainWords, node: NodeNo, piece: &Piece, most: u64)
    requires fork { is_leaf_piece piece.now ≡ false }
    requires there { node.0 < all_nodes words.old.layout }
    requires blank { HoldsNoOther words.old node piece.now }
    ensures laid { HoldsNode words.new node (laid_word most piece.now) }
    ensures others { LeavesOthers words.old words.new node }
{
    store(words, node, HEAD, piece.word(HEAD));
    store(words, node, KEY, piece.word(KEY));
    store(words, node, LEFT, capped(most, piece.word(LEFT)));
    store(words, node, RIGHT, capped(most, piece.word(RIGHT)));
}

/// Gives a word of a node this value.
fn store(words: &mut PlainWords, node: NodeNo, part: NodeWord, value: u64)
    requires there { node.0 < all_nodes words.old.layout }
    ensures laid { (f : NodeWord → ℕ) → HoldsNode words.old node f → HoldsNode words.new node (stored f part value) }
    ensures others { LeavesOthers words.old words.new node }
{
    let (kind, word) = (Kind::Fill, Word::Node(node, part));
    let access = Access::Store(value);
    words.apply(Step { kind, word, access });
}

/// A number below `most`: another one is taken for 0.
fn capped(most: u64, number: u64) -> u64
    ensures { result ≡ capped most number }
{
    if number < most { number } else { 0 }
}

/// The root, over this node and node 2.
fn root_piece(top: u64) -> Piece
    ensures { result ≡ root_piece top }
{
    Piece::Fork {
        level: 0,
        class: 2,
        key: 0,
        left: NodeNo(top),
        right: NodeNo(2),
    }
}

/// A leaf above all keys.
fn end_piece(level: u64, class: u8) -> Piece
    ensures { result ≡ end_piece level class }
{
    Piece::Leaf {
        level,
        class,
        pairs: Pairs::one(Pair { key: 0, value: 0 }),
    }
}
