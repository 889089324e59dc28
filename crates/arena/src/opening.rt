//! The words as they are at the start.
ghost use Rattle.std.specs.Prelude.{◌≡◌};
ghost use Rattle.arena.specs.Layout.{opening, tree_opening};
ghost use Rattle.arena.specs.declared.word.NodeWord.{NodeWord};
ghost use Rattle.arena.specs.declared.word.SettledPart.{SettledPart};
ghost use Rattle.arena.specs.declared.word.Word.{Word};

use crate::head::Head;
use crate::limits::Mode;
use crate::number::{NodeNo, ScxNo};
use crate::word::{ABORTED, NodeWord, ScxWord, SettledPart, Side, Word};

/// What a word holds at the start: the dummy is aborted, a map is a root of class 2 over a leaf
/// of class 1 and a leaf of class 2, and all else is 0.
pub fn opening_word(mode: Mode, word: Word) -> u64
    ensures { result ≡ opening mode word }
{
    match (mode.is_map(), word) {
        (_, Word::Scx(ScxNo(0), ScxWord::State)) => ABORTED,
        (true, Word::Node(NodeNo(0), NodeWord::Child(Side::Left))) => 1,
        (true, Word::Node(NodeNo(0), NodeWord::Child(Side::Right))) => 2,
        (true, Word::Node(node, NodeWord::Settled(SettledPart::Head))) => opening_head(node),
        _ => 0,
    }
}

/// The head of a node of the opening tree.
fn opening_head(node: NodeNo) -> u64
    ensures { result ≡ tree_opening (Word.Node node (NodeWord.Settled SettledPart.Head)) }
{
    match node {
        NodeNo(0) => Head {
            level: 0,
            leaf: false,
            class: 2,
        }
        .word(),
        NodeNo(1) => Head {
            level: 1,
            leaf: true,
            class: 1,
        }
        .word(),
        NodeNo(2) => Head {
            level: 1,
            leaf: true,
            class: 2,
        }
        .word(),
        _ => 0,
    }
}
