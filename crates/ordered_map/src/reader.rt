//! Reads the map that words spell.
ghost use Rattle.std.specs.Prelude.{◌≡◌, ℕ, ◌*◌, ◌^◌, ◌<◌, ◌++◌, IfOk, IfSome, IfNone, IsTrue, List, [], ◌∷◌, All};
ghost use Rattle.arena.specs.Layout.{all_nodes};
ghost use Rattle.arena.specs.PlainWords.{word_at};
ghost use Rattle.ordered_map.specs.TreeWords.{class};
ghost use Rattle.ordered_map.specs.Spelled.{Spells};
ghost use Rattle.ordered_map.specs.Parts.{ShowLeaves, HasEnds, HoldPairs, AreInside};

use crate::held::push_held;
use crate::pair::Pair;
use crate::part::{Part, Seen, look};
use arena::{NoMemory, NodeNo, NodeWord, PlainWords, SettledPart, Slot, Word};
use std::alloc::Global;

/// The map that the words spell: the pairs of the tree that they show from node 0, by rising key.
/// None where they spell no map: where what they show is no tree, with nodes of the table and
/// rising levels, is not in order, or does not end with a leaf of class 1, the only one, and node
/// 2, of class 2. The only error is want of memory.
pub fn spelled(alloc: Global, words: &PlainWords) -> Result<Option<Vec<Pair>>, NoMemory>
    ensures spells { IfOk result (λ o. IfSome o (λ m. Spells words.now.layout (word_at words.now) m.items)) }
    ensures none { IfOk result (λ o. IfNone o ((m : List Pair) → ¬ Spells words.now.layout (word_at words.now) m)) }
{
    match leaves(alloc, words)? {
        Some(leaves) => spelled_by(alloc, words, leaves),
        None => Ok(None),
    }
}

/// The leaves of the tree that the words show from node 0.
fn leaves(alloc: Global, words: &PlainWords) -> Result<Option<Vec<u64>>, NoMemory>
    ensures shown { IfOk result (λ o. IfSome o (λ ns. ShowLeaves words.now ns.items)) }
    ensures none { IfOk result (λ o. IfNone o ((ns : List ℕ) → ¬ ShowLeaves words.now ns)) }
{
    let mut leaves = Vec::new(alloc);
    let mut parts = vec![in alloc; whole()]?;
    while let Some(part) = parts.pop() {
        match look(words, part) {
            Seen::Leaf => leaves.push(part.node)?,
            Seen::Fork { left, right } => parts.extend_from_slice(&[right, left])?,
            Seen::Nothing => return Ok(None),
        }
    }
    Ok(Some(leaves))
}

/// All of the tree.
fn whole() -> Part
    ensures { result ≡ record { node = 0; level = 0; low = 0; high = 3 * 2 ^ 64 } }
{
    Part {
        node: 0,
        level: 0,
        low: 0,
        high: 55340232221128654848,
    }
}

/// The class of a node of the table.
fn class_of(words: &PlainWords, node: u64) -> u64
    requires { node < all_nodes words.now.layout }
    ensures { result ≡ class (word_at words.now) node }
{
    words.get(Word::Node(NodeNo(node), NodeWord::Settled(SettledPart::Head))) % 4
}

/// The map that is spelled where the words show a tree with these leaves.
fn spelled_by(
    alloc: Global,
    words: &PlainWords,
    leaves: Vec<u64>,
) -> Result<Option<Vec<Pair>>, NoMemory>
    requires { ShowLeaves words.now leaves.items }
    ensures spells { IfOk result (λ o. IfSome o (λ m. Spells words.now.layout (word_at words.now) m.items)) }
    ensures none { IfOk result (λ o. IfNone o ((m : List Pair) → ¬ Spells words.now.layout (word_at words.now) m)) }
{
    let mut leaves = leaves;
    if take_ends(words, &mut leaves) {
        pairs(alloc, words, leaves.as_slice())
    } else {
        Ok(None)
    }
}

/// Takes the last two leaves off, and says if they are a leaf of class 1 and node 2, of class 2.
fn take_ends(words: &PlainWords, leaves: &mut Vec<u64>) -> bool
    requires { AreInside words.now leaves.old.items }
    ensures ends { IsTrue result → HasEnds words.now leaves.old.items leaves.new.items }
    ensures others { ¬ IsTrue result → (ns : List ℕ) → ¬ HasEnds words.now leaves.old.items ns }
{
    match (leaves.pop(), leaves.pop()) {
        (Some(last), Some(one)) => {
            last == 2 && class_of(words, last) == 2 && class_of(words, one) == 1
        }
        _ => false,
    }
}

/// The pairs of leaves that are all of class 0.
fn pairs(alloc: Global, words: &PlainWords, leaves: &[u64]) -> Result<Option<Vec<Pair>>, NoMemory>
    requires { AreInside words.now leaves.now }
    ensures low { IfOk result (λ o. IfSome o (λ m. HoldPairs words.now leaves.now m.items)) }
    ensures none { IfOk result (λ o. IfNone o ((m : List Pair) → ¬ HoldPairs words.now leaves.now m)) }
{
    let mut pairs = Vec::new(alloc);
    for leaf in leaves {
        if class_of(words, *leaf) != 0 {
            return Ok(None);
        }
        push_held(words, NodeNo(*leaf), Slot::First, &mut pairs)?;
    }
    Ok(Some(pairs))
}
