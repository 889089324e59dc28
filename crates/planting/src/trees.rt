//! The nodes of a tree over a list of pairs.
ghost use Rattle.std.specs.Prelude.{◌≡◌, ◌+◌, ◌*◌, ◌^◌, ◌<◌, ◌≤◌, ◌++◌, [], ◌∷◌, List, drop, length, take, IfOk, true, false, if◌then◌else◌};
ghost use Rattle.ordered_map.specs.declared.pair.Pair.{Pair as PairOf};
ghost use Rattle.ordered_map.specs.OrderedMap.{AllBelow, IsRising};
ghost use Rattle.planting.specs.declared.seedling.Seedling.TheVariants.{Leaf};
ghost use Rattle.planting.specs.Groves.{HasGrown};
ghost use Rattle.planting.specs.Seedlings.{pieces_of};

use crate::parting::part;
use crate::seedling::Seedling;
use arena::NoMemory;
use ordered_map::Pair;

/// Adds the nodes of a tree of these pairs to a row that begins at node 3, each after what stands
/// below it, and answers the number of its top. They are those from the place `first` on of all
/// pairs. In a tree the top is on this level.
pub(crate) fn grow(
    row: &mut Vec<Seedling>,
    pairs: &[Pair],
    first: u32,
    trie: bool,
    level: u64,
) -> Result<u32, NoMemory>
    requires some { 0 < length pairs.now }
    requires rising { IsRising pairs.now }
    requires keys { AllBelow (2 ^ 64) pairs.now }
    requires level { level + 66 * length pairs.now < 2 ^ 60 }
    requires places { first + length pairs.now ≤ 33554432 }
    requires room { length row.old.items + 2 * length pairs.now ≤ 67108864 }
    ensures few { IfOk result (λ _. length row.new.items < length row.old.items + 2 * length pairs.now) }
    ensures grown { (all : List PairOf) → take (length pairs.now) (drop first all) ≡ pairs.now →
        IfOk result (λ top. HasGrown trie pairs.now level
        (pieces_of all row.old.items) (pieces_of all row.new.items) top) }
{
    if pairs.len() <= 4 {
        return push(row, leaf(first, pairs.len() as u32, trie, level));
    }
    let parting = part(pairs, trie, level);
    let (low, high) = pairs.split_at(parting.middle);
    let middle = first + parting.middle as u32;
    let left = grow(row, low, first, trie, parting.level + 1)?;
    let right = grow(row, high, middle, trie, parting.level + 1)?;
    push(
        row,
        Seedling::Fork {
            level: parting.level,
            class: 0,
            key: parting.key,
            left,
            right,
        },
    )
}

/// A leaf with so many pairs: in a trie all are on one level.
fn leaf(first: u32, count: u32, trie: bool, level: u64) -> Seedling
    ensures { result ≡ Leaf (if trie then 66 else level) first count }
{
    Seedling::Leaf {
        level: if trie { 66 } else { level },
        first,
        count,
    }
}

/// Adds a node to a row that begins at node 3, and answers its number.
fn push(row: &mut Vec<Seedling>, node: Seedling) -> Result<u32, NoMemory>
    requires { length row.old.items < 67108864 }
    ensures { IfOk result (λ top. (top ≡ 3 + length row.old.items) × (row.new.items ≡ row.old.items ++ node ∷ [])) }
{
    let top = 3 + row.len() as u32;
    row.push(node)?;
    Ok(top)
}
