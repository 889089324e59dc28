//! Trees of words that spell a map, and changed ones that spell none.
use self::Node::{Fork, Leaf};
use crate::same::same;
use arena::NodeWord::{Child, Settled};
use arena::SettledPart::{Head, High, Key, More, Value};
use arena::Side::{Left, Right};
use arena::Slot::{First, Fourth, Second, Third};
use arena::{Access, Kind, Limits, Mode, NodeNo, PlainWords, SettledPart, Step, Word};
use ordered_map::{Pair, laws_hold, map_laws_hold, spelled};
use std::alloc::Global;
use std::process::Abort;
use std::test::Fail;

/// A node of a tree, written by hand: its number, level, class and key, and then the value of a
/// leaf or the nodes below a fork.
#[derive(Clone, Copy)]
enum Node {
    Leaf(u64, u32, u32, u64, u64),
    Fork(u64, u32, u32, u64, (u64, u64)),
}

fn write(table: &mut PlainWords, node: &Node) {
    let (number, head, key, value, below) = match *node {
        Leaf(number, level, class, key, value) => {
            let head = level as u64 * 8 + 4 + class as u64;
            (number, head, key, value, (0, 0))
        }
        Fork(number, level, class, key, below) => {
            (number, level as u64 * 8 + class as u64, key, 0, below)
        }
    };
    let words = [
        (Settled(Head), head),
        (Settled(Key(First)), key),
        (Settled(Value(First)), value),
        (Child(Left), below.0),
        (Child(Right), below.1),
    ];
    for (part, value) in words {
        fill(table, Word::Node(NodeNo(number), part), value);
    }
}

fn write_all(table: &mut PlainWords, nodes: &[Node]) {
    for node in nodes {
        write(table, node);
    }
}

/// Fills a word, if the table has it.
fn fill(table: &mut PlainWords, word: Word, value: u64) {
    if table.layout().has(word) {
        table.apply(Step {
            kind: Kind::Fill,
            word,
            access: Access::Store(value),
        });
    }
}

/// The opening words of a table.
fn opening(alloc: Global, passes: u32, nodes: u32) -> Result<PlainWords, Fail> {
    let limits = Limits {
        passes,
        nodes,
        scx: 1,
        tries: 1,
    };
    Ok(PlainWords::new(alloc, &limits.check(Mode::Tree)?)?)
}

/// The words of a table of 15 nodes where these nodes are written over the opening ones, one after
/// another.
fn written(alloc: Global, nodes: &[Node], changed: &[Node]) -> Result<PlainWords, Fail> {
    let mut table = opening(alloc, 2, 6)?;
    write_all(&mut table, nodes);
    write_all(&mut table, changed);
    Ok(table)
}

/// How many pairs the words spell, if they spell a map.
fn count_pairs(alloc: Global, table: &PlainWords) -> Result<Option<usize>, Fail> {
    match spelled(alloc, table)? {
        Some(pairs) => Ok(Some(pairs.len())),
        None => Ok(None),
    }
}

/// The words spell just these pairs.
fn spells(
    rt: &impl Abort,
    alloc: Global,
    table: &PlainWords,
    pairs: &[(u64, u128)],
) -> Result<(), Fail> {
    let mut found = Vec::new(alloc);
    for pair in spelled(alloc, table)?.ok_or("no map")? {
        found.push((pair.key, pair.value))?;
    }
    same(rt, found.as_slice(), pairs);
    Ok(())
}

/// The root over a tree of the node 3.
const ROOT: Node = Fork(0, 0, 2, 0, (3, 2));

/// One pair, as the first insert leaves it: 7 at 70.
const ONE_PAIR: [Node; 4] = [
    ROOT,
    Fork(3, 1, 1, 0, (4, 5)),
    Leaf(4, 2, 0, 7, 70),
    Leaf(5, 2, 1, 0, 0),
];

/// Four pairs under forks on both sides: 1 to 4, at ten times as much.
const FOUR_PAIRS: [Node; 10] = [
    ROOT,
    Fork(3, 1, 0, 3, (4, 7)),
    Fork(4, 2, 0, 2, (5, 6)),
    Leaf(5, 3, 0, 1, 10),
    Leaf(6, 3, 0, 2, 20),
    Fork(7, 2, 1, 0, (8, 11)),
    Fork(8, 3, 0, 4, (9, 10)),
    Leaf(9, 4, 0, 3, 30),
    Leaf(10, 4, 0, 4, 40),
    Leaf(11, 3, 1, 0, 0),
];

/// Three pairs under three forks that lean to the left: 1 to 3, at ten times as much.
const TO_THE_LEFT: [Node; 8] = [
    ROOT,
    Fork(3, 1, 1, 0, (4, 5)),
    Fork(4, 2, 0, 3, (6, 7)),
    Fork(6, 3, 0, 2, (8, 9)),
    Leaf(8, 4, 0, 1, 10),
    Leaf(9, 4, 0, 2, 20),
    Leaf(7, 3, 0, 3, 30),
    Leaf(5, 2, 1, 0, 0),
];

const TO_THE_RIGHT: [Node; 8] = [
    ROOT,
    Fork(3, 1, 0, 2, (4, 5)),
    Fork(5, 2, 0, 3, (6, 7)),
    Fork(7, 3, 1, 0, (8, 9)),
    Leaf(4, 2, 0, 1, 10),
    Leaf(6, 3, 0, 2, 20),
    Leaf(8, 4, 0, 3, 30),
    Leaf(9, 4, 1, 0, 0),
];

/// Keys and levels that are far apart. The first fork has a key that the map has not, as after a
/// delete.
const FAR_APART: [Node; 6] = [
    ROOT,
    Fork(3, 5, 0, 9, (4, 5)),
    Leaf(4, 9, 0, 0, u64::MAX),
    Fork(5, 6, 1, 0, (6, 14)),
    Leaf(6, 4000, 0, u64::MAX, 0),
    Leaf(14, 7, 1, 0, 0),
];

/// Trees, and the pairs that they spell.
const SPELLED: [(&[Node], &[(u64, u128)]); 6] = [
    (&[], &[]),
    (&ONE_PAIR, &[(7, 70)]),
    (&FOUR_PAIRS, &[(1, 10), (2, 20), (3, 30), (4, 40)]),
    (&TO_THE_LEFT, &[(1, 10), (2, 20), (3, 30)]),
    (&TO_THE_RIGHT, &[(1, 10), (2, 20), (3, 30)]),
    (&FAR_APART, &[(0, u64::MAX as u128), (u64::MAX, 0)]),
];

#[test]
fn trees_spell_their_pairs(rt: HostRuntime) -> Result<(), Fail> {
    for (nodes, pairs) in SPELLED {
        let table = written(rt.alloc(), nodes, &[])?;
        spells(&rt, rt.alloc(), &table, pairs)?;
    }
    Ok(())
}

/// Nodes of `FOUR_PAIRS` with keys out of order.
const OUT_OF_ORDER: [Node; 8] = [
    // at the fork's key on its left, below it on its right
    Leaf(5, 3, 0, 2, 10),
    Leaf(6, 3, 0, 1, 20),
    // beyond the fork above that
    Leaf(6, 3, 0, 3, 20),
    Leaf(9, 4, 0, 2, 30),
    // a fork beyond the one above it
    Fork(4, 2, 0, 3, (5, 6)),
    Fork(8, 3, 0, 3, (9, 10)),
    // a leaf of another class than its place has
    Leaf(10, 4, 1, 4, 40),
    Leaf(11, 3, 0, 9, 0),
];

/// Others of it, with levels that do not rise.
const NOT_RISING: [Node; 8] = [
    Leaf(5, 2, 0, 1, 10),
    Leaf(6, 1, 0, 2, 20),
    Leaf(11, 0, 1, 0, 0),
    Fork(4, 1, 0, 2, (5, 6)),
    Fork(8, 2, 0, 4, (9, 10)),
    Fork(3, 2, 0, 3, (4, 7)),
    Fork(0, 1, 2, 0, (3, 2)),
    Leaf(2, 0, 2, 0, 0),
];

/// Nodes of `ONE_PAIR` that make cycles, or share a node.
const SHARED: [Node; 10] = [
    Fork(0, 0, 2, 0, (0, 2)),
    Fork(3, 1, 1, 0, (3, 5)),
    Fork(3, 1, 1, 0, (4, 3)),
    Fork(3, 1, 1, 0, (0, 5)),
    Fork(4, 2, 0, 5, (3, 3)),
    Fork(4, 2, 0, 5, (4, 5)),
    // one leaf on both sides
    Fork(3, 1, 1, 0, (4, 4)),
    Fork(3, 1, 1, 0, (5, 5)),
    Fork(3, 1, 1, 0, (4, 2)),
    Fork(0, 0, 2, 0, (2, 2)),
];

/// Others of it, with children outside of the tree.
const OUTSIDE: [Node; 5] = [
    Fork(3, 1, 1, 0, (15, 5)),
    Fork(3, 1, 1, 0, (4, 15)),
    Fork(3, 1, 1, 0, (u64::MAX, 5)),
    Fork(0, 0, 2, 0, (1 << 32, 2)),
    // a node of the table that nothing was written to
    Fork(3, 1, 1, 0, (6, 5)),
];

/// Trees, and nodes each of which, changed by itself, has them spell nothing.
const CHANGED: [(&[Node], &[Node]); 4] = [
    (&FOUR_PAIRS, &OUT_OF_ORDER),
    (&FOUR_PAIRS, &NOT_RISING),
    (&ONE_PAIR, &SHARED),
    (&ONE_PAIR, &OUTSIDE),
];

#[test]
fn changed_trees_spell_nothing(rt: HostRuntime) -> Result<(), Fail> {
    for (nodes, changed) in CHANGED {
        for (place, node) in changed.iter().enumerate() {
            let table = written(rt.alloc(), nodes, &[*node])?;
            same(
                &rt,
                (place, count_pairs(rt.alloc(), &table)?),
                (place, None),
            );
        }
    }
    Ok(())
}

/// Trees of other classes, or with another last leaf.
const OTHER_CLASSES: [&[Node]; 10] = [
    // two leaves of class 1, in order, and none
    &[
        ROOT,
        Fork(3, 1, 1, 5, (4, 5)),
        Leaf(4, 2, 1, 0, 0),
        Leaf(5, 2, 1, 5, 0),
    ],
    &[ROOT, Leaf(3, 1, 0, 7, 70)],
    // all of class 2
    &[
        Fork(0, 0, 2, 1, (3, 2)),
        Leaf(3, 1, 2, 0, 0),
        Leaf(2, 1, 2, 1, 0),
    ],
    // node 2 of class 1, in order, and of class 3
    &[Fork(0, 0, 1, 5, (1, 2)), Leaf(2, 1, 1, 9, 0)],
    &[Leaf(2, 1, 3, 0, 0)],
    // the last leaf is not node 2
    &[Fork(0, 0, 2, 0, (1, 3)), Leaf(3, 1, 2, 0, 0)],
    // there is one leaf: node 0, of each class
    &[Leaf(0, 0, 0, 0, 0)],
    &[Leaf(0, 0, 1, 0, 0)],
    &[Leaf(0, 0, 2, 0, 0)],
    &[Leaf(0, 0, 3, 0, 0)],
];

#[test]
fn other_classes_spell_nothing(rt: HostRuntime) -> Result<(), Fail> {
    for (place, nodes) in OTHER_CLASSES.iter().enumerate() {
        let table = written(rt.alloc(), nodes, &[])?;
        let count = count_pairs(rt.alloc(), &table)?;
        same(&rt, (place, count), (place, None));
    }
    Ok(())
}

/// Fills settled words of leaf 4.
fn fill_leaf(table: &mut PlainWords, words: &[(SettledPart, u64)]) {
    for (part, value) in words {
        fill(table, Word::Node(NodeNo(4), Settled(*part)), *value);
    }
}

/// What a leaf of the key 7 at 70 has besides, if it has four pairs.
const FULL: [(SettledPart, u64); 9] = [
    (More, 3),
    (High(First), 1),
    (Key(Second), 8),
    (Value(Second), 80),
    (Key(Third), 9),
    (High(Third), 2),
    (Key(Fourth), u64::MAX),
    (Value(Fourth), u64::MAX),
    (High(Fourth), u64::MAX),
];

/// These four pairs, whose values have any halves.
const FULL_PAIRS: [(u64, u128); 4] = [
    (7, 0x1_0000_0000_0000_0046),
    (8, 80),
    (9, 0x2_0000_0000_0000_0000),
    (u64::MAX, u128::MAX),
];

/// The tree of one leaf with these, and with one word changed.
fn full_leaf(alloc: Global, changed: (SettledPart, u64)) -> Result<PlainWords, Fail> {
    let mut table = written(alloc, &ONE_PAIR, &[])?;
    fill_leaf(&mut table, &FULL);
    fill_leaf(&mut table, &[changed]);
    Ok(table)
}

const BROKEN_LEAF: [(SettledPart, u64); 9] = [
    // more pairs than a leaf has room for
    (More, 4),
    (More, 5),
    (More, u64::MAX),
    // keys out of order
    (Key(Second), 7),
    (Key(Second), 9),
    (Key(Third), 8),
    (Key(Third), u64::MAX),
    (Key(Fourth), 9),
    (Key(Fourth), 0),
];

#[test]
fn a_leaf_spells_as_many_pairs_as_it_says(rt: HostRuntime) -> Result<(), Fail> {
    for more in 0..FULL_PAIRS.len() {
        let table = full_leaf(rt.alloc(), (More, more as u64))?;
        spells(&rt, rt.alloc(), &table, &FULL_PAIRS[..=more])?;
    }
    for (place, changed) in BROKEN_LEAF.iter().enumerate() {
        let table = full_leaf(rt.alloc(), *changed)?;
        let count = count_pairs(rt.alloc(), &table)?;
        same(&rt, (place, count), (place, None));
    }
    Ok(())
}

/// Leaf 9 is left of a fork that has the key 6.
const BELOW_SIX: [Node; 2] = [Fork(8, 3, 0, 6, (9, 10)), Leaf(10, 4, 0, 6, 60)];

/// A second pair of leaf 9 may be there if its key is below that of the fork on its right, and not
/// at it.
#[test]
fn a_pair_of_a_leaf_beyond_its_fork_spells_nothing(rt: HostRuntime) -> Result<(), Fail> {
    let mut table = written(rt.alloc(), &FOUR_PAIRS, &BELOW_SIX)?;
    fill(&mut table, Word::Node(NodeNo(9), Settled(More)), 1);
    for (key, count) in [(4, Some(5)), (5, Some(5)), (6, None), (7, None)] {
        fill(&mut table, Word::Node(NodeNo(9), Settled(Key(Second))), key);
        same(&rt, (key, count_pairs(rt.alloc(), &table)?), (key, count));
    }
    Ok(())
}

/// How many forks are one below the other in the deepest tree of the largest table.
const DEPTH: u32 = 524286;

/// Each fork is the left child of the one before.
fn write_deep(table: &mut PlainWords) {
    write_all(
        table,
        &[ROOT, Fork(3, 1, 1, 0, (5, 4)), Leaf(4, 2, 1, 0, 0)],
    );
    for number in 1..DEPTH {
        let node = 3 + 2 * number as u64;
        let key = (DEPTH - number) as u64;
        write(table, &Fork(node, number + 1, 0, key, (node + 2, node + 1)));
        write(table, &Leaf(node + 1, number + 2, 0, key, 1));
    }
    write(table, &Leaf(3 + 2 * DEPTH as u64, DEPTH + 1, 0, 0, 1));
}

#[test]
fn the_deepest_tree_is_read(rt: HostRuntime) -> Result<(), Fail> {
    let mut table = opening(rt.alloc(), 32, 32768)?;
    write_deep(&mut table);
    let count = count_pairs(rt.alloc(), &table)?;
    same(&rt, count, Some(DEPTH as usize));
    // what a caller learns by these takes no step
    laws_hold();
    map_laws_hold();
    Ok(())
}
