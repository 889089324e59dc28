//! Calls by passes that take turns.
use super::call::Call::{
    Delete, DeleteIf, Get, Insert, InsertNew, PopFirst, PopLast, Predecessor, Range, ReplaceIf,
    Successor,
};
use super::call::meet;
use super::rows::Says::{Pair, Pairs, Value};
use super::rows::{Row, make_all};
use super::{end_two, opened};
use crate::same::has;
use dict::{Name8, WordKey, WordValue};
use std::alloc::Global;
use std::fmt::Debug;
use std::process::Abort;
use std::test::Fail;

/// The names of the test: two keys, and the bounds of a range of all names of small letters.
fn names() -> Option<[Name8; 4]> {
    Some([
        Name8::new("ab")?,
        Name8::new("b")?,
        Name8::new("")?,
        Name8::new("zzzzzzzz")?,
    ])
}

#[test]
fn two_passes_have_one_map(rt: HostRuntime) -> Result<(), Fail> {
    let alloc = rt.alloc();
    let (forest, mut first, mut second) = opened::<Name8, u32>(alloc)?;
    let [ab, b, low, high] = names().ok_or("no names")?;
    let begins: [Row<Name8, u32>; 1] = [(Insert(b, 2), Value(None), (17, 19))];
    make_all(&rt, alloc, &forest, &mut first, &begins);
    let goes_on: [Row<Name8, u32>; 2] = [
        (Insert(ab, 1), Value(None), (19, 19)),
        (Get(b), Value(Some(2)), (19, 19)),
    ];
    make_all(&rt, alloc, &forest, &mut second, &goes_on);
    meet(&forest, &mut first, &mut second);
    let looks: [Row<Name8, u32>; 1] = [(Successor(ab), Pair(Some((b, 2))), (19, 19))];
    make_all(&rt, alloc, &forest, &mut second, &looks);
    let ends: [Row<Name8, u32>; 4] = [
        (Range(low, high, 64), Pairs(&[(ab, 1), (b, 2)]), (17, 19)),
        (Delete(b), Value(Some(2)), (16, 18)),
        (Get(b), Value(None), (16, 18)),
        (Get(ab), Value(Some(1)), (16, 18)),
    ];
    make_all(&rt, alloc, &forest, &mut first, &ends);
    let left = end_two(alloc, forest, first, second)?;
    assert!(rt; has(&left, &[(ab, 1)]));
    Ok(())
}

/// A pass makes the calls of these rows, and these pairs are left.
fn alone<K: WordKey + Debug, V: WordValue + PartialEq + Debug>(
    rt: &impl Abort,
    alloc: Global,
    rows: &[Row<'_, K, V>],
    pairs: &[(K, V)],
) -> Result<(), Fail> {
    let (forest, mut first, second) = opened::<K, V>(alloc)?;
    make_all(rt, alloc, &forest, &mut first, rows);
    let left = end_two(alloc, forest, first, second)?;
    assert!(rt; has(&left, pairs));
    Ok(())
}

/// A leaf has room for four pairs: three nodes for the first key, one for each of three more, and
/// three for the fifth, which makes two leaves and a fork of one. A key that goes takes a node: its
/// leaf without it, or a copy of the leaf beside it. What finds nothing to do takes nothing.
const FIVE_KEYS: [Row<'static, u64, u64>; 20] = [
    (Insert(4, 40), Value(None), (17, 19)),
    (Insert(2, 20), Value(None), (16, 18)),
    (Insert(5, 50), Value(None), (15, 17)),
    (Insert(1, 10), Value(None), (14, 16)),
    (Insert(3, 30), Value(None), (11, 15)),
    (
        Range(0, 9, 64),
        Pairs(&[(1, 10), (2, 20), (3, 30), (4, 40), (5, 50)]),
        (11, 15),
    ),
    (InsertNew(3, 31), Value(Some(30)), (11, 15)),
    (InsertNew(6, 60), Value(None), (10, 14)),
    (DeleteIf(4, 41), Value(Some(40)), (10, 14)),
    (DeleteIf(4, 40), Value(Some(40)), (9, 13)),
    (DeleteIf(4, 40), Value(None), (9, 13)),
    (PopLast, Pair(Some((6, 60))), (8, 12)),
    (PopLast, Pair(Some((5, 50))), (7, 11)),
    (PopFirst, Pair(Some((1, 10))), (6, 10)),
    (PopLast, Pair(Some((3, 30))), (5, 9)),
    (PopLast, Pair(Some((2, 20))), (4, 8)),
    (PopLast, Pair(None), (4, 8)),
    (PopFirst, Pair(None), (4, 8)),
    (DeleteIf(2, 20), Value(None), (4, 8)),
    (InsertNew(7, 70), Value(None), (1, 7)),
];

#[test]
fn five_keys_come_and_go(rt: HostRuntime) -> Result<(), Fail> {
    alone(&rt, rt.alloc(), &FIVE_KEYS, &[(7, 70)])
}

/// Next to each other, and different in both words.
const BELOW: u128 = ABOVE - 1;

const ABOVE: u128 = 1 << 64;

/// They differ in the high word alone, which is 0, 1 and 2.
const NONE: u128 = 5;

const ONE: u128 = NONE + ABOVE;

const TWO: u128 = ONE + ABOVE;

/// It differs from `ONE` in the low word alone.
const NEXT: u128 = ONE + 1;

/// What is expected differs from what is there by each of the two words.
const TWO_WORDS: [Row<'static, u64, u128>; 37] = [
    (Insert(1, ABOVE), Value(None), (17, 19)),
    (Insert(2, u128::MAX), Value(None), (16, 18)),
    (Get(1), Value(Some(ABOVE)), (16, 18)),
    (ReplaceIf(1, 0, NONE), Value(Some(ABOVE)), (16, 18)),
    (ReplaceIf(1, ABOVE, BELOW), Value(Some(ABOVE)), (15, 17)),
    (Get(1), Value(Some(BELOW)), (15, 17)),
    (Insert(3, NONE), Value(None), (14, 16)),
    (Insert(3, ONE), Value(Some(NONE)), (13, 15)),
    (Get(3), Value(Some(ONE)), (13, 15)),
    (ReplaceIf(3, NONE, 6), Value(Some(ONE)), (13, 15)),
    (ReplaceIf(3, TWO, 6), Value(Some(ONE)), (13, 15)),
    (ReplaceIf(3, NEXT, 6), Value(Some(ONE)), (13, 15)),
    (Get(3), Value(Some(ONE)), (13, 15)),
    (ReplaceIf(3, ONE, NONE), Value(Some(ONE)), (12, 14)),
    (ReplaceIf(3, ONE, 6), Value(Some(NONE)), (12, 14)),
    (Get(3), Value(Some(NONE)), (12, 14)),
    (ReplaceIf(3, NONE, TWO), Value(Some(NONE)), (11, 13)),
    (Insert(4, NONE), Value(None), (10, 12)),
    (Successor(2), Pair(Some((3, TWO))), (10, 12)),
    (Successor(3), Pair(Some((4, NONE))), (10, 12)),
    (Predecessor(4), Pair(Some((3, TWO))), (10, 12)),
    (Predecessor(3), Pair(Some((2, u128::MAX))), (10, 12)),
    (
        Range(2, 4, 64),
        Pairs(&[(2, u128::MAX), (3, TWO), (4, NONE)]),
        (10, 12),
    ),
    (DeleteIf(3, ONE), Value(Some(TWO)), (10, 12)),
    (DeleteIf(3, NONE), Value(Some(TWO)), (10, 12)),
    (DeleteIf(3, TWO), Value(Some(TWO)), (9, 11)),
    (DeleteIf(4, ONE), Value(Some(NONE)), (9, 11)),
    (DeleteIf(4, NONE), Value(Some(NONE)), (8, 10)),
    (PopFirst, Pair(Some((1, BELOW))), (7, 9)),
    (Insert(1, ONE), Value(None), (6, 8)),
    (InsertNew(1, NEXT), Value(Some(ONE)), (6, 8)),
    (DeleteIf(1, NEXT), Value(Some(ONE)), (6, 8)),
    (PopFirst, Pair(Some((1, ONE))), (5, 7)),
    (InsertNew(3, TWO), Value(None), (4, 6)),
    (PopLast, Pair(Some((3, TWO))), (3, 5)),
    (InsertNew(3, ONE), Value(None), (2, 4)),
    (Insert(4, NONE), Value(None), (1, 3)),
];

#[test]
fn values_have_two_words(rt: HostRuntime) -> Result<(), Fail> {
    let pairs = [(2, u128::MAX), (3, ONE), (4, NONE)];
    alone(&rt, rt.alloc(), &TWO_WORDS, &pairs)
}
