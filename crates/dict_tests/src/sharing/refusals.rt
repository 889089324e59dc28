//! Pairs that no dictionary begins with.
use super::beginnings::rising;
use super::held::Numbers;
use super::{TRIES, limits};
use crate::same::same;
use arena::Limits;
use dict::{ByBits, ByOrder};
use forest::{FilledOnce, Forest, PairsFault};
use std::alloc::Global;
use std::process::Abort;
use std::test::Fail;

/// Why no dictionary of this shape begins with these pairs: none, if one does.
fn fault<B: FilledOnce>(alloc: Global, limits: Limits, pairs: &[(u64, u64)]) -> Option<PairsFault> {
    Forest::<Numbers<B>>::of_pairs(alloc, limits, pairs).err()
}

/// Keys that do not rise, and the first place at which they do not.
const FALLS: [(&[(u64, u64)], usize); 5] = [
    (&[(7, 1), (7, 1)], 1),
    (&[(5, 0), (4, 0), (3, 0)], 1),
    (&[(1, 0), (3, 0), (2, 0), (4, 0)], 2),
    (&[(1, 1), (2, 2), (2, 3), (1, 4)], 2),
    (&[(0, 9), (1, 8), (2, 7), (u64::MAX, 6), (9, 5)], 4),
];

/// Limits that are accepted, and such as are out of one range, by one.
const GOOD: Limits = Limits {
    passes: 2,
    nodes: 9,
    scx: 9,
    tries: TRIES,
};

const BAD: [Limits; 6] = [
    Limits { passes: 0, ..GOOD },
    Limits { passes: 33, ..GOOD },
    Limits {
        nodes: 32_769,
        ..GOOD
    },
    Limits {
        scx: 32_769,
        ..GOOD
    },
    Limits { tries: 0, ..GOOD },
    Limits {
        tries: 1001,
        ..GOOD
    },
];

/// Bad limits are told, and where the keys fall. If both are wrong, it is the limits.
fn are_told<B: FilledOnce>(rt: &impl Abort, alloc: Global) {
    for (pairs, place) in FALLS {
        let order = Some(PairsFault::Order { place });
        same(rt, fault::<B>(alloc, GOOD, pairs), order);
    }
    let bad = Some(PairsFault::Limits);
    for limits in BAD {
        same(rt, fault::<B>(alloc, limits, &[(1, 1)]), bad);
        same(rt, fault::<B>(alloc, limits, &[(1, 1), (1, 1)]), bad);
    }
}

/// Pairs that take 32 nodes in a trie, and one more, which takes two: of each of these keys the
/// highest bit parts it from those below, so that only the first four share a leaf.
const POWERS: [(u64, u64); 20] = [
    (1, 0),
    (2, 0),
    (4, 0),
    (8, 0),
    (16, 0),
    (32, 0),
    (64, 0),
    (128, 0),
    (256, 0),
    (512, 0),
    (1 << 10, 0),
    (1 << 11, 0),
    (1 << 12, 0),
    (1 << 13, 0),
    (1 << 14, 0),
    (1 << 15, 0),
    (1 << 16, 0),
    (1 << 17, 0),
    (1 << 18, 0),
    (1 << 19, 0),
];

/// Pairs that take 32 nodes in a tree, a leaf and a fork for each four, and one more.
const LEAVES: u64 = 65;

/// Beside these shares there is room for 32 nodes, and so for all of these pairs but the last;
/// beside the largest for none.
fn are_too_many<B: FilledOnce>(
    rt: &impl Abort,
    alloc: Global,
    pairs: &[(u64, u64)],
) -> Result<(), Fail> {
    let Some((_, fewer)) = pairs.split_last() else {
        return Err("no pairs".into());
    };
    let (large, largest) = (limits(32, 32_767, 1), limits(32, 32_768, 1));
    let too_many = Some(PairsFault::TooMany { room: 32 });
    let full = Some(PairsFault::TooMany { room: 0 });
    same(rt, fault::<B>(alloc, large, fewer), None);
    same(rt, fault::<B>(alloc, large, pairs), too_many);
    same(rt, fault::<B>(alloc, largest, &[(1, 1)]), full);
    Ok(())
}

#[test]
fn some_pairs_are_refused(rt: HostRuntime) -> Result<(), Fail> {
    let alloc = rt.alloc();
    are_told::<ByOrder>(&rt, alloc);
    are_told::<ByBits>(&rt, alloc);
    are_too_many::<ByOrder>(&rt, alloc, &rising(alloc, LEAVES, 1)?)?;
    are_too_many::<ByBits>(&rt, alloc, &POWERS)
}
