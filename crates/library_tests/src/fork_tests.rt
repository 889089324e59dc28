//! Forks that part keys at a bit.

use crate::same::same;
use ordered_map::{ForkPlace, fork_between, shares};
use std::process::Abort;

/// The key whose highest bit is its only one.
const HALF: u64 = 0x8000_0000_0000_0000;

/// The fork between two keys, in either order, has this key and stands on this level; both share it.
fn is_between(rt: &impl Abort, low: u64, high: u64, key: u64, level: u64) {
    same(rt, fork_between(low, high), ForkPlace { key, level });
    same(rt, fork_between(high, low), ForkPlace { key, level });
    same(rt, (shares(key, low), shares(key, high)), (true, true));
}

#[test]
fn forks_part_keys_at_the_highest_bit_in_which_they_differ(rt: HostRuntime) {
    is_between(&rt, 0, 1, 1, 65);
    is_between(&rt, 1, 2, 2, 64);
    is_between(&rt, 16, 20, 20, 63);
    is_between(&rt, 0, HALF, HALF, 2);
    is_between(&rt, 0, u64::MAX, HALF, 2);
    is_between(&rt, HALF - 1, HALF, HALF, 2);
    is_between(&rt, HALF, u64::MAX, 0xc000_0000_0000_0000, 3);
    is_between(&rt, u64::MAX - 1, u64::MAX, u64::MAX, 65);
}

#[test]
fn keys_share_a_fork_that_agree_with_its_key_above_the_lowest_bit(rt: HostRuntime) {
    for (fork, key, agree) in [
        (1u64, 0u64, true),
        (1, 1, true),
        (1, 2, false),
        (1, u64::MAX, false),
        (20, 15, false),
        (20, 16, true),
        (20, 23, true),
        (20, 24, false),
        (HALF, 0, true),
        (HALF, u64::MAX, true),
        (u64::MAX, 0, false),
        (u64::MAX, u64::MAX - 2, false),
        (u64::MAX, u64::MAX - 1, true),
        (u64::MAX, u64::MAX, true),
    ] {
        same(&rt, shares(fork, key), agree);
    }
}
