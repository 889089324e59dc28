//! The pairs of a map.

/// A key and its value.
#[derive(Clone, Copy, Debug, PartialEq, Eq)]
pub struct Pair {
    pub key: u64,
    pub value: u128,
}
