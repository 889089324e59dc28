//! What the calls of the tree have in common: its shape, and the walk from the root to a leaf.
#![tactic(auto)]

mod balance;
mod shape;
mod walk;

pub use balance::{Balance, ByBits, ByOrder, FixedBalance, map_mode};
pub use ordered_map::Goal;
pub use shape::Tree;
pub use walk::{Found, Trail, WalkAt, WalkRun, Way};
