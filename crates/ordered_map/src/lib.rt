//! What map the words of a tree spell, and the calls of a map with their replies.
#![tactic(auto)]

mod fork_place;
mod held;
mod laws;
mod pair;
mod part;
mod reader;
mod reply;
mod request;
mod rule;
mod wide;

pub use fork_place::{ForkPlace, fork_between, shares};
pub use held::{end_slot, slot_behind};
pub use laws::{laws_hold, map_laws_hold, trie_laws_hold};
pub use pair::Pair;
pub use reader::spelled;
pub use reply::Reply;
pub use request::Request;
pub use rule::{Goal, Rule};
pub use wide::{halves, wide_value};
