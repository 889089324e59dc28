//! Tables that are planted with the first pairs of a map.
#![tactic(auto)]

mod leaf;
mod order;
mod parting;
mod planting;
mod room;
mod seedling;
mod table;
mod trees;

pub use order::first_fall;
pub use planting::Planting;
pub use room::{MOST_NODES, with_room};
