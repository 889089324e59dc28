//! The ordered reads of the tree, step by step: the pair beside a key on a side of it, and the
//! pairs between two keys.
#![tactic(auto)]

mod alone;
mod known_load;
mod last_turns;
mod load;
mod near;
mod neighbour;
mod push;
mod range;
mod read;
mod refused;
mod run;

pub use alone::alone_holds;
pub use known_load::{HeadLoad, HighLoad, KeyLoad, KnownLoad, MoreLoad, PairLoad, ValueLoad};
pub use last_turns::LastTurns;
pub use load::{LeafPlace, ReadLoad};
pub use near::{NearAt, NearNext, NearRun};
pub use neighbour::{Neighbour, NeighbourRun, Route};
pub use range::{Range, RangeRun};
pub use read::{Children, Read, ReadBegin, ReadNext};
pub use refused::Refused;
pub use run::{ReadAt, ReadRun, leaf_way};
pub use template::Tree;
