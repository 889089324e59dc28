//! Threads that share one table of atomic words: cells, or an ordered dictionary.
#![tactic(auto)]

mod away;
mod beginning;
mod blamed;
mod close;
mod dictionary;
mod fault;
mod filled_once;
mod forest;
mod kept;
mod lasting;
mod lasting_close;
mod lasting_meet;
mod look_up;
mod meet;
mod open;
mod pass;
mod rests;

pub use arena::{Full, Resource};
pub use away::Away;
pub use close::Closed;
pub use fault::{NewFault, OrderFault, PairsFault, UpdateFault};
pub use filled_once::{FilledOnce, TableOnce};
pub use forest::Forest;
pub use lasting::Lasts;
pub use lasting_close::Remains;
pub use lasting_meet::learns_last;
pub use open::{OpenCall, Stepped};
pub use pass::Pass;
pub use tables::lasting_laws::{
    looks_last, names_last, rests_last, seats_last, slots_last, steps_last,
};
pub use tables::table_shape::{Keeping, TableShape};
pub use upkeep::lasting_sights::{finished_last, sights_last, trees_last};
