//! Records that come back: what a pass keeps of its own slots between calls, and what it does as it rests.
#![tactic(auto)]

pub mod book;
pub mod clean;
pub mod counter;
pub mod deal;
pub mod keeper;
pub mod kind;
pub mod lasting_sights;
pub mod leaf;
pub mod look_up;
pub mod looks;
pub mod lost;
pub mod names;
pub mod open;
pub mod part;
pub mod period;
pub mod scx;
pub mod turn;
