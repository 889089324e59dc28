//! The dictionary for C: a static library, whose functions are those of `exports`. A caller holds
//! each pass by a handle, `Place`, which leads to the pass and to its part in the forest.
#![tactic(auto)]

mod answer;
mod away;
mod begin;
mod client;
mod close;
mod end;
mod end_lasting;
mod exports;
mod handle;
mod held;
mod lasting;
mod loose;
mod open;
mod presence;

pub use answer::{Count, KeyValue, Left, PassLimits, Value, ValueAnswer};
pub use away::AwayPass;
pub use client::{Closing, OwnedPass};
pub use handle::{Handle, HandleSlot};
pub use held::{Held, HeldAway, Numbers};
pub use presence::Presence;
