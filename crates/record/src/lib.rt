//! What a run leaves, and when it is a lawful run of a script: the main statement.
#![tactic(auto)]

mod calls;
mod record;

pub use calls::next_call;
pub use record::{Answer, Entry, Finished, Line, Record, TurnRow};
