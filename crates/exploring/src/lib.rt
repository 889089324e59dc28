//! What a script can answer: its schedules with few interruptions, played one after another.
#![tactic(auto)]

mod branches;
mod found;
mod outcome;
mod playing;
mod search;
mod stretch;

pub use found::{left_text, outcomes_text};
pub use search::{Exploration, explore, explore_watched};
