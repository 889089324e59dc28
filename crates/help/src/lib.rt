//! Completing an SCX-record, by its owner or by whoever meets it.
#![tactic(auto)]

mod machine;
mod state;

pub use state::{HelpAt, HelpRun};
