//! Lawful histories, and what is known of them.
#![tactic(auto)]

mod laws;

pub use laws::laws_hold;
