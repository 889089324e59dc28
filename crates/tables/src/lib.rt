//! The table of atomic words that threads share, who sits at it, and the rule by which its words change.
#![tactic(auto)]

pub mod lasting_laws;
pub mod lasting_size;
pub mod memory;
pub mod rule;
pub mod table_plan;
pub mod table_shape;
pub mod view;
pub mod words;
