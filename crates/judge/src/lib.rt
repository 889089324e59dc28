//! A judge that says of each row whether it is lawful after those before it.
#![tactic(auto)]

mod beginning;
mod entering;
mod exchanges;
mod facts;
mod filling;
mod freezing;
mod graph;
mod judge;
mod loads;
mod naming;
mod past;
mod records;
mod rows;
mod run;
mod taking;
mod uses;

pub use beginning::{is_own_node, is_own_scx};
pub use judge::Judge;
pub use run::first_unlawful;
