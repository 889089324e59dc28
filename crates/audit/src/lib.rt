//! Judges a record: whether it is one of a lawful run. It goes from line to line, and plays nothing
//! again: a row is judged by what the rows before it have left, the map is kept up by the entries,
//! and the tree is looked at where an SCX-record begins.
#![tactic(auto)]

mod cells;
mod client;
mod commands;
mod edits;
mod fault;
mod found;
mod leaves;
mod levels;
mod map;
mod memory;
mod place;
mod run;
mod steps;
mod trie_edits;
mod trie_shape;
mod verdict;
mod watch;

pub use fault::AuditFault;
pub use verdict::{audit, audit_watched};
pub use watch::{Unwatched, Watch};
