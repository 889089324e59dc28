//! Why a line of a record is not lawful, in words. The lines before it are gone through, and then the
//! conditions of its kind are asked one by one.
#![tactic(auto)]

mod begins;
mod blame;
mod breach;
mod cell_answers;
mod cell_entries;
mod claimed_edit;
mod client_so_far;
mod details;
mod entries;
mod explanation;
mod fills;
mod freezes;
mod idle;
mod leaf_edit;
mod leaf_out;
mod levels;
mod lines_before;
mod loads;
mod made_edit;
mod map_answers;
mod map_before;
mod replies;
mod steps;
mod stores;
mod trie_edit;
mod trie_keys;
mod updates;
mod words;

pub use breach::Breach;
pub use explanation::explain;
pub use map_before::edit_pairs;
