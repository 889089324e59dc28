//! An ordered dictionary on the tree: keys of one word, values of two, its calls, and the
//! machine of one.
#![tactic(auto)]

mod alone;
mod dict;
mod key;
mod name;
mod name_key;
mod run;
mod shape;
mod told;
mod translation;
mod value;

pub use alone::alone_holds;
pub use dict::DictRun;
pub use key::WordKey;
pub use name::Name8;
pub use ordered_map::{Reply, Request};
pub use run::MapRun;
pub use shape::{Dict, Trie};
pub use template::{ByBits, ByOrder, FixedBalance};
pub use told::{of_neighbour, of_range, of_update};
pub use translation::{number_of, pairs_of, value_of};
pub use value::WordValue;
