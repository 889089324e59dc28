//! When a key of a run's map had which value, and when the map gave what an ordered read has
//! answered, found without a look at every step.
#![tactic(auto)]

mod changed;
mod ordered;
mod places;

pub use ordered::pairs_told;
pub use places::{Change, Places};
