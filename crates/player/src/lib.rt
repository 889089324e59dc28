//! Plays any interleaving of a script's calls, one atomic step at a time.
#![tactic(auto)]

mod client;
mod interleaving;
mod kept;
mod lines;
mod orders;
mod player;
mod player_core;
mod plays;
mod run;
mod turned;

pub use lines::Lines;
pub use orders::{follow, play_by};
pub use player::{Player, play};
pub use player_core::Core;
pub use plays::Plays;
pub use record::{Answer, Entry, Finished, Line, Record, TurnRow};
pub use turned::Turned;
