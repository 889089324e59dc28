//! Runs a script of a map: a thread for each client makes the client's calls of one dictionary.
#![tactic(auto)]

mod answers;
mod client;
mod counts;
mod gate;
mod gates;
mod outcome;
mod request;
mod runs;
mod thread;

pub use gate::Gate;
pub use gates::{Alternate, Freeze, GateName, Hold, Open};
pub use outcome::Outcome;
pub use runs::run;
