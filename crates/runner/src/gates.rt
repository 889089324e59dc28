//! The gates of the program.

mod alternate;
mod freeze;
mod hold;
mod name;
mod open;

pub use alternate::Alternate;
pub use freeze::Freeze;
pub use hold::Hold;
pub use name::GateName;
pub use open::Open;
