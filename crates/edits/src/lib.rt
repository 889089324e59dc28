//! Updates of the tree: the machine that makes an edit, and what it asks of the edit.
#![tactic(auto)]

mod alone;
mod edit;
mod pairs;
mod piece;
mod reading;
mod update;
mod work;

pub use alone::alone_holds;
pub use edit::{Edit, Look, Nodes, Nth, Work};
pub use pairs::Pairs;
pub use piece::Piece;
pub use reading::{Known, Reading};
pub use update::{Next, Stop, UpdateAt, UpdateRun, Updated, copied};
