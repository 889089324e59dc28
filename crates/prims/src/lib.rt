//! LLX, SCX and VLX over nodes, step by step, and the shape of cells.
#![tactic(auto)]

mod cells;
mod llx;
mod put;
mod scx;
mod snap;
mod snaps;
mod update;
mod vlx;

pub use cells::Cells;
pub use llx::{Llx, LlxAt, LlxRun};
pub use put::{PutAt, PutRun};
pub use scx::{Scx, ScxAt, ScxRun};
pub use snap::Snap;
pub use snaps::{SnapList, Snaps};
pub use update::Update;
pub use vlx::{Vlx, VlxRun};
