//! What a seat knows. No value of these types is made.
use crate::memory::PassMemory;
use arena::{Layout, PassNo, Row};
use planting::Planting;
use std::collections::LinkedList;

/// A pass, the table's layout, what was planted in it, what the pass remembers from one call to the
/// next, and the run up to its own last step, newest row first.
pub struct SeatedPass {
    /// The number of the pass.
    pub number: PassNo,
    /// The layout of its table.
    pub layout: Layout,
    /// What was planted in its table.
    pub planting: Planting,
    /// What it remembers: nothing in a table that does not last.
    pub memory: PassMemory,
    /// The run up to its own last step, the newest row first.
    pub known: LinkedList<Row>,
}

/// The passes of a seat: one, none if it was joined to another, or several before they are
/// split.
pub struct SeatView {
    /// The passes, each of this seat alone.
    pub passes: LinkedList<SeatedPass>,
}
