//! Why an ordered read answers nothing.
use arena::{NodeNo, ScxNo};

/// Why an ordered read answers nothing. It has changed nothing, and its pass may call again.
#[derive(Clone, Copy, Debug, PartialEq, Eq)]
pub enum Refused {
    /// All tries were lost. During the last of them this SCX-record of another pass was in progress
    /// over this node.
    Contended { node: NodeNo, scx: ScxNo },
    /// A growth of what it keeps was refused.
    NoMemory,
}
