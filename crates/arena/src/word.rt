//! The words of the table by name.
use crate::number::{NodeNo, ScxNo};

/// The word `state` of an SCX-record that is not finished: it
/// is in progress once an info word has named it.
pub const IN_PROGRESS: u64 = 0;

/// The word `state` of an SCX-record that is finished, and whose update has won.
pub const COMMITTED: u64 = 1;

/// The word `state` of an SCX-record that is finished, and whose update will never win.
pub const ABORTED: u64 = 2;

/// Which of the two fields of a node.
#[derive(Clone, Copy, Debug, PartialEq, Eq)]
pub enum Side {
    /// The first: in a dictionary towards lower keys.
    Left,
    /// The second.
    Right,
}

/// Which of the four pairs that a leaf has room for.
#[derive(Clone, Copy, Debug, PartialEq, Eq)]
pub enum Slot {
    First,
    Second,
    Third,
    Fourth,
}

/// A word of a node that is settled before the node is shared.
#[derive(Clone, Copy, Debug, PartialEq, Eq)]
pub enum SettledPart {
    /// 8 times the level, and 4 for a leaf, and the class; 0 in cells.
    Head,
    /// How many pairs a leaf has after its first.
    More,
    /// The key of a pair of a leaf; the first of a fork is that of the fork.
    Key(Slot),
    /// The value of a pair, without its high half; the first of a cell is what the cell holds.
    Value(Slot),
    /// The high half of the value of a pair.
    High(Slot),
}

/// A word of a node: those that are settled before it is shared, two fields, and two that only
/// SCX-records change.
#[derive(Clone, Copy, Debug, PartialEq, Eq)]
pub enum NodeWord {
    Settled(SettledPart),
    /// The number of the node below it on that side, or 0 for none.
    Child(Side),
    /// The number of the SCX-record that froze the node last.
    Info,
    /// 1 once an SCX-record finalizes the node.
    Marked,
}

/// A word of an SCX-record. All but the first two are settled before it is shared.
#[derive(Clone, Copy, Debug, PartialEq, Eq)]
pub enum ScxWord {
    /// `IN_PROGRESS`, `COMMITTED` or `ABORTED`.
    State,
    /// 1 once all its nodes are frozen.
    AllFrozen,
    /// How many nodes it covers, which it finalizes, and where its field is, packed.
    Plan,
    /// The node that it puts into its field.
    New,
    /// The node that it expects in its field.
    Old,
    /// A node that the SCX-record covers: one of four, counted from 0.
    Member(u8),
    /// The info word of that node as its linked snapshot found it.
    Seen(u8),
    /// The number of the owner's call.
    Call,
}

/// A word of the table, by its record.
#[derive(Clone, Copy, Debug, PartialEq, Eq)]
pub enum Word {
    Node(NodeNo, NodeWord),
    Scx(ScxNo, ScxWord),
}
