//! What a pass of a table that lasts remembers. No value of these types is made.
use arena::{NodeNo, PassNo, Row, ScxNo, Word};
use std::collections::LinkedList;

/// The number of a node or of an SCX-record: a name, or that of a slot.
pub enum RecordNo {
    /// A node.
    Node(NodeNo),
    /// An SCX-record.
    Scx(ScxNo),
}

/// What a pass has noted of a name. A run says after which rows, the newest first.
pub enum NoteView {
    /// It was marked or dead then.
    MarkedOrDead(LinkedList<Row>),
    /// It was dead then, or before.
    DeadBy(LinkedList<Row>),
    /// It is out of reach, and gone for good.
    OutOfReach,
    /// An SCX-record: at a moment when it was finished it was done with its node of this place.
    DoneWith(u64),
}

/// A name, and what a pass has noted of it.
pub struct Noted {
    /// The name.
    pub name: RecordNo,
    /// What is noted.
    pub note: NoteView,
}

/// What a pass has polled of another since a moment.
pub struct Polled {
    /// The other pass.
    pub pass: PassNo,
    /// The run up to that moment.
    pub since: LinkedList<Row>,
    /// How often the other had rested by then; nothing once it has rested since.
    pub waits: Option<u64>,
}

/// What a pass remembers from one call to the next.
pub struct PassMemory {
    /// The run up to its last rest, the newest row first.
    pub rested: LinkedList<Row>,
    /// Whether it is away.
    pub away: bool,
    /// How often it has rested.
    pub often: u64,
    /// Its names below this one are dealt, or passed over: those that nobody has taken are held.
    pub nodes_to: u64,
    /// The same of SCX-records.
    pub scx_to: u64,
    /// What it has noted of names.
    pub notes: LinkedList<Noted>,
    /// What it has polled.
    pub polls: LinkedList<Polled>,
    /// Own names that their slots hold.
    pub holds: LinkedList<RecordNo>,
    /// Own slots that hold nothing.
    pub empty: LinkedList<RecordNo>,
    /// Words of such slots that are 0.
    pub zeros: LinkedList<Word>,
}
