//! The two kinds of records, whose slots are kept alike.

/// Nodes, or SCX-records.
#[derive(Clone, Copy, Debug, PartialEq, Eq)]
pub enum RecordKind {
    Node,
    Scx,
}

/// The number of a record, and of which kind it is.
#[derive(Clone, Copy, Debug)]
pub struct RecordName {
    pub kind: RecordKind,
    pub number: u64,
}
