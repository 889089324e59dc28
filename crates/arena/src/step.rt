//! Single atomic steps, and the rows that they leave in a history.
use crate::number::PassNo;
use crate::word::Word;

/// The kinds of step: a store of what is to be settled, loads, and the steps of an SCX.
#[derive(Clone, Copy, Debug, PartialEq, Eq)]
pub enum Kind {
    /// Stores into a settled word or a field of a record that is not shared yet.
    Fill,
    /// Loads `head`, `key`, `value`, or one of `plan` to `call`.
    LoadSettled,
    /// Loads the info of a node.
    LoadInfo,
    /// Loads the state of an SCX-record.
    LoadState,
    /// Loads the mark of a node.
    LoadMarked,
    /// Loads `allfrozen` of an SCX-record.
    LoadAllFrozen,
    /// Loads a field of a node.
    LoadChild,
    /// Exchanges the info of a node that an SCX-record covers, from its `i` word to the SCX-record.
    Freeze,
    /// Stores 1 into `allfrozen`, once all nodes are frozen.
    SetFrozen,
    /// Stores 1 into the mark of a node that is finalized.
    Mark,
    /// Exchanges the field from `old` to `new`.
    Update,
    /// Stores 1 into the state, once the update has won.
    Commit,
    /// Stores 2 into the state, where some node can no longer be frozen.
    Abort,
}

/// What a step does to its word.
#[derive(Clone, Copy, Debug, PartialEq, Eq)]
pub enum Access {
    /// Changes nothing.
    Load,
    /// Stores this, whatever the word holds.
    Store(u64),
    /// Stores `new` where the word holds `expected`, and else changes nothing.
    Exchange { expected: u64, new: u64 },
}

/// One atomic step on one word.
#[derive(Clone, Copy, Debug, PartialEq, Eq)]
pub struct Step {
    pub kind: Kind,
    pub word: Word,
    pub access: Access,
}

/// A step that was made: by whom, in which of the client's calls, and what the word held before and
/// after it.
#[derive(Clone, Copy, Debug, PartialEq, Eq)]
pub struct Row {
    pub pass: PassNo,
    /// The number of the call, as its maker counts: a player by calls answered, a forest by
    /// SCX-records taken.
    pub call: u64,
    pub kind: Kind,
    pub word: Word,
    pub before: u64,
    pub after: u64,
}
