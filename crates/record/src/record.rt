//! What a run leaves.
use arena::{Kind, NodeNo, PassNo, Resource, ScxNo};
use ordered_map::Reply;
use script::Script;

/// The script, and the lines of a run in order.
#[derive(Clone, Debug, Drop)]
pub struct Record {
    pub script: Script,
    pub lines: Vec<Line>,
}

/// One line of a run.
#[derive(Clone, Debug, Drop, PartialEq, Eq)]
pub enum Line {
    /// A turn.
    Step(TurnRow),
    /// The update that the turn before it has won.
    Log(Entry),
    /// The answer to the call whose last turn is before it.
    Reply(Finished),
}

/// A blank, as a vector of a fixed capacity has where it has no line: a turn of the number 0, which
/// no run has.
impl Default for Line {
    fn default() -> Line {
        Line::Step(TurnRow::Idle {
            number: 0,
            client: PassNo(0),
        })
    }
}

/// A turn of a client. Turns are numbered from 1.
#[derive(Clone, Copy, Debug, PartialEq, Eq)]
pub enum TurnRow {
    /// A turn with an atomic step.
    Step { number: u64, row: arena::Row },
    /// A turn without an atomic step: of a client with no call left, or the whole of a call that
    /// answers at once.
    Idle { number: u64, client: PassNo },
}

impl TurnRow {
    ghost use Rattle.std.specs.Prelude.{◌≡◌};
    ghost use Rattle.record.specs.Turns.{kind_of};

    /// The kind of the step, if the turn made one.
    pub fn kind(&self) -> Option<Kind>
        ensures { result ≡ kind_of self.now }
    {
        match self {
            TurnRow::Step { number: _, row } => Some(row.kind),
            TurnRow::Idle {
                number: _,
                client: _,
            } => None,
        }
    }
}

/// An update that has won.
#[derive(Clone, Copy, Debug, PartialEq, Eq)]
pub struct Entry {
    /// Its place in the log, counted from 1.
    pub place: u64,
    /// The number of the turn in which it has won, whoever made it.
    pub step: u64,
    /// The SCX-record that it is of.
    pub scx: ScxNo,
    /// The client of whose share that is.
    pub client: PassNo,
    /// The number of the owner's call, counted from 0, as the SCX-record says it.
    pub call: u64,
}

/// A finished call.
#[derive(Clone, Debug, Drop, PartialEq, Eq)]
pub struct Finished {
    pub client: PassNo,
    /// The number of the call among the client's own, counted from 0.
    pub call: u64,
    /// The number of its first turn.
    pub begin: u64,
    /// The number of its last turn.
    pub end: u64,
    /// The number of the turn at which it took place. None if the call changed and says nothing:
    /// it was refused, failed, lost, or not all its cells were as found.
    pub moment: Option<u64>,
    pub answer: Answer,
}

/// What a call answers. In an answer with both, `node` is a cell of the call or a node of the tree,
/// and `scx` another client's SCX-record that its info has named.
#[derive(Clone, Debug, Drop, PartialEq, Eq)]
pub enum Answer {
    /// `llx`: the fields of the cell at the call's last turn, where it is not final.
    Snapshot { left: NodeNo, right: NodeNo },
    /// `llx`, `set`: the cell is final.
    Finalized,
    /// `llx`, `set`: `scx` was in progress over the cell
    /// `node` within the call, and is finished now.
    Fail { node: NodeNo, scx: ScxNo },
    /// `scx`, `set`: the update is in the log, once, as asked.
    Done,
    /// `scx`, `set`: the update was not made and never will be; `scx` has reached the cell `node`
    /// since its snapshot, as the call's last freeze has found.
    Lost { node: NodeNo, scx: ScxNo },
    /// `vlx`: at the call's start each cell was as its snapshot found it.
    Same,
    /// `vlx`: `scx` has reached the cell `node` since its snapshot, as the call's last load of an
    /// info has found; it may have changed the cell or not.
    Changed { node: NodeNo, scx: ScxNo },
    /// `scx`, `vlx`: the client keeps no snapshot of this cell, the first such.
    Unlinked { node: NodeNo },
    /// A call of the map, by what it replies. One with an entry answers what the map had just
    /// before its moment, all others what it has at it. `get` and the edits of a key: `Value`,
    /// the value of its key, if the key has one; an edit has changed nothing if its rule does not
    /// apply to what it answers. `pop_first`, `pop_last`: `Pair`, the pair at that end. `successor`,
    /// `predecessor`: `Pair`, the pair with the next key above its own, or below. Each of these may
    /// answer none. `range`: `Pairs`, the first pairs between its keys, by rising key. All but
    /// `get`: `Contended`, all its tries were lost, and in the last of them `scx` was in progress
    /// over the node `node` of the tree; an edit was not made and never will be.
    /// Edits: `Full`, this much of the resource is left in the client's share, too little for the call.
    /// `successor`, `predecessor`, `range`: `NoMemory`, an allocation was refused.
    Map(Reply<u64, u128>),
    /// `scx`, `set`: `left` of the resource are left in the client's share, too few for the call.
    Full { what: Resource, left: u32 },
}
