//! What is remembered of the steps of a client's call, for its answer.
ghost use Rattle.std.specs.Prelude.{◌≡◌, ℕ, ◌+◌, ◌<◌, ◌^◌, true, false, set, Option, Some, None, IfSome, IfNone, IsTrue, slice_get};
ghost use Rattle.arena.specs.Log.{has};
ghost use Rattle.audit.specs.declared.memory.Snapshot.{Snapshot as SnapshotOf};
ghost use Rattle.ordered_map.specs.Tries.{begins_try};
ghost use Rattle.audit.specs.Remembering.{noted, tried};

use arena::{Kind, NodeNo, NodeWord, Row, SettledPart, Word};
use script::Cell;

/// A snapshot that a client keeps of a cell.
#[derive(Clone, Copy)]
pub(crate) struct Snapshot {
    /// How many steps there were up to it.
    pub(crate) steps: u64,
    /// The place of the last entry over the cell, or 0.
    pub(crate) last: u64,
}

/// What a step of a client has found in the info of a node.
#[derive(Clone, Copy)]
pub(crate) struct FoundInfo {
    /// How many steps there were with it.
    pub(crate) steps: u64,
    pub(crate) node: NodeNo,
    pub(crate) found: u64,
    /// The place of the last entry over the node, or 0.
    pub(crate) last: u64,
}

/// The tries of a client's call.
#[derive(Clone, Copy)]
pub(crate) struct Tries {
    /// How many it has begun.
    pub(crate) many: u64,
    /// How many steps there were before the newest of them, if it has begun one.
    pub(crate) before: u64,
}

impl Tries {
    /// Those of a call that has begun none.
    pub(crate) const NONE: Tries = Tries { many: 0, before: 0 };

    /// Whether they are this many, and one at least.
    pub(crate) fn are(self, many: u32) -> bool
        ensures { IsTrue result → (0 < self.many) × (self.many ≡ many) }
    {
        0 < many && self.many == u64::from(many)
    }

    /// The same after a step of the client, the last of `steps`: with one more, if it begins one.
    pub(crate) fn behind(self, row: &Row, steps: u64) -> Tries
        ensures { self.many + 1 < 2 ^ 64 →
            result ≡ tried (begins_try row.now.pass.0 row.now) steps self }
    {
        if begins_try(row) {
            Tries {
                many: self.many.saturating_add(1),
                before: steps.saturating_sub(1),
            }
        } else {
            self
        }
    }
}

/// Whether a step begins a try of its client's call: it loads the root's head.
fn begins_try(row: &Row) -> bool
    ensures { result ≡ begins_try row.now.pass.0 row.now }
{
    match (row.kind, row.word) {
        (Kind::LoadSettled, Word::Node(node, NodeWord::Settled(SettledPart::Head))) => node.0 == 0,
        _ => false,
    }
}

/// What the steps so far say of a client's call.
#[derive(Clone, Copy)]
pub(crate) struct Memory {
    /// How many steps there were before the first turn of its call.
    pub(crate) begun: u64,
    /// How many nodes of its share were left then, and how many SCX-records.
    pub(crate) nodes: u32,
    pub(crate) scx: u32,
    /// The tries that it has begun.
    pub(crate) tries: Tries,
    /// Of each cell of a `vlx`: whether it was as its snapshot says then.
    pub(crate) same: [bool; 4],
    /// Its last load of an info word.
    pub(crate) look: Option<FoundInfo>,
    /// Its last freezing exchange.
    pub(crate) freeze: Option<FoundInfo>,
    /// The snapshots that it keeps, by the numbers of cells.
    pub(crate) snapshots: [Option<Snapshot>; 9],
}

impl Memory {
    /// That of a client that has made no turn.
    pub(crate) fn new() -> Memory
        ensures look { result.look ≡ None }
        ensures freeze { result.freeze ≡ None }
        ensures snapshots { (n : ℕ) (kept : Option SnapshotOf) →
            slice_get result.snapshots n ≡ Some kept → kept ≡ None }
    {
        Memory {
            begun: 0,
            nodes: 0,
            scx: 0,
            tries: Tries::NONE,
            same: [false; 4],
            look: None,
            freeze: None,
            snapshots: [None; 9],
        }
    }

    /// The snapshot that it keeps of a cell.
    pub(crate) fn snapshot(&self, cell: NodeNo) -> Option<Snapshot>
        ensures some { IfSome result
            (λ kept. slice_get self.now.snapshots cell.0 ≡ Some (Some kept)) }
        ensures none { IfNone result (cell.0 < 9 →
            slice_get self.now.snapshots cell.0 ≡ Some None) }
    {
        *self.snapshots.as_slice().get(cell.0 as usize)?
    }

    /// What a step of this kind has found in an info word.
    pub(crate) fn note(&mut self, kind: Kind, look: Option<FoundInfo>)
        ensures { self.new ≡ noted kind look self.old }
    {
        match kind {
            Kind::LoadInfo => self.look = look,
            Kind::Freeze => self.freeze = look,
            _ => {}
        }
    }

    /// The same, with this snapshot of a cell, or none.
    pub(crate) fn with(self, cell: NodeNo, snapshot: Option<Snapshot>) -> Memory
        ensures { result ≡ record self { snapshots = set self.snapshots cell.0 snapshot } }
    {
        let mut snapshots = self.snapshots;
        if cell.0 < 9 {
            snapshots[cell.0 as usize] = snapshot;
        }
        Memory { snapshots, ..self }
    }

    /// The same, without the snapshots of these cells.
    pub(crate) fn without(self, cells: &[Cell]) -> Memory
        ensures same { result ≡ record self { snapshots = result.snapshots } }
        ensures dropped { (n : ℕ) (kept : Option SnapshotOf) →
            slice_get result.snapshots n ≡ Some kept → has cells.now n ≡ true → kept ≡ None }
        ensures others { (n : ℕ) → has cells.now n ≡ false →
            slice_get result.snapshots n ≡ slice_get self.snapshots n }
    {
        let mut memory = self;
        for cell in cells {
            memory = memory.with(cell.node(), None);
        }
        memory
    }
}
