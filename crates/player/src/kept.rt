//! The snapshots that a client keeps.
ghost use Rattle.std.specs.Prelude.{◌≡◌, ℕ, ◌<◌, ◌≤◌, ◌==◌, if◌then◌else◌, length, map, slice_set, IfOk, IfErr};
ghost use Rattle.std.specs.List.{list_any};

use arena::{NodeNo, ScxNo};
use arrayvec::ArrayVec;
use prims::{Llx, Snap};
use script::Cell;

/// What the last LLX of a cell found.
#[derive(Clone, Copy)]
struct KeptSnapshot {
    scx: ScxNo,
    left: NodeNo,
    right: NodeNo,
}

/// The last snapshot of each cell, by the cell's number.
#[derive(Drop)]
pub(crate) struct Kept {
    found: [Option<KeptSnapshot>; 9],
    ghost nine: { length found ≡ 9 },
}

impl Kept {
    ghost use Rattle.player.specs.KeptSnaps.{AllKept, IsFirstUnkept, kept_of, node_of, found_of};

    pub(crate) fn new() -> Kept
        ensures { (n : ℕ) → kept_of result n ≡ None }
    {
        Kept { found: [None; 9] }
    }

    /// Keeps the snapshot of an LLX, or drops the one before where it gave none.
    pub(crate) fn keep(&mut self, llx: Llx)
        ensures { self.new.found ≡ slice_set self.old.found (node_of llx) (found_of llx) }
    {
        match llx {
            Llx::Snapshot(
                Snap {
                    node,
                    scx,
                    left,
                    right,
                },
            ) => self.put(node, Some(KeptSnapshot { scx, left, right })),
            Llx::Finalized { node, scx: _ } => self.put(node, None),
            Llx::Fail { node, scx: _ } => self.put(node, None),
        }
    }

    /// Drops the snapshots of some cells.
    pub(crate) fn forget(&mut self, snaps: &[Snap])
        ensures { (n : ℕ) → kept_of self.new n ≡ (if list_any (λ s. s.node.0 == n) snaps.now then None else kept_of self.old n) }
    {
        for snap in snaps {
            self.put(snap.node, None);
        }
    }

    /// Changes what is kept of a node, if it is a cell's.
    fn put(&mut self, node: NodeNo, found: Option<KeptSnapshot>)
        ensures { self.new.found ≡ slice_set self.old.found node.0 found }
    {
        let at = node.0 as usize;
        if at < self.found.len() {
            self.found[at] = found;
        }
    }

    /// The snapshots of these cells, or the first cell without a kept one.
    pub(crate) fn linked(&self, cells: &[Cell]) -> Result<ArrayVec<Snap, 4>, NodeNo>
        requires { length cells.now ≤ 4 }
        ensures nodes { IfOk result (λ snaps. map (λ s. s.node.0) snaps.items ≡ cells.now) }
        ensures kept { IfOk result (λ snaps. AllKept self.now snaps.items) }
        ensures unkept { IfErr result (λ node. IsFirstUnkept self.now cells.now node.0) }
    {
        let mut snaps = ArrayVec::new();
        for cell in cells {
            let node = cell.node();
            match self.found[node.0 as usize] {
                Some(KeptSnapshot { scx, left, right }) => snaps.push(Snap {
                    node,
                    scx,
                    left,
                    right,
                }),
                None => return Err(node),
            }
        }
        Ok(snaps)
    }
}
