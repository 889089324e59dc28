//! What an SCX is to do.
ghost use Rattle.std.specs.Prelude.{◌≡◌, ℕ, ◌+◌, ◌*◌, ◌<◌, ◌≤◌, ◌^◌, false, length, slice_index_or, ◌↔◌, true};
ghost use Rattle.arena.specs.MemberIndex.{member_index};
ghost use Rattle.prims.specs.Snap.{snap_at};
ghost use Rattle.prims.specs.Snaps.{IsAmong, finalizes, AreDistinct, ListsNode};

use crate::snap::Snap;
use crate::snaps::Snaps;
use arena::{Fresh, MemberIndex, NodeNo, Plan, Side};

/// The nodes that an SCX covers, as their snapshots found them, which of them it finalizes, and the
/// field of one of them that gets the fresh node.
#[derive(Clone, Copy, Debug)]
pub struct Update {
    /// A snapshot of each node that it covers.
    pub snaps: Snaps,
    /// How many nodes, which of them it finalizes, and where the field is.
    pub plan: Plan,
    /// What the field holds until then.
    pub old: NodeNo,
    /// The node that is put into the field.
    pub fresh: NodeNo,
}

impl Update {
    ghost use Rattle.arena.specs.ScxRecords.{plan_finalizes};
    ghost use Rattle.prims.specs.Scx.Known.{IsUpdateOver};
    ghost use Rattle.prims.specs.Updates.{ChangesField};

    /// An update of 1 to 4 snapshots of different nodes, one of them the field's node. It
    /// finalizes those that are in `finalize`.
    pub fn new(snaps: &[Snap], finalize: &[NodeNo], field: (NodeNo, Side), fresh: Fresh) -> Update
        requires fits { length snaps.now ≤ 4 }
        requires distinct { AreDistinct snaps.now }
        requires among { IsAmong snaps.now field.0.0 }
        ensures over { IsUpdateOver result }
        ensures field { ChangesField result snaps.now field }
        ensures removed { (j : ℕ) → j < length snaps.now →
            (plan_finalizes result.plan.0 j ≡ true) ↔ ListsNode finalize.now (snap_at snaps.now j).node.0 }
        ensures snaps { result.snaps ≡ snaps.now }
        ensures fresh { result.fresh.0 ≡ fresh }
    {
        let at = place_of(field.0, snaps);
        Update {
            snaps: Snaps::new(snaps),
            plan: Plan::new(snaps.len(), removed(snaps, finalize), at, field.1),
            old: snaps[at.index()].child(field.1),
            fresh: fresh.node(),
        }
    }
}

/// The place of a node among those of the snapshots.
fn place_of(node: NodeNo, snaps: &[Snap]) -> MemberIndex
    requires fits { length snaps.now ≤ 4 }
    requires among { IsAmong snaps.now node.0 }
    ensures within { member_index result < length snaps.now }
    ensures is { (snap_at snaps.now (member_index result)).node.0 ≡ node.0 }
{
    let at = snaps.iter().position(|s| s.node == node).unwrap_or(0);
    MemberIndex::new(at).unwrap_or(MemberIndex::First)
}

/// Which of the snapshots' nodes are to be finalized.
fn removed(snaps: &[Snap], finalize: &[NodeNo]) -> [bool; 4]
    ensures four { length result ≡ 4 }
    ensures bits { (j : ℕ) → j < 4 → slice_index_or result j false ≡ finalizes snaps.now finalize.now j }
{
    [
        is_finalized(snaps, finalize, 0),
        is_finalized(snaps, finalize, 1),
        is_finalized(snaps, finalize, 2),
        is_finalized(snaps, finalize, 3),
    ]
}

/// Whether there is a snapshot at the place, of a node that is to be finalized.
fn is_finalized(snaps: &[Snap], finalize: &[NodeNo], j: usize) -> bool
    ensures { result ≡ finalizes snaps.now finalize.now j }
{
    j < snaps.len() && finalize.contains(&snaps[j].node)
}
