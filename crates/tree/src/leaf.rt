//! What edits of one leaf look at, read and change.
ghost use Rattle.std.specs.Prelude.{◌≡◌, Some};
ghost use Rattle.edits.specs.Readings.{known_reads};
ghost use Rattle.ordered_map.specs.TreeShape.{leaf_plan};
ghost use Rattle.ordered_map.specs.EditPlans.{above_plan};
ghost use Rattle.tree.specs.LeafEdit.{leaf_looks, leaf_reads};

use arena::{MemberIndex, NodeNo, Plan};
use edits::{Known, Look};
use prims::Snap;
use template::Found;

/// It covers the parent and the leaf, finalizes the leaf, and changes the parent's field.
#[inline(always)]
pub(crate) fn plan(found: &Found) -> Plan
    ensures { result.0 ≡ leaf_plan found.now.trail.side }
{
    let removed = [false, true, false, false];
    Plan::new(2, removed, MemberIndex::First, found.trail.side)
}

/// It covers the parent of the fork that was found, and node 2, finalizes none, and changes the
/// parent's field.
#[inline(always)]
pub(crate) fn plan_above(found: &Found) -> Plan
    ensures { result.0 ≡ above_plan found.now.trail.side }
{
    let removed = [false, false, false, false];
    Plan::new(2, removed, MemberIndex::First, found.trail.side)
}

/// The parent of what was found, and then this node, if that is still the child.
#[inline(always)]
pub(crate) fn look(found: &Found, next: NodeNo, snaps: &[Snap]) -> Look
    ensures { result ≡ leaf_looks found.now next snaps.now }
{
    match snaps {
        [] => Look::At(found.trail.parent),
        [parent] => {
            if parent.child(found.trail.side).0 == found.trail.node.0 {
                Look::At(next)
            } else {
                Look::Differs {
                    node: parent.node,
                    scx: parent.scx,
                }
            }
        }
        _ => Look::Enough,
    }
}

/// The leaf, whose head and count the walk has found.
#[inline(always)]
pub(crate) fn reads(found: &Found) -> (NodeNo, Known)
    ensures { known_reads (Some result) ≡ Some (leaf_reads found.now) }
{
    let (head, more) = (found.head, found.more);
    (found.trail.node, Known::Leaf { head, more })
}
