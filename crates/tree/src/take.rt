//! What takes a key out.
ghost use Rattle.std.specs.Prelude.{◌≡◌};
ghost use Rattle.tree.specs.Take.Means.{take_means, past, join_looks, copied_pairs, sibling_copy, take_plan};

use crate::leaf;
use arena::{Head, MemberIndex, NodeNo, Plan, Side};
use edits::{Edit, Known, Look, Nodes, Nth, Pairs, Piece, Reading, Work};
use ordered_map::Pair;
use prims::Snap;
use template::{Found, Goal, Way};

/// Takes a key away.
#[derive(Clone, Copy, Debug, PartialEq, Eq)]
pub(crate) struct TakePair {
    pub key: u64,
    /// Whether it is in a trie.
    pub trie: bool,
}

impl TakePair {
    ghost use Rattle.prims.specs.Snap.{snap_at};
    ghost use Rattle.ordered_map.specs.TreeShape.{sibling_place};

    /// That of an edit of the leaf; or it covers the fork above the parent, the parent and both its
    /// children, finalizes all but the first, and changes the first one's field.
    #[inline(always)]
    fn plan(found: &Found) -> Plan
        ensures { result.0 ≡ take_plan found.now }
    {
        if 0 < found.more {
            return leaf::plan(found);
        }
        let removed = [false, true, true, true];
        Plan::new(4, removed, MemberIndex::First, found.trail.grand_side)
    }

    /// Looks at the next node, where the snapshot still shows the child that the walk has found.
    pub(crate) fn past(snap: &Snap, side: Side, child: NodeNo, next: NodeNo) -> Look
        ensures { result ≡ past snap.now side child next }
    {
        if snap.child(side).0 == child.0 {
            Look::At(next)
        } else {
            Look::Differs {
                node: snap.node,
                scx: snap.scx,
            }
        }
    }

    /// The snapshot of the leaf's sibling.
    fn sibling(found: &Found, snaps: &[Snap]) -> Snap
        ensures { result ≡ snap_at snaps.now (sibling_place found.now.trail.side) }
    {
        let place = match found.trail.side {
            Side::Left => 3,
            Side::Right => 2,
        };
        match snaps.get(place) {
            Some(snap) => *snap,
            None => Snap::default(),
        }
    }

    /// The fork above the parent; the parent, if that is still its child; and both children of the
    /// parent, if the leaf is still one.
    #[inline(always)]
    fn look_to_join(found: &Found, snaps: &[Snap]) -> Look
        ensures { result ≡ join_looks found.now snaps.now }
    {
        let trail = found.trail;
        match snaps {
            [] => Look::At(trail.grand),
            [grand] => TakePair::past(grand, trail.grand_side, trail.parent, trail.parent),
            [_, parent] => TakePair::past(parent, trail.side, trail.node, parent.left),
            [_, parent, _] => Look::At(parent.right),
            _ => Look::Enough,
        }
    }

    /// The pairs of a copy of a leaf of this class; above all keys it has its own key, 0.
    #[inline(always)]
    fn copied(class: u8, read: &Reading) -> Pairs
        ensures { result ≡ copied_pairs class read.now }
    {
        if class == 0 {
            read.pairs
        } else {
            Pairs::one(Pair { key: 0, value: 0 })
        }
    }

    /// A copy of the sibling, as it was read and as its snapshot shows it.
    #[inline(always)]
    pub(crate) fn copy(sibling: &Snap, read: &Reading) -> Piece
        ensures { result ≡ sibling_copy sibling.now read.now }
    {
        let Head { level, leaf, class } = read.head.unwrap_or(Head::of(0));
        if leaf {
            Piece::Leaf {
                level,
                class,
                pairs: TakePair::copied(class, read),
            }
        } else {
            Piece::Fork {
                level,
                class,
                key: read.key.unwrap_or(0),
                left: sibling.left,
                right: sibling.right,
            }
        }
    }
}

impl Edit for TakePair {
    ghost use Rattle.tree.specs.Laws.Take.Sound.{take_laws};

    ghost means = { take_means };

    fn goal(&self) -> Goal {
        Goal::Key(self.key)
    }

    fn way(&self) -> Way {
        if self.trie { Way::InTrie } else { Way::InTree }
    }

    fn guard(&self) -> bool {
        false
    }

    #[inline(always)]
    fn work(&self, found: &Found) -> Work {
        match found.value {
            Some(_) => Work {
                need: 1,
                plan: TakePair::plan(found),
            },
            None => Work::none(),
        }
    }

    #[inline(always)]
    fn look(&self, found: &Found, snaps: &[Snap]) -> Look {
        if 0 < found.more {
            leaf::look(found, found.trail.node, snaps)
        } else {
            TakePair::look_to_join(found, snaps)
        }
    }

    #[inline(always)]
    fn reads(&self, found: &Found, snaps: &[Snap]) -> Option<(NodeNo, Known)> {
        if 0 < found.more {
            Some(leaf::reads(found))
        } else {
            Some((TakePair::sibling(found, snaps).node, Known::Nothing))
        }
    }

    #[inline(always)]
    fn piece(
        &self,
        found: &Found,
        snaps: &[Snap],
        nodes: &Nodes,
        read: &Reading,
        nth: Nth,
    ) -> Piece {
        if 0 < found.more {
            let pairs = read.pairs;
            Piece::Leaf {
                level: found.head.level,
                class: 0,
                pairs: pairs.delete(self.key),
            }
        } else {
            TakePair::copy(&TakePair::sibling(found, snaps), read)
        }
    }

    ghost laws = { take_laws };
}
