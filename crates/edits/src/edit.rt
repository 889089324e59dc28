//! Edits of the tree, as data for the machine that makes them.
ghost use Rattle.std.specs.Prelude.{◌≡◌};
ghost use Rattle.edits.specs.Edits.{EditMeaning};
ghost use Rattle.edits.specs.Readings.{known_reads};
ghost use Rattle.edits.specs.Sound.{EditLaws};

use crate::piece::Piece;
use crate::reading::{Known, Reading};
use arena::{NodeNo, Plan, ScxNo};
use prims::Snap;
use template::{Found, Goal, Way};

/// What a try has to do at the leaf that its walk has found.
#[derive(Clone, Copy, Debug, PartialEq, Eq)]
pub struct Work {
    /// How many fresh nodes it needs, one to three; none where there is nothing to update.
    pub need: u32,
    /// Which nodes its SCX covers, which of them it finalizes, and which field it changes.
    pub plan: Plan,
}

impl Work {
    ghost use Rattle.std.specs.Prelude.{◌≡◌};
    ghost use Rattle.edits.specs.Pieces.{no_work};

    /// There is nothing to update.
    pub fn none() -> Work
        ensures { result ≡ no_work }
    {
        Work {
            need: 0,
            plan: Plan(0),
        }
    }
}

/// What an edit looks at next.
#[derive(Clone, Copy, Debug, PartialEq, Eq)]
pub enum Look {
    /// This node.
    At(NodeNo),
    /// None: the snapshot of this node, whose info named this SCX-record, shows another child than
    /// the walk has found.
    Differs { node: NodeNo, scx: ScxNo },
    /// None: all that the edit needs has been looked at.
    Enough,
}

/// Which of the fresh nodes of an edit.
#[derive(Clone, Copy, Debug, PartialEq, Eq)]
pub enum Nth {
    First,
    Second,
    Third,
}

impl Nth {
    ghost use Rattle.std.specs.Prelude.{◌≡◌};
    ghost use Rattle.edits.specs.Pieces.{nth_behind};

    /// The place after this one, where that many fresh nodes have one there.
    pub fn behind(self, need: u32) -> Option<Nth>
        ensures { result ≡ nth_behind need self }
    {
        match self {
            Nth::First if 1 < need => Some(Nth::Second),
            Nth::Second if 2 < need => Some(Nth::Third),
            _ => None,
        }
    }
}

/// The fresh nodes of an edit, in the order in which they were taken; only those that it needs are
/// meant.
#[derive(Clone, Copy, Debug, Default, PartialEq, Eq)]
pub struct Nodes {
    pub first: NodeNo,
    pub second: NodeNo,
    pub third: NodeNo,
}

impl Nodes {
    ghost use Rattle.std.specs.Prelude.{◌≡◌};
    ghost use Rattle.edits.specs.Pieces.{nth_node, top_of};

    /// The last of that many.
    pub fn last(&self, need: u32) -> NodeNo
        ensures { result.0 ≡ top_of need self.now }
    {
        if 2 < need {
            self.third
        } else if 1 < need {
            self.second
        } else {
            self.first
        }
    }

    /// One of them.
    pub fn at(&self, nth: Nth) -> NodeNo
        ensures { result ≡ nth_node self.now nth }
    {
        match nth {
            Nth::First => self.first,
            Nth::Second => self.second,
            Nth::Third => self.third,
        }
    }
}

/// An edit of the tree: what it looks at after its walk, what it reads, and what its fresh nodes
/// are to hold.
pub trait Edit {
    /// What each of its functions answers, and which edit of the map it is.
    ghost means: { EditMeaning Self };

    /// To which leaf it walks.
    fn goal(&self) -> Goal
        ensures { result ≡ means.goal self.now };

    /// And where.
    fn way(&self) -> Way
        ensures { result ≡ means.way self.now };

    /// Whether it looks at node 2, its guard, behind the load of the root's head, and covers that
    /// last.
    fn guard(&self) -> bool
        ensures { result ≡ means.guard self.now };

    /// What there is to do at this leaf.
    fn work(&self, found: &Found) -> Work
        ensures { result ≡ means.work self.now found.now };

    /// What it looks at next, once it has these snapshots.
    fn look(&self, found: &Found, snaps: &[Snap]) -> Look
        ensures { result ≡ means.looks self.now found.now snaps.now };

    /// The node whose settled words it reads once all is looked at, if it reads any, and what is
    /// known of that by then.
    fn reads(&self, found: &Found, snaps: &[Snap]) -> Option<(NodeNo, Known)>
        ensures { known_reads result ≡ means.reads self.now found.now snaps.now };

    /// What the fresh node of this place is to hold, once that is read.
    fn piece(&self, found: &Found, snaps: &[Snap], nodes: &Nodes, read: &Reading, nth: Nth) -> Piece
        ensures { result ≡ means.pieces self.now found.now snaps.now nodes.now read.now nth };

    /// How many nodes it looks at and how many steps its loads and fills take; and that what it
    /// looks at, reads and fills makes its edit.
    ghost laws: { EditLaws means };
}
