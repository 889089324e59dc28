//! Where in HELP a run is.
ghost use Rattle.std.specs.Prelude.{◌≡◌, ◌≤◌};

use arena::{MemberIndex, NodeNo, Plan, ScxNo};

/// The step that a run of HELP has asked for.
#[derive(Clone, Copy, Debug, PartialEq, Eq)]
pub enum HelpAt {
    /// None yet.
    Start,
    /// The load of the plan word.
    Plan,
    /// The load of the j-th `v` word.
    Member { j: MemberIndex },
    /// The load of the j-th `i` word.
    Seen { j: MemberIndex },
    /// The freeze of the j-th node, whose info is expected to name `seen`.
    Freeze { j: MemberIndex, seen: u64 },
    /// The load of `allfrozen`: the j-th node could not be frozen, since its info named `found`.
    AllFrozen { j: MemberIndex, found: u64 },
    /// The abort, where `allfrozen` was not set.
    Abort { j: MemberIndex, found: u64 },
    /// The store into `allfrozen`.
    SetFrozen,
    /// The mark of the j-th node.
    Mark { j: MemberIndex },
    /// The load of `new`.
    New,
    /// The load of `old`.
    Old { new: u64 },
    /// The exchange of the field.
    Update,
    /// The store of the state.
    Commit,
}

/// HELP of one SCX-record, step by step: freezes its nodes in order, sets `allfrozen`, marks those
/// to be finalized, changes the field and commits; where a node cannot be frozen and `allfrozen` is
/// not set, aborts. Answers whether the SCX-record is committed. From Brown, Ellen and Ruppert,
/// "Pragmatic primitives for non-blocking data structures" (PODC 2013).
#[derive(Clone, Copy, Debug, PartialEq, Eq)]
pub struct HelpRun {
    /// The SCX-record that the run completes.
    pub scx: ScxNo,
    /// Its plan word, once it is read.
    pub plan: Plan,
    /// The nodes that it covers, as far as they are read.
    pub members: [NodeNo; 4],
    /// Where the run is.
    pub at: HelpAt,
}

impl HelpRun {
    ghost use Rattle.help.specs.Help.Steps.{help_left};
    ghost use Rattle.help.specs.Help.Known.{blocked_at};
    ghost use Rattle.help.specs.declared.state.HelpAt.TheVariants.{Start};

    /// A run that has not begun. It asks for at most 27 steps.
    pub fn new(scx: ScxNo) -> HelpRun
        ensures scx { result.scx ≡ scx }
        ensures start { result.at ≡ Start }
        ensures bound { help_left result.at ≤ 27 }
    {
        HelpRun {
            scx,
            plan: Plan(0),
            members: [NodeNo(0); 4],
            at: HelpAt::Start,
        }
    }

    /// The node that could not be frozen and the SCX-record that its info names, once the run has
    /// answered false.
    pub fn blocked(&self) -> (NodeNo, ScxNo)
        ensures { result ≡ blocked_at self.now.members self.now.at }
    {
        match self.at {
            HelpAt::Abort { j, found } => (self.members[j.index()], ScxNo(found)),
            _ => (NodeNo(0), ScxNo(0)),
        }
    }
}
