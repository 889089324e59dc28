//! VLX of nodes.
ghost use Rattle.std.specs.Prelude.{◌≡◌, ℕ, ◌+◌, ◌<◌, ◌≤◌, ◌-◌, ◌⊎◌, length};
ghost use Rattle.prims.specs.Vlx.Steps.{vlx_left};
ghost use Rattle.prims.specs.Vlx.Known.{AsksNext, IsThrough, VlxIsReady, VlxWaits, VlxAnswers};

use crate::snaps::SnapList;
use arena::{Access, Kind, Machine, NodeNo, NodeWord, ScxNo, Shape, Step, Turn, Word};

/// What a VLX answers.
#[derive(Clone, Copy, Debug, PartialEq, Eq)]
pub enum Vlx {
    /// Every node was as its snapshot says as the call began.
    Same,
    /// Another SCX-record has reached this node since its snapshot: the node's info names it. It
    /// may have changed the node, be about to, or have aborted.
    Changed { node: NodeNo, scx: ScxNo },
}

/// VLX, step by step: looks at the info of each node, up to the first that is not what its snapshot
/// found. From Brown, Ellen and Ruppert (PODC 2013).
#[derive(Debug, Drop)]
pub struct VlxRun<L> {
    /// The snapshots, in the order in which their nodes are looked at.
    pub snaps: L,
    /// How many infos it has asked for.
    pub asked: usize,
}

impl<L: SnapList> VlxRun<L> {
    ghost use Rattle.arena.specs.Machines.{MatchTurn};

    /// A run that has not begun, over some snapshots. It asks for a step a snapshot at most.
    pub fn new(snaps: L) -> VlxRun<L>
        ensures snaps { result.snaps ≡ snaps }
        ensures asked { result.asked ≡ 0 }
    {
        VlxRun { snaps, asked: 0 }
    }

    /// Asks for the info of the next node.
    fn ask_next(&mut self) -> Turn<Vlx>
        ensures turn { AsksNext (L.list self.old.snaps) self.old.asked self.new.asked result
            ⊎ IsThrough (L.list self.old.snaps) self.old.asked self.new.asked result }
        ensures same { self.new.snaps ≡ self.old.snaps }
        ensures nearer { MatchTurn result
            (λ _. vlx_left (L.list self.old.snaps) self.new.asked < vlx_left (L.list self.old.snaps) self.old.asked) (λ _. Unit {0}) }
    {
        if self.asked >= self.snaps.len() {
            return Turn::Done(Vlx::Same);
        }
        let info = Word::Node(self.snaps.get(self.asked).node, NodeWord::Info);
        self.asked += 1;
        Turn::Ask(Step {
            kind: Kind::LoadInfo,
            word: info,
            access: Access::Load,
        })
    }
}

impl<S: Shape, L: SnapList> Machine<S> for VlxRun<L> {
    type Answer = Vlx;

    ghost use Rattle.prims.specs.Vlx.Laws.{vlx_keeps, vlx_lawful, vlx_made};

    ghost ready = { λ m. VlxIsReady (L.list m.snaps) m.asked };

    ghost waits = { λ m. VlxWaits (L.list m.snaps) m.asked };

    ghost answers = { λ m. VlxAnswers (L.list m.snaps) };

    ghost same = { λ old now. now.snaps ≡ old.snaps };

    ghost left = { λ m nodes. vlx_left (L.list m.snaps) m.asked };

    ghost fits = { λ m got nodes. Unit {0} };

    ghost asks_first = { λ _. Unit {0} };

    fn next(&mut self, got: Option<u64>) -> Turn<Vlx> {
        let (Some(found), Some(last)) = (got, self.asked.checked_sub(1)) else {
            return self.ask_next();
        };
        let snap = self.snaps.get(last);
        if snap.scx.0 == found {
            return self.ask_next();
        }
        let node = snap.node;
        let scx = ScxNo(found);
        Turn::Done(Vlx::Changed { node, scx })
    }

    ghost keeps = { λ m. vlx_keeps S.allows (L.list m.snaps) m.asked };

    ghost lawful = { λ m. vlx_lawful S.allows (L.list m.snaps) m.asked };

    ghost made = { λ m. vlx_made S.allows (L.list m.snaps) m.asked };

    ghost told = { λ m c h got nodes run ready few. tt };
}
