//! SCX with a fresh cell.
ghost use Rattle.std.specs.Prelude.{◌≡◌, ℕ, ◌+◌, ◌<◌, ◌≤◌};
ghost use Rattle.prims.specs.Put.Steps.{put_left};

use crate::scx::{Scx, ScxRun};
use arena::{Access, Kind, Machine, NodeWord, SettledPart, Shape, Slot, Step, Turn, Word};

/// The step that a run of SCX with a fresh cell has asked for.
#[derive(Clone, Copy, Debug, PartialEq, Eq)]
pub enum PutAt {
    /// None yet.
    Start,
    /// The fill of the fresh cell's value.
    Fill,
    /// A step of the SCX.
    Scx,
}

/// Fills the value of the fresh cell of an SCX, and then runs it.
#[derive(Clone, Copy, Debug)]
pub struct PutRun {
    /// What the fresh cell is to hold.
    pub value: u64,
    /// The SCX that puts the cell into its field.
    pub scx: ScxRun,
    /// Where the run is.
    pub at: PutAt,
}

impl PutRun {
    /// A run that has not begun, over an SCX that has not begun. It asks for at most 40 steps.
    pub fn new(value: u64, scx: ScxRun) -> PutRun
        requires { scx_left scx.at ≤ 39 }
        ensures value { result.value ≡ value }
        ensures scx { result.scx ≡ scx }
        ensures start { result.at ≡ PutAt.Start }
        ensures bound { put_left result ≤ 40 }
    {
        PutRun {
            value,
            scx,
            at: PutAt::Start,
        }
    }

    ghost use Rattle.prims.specs.Scx.Steps.{scx_left};
}

impl<S: Shape> Machine<S> for PutRun {
    type Answer = Scx;

    ghost use Rattle.prims.specs.Put.Known.{PutIsReady, PutWaits, PutAnswers};
    ghost use Rattle.prims.specs.Put.Laws.{put_keeps, put_lawful, put_made};

    ghost ready = { PutIsReady S.allows };

    ghost waits = { PutWaits S.allows };

    ghost answers = { PutAnswers };

    ghost same = { λ old now. (now.scx.scx ≡ old.scx.scx) × (now.scx.update ≡ old.scx.update) × (now.scx.call ≡ old.scx.call) × (now.value ≡ old.value) };

    ghost left = { λ m nodes. put_left m };

    ghost fits = { λ m got nodes. Unit {0} };

    ghost asks_first = { λ _. Unit {0} };

    fn next(&mut self, got: Option<u64>) -> Turn<Scx> {
        match self.at {
            PutAt::Start => {
                self.at = PutAt::Fill;
                Turn::Ask(Step {
                    kind: Kind::Fill,
                    word: Word::Node(
                        self.scx.update.fresh,
                        NodeWord::Settled(SettledPart::Value(Slot::First)),
                    ),
                    access: Access::Store(self.value),
                })
            }
            PutAt::Fill => {
                self.at = PutAt::Scx;
                Machine::<S>::next(&mut self.scx, None)
            }
            PutAt::Scx => Machine::<S>::next(&mut self.scx, got),
        }
    }

    ghost keeps = { put_keeps S.allows };

    ghost lawful = { put_lawful S.allows };

    ghost made = { put_made S.allows };

    ghost told = { λ m c h got nodes run ready few. tt };
}
