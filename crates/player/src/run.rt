//! The machine of a call.
ghost use Rattle.std.specs.Prelude.{◌≡◌, ◌<◌, ◌≤◌, ℕ, None, length};
ghost use Rattle.arena.specs.History.{History};
ghost use Rattle.arena.specs.Machines.{Call, IsRun, MatchTurn};
ghost use Rattle.arena.specs.TakenNodes.{taken_nodes};
ghost use Rattle.player.specs.Allowed.{PlayedAllows};
ghost use Rattle.player.specs.RunKnown.{RunIsReady, RunAsksFirst, RunWaits, RunAnswers, IsSameMachine, run_mode};
ghost use Rattle.player.specs.RunSteps.{run_left};

use arena::{Machine, Share, Turn};
use dict::{Dict, DictRun, MapRun};
use edits::UpdateAt;
use ordered_map::Reply;
use prims::{Cells, Llx, LlxRun, PutRun, Scx, Snaps, Vlx, VlxRun};
use record::Answer;

/// A call that has begun. A `set` is first an LLX and then an SCX.
#[derive(Drop)]
pub(crate) enum Run {
    Llx(LlxRun),
    Scx(PutRun),
    Vlx(VlxRun<Snaps>),
    /// It has the client's share, until it has answered.
    Map(DictRun<u64, u128>),
}

/// What a machine answered.
#[derive(Drop)]
pub(crate) enum Ended {
    Llx(Llx),
    Scx(Scx),
    Vlx(Vlx),
    Map(Reply<u64, u128>),
}

impl Ended {
    ghost use Rattle.std.specs.Prelude.{◌≡◌};
    ghost use Rattle.player.specs.RunKnown.{answer_of};

    /// What the record says of it.
    pub(crate) fn answer(self) -> Answer
        ensures { result ≡ answer_of self }
    {
        match self {
            Ended::Llx(Llx::Snapshot(snap)) => Answer::Snapshot {
                left: snap.left,
                right: snap.right,
            },
            Ended::Llx(Llx::Finalized { node: _, scx: _ }) => Answer::Finalized,
            Ended::Llx(Llx::Fail { node, scx }) => Answer::Fail { node, scx },
            Ended::Scx(Scx::Done) => Answer::Done,
            Ended::Scx(Scx::Lost { node, scx }) => Answer::Lost { node, scx },
            Ended::Vlx(Vlx::Same) => Answer::Same,
            Ended::Vlx(Vlx::Changed { node, scx }) => Answer::Changed { node, scx },
            Ended::Map(reply) => Answer::Map(reply),
        }
    }
}

impl Run {
    ghost use Rattle.std.specs.Prelude.{◌≡◌};
    ghost use Rattle.std.specs.Option.{option_map};
    ghost use Rattle.ordered_map.specs.OrderedMap.{edit_key, value_left};
    ghost use Rattle.player.specs.RunKnown.{edit_in_hand, share_in};

    /// Continues with what the last step found, as the machine inside, in a run of its mode. It
    /// asks for a step before it answers.
    pub(crate) fn next(&mut self, got: Option<u64>) -> Turn<Ended>
        ensures turn { (c : Call) (h : History) → c.layout.mode ≡ run_mode self.old → IsRun PlayedAllows c.layout h →
            RunIsReady self.old c h got → MatchTurn result (RunWaits self.new c h) (RunAnswers self.new c h) }
        ensures begins { got ≡ None → RunAsksFirst self.old → (c : Call) (h : History) →
            RunIsReady self.old c h None → MatchTurn result (λ _. Unit {0}) (λ _. ⊥) }
        ensures same { IsSameMachine self.old self.new }
        ensures nearer { (c : Call) (h : History) (nodes : ℕ) → c.layout.mode ≡ run_mode self.old →
            IsRun PlayedAllows c.layout h → RunIsReady self.old c h got → length (taken_nodes h) ≤ nodes →
            MatchTurn result (λ _. run_left self.new nodes < run_left self.old nodes) (λ _. Unit {0}) }
    {
        match self {
            Run::Llx(run) => match Machine::<Cells>::next(run, got) {
                Turn::Ask(step) => Turn::Ask(step),
                Turn::Done(llx) => Turn::Done(Ended::Llx(llx)),
            },
            Run::Scx(run) => match Machine::<Cells>::next(run, got) {
                Turn::Ask(step) => Turn::Ask(step),
                Turn::Done(scx) => Turn::Done(Ended::Scx(scx)),
            },
            Run::Vlx(run) => match Machine::<Cells>::next(run, got) {
                Turn::Ask(step) => Turn::Ask(step),
                Turn::Done(vlx) => Turn::Done(Ended::Vlx(vlx)),
            },
            Run::Map(run) => match Machine::<Dict<u64, u128>>::next(run, got) {
                Turn::Ask(step) => Turn::Ask(step),
                Turn::Done(reply) => Turn::Done(Ended::Map(reply)),
            },
        }
    }

    /// The key that a call of the map changes if its SCX wins, and what it leaves there; none while
    /// it has no SCX.
    pub(crate) fn change(&self) -> Option<(u64, Option<u128>)>
        ensures { result ≡ option_map (λ e. (edit_key e, value_left e)) (edit_in_hand self.now) }
    {
        let Run::Map(run) = self else {
            return None;
        };
        match &run.run {
            MapRun::Edit(run) => match &run.at {
                UpdateAt::Scx { found, scx: _ } => Some(run.edit.change(found)),
                _ => None,
            },
            _ => None,
        }
    }

    /// Gives back the share, if it has that.
    pub(crate) fn into_share(self) -> Option<Share>
        ensures { result ≡ share_in self }
    {
        match self {
            Run::Map(run) => Some(run.into_share()),
            Run::Llx(_) | Run::Scx(_) | Run::Vlx(_) => None,
        }
    }
}
