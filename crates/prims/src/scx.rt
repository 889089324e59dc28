//! SCX of nodes.
ghost use Rattle.std.specs.Prelude.{◌≡◌, ℕ, ◌+◌, ◌<◌, ◌≤◌, ◌⊎◌};
ghost use Rattle.prims.specs.Scx.Known.{FillsAt, FillsNext, FillsLast, ScxHelps, ScxTurn, ScxIsReady, ScxWaits, ScxAnswers};
ghost use Rattle.prims.specs.Scx.Steps.{scx_left};

use crate::update::Update;
use arena::{Access, Kind, Machine, MemberIndex, NodeNo, ScxNo, ScxWord, Shape, Step, Turn, Word};
use help::HelpRun;

/// What an SCX answers.
#[derive(Clone, Copy, Debug, PartialEq, Eq)]
pub enum Scx {
    /// The update is made: at one moment of the call each node was as its snapshot found it, and
    /// the field took the fresh node. A later update may have changed the field since.
    Done,
    /// The update is not made and never will be: another SCX-record has reached this node since its
    /// snapshot. The node's info named that one, which may have changed the node or aborted.
    Lost { node: NodeNo, scx: ScxNo },
}

/// The step that an SCX has asked for.
#[derive(Clone, Copy, Debug, PartialEq, Eq)]
pub enum ScxAt {
    /// None yet.
    Start,
    /// The fill of the plan word.
    Plan,
    /// The fill of `new`.
    New,
    /// The fill of `old`.
    Old,
    /// The fill of the j-th `v` word.
    Member { j: MemberIndex },
    /// The fill of the j-th `i` word.
    Seen { j: MemberIndex },
    /// The fill of the call's number.
    Call,
    /// A step of HELP of the SCX-record.
    Help { help: HelpRun },
}

/// SCX, step by step: fills an SCX-record of its own and completes it by HELP. From Brown, Ellen
/// and Ruppert (PODC 2013).
#[derive(Clone, Copy, Debug)]
pub struct ScxRun {
    /// The SCX-record that it fills, of the caller's share.
    pub scx: ScxNo,
    /// The number of the call, as its maker counts.
    pub call: u64,
    /// What the SCX is to do.
    pub update: Update,
    /// Where the run is.
    pub at: ScxAt,
}

impl ScxRun {
    ghost use Rattle.arena.specs.MemberIndex.{member_index};
    ghost use Rattle.arena.specs.History.{History};
    ghost use Rattle.arena.specs.Machines.{MatchTurn, Call};
    ghost use Rattle.prims.specs.Snap.{snap_at};
    ghost use Rattle.help.specs.Help.Steps.{help_left};

    /// A run that has not begun, on the next SCX-record of the caller's share, in its call of this
    /// number. It asks for at most 39 steps.
    pub fn new(update: Update, scx: ScxNo, call: u64) -> ScxRun
        ensures scx { result.scx ≡ scx }
        ensures call { result.call ≡ call }
        ensures update { result.update ≡ update }
        ensures start { result.at ≡ ScxAt.Start }
        ensures bound { scx_left result.at ≤ 39 }
    {
        ScxRun {
            scx,
            call,
            update,
            at: ScxAt::Start,
        }
    }

    /// Fills a word of the SCX-record.
    fn fill(&mut self, at: ScxAt, part: ScxWord, value: u64) -> Turn<Scx>
        ensures stands { self.new ≡ record self.old { at = at } }
        ensures asked { result ≡
            Turn.Ask (record { kind = Kind.Fill; word = Word.Scx self.old.scx part; access = Access.Store value }) }
    {
        self.at = at;
        Turn::Ask(Step {
            kind: Kind::Fill,
            word: Word::Scx(self.scx, part),
            access: Access::Store(value),
        })
    }

    /// Fills the j-th node.
    fn fill_member(&mut self, j: MemberIndex) -> Turn<Scx>
        ensures { FillsAt self.old self.new result (ScxAt.Member j) }
    {
        let node = self.update.snaps.at(j).node.0;
        self.fill(ScxAt::Member { j }, ScxWord::Member(j.number()), node)
    }

    /// Fills what the info of the j-th node was.
    fn fill_seen(&mut self, j: MemberIndex) -> Turn<Scx>
        ensures { FillsAt self.old self.new result (ScxAt.Seen j) }
    {
        let seen = self.update.snaps.at(j).scx.0;
        self.fill(ScxAt::Seen { j }, ScxWord::Seen(j.number()), seen)
    }

    fn after_member(&mut self, j: MemberIndex) -> Turn<Scx>
        ensures turn { FillsNext self.old self.new result j (λ k. ScxAt.Member k) ⊎
            FillsLast self.old self.new result j (ScxAt.Seen MemberIndex.First) }
        ensures same { (self.new.scx ≡ self.old.scx) × (self.new.update ≡ self.old.update) × (self.new.call ≡ self.old.call) }
        ensures nearer { scx_left self.new.at < scx_left (ScxAt.Member j) }
    {
        match self.update.plan.member_behind(j) {
            Some(j) => self.fill_member(j),
            None => self.fill_seen(MemberIndex::First),
        }
    }

    fn after_seen(&mut self, j: MemberIndex) -> Turn<Scx>
        ensures turn { FillsNext self.old self.new result j (λ k. ScxAt.Seen k) ⊎
            FillsLast self.old self.new result j ScxAt.Call }
        ensures same { (self.new.scx ≡ self.old.scx) × (self.new.update ≡ self.old.update) × (self.new.call ≡ self.old.call) }
        ensures nearer { scx_left self.new.at < scx_left (ScxAt.Seen j) }
    {
        match self.update.plan.member_behind(j) {
            Some(j) => self.fill_seen(j),
            None => {
                let call = self.call;
                self.fill(ScxAt::Call, ScxWord::Call, call)
            }
        }
    }

    fn help_on<S: Shape>(&mut self, mut help: HelpRun, got: Option<u64>) -> Turn<Scx>
        ensures turn { (c : Call) (h : History) → ScxHelps S.allows c h self.old help got → ScxTurn S.allows c h self.new result }
        ensures same { (self.new.scx ≡ self.old.scx) × (self.new.update ≡ self.old.update) × (self.new.call ≡ self.old.call) }
        ensures nearer { MatchTurn result (λ _. scx_left self.new.at < help_left help.at) (λ _. Unit {0}) }
    {
        match Machine::<S>::next(&mut help, got) {
            Turn::Ask(step) => {
                self.at = ScxAt::Help { help };
                Turn::Ask(step)
            }
            Turn::Done(true) => Turn::Done(Scx::Done),
            Turn::Done(false) => {
                let (node, scx) = help.blocked();
                Turn::Done(Scx::Lost { node, scx })
            }
        }
    }
}

impl<S: Shape> Machine<S> for ScxRun {
    type Answer = Scx;

    ghost use Rattle.prims.specs.Scx.Laws.{scx_keeps, scx_lawful};
    ghost use Rattle.prims.specs.Laws.Scx.Made.{scx_made};

    ghost ready = { ScxIsReady S.allows };

    ghost waits = { ScxWaits S.allows };

    ghost answers = { ScxAnswers };

    ghost same = { λ old now. (now.scx ≡ old.scx) × (now.update ≡ old.update) × (now.call ≡ old.call) };

    ghost left = { λ m nodes. scx_left m.at };

    ghost fits = { λ m got nodes. Unit {0} };

    ghost asks_first = { λ _. Unit {0} };

    #[inline(always)]
    fn next(&mut self, got: Option<u64>) -> Turn<Scx> {
        let at = self.at;
        match at {
            ScxAt::Start => {
                let plan = self.update.plan.0;
                self.fill(ScxAt::Plan, ScxWord::Plan, plan)
            }
            ScxAt::Plan => {
                let new = self.update.fresh.0;
                self.fill(ScxAt::New, ScxWord::New, new)
            }
            ScxAt::New => {
                let old = self.update.old.0;
                self.fill(ScxAt::Old, ScxWord::Old, old)
            }
            ScxAt::Old => self.fill_member(MemberIndex::First),
            ScxAt::Member { j } => self.after_member(j),
            ScxAt::Seen { j } => self.after_seen(j),
            ScxAt::Call => self.help_on::<S>(HelpRun::new(self.scx), None),
            ScxAt::Help { help } => self.help_on::<S>(help, got),
        }
    }

    ghost keeps = { scx_keeps S.allows };

    ghost lawful = { scx_lawful S.allows };

    ghost made = { scx_made S.allows };

    ghost told = { λ m c h got nodes run ready few. tt };
}
