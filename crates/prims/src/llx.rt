//! LLX of a node.
ghost use Rattle.std.specs.Prelude.{◌≡◌, ℕ, ◌+◌, ◌<◌, ◌≤◌, ◌⊎◌};
ghost use Rattle.prims.specs.Llx.Known.{Helps, IsToBlame, LlxHelps, Meets, LlxAsks, ReadsLeft, Declines, Differs, Snaps, Finalizes, LooksLast, LlxTurn, LlxIsReady, LlxWaits, LlxAnswers};
ghost use Rattle.prims.specs.Llx.Steps.{llx_left};

use crate::snap::Snap;
use arena::{
    ABORTED, Access, COMMITTED, IN_PROGRESS, Kind, Machine, NodeNo, NodeWord, ScxNo, ScxWord,
    Shape, Side, Step, Turn, Word,
};
use help::HelpRun;

/// What an LLX answers.
#[derive(Clone, Copy, Debug, PartialEq, Eq)]
pub enum Llx {
    /// The node's fields at one moment, at which it is not finalized.
    Snapshot(Snap),
    /// The node is finalized, by this SCX-record.
    Finalized { node: NodeNo, scx: ScxNo },
    /// Another client's SCX-record was in the way: it was in progress over the node within the
    /// call, and is finished now. The node was not final at the call's start.
    Fail { node: NodeNo, scx: ScxNo },
}

/// The step that an LLX has asked for, with what it has read.
#[derive(Clone, Copy, Debug, PartialEq, Eq)]
pub enum LlxAt {
    /// None yet.
    Start,
    /// The load of the mark.
    Marked,
    /// The load of the info; `marked` is what the first load of the mark has found.
    Info {
        marked: bool,
    },
    /// The load of the state of `scx`, which the info named.
    State {
        marked: bool,
        scx: ScxNo,
    },
    /// The second load of the mark; `state` is what the state of `scx` was.
    MarkedAgain {
        marked: bool,
        scx: ScxNo,
        state: u64,
    },
    /// The load of the left field.
    Left {
        marked: bool,
        scx: ScxNo,
    },
    /// The load of the right field.
    Right {
        marked: bool,
        scx: ScxNo,
        left: u64,
    },
    /// The second load of the info.
    InfoAgain {
        marked: bool,
        scx: ScxNo,
        left: u64,
        right: u64,
    },
    /// The second load of the state of `scx`, where no snapshot was to be had.
    StateAgain {
        marked: bool,
        scx: ScxNo,
    },
    /// A step of HELP of what it met.
    Help {
        marked: bool,
        help: HelpRun,
    },
    /// The third load of the info.
    LastInfo,
    /// The load of the state of what that named, which is to blame.
    LastState {
        scx: ScxNo,
    },
    /// A step of HELP of that one.
    LastHelp {
        scx: ScxNo,
        help: HelpRun,
    },
}

/// LLX of one node, step by step: a snapshot where its info names a finished SCX-record before and
/// after the fields are read; else it helps what it met. From Brown, Ellen and Ruppert (PODC 2013).
#[derive(Clone, Copy, Debug, PartialEq, Eq)]
pub struct LlxRun {
    /// The node that is looked at.
    pub node: NodeNo,
    /// Where the run is.
    pub at: LlxAt,
}

impl LlxRun {
    ghost use Rattle.arena.specs.History.{History};
    ghost use Rattle.arena.specs.Machines.{MatchTurn, Call};
    ghost use Rattle.help.specs.Help.Steps.{help_left};

    /// A run that has not begun. It asks for at most 64 steps.
    pub fn new(node: NodeNo) -> LlxRun
        ensures node { result.node ≡ node }
        ensures start { result.at ≡ LlxAt.Start }
        ensures bound { llx_left result.at ≤ 64 }
    {
        LlxRun {
            node,
            at: LlxAt::Start,
        }
    }

    /// Asks for a load, and is at its place.
    fn ask(&mut self, at: LlxAt, kind: Kind, word: Word) -> Turn<Llx>
        ensures { LlxAsks self.old self.new result at record { kind = kind; word = word; access = Access.Load } }
    {
        self.at = at;
        let access = Access::Load;
        Turn::Ask(Step { kind, word, access })
    }

    /// Loads a word of the node.
    fn load(&mut self, at: LlxAt, kind: Kind, part: NodeWord) -> Turn<Llx>
        ensures { LlxAsks self.old self.new result at record { kind = kind; word = Word.Node self.old.node part; access = Access.Load } }
    {
        self.ask(at, kind, Word::Node(self.node, part))
    }

    fn load_child(&mut self, at: LlxAt, side: Side) -> Turn<Llx>
        ensures { LlxAsks self.old self.new result at
            record { kind = Kind.LoadChild; word = Word.Node self.old.node (NodeWord.Child side); access = Access.Load } }
    {
        self.load(at, Kind::LoadChild, NodeWord::Child(side))
    }

    fn load_state(&mut self, at: LlxAt, scx: ScxNo) -> Turn<Llx>
        ensures { LlxAsks self.old self.new result at record { kind = Kind.LoadState; word = Word.Scx scx ScxWord.State; access = Access.Load } }
    {
        self.ask(at, Kind::LoadState, Word::Scx(scx, ScxWord::State))
    }

    /// Reads the info of the node, after its mark.
    fn load_info(&mut self, marked: bool) -> Turn<Llx>
        ensures { LlxAsks self.old self.new result (LlxAt.Info marked)
            record { kind = Kind.LoadInfo; word = Word.Node self.old.node NodeWord.Info; access = Access.Load } }
    {
        self.load(LlxAt::Info { marked }, Kind::LoadInfo, NodeWord::Info)
    }

    /// Reads the mark of the node once more, after the state of what its info names.
    fn load_mark_again(&mut self, marked: bool, scx: ScxNo, state: u64) -> Turn<Llx>
        ensures { LlxAsks self.old self.new result (LlxAt.MarkedAgain marked scx state)
            record { kind = Kind.LoadMarked; word = Word.Node self.old.node NodeWord.Marked; access = Access.Load } }
    {
        let at = LlxAt::MarkedAgain { marked, scx, state };
        self.load(at, Kind::LoadMarked, NodeWord::Marked)
    }

    /// Reads the right field, after the left one.
    fn load_right(&mut self, marked: bool, scx: ScxNo, left: u64) -> Turn<Llx>
        ensures { LlxAsks self.old self.new result (LlxAt.Right marked scx left)
            record { kind = Kind.LoadChild; word = Word.Node self.old.node (NodeWord.Child Side.Right); access = Access.Load } }
    {
        self.load_child(LlxAt::Right { marked, scx, left }, Side::Right)
    }

    /// Reads the fields if the SCX-record that the info names left the node in place.
    fn read_fields(&mut self, marked: bool, scx: ScxNo, state: u64, marked_again: bool) -> Turn<Llx>
        ensures turn { ReadsLeft self.old self.new result marked scx state marked_again ⊎
            Declines self.old self.new result marked scx state marked_again }
    {
        if state == ABORTED || state == COMMITTED && !marked_again {
            self.load_child(LlxAt::Left { marked, scx }, Side::Left)
        } else {
            self.load_state(LlxAt::StateAgain { marked, scx }, scx)
        }
    }

    /// Reads the info of the node once more, after its fields.
    fn load_info_again(&mut self, marked: bool, scx: ScxNo, left: u64, right: u64) -> Turn<Llx>
        ensures { LlxAsks self.old self.new result (LlxAt.InfoAgain marked scx left right)
            record { kind = Kind.LoadInfo; word = Word.Node self.old.node NodeWord.Info; access = Access.Load } }
    {
        let at = LlxAt::InfoAgain {
            marked,
            scx,
            left,
            right,
        };
        self.load(at, Kind::LoadInfo, NodeWord::Info)
    }

    /// Ends with the snapshot if the info is still what it was.
    fn compare_info(
        &mut self,
        marked: bool,
        scx: ScxNo,
        left: u64,
        right: u64,
        info: u64,
    ) -> Turn<Llx>
        ensures turn { Snaps self.new self.old result
            record { node = self.old.node; scx = scx; left = record { 0 = left }; right = record { 0 = right } } info
            ⊎ Differs self.old self.new result marked scx info }
    {
        if info == scx.0 {
            Turn::Done(Llx::Snapshot(Snap {
                node: self.node,
                scx,
                left: NodeNo(left),
                right: NodeNo(right),
            }))
        } else {
            self.load_state(LlxAt::StateAgain { marked, scx }, scx)
        }
    }

    /// Helps the SCX-record that was met, or continues at once if it is finished.
    fn meet<S: Shape>(&mut self, marked: bool, scx: ScxNo, state: u64) -> Turn<Llx>
        ensures node { self.new.node ≡ self.old.node }
        ensures turn { (c : Call) (h : History) →
            Meets S.allows c h self.old.node.0 marked scx.0 state → LlxTurn S.allows c h self.new result }
        ensures nearer { MatchTurn result (λ _. llx_left self.new.at < 46) (λ _. Unit {0}) }
    {
        if state == IN_PROGRESS {
            self.help_on::<S>(marked, HelpRun::new(scx), None)
        } else {
            self.helped(marked && state == COMMITTED, scx)
        }
    }

    fn help_on<S: Shape>(&mut self, marked: bool, mut help: HelpRun, got: Option<u64>) -> Turn<Llx>
        ensures node { self.new.node ≡ self.old.node }
        ensures turn { (c : Call) (h : History) → LlxHelps S.allows c h self.old.node.0 help got
            → Helps c h self.old.node.0 marked help.scx.0 → LlxTurn S.allows c h self.new result }
        ensures nearer { MatchTurn result (λ _. llx_left self.new.at < 24 + help_left help.at) (λ _. Unit {0}) }
    {
        let scx = help.scx;
        match Machine::<S>::next(&mut help, got) {
            Turn::Ask(step) => {
                self.at = LlxAt::Help { marked, help };
                Turn::Ask(step)
            }
            Turn::Done(committed) => self.helped(marked && committed, scx),
        }
    }

    /// Ends if the SCX-record that was met has finalized the node, else looks at the info once
    /// more.
    fn helped(&mut self, finalized: bool, scx: ScxNo) -> Turn<Llx>
        ensures turn { Finalizes self.new self.old result finalized scx ⊎ LooksLast self.old self.new result finalized }
    {
        if finalized {
            let node = self.node;
            Turn::Done(Llx::Finalized { node, scx })
        } else {
            self.load(LlxAt::LastInfo, Kind::LoadInfo, NodeWord::Info)
        }
    }

    /// Helps the SCX-record that the info names now, and fails.
    fn help_last<S: Shape>(&mut self, scx: ScxNo, mut help: HelpRun, got: Option<u64>) -> Turn<Llx>
        ensures node { self.new.node ≡ self.old.node }
        ensures turn { (c : Call) (h : History) → LlxHelps S.allows c h self.old.node.0 help got
            → IsToBlame c h self.old.node.0 scx.0 → help.scx ≡ scx → LlxTurn S.allows c h self.new result }
        ensures nearer { MatchTurn result (λ _. llx_left self.new.at < help_left help.at) (λ _. Unit {0}) }
    {
        match Machine::<S>::next(&mut help, got) {
            Turn::Ask(step) => {
                self.at = LlxAt::LastHelp { scx, help };
                Turn::Ask(step)
            }
            Turn::Done(_) => self.fail(scx),
        }
    }

    fn fail(&self, scx: ScxNo) -> Turn<Llx>
        ensures { result ≡ Turn.Done (Llx.Fail self.now.node scx) }
    {
        let node = self.node;
        Turn::Done(Llx::Fail { node, scx })
    }
}

impl<S: Shape> Machine<S> for LlxRun {
    type Answer = Llx;

    ghost use Rattle.prims.specs.Llx.Laws.{llx_keeps, llx_lawful, llx_made};

    ghost ready = { LlxIsReady S.allows };

    ghost waits = { LlxWaits S.allows };

    ghost answers = { LlxAnswers };

    ghost same = { λ old now. now.node ≡ old.node };

    ghost left = { λ m nodes. llx_left m.at };

    ghost fits = { λ m got nodes. Unit {0} };

    ghost asks_first = { λ _. Unit {0} };

    #[inline(always)]
    fn next(&mut self, got: Option<u64>) -> Turn<Llx> {
        let found = got.unwrap_or(0);
        let at = self.at;
        match at {
            LlxAt::Start => self.load(LlxAt::Marked, Kind::LoadMarked, NodeWord::Marked),
            LlxAt::Marked => self.load_info(found != 0),
            LlxAt::Info { marked } => {
                let scx = ScxNo(found);
                self.load_state(LlxAt::State { marked, scx }, scx)
            }
            LlxAt::State { marked, scx } => self.load_mark_again(marked, scx, found),
            LlxAt::MarkedAgain { marked, scx, state } => {
                self.read_fields(marked, scx, state, found != 0)
            }
            LlxAt::Left { marked, scx } => self.load_right(marked, scx, found),
            LlxAt::Right { marked, scx, left } => self.load_info_again(marked, scx, left, found),
            LlxAt::InfoAgain {
                marked,
                scx,
                left,
                right,
            } => self.compare_info(marked, scx, left, right, found),
            LlxAt::StateAgain { marked, scx } => self.meet::<S>(marked, scx, found),
            LlxAt::Help { marked, help } => self.help_on::<S>(marked, help, got),
            LlxAt::LastInfo => {
                let scx = ScxNo(found);
                self.load_state(LlxAt::LastState { scx }, scx)
            }
            LlxAt::LastState { scx } => {
                if found == IN_PROGRESS {
                    self.help_last::<S>(scx, HelpRun::new(scx), None)
                } else {
                    self.fail(scx)
                }
            }
            LlxAt::LastHelp { scx, help } => self.help_last::<S>(scx, help, got),
        }
    }

    ghost keeps = { llx_keeps S.allows };

    ghost lawful = { llx_lawful S.allows };

    ghost made = { llx_made S.allows };

    ghost told = { λ m c h got nodes run ready few. tt };
}
