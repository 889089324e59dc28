//! The machine of an edit of the tree.
ghost use Rattle.std.specs.Prelude.{◌≡◌, ℕ, ◌+◌, ◌*◌, ◌-◌, ◌<◌, ◌≤◌, length};
ghost use Rattle.arena.specs.Machines.{MatchTurn};
ghost use Rattle.edits.specs.Steps.{try_left, most_works, update_left, IsNearer};

use crate::edit::{Edit, Nodes, Nth, Work};
use crate::piece::Piece;
use crate::reading::Reading;
use arena::{
    Access, Full, Head, Kind, Machine, NodeNo, NodeWord, ScxNo, ScxWord, SettledPart, Share, Step,
    Turn, Word,
};
use arrayvec::ArrayVec;
use help::HelpRun;
use prims::{Llx, LlxAt, LlxRun, Scx, ScxAt, ScxRun, Snap};
use template::{Found, Trail, Tree, WalkAt, WalkRun};

/// What an update answers.
#[derive(Clone, Copy, Debug, PartialEq, Eq)]
pub enum Updated {
    /// It is made, or there was nothing to make; the walk was for this key, and `value` is what
    /// that had, if it had one.
    Done { key: u64, value: Option<u128> },
    /// All tries were lost, the last to this SCX-record over this node.
    Contended { node: NodeNo, scx: ScxNo },
    /// The share has too little left for the next try.
    Full(Full),
}

impl Updated {
    ghost use Rattle.std.specs.Prelude.{◌≡◌};
    ghost use Rattle.edits.specs.Known.{done_at};

    /// What an update answers that is done at this leaf.
    #[inline(always)]
    pub fn at(found: &Found) -> Updated
        ensures { result ≡ done_at found.now }
    {
        Updated::Done {
            key: found.key,
            value: found.value,
        }
    }
}

/// Why a try ends before its SCX.
#[derive(Clone, Copy, Debug, PartialEq, Eq)]
pub enum Stop {
    /// There is nothing to update.
    Nothing,
    /// It is lost to this SCX-record over this node.
    Lost { node: NodeNo, scx: ScxNo },
    /// The share has too little left for it.
    Full(Full),
}

/// What a try does next, once its leaf is found.
#[derive(Clone, Copy, Debug, PartialEq, Eq)]
pub enum Next {
    /// It looks at this node.
    Look(NodeNo),
    /// It looks again at the state of an SCX-record that is in the way of its look at this node,
    /// which was marked or not.
    Wait {
        node: NodeNo,
        marked: bool,
        scx: ScxNo,
    },
    /// It reads a settled word of this node.
    Read {
        node: NodeNo,
        part: SettledPart,
    },
    /// It fills the fresh node of this place, from its head on.
    Fill(Nth),
    /// It makes its SCX, with this SCX-record.
    Change(ScxNo),
}

/// The step that an update has asked for.
#[derive(Debug, Drop)]
pub enum UpdateAt {
    /// None yet.
    Start,
    /// A step of its walk.
    Walk {
        walk: WalkRun,
    },
    /// A step of the LLX of node 2, its guard, before the walk continues with the root's head,
    /// which is this.
    Guard {
        walk: WalkRun,
        head: u64,
        llx: LlxRun,
    },
    /// A step of an LLX.
    Look {
        found: Found,
        llx: LlxRun,
    },
    /// The load of a settled word of the node that is read.
    Read {
        found: Found,
        node: NodeNo,
        part: SettledPart,
    },
    /// The fill of a word of the fresh node of this place.
    Fill {
        found: Found,
        nth: Nth,
        part: NodeWord,
    },
    /// A step of its SCX.
    Scx {
        found: Found,
        scx: ScxRun,
    },
}

/// An update of the tree, step by step: a walk, LLXs of the nodes that the edit names, loads of
/// what it reads of one of them, fills of fresh nodes, an SCX; and again where such a try is lost,
/// as long as tries are left. From Brown, Ellen and Ruppert (PPoPP 2014). The machine's place is an
/// `UpdateAt`; whoever makes its steps inline keeps no place, `()`, which saves the writing of
/// one.
#[derive(Debug, Drop)]
pub struct UpdateRun<E, A> {
    /// What is to be done.
    pub edit: E,
    /// The nodes and SCX-records that it may take.
    pub share: Share,
    /// What this try has to do at the leaf that it has found.
    pub work: Work,
    /// What the LLX of its guard has found in this try, if it has one.
    pub guard: Snap,
    /// What the LLXs of this try have found; with its SCX that of its guard is the last.
    pub snaps: ArrayVec<Snap, 4>,
    /// The fresh nodes of this try.
    pub nodes: Nodes,
    /// What was read for them.
    pub read: Reading,
    /// How many tries are left after this one.
    pub tries: u32,
    /// How many it has in all.
    pub limit: u32,
    /// The number of the call, as its maker counts.
    pub call: u64,
    /// Where the run is.
    pub at: A,
}

/// The same leaf, rebuilt from its parts. Copied as a whole it would take the bytes between them
/// along, and a walk would have to write those at each fork.
#[inline(always)]
pub fn copied(found: &Found) -> Found
    ensures { result ≡ found.now }
{
    Found {
        trail: Trail {
            grand: found.trail.grand,
            grand_side: found.trail.grand_side,
            parent: found.trail.parent,
            side: found.trail.side,
            node: found.trail.node,
        },
        head: Head {
            level: found.head.level,
            leaf: found.head.leaf,
            class: found.head.class,
        },
        more: found.more,
        key: found.key,
        value: match found.value {
            Some(value) => Some(value),
            None => None,
        },
    }
}

impl<E: Edit + Drop> UpdateRun<E, UpdateAt> {
    ghost use Rattle.std.specs.Prelude.{◌≡◌, ℕ, ◌≤◌, ◌*◌, ◌+◌, ◌-◌, length};
    ghost use Rattle.template.specs.Walk.Steps.{WalkFits, steps_left};
    ghost use Rattle.prims.specs.Llx.Steps.{llx_left};
    ghost use Rattle.prims.specs.Scx.Steps.{scx_left};
    ghost use Rattle.std.specs.Prelude.{None, Some, Ok};
    ghost use Rattle.template.specs.Walk.Known.{WalkIsTold};
    ghost use Rattle.template.specs.Trails.{IsOwnMoment};
    ghost use Rattle.edits.specs.Known.{Guarded, Guards, Walks, WalksGuarded, IsFilledUpTo, UpdateIsReady};
    ghost use Rattle.edits.specs.Steps.{UpdateFits, fills_left, is_for_guard, looks_from, looks_on, pieces_now};
    ghost use Rattle.arena.specs.History.{History};
    ghost use Rattle.arena.specs.Machines.{Call, IsRun, begun_at};
    ghost use Rattle.prims.specs.Llx.Known.{LlxIsReady};
    ghost use Rattle.prims.specs.Scx.Known.{ScxIsReady};
    ghost use Rattle.ordered_map.specs.TreeShape.{TreeAllows};
    ghost use Rattle.edits.specs.Known.{MayBeginTry, HasLostTry, IsUntouched, Looks, Scxs, UpdateTurn};
    ghost use Rattle.edits.specs.Steps.{HasAsked, MaySpend, IsSpending, node_tries, scx_tries};
    ghost use Rattle.edits.specs.Next.{IsSameUpdate, guard_begun, guard_step, placed, next_step, fills, update_of, MayStop, UpdateGoesOn, ComesNearer, HasSpentForNext};
    ghost use Rattle.arena.specs.Share.{Remaining};
    ghost use Rattle.edits.specs.Tries.{MayTry, IsTry};

    /// Begins a try, with the load of the root's head.
    fn begin_walk(&mut self) -> Turn<Updated>
        ensures turn { (c : Call) (h : History) → IsRun TreeAllows c.layout h → MayBeginTry E.means self.old c h
            → MayTry c h h self.old.limit self.old.tries → IsUntouched c h self.old.share
            → UpdateTurn E.means c h self.new result }
        ensures begins { MatchTurn result (λ _. Unit {0}) (λ _. ⊥) }
        ensures same { IsSameUpdate self.old self.new }
        ensures nearer { (nodes : ℕ) → IsNearer E.means self.new nodes result
            (self.old.tries * try_left E.means self.old.edit nodes + try_left E.means self.old.edit nodes) }
        ensures spends { IsSpending E.means result self.old.share self.new (self.old.tries + 1) (self.old.tries + 1) }
        ensures tries { self.new.tries ≡ self.old.tries }
    {
        let mut walk = WalkRun::by(self.edit.way(), self.edit.goal());
        walk.at = WalkAt::Root;
        self.at = UpdateAt::Walk { walk };
        Turn::Ask(Step {
            kind: Kind::LoadSettled,
            word: Word::Node(NodeNo(0), NodeWord::Settled(SettledPart::Head)),
            access: Access::Load,
        })
    }

    /// Ends a try that is lost to this SCX-record over this node, and begins the next if there is
    /// one.
    #[cold]
    fn lost(&mut self, node: NodeNo, scx: ScxNo) -> Turn<Updated>
        ensures turn { (c : Call) (h : History) → IsRun TreeAllows c.layout h → MayBeginTry E.means self.old c h
            → HasLostTry E.means self.old.edit c h self.old.limit self.old.tries node.0 scx.0
            → UpdateTurn E.means c h self.new result }
        ensures same { IsSameUpdate self.old self.new }
        ensures gives_up { MatchTurn result (λ _. Unit {0}) (λ _. self.old.tries ≡ 0) }
        ensures nearer { (nodes : ℕ) →
            IsNearer E.means self.new nodes result (self.old.tries * try_left E.means self.old.edit nodes) }
        ensures spends { IsSpending E.means result self.old.share self.new self.old.tries self.old.tries }
        ensures tries { (self.old.tries ≤ self.new.tries + 1) × (self.new.tries ≤ self.old.tries) }
    {
        if self.tries == 0 {
            return Turn::Done(Updated::Contended { node, scx });
        }
        self.tries -= 1;
        self.begin_walk()
    }

    /// Whether it continues with its guard behind this step of its walk.
    fn begins_guard(&self, walk: &WalkRun) -> bool
        ensures { result ≡ is_for_guard (E.means.guard self.now.edit) walk.now.at }
    {
        match walk.at {
            WalkAt::Root => self.edit.guard(),
            _ => false,
        }
    }

    /// Continues with what the last step of the walk found: behind the root's head with its guard,
    /// if it has one.
    fn walked(&mut self, walk: WalkRun, got: Option<u64>) -> Turn<Updated>
        ensures turn { (c : Call) (b h : History) (v : ℕ) → got ≡ Some v → IsRun TreeAllows c.layout h
            → IsTry c b h self.old.limit self.old.tries → IsUntouched c b self.old.share
            → Walks E.means self.old (begun_at c b) h walk.way walk.goal → WalkIsTold walk (begun_at c b) h v
            → WalksGuarded E.means self.old (begun_at c b) h walk.at (λ (k : Call). WalkIsTold walk k h v)
            → UpdateTurn E.means c h self.new result }
        ensures same { IsSameUpdate self.old self.new }
        ensures nearer { (nodes : ℕ) → WalkFits walk got nodes
            → IsNearer E.means self.new nodes result
            (self.old.tries * try_left E.means self.old.edit nodes +
            (steps_left walk nodes + (64 * looks_from (E.means.guard self.old.edit) walk.at (E.means.most_looks self.old.edit)
            + most_works E.means self.old.edit + 39))) }
        ensures spends { IsSpending E.means result self.old.share self.new (self.old.tries + 1) (self.old.tries + 1) }
        ensures tries { (self.old.tries ≤ self.new.tries + 1) × (self.new.tries ≤ self.old.tries) }
    {
        if self.begins_guard(&walk) {
            self.begin_guard(walk, got.unwrap_or(0))
        } else {
            self.walk_on(walk, got)
        }
    }

    /// Begins the LLX of its guard, where the load of the root's head has found this.
    fn begin_guard(&mut self, walk: WalkRun, head: u64) -> Turn<Updated>
        ensures place { self.new ≡ record self.old { at = UpdateAt.Guard walk head guard_begun } }
        ensures asks { result ≡ Turn.Ask guard_step }
    {
        let (node, at) = (NodeNo(2), LlxAt::Marked);
        let llx = LlxRun { node, at };
        self.at = UpdateAt::Guard { walk, head, llx };
        Turn::Ask(Step {
            kind: Kind::LoadMarked,
            word: Word::Node(node, NodeWord::Marked),
            access: Access::Load,
        })
    }

    /// Continues with what the last step of that LLX found; behind it with the walk.
    fn guard_on(
        &mut self,
        walk: WalkRun,
        head: u64,
        mut llx: LlxRun,
        got: Option<u64>,
    ) -> Turn<Updated>
        ensures turn { (c : Call) (b begin h : History) → IsRun TreeAllows c.layout h → IsTry c b h self.old.limit self.old.tries
            → IsUntouched c b self.old.share → Guards E.means self.old (begun_at c b) h walk head llx begin
            → LlxIsReady TreeAllows llx (begun_at (begun_at c b) begin) h got
            → IsOwnMoment (begun_at c b) h → UpdateTurn E.means c h self.new result }
        ensures same { IsSameUpdate self.old self.new }
        ensures nearer { (nodes : ℕ) → walk.at ≡ WalkAt.Root → WalkFits walk (Some head) nodes →
            IsNearer E.means self.new nodes result
            (self.old.tries * try_left E.means self.old.edit nodes +
            (llx_left llx.at + steps_left walk nodes + (64 * E.means.most_looks self.old.edit + most_works E.means self.old.edit + 39))) }
        ensures spends { IsSpending E.means result self.old.share self.new (self.old.tries + 1) (self.old.tries + 1) }
        ensures tries { (self.old.tries ≤ self.new.tries + 1) × (self.new.tries ≤ self.old.tries) }
    {
        match Machine::<Tree>::next(&mut llx, got) {
            Turn::Ask(step) => {
                self.at = UpdateAt::Guard { walk, head, llx };
                Turn::Ask(step)
            }
            Turn::Done(Llx::Snapshot(snap)) => {
                self.guarded(snap);
                self.walk_on(walk, Some(head))
            }
            Turn::Done(Llx::Finalized { node, scx }) => self.lost(node, scx),
            Turn::Done(Llx::Fail { node, scx }) => self.lost(node, scx),
        }
    }

    /// Continues with what the last step of the walk found.
    fn walk_on(&mut self, mut walk: WalkRun, got: Option<u64>) -> Turn<Updated>
        ensures turn { (c : Call) (b h : History) (v : ℕ) → got ≡ Some v → IsRun TreeAllows c.layout h
            → IsTry c b h self.old.limit self.old.tries → IsUntouched c b self.old.share
            → Walks E.means self.old (begun_at c b) h walk.way walk.goal → WalkIsTold walk (begun_at c b) h v
            → Guarded E.means self.old.edit (begun_at c b) h self.old.guard (λ (k : Call). WalkIsTold walk k h v)
            → UpdateTurn E.means c h self.new result }
        ensures same { IsSameUpdate self.old self.new }
        ensures nearer { (nodes : ℕ) → WalkFits walk got nodes
            → IsNearer E.means self.new nodes result
            (self.old.tries * try_left E.means self.old.edit nodes +
            (steps_left walk nodes + (64 * looks_on (E.means.guard self.old.edit) walk.at (E.means.most_looks self.old.edit)
            + most_works E.means self.old.edit + 39))) }
        ensures spends { IsSpending E.means result self.old.share self.new (self.old.tries + 1) (self.old.tries + 1) }
        ensures tries { (self.old.tries ≤ self.new.tries + 1) × (self.new.tries ≤ self.old.tries) }
    {
        match Machine::<Tree>::next(&mut walk, got) {
            Turn::Ask(step) => {
                self.at = UpdateAt::Walk { walk };
                Turn::Ask(step)
            }
            Turn::Done(found) => {
                let next = self.test_share(&found);
                self.go_on(found, next)
            }
        }
    }

    /// Continues with what the last step of an LLX found.
    fn look_on(&mut self, found: Found, mut llx: LlxRun, got: Option<u64>) -> Turn<Updated>
        ensures turn { (c : Call) (b begin h : History) → IsRun TreeAllows c.layout h → IsTry c b h self.old.limit self.old.tries
            → Looks E.means self.old (begun_at c b) h found llx begin
            → LlxIsReady TreeAllows llx (begun_at (begun_at c b) begin) h got → UpdateTurn E.means c h self.new result }
        ensures same { IsSameUpdate self.old self.new }
        ensures nearer { HasAsked E.means self.old found → (nodes : ℕ) → IsNearer E.means self.new nodes result
            (self.old.tries * try_left E.means self.old.edit nodes +
            (llx_left llx.at + 64 * (E.means.most_looks self.old.edit - 1 - length self.old.snaps.items) + most_works E.means self.old.edit + 39)) }
        ensures spends { HasAsked E.means self.old found
            → IsSpending E.means result self.old.share self.new (self.old.tries + 1) (self.old.tries + 1) }
        ensures tries { (self.old.tries ≤ self.new.tries + 1) × (self.new.tries ≤ self.old.tries) }
    {
        match Machine::<Tree>::next(&mut llx, got) {
            Turn::Ask(step) => {
                self.at = UpdateAt::Look { found, llx };
                Turn::Ask(step)
            }
            Turn::Done(Llx::Snapshot(snap)) => {
                let next = self.looked(&found, snap);
                self.go_on(found, next)
            }
            Turn::Done(Llx::Finalized { node, scx }) => self.lost(node, scx),
            Turn::Done(Llx::Fail { node, scx }) => self.lost(node, scx),
        }
    }

    /// Fills a word of the fresh node of this place, which is to hold this piece.
    #[inline(always)]
    fn fill(&mut self, found: Found, nth: Nth, part: NodeWord, piece: &Piece) -> Turn<Updated>
        requires piece { piece.now ≡ pieces_now E.means self.old found nth }
        ensures place { self.new ≡ record self.old { at = UpdateAt.Fill found nth part } }
        ensures asks { result ≡ Turn.Ask (fills E.means self.old found nth part) }
    {
        self.at = UpdateAt::Fill { found, nth, part };
        Turn::Ask(Step {
            kind: Kind::Fill,
            word: Word::Node(self.nodes.at(nth), part),
            access: Access::Store(piece.word(part)),
        })
    }

    /// Continues after that fill: with the next word, or with what is done after the last.
    fn fill_on(&mut self, found: Found, nth: Nth, part: NodeWord) -> Turn<Updated>
        ensures turn { (c : Call) (b h : History) → IsRun TreeAllows c.layout h → IsTry c b h self.old.limit self.old.tries
            → IsFilledUpTo E.means self.old (begun_at c b) h found nth part → UpdateTurn E.means c h self.new result }
        ensures same { IsSameUpdate self.old self.new }
        ensures nearer { (nodes : ℕ) → IsNearer E.means self.new nodes result
            (self.old.tries * try_left E.means self.old.edit nodes + (fills_left E.means self.old found nth part + 39)) }
        ensures spends { 0 < self.old.share.scx →
            IsSpending E.means result self.old.share self.new self.old.tries (self.old.tries + 1) }
        ensures tries { (self.old.tries ≤ self.new.tries + 1) × (self.new.tries ≤ self.old.tries) }
    {
        let piece = self.piece(&found, nth);
        if let Some(next) = piece.behind(part) {
            return self.fill(found, nth, next, &piece);
        }
        let next = self.filled(&found, nth);
        self.go_on(found, next)
    }

    /// Begins what the try does next.
    pub fn begin(&mut self, found: Found, next: Next) -> Turn<Updated>
        ensures place { self.new ≡ placed E.means self.old found next }
        ensures asks { result ≡ Turn.Ask (next_step E.means self.old found next) }
    {
        match next {
            Next::Look(node) => self.begin_look(found, node),
            Next::Wait { node, marked, scx } => self.begin_wait(found, node, marked, scx),
            Next::Read { node, part } => self.begin_read(found, node, part),
            Next::Fill(nth) => self.begin_fill(found, nth),
            Next::Change(scx) => self.begin_scx(found, scx),
        }
    }

    /// Begins the LLX of a node.
    fn begin_look(&mut self, found: Found, node: NodeNo) -> Turn<Updated>
        ensures place { self.new ≡ placed E.means self.old found (Next.Look node) }
        ensures asks { result ≡ Turn.Ask (next_step E.means self.old found (Next.Look node)) }
    {
        let at = LlxAt::Marked;
        let llx = LlxRun { node, at };
        self.at = UpdateAt::Look { found, llx };
        Turn::Ask(Step {
            kind: Kind::LoadMarked,
            word: Word::Node(node, NodeWord::Marked),
            access: Access::Load,
        })
    }

    /// Begins the second look at a state.
    fn begin_wait(&mut self, found: Found, node: NodeNo, marked: bool, scx: ScxNo) -> Turn<Updated>
        ensures place { self.new ≡ placed E.means self.old found (Next.Wait node marked scx) }
        ensures asks { result ≡ Turn.Ask (next_step E.means self.old found (Next.Wait node marked scx)) }
    {
        let at = LlxAt::StateAgain { marked, scx };
        let llx = LlxRun { node, at };
        self.at = UpdateAt::Look { found, llx };
        Turn::Ask(Step {
            kind: Kind::LoadState,
            word: Word::Scx(scx, ScxWord::State),
            access: Access::Load,
        })
    }

    /// Begins the load of a settled word.
    fn begin_read(&mut self, found: Found, node: NodeNo, part: SettledPart) -> Turn<Updated>
        ensures place { self.new ≡ placed E.means self.old found (Next.Read node part) }
        ensures asks { result ≡ Turn.Ask (next_step E.means self.old found (Next.Read node part)) }
    {
        self.at = UpdateAt::Read { found, node, part };
        Turn::Ask(Step {
            kind: Kind::LoadSettled,
            word: Word::Node(node, NodeWord::Settled(part)),
            access: Access::Load,
        })
    }

    /// Begins the fills of the fresh node of this place.
    fn begin_fill(&mut self, found: Found, nth: Nth) -> Turn<Updated>
        ensures place { self.new ≡ placed E.means self.old found (Next.Fill nth) }
        ensures asks { result ≡ Turn.Ask (next_step E.means self.old found (Next.Fill nth)) }
    {
        let piece = self.piece(&found, nth);
        self.fill(found, nth, NodeWord::Settled(SettledPart::Head), &piece)
    }

    /// Begins the SCX.
    fn begin_scx(&mut self, found: Found, scx: ScxNo) -> Turn<Updated>
        ensures place { self.new ≡ placed E.means self.old found (Next.Change scx) }
        ensures asks { result ≡ Turn.Ask (next_step E.means self.old found (Next.Change scx)) }
    {
        let run = self.scx_run(scx, ScxAt::Plan);
        let plan = run.update.plan;
        self.at = UpdateAt::Scx { found, scx: run };
        Turn::Ask(Step {
            kind: Kind::Fill,
            word: Word::Scx(scx, ScxWord::Plan),
            access: Access::Store(plan.0),
        })
    }

    /// Continues in its SCX at a node that could not be frozen.
    #[cold]
    pub fn block(&mut self, found: Found, scx: ScxNo, help: HelpRun) -> Turn<Updated>
        ensures place { self.new ≡ record self.old {
          at = UpdateAt.Scx found record {
            scx = scx;
            call = self.old.call;
            update = update_of self.old;
            at = ScxAt.Help help;
          };
        } }
        ensures asks { result ≡
            Turn.Ask record { kind = Kind.LoadAllFrozen; word = Word.Scx scx ScxWord.AllFrozen; access = Access.Load } }
    {
        let run = self.scx_run(scx, ScxAt::Help { help });
        self.at = UpdateAt::Scx { found, scx: run };
        Turn::Ask(Step {
            kind: Kind::LoadAllFrozen,
            word: Word::Scx(scx, ScxWord::AllFrozen),
            access: Access::Load,
        })
    }

    /// Begins what the try does next, or ends it.
    fn go_on(&mut self, found: Found, next: Result<Next, Stop>) -> Turn<Updated>
        ensures turn { (c : Call) (h : History) → IsRun TreeAllows c.layout h → UpdateGoesOn E.means c h self.old found next
            → UpdateTurn E.means c h self.new result }
        ensures same { IsSameUpdate self.old self.new }
        ensures nearer { (nodes n : ℕ) → ComesNearer E.means self.old found next nodes n →
            IsNearer E.means self.new nodes result n }
        ensures spends { (share : Remaining) (nodes scx : ℕ) → HasSpentForNext E.means share self.old found next nodes scx
            → IsSpending E.means result share self.new nodes scx }
        ensures tries { (self.old.tries ≤ self.new.tries + 1) × (self.new.tries ≤ self.old.tries) }
    {
        match next {
            Ok(next) => self.begin(found, next),
            Err(stop) => self.stop(&found, stop),
        }
    }

    /// Ends a try before its SCX, and begins the next if it is lost and there is one.
    pub fn stop(&mut self, found: &Found, stop: Stop) -> Turn<Updated>
        ensures turn { (c : Call) (h : History) → IsRun TreeAllows c.layout h → MayStop E.means c h self.old found.now stop
            → UpdateTurn E.means c h self.new result }
        ensures same { IsSameUpdate self.old self.new }
        ensures nearer { (nodes : ℕ) →
            IsNearer E.means self.new nodes result (self.old.tries * try_left E.means self.old.edit nodes) }
        ensures spends { IsSpending E.means result self.old.share self.new self.old.tries self.old.tries }
        ensures tries { (self.old.tries ≤ self.new.tries + 1) × (self.new.tries ≤ self.old.tries) }
    {
        match stop {
            Stop::Nothing => Turn::Done(Updated::at(found)),
            Stop::Lost { node, scx } => self.lost(node, scx),
            Stop::Full(full) => Turn::Done(Updated::Full(full)),
        }
    }

    /// Continues with what the last step of the SCX found.
    fn scx_on(&mut self, found: Found, mut scx: ScxRun, got: Option<u64>) -> Turn<Updated>
        ensures turn { (c : Call) (b begin h : History) → IsRun TreeAllows c.layout h → IsTry c b h self.old.limit self.old.tries
            → Scxs E.means self.old (begun_at c b) h found scx begin
            → ScxIsReady TreeAllows scx (begun_at (begun_at c b) begin) h got → UpdateTurn E.means c h self.new result }
        ensures same { IsSameUpdate self.old self.new }
        ensures nearer { (nodes : ℕ) →
            IsNearer E.means self.new nodes result (self.old.tries * try_left E.means self.old.edit nodes + scx_left scx.at) }
        ensures spends { IsSpending E.means result self.old.share self.new self.old.tries self.old.tries }
        ensures tries { (self.old.tries ≤ self.new.tries + 1) × (self.new.tries ≤ self.old.tries) }
    {
        match Machine::<Tree>::next(&mut scx, got) {
            Turn::Ask(step) => {
                self.at = UpdateAt::Scx { found, scx };
                Turn::Ask(step)
            }
            Turn::Done(Scx::Done) => Turn::Done(Updated::at(&found)),
            Turn::Done(Scx::Lost { node, scx }) => self.lost(node, scx),
        }
    }

    /// Continues with what the last step found; with nothing at the first call, which asks for a
    /// step.
    pub fn step(&mut self, got: Option<u64>) -> Turn<Updated>
        ensures turn { (c : Call) (h : History) → IsRun TreeAllows c.layout h → UpdateIsReady E.means self.old c h got
            → UpdateTurn E.means c h self.new result }
        ensures begins { got ≡ None → (c : Call) (h : History) →
            UpdateIsReady E.means self.old c h None → MatchTurn result (λ _. Unit {0}) (λ _. ⊥) }
        ensures same { IsSameUpdate self.old self.new }
        ensures nearer { (nodes : ℕ) → UpdateFits E.means self.old got nodes →
            IsNearer E.means self.new nodes result (update_left E.means self.old nodes) }
        ensures spends { MaySpend E.means self.old self.old.at
            → IsSpending E.means result self.old.share self.new (node_tries self.old self.old.at) (scx_tries self.old self.old.at) }
        ensures tries { (self.old.tries ≤ self.new.tries + 1) × (self.new.tries ≤ self.old.tries) }
    {
        match self.at {
            UpdateAt::Start => self.begin_walk(),
            UpdateAt::Walk { walk } => self.walked(walk, got),
            UpdateAt::Guard { walk, head, llx } => self.guard_on(walk, head, llx, got),
            UpdateAt::Look { found, llx } => self.look_on(found, llx, got),
            UpdateAt::Read { found, node, part } => {
                let next = self.read_on(&found, node, part, got.unwrap_or(0));
                self.go_on(found, Ok(next))
            }
            UpdateAt::Fill { found, nth, part } => self.fill_on(found, nth, part),
            UpdateAt::Scx { found, scx } => self.scx_on(found, scx, got),
        }
    }
}

impl<E: Edit + Drop> Machine<Tree> for UpdateRun<E, UpdateAt> {
    type Answer = Updated;

    ghost use Rattle.std.specs.Prelude.{◌≡◌, ℕ, ◌+◌, ◌≤◌};
    ghost use Rattle.edits.specs.Steps.{update_left, UpdateFits};
    ghost use Rattle.edits.specs.Known.{UpdateIsReady, UpdateWaits, UpdateAnswers};
    ghost use Rattle.edits.specs.Laws.Update.{update_keeps, update_lawful, update_made, update_told};

    ghost ready = { UpdateIsReady E.means };

    ghost waits = { UpdateWaits E.means };

    ghost answers = { UpdateAnswers E.means };

    ghost same = { λ old now. (now.edit ≡ old.edit) × (now.call ≡ old.call) × (now.limit ≡ old.limit) × (old.tries ≤ now.tries + 1) × (now.tries ≤ old.tries) };

    ghost left = { update_left E.means };

    ghost fits = { UpdateFits E.means };

    ghost asks_first = { λ _. Unit {0} };

    fn next(&mut self, got: Option<u64>) -> Turn<Updated> {
        self.step(got)
    }

    ghost keeps = { update_keeps E.means };

    ghost lawful = { update_lawful E.means };

    ghost made = { update_made E.means };

    ghost told = { update_told E.means };
}
