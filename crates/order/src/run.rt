//! The machine of an ordered read of the tree.
ghost use Rattle.std.specs.Prelude.{◌≡◌, true, false};
ghost use Rattle.template.specs.Balance.{leaf_way};
ghost use Rattle.order.specs.LastTurns.{Counts, CountsNot, TurnsSo};

use crate::known_load::{HeadLoad, HighLoad, KeyLoad, KnownLoad, MoreLoad, PairLoad, ValueLoad};
use crate::last_turns::LastTurns;
use crate::load::ReadLoad;
use crate::near::{NearAt, NearNext, NearRun};
use crate::push::push_onto;
use crate::read::{Children, Read, ReadBegin, ReadNext};
use crate::refused::Refused;
use arena::{
    Access, Head, Kind, Machine, NodeNo, NodeWord, ScxNo, SettledPart, Side, Slot, Step, Turn, Word,
};
use ordered_map::shares;
use prims::{Llx, LlxAt, LlxRun, Snap, Vlx, VlxRun};
use std::alloc::Global;
use template::{Found, Goal, Tree, WalkAt, WalkRun, Way};

/// The step that a read has asked for.
#[derive(Clone, Copy, Debug, PartialEq, Eq)]
pub enum ReadAt {
    /// None yet.
    Start,
    /// A step of its walk, which has last turned at these forks. From that to this side it goes down
    /// again.
    Walk {
        walk: WalkRun,
        side: Side,
        turns: LastTurns,
    },
    /// The load of a word of the leaf where its walk has ended, in a search of that. From this fork it
    /// goes down if the leaf does not have what it looks for.
    Near {
        near: NearRun,
        children: Children,
        fork: NodeNo,
    },
    /// The load of the root's head.
    Root,
    /// The load of a word of a node.
    Load(ReadLoad),
    /// A step of the LLX of a fork of this level, whose children to be visited are these.
    Look {
        children: Children,
        level: u64,
        llx: LlxRun,
    },
    /// A step of the VLX.
    Validate {
        asked: usize,
    },
}

/// An ordered read, step by step: a walk, for a read that begins with one; visits of nodes, with an
/// LLX of each fork; a VLX over all nodes that were looked at. And again where such a try is lost,
/// as long as tries are left.
#[derive(Debug, Drop)]
pub struct ReadRun<R> {
    /// What is read, and how far that is.
    pub read: R,
    /// Whether that is in a trie.
    pub trie: bool,
    /// How many tries it has in all.
    pub limit: u32,
    /// How many of them are left after this one.
    pub tries: u32,
    /// What the LLXs of this try have found.
    pub snaps: Vec<Snap>,
    /// Where the run is.
    pub at: ReadAt,
}

impl<R: Read + Drop> ReadRun<R> {
    ghost use Rattle.std.specs.Prelude.{◌≡◌, ℕ, ◌+◌, ◌-◌, ◌*◌, ◌<◌, ◌≤◌, length, [], IfOk, None, Some, Ok, unwrap_or};
    ghost use Rattle.arena.specs.History.{History, Extends};
    ghost use Rattle.arena.specs.Machines.{MatchTurn, Call, begun_at};
    ghost use Rattle.prims.specs.Llx.Known.{IsSnapshot, LlxIsReady};
    ghost use Rattle.prims.specs.Llx.Steps.{llx_left};
    ghost use Rattle.prims.specs.Vlx.Known.{VlxIsReady};
    ghost use Rattle.prims.specs.Vlx.Steps.{vlx_left};
    ghost use Rattle.ordered_map.specs.TreeShape.{TreeAllows};
    ghost use Rattle.template.specs.Blame.{IsContended};
    ghost use Rattle.template.specs.Walk.Known.{WalkIsReady};
    ghost use Rattle.template.specs.Balance.{nodes_by};
    ghost use Rattle.template.specs.Walk.Steps.{walk_left, WalkFitsAt};
    ghost use Rattle.template.specs.Trails.{IsOwnMoment};
    ghost use Rattle.order.specs.Found.{BeginsSo, WalksTo, Looks};
    ghost use Rattle.order.specs.Known.{AreLastTurns, HasNotBegun, IsSameRead, ReadGoes, IsSearchFor, ReadIsReady, ReadTurn, SearchesLeaf, Validates};
    ghost use Rattle.order.specs.Loads.{load_value};
    ghost use Rattle.order.specs.Near.{near_left, near_most, near_value, near_word};
    ghost use Rattle.order.specs.declared.near.NearRun.{NearRun as NearRunOf};
    ghost use Rattle.ordered_map.specs.declared.rule.Goal.TheVariants.{Key as ToKey};
    ghost use Rattle.template.specs.FoundLeaf.{HasFoundGoal};
    ghost use Rattle.order.specs.Next.{MayLoad};
    ghost use Rattle.order.specs.Paths.{BeginsNear, ComesNearer, LoadFits, load_left, path_left};
    ghost use Rattle.order.specs.Places.{GoesOn, MayGoOn, RunComesNearer};
    ghost use Rattle.order.specs.Replies.{KeepsTries};
    ghost use Rattle.order.specs.Steps.{ReadFits, ReadIsNearer, tries_left, read_left, run_try_left};
    ghost use Rattle.order.specs.Tries.{BeginsTry, IsInTry};

    /// A run that has not begun. What it keeps grows with this allocator. What is said of its turns
    /// holds for at least one try.
    #[inline(always)]
    pub fn new(alloc: Global, read: R, tries: u32, trie: bool) -> ReadRun<R>
        ensures read { result.read ≡ read }
        ensures fresh { HasNotBegun result trie tries }
        ensures bound { (nodes : ℕ) → 0 < tries →
            read_left R.means result nodes ≤ tries * run_try_left R.means result nodes }
    {
        ReadRun {
            read,
            trie,
            limit: tries,
            tries: tries.saturating_sub(1),
            snaps: Vec::new(alloc),
            at: ReadAt::Start,
        }
    }

    /// Asks for a load of a word, and is at this place.
    fn load(&mut self, at: ReadAt, kind: Kind, word: Word) -> Turn<Result<R::Answer, Refused>>
        ensures stands { self.new ≡ record self.old { at = at } }
        ensures asked { result ≡ Turn.Ask record { kind = kind; word = word; access = Access.Load } }
    {
        self.at = at;
        let access = Access::Load;
        Turn::Ask(Step { kind, word, access })
    }

    /// Forgets the last try, and returns what the next begins with.
    #[inline(always)]
    pub fn start(&mut self) -> ReadBegin<R::Answer>
        ensures begins { BeginsSo R.means self.new.read result }
        ensures empty { self.new.snaps.items ≡ [] }
        ensures same { IsSameRead R.means self.old self.new }
        ensures nearer { (nodes : ℕ) → BeginsNear R.means self.new.read nodes result }
        ensures tries { self.new.tries ≡ self.old.tries }
    {
        self.snaps.clear();
        self.read.begin()
    }

    /// Begins a try; where there is nothing to be found, it ends.
    fn begin(&mut self) -> Turn<Result<R::Answer, Refused>>
        ensures turn { (c : Call) (begin h : History) → BeginsTry c h self.old.limit self.old.tries
            → ReadGoes R.means self.old (begun_at c begin) h → ReadTurn R.means c h self.new result }
        ensures begins { R.means.asks (R.means.call self.old.read) →
            MatchTurn result (λ _. Unit {0}) (λ _. ⊥) }
        ensures same { IsSameRead R.means self.old self.new }
        ensures nearer { (nodes : ℕ) → ReadIsNearer R.means self.new nodes result
            (tries_left R.means self.old nodes + run_try_left R.means self.old nodes) }
        ensures tries { self.new.tries ≡ self.old.tries }
    {
        let (kind, root) = (Kind::LoadSettled, NodeNo(0));
        let head = Word::Node(root, NodeWord::Settled(SettledPart::Head));
        match self.start() {
            ReadBegin::Walk { key, side } => {
                let mut walk = WalkRun::by(leaf_way(self.trie), Goal::Key(key));
                walk.at = WalkAt::Root;
                let turns = LastTurns::none();
                self.load(ReadAt::Walk { walk, side, turns }, kind, head)
            }
            ReadBegin::Root => self.load(ReadAt::Root, kind, head),
            ReadBegin::Answer(answer) => Turn::Done(Ok(answer)),
        }
    }

    /// Ends a try that is lost to this SCX-record over this node, and begins the next if there is
    /// one.
    #[cold]
    fn lost(&mut self, node: NodeNo, scx: ScxNo) -> Turn<Result<R::Answer, Refused>>
        ensures turn { (c : Call) (begin h : History) → IsInTry c h begin self.old.limit self.old.tries
            → ReadGoes R.means self.old (begun_at c begin) h
            → IsContended (begun_at c begin) h node.0 scx.0 → ReadTurn R.means c h self.new result }
        ensures same { IsSameRead R.means self.old self.new }
        ensures nearer { (nodes : ℕ) →
            ReadIsNearer R.means self.new nodes result (tries_left R.means self.old nodes) }
        ensures tries { (c : Call) (h : History) → R.means.asks (R.means.call self.old.read) → IsContended c h node.0 scx.0
            → KeepsTries c h self.old.tries self.new.tries result }
    {
        if self.tries == 0 {
            return Turn::Done(Err(Refused::Contended { node, scx }));
        }
        self.tries -= 1;
        self.begin()
    }

    /// Continues with what the last step of the walk found.
    fn walk_on(
        &mut self,
        mut walk: WalkRun,
        side: Side,
        turns: LastTurns,
        got: Option<u64>,
    ) -> Turn<Result<R::Answer, Refused>>
        ensures turn { (c : Call) (begin h : History) (key v : ℕ) → got ≡ Some v → IsInTry c h begin self.old.limit self.old.tries
            → ReadGoes R.means self.old (begun_at c begin) h → walk.goal ≡ Goal.Key key
            → walk.way ≡ leaf_way self.old.trie → WalksTo R.means self.old.read key side
            → AreLastTurns (begun_at c begin) h key turns
            → WalkIsReady walk (begun_at c begin) h (Some v) → ReadTurn R.means c h self.new result }
        ensures same { IsSameRead R.means self.old self.new }
        ensures nearer { (nodes : ℕ) →
            let room : ℕ = nodes_by self.old.trie nodes in walk.way ≡ leaf_way self.old.trie → WalkFitsAt walk.at (unwrap_or got 0) room
            → ReadIsNearer R.means self.new room result
            (tries_left R.means self.old room
            + (walk_left walk.at room + near_most + length self.old.snaps.items + path_left room + R.means.behind self.old.read room)) }
        ensures tries { self.new.tries ≡ self.old.tries }
    {
        let before = walk;
        match Machine::<Tree>::next(&mut walk, got) {
            Turn::Ask(step) => {
                let turns = last_turns(self.trie, &before, &walk, turns, got.unwrap_or(0));
                self.at = ReadAt::Walk { walk, side, turns };
                Turn::Ask(step)
            }
            Turn::Done(found) => self.walked(found, side, turns),
        }
    }

    /// Searches the leaf where its walk has ended, if it may, or looks at the fork from which it goes
    /// down again.
    fn walked(
        &mut self,
        found: Found,
        side: Side,
        turns: LastTurns,
    ) -> Turn<Result<R::Answer, Refused>>
        ensures turn { (c : Call) (begin h : History) (key : ℕ) → IsInTry c h begin self.old.limit self.old.tries
            → ReadGoes R.means self.old (begun_at c begin) h → WalksTo R.means self.old.read key side
            → AreLastTurns (begun_at c begin) h key turns → HasFoundGoal (ToKey key) (begun_at c begin) h found
            → ReadTurn R.means c h self.new result }
        ensures same { IsSameRead R.means self.old self.new }
        ensures nearer { (nodes : ℕ) → ReadIsNearer R.means self.new nodes result
            (tries_left R.means self.old nodes
            + (near_most + length self.old.snaps.items + path_left nodes + R.means.behind self.old.read nodes)) }
        ensures tries { self.new.tries ≡ self.old.tries }
    {
        let (children, fork) = (turns.children(side), turns.to(side));
        match self.nearby(found, turns) {
            Some(near) => self.near(near, children, fork),
            None => self.look(children, 0, fork),
        }
    }

    /// The search of the leaf where its walk has ended, if it looks for the pair beside a key: in a
    /// trie, where the fork above the leaf is the last that counts on its side, so that the leaf was
    /// on the path of the key. Nothing is above that fork in a leaf above all keys.
    #[inline(always)]
    pub fn nearby(&self, found: Found, turns: LastTurns) -> Option<NearRun>
        ensures knows { (c : Call) (h : History) (key : ℕ) (side : Side) (near : NearRunOf) → result ≡ Some near
            → ReadGoes R.means self.now c h → WalksTo R.means self.now.read key side → AreLastTurns c h key turns
            → HasFoundGoal (ToKey key) c h found → IsSearchFor R.means self.now.read c h near }
        ensures first { (near : NearRunOf) → result ≡ Some near → near.at ≡ NearAt.Key Slot.First None }
        ensures tree { self.now.trie ≡ false → result ≡ None }
    {
        let above = turns.to(found.trail.side);
        if self.trie && found.head.class == 0 && above.0 == found.trail.parent.0 {
            let (key, side) = self.read.beside()?;
            let (node, more, slot, last) = (found.trail.node, found.more, Slot::First, None);
            let at = NearAt::Key { slot, last };
            return Some(NearRun {
                key,
                side,
                node,
                more,
                at,
            });
        }
        None
    }

    /// Begins the load of a word of a leaf that it searches.
    fn near(
        &mut self,
        near: NearRun,
        children: Children,
        fork: NodeNo,
    ) -> Turn<Result<R::Answer, Refused>>
        ensures stands { self.new ≡ record self.old { at = ReadAt.Near near children fork } }
        ensures asked { result ≡
            Turn.Ask record { kind = Kind.LoadSettled; word = near_word near; access = Access.Load } }
    {
        let at = ReadAt::Near {
            near,
            children,
            fork,
        };
        self.load(at, Kind::LoadSettled, near.word())
    }

    /// Continues with what the last step of its search of a leaf found: if that has the pair, it
    /// ends.
    fn near_on(
        &mut self,
        near: NearRun,
        children: Children,
        fork: NodeNo,
        value: u64,
    ) -> Turn<Result<R::Answer, Refused>>
        ensures turn { (c : Call) (begin h : History) → IsInTry c h begin self.old.limit self.old.tries
            → ReadGoes R.means self.old (begun_at c begin) h
            → SearchesLeaf R.means self.old.read self.old.snaps.items (begun_at c begin) h near children fork.0
            → near_value near h ≡ value → ReadTurn R.means c h self.new result }
        ensures same { IsSameRead R.means self.old self.new }
        ensures nearer { (nodes : ℕ) → ReadIsNearer R.means self.new nodes result
            (tries_left R.means self.old nodes
            + (near_left near.at + length self.old.snaps.items + path_left nodes + R.means.behind self.old.read nodes)) }
        ensures tries { self.new.tries ≡ self.old.tries }
    {
        match near.found(value) {
            NearNext::Load(now) => self.near(now, children, fork),
            NearNext::Found(pair) => Turn::Done(Ok(self.read.tell(pair))),
            NearNext::Nothing => self.look(children, 0, fork),
        }
    }

    /// Begins the LLX of a fork.
    fn look(
        &mut self,
        children: Children,
        level: u64,
        node: NodeNo,
    ) -> Turn<Result<R::Answer, Refused>>
        ensures stands { self.new ≡ record self.old {
          at = ReadAt.Look children level record {
            node = node;
            at = LlxAt.Marked;
          };
        } }
        ensures asked { result ≡
            Turn.Ask record { kind = Kind.LoadMarked; word = Word.Node node NodeWord.Marked; access = Access.Load } }
    {
        let at = LlxAt::Marked;
        let llx = LlxRun { node, at };
        let at = ReadAt::Look {
            children,
            level,
            llx,
        };
        let marked = Word::Node(node, NodeWord::Marked);
        self.load(at, Kind::LoadMarked, marked)
    }

    /// Continues with what the last step of an LLX found.
    fn look_on(
        &mut self,
        children: Children,
        level: u64,
        mut llx: LlxRun,
        got: Option<u64>,
    ) -> Turn<Result<R::Answer, Refused>>
        ensures turn { (c : Call) (begin look h : History) → IsInTry c h begin self.old.limit self.old.tries
            → ReadGoes R.means self.old (begun_at c begin) h
            → Looks R.means self.old.read self.old.snaps.items (begun_at c begin) h children level llx.node.0 → Extends look begin
            → LlxIsReady TreeAllows llx (begun_at c look) h got → ReadTurn R.means c h self.new result }
        ensures same { IsSameRead R.means self.old self.new }
        ensures nearer { (nodes : ℕ) → level + 1 < 2 + nodes
            → ReadIsNearer R.means self.new nodes result
            (tries_left R.means self.old nodes +
            (llx_left llx.at + length self.old.snaps.items + 1 + 67 * (1 + nodes - level) + R.means.behind self.old.read nodes)) }
        ensures tries { (c : Call) (begin h : History) → ReadGoes R.means self.old c h
            → Looks R.means self.old.read self.old.snaps.items c h children level llx.node.0 → Extends begin c.start
            → LlxIsReady TreeAllows llx (begun_at c begin) h got → KeepsTries c h self.old.tries self.new.tries result }
    {
        match Machine::<Tree>::next(&mut llx, got) {
            Turn::Ask(step) => {
                self.at = ReadAt::Look {
                    children,
                    level,
                    llx,
                };
                Turn::Ask(step)
            }
            Turn::Done(Llx::Snapshot(snap)) => {
                let next = self.looked(children, level, snap);
                self.proceed(next)
            }
            Turn::Done(Llx::Finalized { node, scx }) => self.lost(node, scx),
            Turn::Done(Llx::Fail { node, scx }) => self.lost(node, scx),
        }
    }

    /// Keeps a snapshot of the fork at which it looks, and returns the child to continue with.
    ///
    /// # Errors
    ///
    /// `NoMemory` where there is none to keep it.
    #[inline(always)]
    pub fn looked(
        &mut self,
        children: Children,
        level: u64,
        snap: Snap,
    ) -> Result<ReadNext, Refused>
        ensures goes_on { (c : Call) (h : History) → ReadGoes R.means self.old c h
            → Looks R.means self.old.read self.old.snaps.items c h children level snap.node.0
            → IsSnapshot c.layout h snap.node.0 snap → GoesOn R.means c h self.new result }
        ensures same { IsSameRead R.means self.old self.new }
        ensures nearer { (nodes : ℕ) → level + 1 < 2 + nodes
            → IfOk result (λ next. RunComesNearer R.means self.new nodes next
            (length self.old.snaps.items + 1 + 67 * (1 + nodes - level) + R.means.behind self.old.read nodes)) }
        ensures tries { self.new.tries ≡ self.old.tries }
    {
        if push_onto(&mut self.snaps, snap) {
            let above = level;
            match self.read.looked(children, snap.left, snap.right) {
                Ok(node) => Ok(ReadNext::Load(ReadLoad::Head { above, node })),
                Err(refused) => Err(refused),
            }
        } else {
            Err(Refused::NoMemory)
        }
    }

    /// Continues with what the last step of the VLX found.
    fn validate_on(&mut self, asked: usize, got: Option<u64>) -> Turn<Result<R::Answer, Refused>>
        ensures turn { (c : Call) (begin look h : History) → IsInTry c h begin self.old.limit self.old.tries
            → ReadGoes R.means self.old (begun_at c begin) h
            → Validates R.means self.old.read self.old.snaps.items (begun_at c begin) h look
            → VlxIsReady self.old.snaps.items asked (begun_at c look) h got
            → ReadTurn R.means c h self.new result }
        ensures same { IsSameRead R.means self.old self.new }
        ensures nearer { (nodes : ℕ) →
            ReadIsNearer R.means self.new nodes result (tries_left R.means self.old nodes + vlx_left self.old.snaps.items asked) }
        ensures tries { (c : Call) (begin h : History) → ReadGoes R.means self.old c h
            → Validates R.means self.old.read self.old.snaps.items c h begin
            → VlxIsReady self.old.snaps.items asked (begun_at c begin) h got
            → KeepsTries c h self.old.tries self.new.tries result }
    {
        let mut vlx = VlxRun {
            snaps: self.snaps.as_slice(),
            asked,
        };
        let turn = Machine::<Tree>::next(&mut vlx, got);
        let asked = vlx.asked;
        match turn {
            Turn::Ask(step) => {
                self.at = ReadAt::Validate { asked };
                Turn::Ask(step)
            }
            Turn::Done(Vlx::Same) => Turn::Done(Ok(self.read.answer())),
            Turn::Done(Vlx::Changed { node, scx }) => self.lost(node, scx),
        }
    }

    /// Begins what comes next, and is at its place.
    fn stand(&mut self, next: ReadNext) -> Turn<Result<R::Answer, Refused>>
        ensures turn { (c : Call) (h : History) → MayGoOn R.means c h self.old next →
            ReadTurn R.means c h self.new result }
        ensures same { IsSameRead R.means self.old self.new }
        ensures nearer { (nodes n : ℕ) → RunComesNearer R.means self.old nodes next n
            → ReadIsNearer R.means self.new nodes result (tries_left R.means self.old nodes + n) }
        ensures tries { (c : Call) (h : History) → GoesOn R.means c h self.old (Ok next) →
            KeepsTries c h self.old.tries self.new.tries result }
    {
        match next {
            ReadNext::Load(load) => self.load(ReadAt::Load(load), Kind::LoadSettled, load.word()),
            ReadNext::Look {
                children,
                level,
                node,
            } => self.look(children, level, node),
            ReadNext::Validate => self.validate_on(0, None),
        }
    }

    /// Begins what comes next, or ends where that is refused.
    fn proceed(&mut self, next: Result<ReadNext, Refused>) -> Turn<Result<R::Answer, Refused>>
        ensures turn { (c : Call) (begin h : History) → IsInTry c h begin self.old.limit self.old.tries
            → GoesOn R.means (begun_at c begin) h self.old next → ReadTurn R.means c h self.new result }
        ensures same { IsSameRead R.means self.old self.new }
        ensures nearer { (nodes n : ℕ) → IfOk next (λ now. RunComesNearer R.means self.old nodes now n)
            → ReadIsNearer R.means self.new nodes result (tries_left R.means self.old nodes + n) }
        ensures tries { (c : Call) (h : History) → GoesOn R.means c h self.old next →
            KeepsTries c h self.old.tries self.new.tries result }
    {
        match next {
            Ok(now) => self.stand(now),
            Err(refused) => Turn::Done(Err(refused)),
        }
    }

    /// Goes on with what a load of a word of a node found: behind the count of a leaf comes a key
    /// of it, and behind a value the high half of that.
    ///
    /// # Errors
    ///
    /// `NoMemory` where there is none to keep what is found.
    #[inline(always)]
    pub fn loaded(&mut self, load: ReadLoad, value: u64) -> Result<ReadNext, Refused>
        ensures goes_on { (c : Call) (h : History) → ReadGoes R.means self.old c h → IsOwnMoment c h
            → MayLoad R.means self.old.read self.old.snaps.items c h load
            → load_value h load ≡ value → GoesOn R.means c h self.new result }
        ensures same { IsSameRead R.means self.old self.new }
        ensures nearer { (nodes : ℕ) → LoadFits value nodes load
            → IfOk result (λ next. RunComesNearer R.means self.new nodes next
            (length self.old.snaps.items + load_left R.means self.old.read nodes load - 1)) }
        ensures tries { self.new.tries ≡ self.old.tries }
    {
        match load {
            ReadLoad::Head { above, node } => HeadLoad { above, node }.found(self, value),
            ReadLoad::Key { level, node } => KeyLoad { level, node }.found(self, value),
            ReadLoad::More { node } => MoreLoad { node }.found(self, value),
            ReadLoad::Pair { place } => PairLoad { place }.found(self, value),
            ReadLoad::Value { place, key } => ValueLoad { place, key }.found(self, value),
            ReadLoad::High { place, key, low } => HighLoad { place, key, low }.found(self, value),
        }
    }

    /// Continues with what the last step found; with nothing at the first call, which asks for a
    /// step if there is something to be found, and else ends. It gives up at most one try, if an
    /// SCX-record of another pass was in the way of the call; and none as it ends.
    pub fn step(&mut self, got: Option<u64>) -> Turn<Result<R::Answer, Refused>>
        ensures turn { (c : Call) (h : History) → ReadIsReady R.means self.old c h got →
            ReadTurn R.means c h self.new result }
        ensures begins { got ≡ None → R.means.asks (R.means.call self.old.read) → (c : Call) (h : History)
            → ReadIsReady R.means self.old c h None → MatchTurn result (λ _. Unit {0}) (λ _. ⊥) }
        ensures same { IsSameRead R.means self.old self.new }
        ensures nearer { (nodes : ℕ) → let room : ℕ = nodes_by self.old.trie nodes in ReadFits R.means self.old got room
            → ReadIsNearer R.means self.new room result (read_left R.means self.old room) }
        ensures tries { (c : Call) (h : History) → ReadIsReady R.means self.old c h got →
            KeepsTries c h self.old.tries self.new.tries result }
    {
        let value = got.unwrap_or(0);
        match self.at {
            ReadAt::Start => self.begin(),
            ReadAt::Walk { walk, side, turns } => self.walk_on(walk, side, turns, got),
            ReadAt::Near {
                near,
                children,
                fork,
            } => self.near_on(near, children, fork, value),
            ReadAt::Root => {
                let next = self.read.head_on(Head::of(value), NodeNo(0));
                self.stand(next)
            }
            ReadAt::Load(load) => {
                let next = self.loaded(load, value);
                self.proceed(next)
            }
            ReadAt::Look {
                children,
                level,
                llx,
            } => self.look_on(children, level, llx, got),
            ReadAt::Validate { asked } => self.validate_on(asked, got),
        }
    }
}

impl<R: Read + Drop> Machine<Tree> for ReadRun<R> {
    type Answer = Result<R::Answer, Refused>;

    ghost use Rattle.order.specs.Known.{IsSameRead, ReadIsReady, ReadWaits, ReadAnswers};
    ghost use Rattle.order.specs.Laws.Run.{read_keeps, read_lawful, read_made, read_told};
    ghost use Rattle.order.specs.Steps.{ReadFits, read_left};
    ghost use Rattle.template.specs.Balance.{nodes_by};

    ghost ready = { ReadIsReady R.means };

    ghost waits = { ReadWaits R.means };

    ghost answers = { ReadAnswers R.means };

    ghost same = { IsSameRead R.means };

    ghost left = { λ m nodes. read_left R.means m (nodes_by m.trie nodes) };

    ghost fits = { λ m got nodes. ReadFits R.means m got (nodes_by m.trie nodes) };

    ghost asks_first = { λ m. R.means.asks (R.means.call m.read) };

    fn next(&mut self, got: Option<u64>) -> Turn<Result<R::Answer, Refused>> {
        self.step(got)
    }

    ghost keeps = { read_keeps R.means };

    ghost lawful = { read_lawful R.means };

    ghost made = { read_made R.means };

    ghost told = { read_told R.means };
}

/// The way of a walk to a leaf, in a trie or in a tree.
#[inline(always)]
pub fn leaf_way(trie: bool) -> Way
    ensures { result ≡ leaf_way trie }
{
    if trie { Way::InTrie } else { Way::InTree }
}

/// The last forks that count where a walk has turned, where they were these before the step that has
/// taken it here and found this. In a tree each fork counts.
fn last_turns(
    trie: bool,
    before: &WalkRun,
    walk: &WalkRun,
    turns: LastTurns,
    found: u64,
) -> LastTurns
    ensures { TurnsSo trie before.now found walk.now turns result }
{
    match walk.at {
        WalkAt::Child { level, side } => {
            if counts(trie, before, walk, level, found) {
                turns.with(side, walk.trail.node)
            } else {
                turns
            }
        }
        _ => turns,
    }
}

/// Whether the fork of this level counts where a walk turns.
fn counts(trie: bool, before: &WalkRun, walk: &WalkRun, level: u64, found: u64) -> bool
    ensures yes { result ≡ true → trie ≡ true → Counts before.now found level walk.now.trail.node }
    ensures no { result ≡ false → (trie ≡ true) × CountsNot before.now found level walk.now.trail.node }
{
    // In a tree each does.
    if !trie {
        return true;
    }
    // These are above all keys.
    if level < 2 {
        return true;
    }
    // The walk has just found its key, which has to share that.
    match (before.at, before.goal) {
        (WalkAt::Key { head: _ }, Goal::Key(key)) => {
            before.trail.node.0 == walk.trail.node.0 && shares(found, key)
        }
        _ => false,
    }
}
