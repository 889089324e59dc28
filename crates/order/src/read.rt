//! Ordered reads of the tree, as data for the machine that makes them.
ghost use Rattle.std.specs.Prelude.{◌≡◌, ℕ, ◌+◌, ◌*◌, ◌-◌, ◌<◌, ◌≤◌, List, IfOk, Some};
ghost use Rattle.arena.specs.History.{History};
ghost use Rattle.arena.specs.Machines.{Call};
ghost use Rattle.prims.specs.declared.snap.Snap.{Snap};
ghost use Rattle.arena.specs.declared.word.Side.{Side};
ghost use Rattle.ordered_map.specs.OrderedMap.{Neighbour as NeighbourOf, pair_or_none};
ghost use Rattle.template.specs.Trails.{IsOwnMoment};
ghost use Rattle.order.specs.Meaning.{ReadMeaning};
ghost use Rattle.order.specs.Found.{IsReading, Stands, IsAtLowFork, StandsIn, TakesPair, BeginsSo, GoesBelow, head_at, key_at, place_key, place_value};
ghost use Rattle.order.specs.Next.{MayDo, GoesOnSo};
ghost use Rattle.order.specs.Paths.{HeadFits, BeginsNear, ComesNearer, slots_left};

use crate::load::{LeafPlace, ReadLoad};
use crate::refused::Refused;
use arena::{Head, NodeNo, Side, Slot};
use ordered_map::Pair;

/// Which children of a fork are to be visited.
#[derive(Clone, Copy, Debug, PartialEq, Eq)]
pub enum Children {
    /// The left one alone.
    Left,
    /// The right one alone.
    Right,
    /// Both, one after the other.
    Both,
}

/// With what a try of a read begins.
#[derive(Debug, Drop)]
pub enum ReadBegin<A> {
    /// A walk to this key. From the last fork where that turns to this side it goes down again.
    Walk { key: u64, side: Side },
    /// The load of the root's head.
    Root,
    /// Nothing: there is nothing to be found, and this is the answer.
    Answer(A),
}

/// What a read does next in its try, before it is at the place for it.
#[derive(Clone, Copy, Debug, PartialEq, Eq)]
pub enum ReadNext {
    /// The load of a word of a node.
    Load(ReadLoad),
    /// The LLX of a fork of this level, whose children to be visited are these.
    Look {
        children: Children,
        level: u64,
        node: NodeNo,
    },
    /// The VLX.
    Validate,
}

/// An ordered read of the tree: with what it begins, and what it does after each word that it has
/// found.
pub trait Read {
    /// What it answers, where it is not refused.
    type Answer;

    /// Which call of the map it is, and what it knows of the node where it is.
    ghost means: { ReadMeaning Self Self.Answer };

    /// Forgets the last try.
    fn begin(&mut self) -> ReadBegin<Self::Answer>
        ensures begins { BeginsSo means self.new result }
        ensures same { means.call self.new ≡ means.call self.old }
        ensures nearer { (nodes : ℕ) → BeginsNear means self.new nodes result };

    /// Continues from a fork with these children to be visited to one of the two.
    ///
    /// # Errors
    ///
    /// `NoMemory` where there is none to keep the other.
    fn looked(&mut self, children: Children, left: NodeNo, right: NodeNo) -> Result<NodeNo, Refused>
        ensures goes_on { GoesBelow means self.old self.new children left right result }
        ensures same { means.call self.new ≡ means.call self.old }
        ensures nearer { (nodes : ℕ) → means.behind self.new nodes ≤ means.behind self.old nodes };

    /// What is done after the head of a node.
    fn head_on(&mut self, head: Head, node: NodeNo) -> ReadNext
        ensures goes_on { (snaps : List Snap) (c : Call) (h : History) → IsReading means self.old snaps c h → IsOwnMoment c h
            → Stands means self.old snaps c h node.0 → head_at h node.0 ≡ head → MayDo means self.new snaps c h result }
        ensures same { means.call self.new ≡ means.call self.old }
        ensures nearer { (nodes : ℕ) → HeadFits head nodes
            → ComesNearer means self.new nodes result (67 * (2 + nodes - head.level) - 1 + means.behind self.old nodes) };

    /// What is done after the key of a fork of class 0 and of this level.
    fn key_on(&mut self, level: u64, node: NodeNo, key: u64) -> ReadNext
        ensures goes_on { (snaps : List Snap) (c : Call) (h : History) → IsReading means self.old snaps c h → IsOwnMoment c h
            → IsAtLowFork means self.old snaps c h level node.0 → key_at h node.0 ≡ key → MayDo means self.new snaps c h result }
        ensures same { means.call self.new ≡ means.call self.old }
        ensures nearer { (nodes : ℕ) → level + 1 < 2 + nodes
            → ComesNearer means self.new nodes result (67 * (2 + nodes - level) - 2 + means.behind self.old nodes) };

    /// In which slot it begins in a leaf that has that many pairs after its first.
    fn first_slot(&self, more: u64) -> Slot
        ensures { result ≡ means.starts self.now more };

    /// What is done after the key at this place of a leaf.
    fn pair_on(&mut self, place: LeafPlace, key: u64) -> ReadNext
        ensures goes_on { (snaps : List Snap) (c : Call) (h : History) → IsReading means self.old snaps c h → IsOwnMoment c h
            → StandsIn means self.old snaps c h place → place_key h place ≡ key → MayDo means self.new snaps c h result }
        ensures same { means.call self.new ≡ means.call self.old }
        ensures nearer { (nodes : ℕ)
            → ComesNearer means self.new nodes result (slots_left place - 1 + means.behind self.old nodes) };

    /// Takes the pair at this place of a leaf, and returns what is done next.
    ///
    /// # Errors
    ///
    /// `NoMemory` where there is none to keep it.
    fn value_on(&mut self, place: LeafPlace, pair: Pair) -> Result<ReadNext, Refused>
        ensures goes_on { (snaps : List Snap) (c : Call) (h : History) → IsReading means self.old snaps c h → IsOwnMoment c h
            → TakesPair means self.old snaps c h place pair.key
            → place_value h place ≡ pair.value → GoesOnSo means self.new snaps c h result }
        ensures same { means.call self.new ≡ means.call self.old }
        ensures nearer { (nodes : ℕ) → IfOk result (λ next. ComesNearer means self.new nodes next
            (slots_left place - 3 + means.behind self.old nodes)) };

    /// Whether it looks for the pair beside a key, which is that of its walk, and on which side.
    fn beside(&self) -> Option<(u64, Side)>
        ensures { (key : ℕ) (side : Side) → result ≡ Some (key, side) → means.call self.now ≡ NeighbourOf side key };

    /// What it answers where that pair is this.
    fn tell(&self, pair: Pair) -> Self::Answer
        ensures { (key : ℕ) (side : Side) → means.call self.now ≡ NeighbourOf side key
            → means.told result ≡ pair_or_none (Some pair) };

    /// What it has found.
    fn answer(&mut self) -> Self::Answer
        ensures told { means.told result ≡ means.found self.old }
        ensures same { means.call self.new ≡ means.call self.old };
}
