//! The pair beside a key.
ghost use Rattle.std.specs.Prelude.{◌≡◌};
ghost use Rattle.ordered_map.specs.TreeWords.{opposite};
ghost use Rattle.order.specs.Neighbour.{alone};

use crate::load::{LeafPlace, ReadLoad};
use crate::read::{Children, Read, ReadBegin, ReadNext};
use crate::refused::Refused;
use crate::run::ReadRun;
use arena::{Head, NodeNo, Side, Slot};
use ordered_map::{Pair, end_slot};
use std::alloc::Global;

/// The parts of a search.
#[derive(Clone, Copy, Debug, PartialEq, Eq)]
pub enum Route {
    /// At the last fork where the path of the key turns away from its side.
    Above,
    /// Down that path. The first leaf beside it is below the node `beside`, or that itself; nothing is
    /// beside it where it has turned away at no fork.
    Along { beside: Option<NodeNo> },
    /// In the leaf of that path. Of the keys that were read the one in this slot is the nearest.
    Within { slot: Slot, key: u64 },
    /// Then down to the leaf beside it; or at the pair that is the answer.
    Beyond,
}

impl Route {
    ghost use Rattle.std.specs.Prelude.{◌≡◌};
    ghost use Rattle.order.specs.Neighbour.{route_above, route_at, route_below};

    /// The part after a fork of which this child is left beside the path, or none.
    #[inline(always)]
    fn below(self, aside: Option<NodeNo>) -> Route
        ensures { result ≡ route_below self aside }
    {
        match (self, aside) {
            (Route::Above, _) => Route::Along { beside: aside },
            (Route::Along { beside: _ }, Some(_)) => Route::Along { beside: aside },
            _ => self,
        }
    }

    /// The part after the key in this slot of a leaf, which is not beyond the pair that is looked for.
    #[inline(always)]
    fn at(self, side: Side, slot: Slot, key: u64) -> Route
        ensures { result ≡ route_at side self slot key }
    {
        match (side, self) {
            (Side::Right, _) | (_, Route::Beyond) => self,
            _ => Route::Within { slot, key },
        }
    }

    /// The part at a leaf above all keys: on the right of that there is no pair.
    #[inline(always)]
    fn above_keys(self, side: Side) -> Route
        ensures { result ≡ route_above side self }
    {
        match side {
            Side::Left => self,
            Side::Right => Route::Beyond,
        }
    }
}

/// The other side.
#[inline(always)]
fn opposite(side: Side) -> Side
    ensures { result ≡ opposite side }
{
    match side {
        Side::Left => Side::Right,
        Side::Right => Side::Left,
    }
}

/// The child on this side alone.
#[inline(always)]
fn alone(side: Side) -> Children
    ensures { result ≡ alone side }
{
    match side {
        Side::Left => Children::Left,
        Side::Right => Children::Right,
    }
}

/// The pair with the next key beyond a key on a side of it, if there is one: a walk to the leaf of the
/// key; LLXs from the last fork where that turned away from the side down to the leaf again, and on to
/// the leaf beside it where the first has no such key.
#[derive(Clone, Copy, Debug, PartialEq, Eq)]
pub struct Neighbour {
    /// The key.
    pub key: u64,
    /// The side: on the right it looks for the least key above its own, on the left for the greatest
    /// below.
    pub side: Side,
    /// On which part of its way it is.
    pub route: Route,
    /// The pair that it has found.
    pub found: Option<Pair>,
}

/// A search for the pair beside a key, step by step.
pub type NeighbourRun = ReadRun<Neighbour>;

impl Neighbour {
    ghost use Rattle.std.specs.Prelude.{◌≡◌, ℕ, ◌-◌, ◌*◌, ◌<◌, ◌≤◌, None, []};
    ghost use Rattle.order.specs.Neighbour.{asks_on_route, children_on, is_answer, is_past, leaf_load, after_leaf, neighbour_means, neighbour_try_left, turn_by, ways};
    ghost use Rattle.order.specs.declared.neighbour.Route.{Route};
    ghost use Rattle.order.specs.Known.{HasNotBegun};
    ghost use Rattle.order.specs.Steps.{read_left};

    /// A search on this side of a key that has not begun, with that many tries. What it keeps grows
    /// with this allocator. In each try it asks for at most 137 steps for each node that has been taken
    /// when it ends, and for 274 more.
    #[inline(always)]
    pub fn run(alloc: Global, key: u64, side: Side, tries: u32, trie: bool) -> NeighbourRun
        ensures key { result.read.key ≡ key }
        ensures side { result.read.side ≡ side }
        ensures fresh { HasNotBegun result trie tries }
        ensures bound { (nodes : ℕ) → 0 < tries →
            read_left neighbour_means result nodes ≤ tries * neighbour_try_left nodes }
    {
        let (route, found) = (Route::Above, None);
        let read = Neighbour {
            key,
            side,
            route,
            found,
        };
        ReadRun::new(alloc, read, tries, trie)
    }

    /// Whether it loads the key of a fork with this head: beside the path of its key it goes to one
    /// side at all forks.
    #[inline(always)]
    fn asks_on_route(&self, head: Head) -> bool
        ensures { result ≡ asks_on_route self.now.route head }
    {
        match self.route {
            Route::Beyond => false,
            _ => head.class == 0,
        }
    }

    /// What it loads of a leaf of class 0 after its head: how many pairs it has, but for the first pair
    /// of the leaf on the right of the path.
    #[inline(always)]
    fn first_load(&self, node: NodeNo) -> ReadLoad
        ensures { result ≡ leaf_load self.now.side self.now.route node }
    {
        match (self.side, self.route) {
            (Side::Right, Route::Beyond) => {
                let (more, slot) = (0, Slot::First);
                let place = LeafPlace { node, more, slot };
                ReadLoad::Pair { place }
            }
            _ => ReadLoad::More { node },
        }
    }

    /// To which side the path of its key turns at a fork of class 0 with this key.
    #[inline(always)]
    fn turn(&self, key: u64) -> Side
        ensures { result ≡ turn_by self.now.key key }
    {
        if self.key < key {
            Side::Left
        } else {
            Side::Right
        }
    }

    /// Which children are to be visited of a fork at which the path of the key turns to this side.
    #[inline(always)]
    fn children(&self, turn: Side) -> Children
        ensures { result ≡ children_on self.now.side self.now.route turn }
    {
        match (self.route, self.side, turn) {
            (Route::Beyond, side, _) => alone(opposite(side)),
            (_, Side::Left, Side::Left) => Children::Left,
            (_, Side::Right, Side::Right) => Children::Right,
            _ => Children::Both,
        }
    }

    /// Which child of a fork is left aside, if these are to be visited, and to which it goes.
    #[inline(always)]
    fn ways(&self, children: Children, left: NodeNo, right: NodeNo) -> (Option<NodeNo>, NodeNo)
        ensures { result ≡ ways self.now.side children left right }
    {
        match (children, self.side) {
            (Children::Left, _) => (None, left),
            (Children::Right, _) => (None, right),
            (Children::Both, Side::Left) => (Some(left), right),
            (Children::Both, Side::Right) => (Some(right), left),
        }
    }

    /// Whether the pair with this key at its place is the answer: on the right the first that is above
    /// its own key.
    #[inline(always)]
    fn is_answer(&self, key: u64) -> bool
        ensures { result ≡ is_answer self.now.side self.now.route self.now.key key }
    {
        match (self.route, self.side) {
            (Route::Beyond, _) => true,
            (_, Side::Left) => false,
            (_, Side::Right) => self.key < key,
        }
    }

    /// Whether the pair before that with this key is the last of its leaf that may be the answer: on
    /// the left, where it is the first that is not below its own key.
    #[inline(always)]
    fn is_past(&self, key: u64) -> bool
        ensures { result ≡ is_past self.now.side self.now.key key }
    {
        match self.side {
            Side::Left => self.key <= key,
            Side::Right => false,
        }
    }

    /// What is done after the keys of a leaf that it has loaded: the nearest has the answer, or else
    /// what is beside the path, or there is none.
    #[inline(always)]
    fn leave(&mut self, node: NodeNo) -> ReadNext
        ensures new { self.new ≡ record self.old {
          route = Route.Beyond;
          found = None;
        } }
        ensures next { result ≡ after_leaf self.old.route node }
    {
        let route = self.route;
        self.route = Route::Beyond;
        self.found = None;
        match route {
            Route::Within { slot, key } => {
                let more = 0;
                let place = LeafPlace { node, more, slot };
                ReadNext::Load(ReadLoad::Value { place, key })
            }
            Route::Along { beside: Some(node) } => {
                ReadNext::Load(ReadLoad::Head { above: 0, node })
            }
            _ => ReadNext::Validate,
        }
    }
}

impl Read for Neighbour {
    type Answer = Option<Pair>;

    ghost use Rattle.order.specs.Neighbour.{neighbour_means};

    ghost means = { neighbour_means };

    #[inline(always)]
    fn begin(&mut self) -> ReadBegin<Option<Pair>> {
        self.route = Route::Above;
        let (key, side) = (self.key, opposite(self.side));
        ReadBegin::Walk { key, side }
    }

    #[inline(always)]
    fn looked(
        &mut self,
        children: Children,
        left: NodeNo,
        right: NodeNo,
    ) -> Result<NodeNo, Refused> {
        let (aside, node) = self.ways(children, left, right);
        self.route = self.route.below(aside);
        Ok(node)
    }

    #[inline(always)]
    fn head_on(&mut self, head: Head, node: NodeNo) -> ReadNext {
        let level = head.level;
        if head.leaf && head.class == 0 {
            return ReadNext::Load(self.first_load(node));
        }
        if head.leaf {
            self.route = self.route.above_keys(self.side);
            return self.leave(node);
        }
        if self.asks_on_route(head) {
            return ReadNext::Load(ReadLoad::Key { level, node });
        }
        let children = self.children(Side::Left);
        ReadNext::Look {
            children,
            level,
            node,
        }
    }

    #[inline(always)]
    fn key_on(&mut self, level: u64, node: NodeNo, key: u64) -> ReadNext {
        let children = self.children(self.turn(key));
        ReadNext::Look {
            children,
            level,
            node,
        }
    }

    #[inline(always)]
    fn first_slot(&self, more: u64) -> Slot {
        match self.route {
            Route::Beyond => end_slot(opposite(self.side), more),
            _ => Slot::First,
        }
    }

    #[inline(always)]
    fn pair_on(&mut self, place: LeafPlace, key: u64) -> ReadNext {
        if self.is_answer(key) {
            self.route = Route::Beyond;
            return ReadNext::Load(ReadLoad::Value { place, key });
        }
        if self.is_past(key) {
            return self.leave(place.node);
        }
        self.route = self.route.at(self.side, place.slot, key);
        match place.behind() {
            Some(next) => ReadNext::Load(ReadLoad::Pair { place: next }),
            None => self.leave(place.node),
        }
    }

    #[inline(always)]
    fn value_on(&mut self, _place: LeafPlace, pair: Pair) -> Result<ReadNext, Refused> {
        self.found = Some(pair);
        Ok(ReadNext::Validate)
    }

    #[inline(always)]
    fn beside(&self) -> Option<(u64, Side)> {
        Some((self.key, self.side))
    }

    #[inline(always)]
    fn tell(&self, pair: Pair) -> Option<Pair> {
        Some(pair)
    }

    #[inline(always)]
    fn answer(&mut self) -> Option<Pair> {
        self.found
    }
}
