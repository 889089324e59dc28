//! Range.
ghost use Rattle.std.specs.Prelude.{◌≡◌};

use crate::load::{LeafPlace, ReadLoad};
use crate::push::push_onto;
use crate::read::{Children, Read, ReadBegin, ReadNext};
use crate::refused::Refused;
use crate::run::ReadRun;
use arena::{Head, NodeNo, Side, Slot};
use ordered_map::Pair;
use std::alloc::Global;
use std::mem;

/// The first pairs by key of those with keys from `low` to `high`: visits from the root down.
#[derive(Debug, Drop)]
pub struct Range {
    pub low: u64,
    pub high: u64,
    /// How many pairs it answers at most.
    pub most: usize,
    /// With what the lists grow.
    pub alloc: Global,
    /// The nodes that are still to be visited, the next one last.
    pub waiting: Vec<NodeNo>,
    /// The pairs of this try.
    pub taken: Vec<Pair>,
    /// How many leaves it may still visit in this try.
    pub leaves: usize,
}

/// A range, step by step.
pub type RangeRun = ReadRun<Range>;

impl Range {
    ghost use Rattle.std.specs.Prelude.{◌≡◌, ℕ, ◌+◌, ◌-◌, ◌*◌, ◌<◌, ◌≤◌, List, []};
    ghost use Rattle.arena.specs.History.{History};
    ghost use Rattle.arena.specs.Machines.{Call};
    ghost use Rattle.prims.specs.declared.snap.Snap.{Snap};
    ghost use Rattle.order.specs.Next.{MayDo};
    ghost use Rattle.order.specs.Paths.{ComesNearer, slots_left};
    ghost use Rattle.order.specs.Range.{AreWithin, GoesBehind, GoesOnBehind, range_means, range_try_left};
    ghost use Rattle.order.specs.Known.{HasNotBegun};
    ghost use Rattle.order.specs.Steps.{read_left};

    /// A range of keys that has not begun, with `tries` tries. What it keeps grows with this
    /// allocator. What is said of its turns holds for a `most` of up to 64. In each try it asks for
    /// at most 67 steps for each node that has been taken when it ends, and for 134 more; and that
    /// for each of the pairs it is to answer at most, and twice more.
    #[inline(always)]
    pub fn run(alloc: Global, low: u64, high: u64, most: usize, tries: u32, trie: bool) -> RangeRun
        ensures low { result.read.low ≡ low }
        ensures high { result.read.high ≡ high }
        ensures most { result.read.most ≡ most }
        ensures fresh { HasNotBegun result trie tries }
        ensures bound { (nodes : ℕ) → 0 < tries →
            read_left range_means result nodes ≤ tries * range_try_left most nodes }
    {
        let (waiting, taken) = (Vec::new(alloc), Vec::new(alloc));
        let read = Range {
            low,
            high,
            most,
            alloc,
            waiting,
            taken,
            leaves: 0,
        };
        ReadRun::new(alloc, read, tries, trie)
    }

    /// Which children of a fork of class 0 with this key are to be visited.
    #[inline(always)]
    fn children(&self, key: u64) -> Children
        ensures { self.now.low ≤ self.now.high → AreWithin self.now key result }
    {
        match (self.low < key, key <= self.high) {
            (true, true) => Children::Both,
            (true, false) => Children::Left,
            (false, _) => Children::Right,
        }
    }

    /// What is done after a leaf, if fewer pairs are taken than it answers at most.
    #[inline(always)]
    fn visited(&mut self) -> ReadNext
        ensures goes_on { (snaps : List Snap) (c : Call) (h : History) → GoesBehind self.old snaps c h (self.old.leaves - 1)
            → MayDo range_means self.new snaps c h result }
        ensures same { range_means.call self.new ≡ range_means.call self.old }
        ensures nearer { (nodes : ℕ) →
            ComesNearer range_means self.new nodes result (range_means.behind self.old nodes) }
    {
        self.leaves = self.leaves.saturating_sub(1);
        if self.leaves == 0 {
            return ReadNext::Validate;
        }
        match self.waiting.pop() {
            Some(node) => ReadNext::Load(ReadLoad::Head { above: 0, node }),
            None => ReadNext::Validate,
        }
    }

    /// What is done after a pair of a leaf: no more is loaded once as many are taken as it answers.
    #[inline(always)]
    fn go_on(&mut self, place: LeafPlace) -> ReadNext
        ensures goes_on { (snaps : List Snap) (c : Call) (h : History) →
            GoesOnBehind self.old snaps c h place → MayDo range_means self.new snaps c h result }
        ensures same { range_means.call self.new ≡ range_means.call self.old }
        ensures nearer { (nodes : ℕ) →
            ComesNearer range_means self.new nodes result (slots_left place - 3 + range_means.behind self.old nodes) }
    {
        if self.taken.len() >= self.most {
            return ReadNext::Validate;
        }
        match place.behind() {
            Some(place) => ReadNext::Load(ReadLoad::Pair { place }),
            None => self.visited(),
        }
    }
}

impl Read for Range {
    type Answer = Vec<Pair>;

    ghost use Rattle.order.specs.Range.{range_means};

    ghost means = { range_means };

    /// Of no keys, and of no pairs, it knows the answer.
    #[inline(always)]
    fn begin(&mut self) -> ReadBegin<Vec<Pair>> {
        self.waiting.clear();
        self.taken.clear();
        self.leaves = self.most.saturating_add(2);
        if self.most == 0 {
            return ReadBegin::Answer(Vec::new(self.alloc));
        }
        if self.high < self.low {
            return ReadBegin::Answer(Vec::new(self.alloc));
        }
        ReadBegin::Root
    }

    #[inline(always)]
    fn looked(
        &mut self,
        children: Children,
        left: NodeNo,
        right: NodeNo,
    ) -> Result<NodeNo, Refused> {
        match children {
            Children::Both => {
                if push_onto(&mut self.waiting, right) {
                    Ok(left)
                } else {
                    Err(Refused::NoMemory)
                }
            }
            Children::Left => Ok(left),
            Children::Right => Ok(right),
        }
    }

    /// On the right of what is above all keys there is no pair.
    #[inline(always)]
    fn head_on(&mut self, head: Head, node: NodeNo) -> ReadNext {
        let level = head.level;
        match (head.leaf, head.class == 0) {
            (true, true) => ReadNext::Load(ReadLoad::More { node }),
            (true, false) => self.visited(),
            (false, true) => ReadNext::Load(ReadLoad::Key { level, node }),
            (false, false) => {
                let children = Children::Left;
                ReadNext::Look {
                    children,
                    level,
                    node,
                }
            }
        }
    }

    #[inline(always)]
    fn key_on(&mut self, level: u64, node: NodeNo, key: u64) -> ReadNext {
        let children = self.children(key);
        ReadNext::Look {
            children,
            level,
            node,
        }
    }

    #[inline(always)]
    fn first_slot(&self, _more: u64) -> Slot {
        Slot::First
    }

    #[inline(always)]
    fn pair_on(&mut self, place: LeafPlace, key: u64) -> ReadNext {
        if self.low > key || key > self.high {
            self.go_on(place)
        } else {
            ReadNext::Load(ReadLoad::Value { place, key })
        }
    }

    #[inline(always)]
    fn value_on(&mut self, place: LeafPlace, pair: Pair) -> Result<ReadNext, Refused> {
        if push_onto(&mut self.taken, pair) {
            Ok(self.go_on(place))
        } else {
            Err(Refused::NoMemory)
        }
    }

    #[inline(always)]
    fn beside(&self) -> Option<(u64, Side)> {
        None
    }

    #[inline(always)]
    fn tell(&self, _pair: Pair) -> Vec<Pair> {
        Vec::new(self.alloc)
    }

    #[inline(always)]
    fn answer(&mut self) -> Vec<Pair> {
        mem::replace(&mut self.taken, Vec::new(self.alloc))
    }
}
