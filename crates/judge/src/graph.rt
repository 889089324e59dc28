//! Places, and which of them links lead to. A place is reached once, and its links are followed
//! once.
use arena::NoMemory;
use std::alloc::Global;
use std::mem::replace;
use std::snapshot::Snapshot;

/// A link to a place, and where the one before it from the same place is.
#[derive(Clone, Copy, Debug)]
pub(crate) struct Link {
    pub(crate) to: usize,
    pub(crate) before: Option<usize>,
}

/// All links that were ever made. Only proofs read them: no bytes are kept.
#[derive(Drop)]
pub(crate) enum LinkList {
    Nothing,
    Newer(usize, usize, Snapshot<LinkList>),
}

/// Which places are reached from place 0, and the links from those that are not.
#[derive(Drop)]
pub(crate) struct Graph {
    /// Which places are reached.
    pub(crate) reached: Vec<bool>,
    /// Where the newest link from each place is.
    pub(crate) newest: Vec<Option<usize>>,
    pub(crate) links: Vec<Link>,
    /// Places that are reached, while their links are not followed yet.
    pub(crate) fresh: Vec<usize>,
    pub(crate) all: Snapshot<LinkList>,
}

impl Graph {
    ghost use Rattle.std.specs.Prelude.{◌≡◌, ◌↔◌, ℕ, ◌+◌, ◌<◌, IsTrue, IfOk, OnOk, true, false, if◌then◌else◌, [], ◌∷◌, ◌++◌, slice_set, vec_len, length};
    ghost use Rattle.judge.specs.Graph.{IsReached, Spreads, IsGraph, HasRoomLeft, HasSpare, KeepsLinks, HasOneLinkMore, has_flag, count_unset, newest_from, links_of};

    /// `size` places, the first of which alone is reached. The only error is want of memory.
    pub(crate) fn new(alloc: Global, size: usize) -> Result<Graph, NoMemory>
        requires { 0 < size }
        ensures graph { IfOk result IsGraph }
        ensures size { IfOk result (λ g. length g.reached.items ≡ size) }
        ensures none { IfOk result (λ g. links_of g ≡ []) }
    {
        let mut reached = vec![in alloc; false; size]?;
        reached[0] = true;
        Ok(Graph {
            reached,
            newest: vec![in alloc; None; size]?,
            links: Vec::new(alloc),
            fresh: Vec::with_capacity(alloc, size)?,
            all: Snapshot::of(&LinkList::Nothing),
        })
    }

    /// Makes room for two links more.
    pub(crate) fn reserve(&mut self) -> Result<(), NoMemory>
        ensures spare { OnOk result (HasSpare 2 self.new) }
        ensures graph { IsGraph self.old → IsGraph self.new }
        ensures size { length self.new.reached.items ≡ length self.old.reached.items }
        ensures all { links_of self.new ≡ links_of self.old }
    {
        self.links.reserve(2)?;
        Ok(())
    }

    /// Whether a place is reached.
    pub(crate) fn has(&self, at: usize) -> bool
        requires { at < length self.now.reached.items }
        ensures { IsGraph self.now → IsTrue result ↔ IsReached (links_of self.now) at }
    {
        self.reached[at]
    }

    /// A link more.
    pub(crate) fn link(&mut self, from: usize, to: usize)
        requires graph { IsGraph self.old }
        requires spare { HasSpare 1 self.old }
        requires from { from < length self.old.reached.items }
        requires to { to < length self.old.reached.items }
        ensures more { HasOneLinkMore self.old self.new from to }
        ensures spare { (k : ℕ) → HasSpare (k + 1) self.old → HasSpare k self.new }
    {
        if self.reached[from] {
            self.start(from, to);
        } else {
            self.store(from, to);
        }
    }

    /// A link more from a place that is reached.
    pub(crate) fn start(&mut self, from: usize, to: usize)
        requires graph { IsGraph self.old }
        requires from { has_flag self.old.reached.items from ≡ true }
        requires to { to < length self.old.reached.items }
        ensures more { HasOneLinkMore self.old self.new from to }
        ensures links { self.new.links ≡ self.old.links }
    {
        self.reach(to);
        self.remember(from, to);
        self.spread();
    }

    /// A link more from a place that is not reached.
    fn store(&mut self, from: usize, to: usize)
        requires graph { IsGraph self.old }
        requires from { has_flag self.old.reached.items from ≡ false }
        requires inside { from < length self.old.reached.items }
        requires to { to < length self.old.reached.items }
        requires spare { HasSpare 1 self.old }
        ensures more { HasOneLinkMore self.old self.new from to }
        ensures spare { (k : ℕ) → HasSpare (k + 1) self.old → HasSpare k self.new }
    {
        let before = self.newest[from];
        self.newest[from] = Some(self.links.len());
        self.links.push_reserved(Link { to, before });
        self.remember(from, to);
    }

    /// A link is one of all that were ever made.
    fn remember(&mut self, from: usize, to: usize)
        ensures all { links_of self.new ≡ (from, to) ∷ links_of self.old }
        ensures reached { self.new.reached ≡ self.old.reached }
        ensures newest { self.new.newest ≡ self.old.newest }
        ensures links { self.new.links ≡ self.old.links }
        ensures fresh { self.new.fresh ≡ self.old.fresh }
    {
        let before = replace(&mut self.all, Snapshot::of(&LinkList::Nothing));
        self.all = Snapshot::of(&LinkList::Newer(from, to, before));
    }

    /// A place is reached. Its links are still to be followed.
    fn reach(&mut self, at: usize)
        requires inside { at < length self.old.reached.items }
        requires room { HasRoomLeft self.old }
        ensures reached { self.new.reached.items ≡ slice_set self.old.reached.items at true }
        ensures fresh { self.new.fresh.items ≡
            (if has_flag self.old.reached.items at
            then self.old.fresh.items
            else self.old.fresh.items ++ at ∷ []) }
        ensures count { vec_len self.new.fresh + count_unset self.new.reached.items ≡
            vec_len self.old.fresh + count_unset self.old.reached.items }
        ensures room { HasRoomLeft self.new }
        ensures keeps { KeepsLinks self.old self.new }
    {
        if !self.reached[at] {
            self.reached[at] = true;
            self.fresh.push_reserved(at);
        }
    }

    /// Reaches what the links from reached places lead to.
    fn spread(&mut self)
        requires sizes { length self.old.newest.items ≡ length self.old.reached.items }
        requires spreads { Spreads self.old 0 None }
        requires room { HasRoomLeft self.old }
        ensures graph { IsGraph self.new }
        ensures size { length self.new.reached.items ≡ length self.old.reached.items }
        ensures keeps { KeepsLinks self.old self.new }
    {
        while let Some(from) = self.fresh.pop() {
            self.follow(from);
        }
    }

    /// Reaches what the links from a place lead to.
    fn follow(&mut self, from: usize)
        requires inside { from < length self.old.newest.items }
        requires spreads { Spreads self.old from (newest_from self.old.newest.items from) }
        requires room { HasRoomLeft self.old }
        ensures spreads { Spreads self.new 0 None }
        ensures room { HasRoomLeft self.new }
        ensures count { vec_len self.new.fresh + count_unset self.new.reached.items ≡
            vec_len self.old.fresh + count_unset self.old.reached.items }
        ensures size { length self.new.reached.items ≡ length self.old.reached.items }
        ensures keeps { KeepsLinks self.old self.new }
    {
        let mut at = self.newest[from];
        while let Some(place) = at {
            let Link { to, before } = self.links[place];
            self.reach(to);
            at = before;
        }
    }
}
