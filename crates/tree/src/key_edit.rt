//! Edits of the map: what a rule makes of what it finds at a goal.
ghost use Rattle.std.specs.Prelude.{◌≡◌, ℕ, ◌+◌, ◌*◌, ◌-◌, ◌<◌};
ghost use Rattle.edits.specs.Steps.{update_left};
ghost use Rattle.tree.specs.KeyEdit.Means.{key_means, is_trie_end, popping, putting, taking, wants, way_of};
ghost use Rattle.template.specs.Walk.Steps.{room};

use crate::pop::PopPair;
use crate::put::PutPair;
use crate::rule::{EditGoal, EditRule};
use crate::take::TakePair;
use arena::{NodeNo, Share};
use edits::{Edit, Known, Look, Nodes, Nth, Piece, Reading, UpdateAt, UpdateRun, Work};
use ordered_map::Goal;
use prims::Snap;
use template::{Found, Way};

/// An edit: this rule at this goal.
#[derive(Clone, Copy, Debug, PartialEq, Eq)]
pub struct KeyEdit<G, R> {
    pub goal: G,
    pub rule: R,
}

/// An edit, step by step.
pub type KeyEditRun<G, R> = UpdateRun<KeyEdit<G, R>, UpdateAt>;

impl<G: EditGoal, R: EditRule> KeyEdit<G, R> {
    ghost use Rattle.ordered_map.specs.CallRules.{steps_behind};
    ghost use Rattle.ordered_map.specs.OrderedMap.{edit_key, leaves, value_left};
    ghost use Rattle.template.specs.FoundLeaf.{asked_key};

    /// An edit with `tries` tries, in the caller's call of this number; it takes fresh nodes and
    /// SCX-records out of the share, at most one SCX-record in a try, and one node, or three where
    /// its rule puts in what was absent. Where `nodes` are taken when it ends, it makes at most
    /// `tries * (3 * (2 + nodes) + n)` steps, n being 207 if it leaves a value, and else 328; in a
    /// trie 67 stands for `2 + nodes`.
    #[inline(always)]
    pub fn run(self, share: Share, tries: u32, call: u64) -> KeyEditRun<G, R>
        ensures start { result.at ≡ UpdateAt.Start }
        ensures edit { result.edit ≡ self }
        ensures share { result.share ≡ share }
        ensures call { result.call ≡ call }
        ensures tries { result.tries ≡ tries - 1 }
        ensures limit { result.limit ≡ tries }
        ensures steps { (nodes : ℕ) → 0 < tries → update_left (key_means G.goal G.trie R.rule) result nodes
            ≡ tries * (3 * (2 + room (way_of (G.goal self.goal) (G.trie self.goal) (R.rule self.rule)) nodes) + steps_behind (leaves (R.rule self.rule))) }
    {
        UpdateRun::new(self, share, tries, call, UpdateAt::Start)
    }

    /// The key at which it is, once the walk has found the leaf.
    #[inline(always)]
    fn key(&self, found: &Found) -> u64
        ensures { result ≡ asked_key (G.goal self.now.goal) found.now.key }
    {
        match self.goal.goal() {
            Goal::Key(key) => key,
            Goal::End(_) => found.key,
        }
    }

    /// The key that it changes there, and the value that it leaves, if it leaves one.
    pub fn change(&self, found: &Found) -> (u64, Option<u128>)
        ensures key { result.0 ≡ edit_key ((key_means G.goal G.trie R.rule).edit self.now found.now) }
        ensures left { result.1 ≡ value_left ((key_means G.goal G.trie R.rule).edit self.now found.now) }
    {
        (self.key(found), self.rule.leaves())
    }

    /// Whether it changes anything at that leaf.
    #[inline(always)]
    fn wants(&self, found: &Found) -> bool
        ensures { result ≡ wants (G.goal self.now.goal) (R.rule self.now.rule) found.now.value }
    {
        match self.goal.goal() {
            Goal::Key(_) => self.rule.applies(found.value),
            Goal::End(_) => found.value.is_some() && self.rule.applies(found.value),
        }
    }

    /// What it does there, where it leaves this value.
    #[inline(always)]
    fn put(&self, found: &Found, value: u128) -> PutPair
        ensures { result ≡ putting (G.trie self.now.goal) (asked_key (G.goal self.now.goal) found.now.key) value }
    {
        PutPair {
            key: self.key(found),
            value,
            trie: self.goal.in_trie(),
        }
    }

    /// Whether it is at an end of a trie.
    #[inline(always)]
    fn is_at_trie_end(&self) -> bool
        ensures { result ≡ is_trie_end (G.goal self.now.goal) (G.trie self.now.goal) }
    {
        match self.goal.goal() {
            Goal::Key(_) => false,
            Goal::End(_) => self.goal.in_trie(),
        }
    }

    /// And where it leaves none at an end of a trie.
    #[inline(always)]
    fn pop(&self, found: &Found) -> PopPair
        ensures { result ≡ popping (asked_key (G.goal self.now.goal) found.now.key) }
    {
        PopPair {
            key: self.key(found),
        }
    }

    /// And elsewhere.
    #[inline(always)]
    fn take(&self, found: &Found) -> TakePair
        ensures { result ≡ taking (G.trie self.now.goal) (asked_key (G.goal self.now.goal) found.now.key) }
    {
        TakePair {
            key: self.key(found),
            trie: self.goal.in_trie(),
        }
    }
}

impl<G: EditGoal, R: EditRule> Edit for KeyEdit<G, R> {
    ghost use Rattle.tree.specs.Laws.KeyEdit.{key_laws};

    ghost means = { key_means G.goal G.trie R.rule };

    fn goal(&self) -> Goal {
        self.goal.goal()
    }

    /// In a trie what puts in what was absent ends at a fork that its key does not share; nothing
    /// is put in at an end of one.
    #[inline(always)]
    fn way(&self) -> Way {
        if !self.goal.in_trie() {
            return Way::InTree;
        }
        match (self.rule.leaves(), self.goal.goal()) {
            (None, _) => Way::InTrie,
            (Some(_), Goal::Key(_)) if !self.rule.applies(None) => Way::InTrie,
            (Some(_), _) => Way::Within,
        }
    }

    #[inline(always)]
    fn guard(&self) -> bool {
        match self.rule.leaves() {
            Some(_) => false,
            None => self.is_at_trie_end(),
        }
    }

    #[inline(always)]
    fn work(&self, found: &Found) -> Work {
        if !self.wants(found) {
            return Work::none();
        }
        match self.rule.leaves() {
            Some(value) => self.put(found, value).work(found),
            None if self.is_at_trie_end() => self.pop(found).work(found),
            None => self.take(found).work(found),
        }
    }

    #[inline(always)]
    fn look(&self, found: &Found, snaps: &[Snap]) -> Look {
        match self.rule.leaves() {
            Some(value) => self.put(found, value).look(found, snaps),
            None if self.is_at_trie_end() => self.pop(found).look(found, snaps),
            None => self.take(found).look(found, snaps),
        }
    }

    #[inline(always)]
    fn reads(&self, found: &Found, snaps: &[Snap]) -> Option<(NodeNo, Known)> {
        match self.rule.leaves() {
            Some(value) => self.put(found, value).reads(found, snaps),
            None if self.is_at_trie_end() => self.pop(found).reads(found, snaps),
            None => self.take(found).reads(found, snaps),
        }
    }

    #[inline(always)]
    fn piece(
        &self,
        found: &Found,
        snaps: &[Snap],
        nodes: &Nodes,
        read: &Reading,
        nth: Nth,
    ) -> Piece {
        match self.rule.leaves() {
            Some(value) => self.put(found, value).piece(found, snaps, nodes, read, nth),
            None if self.is_at_trie_end() => {
                self.pop(found).piece(found, snaps, nodes, read, nth)
            }
            None => self.take(found).piece(found, snaps, nodes, read, nth),
        }
    }

    ghost laws = { key_laws G.goal G.trie R.rule };
}
