//! Leaves that a pass of a trie looks up by their keys, as it rests: a pop takes a leaf of one pair
//! out of the trie with no mark.
ghost use Rattle.std.specs.Prelude.{◌≡◌, ◌<◌, ◌^◌, true};
ghost use Rattle.dict.specs.Typed.{TypedAllows};
ghost use Rattle.dict.specs.Words.{IsWordOf};
ghost use Rattle.tables.specs.Passes.{IsOf};
ghost use Rattle.forest.specs.LookUps.{HasRestedIn};
ghost use Rattle.forest.specs.Rests.{HasOnlyRested};

use crate::forest::Forest;
use crate::lasting::Lasts;
use crate::pass::Pass;
use arena::Shape;
use dict::{Dict, DictRun, WordKey, WordValue, value_of};
use order::leaf_way;
use straight::balance::in_trie;
use straight::hand::Hand;
use straight::walk;
use template::{FixedBalance, Goal};
use upkeep::leaf::OwnLeaf;

/// At how many of its slots a pass looks in a rest.
const LOOKS: u32 = 64;

/// The key of a leaf: a word.
fn key_of(leaf: OwnLeaf) -> u64
    ensures is { result ≡ leaf.key }
    ensures small { result < 2 ^ 64 }
{
    leaf.key
}

impl<K: WordKey, V: WordValue, B: FixedBalance> Forest<Dict<K, V, Lasts<B>>> {
    /// As it rests, and no period runs, and it is short of free slots: the pass looks at its next
    /// slots, and looks up by their keys the leaves of one pair that it finds there. It makes up to
    /// 7 steps for each, and those of a get.
    pub(crate) fn look_up_next(&self, pass: &mut Pass<Dict<K, V, Lasts<B>>>)
        requires pass { IsOf self.now pass.old }
        ensures pass { IsOf self.now pass.new }
        ensures share { pass.new.share ≡ pass.old.share }
        ensures rested { HasRestedIn true (TypedAllows (IsWordOf K.is_valid K.word_of) (IsWordOf V.is_valid V.word_of))
            pass.old pass.new }
    {
        self.look_at_next(pass);
        for _ in 1..LOOKS {
            self.look_at_next(pass);
        }
    }

    /// It looks at one slot.
    fn look_at_next(&self, pass: &mut Pass<Dict<K, V, Lasts<B>>>)
        requires pass { IsOf self.now pass.old }
        ensures pass { IsOf self.now pass.new }
        ensures share { pass.new.share ≡ pass.old.share }
        ensures rested { HasRestedIn true (TypedAllows (IsWordOf K.is_valid K.word_of) (IsWordOf V.is_valid V.word_of))
            pass.old pass.new }
    {
        if let Some(leaf) = self.next_leaf(pass) {
            self.look_up(pass, leaf);
        }
    }

    /// The leaf of one pair in the next slot, if it may be out.
    fn next_leaf(&self, pass: &mut Pass<Dict<K, V, Lasts<B>>>) -> Option<OwnLeaf>
        requires pass { IsOf self.now pass.old }
        ensures pass { IsOf self.now pass.new }
        ensures share { pass.new.share ≡ pass.old.share }
        ensures rested { HasOnlyRested (TypedAllows (IsWordOf K.is_valid K.word_of) (IsWordOf V.is_valid V.word_of))
            pass.old pass.new }
    {
        let Some(own) = &mut pass.kept else {
            return None;
        };
        let (words, layout) = (&self.words, &self.plan.layout);
        own.next_leaf(words, self.turns, layout, &mut pass.seat, &pass.share)
    }

    /// Looks up the key of this leaf, by a get. If the map does not have it, the leaf is out: it is
    /// noted, and found.
    fn look_up(&self, pass: &mut Pass<Dict<K, V, Lasts<B>>>, leaf: OwnLeaf)
        requires pass { IsOf self.now pass.old }
        ensures pass { IsOf self.now pass.new }
        ensures share { pass.new.share ≡ pass.old.share }
        ensures rested { HasRestedIn true (TypedAllows (IsWordOf K.is_valid K.word_of) (IsWordOf V.is_valid V.word_of))
            pass.old pass.new }
    {
        let number = pass.taken();
        let hand = Hand {
            words: &self.words,
            plan: &self.plan,
            number,
            size: Dict::<K, V, Lasts<B>>::node_size(),
        };
        let seat = &mut pass.seat;
        let way = leaf_way(in_trie::<Lasts<B>>());
        let goal = Goal::Key(key_of(leaf));
        let found = walk::to_goal::<Dict<K, V, Lasts<B>>, DictRun<K, V>>(hand, seat, way, goal).0;
        if value_of::<V>(found.value).is_some() {
            return;
        }
        let Some(own) = &mut pass.kept else {
            return;
        };
        let (words, layout) = (&self.words, &self.plan.layout);
        own.note_leaf(words, self.turns, layout, &mut pass.seat, &pass.share, leaf);
    }
}
