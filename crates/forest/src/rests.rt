//! What a pass of a dictionary whose records come back does between two calls.
ghost use Rattle.std.specs.Prelude.{◌≡◌, ◌≢◌, ◌<◌, IfSome};
ghost use Rattle.dict.specs.Typed.{TypedAllows};
ghost use Rattle.dict.specs.Words.{IsWordOf};
ghost use Rattle.tables.specs.Passes.{IsOf};
ghost use Rattle.forest.specs.LookUps.{HasRestedIn};
ghost use Rattle.forest.specs.Rests.{HasOnlyRested};

use crate::forest::Forest;
use crate::lasting::Lasts;
use crate::pass::Pass;
use arena::PassNo;
use dict::{Dict, WordKey, WordValue};
use straight::balance::in_trie;
use template::FixedBalance;

impl<K: WordKey, V: WordValue, B: FixedBalance> Forest<Dict<K, V, Lasts<B>>> {
    /// The pass rests, between two calls: once all others have rested or are away since it began to
    /// wait for them, what they could still come to is out of reach, and what it has found dead by
    /// then comes back. It answers the first that it waits for.
    ///
    /// It makes up to 2 steps for each pass, and where all have rested up to 20 for each of its nodes
    /// and SCX-records, whatever others do; in a trie that is short of nodes it may look up the keys
    /// of 64 leaves, then up to 7 steps and those of a get for each. It takes no memory.
    pub fn rest(&self, pass: &mut Pass<Dict<K, V, Lasts<B>>>) -> Option<PassNo>
        requires pass { IsOf self.now pass.old }
        ensures pass { IsOf self.now pass.new }
        ensures rested { HasRestedIn (B.trie B.the)
            (TypedAllows (IsWordOf K.is_valid K.word_of) (IsWordOf V.is_valid V.word_of))
            pass.old pass.new }
        ensures waits { IfSome result (λ other. (other.0 < pass.new.layout.passes) × (other.0 ≢ pass.new.number)) }
    {
        self.begin_rest(pass);
        if in_trie::<B>() {
            self.look_up_next(pass);
            return self.end_rest(pass);
        }
        self.end_rest(pass)
    }

    /// It begins to rest.
    fn begin_rest(&self, pass: &mut Pass<Dict<K, V, Lasts<B>>>)
        requires pass { IsOf self.now pass.old }
        ensures pass { IsOf self.now pass.new }
        ensures share { pass.new.share ≡ pass.old.share }
        ensures rested { HasOnlyRested (TypedAllows (IsWordOf K.is_valid K.word_of) (IsWordOf V.is_valid V.word_of))
            pass.old pass.new }
    {
        let Some(own) = &mut pass.kept else {
            return;
        };
        let (words, layout) = (&self.words, &self.plan.layout);
        let seat = &mut pass.seat;
        own.rest(words, self.turns, layout, seat, pass.number, &pass.share);
    }

    /// It ends to rest.
    fn end_rest(&self, pass: &mut Pass<Dict<K, V, Lasts<B>>>) -> Option<PassNo>
        requires pass { IsOf self.now pass.old }
        ensures pass { IsOf self.now pass.new }
        ensures rested { HasOnlyRested (TypedAllows (IsWordOf K.is_valid K.word_of) (IsWordOf V.is_valid V.word_of))
            pass.old pass.new }
        ensures waits { IfSome result (λ other. (other.0 < pass.new.layout.passes) × (other.0 ≢ pass.new.number)) }
    {
        let Some(own) = &mut pass.kept else {
            return None;
        };
        own.end_rest(
            &self.words,
            self.turns,
            &self.plan.layout,
            &mut pass.seat,
            pass.number,
            &mut pass.share,
        )
    }
}
