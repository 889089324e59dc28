//! How passes of a dictionary whose records come back come to know what others know.
ghost use Rattle.std.specs.Prelude.{◌≡◌, ◌≢◌, ◌++◌, ℕ, [], ◌∷◌, Some};
ghost use Rattle.atomic_table.specs.Table.{Allows, Me};
ghost use Rattle.planting.specs.Plantings.{PlantingView};
ghost use Rattle.dict.specs.Typed.{TypedAllows};
ghost use Rattle.dict.specs.Words.{IsWordOf};
ghost use Rattle.slots.specs.Lasting.{Lasting};
ghost use Rattle.tables.specs.LastingRule.{TableLasts};
ghost use Rattle.tables.specs.Passes.{HaveLeftShares, IsOf, run_of};
ghost use Rattle.tables.specs.Seats.{IsSameSeat, IsSeatAt};
ghost use Rattle.tables.specs.declared.rule.Turns.{Turns};
ghost use Rattle.tables.specs.declared.view.SeatView.{SeatView};
ghost use Rattle.tables.specs.declared.view.SeatedPass.{SeatedPass};
ghost use Rattle.forest.specs.LastingMeets.{AllLearn, HasOnlyLearnt, SharedRun, all_aware};

use crate::forest::Forest;
use crate::lasting::Lasts;
use crate::pass::Pass;
use arena::Shape;
use atomic_table::Seat;
use dict::{Dict, WordKey, WordValue};
use resting::unborn_stays_out;
use std::marker::Brand;
use std::mem::replace;
use tables::view::SeatView;
use tables::words::Words;
use template::FixedBalance;

/// All passes of a seat come to know the run by a load of any word, and remember what they did. It
/// does nothing; a caller learns this from its contract.
pub fn learns_last<S: Shape>()
    ensures { (t : Lasting) (planting : PlantingView) (slots id : ℕ) (me : Me ℕ SeatView) (at : ℕ)
        → Allows (TableLasts S.allows t planting) slots id me at (λ n. n)
        (λ n w. AllLearn S.allows me.0 w.0 × (w.1 ≡ me.1)) }
{}

impl<K: WordKey, V: WordValue, B: FixedBalance> Forest<Dict<K, V, Lasts<B>>> {
    /// Two passes come to know what both know, by one load of a word, which leaves no row. What
    /// one of them has blamed has left the other's share by then.
    pub fn meet(&self, one: &mut Pass<Dict<K, V, Lasts<B>>>, other: &mut Pass<Dict<K, V, Lasts<B>>>)
        requires one { IsOf self.now one.old }
        requires other { IsOf self.now other.old }
        ensures passes { IsOf self.now one.new × IsOf self.now other.new }
        ensures apart { one.old.number ≢ other.old.number }
        ensures learnt { HasOnlyLearnt (TypedAllows (IsWordOf K.is_valid K.word_of) (IsWordOf V.is_valid V.word_of)) one.old one.new
            × HasOnlyLearnt (TypedAllows (IsWordOf K.is_valid K.word_of) (IsWordOf V.is_valid V.word_of)) other.old other.new }
        ensures know { run_of one.new ≡ run_of other.new }
        ensures left { HaveLeftShares (one.new ∷ other.new ∷ []) }
    {
        unborn_stays_out();
        learn_both(&self.words, &mut one.seat, &mut other.seat);
    }
}

/// The passes of two seats with one pass each come to know the run.
fn learn_both<S: Shape>(
    words: &Words<S>,
    one: &mut Seat<u8, SeatView>,
    other: &mut Seat<u8, SeatView>,
)
    requires lasts { (turns : Turns) × (words.now.table.shared.key.turns ≡ Some turns) }
    requires seats { IsSeatAt words.now one.old × IsSeatAt words.now other.old }
    requires bare { (one.old.me.1 ≡ []) × (other.old.me.1 ≡ []) }
    requires one { (p : SeatedPass) × (one.old.me.0.passes ≡ p ∷ []) }
    requires other { (q : SeatedPass) × (other.old.me.0.passes ≡ q ∷ []) }
    ensures seats { IsSameSeat one.old one.new × IsSameSeat other.old other.new }
    ensures learnt { (x : SharedRun S.allows (other.old.me.0.passes ++ one.old.me.0.passes))
        × (one.new.me.0.passes ≡ all_aware x.rows one.old.me.0.passes)
        × (other.new.me.0.passes ≡ all_aware x.rows other.old.me.0.passes) }
{
    let mine = words.deal(one);
    words.take_in(other, mine);
    learn_all(words, other);
    let theirs = words.deal(other);
    *one = replace(other, theirs);
}

/// All passes of a seat come to know the run.
fn learn_all<S: Shape>(words: &Words<S>, seat: &mut Seat<u8, SeatView>)
    requires lasts { (turns : Turns) × (words.now.table.shared.key.turns ≡ Some turns) }
    requires table { IsSeatAt words.now seat.old }
    ensures table { IsSameSeat seat.old seat.new }
    ensures learnt { AllLearn S.allows seat.old.me.0 seat.new.me.0 }
{
    learns_last::<S>();
    words.load_with::<Brand, ()>(seat, 0, ());
}
