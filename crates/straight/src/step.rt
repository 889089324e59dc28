//! Steps of a call without a machine: only clauses say which place its machine would be at.
ghost use Rattle.std.specs.Prelude.{◌≡◌, suc, [], ◌∷◌};
ghost use Rattle.arena.specs.Machines.{Call};
ghost use Rattle.tables.specs.declared.view.SeatedPass.{SeatedPass};
ghost use Rattle.tables.specs.Seats.{StaysAtTable};
ghost use Rattle.tables.specs.Traces.{IsStepBehind, known_of, Told, Waits};
ghost use Rattle.tables.specs.Slotted.{word_begins};
ghost use Rattle.straight.specs.Leads.{steps_made};
ghost use Rattle.straight.specs.Hands.{IsAt, IsCallOf, hand_slots};

use crate::call_machine::CallMachine;
use crate::hand::Hand;
use arena::{Step, place_from};
use atomic_table::Seat;
use std::marker::Brand;
use tables::rule::CallStep;
use tables::table_shape::TableShape;
use tables::view::SeatView;

/// Makes the step for which a machine of this type waits, on a word whose node or SCX-record begins
/// there, and answers what the machine may get.
#[inline(always)]
pub fn step_from<S: TableShape, M: CallMachine<S>>(
    hand: Hand<S>,
    seat: &mut Seat<u8, SeatView>,
    step: Step,
    start: usize,
) -> u64
    requires table { IsAt S.mode S.lasts hand seat.old }
    requires start { start ≡ word_begins (hand_slots hand) step.word }
    requires waits { (c : Call) × (first : M) × (m : M) × IsCallOf hand c
        × Waits S.allows M.waits M.same M.left_dealt c seat.old.me.0.passes first m step }
    ensures table { StaysAtTable seat.old seat.new }
    ensures told { (c : Call) (first m : M) → IsCallOf hand.entry c
        → Waits S.allows M.waits M.same M.left_dealt c seat.old.me.0.passes first m step
        → Told S.allows M.waits M.same M.left_dealt c seat.new.me.0.passes first M.ready m result }
    ensures one { steps_made seat.new ≡ suc (steps_made seat.old) }
    ensures row { (p : SeatedPass) × (seat.old.me.0.passes ≡ p ∷ [])
        × IsStepBehind p.known (known_of seat.new.me.0.passes) p.number.0 hand.entry.number
        step.kind }
{
    let at = place_from(start, step.word);
    let asked = CallStep {
        call: hand.number,
        step,
    };
    hand.words.make::<Brand>(seat, &asked, at)
}

/// Makes the step for which a machine of this type waits, and answers what the machine may get.
#[inline(always)]
pub fn step<S: TableShape, M: CallMachine<S>>(
    hand: Hand<S>,
    seat: &mut Seat<u8, SeatView>,
    step: Step,
) -> u64
    requires table { IsAt S.mode S.lasts hand seat.old }
    requires waits { (c : Call) × (first : M) × (m : M) × IsCallOf hand c
        × Waits S.allows M.waits M.same M.left_dealt c seat.old.me.0.passes first m step }
    ensures table { StaysAtTable seat.old seat.new }
    ensures told { (c : Call) (first m : M) → IsCallOf hand.entry c
        → Waits S.allows M.waits M.same M.left_dealt c seat.old.me.0.passes first m step
        → Told S.allows M.waits M.same M.left_dealt c seat.new.me.0.passes first M.ready m result }
    ensures one { steps_made seat.new ≡ suc (steps_made seat.old) }
    ensures row { (p : SeatedPass) × (seat.old.me.0.passes ≡ p ∷ [])
        × IsStepBehind p.known (known_of seat.new.me.0.passes) p.number.0 hand.entry.number
        step.kind }
{
    let start = hand.start_of(step.word);
    step_from::<S, M>(hand, seat, step, start)
}
