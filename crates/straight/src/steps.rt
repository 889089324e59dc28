//! What is left of calls of machines, step by step: of calls of their own, and of calls inside
//! those of other machines.
ghost use Rattle.std.specs.Prelude.{◌≡◌, ◌<◌, ◌≤◌, ◌+◌, suc, [], ◌∷◌};
ghost use Rattle.arena.specs.Machines.{MatchTurn};
ghost use Rattle.tables.specs.Traces.{IsStepBehind, known_of, seat_steps, shared_nodes, weight};
ghost use Rattle.tables.specs.declared.view.SeatedPass.{SeatedPass};
ghost use Rattle.tables.specs.Seats.{IsSeatAt, StaysAtTable};
ghost use Rattle.tables.specs.Slotted.{names_of_table};
ghost use Rattle.tables.specs.TablePlans.{IsTableOf};
ghost use Rattle.straight.specs.CallKinds.{calls};
ghost use Rattle.straight.specs.Hosts.{Host, HostedEnds, HostedStands, HostedWaits, inner_machine};
ghost use Rattle.straight.specs.Hands.{IsAt, hand_calls, names};

use crate::call_machine::CallMachine;
use crate::hand::Hand;
use crate::step::step;
use arena::{Machine, Shape, Step, Turn};
use atomic_table::Seat;
use tables::table_plan::TablePlan;
use tables::table_shape::TableShape;
use tables::view::SeatView;
use tables::words::Words;

/// Makes the step for which a machine waits, and calls it with the result.
#[inline(always)]
pub fn advance<S: TableShape, M: CallMachine<S>, T: Shape, N: Machine<T>>(
    hand: Hand<S>,
    seat: &mut Seat<u8, SeatView>,
    machine: &mut N,
    asked: Step,
) -> Turn<N::Answer>
    requires table { IsAt S.mode S.lasts hand seat.old }
    requires waits { (k : Host (hand_calls S.Shape M.Machine M.left_dealt hand)
        (inner_machine T.Shape N.Machine))
        × HostedWaits k seat.old.me.0.passes machine.old asked }
    ensures table { StaysAtTable seat.old seat.new }
    ensures stands { (k : Host (hand_calls S.Shape M.Machine M.left_dealt hand.entry)
        (inner_machine T.Shape N.Machine))
        → HostedWaits k seat.old.me.0.passes machine.old asked
        → HostedStands k seat.new.me.0.passes machine.new result }
    ensures one { seat_steps seat.new.me.0.passes ≡ suc (seat_steps seat.old.me.0.passes) }
    ensures row { (p : SeatedPass) × (seat.old.me.0.passes ≡ p ∷ [])
        × IsStepBehind p.known (known_of seat.new.me.0.passes) p.number.0 hand.entry.number asked.kind }
    ensures nearer { MatchTurn result
        (λ _. N.left machine.new (shared_nodes (names hand.entry))
        < N.left machine.old (shared_nodes (names hand.entry)))
        (λ _. Unit {0}) }
{
    let found = step::<S, M>(hand, seat, asked);
    machine.next(Some(found))
}

/// Makes the rest of a call from this turn of its machine on.
/// Words, plan and number are separate: in one value they would go through memory, and the
/// number, which no code reads, would be computed for it by each call.
#[cold]
#[inline(never)]
pub fn complete<S: TableShape, M: CallMachine<S>, T: Shape, N: Machine<T>>(
    words: &Words<S>,
    plan: &TablePlan,
    seat: &mut Seat<u8, SeatView>,
    number: u64,
    machine: &mut N,
    mut turn: Turn<N::Answer>,
) -> N::Answer
    requires table { IsTableOf S.mode S.lasts words.now.table.shared.table_id
        words.now.table.shared.key plan.now }
    requires seat { IsSeatAt words.now seat.old }
    requires stands { (k : Host (calls S.Shape M.Machine M.left_dealt
        (names_of_table words.now.table.shared.key) number) (inner_machine T.Shape N.Machine))
        × HostedStands k seat.old.me.0.passes machine.old turn }
    ensures table { StaysAtTable seat.old seat.new }
    ensures ends { (k : Host (calls S.Shape M.Machine M.left_dealt
        (names_of_table words.now.table.shared.key) number) (inner_machine T.Shape N.Machine))
        → HostedStands k seat.old.me.0.passes machine.old turn
        → HostedEnds k seat.new.me.0.passes machine.new result }
    ensures steps { seat_steps seat.new.me.0.passes
        ≤ seat_steps seat.old.me.0.passes + weight turn (N.left machine.old
        (shared_nodes (names_of_table words.now.table.shared.key))) }
{
    let hand = Hand {
        words,
        plan,
        number,
        size: plan.layout.mode.node_size(),
    };
    loop {
        match turn {
            Turn::Ask(asked) => {
                turn = advance::<S, M, T, N>(hand, seat, machine, asked);
            }
            Turn::Done(answer) => return answer,
        }
    }
}
