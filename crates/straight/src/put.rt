//! An SCX with a fresh cell, with its steps inline.
ghost use Rattle.std.specs.Prelude.{◌≡◌, ◌≤◌, ◌+◌, suc, length};
ghost use Rattle.arena.specs.Machines.{Call};
ghost use Rattle.prims.specs.Put.Steps.{put_left};
ghost use Rattle.prims.specs.declared.put.PutRun.{PutRun};
ghost use Rattle.tables.specs.Seats.{StaysAtTable};
ghost use Rattle.straight.specs.Leads.{steps_made};
ghost use Rattle.straight.specs.Hands.{IsAt, IsCallOf};
ghost use Rattle.straight.specs.StraightScx.{scx_fill, all_frozen_load};
ghost use Rattle.straight.specs.StraightPut.{SeatPutBegins, SeatPutWaits, SeatPutEnds, fresh_put, scx_at, standing_put};

use crate::call_machine::CellShape;
use crate::hand::Hand;
use crate::scx::{self, ScxTask};
use crate::step::step;
use crate::steps::complete;
use arena::{Access, Kind, NodeWord, ScxWord, SettledPart, Slot, Step, Turn, Word};
use atomic_table::Seat;
use help::HelpRun;
use prims::{PutAt, PutRun, Scx, ScxAt, ScxRun, Snap, Snaps, Update};
use tables::view::SeatView;

/// What an SCX with a fresh cell is to do, which gets this value.
#[derive(Clone, Copy)]
pub struct PutTask {
    pub task: ScxTask,
    pub value: u64,
}

/// Its machine, which only says where the call is.
#[inline(always)]
fn machine(snaps: &[Snap], put: PutTask, scx: ScxAt, at: PutAt) -> PutRun
    requires fits { length snaps.now ≤ 4 }
    ensures { result ≡ standing_put snaps.now put scx at }
{
    let task = put.task;
    let update = Update {
        snaps: Snaps::new(snaps),
        plan: task.plan,
        old: task.old,
        fresh: task.fresh,
    };
    let scx = ScxRun {
        scx: task.scx,
        call: task.call,
        update,
        at: scx,
    };
    PutRun {
        value: put.value,
        scx,
        at,
    }
}

/// Fills the value of the fresh cell.
#[inline(always)]
fn fill_value<S: CellShape>(
    hand: Hand<S>,
    seat: &mut Seat<u8, SeatView>,
    snaps: &[Snap],
    put: PutTask,
)
    requires table { IsAt S.mode S.lasts hand seat.old }
    requires fits { length snaps.now ≤ 4 }
    requires begins { (c : Call) × IsCallOf hand c
        × SeatPutBegins S.allows c seat.old.me.0.passes (fresh_put snaps.now put) }
    ensures table { StaysAtTable seat.old seat.new }
    ensures one { steps_made seat.new ≡ suc (steps_made seat.old) }
    ensures waits { (c : Call) → IsCallOf hand.entry c
        → SeatPutBegins S.allows c seat.old.me.0.passes (fresh_put snaps.now put)
        → SeatPutWaits S.allows c seat.new.me.0.passes (fresh_put snaps.now put)
        (scx_at (fresh_put snaps.now put) ScxAt.Plan)
        (scx_fill put.task.scx ScxWord.Plan put.task.plan.0) }
{
    let asked = Step {
        kind: Kind::Fill,
        word: Word::Node(
            put.task.fresh,
            NodeWord::Settled(SettledPart::Value(Slot::First)),
        ),
        access: Access::Store(put.value),
    };
    step::<S, PutRun>(hand, seat, asked);
}

/// Continues with the machine, if a node could not be frozen: it waits to look whether all were.
/// The plan and the run of HELP are copies, so that the caller's, which are not handed out of
/// line, stay in registers.
#[inline(always)]
fn complete_blocked<S: CellShape>(
    hand: Hand<S>,
    seat: &mut Seat<u8, SeatView>,
    snaps: &[Snap],
    put: PutTask,
    help: &HelpRun,
) -> Scx
    requires table { IsAt S.mode S.lasts hand seat.old }
    requires fits { length snaps.now ≤ 4 }
    requires waits { (c : Call) × (first : PutRun) × IsCallOf hand c
        × SeatPutWaits S.allows c seat.old.me.0.passes first
        (standing_put snaps.now put (ScxAt.Help help.now) PutAt.Scx)
        (all_frozen_load put.task.scx) }
    ensures table { StaysAtTable seat.old seat.new }
    ensures steps { steps_made seat.new
        ≤ steps_made seat.old + suc (put_left
        (standing_put snaps.now put (ScxAt.Help help.now) PutAt.Scx)) }
    ensures ends { (c : Call) (first : PutRun) → IsCallOf hand.entry c
        → SeatPutWaits S.allows c seat.old.me.0.passes first
        (standing_put snaps.now put (ScxAt.Help help.now) PutAt.Scx)
        (all_frozen_load put.task.scx)
        → (m : PutRun) × SeatPutEnds S.allows c seat.new.me.0.passes first m result }
{
    let (words, copy, number) = (hand.words, *hand.plan, hand.number);
    let mut run = machine(snaps, put, ScxAt::Help { help: *help }, PutAt::Scx);
    let step = Step {
        kind: Kind::LoadAllFrozen,
        word: Word::Scx(run.scx.scx, ScxWord::AllFrozen),
        access: Access::Load,
    };
    complete::<S, PutRun, S, PutRun>(words, &copy, seat, number, &mut run, Turn::Ask(step))
}

/// SCX of an update by this SCX-record, whose fresh cell gets the value.
#[inline(always)]
pub fn call<S: CellShape>(
    hand: Hand<S>,
    seat: &mut Seat<u8, SeatView>,
    snaps: &[Snap],
    put: PutTask,
) -> Scx
    requires table { IsAt S.mode S.lasts hand seat.old }
    requires fits { length snaps.now ≤ 4 }
    requires begins { (c : Call) × IsCallOf hand c
        × SeatPutBegins S.allows c seat.old.me.0.passes (fresh_put snaps.now put) }
    ensures table { StaysAtTable seat.old seat.new }
    ensures steps { steps_made seat.new ≤ steps_made seat.old + 40 }
    ensures ends { (c : Call) → IsCallOf hand.entry c
        → SeatPutBegins S.allows c seat.old.me.0.passes (fresh_put snaps.now put)
        → (m : PutRun) × SeatPutEnds S.allows c seat.new.me.0.passes
        (fresh_put snaps.now put) m result }
{
    fill_value(hand, seat, snaps, put);
    let mut help = HelpRun::new(put.task.scx);
    let own = &mut help;
    if scx::call::<S, PutRun, S, &[Snap]>(hand, seat, &snaps, put.task, own) {
        return Scx::Done;
    }
    complete_blocked(hand, seat, snaps, put, &help)
}
