//! Updates that meet something in their way: their machine continues from there.
ghost use Rattle.std.specs.Prelude.{◌≡◌, ◌<◌, suc};
ghost use Rattle.edits.specs.Next.{standing};
ghost use Rattle.edits.specs.Steps.{update_left};
ghost use Rattle.edits.specs.declared.update.UpdateAt.{UpdateAt as Places};
ghost use Rattle.tables.specs.Traces.{shared_nodes, weight};
ghost use Rattle.straight.specs.Hosts.{HostedStands, HostedWaits};
ghost use Rattle.straight.specs.Hands.{IsAt, hand_calls, names};
ghost use Rattle.straight.specs.Leads.{Leads};
ghost use Rattle.straight.specs.StraightUpdate.{StandsToTry, TryEnds, Updater, UpdaterEnds, UpdaterIsBlocked, left_at_block};

use crate::call_machine::CallMachine;
use crate::hand::Hand;
use crate::step::step;
use arena::{Layout, PassNo, ScxNo, Share, Step, Turn};
use atomic_table::Seat;
use edits::{Edit, Next, Stop, UpdateAt, UpdateRun, Updated, copied};
use help::HelpRun;
use std::mem::replace;
use tables::table_shape::TableShape;
use tables::view::SeatView;
use template::Found;

/// Takes an update out, to be put at a place. Until it is put back, another replaces it, whose
/// share nobody takes from: that of some pass, since a share is always one's.
#[inline(always)]
fn take_run<E: Edit + Copy>(run: &mut UpdateRun<E, ()>, layout: &Layout) -> UpdateRun<E, UpdateAt>
    requires some { 0 < layout.now.passes }
    ensures { result ≡ standing run.old Places.Start }
{
    let share = Share::of(layout, PassNo(0));
    let other = UpdateRun::new(run.edit, share, 0, 0, ());
    replace(run, other).placed_at(UpdateAt::Start)
}

/// Makes the rest of an update from this turn of its machine on, and gives it back without a place.
fn finish<S: TableShape, M: CallMachine<S>, E: Edit + Copy>(
    hand: Hand<S>,
    seat: &mut Seat<u8, SeatView>,
    mut machine: UpdateRun<E, UpdateAt>,
    mut turn: Turn<Updated>,
) -> (Updated, UpdateRun<E, ()>)
    requires table { IsAt S.mode S.lasts hand seat.old }
    requires stands { (u : Updater (hand_calls S.Shape M.Machine M.left_dealt hand) E.means)
        × HostedStands u seat.old.me.0.passes machine turn }
    ensures { Leads seat.old seat.new (weight turn
        (update_left E.means machine (shared_nodes (names hand.entry))))
        (λ (u : Updater (hand_calls S.Shape M.Machine M.left_dealt hand.entry) E.means) ps.
        HostedStands u ps machine turn)
        (λ u ps. UpdaterEnds u ps result.1 result.0) }
{
    loop {
        match turn {
            Turn::Ask(asked) => {
                let told = step::<S, M>(hand, seat, asked);
                turn = machine.step(Some(told));
            }
            Turn::Done(updated) => {
                return (updated, machine.placed_at(()));
            }
        }
    }
}

/// Makes the rest of an update from this place on, where it waits for this step.
#[cold]
#[inline(never)]
fn rest_from<S: TableShape, M: CallMachine<S>, E: Edit + Copy>(
    hand: Hand<S>,
    seat: &mut Seat<u8, SeatView>,
    machine: UpdateRun<E, UpdateAt>,
    at: UpdateAt,
    asked: Step,
) -> (Updated, UpdateRun<E, ()>)
    requires table { IsAt S.mode S.lasts hand seat.old }
    requires waits { (u : Updater (hand_calls S.Shape M.Machine M.left_dealt hand) E.means)
        × HostedWaits u seat.old.me.0.passes (standing machine at) asked }
    ensures { Leads seat.old seat.new (suc (update_left E.means (standing machine at)
        (shared_nodes (names hand.entry))))
        (λ (u : Updater (hand_calls S.Shape M.Machine M.left_dealt hand.entry) E.means) ps.
        HostedWaits u ps (standing machine at) asked)
        (λ u ps. UpdaterEnds u ps result.1 result.0) }
{
    finish::<S, M, E>(hand, seat, machine.placed_at(at), Turn::Ask(asked))
}

/// Puts an update at this place, where it waits for this step, and makes the rest of it from there.
#[inline(always)]
pub fn from_place<S: TableShape, M: CallMachine<S>, E: Edit + Copy>(
    hand: Hand<S>,
    seat: &mut Seat<u8, SeatView>,
    run: &mut UpdateRun<E, ()>,
    at: UpdateAt,
    asked: Step,
) -> Updated
    requires table { IsAt S.mode S.lasts hand seat.old }
    requires waits { (u : Updater (hand_calls S.Shape M.Machine M.left_dealt hand) E.means)
        × HostedWaits u seat.old.me.0.passes (standing run.old at) asked }
    ensures { Leads seat.old seat.new (suc (update_left E.means (standing run.old at)
        (shared_nodes (names hand.entry))))
        (λ (u : Updater (hand_calls S.Shape M.Machine M.left_dealt hand.entry) E.means) ps.
        HostedWaits u ps (standing run.old at) asked)
        (λ u ps. UpdaterEnds u ps run.new result) }
{
    let machine = take_run(run, &hand.plan.layout);
    let (updated, rest) = rest_from::<S, M, E>(hand, seat, machine, at, asked);
    *run = rest;
    updated
}

/// Makes the rest of an update from what its try does next on.
#[cold]
#[inline(never)]
fn rest_from_next<S: TableShape, M: CallMachine<S>, E: Edit + Copy>(
    hand: Hand<S>,
    seat: &mut Seat<u8, SeatView>,
    mut machine: UpdateRun<E, UpdateAt>,
    found: Found,
    next: Result<Next, Stop>,
) -> (Updated, UpdateRun<E, ()>)
    requires table { IsAt S.mode S.lasts hand seat.old }
    requires goes_on { StandsToTry S.Shape M.Machine M.left_dealt E.means hand found seat.old
        machine next }
    ensures { TryEnds S.Shape M.Machine M.left_dealt E.means hand.entry found
        seat.old machine next seat.new result.1 result.0 }
{
    match next {
        Ok(next) => {
            let turn = machine.begin(found, next);
            finish::<S, M, E>(hand, seat, machine, turn)
        }
        Err(stop) => {
            let turn = machine.stop(&found, stop);
            finish::<S, M, E>(hand, seat, machine, turn)
        }
    }
}

/// Makes the rest of an update from what its try does next on. Inlined, it copies the leaf,
/// since the compiler keeps in registers only what is handed to no function out of line.
#[inline(always)]
pub fn from_next<S: TableShape, M: CallMachine<S>, E: Edit + Copy>(
    hand: Hand<S>,
    seat: &mut Seat<u8, SeatView>,
    run: &mut UpdateRun<E, ()>,
    found: &Found,
    next: Result<Next, Stop>,
) -> Updated
    requires table { IsAt S.mode S.lasts hand seat.old }
    requires goes_on { StandsToTry S.Shape M.Machine M.left_dealt E.means hand found.now seat.old
        run.old next }
    ensures { TryEnds S.Shape M.Machine M.left_dealt E.means hand.entry found.now
        seat.old run.old next seat.new run.new result }
{
    let machine = take_run(run, &hand.plan.layout);
    let (updated, rest) = rest_from_next::<S, M, E>(hand, seat, machine, copied(found), next);
    *run = rest;
    updated
}

/// Makes the rest of an update whose SCX could not freeze a node.
#[cold]
#[inline(never)]
fn rest_from_block<S: TableShape, M: CallMachine<S>, E: Edit + Copy>(
    hand: Hand<S>,
    seat: &mut Seat<u8, SeatView>,
    mut machine: UpdateRun<E, UpdateAt>,
    found: Found,
    scx: ScxNo,
    help: HelpRun,
) -> (Updated, UpdateRun<E, ()>)
    requires table { IsAt S.mode S.lasts hand seat.old }
    requires blocked { (u : Updater (hand_calls S.Shape M.Machine M.left_dealt hand) E.means)
        × UpdaterIsBlocked u seat.old.me.0.passes machine found scx help }
    ensures { Leads seat.old seat.new (left_at_block E.means machine help
        (shared_nodes (names hand.entry)))
        (λ (u : Updater (hand_calls S.Shape M.Machine M.left_dealt hand.entry) E.means) ps.
        UpdaterIsBlocked u ps machine found scx help)
        (λ u ps. UpdaterEnds u ps result.1 result.0) }
{
    let turn = machine.block(found, scx, help);
    finish::<S, M, E>(hand, seat, machine, turn)
}

/// Makes the rest of an update whose SCX could not freeze a node, with copies as above.
#[inline(always)]
pub fn from_block<S: TableShape, M: CallMachine<S>, E: Edit + Copy>(
    hand: Hand<S>,
    seat: &mut Seat<u8, SeatView>,
    run: &mut UpdateRun<E, ()>,
    found: &Found,
    scx: ScxNo,
    help: &HelpRun,
) -> Updated
    requires table { IsAt S.mode S.lasts hand seat.old }
    requires blocked { (u : Updater (hand_calls S.Shape M.Machine M.left_dealt hand) E.means)
        × UpdaterIsBlocked u seat.old.me.0.passes run.old found.now scx help.now }
    ensures { Leads seat.old seat.new (left_at_block E.means run.old help.now
        (shared_nodes (names hand.entry)))
        (λ (u : Updater (hand_calls S.Shape M.Machine M.left_dealt hand.entry) E.means) ps.
        UpdaterIsBlocked u ps run.old found.now scx help.now)
        (λ u ps. UpdaterEnds u ps run.new result) }
{
    let machine = take_run(run, &hand.plan.layout);
    let (updated, rest) = rest_from_block::<S, M, E>(
        hand,
        seat,
        machine,
        copied(found),
        scx,
        *help,
    );
    *run = rest;
    updated
}
