//! Updates, of whatever machine updates.
ghost use Rattle.std.specs.Prelude.{◌≡◌, ◌<◌, Ok};
ghost use Rattle.edits.specs.Next.{standing};
ghost use Rattle.edits.specs.Steps.{update_left};
ghost use Rattle.edits.specs.declared.update.Next.{Next};
ghost use Rattle.edits.specs.declared.update.UpdateAt.{UpdateAt};
ghost use Rattle.tables.specs.Traces.{shared_nodes};
ghost use Rattle.straight.specs.Hands.{IsAt, hand_calls, names};
ghost use Rattle.straight.specs.Leads.{Leads, steps_made};
ghost use Rattle.straight.specs.StraightUpdate.{StandsToTry, TryEnds, TryGoesOn, Updater, UpdaterBegins, UpdaterEnds, UpdaterLeaves, new_update};

use crate::call_machine::CallMachine;
use crate::fresh_nodes::fill_node;
use crate::hand::Hand;
use crate::llx::look;
use crate::reads::read;
use crate::scx::{self, ScxTask};
use crate::{guard, helps, resume, walk};
use arena::{NodeNo, ScxNo, Share};
use arrayvec::ArrayVec;
use atomic_table::Seat;
use edits::{Edit, Next, Nodes, Reading, Stop, UpdateRun, Updated, Work, copied};
use help::HelpRun;
use prims::Snap;
use tables::table_shape::TableShape;
use tables::view::SeatView;
use template::{Found, Tree};

/// Makes an edit in `tries` tries out of this share, and returns what is left of that. It is a
/// function of its own, since the compiler inlines nothing into a function that would grow large,
/// as one with two edits would. It keeps the update's run to itself, so that the compiler knows
/// what the run holds after each step. The size of a node is a constant again.
#[inline(never)]
pub fn make<S: TableShape, M: CallMachine<S>, E: Edit + Copy>(
    hand: Hand<S>,
    seat: &mut Seat<u8, SeatView>,
    edit: E,
    share: Share,
    tries: u32,
) -> (Updated, Share)
    requires table { IsAt S.mode S.lasts hand seat.old }
    requires begins { (u : Updater (hand_calls S.Shape M.Machine M.left_dealt hand) E.means)
        × UpdaterBegins u seat.old.me.0.passes (new_update edit share tries hand.number) }
    ensures { let new = new_update edit share tries hand.entry.number in
        Leads seat.old seat.new (update_left E.means (standing new UpdateAt.Start)
        (shared_nodes (names hand.entry)))
        (λ (u : Updater (hand_calls S.Shape M.Machine M.left_dealt hand.entry) E.means) ps.
        UpdaterBegins u ps new)
        (λ u ps. UpdaterLeaves u ps result.0 result.1) }
{
    let hand = Hand {
        words: hand.words,
        plan: hand.plan,
        number: hand.number,
        size: S::node_size(),
    };
    let mut run = UpdateRun {
        edit,
        share,
        work: Work::none(),
        guard: Snap::default(),
        snaps: ArrayVec::new(),
        nodes: Nodes::default(),
        read: Reading::new(),
        tries: tries.saturating_sub(1),
        limit: tries,
        call: hand.number,
        at: (),
    };
    let updated = call::<S, M, E>(hand, seat, &mut run);
    (updated, run.into_share())
}

/// Makes an update: its first try inline, as long as nothing is in its way. If something is,
/// its machine continues from there; until then the update has no place.
#[inline(always)]
fn call<S: TableShape, M: CallMachine<S>, E: Edit + Copy>(
    hand: Hand<S>,
    seat: &mut Seat<u8, SeatView>,
    run: &mut UpdateRun<E, ()>,
) -> Updated
    requires table { IsAt S.mode S.lasts hand seat.old }
    requires begins { (u : Updater (hand_calls S.Shape M.Machine M.left_dealt hand) E.means)
        × UpdaterBegins u seat.old.me.0.passes run.old }
    ensures { Leads seat.old seat.new (update_left E.means (standing run.old UpdateAt.Start)
        (shared_nodes (names hand.entry)))
        (λ (u : Updater (hand_calls S.Shape M.Machine M.left_dealt hand.entry) E.means) ps.
        UpdaterBegins u ps run.old)
        (λ u ps. UpdaterEnds u ps run.new result) }
{
    let way = run.edit.way();
    let goal = run.edit.goal();
    let first = match guard::begin::<S, M, E>(hand, seat, run, way, goal) {
        Ok(first) => first,
        Err(updated) => return updated,
    };
    let found = copied(&walk::call_from::<S, M, E>(hand, seat, way, goal, first).0);
    let next = run.test_share(&found);
    try_on::<S, M, E>(hand, seat, run, &found, next)
}

/// Makes what a try does next and all after it.
#[inline(always)]
fn try_on<S: TableShape, M: CallMachine<S>, E: Edit + Copy>(
    hand: Hand<S>,
    seat: &mut Seat<u8, SeatView>,
    run: &mut UpdateRun<E, ()>,
    found: &Found,
    next: Result<Next, Stop>,
) -> Updated
    requires table { IsAt S.mode S.lasts hand seat.old }
    requires goes_on { StandsToTry S.Shape M.Machine M.left_dealt E.means hand found.now seat.old
        run.old next }
    ensures { TryEnds S.Shape M.Machine M.left_dealt E.means hand.entry found.now
        seat.old run.old next seat.new run.new result }
{
    let plan = *hand.plan;
    match work_on::<S, M, E>(hand.by_copy(&plan), seat, run, found, next) {
        Ok(now) => match now {
            Next::Change(scx) => change::<S, M, E>(hand, seat, run, found, scx),
            _ => resume::from_next::<S, M, E>(hand, seat, run, found, Ok(now)),
        },
        Err(stop) => match stop {
            Stop::Nothing => Updated::at(found),
            Stop::Full(full) => Updated::Full(full),
            Stop::Lost { .. } => { resume::from_next::<S, M, E>(hand, seat, run, found, Err(stop)) }
        },
    }
}

/// Makes the looks, the loads and the fills that come next.
#[inline(always)]
fn work_on<S: TableShape, M: CallMachine<S>, E: Edit + Copy>(
    hand: Hand<S>,
    seat: &mut Seat<u8, SeatView>,
    run: &mut UpdateRun<E, ()>,
    found: &Found,
    next: Result<Next, Stop>,
) -> Result<Next, Stop>
    requires table { IsAt S.mode S.lasts hand seat.old }
    requires goes_on { StandsToTry S.Shape M.Machine M.left_dealt E.means hand found.now seat.old
        run.old next }
    ensures { TryGoesOn S.Shape M.Machine M.left_dealt E.means hand.entry found.now
        seat.old run.old next seat.new run.new result }
{
    let looked = look_on::<S, M, E>(hand, seat, run, found, next);
    let loaded = read_on::<S, M, E>(hand, seat, run, found, looked);
    fill_on::<S, M, E>(hand, seat, run, found, loaded)
}

/// Makes the looks that come next.
#[inline(always)]
fn look_on<S: TableShape, M: CallMachine<S>, E: Edit + Copy>(
    hand: Hand<S>,
    seat: &mut Seat<u8, SeatView>,
    run: &mut UpdateRun<E, ()>,
    found: &Found,
    next: Result<Next, Stop>,
) -> Result<Next, Stop>
    requires table { IsAt S.mode S.lasts hand seat.old }
    requires goes_on { StandsToTry S.Shape M.Machine M.left_dealt E.means hand found.now seat.old
        run.old next }
    ensures { TryGoesOn S.Shape M.Machine M.left_dealt E.means hand.entry found.now
        seat.old run.old next seat.new run.new result }
{
    let mut now = next?;
    while let Next::Look(node) = now {
        now = look_at::<S, M, E>(hand, seat, run, found, node)?;
    }
    Ok(now)
}

/// Makes the loads that come next.
#[inline(always)]
fn read_on<S: TableShape, M: CallMachine<S>, E: Edit + Copy>(
    hand: Hand<S>,
    seat: &mut Seat<u8, SeatView>,
    run: &mut UpdateRun<E, ()>,
    found: &Found,
    next: Result<Next, Stop>,
) -> Result<Next, Stop>
    requires table { IsAt S.mode S.lasts hand seat.old }
    requires goes_on { StandsToTry S.Shape M.Machine M.left_dealt E.means hand found.now seat.old
        run.old next }
    ensures { TryGoesOn S.Shape M.Machine M.left_dealt E.means hand.entry found.now
        seat.old run.old next seat.new run.new result }
{
    let mut now = next?;
    while let Next::Read { node, part } = now {
        now = read::<S, M, E>(hand, seat, run, found, node, part);
    }
    Ok(now)
}

/// Makes the fills that come next.
#[inline(always)]
fn fill_on<S: TableShape, M: CallMachine<S>, E: Edit + Copy>(
    hand: Hand<S>,
    seat: &mut Seat<u8, SeatView>,
    run: &mut UpdateRun<E, ()>,
    found: &Found,
    next: Result<Next, Stop>,
) -> Result<Next, Stop>
    requires table { IsAt S.mode S.lasts hand seat.old }
    requires goes_on { StandsToTry S.Shape M.Machine M.left_dealt E.means hand found.now seat.old
        run.old next }
    ensures { TryGoesOn S.Shape M.Machine M.left_dealt E.means hand.entry found.now
        seat.old run.old next seat.new run.new result }
{
    let mut now = next?;
    while let Next::Fill(nth) = now {
        now = fill_node::<S, M, E>(hand, seat, run, found, nth)?;
    }
    Ok(now)
}

/// Looks at a node.
#[inline(always)]
fn look_at<S: TableShape, M: CallMachine<S>, E: Edit + Copy>(
    hand: Hand<S>,
    seat: &mut Seat<u8, SeatView>,
    run: &mut UpdateRun<E, ()>,
    found: &Found,
    node: NodeNo,
) -> Result<Next, Stop>
    requires table { IsAt S.mode S.lasts hand seat.old }
    requires tries { StandsToTry S.Shape M.Machine M.left_dealt E.means hand found.now
        seat.old run.old (Ok (Next.Look node)) }
    ensures goes_on { TryGoesOn S.Shape M.Machine M.left_dealt E.means hand.entry found.now
        seat.old run.old (Ok (Next.Look node)) seat.new run.new result }
    ensures moves { steps_made seat.old < steps_made seat.new }
{
    match look::<S, M, Tree>(hand, seat, node) {
        Ok(snap) => run.looked(found, snap),
        Err((marked, scx)) => Ok(Next::Wait { node, marked, scx }),
    }
}

/// Makes the SCX, part by part: the compiler inlines no function that would grow very large, as
/// one with all of these parts would.
#[inline(always)]
fn change<S: TableShape, M: CallMachine<S>, E: Edit + Copy>(
    hand: Hand<S>,
    seat: &mut Seat<u8, SeatView>,
    run: &mut UpdateRun<E, ()>,
    found: &Found,
    scx: ScxNo,
) -> Updated
    requires table { IsAt S.mode S.lasts hand seat.old }
    requires tries { StandsToTry S.Shape M.Machine M.left_dealt E.means hand found.now
        seat.old run.old (Ok (Next.Change scx)) }
    ensures { TryEnds S.Shape M.Machine M.left_dealt E.means hand.entry found.now
        seat.old run.old (Ok (Next.Change scx)) seat.new run.new result }
{
    let copy = *hand.plan;
    let own = Hand {
        words: hand.words,
        plan: &copy,
        number: hand.number,
        size: hand.size,
    };
    let change = ScxTask {
        scx,
        call: run.call,
        plan: run.work.plan,
        old: run.old(),
        fresh: run.fresh(),
    };
    let snaps = run.snaps.as_slice();
    let mut help = HelpRun::new(scx);
    let start = own.scx_start(scx);
    scx::fill_all::<S, M, Tree, &[Snap]>(own, seat, &snaps, change, start);
    if helps::begin::<S, M, Tree, E>(own, seat, start, &mut help) {
        helps::commit::<S, M, Tree>(own, seat, start, &help);
        return Updated::at(found);
    }
    resume::from_block::<S, M, E>(hand, seat, run, found, scx, &help)
}
