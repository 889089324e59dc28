//! The places from which updates walk: the root; or, of an edit with a guard, the child of the root,
//! once it has looked at that.
ghost use Rattle.std.specs.Prelude.{◌≡◌, true, IfErr, IfOk};
ghost use Rattle.edits.specs.Next.{standing};
ghost use Rattle.edits.specs.Steps.{update_left};
ghost use Rattle.edits.specs.declared.update.UpdateAt.{UpdateAt as Places};
ghost use Rattle.histories.specs.Common.{LoadState, state};
ghost use Rattle.template.specs.Common.{load};
ghost use Rattle.tables.specs.Traces.{shared_nodes};
ghost use Rattle.straight.specs.Hands.{IsAt, hand_calls, names};
ghost use Rattle.straight.specs.Leads.{Leads};
ghost use Rattle.straight.specs.StraightGuard.{BeginsToWalk, at_guard_again};
ghost use Rattle.straight.specs.StraightUpdate.{Updater, UpdaterBegins, UpdaterEnds};

use crate::call_machine::CallMachine;
use crate::hand::Hand;
use crate::llx::{load, look};
use crate::node::{Reached, descend};
use crate::resume;
use crate::step::step;
use arena::{Kind, NodeNo, NodeWord, ScxNo, ScxWord, SettledPart, Side, Step, Word};
use atomic_table::Seat;
use edits::{Edit, UpdateAt, UpdateRun, Updated};
use prims::{LlxAt, LlxRun};
use tables::table_shape::TableShape;
use tables::view::SeatView;
use template::{Goal, Tree, WalkAt, WalkRun, Way};

/// The place of an update whose walk, by this way to this goal, has found this as the head of the
/// root, where something is in the way of the look at its guard, and the step for which it waits:
/// with this SCX-record the guard was marked or not, whose state is asked for again.
#[inline(always)]
fn again(way: Way, goal: Goal, head: u64, marked: bool, scx: ScxNo) -> (UpdateAt, Step)
    ensures { result ≡ (at_guard_again way goal head marked scx, load LoadState (state scx.0)) }
{
    let (trail, at) = (Reached::root().trail, WalkAt::Root);
    let walk = WalkRun {
        goal,
        way,
        trail,
        at,
    };
    let (node, at) = (NodeNo(2), LlxAt::StateAgain { marked, scx });
    let llx = LlxRun { node, at };
    let asked = load(Kind::LoadState, Word::Scx(scx, ScxWord::State));
    (UpdateAt::Guard { walk, head, llx }, asked)
}

/// Looks at the guard of an edit, between the loads of the root's head and of its child, and keeps
/// its snapshot. If something is in the way, its machine continues from there.
#[inline(always)]
fn pass<S: TableShape, M: CallMachine<S>, E: Edit + Copy>(
    hand: Hand<S>,
    seat: &mut Seat<u8, SeatView>,
    run: &mut UpdateRun<E, ()>,
    way: Way,
    goal: Goal,
) -> Result<Reached, Updated>
    requires table { IsAt S.mode S.lasts hand seat.old }
    requires guard { E.means.guard run.old.edit ≡ true }
    requires goes { (way ≡ E.means.way run.old.edit) × (goal ≡ E.means.goal run.old.edit) }
    requires begins { (u : Updater (hand_calls S.Shape M.Machine M.left_dealt hand) E.means)
        × UpdaterBegins u seat.old.me.0.passes run.old }
    ensures walks { IfOk result (λ place.
        BeginsToWalk S.Shape M.Machine M.left_dealt E.means hand.entry way goal seat.old run.old
        seat.new run.new place) }
    ensures ends { IfErr result (λ updated. Leads seat.old seat.new
        (update_left E.means (standing run.old Places.Start) (shared_nodes (names hand.entry)))
        (λ (u : Updater (hand_calls S.Shape M.Machine M.left_dealt hand.entry) E.means) ps.
        UpdaterBegins u ps run.old)
        (λ u ps. UpdaterEnds u ps run.new updated)) }
{
    let part = NodeWord::Settled(SettledPart::Head);
    let asked = load(Kind::LoadSettled, Word::Node(NodeNo(0), part));
    let head = step::<S, M>(hand, seat, asked);
    match look::<S, M, Tree>(hand, seat, NodeNo(2)) {
        Ok(snap) => {
            run.guarded(snap);
            let root = Reached::root();
            Ok(descend::<S, M>(hand, seat, way, goal, root, head, Side::Left))
        }
        Err((marked, scx)) => {
            let (at, asked) = again(way, goal, head, marked, scx);
            Err(resume::from_place::<S, M, E>(hand, seat, run, at, asked))
        }
    }
}

/// The place from which an update walks, behind its guard if it has one. If something is in the way
/// there, its machine continues, and it has answered.
#[inline(always)]
pub fn begin<S: TableShape, M: CallMachine<S>, E: Edit + Copy>(
    hand: Hand<S>,
    seat: &mut Seat<u8, SeatView>,
    run: &mut UpdateRun<E, ()>,
    way: Way,
    goal: Goal,
) -> Result<Reached, Updated>
    requires table { IsAt S.mode S.lasts hand seat.old }
    requires goes { (way ≡ E.means.way run.old.edit) × (goal ≡ E.means.goal run.old.edit) }
    requires begins { (u : Updater (hand_calls S.Shape M.Machine M.left_dealt hand) E.means)
        × UpdaterBegins u seat.old.me.0.passes run.old }
    ensures walks { IfOk result (λ place.
        BeginsToWalk S.Shape M.Machine M.left_dealt E.means hand.entry way goal seat.old run.old
        seat.new run.new place) }
    ensures ends { IfErr result (λ updated. Leads seat.old seat.new
        (update_left E.means (standing run.old Places.Start) (shared_nodes (names hand.entry)))
        (λ (u : Updater (hand_calls S.Shape M.Machine M.left_dealt hand.entry) E.means) ps.
        UpdaterBegins u ps run.old)
        (λ u ps. UpdaterEnds u ps run.new updated)) }
{
    if run.edit.guard() {
        return pass::<S, M, E>(hand, seat, run, way, goal);
    }
    Ok(Reached::root())
}
