//! VLX, of whatever machine validates snapshots, and as a call of its own.
ghost use Rattle.std.specs.Prelude.{◌≡◌, ◌≢◌, ◌≤◌, ◌<◌, ◌+◌, ◌-◌, IfSome, IsNone, length};
ghost use Rattle.arena.specs.Machines.{Call};
ghost use Rattle.prims.specs.Snap.{snap_at};
ghost use Rattle.tables.specs.Seats.{StaysAtTable};
ghost use Rattle.straight.specs.Leads.{steps_made};
ghost use Rattle.straight.specs.Inside.{InnerIsTold};
ghost use Rattle.straight.specs.Hands.{IsAt, IsCallOf, hand_calls};
ghost use Rattle.straight.specs.StraightVlx.{HasGoneAlong, LoadsFirstInfo, Validator, SeatVlxBegins, SeatVlxEnds, row_of};

use crate::call_machine::{CallMachine, CellShape};
use crate::hand::Hand;
use crate::step::step;
use arena::{Access, Kind, NodeWord, ScxNo, Step, Word};
use atomic_table::Seat;
use prims::{Snap, Vlx, VlxRun};
use tables::table_shape::TableShape;
use tables::view::SeatView;

/// VLX whose first info is asked for: goes along the snapshots, and loads the infos of their nodes,
/// up to the first that is not what its snapshot found, if there is one. Of that it returns which it
/// is, counted from 1, and what it is.
#[inline(always)]
pub fn validate<S: TableShape, M: CallMachine<S>>(
    hand: Hand<S>,
    seat: &mut Seat<u8, SeatView>,
    snaps: &[Snap],
) -> Option<(usize, u64)>
    requires table { IsAt S.mode S.lasts hand seat.old }
    requires waits { (v : Validator (hand_calls S.Shape M.Machine M.left_dealt hand) snaps.now)
        × LoadsFirstInfo v seat.old.me.0.passes }
    ensures table { StaysAtTable seat.old seat.new }
    ensures same { IsNone result
        → (v : Validator (hand_calls S.Shape M.Machine M.left_dealt hand.entry) snaps.now)
        → LoadsFirstInfo v seat.old.me.0.passes
        → HasGoneAlong v seat.new.me.0.passes (length snaps.now) }
    ensures told { IfSome result (λ r.
        (v : Validator (hand_calls S.Shape M.Machine M.left_dealt hand.entry) snaps.now)
        → LoadsFirstInfo v seat.old.me.0.passes
        → InnerIsTold v seat.new.me.0.passes r.0 r.1) }
    ensures other { IfSome result (λ r. (0 < r.0) × (r.0 ≤ length snaps.now)
        × ((snap_at snaps.now (r.0 - 1)).scx.0 ≢ r.1)) }
    ensures steps { IfSome result (λ r. steps_made seat.new ≡ steps_made seat.old + r.0) }
    ensures most { steps_made seat.new ≤ steps_made seat.old + length snaps.now }
{
    let plan = *hand.plan;
    let hand = Hand {
        words: hand.words,
        plan: &plan,
        number: hand.number,
        size: hand.size,
    };
    let mut asked = 0;
    for snap in snaps {
        let (kind, word) = (Kind::LoadInfo, Word::Node(snap.node, NodeWord::Info));
        let access = Access::Load;
        let told = step::<S, M>(hand, seat, Step { kind, word, access });
        asked += 1;
        if told != snap.scx.0 {
            return Some((asked, told));
        }
    }
    None
}

/// VLX: loads the infos of the snapshots' nodes, up to the first that is not what its snapshot
/// found.
#[inline(always)]
pub fn call<S: CellShape>(hand: Hand<S>, seat: &mut Seat<u8, SeatView>, snaps: &[Snap]) -> Vlx
    requires table { IsAt S.mode S.lasts hand seat.old }
    requires begins { (c : Call) × IsCallOf hand c
        × SeatVlxBegins row_of S.allows c seat.old.me.0.passes snaps }
    ensures table { StaysAtTable seat.old seat.new }
    ensures ends { (c : Call) → IsCallOf hand.entry c
        → SeatVlxBegins row_of S.allows c seat.old.me.0.passes snaps.entry
        → SeatVlxEnds row_of S.allows c seat.new.me.0.passes snaps.entry result }
    ensures steps { steps_made seat.new ≤ steps_made seat.old + length snaps.now }
{
    match validate::<S, VlxRun<&[Snap]>>(hand, seat, snaps) {
        None => Vlx::Same,
        Some((asked, told)) => {
            let (node, scx) = (snaps[asked - 1].node, ScxNo(told));
            Vlx::Changed { node, scx }
        }
    }
}
