//! SCX with an SCX-record of the share, of whatever machine makes one: its steps inline.
ghost use Rattle.std.specs.Prelude.{◌≡◌, ◌≤◌, ◌<◌, ◌+◌, ℕ, suc, true, false, IfSome, IfNone};
ghost use Rattle.arena.specs.MemberIndex.{member_index};
ghost use Rattle.help.specs.Help.Steps.{help_left};
ghost use Rattle.help.specs.declared.state.HelpRun.{HelpRun};
ghost use Rattle.prims.specs.declared.scx.ScxRun.{ScxRun};
ghost use Rattle.prims.specs.declared.scx.ScxAt.{ScxAt};
ghost use Rattle.help.specs.declared.state.HelpAt.{HelpAt};
ghost use Rattle.tables.specs.Seats.{StaysAtTable};
ghost use Rattle.tables.specs.Slotted.{scx_begins};
ghost use Rattle.straight.specs.Hands.{IsAt, hand_calls, hand_slots};
ghost use Rattle.straight.specs.InnerSteps.{MakesInside, WaitsInside};
ghost use Rattle.straight.specs.Leads.{Leads, steps_made};
ghost use Rattle.straight.specs.StraightScx.{Changer, changing_at, inner_scx, scx_fill, FillsPlan, FillsMember, FillsSeen, FillsCall, IsBehindChange};
ghost use Rattle.straight.specs.Inside.{InnerIsTold, InnerWaits};

use crate::call_machine::CallMachine;
use crate::hand::Hand;
use crate::helps;
use crate::step::step_from;
use arena::{Access, Kind, MemberIndex, NodeNo, Plan, ScxNo, ScxWord, Shape, Step, Word};
use atomic_table::Seat;
use help::HelpRun;
use prims::SnapList;
use tables::table_shape::TableShape;
use tables::view::SeatView;

/// What an SCX is to do, beside the snapshots, which stay where the caller has them.
#[derive(Clone, Copy)]
pub struct ScxTask {
    pub scx: ScxNo,
    pub call: u64,
    pub plan: Plan,
    pub old: NodeNo,
    pub fresh: NodeNo,
}

/// Fills a word of the SCX-record, which begins there.
#[inline(always)]
fn fill<S: TableShape, M: CallMachine<S>, T: Shape>(
    hand: Hand<S>,
    seat: &mut Seat<u8, SeatView>,
    scx: ScxNo,
    start: usize,
    part: ScxWord,
    value: u64,
) -> u64
    requires table { IsAt S.mode S.lasts hand seat.old }
    requires start { start ≡ scx_begins (hand_slots hand) scx }
    requires waits { WaitsInside (hand_calls S.Shape M.Machine M.left_dealt hand)
        (inner_scx T.allows) seat.old (scx_fill scx part value) }
    ensures { MakesInside (hand_calls S.Shape M.Machine M.left_dealt hand.entry)
        (inner_scx T.allows) seat.old seat.new (scx_fill scx part value) result }
{
    let (kind, word) = (Kind::Fill, Word::Scx(scx, part));
    let access = Access::Store(value);
    step_from::<S, M>(hand, seat, Step { kind, word, access }, start)
}

/// Fills the node of this place, and returns the next place.
#[inline(always)]
fn fill_member<S: TableShape, M: CallMachine<S>, T: Shape, L: SnapList>(
    hand: Hand<S>,
    seat: &mut Seat<u8, SeatView>,
    snaps: &L,
    change: ScxTask,
    start: usize,
    j: MemberIndex,
) -> Option<MemberIndex>
    requires table { IsAt S.mode S.lasts hand seat.old }
    requires start { start ≡ scx_begins (hand_slots hand) change.scx }
    requires waits { (k : Changer T.allows (hand_calls S.Shape M.Machine M.left_dealt hand))
        × FillsMember k seat.old.me.0.passes (L.list snaps.now) change j }
    ensures table { StaysAtTable seat.old seat.new }
    ensures one { steps_made seat.new ≡ suc (steps_made seat.old) }
    ensures behind { IfSome result (λ next. (member_index next ≡ member_index j + 1)
        × (member_index next < 4)) }
    ensures next { IfSome result (λ next.
        (k : Changer T.allows (hand_calls S.Shape M.Machine M.left_dealt hand.entry))
        → FillsMember k seat.old.me.0.passes (L.list snaps.now) change j
        → FillsMember k seat.new.me.0.passes (L.list snaps.now) change next) }
    ensures last { IfNone result
        ((k : Changer T.allows (hand_calls S.Shape M.Machine M.left_dealt hand.entry))
        → FillsMember k seat.old.me.0.passes (L.list snaps.now) change j
        → FillsSeen k seat.new.me.0.passes (L.list snaps.now) change MemberIndex.First) }
{
    let part = ScxWord::Member(j.number());
    let wanted = snaps.get(j.index()).node.0;
    fill::<S, M, T>(hand, seat, change.scx, start, part, wanted);
    change.plan.member_behind(j)
}

/// Fills the nodes that the SCX-record covers.
#[inline(always)]
fn fill_members<S: TableShape, M: CallMachine<S>, T: Shape, L: SnapList>(
    hand: Hand<S>,
    seat: &mut Seat<u8, SeatView>,
    snaps: &L,
    change: ScxTask,
    start: usize,
)
    requires table { IsAt S.mode S.lasts hand seat.old }
    requires start { start ≡ scx_begins (hand_slots hand) change.scx }
    requires waits { (k : Changer T.allows (hand_calls S.Shape M.Machine M.left_dealt hand))
        × FillsMember k seat.old.me.0.passes (L.list snaps.now) change MemberIndex.First }
    ensures { Leads seat.old seat.new 4
        (λ (k : Changer T.allows (hand_calls S.Shape M.Machine M.left_dealt hand.entry)) ps.
        FillsMember k ps (L.list snaps.now) change MemberIndex.First)
        (λ k ps. FillsSeen k ps (L.list snaps.now) change MemberIndex.First) }
{
    let first = MemberIndex::First;
    let Some(second) = fill_member::<S, M, T, L>(hand, seat, snaps, change, start, first) else {
        return;
    };
    let Some(third) = fill_member::<S, M, T, L>(hand, seat, snaps, change, start, second) else {
        return;
    };
    let Some(fourth) = fill_member::<S, M, T, L>(hand, seat, snaps, change, start, third) else {
        return;
    };
    fill_member::<S, M, T, L>(hand, seat, snaps, change, start, fourth);
}

/// Fills what the info of the node of this place was, and returns the next place.
#[inline(always)]
fn fill_seen<S: TableShape, M: CallMachine<S>, T: Shape, L: SnapList>(
    hand: Hand<S>,
    seat: &mut Seat<u8, SeatView>,
    snaps: &L,
    change: ScxTask,
    start: usize,
    j: MemberIndex,
) -> Option<MemberIndex>
    requires table { IsAt S.mode S.lasts hand seat.old }
    requires start { start ≡ scx_begins (hand_slots hand) change.scx }
    requires waits { (k : Changer T.allows (hand_calls S.Shape M.Machine M.left_dealt hand))
        × FillsSeen k seat.old.me.0.passes (L.list snaps.now) change j }
    ensures table { StaysAtTable seat.old seat.new }
    ensures one { steps_made seat.new ≡ suc (steps_made seat.old) }
    ensures behind { IfSome result (λ next. (member_index next ≡ member_index j + 1)
        × (member_index next < 4)) }
    ensures next { IfSome result (λ next.
        (k : Changer T.allows (hand_calls S.Shape M.Machine M.left_dealt hand.entry))
        → FillsSeen k seat.old.me.0.passes (L.list snaps.now) change j
        → FillsSeen k seat.new.me.0.passes (L.list snaps.now) change next) }
    ensures last { IfNone result
        ((k : Changer T.allows (hand_calls S.Shape M.Machine M.left_dealt hand.entry))
        → FillsSeen k seat.old.me.0.passes (L.list snaps.now) change j
        → FillsCall k seat.new.me.0.passes (L.list snaps.now) change) }
{
    let part = ScxWord::Seen(j.number());
    let wanted = snaps.get(j.index()).scx.0;
    fill::<S, M, T>(hand, seat, change.scx, start, part, wanted);
    change.plan.member_behind(j)
}

/// Fills what the infos of these nodes were.
#[inline(always)]
fn fill_infos<S: TableShape, M: CallMachine<S>, T: Shape, L: SnapList>(
    hand: Hand<S>,
    seat: &mut Seat<u8, SeatView>,
    snaps: &L,
    change: ScxTask,
    start: usize,
)
    requires table { IsAt S.mode S.lasts hand seat.old }
    requires start { start ≡ scx_begins (hand_slots hand) change.scx }
    requires waits { (k : Changer T.allows (hand_calls S.Shape M.Machine M.left_dealt hand))
        × FillsSeen k seat.old.me.0.passes (L.list snaps.now) change MemberIndex.First }
    ensures { Leads seat.old seat.new 4
        (λ (k : Changer T.allows (hand_calls S.Shape M.Machine M.left_dealt hand.entry)) ps.
        FillsSeen k ps (L.list snaps.now) change MemberIndex.First)
        (λ k ps. FillsCall k ps (L.list snaps.now) change) }
{
    let first = MemberIndex::First;
    let Some(second) = fill_seen::<S, M, T, L>(hand, seat, snaps, change, start, first) else {
        return;
    };
    let Some(third) = fill_seen::<S, M, T, L>(hand, seat, snaps, change, start, second) else {
        return;
    };
    let Some(fourth) = fill_seen::<S, M, T, L>(hand, seat, snaps, change, start, third) else {
        return;
    };
    fill_seen::<S, M, T, L>(hand, seat, snaps, change, start, fourth);
}

/// Fills the words of the SCX-record, from its plan on.
#[inline(always)]
pub fn fill_all<S: TableShape, M: CallMachine<S>, T: Shape, L: SnapList>(
    hand: Hand<S>,
    seat: &mut Seat<u8, SeatView>,
    snaps: &L,
    change: ScxTask,
    start: usize,
) -> u64
    requires table { IsAt S.mode S.lasts hand seat.old }
    requires start { start ≡ scx_begins (hand_slots hand) change.scx }
    requires waits { (k : Changer T.allows (hand_calls S.Shape M.Machine M.left_dealt hand))
        × FillsPlan k seat.old.me.0.passes (L.list snaps.now) change }
    ensures { Leads seat.old seat.new 12
        (λ (k : Changer T.allows (hand_calls S.Shape M.Machine M.left_dealt hand.entry)) ps.
        FillsPlan k ps (L.list snaps.now) change)
        (λ k ps. InnerIsTold k ps (changing_at (L.list snaps.now) change ScxAt.Call) result) }
{
    let scx = change.scx;
    fill::<S, M, T>(hand, seat, scx, start, ScxWord::Plan, change.plan.0);
    fill::<S, M, T>(hand, seat, scx, start, ScxWord::New, change.fresh.0);
    fill::<S, M, T>(hand, seat, scx, start, ScxWord::Old, change.old.0);
    fill_members::<S, M, T, L>(hand, seat, snaps, change, start);
    fill_infos::<S, M, T, L>(hand, seat, snaps, change, start);
    fill::<S, M, T>(hand, seat, scx, start, ScxWord::Call, change.call)
}

/// SCX that begins with the fill of its plan, and then by this run of HELP, which has not begun;
/// returns whether it is done. If a node could not be frozen the run waits to look whether all
/// were.
#[inline(always)]
pub fn call<S: TableShape, M: CallMachine<S>, T: Shape, L: SnapList>(
    hand: Hand<S>,
    seat: &mut Seat<u8, SeatView>,
    snaps: &L,
    change: ScxTask,
    help: &mut HelpRun,
) -> bool
    requires table { IsAt S.mode S.lasts hand seat.old }
    requires waits { (k : Changer T.allows (hand_calls S.Shape M.Machine M.left_dealt hand))
        × FillsPlan k seat.old.me.0.passes (L.list snaps.now) change }
    requires begins { (help.old.scx ≡ change.scx) × (help.old.at ≡ HelpAt.Start) }
    ensures leads { Leads seat.old seat.new 34
        (λ (k : Changer T.allows (hand_calls S.Shape M.Machine M.left_dealt hand.entry)) ps.
        FillsPlan k ps (L.list snaps.now) change)
        (λ k ps. IsBehindChange k ps (L.list snaps.now) change help.new result) }
    ensures left { result ≡ false → steps_made seat.new + suc (help_left help.new.at)
        ≤ steps_made seat.old + 34 }
{
    let start = hand.scx_start(change.scx);
    fill_all::<S, M, T, L>(hand, seat, snaps, change, start);
    helps::call::<S, M, T>(hand, seat, start, help)
}
