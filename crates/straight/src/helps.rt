//! HELP, of whatever machine helps: its steps inline.
ghost use Rattle.std.specs.Prelude.{◌≡◌, ◌≢◌, ◌+◌, ◌≤◌, ◌⊎◌, ℕ, suc, true, false};
ghost use Rattle.arena.specs.MemberIndex.{member_index};
ghost use Rattle.help.specs.Help.Steps.{help_left};
ghost use Rattle.help.specs.Help.Known.{settled_load};
ghost use Rattle.tables.specs.Slotted.{scx_begins, word_begins};
ghost use Rattle.straight.specs.Hands.{IsAt, hand_calls, hand_slots};
ghost use Rattle.straight.specs.InnerSteps.{MakesInside, WaitsInside};
ghost use Rattle.straight.specs.Leads.{Leads, steps_made};
ghost use Rattle.straight.specs.StraightHelp.{Helper, HelperMarks, IsBehindFreeze, IsBehindFreezes, IsBehindHelp, LoadsMember, LoadsPlan, SetsFlag, inner_help};
ghost use Rattle.straight.specs.Inside.{InnerIsTold, InnerWaits};

use crate::call_machine::CallMachine;
use crate::hand::Hand;
use crate::step::step_from;
use arena::{
    Access, COMMITTED, Kind, MemberIndex, NodeNo, NodeWord, Plan, ScxNo, ScxWord, Shape, Step, Word,
};
use atomic_table::Seat;
use help::{HelpAt, HelpRun};
use tables::table_shape::TableShape;
use tables::view::SeatView;

/// Makes the step that a HELP waits for, on a word whose node or SCX-record begins there.
#[inline(always)]
fn act_on<S: TableShape, M: CallMachine<S>, T: Shape>(
    hand: Hand<S>,
    seat: &mut Seat<u8, SeatView>,
    start: usize,
    word: Word,
    kind: Kind,
    access: Access,
) -> u64
    requires table { IsAt S.mode S.lasts hand seat.old }
    requires start { start ≡ word_begins (hand_slots hand) word }
    requires waits { WaitsInside (hand_calls S.Shape M.Machine M.left_dealt hand)
        (inner_help T.allows) seat.old record { kind = kind; word = word; access = access } }
    ensures { MakesInside (hand_calls S.Shape M.Machine M.left_dealt hand.entry)
        (inner_help T.allows)
        seat.old seat.new record { kind = kind; word = word; access = access } result }
{
    step_from::<S, M>(hand, seat, Step { kind, word, access }, start)
}

/// Makes the step that a HELP waits for, on a word of a node.
#[inline(always)]
fn act<S: TableShape, M: CallMachine<S>, T: Shape>(
    hand: Hand<S>,
    seat: &mut Seat<u8, SeatView>,
    node: NodeNo,
    part: NodeWord,
    kind: Kind,
    access: Access,
) -> u64
    requires table { IsAt S.mode S.lasts hand seat.old }
    requires waits { WaitsInside (hand_calls S.Shape M.Machine M.left_dealt hand)
        (inner_help T.allows)
        seat.old record { kind = kind; word = Word.Node node part; access = access } }
    ensures { MakesInside (hand_calls S.Shape M.Machine M.left_dealt hand.entry)
        (inner_help T.allows)
        seat.old seat.new record { kind = kind; word = Word.Node node part; access = access } result }
{
    let start = hand.node_start(node);
    let word = Word::Node(node, part);
    step_from::<S, M>(hand, seat, Step { kind, word, access }, start)
}

/// Loads a settled word of the SCX-record, which begins there.
#[inline(always)]
fn read<S: TableShape, M: CallMachine<S>, T: Shape>(
    hand: Hand<S>,
    seat: &mut Seat<u8, SeatView>,
    scx: ScxNo,
    start: usize,
    part: ScxWord,
) -> u64
    requires table { IsAt S.mode S.lasts hand seat.old }
    requires start { start ≡ scx_begins (hand_slots hand) scx }
    requires waits { WaitsInside (hand_calls S.Shape M.Machine M.left_dealt hand)
        (inner_help T.allows) seat.old (settled_load scx.0 part) }
    ensures { MakesInside (hand_calls S.Shape M.Machine M.left_dealt hand.entry)
        (inner_help T.allows) seat.old seat.new (settled_load scx.0 part) result }
{
    let (kind, word) = (Kind::LoadSettled, Word::Scx(scx, part));
    let access = Access::Load;
    act_on::<S, M, T>(hand, seat, start, word, kind, access)
}

/// Whether an info that a freezing exchange found so is frozen now.
#[inline(always)]
fn is_frozen(found: u64, seen: u64, scx: ScxNo) -> bool
    ensures frozen { result ≡ true → (found ≡ seen) ⊎ (found ≡ scx.0) }
    ensures other { result ≡ false → (found ≢ seen) × (found ≢ scx.0) }
{
    found == seen || found == scx.0
}

/// Freezes the node of this place of an SCX-record that begins there and whose plan has been read;
/// returns whether it is frozen.
#[inline(always)]
fn freeze<S: TableShape, M: CallMachine<S>, T: Shape>(
    hand: Hand<S>,
    seat: &mut Seat<u8, SeatView>,
    start: usize,
    run: &mut HelpRun,
    j: MemberIndex,
) -> bool
    requires table { IsAt S.mode S.lasts hand seat.old }
    requires start { start ≡ scx_begins (hand_slots hand) run.old.scx }
    requires waits { (k : Helper T.allows (hand_calls S.Shape M.Machine M.left_dealt hand))
        × LoadsMember k seat.old.me.0.passes run.old j }
    ensures leads { Leads seat.old seat.new 3
        (λ (k : Helper T.allows (hand_calls S.Shape M.Machine M.left_dealt hand.entry)) ps.
        LoadsMember k ps run.old j)
        (λ k ps. IsBehindFreeze k ps run.new run.old.plan.0 j result) }
    ensures left { result ≡ false → help_left run.new.at ≤ 1 }
    ensures same { (run.new.scx ≡ run.old.scx) × (run.new.plan ≡ run.old.plan) }
{
    let scx = run.scx;
    let number = j.number();
    let part = ScxWord::Member(number);
    let member = NodeNo(read::<S, M, T>(hand, seat, scx, start, part));
    run.members[j.index()] = member;
    let part = ScxWord::Seen(number);
    let seen = read::<S, M, T>(hand, seat, scx, start, part);
    let freeze = Access::Exchange {
        expected: seen,
        new: scx.0,
    };
    let found = act::<S, M, T>(hand, seat, member, NodeWord::Info, Kind::Freeze, freeze);
    if !is_frozen(found, seen, scx) {
        run.at = HelpAt::AllFrozen { j, found };
        return false;
    }
    true
}

/// Freezes the nodes of an SCX-record whose plan has been read; returns whether all are frozen.
#[inline(always)]
fn freeze_all<S: TableShape, M: CallMachine<S>, T: Shape>(
    hand: Hand<S>,
    seat: &mut Seat<u8, SeatView>,
    start: usize,
    run: &mut HelpRun,
) -> bool
    requires table { IsAt S.mode S.lasts hand seat.old }
    requires start { start ≡ scx_begins (hand_slots hand) run.old.scx }
    requires waits { (k : Helper T.allows (hand_calls S.Shape M.Machine M.left_dealt hand))
        × LoadsMember k seat.old.me.0.passes run.old MemberIndex.First }
    ensures leads { Leads seat.old seat.new 12
        (λ (k : Helper T.allows (hand_calls S.Shape M.Machine M.left_dealt hand.entry)) ps.
        LoadsMember k ps run.old MemberIndex.First)
        (λ k ps. IsBehindFreezes k ps run.new result) }
    ensures left { result ≡ false → help_left run.new.at ≤ 1 }
    ensures same { (run.new.scx ≡ run.old.scx) × (run.new.plan ≡ run.old.plan) }
{
    let plan = run.plan;
    let first = MemberIndex::First;
    if !freeze::<S, M, T>(hand, seat, start, run, first) {
        return false;
    }
    let Some(second) = plan.member_behind(first) else {
        return true;
    };
    if !freeze::<S, M, T>(hand, seat, start, run, second) {
        return false;
    }
    let Some(third) = plan.member_behind(second) else {
        return true;
    };
    if !freeze::<S, M, T>(hand, seat, start, run, third) {
        return false;
    }
    let Some(fourth) = plan.member_behind(third) else {
        return true;
    };
    freeze::<S, M, T>(hand, seat, start, run, fourth)
}

/// Marks the node of this place, if the SCX-record, whose flag is set, finalizes it.
#[inline(always)]
fn mark<S: TableShape, M: CallMachine<S>, T: Shape>(
    hand: Hand<S>,
    seat: &mut Seat<u8, SeatView>,
    run: &HelpRun,
    j: MemberIndex,
)
    requires table { IsAt S.mode S.lasts hand seat.old }
    requires marks { (k : Helper T.allows (hand_calls S.Shape M.Machine M.left_dealt hand))
        × HelperMarks k seat.old.me.0.passes run.now (member_index j) }
    ensures { Leads seat.old seat.new 1
        (λ (k : Helper T.allows (hand_calls S.Shape M.Machine M.left_dealt hand.entry)) ps.
        HelperMarks k ps run.now (member_index j))
        (λ k ps. HelperMarks k ps run.now (member_index j + 1)) }
{
    if run.plan.finalizes(j) {
        let node = run.members[j.index()];
        let mark = Access::Store(1);
        act::<S, M, T>(hand, seat, node, NodeWord::Marked, Kind::Mark, mark);
    }
}

/// Marks those nodes of an SCX-record whose flag is set that it finalizes.
#[inline(always)]
fn mark_all<S: TableShape, M: CallMachine<S>, T: Shape>(
    hand: Hand<S>,
    seat: &mut Seat<u8, SeatView>,
    run: &HelpRun,
)
    requires table { IsAt S.mode S.lasts hand seat.old }
    requires marks { (k : Helper T.allows (hand_calls S.Shape M.Machine M.left_dealt hand))
        × HelperMarks k seat.old.me.0.passes run.now 0 }
    ensures { Leads seat.old seat.new 4
        (λ (k : Helper T.allows (hand_calls S.Shape M.Machine M.left_dealt hand.entry)) ps.
        HelperMarks k ps run.now 0)
        (λ k ps. InnerWaits k ps (record run.now { at = HelpAt.New })
        (settled_load run.now.scx.0 ScxWord.New)) }
{
    mark::<S, M, T>(hand, seat, run, MemberIndex::First);
    mark::<S, M, T>(hand, seat, run, MemberIndex::Second);
    mark::<S, M, T>(hand, seat, run, MemberIndex::Third);
    mark::<S, M, T>(hand, seat, run, MemberIndex::Fourth);
}

/// Reads the plan of an SCX-record and freezes its nodes, by a run that has not begun; returns
/// whether all are frozen. If one could not be frozen the run waits to look whether all were.
/// Each edit `E` has its own copy, which the compiler inlines.
#[inline(always)]
pub fn begin<S: TableShape, M: CallMachine<S>, T: Shape, E>(
    hand: Hand<S>,
    seat: &mut Seat<u8, SeatView>,
    start: usize,
    run: &mut HelpRun,
) -> bool
    requires table { IsAt S.mode S.lasts hand seat.old }
    requires start { start ≡ scx_begins (hand_slots hand) run.old.scx }
    requires waits { (k : Helper T.allows (hand_calls S.Shape M.Machine M.left_dealt hand))
        × LoadsPlan k seat.old.me.0.passes run.old }
    ensures leads { Leads seat.old seat.new 13
        (λ (k : Helper T.allows (hand_calls S.Shape M.Machine M.left_dealt hand.entry)) ps.
        LoadsPlan k ps run.old)
        (λ k ps. IsBehindFreezes k ps run.new result) }
    ensures same { run.new.scx ≡ run.old.scx }
    ensures left { result ≡ false → help_left run.new.at ≤ 1 }
{
    let word = read::<S, M, T>(hand, seat, run.scx, start, ScxWord::Plan);
    run.plan = Plan(word);
    freeze_all::<S, M, T>(hand, seat, start, run)
}

/// Commits an SCX-record whose nodes are frozen: sets its flag, marks the nodes that it finalizes,
/// and changes its field.
#[inline(always)]
pub fn commit<S: TableShape, M: CallMachine<S>, T: Shape>(
    hand: Hand<S>,
    seat: &mut Seat<u8, SeatView>,
    start: usize,
    run: &HelpRun,
)
    requires table { IsAt S.mode S.lasts hand seat.old }
    requires start { start ≡ scx_begins (hand_slots hand) run.now.scx }
    requires waits { (k : Helper T.allows (hand_calls S.Shape M.Machine M.left_dealt hand))
        × SetsFlag k seat.old.me.0.passes run.now }
    ensures { Leads seat.old seat.new 9
        (λ (k : Helper T.allows (hand_calls S.Shape M.Machine M.left_dealt hand.entry)) ps.
        SetsFlag k ps run.now)
        (λ k ps. (v : ℕ) × InnerIsTold k ps (record run.now { at = HelpAt.Commit }) v) }
{
    let (scx, plan) = (run.scx, run.plan);
    let word = Word::Scx(scx, ScxWord::AllFrozen);
    let flag = Access::Store(1);
    act_on::<S, M, T>(hand, seat, start, word, Kind::SetFrozen, flag);
    mark_all::<S, M, T>(hand, seat, run);
    let new = read::<S, M, T>(hand, seat, scx, start, ScxWord::New);
    let old = read::<S, M, T>(hand, seat, scx, start, ScxWord::Old);
    let node = run.members[plan.at().index()];
    let field = NodeWord::Child(plan.side());
    let change = Access::Exchange { expected: old, new };
    act::<S, M, T>(hand, seat, node, field, Kind::Update, change);
    let word = Word::Scx(scx, ScxWord::State);
    let commit = Access::Store(COMMITTED);
    act_on::<S, M, T>(hand, seat, start, word, Kind::Commit, commit);
}

/// HELP of an SCX-record by a run that has not begun; returns whether it has committed. If a node
/// could not be frozen the run waits to look whether all were.
#[inline(always)]
pub fn call<S: TableShape, M: CallMachine<S>, T: Shape>(
    hand: Hand<S>,
    seat: &mut Seat<u8, SeatView>,
    start: usize,
    run: &mut HelpRun,
) -> bool
    requires table { IsAt S.mode S.lasts hand seat.old }
    requires start { start ≡ scx_begins (hand_slots hand) run.old.scx }
    requires waits { (k : Helper T.allows (hand_calls S.Shape M.Machine M.left_dealt hand))
        × LoadsPlan k seat.old.me.0.passes run.old }
    ensures leads { Leads seat.old seat.new 22
        (λ (k : Helper T.allows (hand_calls S.Shape M.Machine M.left_dealt hand.entry)) ps.
        LoadsPlan k ps run.old)
        (λ k ps. IsBehindHelp k ps run.new result) }
    ensures same { run.new.scx ≡ run.old.scx }
    ensures left { result ≡ false → steps_made seat.new + suc (help_left run.new.at)
        ≤ steps_made seat.old + 22 }
{
    if !begin::<S, M, T, ()>(hand, seat, start, run) {
        return false;
    }
    commit::<S, M, T>(hand, seat, start, run);
    true
}
