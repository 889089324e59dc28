//! LLX, of whatever machine looks at nodes, and as a call of its own.
ghost use Rattle.std.specs.Prelude.{◌≡◌, ◌≢◌, ◌≤◌, ◌<◌, ◌+◌, ◌⊎◌, suc, true, false, IfOk, IfErr};
ghost use Rattle.arena.specs.Machines.{Call};
ghost use Rattle.prims.specs.Llx.Steps.{llx_left};
ghost use Rattle.prims.specs.Llx.Known.{load};
ghost use Rattle.prims.specs.declared.llx.LlxRun.{LlxRun};
ghost use Rattle.tables.specs.Seats.{StaysAtTable};
ghost use Rattle.straight.specs.Leads.{steps_made};
ghost use Rattle.straight.specs.Inside.{InnerIsTold, InnerWaits};
ghost use Rattle.straight.specs.InnerSteps.{MakesInside, WaitsInside};
ghost use Rattle.straight.specs.Hands.{IsAt, IsCallOf, hand_calls};
ghost use Rattle.straight.specs.StraightLlx.{SeatLlxBegins, SeatLlxWaits, SeatLlxEnds, Looker, LookerSnaps, LoadsMark, LoadsStateAgain, inner_llx};

use crate::call_machine::{CallMachine, CellShape};
use crate::hand::Hand;
use crate::step::step;
use crate::steps::complete;
use arena::{
    ABORTED, Access, COMMITTED, Kind, NodeNo, NodeWord, ScxNo, ScxWord, Shape, Side, Step, Turn,
    Word,
};
use atomic_table::Seat;
use prims::{Llx, LlxAt, LlxRun, Snap};
use tables::table_shape::TableShape;
use tables::view::SeatView;

/// A load of this word.
#[inline(always)]
pub fn load(kind: Kind, word: Word) -> Step
    ensures { result ≡ load kind word }
{
    let access = Access::Load;
    Step { kind, word, access }
}

/// Whether an SCX-record in this state leaves the node in place.
#[inline(always)]
pub fn leaves(state: u64, marked: bool) -> bool
    ensures in_place { result ≡ true → (state ≡ 2) ⊎ ((state ≡ 1) × (marked ≡ false)) }
    ensures disturbs { result ≡ false → (state ≢ 2) × (state ≡ 1 → marked ≡ true) }
{
    match state {
        ABORTED => true,
        COMMITTED => !marked,
        _ => false,
    }
}

/// Loads a word.
#[inline(always)]
fn read<S: TableShape, M: CallMachine<S>, T: Shape>(
    hand: Hand<S>,
    seat: &mut Seat<u8, SeatView>,
    kind: Kind,
    word: Word,
) -> u64
    requires table { IsAt S.mode S.lasts hand seat.old }
    requires waits { WaitsInside (hand_calls S.Shape M.Machine M.left_dealt hand)
        (inner_llx T.allows) seat.old (load kind word) }
    ensures { MakesInside (hand_calls S.Shape M.Machine M.left_dealt hand.entry)
        (inner_llx T.allows) seat.old seat.new (load kind word) result }
{
    let access = Access::Load;
    step::<S, M>(hand, seat, Step { kind, word, access })
}

/// LLX of a node whose mark is asked for: the loads of a snapshot. If something is in the way,
/// it returns whether the node was marked, and by which SCX-record, whose state is asked for again.
#[inline(always)]
pub fn look<S: TableShape, M: CallMachine<S>, T: Shape>(
    hand: Hand<S>,
    seat: &mut Seat<u8, SeatView>,
    node: NodeNo,
) -> Result<Snap, (bool, ScxNo)>
    requires table { IsAt S.mode S.lasts hand seat.old }
    requires waits { (k : Looker T.allows (hand_calls S.Shape M.Machine M.left_dealt hand))
        × LoadsMark k seat.old.me.0.passes node }
    ensures table { StaysAtTable seat.old seat.new }
    ensures moves { steps_made seat.old < steps_made seat.new }
    ensures steps { steps_made seat.new ≤ steps_made seat.old + 7 }
    ensures snaps { IfOk result (λ snap.
        (k : Looker T.allows (hand_calls S.Shape M.Machine M.left_dealt hand.entry))
        → LoadsMark k seat.old.me.0.passes node
        → LookerSnaps k seat.new.me.0.passes node snap) }
    ensures waits { IfErr result (λ t.
        (k : Looker T.allows (hand_calls S.Shape M.Machine M.left_dealt hand.entry))
        → LoadsMark k seat.old.me.0.passes node
        → LoadsStateAgain k seat.new.me.0.passes node t.0 t.1) }
{
    let mark = Word::Node(node, NodeWord::Marked);
    let info = Word::Node(node, NodeWord::Info);
    let found = read::<S, M, T>(hand, seat, Kind::LoadMarked, mark);
    let marked = found != 0;
    let named = read::<S, M, T>(hand, seat, Kind::LoadInfo, info);
    let scx = ScxNo(named);
    let finished = Word::Scx(scx, ScxWord::State);
    let state = read::<S, M, T>(hand, seat, Kind::LoadState, finished);
    let again = read::<S, M, T>(hand, seat, Kind::LoadMarked, mark);
    if !leaves(state, again != 0) {
        return Err((marked, scx));
    }
    let one = Word::Node(node, NodeWord::Child(Side::Left));
    let left = read::<S, M, T>(hand, seat, Kind::LoadChild, one);
    let other = Word::Node(node, NodeWord::Child(Side::Right));
    let right = read::<S, M, T>(hand, seat, Kind::LoadChild, other);
    let last = read::<S, M, T>(hand, seat, Kind::LoadInfo, info);
    if last != scx.0 {
        return Err((marked, scx));
    }
    Ok(Snap {
        node,
        scx,
        left: NodeNo(left),
        right: NodeNo(right),
    })
}

/// Continues with the machine, if something is in the way. Inlined, since an answer from a function
/// out of line would make a call which meets nothing use memory for its answer too.
#[inline(always)]
fn hand_over<S: CellShape>(
    hand: Hand<S>,
    seat: &mut Seat<u8, SeatView>,
    node: NodeNo,
    marked: bool,
    scx: ScxNo,
) -> Llx
    requires table { IsAt S.mode S.lasts hand seat.old }
    requires waits { (c : Call) × IsCallOf hand c
        × SeatLlxWaits S.allows c seat.old.me.0.passes node (LlxAt.StateAgain marked scx)
        (load Kind.LoadState (Word.Scx scx ScxWord.State)) }
    ensures table { StaysAtTable seat.old seat.new }
    ensures ends { (c : Call) → IsCallOf hand.entry c
        → SeatLlxWaits S.allows c seat.old.me.0.passes node (LlxAt.StateAgain marked scx)
        (load Kind.LoadState (Word.Scx scx ScxWord.State))
        → SeatLlxEnds S.allows c seat.new.me.0.passes node result }
    ensures steps { steps_made seat.new ≤ steps_made seat.old + suc
        (llx_left (LlxAt.StateAgain marked scx)) }
{
    let at = LlxAt::StateAgain { marked, scx };
    let turn = Turn::Ask(load(Kind::LoadState, Word::Scx(scx, ScxWord::State)));
    let mut run = LlxRun { node, at };
    complete::<S, LlxRun, S, LlxRun>(hand.words, hand.plan, seat, hand.number, &mut run, turn)
}

/// LLX of a node: the loads of a snapshot; if something is in the way, the machine continues.
#[inline(always)]
pub fn call<S: CellShape>(hand: Hand<S>, seat: &mut Seat<u8, SeatView>, node: NodeNo) -> Llx
    requires table { IsAt S.mode S.lasts hand seat.old }
    requires begins { (c : Call) × IsCallOf hand c
        × SeatLlxBegins S.allows c seat.old.me.0.passes node }
    ensures table { StaysAtTable seat.old seat.new }
    ensures ends { (c : Call) → IsCallOf hand.entry c
        → SeatLlxBegins S.allows c seat.old.me.0.passes node
        → SeatLlxEnds S.allows c seat.new.me.0.passes node result }
    ensures steps { steps_made seat.new ≤ steps_made seat.old + 64 }
{
    match look::<S, LlxRun, S>(hand, seat, node) {
        Ok(snap) => Llx::Snapshot(snap),
        Err((marked, scx)) => hand_over(hand, seat, node, marked, scx),
    }
}
