//! The walk to the last pair, of whatever machine walks: it goes right wherever it may.
ghost use Rattle.std.specs.Prelude.{◌≡◌, ◌≤◌, ◌+◌, suc, true, false, IfOk, IfErr, MatchResult};
ghost use Rattle.arena.specs.Heads.{head_of};
ghost use Rattle.ordered_map.specs.Holding.{end_slot};
ghost use Rattle.ordered_map.specs.declared.rule.Goal.{Goal};
ghost use Rattle.order.specs.declared.last_turns.LastTurns.{LastTurns};
ghost use Rattle.template.specs.Walk.Known.{open_side};
ghost use Rattle.template.specs.Walk.Places.{way_at};
ghost use Rattle.template.specs.Walk.Steps.{room, walk_left};
ghost use Rattle.tables.specs.Seats.{StaysAtTable};
ghost use Rattle.tables.specs.Traces.{shared_nodes};
ghost use Rattle.tables.specs.Slotted.{node_begins};
ghost use Rattle.straight.specs.Leads.{steps_made};
ghost use Rattle.straight.specs.Hands.{IsAt, hand_calls, hand_slots, names};
ghost use Rattle.straight.specs.StraightWalk.{AsksHead, HasWalked, MayWalkFrom, WalkEndsFrom, WalkFinds, WalkGoesDown, Walker, WalkerIsTold, WalksNearer};

use crate::call_machine::CallMachine;
use crate::hand::Hand;
use crate::node::{Reached, descend, end_with, is_leaf, read};
use arena::{Head, Kind, NodeWord, SettledPart, Side, Slot};
use atomic_table::Seat;
use order::LastTurns;
use ordered_map::end_slot;
use tables::table_shape::TableShape;
use tables::view::SeatView;
use template::{Found, Goal, Trail, WalkAt, Way};

/// Ends at the pair at this end of a leaf that begins there, which is in this slot.
#[inline(always)]
fn end_at<S: TableShape, M: CallMachine<S>>(
    hand: Hand<S>,
    seat: &mut Seat<u8, SeatView>,
    way: Way,
    side: Side,
    trail: Trail,
    start: usize,
    head: Head,
    more: u64,
    slot: Slot,
) -> Found
    requires table { IsAt S.mode S.lasts hand seat.old }
    requires start { start ≡ node_begins (hand_slots hand) trail.node }
    requires slot { slot ≡ end_slot side more }
    requires told { HasWalked S.Shape M.Machine M.left_dealt hand seat.old
        (way_at way (Goal.End side) trail (WalkAt.More head)) more }
    ensures table { StaysAtTable seat.old seat.new }
    ensures steps { steps_made seat.new ≡ steps_made seat.old + 3 }
    ensures finds { WalkFinds S.Shape M.Machine M.left_dealt hand.entry seat.old
        (way_at way (Goal.End side) trail (WalkAt.More head)) more seat.new result }
{
    let (kind, part) = (Kind::LoadSettled, NodeWord::Settled(SettledPart::Key(slot)));
    let key = read::<S, M>(hand, seat, kind, trail.node, start, part);
    let goal = Goal::End(side);
    end_with::<S, M>(hand, seat, way, goal, trail, start, head, more, slot, key)
}

/// Ends at the pair at this end of a leaf that begins there. The first slot has places apart from
/// those of the others.
#[inline(always)]
fn end_at_side<S: TableShape, M: CallMachine<S>>(
    hand: Hand<S>,
    seat: &mut Seat<u8, SeatView>,
    way: Way,
    side: Side,
    trail: Trail,
    start: usize,
    head: Head,
    more: u64,
) -> Found
    requires table { IsAt S.mode S.lasts hand seat.old }
    requires start { start ≡ node_begins (hand_slots hand) trail.node }
    requires told { HasWalked S.Shape M.Machine M.left_dealt hand seat.old
        (way_at way (Goal.End side) trail (WalkAt.More head)) more }
    ensures table { StaysAtTable seat.old seat.new }
    ensures steps { steps_made seat.new ≡ steps_made seat.old + 3 }
    ensures finds { WalkFinds S.Shape M.Machine M.left_dealt hand.entry seat.old
        (way_at way (Goal.End side) trail (WalkAt.More head)) more seat.new result }
{
    match end_slot(side, more) {
        Slot::First => {
            end_at::<S, M>(hand, seat, way, side, trail, start, head, more, Slot::First)
        }
        slot => end_at::<S, M>(hand, seat, way, side, trail, start, head, more, slot),
    }
}

/// Ends at a leaf that begins there, of a walk to this end: at the pair there, or at once where it
/// is above all keys.
#[inline(always)]
fn end_last<S: TableShape, M: CallMachine<S>>(
    hand: Hand<S>,
    seat: &mut Seat<u8, SeatView>,
    way: Way,
    side: Side,
    trail: Trail,
    start: usize,
    at: WalkAt,
    word: u64,
) -> Found
    requires table { IsAt S.mode S.lasts hand seat.old }
    requires stands { AsksHead (hand_slots hand) trail at start }
    requires leaf { (head_of word).leaf ≡ true }
    requires told { HasWalked S.Shape M.Machine M.left_dealt hand seat.old
        (way_at way (Goal.End side) trail at) word }
    ensures table { StaysAtTable seat.old seat.new }
    ensures steps { steps_made seat.new ≤ steps_made seat.old + 7 }
    ensures finds { WalkFinds S.Shape M.Machine M.left_dealt hand.entry seat.old
        (way_at way (Goal.End side) trail at) word seat.new result }
{
    let head = Head::of(word);
    if head.class == 0 {
        let (kind, part) = (Kind::LoadSettled, NodeWord::Settled(SettledPart::More));
        let more = read::<S, M>(hand, seat, kind, trail.node, start, part);
        return end_at_side::<S, M>(hand, seat, way, side, trail, start, head, more);
    }
    Found {
        trail,
        head,
        more: 0,
        key: 0,
        value: None,
    }
}

/// Continues after the head of a node that begins there: on the left of a fork where a walk to this
/// end goes there, or to the end at a leaf.
#[inline(always)]
fn pass_last<S: TableShape, M: CallMachine<S>>(
    hand: Hand<S>,
    seat: &mut Seat<u8, SeatView>,
    way: Way,
    side: Side,
    trail: Trail,
    start: usize,
    at: WalkAt,
    word: u64,
) -> Result<Side, Found>
    requires table { IsAt S.mode S.lasts hand seat.old }
    requires stands { AsksHead (hand_slots hand) trail at start }
    requires left { (head_of word).leaf ≡ false
        → open_side (Goal.End side) (head_of word) ≡ Side.Left }
    requires told { HasWalked S.Shape M.Machine M.left_dealt hand seat.old
        (way_at way (Goal.End side) trail at) word }
    ensures table { StaysAtTable seat.old seat.new }
    ensures steps { MatchResult result (λ _. steps_made seat.new ≡ steps_made seat.old)
        (λ _. steps_made seat.new ≤ steps_made seat.old + 7) }
    ensures down { IfOk result (λ to. WalkGoesDown S.Shape M.Machine M.left_dealt hand.entry
        seat.old (way_at way (Goal.End side) trail at) word seat.new to false) }
    ensures finds { IfErr result (WalkFinds S.Shape M.Machine M.left_dealt hand.entry seat.old
        (way_at way (Goal.End side) trail at) word seat.new) }
{
    if is_leaf(word) {
        return Err(end_last::<S, M>(hand, seat, way, side, trail, start, at, word));
    }
    Ok(Side::Left)
}

/// Whether a walk to the last pair goes right at a node with the head in this word: it does at
/// forks of class 0, and left at the others, without a key.
#[inline(always)]
fn goes_right(word: u64) -> bool
    ensures fork { result ≡ true → (head_of word).leaf ≡ false }
    ensures right { result ≡ true → open_side (Goal.End Side.Right) (head_of word) ≡ Side.Right }
    ensures left { result ≡ false → (head_of word).leaf ≡ false
        → open_side (Goal.End Side.Right) (head_of word) ≡ Side.Left }
{
    !is_leaf(word) && word % 4 == 0
}

/// Goes right as long as a walk to the last pair does so, in a loop of its own: there the compiler
/// knows the side, as it does behind the loop. Answers where it is then, and the head there.
#[inline(always)]
fn descend_right<S: TableShape, M: CallMachine<S>>(
    hand: Hand<S>,
    seat: &mut Seat<u8, SeatView>,
    way: Way,
    first: Reached,
    head: u64,
) -> (Reached, u64)
    requires table { IsAt S.mode S.lasts hand seat.old }
    requires stands { AsksHead (hand_slots hand) first.trail first.at first.start }
    requires told { (w : Walker (hand_calls S.Shape M.Machine M.left_dealt hand))
        × WalkerIsTold w seat.old.me.0.passes
        (way_at way (Goal.End Side.Right) first.trail first.at) first.turns head }
    ensures stands { AsksHead (hand_slots hand.entry) result.0.trail result.0.at result.0.start }
    ensures left { (head_of result.1).leaf ≡ false
        → open_side (Goal.End Side.Right) (head_of result.1) ≡ Side.Left }
    ensures table { StaysAtTable seat.old seat.new }
    ensures nearer { WalksNearer seat.old seat.new
        (walk_left first.at (room way (shared_nodes (names hand.entry))))
        (walk_left result.0.at (room way (shared_nodes (names hand.entry)))) }
    ensures told { (w : Walker (hand_calls S.Shape M.Machine M.left_dealt hand.entry))
        → WalkerIsTold w seat.old.me.0.passes
        (way_at way (Goal.End Side.Right) first.trail first.at) first.turns head
        → WalkerIsTold w seat.new.me.0.passes
        (way_at way (Goal.End Side.Right) result.0.trail result.0.at) result.0.turns result.1 }
{
    let (mut place, mut word) = (first, head);
    while goes_right(word) {
        let (goal, side) = (Goal::End(Side::Right), Side::Right);
        place = descend::<S, M>(hand, seat, way, goal, place, word, side);
        let (kind, part) = (Kind::LoadSettled, NodeWord::Settled(SettledPart::Head));
        word = read::<S, M>(hand, seat, kind, place.trail.node, place.start, part);
    }
    (place, word)
}

/// The walk by this way from a place on to the last leaf: forks at which it goes right have a loop
/// of their own.
#[inline(always)]
pub fn to_last_from<S: TableShape, M: CallMachine<S>>(
    hand: Hand<S>,
    seat: &mut Seat<u8, SeatView>,
    way: Way,
    first: Reached,
) -> (Found, LastTurns)
    requires table { IsAt S.mode S.lasts hand seat.old }
    requires stands { AsksHead (hand_slots hand) first.trail first.at first.start }
    requires waits { MayWalkFrom S.Shape M.Machine M.left_dealt hand seat.old way
        (Goal.End Side.Right) first }
    ensures table { StaysAtTable seat.old seat.new }
    ensures steps { steps_made seat.new ≤ steps_made seat.old
        + suc (walk_left first.at (room way (shared_nodes (names hand.entry)))) }
    ensures finds { WalkEndsFrom S.Shape M.Machine M.left_dealt hand.entry seat.old way
        (Goal.End Side.Right) first seat.new result.1 result.0 }
{
    let plan = *hand.plan;
    let hand = Hand {
        words: hand.words,
        plan: &plan,
        number: hand.number,
        size: hand.size,
    };
    let mut place = first;
    loop {
        let (kind, part) = (Kind::LoadSettled, NodeWord::Settled(SettledPart::Head));
        let head = read::<S, M>(hand, seat, kind, place.trail.node, place.start, part);
        let (last, word) = descend_right::<S, M>(hand, seat, way, place, head);
        let side = match pass_last::<S, M>(
            hand,
            seat,
            way,
            Side::Right,
            last.trail,
            last.start,
            last.at,
            word,
        ) {
            Ok(side) => side,
            Err(found) => return (found, last.turns),
        };
        place = descend::<S, M>(hand, seat, way, Goal::End(Side::Right), last, word, side);
    }
}
