//! What updates read of a node, of whatever machine updates.
ghost use Rattle.std.specs.Prelude.{◌≡◌, ◌<◌, true, Ok};
ghost use Rattle.arena.specs.declared.word.SettledPart.{SettledPart};
ghost use Rattle.arena.specs.declared.word.Slot.{Slot};
ghost use Rattle.edits.specs.Readings.{is_at_pair};
ghost use Rattle.edits.specs.declared.update.Next.{Next};
ghost use Rattle.straight.specs.Hands.{IsAt};
ghost use Rattle.straight.specs.Leads.{steps_made};
ghost use Rattle.straight.specs.StraightUpdate.{StandsToTry, TryGoesOn};

use crate::call_machine::CallMachine;
use crate::hand::Hand;
use crate::step::step;
use arena::{Access, Kind, NodeNo, NodeWord, SettledPart, Slot, Step, Word};
use atomic_table::Seat;
use edits::{Edit, Next, UpdateRun};
use tables::table_shape::TableShape;
use tables::view::SeatView;
use template::Found;

/// Loads a settled word of the node that is read.
#[inline(always)]
fn read_word<S: TableShape, M: CallMachine<S>, E: Edit + Copy>(
    hand: Hand<S>,
    seat: &mut Seat<u8, SeatView>,
    run: &mut UpdateRun<E, ()>,
    found: &Found,
    node: NodeNo,
    part: SettledPart,
) -> Next
    requires table { IsAt S.mode S.lasts hand seat.old }
    requires tries { StandsToTry S.Shape M.Machine M.left_dealt E.means hand found.now
        seat.old run.old (Ok (Next.Read node part)) }
    ensures goes_on { TryGoesOn S.Shape M.Machine M.left_dealt E.means hand.entry found.now
        seat.old run.old (Ok (Next.Read node part)) seat.new run.new (Ok result) }
    ensures moves { steps_made seat.old < steps_made seat.new }
{
    let (kind, word) = (Kind::LoadSettled, Word::Node(node, NodeWord::Settled(part)));
    let access = Access::Load;
    let told = step::<S, M>(hand, seat, Step { kind, word, access });
    run.read_on(found, node, part, told)
}

/// Loads key, value and high half of the pair in this slot of a leaf. Where its caller knows the
/// slot, so does the compiler.
#[inline(always)]
fn read_pair<S: TableShape, M: CallMachine<S>, E: Edit + Copy>(
    hand: Hand<S>,
    seat: &mut Seat<u8, SeatView>,
    run: &mut UpdateRun<E, ()>,
    found: &Found,
    node: NodeNo,
    slot: Slot,
) -> Next
    requires table { IsAt S.mode S.lasts hand seat.old }
    requires tries { StandsToTry S.Shape M.Machine M.left_dealt E.means hand found.now
        seat.old run.old (Ok (Next.Read node (SettledPart.Key slot))) }
    requires pair { is_at_pair run.old.read ≡ true }
    ensures pair { is_at_pair run.new.read ≡ true }
    ensures goes_on { TryGoesOn S.Shape M.Machine M.left_dealt E.means hand.entry found.now
        seat.old run.old (Ok (Next.Read node (SettledPart.Key slot))) seat.new run.new (Ok result) }
    ensures moves { steps_made seat.old < steps_made seat.new }
{
    let (kind, access) = (Kind::LoadSettled, Access::Load);
    let word = Word::Node(node, NodeWord::Settled(SettledPart::Key(slot)));
    let key = step::<S, M>(hand, seat, Step { kind, word, access });
    let word = Word::Node(node, NodeWord::Settled(SettledPart::Value(slot)));
    let low = step::<S, M>(hand, seat, Step { kind, word, access });
    let word = Word::Node(node, NodeWord::Settled(SettledPart::High(slot)));
    let high = step::<S, M>(hand, seat, Step { kind, word, access });
    run.read_pair(found, node, slot, key, low, high)
}

/// Loads the pair in this slot, where it is the one that is read next.
#[inline(always)]
fn read_next_pair<S: TableShape, M: CallMachine<S>, E: Edit + Copy>(
    hand: Hand<S>,
    seat: &mut Seat<u8, SeatView>,
    run: &mut UpdateRun<E, ()>,
    found: &Found,
    next: Next,
    slot: Slot,
) -> Next
    requires table { IsAt S.mode S.lasts hand seat.old }
    requires tries { StandsToTry S.Shape M.Machine M.left_dealt E.means hand found.now seat.old
        run.old (Ok next) }
    requires pair { is_at_pair run.old.read ≡ true }
    ensures pair { is_at_pair run.new.read ≡ true }
    ensures goes_on { TryGoesOn S.Shape M.Machine M.left_dealt E.means hand.entry found.now
        seat.old run.old (Ok next) seat.new run.new (Ok result) }
{
    match next {
        Next::Read {
            node,
            part: SettledPart::Key(at),
        } if at == slot => { read_pair::<S, M, E>(hand, seat, run, found, node, at) }
        _ => next,
    }
}

/// Loads all pairs of a leaf, whose first key is read next.
#[inline(always)]
fn read_pairs<S: TableShape, M: CallMachine<S>, E: Edit + Copy>(
    hand: Hand<S>,
    seat: &mut Seat<u8, SeatView>,
    run: &mut UpdateRun<E, ()>,
    found: &Found,
    node: NodeNo,
) -> Next
    requires table { IsAt S.mode S.lasts hand seat.old }
    requires tries { StandsToTry S.Shape M.Machine M.left_dealt E.means hand found.now
        seat.old run.old (Ok (Next.Read node (SettledPart.Key Slot.First))) }
    requires pair { is_at_pair run.old.read ≡ true }
    ensures goes_on { TryGoesOn S.Shape M.Machine M.left_dealt E.means hand.entry found.now
        seat.old run.old (Ok (Next.Read node (SettledPart.Key Slot.First))) seat.new run.new
        (Ok result) }
    ensures moves { steps_made seat.old < steps_made seat.new }
{
    let next = read_pair::<S, M, E>(hand, seat, run, found, node, Slot::First);
    let next = read_next_pair::<S, M, E>(hand, seat, run, found, next, Slot::Second);
    let next = read_next_pair::<S, M, E>(hand, seat, run, found, next, Slot::Third);
    read_next_pair::<S, M, E>(hand, seat, run, found, next, Slot::Fourth)
}

/// Loads a settled word of the node that is read, and with the first key of a leaf all its pairs.
#[inline(always)]
pub fn read<S: TableShape, M: CallMachine<S>, E: Edit + Copy>(
    hand: Hand<S>,
    seat: &mut Seat<u8, SeatView>,
    run: &mut UpdateRun<E, ()>,
    found: &Found,
    node: NodeNo,
    part: SettledPart,
) -> Next
    requires table { IsAt S.mode S.lasts hand seat.old }
    requires tries { StandsToTry S.Shape M.Machine M.left_dealt E.means hand found.now
        seat.old run.old (Ok (Next.Read node part)) }
    ensures goes_on { TryGoesOn S.Shape M.Machine M.left_dealt E.means hand.entry found.now
        seat.old run.old (Ok (Next.Read node part)) seat.new run.new (Ok result) }
    ensures moves { steps_made seat.old < steps_made seat.new }
{
    match part {
        SettledPart::Key(Slot::First) if run.read.is_at_pair() => {
            read_pairs::<S, M, E>(hand, seat, run, found, node)
        }
        _ => read_word::<S, M, E>(hand, seat, run, found, node, part),
    }
}
