//! What updates fill, of whatever machine updates.
ghost use Rattle.std.specs.Prelude.{◌≡◌, ◌<◌, true, false, Ok, None, Some, IfSome};
ghost use Rattle.arena.specs.declared.word.NodeWord.{NodeWord};
ghost use Rattle.arena.specs.declared.word.SettledPart.{SettledPart};
ghost use Rattle.edits.specs.Pieces.{is_filled, is_leaf_piece, part_behind, word_of};
ghost use Rattle.edits.specs.declared.update.Next.{Next};
ghost use Rattle.straight.specs.Hands.{IsAt, hand_slots};
ghost use Rattle.straight.specs.Leads.{steps_made};
ghost use Rattle.straight.specs.StraightUpdate.{FillGoesOn, IsFreshPiece, StandsToFill, StandsToTry, TryGoesOn};

use crate::call_machine::CallMachine;
use crate::hand::Hand;
use crate::step::step_from;
use arena::{Access, Kind, NodeNo, NodeWord, SettledPart, Side, Slot, Step, Word};
use atomic_table::Seat;
use edits::{Edit, Next, Nth, Piece, Stop, UpdateRun};
use tables::table_shape::TableShape;
use tables::view::SeatView;
use template::Found;

/// Whether it is a leaf.
#[inline(always)]
fn is_leaf_piece(piece: &Piece) -> bool
    ensures { result ≡ is_leaf_piece piece.now }
{
    match piece {
        Piece::Leaf { .. } => true,
        Piece::Fork { .. } => false,
    }
}

/// A fresh node of a try: what its walk has found, which of those of its edit it is, where its words
/// begin, and what is to be in them.
#[derive(Clone, Copy)]
struct FreshNode<'a> {
    found: &'a Found,
    nth: Nth,
    start: usize,
    piece: &'a Piece,
}

/// Stores what a word of the fresh node of this place is to hold.
#[inline(always)]
fn put<S: TableShape, M: CallMachine<S>, E: Edit + Copy>(
    hand: Hand<S>,
    seat: &mut Seat<u8, SeatView>,
    run: &UpdateRun<E, ()>,
    node: FreshNode<'_>,
    part: NodeWord,
    value: u64,
)
    requires table { IsAt S.mode S.lasts hand seat.old }
    requires fresh { IsFreshPiece (hand_slots hand) E.means run.now node.found.now
        node.nth node.start node.piece.now }
    requires value { value ≡ word_of node.piece.now part }
    requires fills { StandsToFill S.Shape M.Machine M.left_dealt E.means hand node.found.now
        seat.old run.now node.nth (Some part) }
    ensures goes_on { FillGoesOn S.Shape M.Machine M.left_dealt E.means hand.entry
        node.entry.found.now run.now node.entry.nth node.entry.piece.now seat.old (Some part)
        seat.new (part_behind node.entry.piece.now part) }
    ensures moves { steps_made seat.old < steps_made seat.new }
{
    let (kind, word) = (Kind::Fill, Word::Node(run.nodes.at(node.nth), part));
    let access = Access::Store(value);
    step_from::<S, M>(hand, seat, Step { kind, word, access }, node.start);
}

/// Fills a word of the fresh node of this place.
#[inline(always)]
fn fill_word<S: TableShape, M: CallMachine<S>, E: Edit + Copy>(
    hand: Hand<S>,
    seat: &mut Seat<u8, SeatView>,
    run: &UpdateRun<E, ()>,
    node: FreshNode<'_>,
    part: NodeWord,
)
    requires table { IsAt S.mode S.lasts hand seat.old }
    requires fresh { IsFreshPiece (hand_slots hand) E.means run.now node.found.now
        node.nth node.start node.piece.now }
    requires fills { StandsToFill S.Shape M.Machine M.left_dealt E.means hand node.found.now
        seat.old run.now node.nth (Some part) }
    ensures goes_on { FillGoesOn S.Shape M.Machine M.left_dealt E.means hand.entry
        node.entry.found.now run.now node.entry.nth node.entry.piece.now seat.old (Some part)
        seat.new (part_behind node.entry.piece.now part) }
    ensures moves { steps_made seat.old < steps_made seat.new }
{
    let value = node.piece.word(part);
    put::<S, M, E>(hand, seat, run, node, part, value);
}

/// Fills a word of the fresh node of this place, and returns the word that is filled next, if one
/// is.
#[inline(always)]
fn fill<S: TableShape, M: CallMachine<S>, E: Edit + Copy>(
    hand: Hand<S>,
    seat: &mut Seat<u8, SeatView>,
    run: &UpdateRun<E, ()>,
    node: FreshNode<'_>,
    part: NodeWord,
) -> Option<NodeWord>
    requires table { IsAt S.mode S.lasts hand seat.old }
    requires fresh { IsFreshPiece (hand_slots hand) E.means run.now node.found.now
        node.nth node.start node.piece.now }
    requires fills { StandsToFill S.Shape M.Machine M.left_dealt E.means hand node.found.now
        seat.old run.now node.nth (Some part) }
    ensures goes_on { FillGoesOn S.Shape M.Machine M.left_dealt E.means hand.entry
        node.entry.found.now
        run.now node.entry.nth node.entry.piece.now seat.old (Some part) seat.new result }
    ensures moves { steps_made seat.old < steps_made seat.new }
    ensures filled { IfSome result (λ part. is_filled node.entry.piece.now part ≡ true) }
{
    fill_word::<S, M, E>(hand, seat, run, node, part);
    node.piece.behind(part)
}

/// Fills the high half of the value in this slot, if that is not 0. With it and without it the same
/// comes next: so it has a function of its own, behind which that is asked once.
#[inline(always)]
fn fill_high<S: TableShape, M: CallMachine<S>, E: Edit + Copy>(
    hand: Hand<S>,
    seat: &mut Seat<u8, SeatView>,
    run: &UpdateRun<E, ()>,
    node: FreshNode<'_>,
    slot: Slot,
    high: u64,
)
    requires table { IsAt S.mode S.lasts hand seat.old }
    requires fresh { IsFreshPiece (hand_slots hand) E.means run.now node.found.now
        node.nth node.start node.piece.now }
    requires value { high ≡ word_of node.piece.now (NodeWord.Settled (SettledPart.High slot)) }
    requires fills { StandsToFill S.Shape M.Machine M.left_dealt E.means hand node.found.now
        seat.old run.now
        node.nth (part_behind node.piece.now (NodeWord.Settled (SettledPart.Value slot))) }
    ensures { FillGoesOn S.Shape M.Machine M.left_dealt E.means hand.entry node.entry.found.now
        run.now node.entry.nth node.entry.piece.now
        seat.old (part_behind node.entry.piece.now (NodeWord.Settled (SettledPart.Value slot)))
        seat.new (part_behind node.entry.piece.now (NodeWord.Settled (SettledPart.High slot))) }
{
    if high == 0 {
        return;
    }
    let part = NodeWord::Settled(SettledPart::High(slot));
    put::<S, M, E>(hand, seat, run, node, part, high);
}

/// Fills the pair in this slot of a leaf: its key, and what of its value is to be filled. Where its
/// caller knows the slot, so does the compiler.
#[inline(always)]
fn fill_pair<S: TableShape, M: CallMachine<S>, E: Edit + Copy>(
    hand: Hand<S>,
    seat: &mut Seat<u8, SeatView>,
    run: &UpdateRun<E, ()>,
    node: FreshNode<'_>,
    slot: Slot,
) -> Option<NodeWord>
    requires table { IsAt S.mode S.lasts hand seat.old }
    requires fresh { IsFreshPiece (hand_slots hand) E.means run.now node.found.now
        node.nth node.start node.piece.now }
    requires fills { StandsToFill S.Shape M.Machine M.left_dealt E.means hand node.found.now
        seat.old run.now node.nth (Some (NodeWord.Settled (SettledPart.Key slot))) }
    requires leaf { is_leaf_piece node.piece.now ≡ true }
    requires there { is_filled node.piece.now (NodeWord.Settled (SettledPart.Key slot)) ≡ true }
    ensures goes_on { FillGoesOn S.Shape M.Machine M.left_dealt E.means hand.entry
        node.entry.found.now
        run.now node.entry.nth node.entry.piece.now seat.old (Some (NodeWord.Settled (SettledPart.Key slot)))
        seat.new result }
    ensures filled { IfSome result (λ part. is_filled node.entry.piece.now part ≡ true) }
{
    let (key, low, high) = node.piece.pair_words(slot);
    let part = NodeWord::Settled(SettledPart::Key(slot));
    put::<S, M, E>(hand, seat, run, node, part, key);
    let part = NodeWord::Settled(SettledPart::Value(slot));
    put::<S, M, E>(hand, seat, run, node, part, low);
    fill_high::<S, M, E>(hand, seat, run, node, slot, high);
    node.piece.key_behind(slot)
}

/// Fills the count of the pairs, where that is the word that is filled next.
#[inline(always)]
fn fill_more<S: TableShape, M: CallMachine<S>, E: Edit + Copy>(
    hand: Hand<S>,
    seat: &mut Seat<u8, SeatView>,
    run: &UpdateRun<E, ()>,
    node: FreshNode<'_>,
    next: Option<NodeWord>,
) -> Option<NodeWord>
    requires table { IsAt S.mode S.lasts hand seat.old }
    requires fresh { IsFreshPiece (hand_slots hand) E.means run.now node.found.now
        node.nth node.start node.piece.now }
    requires fills { StandsToFill S.Shape M.Machine M.left_dealt E.means hand node.found.now
        seat.old run.now node.nth next }
    requires there { IfSome next (λ part. is_filled node.piece.now part ≡ true) }
    ensures goes_on { FillGoesOn S.Shape M.Machine M.left_dealt E.means hand.entry
        node.entry.found.now
        run.now node.entry.nth node.entry.piece.now seat.old next seat.new result }
    ensures filled { IfSome result (λ part. is_filled node.entry.piece.now part ≡ true) }
{
    match next {
        Some(NodeWord::Settled(SettledPart::More)) => {
            let more = NodeWord::Settled(SettledPart::More);
            fill::<S, M, E>(hand, seat, run, node, more)
        }
        _ => next,
    }
}

/// Whether the key in this slot of a leaf is the word that is filled next.
#[inline(always)]
fn is_pair_next(piece: &Piece, next: Option<NodeWord>, slot: Slot) -> bool
    ensures { result ≡ true → (next ≡ Some (NodeWord.Settled (SettledPart.Key slot)))
        × (is_leaf_piece piece.now ≡ true) }
{
    match next {
        Some(NodeWord::Settled(SettledPart::Key(at))) => at == slot && is_leaf_piece(piece),
        _ => false,
    }
}

/// Fills the last two pairs of a leaf, as many as there are, where the key of the third is the word
/// that is filled next.
#[inline(always)]
fn fill_last_pairs<S: TableShape, M: CallMachine<S>, E: Edit + Copy>(
    hand: Hand<S>,
    seat: &mut Seat<u8, SeatView>,
    run: &UpdateRun<E, ()>,
    node: FreshNode<'_>,
    next: Option<NodeWord>,
) -> Option<NodeWord>
    requires table { IsAt S.mode S.lasts hand seat.old }
    requires fresh { IsFreshPiece (hand_slots hand) E.means run.now node.found.now
        node.nth node.start node.piece.now }
    requires fills { StandsToFill S.Shape M.Machine M.left_dealt E.means hand node.found.now
        seat.old run.now node.nth next }
    requires there { IfSome next (λ part. is_filled node.piece.now part ≡ true) }
    ensures { FillGoesOn S.Shape M.Machine M.left_dealt E.means hand.entry node.entry.found.now
        run.now node.entry.nth node.entry.piece.now seat.old next seat.new result }
{
    if !is_pair_next(node.piece, next, Slot::Third) {
        return next;
    }
    let fourth = fill_pair::<S, M, E>(hand, seat, run, node, Slot::Third);
    if !is_pair_next(node.piece, fourth, Slot::Fourth) {
        return fourth;
    }
    fill_pair::<S, M, E>(hand, seat, run, node, Slot::Fourth)
}

/// Fills the pairs of a leaf, where the key of the first is the word that is filled next. It ends
/// at the first slot that does not come next, so that the compiler asks once behind each pair.
#[inline(always)]
fn fill_pairs<S: TableShape, M: CallMachine<S>, E: Edit + Copy>(
    hand: Hand<S>,
    seat: &mut Seat<u8, SeatView>,
    run: &UpdateRun<E, ()>,
    node: FreshNode<'_>,
    next: Option<NodeWord>,
) -> Option<NodeWord>
    requires table { IsAt S.mode S.lasts hand seat.old }
    requires fresh { IsFreshPiece (hand_slots hand) E.means run.now node.found.now
        node.nth node.start node.piece.now }
    requires fills { StandsToFill S.Shape M.Machine M.left_dealt E.means hand node.found.now
        seat.old run.now node.nth next }
    requires there { IfSome next (λ part. is_filled node.piece.now part ≡ true) }
    ensures { FillGoesOn S.Shape M.Machine M.left_dealt E.means hand.entry node.entry.found.now
        run.now node.entry.nth node.entry.piece.now seat.old next seat.new result }
{
    if !is_pair_next(node.piece, next, Slot::First) {
        return next;
    }
    let second = fill_pair::<S, M, E>(hand, seat, run, node, Slot::First);
    if !is_pair_next(node.piece, second, Slot::Second) {
        return second;
    }
    let third = fill_pair::<S, M, E>(hand, seat, run, node, Slot::Second);
    fill_last_pairs::<S, M, E>(hand, seat, run, node, third)
}

/// Fills a fresh leaf.
#[inline(always)]
fn fill_leaf<S: TableShape, M: CallMachine<S>, E: Edit + Copy>(
    hand: Hand<S>,
    seat: &mut Seat<u8, SeatView>,
    run: &UpdateRun<E, ()>,
    node: FreshNode<'_>,
)
    requires table { IsAt S.mode S.lasts hand seat.old }
    requires fresh { IsFreshPiece (hand_slots hand) E.means run.now node.found.now
        node.nth node.start node.piece.now }
    requires fills { StandsToFill S.Shape M.Machine M.left_dealt E.means hand node.found.now
        seat.old run.now node.nth (Some (NodeWord.Settled SettledPart.Head)) }
    ensures goes_on { FillGoesOn S.Shape M.Machine M.left_dealt E.means hand.entry
        node.entry.found.now run.now node.entry.nth node.entry.piece.now
        seat.old (Some (NodeWord.Settled SettledPart.Head)) seat.new None }
    ensures moves { steps_made seat.old < steps_made seat.new }
{
    let head = NodeWord::Settled(SettledPart::Head);
    let next = fill::<S, M, E>(hand, seat, run, node, head);
    let next = fill_more::<S, M, E>(hand, seat, run, node, next);
    let mut next = fill_pairs::<S, M, E>(hand, seat, run, node, next);
    while let Some(part) = next {
        next = fill::<S, M, E>(hand, seat, run, node, part);
    }
}

/// Fills a fresh fork: its head, its key and its children.
#[inline(always)]
fn fill_fork<S: TableShape, M: CallMachine<S>, E: Edit + Copy>(
    hand: Hand<S>,
    seat: &mut Seat<u8, SeatView>,
    run: &UpdateRun<E, ()>,
    node: FreshNode<'_>,
)
    requires table { IsAt S.mode S.lasts hand seat.old }
    requires fresh { IsFreshPiece (hand_slots hand) E.means run.now node.found.now
        node.nth node.start node.piece.now }
    requires fills { StandsToFill S.Shape M.Machine M.left_dealt E.means hand node.found.now
        seat.old run.now node.nth (Some (NodeWord.Settled SettledPart.Head)) }
    requires fork { is_leaf_piece node.piece.now ≡ false }
    ensures goes_on { FillGoesOn S.Shape M.Machine M.left_dealt E.means hand.entry
        node.entry.found.now run.now node.entry.nth node.entry.piece.now
        seat.old (Some (NodeWord.Settled SettledPart.Head)) seat.new None }
    ensures moves { steps_made seat.old < steps_made seat.new }
{
    fill_word::<S, M, E>(hand, seat, run, node, NodeWord::Settled(SettledPart::Head));
    let key = NodeWord::Settled(SettledPart::Key(Slot::First));
    fill_word::<S, M, E>(hand, seat, run, node, key);
    fill_word::<S, M, E>(hand, seat, run, node, NodeWord::Child(Side::Left));
    fill_word::<S, M, E>(hand, seat, run, node, NodeWord::Child(Side::Right));
}

/// Fills all words of a fresh node, by what it is: so the compiler asks that once.
#[inline(always)]
fn fill_words<S: TableShape, M: CallMachine<S>, E: Edit + Copy>(
    hand: Hand<S>,
    seat: &mut Seat<u8, SeatView>,
    run: &UpdateRun<E, ()>,
    node: FreshNode<'_>,
)
    requires table { IsAt S.mode S.lasts hand seat.old }
    requires fresh { IsFreshPiece (hand_slots hand) E.means run.now node.found.now
        node.nth node.start node.piece.now }
    requires fills { StandsToFill S.Shape M.Machine M.left_dealt E.means hand node.found.now
        seat.old run.now node.nth (Some (NodeWord.Settled SettledPart.Head)) }
    ensures goes_on { FillGoesOn S.Shape M.Machine M.left_dealt E.means hand.entry
        node.entry.found.now run.now node.entry.nth node.entry.piece.now
        seat.old (Some (NodeWord.Settled SettledPart.Head)) seat.new None }
    ensures moves { steps_made seat.old < steps_made seat.new }
{
    if is_leaf_piece(node.piece) {
        fill_leaf::<S, M, E>(hand, seat, run, node)
    } else {
        fill_fork::<S, M, E>(hand, seat, run, node)
    }
}

/// Fills the fresh node of this place.
#[inline(always)]
pub fn fill_node<S: TableShape, M: CallMachine<S>, E: Edit + Copy>(
    hand: Hand<S>,
    seat: &mut Seat<u8, SeatView>,
    run: &mut UpdateRun<E, ()>,
    found: &Found,
    nth: Nth,
) -> Result<Next, Stop>
    requires table { IsAt S.mode S.lasts hand seat.old }
    requires tries { StandsToTry S.Shape M.Machine M.left_dealt E.means hand found.now
        seat.old run.old (Ok (Next.Fill nth)) }
    ensures goes_on { TryGoesOn S.Shape M.Machine M.left_dealt E.means hand.entry found.now
        seat.old run.old (Ok (Next.Fill nth)) seat.new run.new result }
    ensures moves { steps_made seat.old < steps_made seat.new }
{
    let piece = run.piece(found, nth);
    let start = hand.node_start(run.nodes.at(nth));
    let node = FreshNode {
        found,
        nth,
        start,
        piece: &piece,
    };
    fill_words::<S, M, E>(hand, seat, run, node);
    run.filled(found, nth)
}
