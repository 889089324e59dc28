//! The nodes that a walk reaches, of whatever machine walks: their words, and the way down.
ghost use Rattle.std.specs.Prelude.{◌≡◌, ◌<◌, ◌+◌, suc};
ghost use Rattle.arena.specs.Heads.{head_of};
ghost use Rattle.arena.specs.Layout.{all_nodes};
ghost use Rattle.order.specs.declared.last_turns.LastTurns.{LastTurns};
ghost use Rattle.prims.specs.Llx.Known.{load};
ghost use Rattle.template.specs.FoundLeaf.{asked_key};
ghost use Rattle.template.specs.declared.walk.WalkRun.{WalkRun};
ghost use Rattle.template.specs.Walk.Places.{way_at};
ghost use Rattle.tables.specs.Seats.{StaysAtTable};
ghost use Rattle.tables.specs.Traces.{shared_nodes};
ghost use Rattle.tables.specs.Slotted.{node_begins};
ghost use Rattle.straight.specs.Leads.{steps_made};
ghost use Rattle.straight.specs.Hands.{IsAt, hand_calls, hand_slots, names, IsHandOf};
ghost use Rattle.straight.specs.StraightWalk.{AsksBelow, HasWalked, WalkFinds, Walker, WalkerGoesDown, WalkerIsTold, WalkerWaits};

use crate::call_machine::CallMachine;
use crate::hand::Hand;
use crate::step::step_from;
use arena::{Access, Head, Kind, NodeNo, NodeWord, SettledPart, Side, Slot, Step, Word};
use atomic_table::Seat;
use order::LastTurns;
use ordered_map::wide_value;
use tables::table_shape::TableShape;
use tables::view::SeatView;
use template::{Found, Goal, Trail, WalkAt, Way};

/// A node that a walk has reached: where it asks for its head, where its words begin, and the last
/// forks at which it turned above.
#[derive(Clone, Copy)]
pub struct Reached {
    pub trail: Trail,
    pub at: WalkAt,
    pub turns: LastTurns,
    pub start: usize,
}

impl Reached {
    ghost use Rattle.std.specs.Prelude.{◌≡◌};
    ghost use Rattle.order.specs.LastTurns.{no_turns};
    ghost use Rattle.template.specs.Walk.Places.{root_trail};

    /// The root, with which a walk begins.
    #[inline(always)]
    pub fn root() -> Reached
        ensures { result ≡ record { trail = root_trail; at = WalkAt.Root; turns = no_turns; start = 0 } }
    {
        let root = NodeNo(0);
        let side = Side::Left;
        Reached {
            trail: Trail {
                grand: root,
                grand_side: side,
                parent: root,
                side,
                node: root,
            },
            at: WalkAt::Root,
            turns: LastTurns::none(),
            start: 0,
        }
    }
}

/// Loads a word of a node that begins there.
#[inline(always)]
pub fn read<S: TableShape, M: CallMachine<S>>(
    hand: Hand<S>,
    seat: &mut Seat<u8, SeatView>,
    kind: Kind,
    node: NodeNo,
    start: usize,
    part: NodeWord,
) -> u64
    requires table { IsAt S.mode S.lasts hand seat.old }
    requires start { start ≡ node_begins (hand_slots hand) node }
    requires waits { (w : Walker (hand_calls S.Shape M.Machine M.left_dealt hand)) × (m : WalkRun)
        × (turn : LastTurns)
        × WalkerWaits w seat.old.me.0.passes m turn (load kind (Word.Node node part)) }
    ensures table { StaysAtTable seat.old seat.new }
    ensures one { steps_made seat.new ≡ suc (steps_made seat.old) }
    ensures told { (w : Walker (hand_calls S.Shape M.Machine M.left_dealt hand.entry)) (m : WalkRun)
        (turn : LastTurns)
        → WalkerWaits w seat.old.me.0.passes m turn (load kind (Word.Node node part))
        → WalkerIsTold w seat.new.me.0.passes m turn result }
{
    let word = Word::Node(node, part);
    let access = Access::Load;
    step_from::<S, M>(hand, seat, Step { kind, word, access }, start)
}

/// Where the words of a node begin that a walk to this goal has reached. It goes through 32 bits,
/// which the places of all words fit: else the compiler computes beside it where the node's bytes
/// begin, at each node. A walk to the first pair needs those alone.
#[inline(always)]
pub fn start_for<S: TableShape>(hand: Hand<S>, goal: Goal, node: NodeNo) -> usize
    requires table { IsHandOf S.mode S.lasts hand }
    requires node { node.0 < all_nodes (names hand) }
    ensures { result ≡ node_begins (hand_slots hand.entry) node }
{
    let start = hand.node_start(node);
    match goal {
        Goal::End(Side::Left) => start,
        Goal::Key(_) | Goal::End(Side::Right) => start as u32 as usize,
    }
}

/// Whether the head in this word is a leaf's. A walk asks the word at each node, so that of the
/// heads that it makes of them the compiler keeps the last alone.
#[inline(always)]
pub fn is_leaf(word: u64) -> bool
    ensures { result ≡ (head_of word).leaf }
{
    word / 4 % 2 == 1
}

/// Ends at the pair in this slot of a leaf that begins there, which it answers: with the two words
/// of its value.
#[inline(always)]
pub fn end_with<S: TableShape, M: CallMachine<S>>(
    hand: Hand<S>,
    seat: &mut Seat<u8, SeatView>,
    way: Way,
    goal: Goal,
    trail: Trail,
    start: usize,
    head: Head,
    more: u64,
    slot: Slot,
    key: u64,
) -> Found
    requires table { IsAt S.mode S.lasts hand seat.old }
    requires start { start ≡ node_begins (hand_slots hand) trail.node }
    requires asked { asked_key goal key ≡ key }
    requires told { HasWalked S.Shape M.Machine M.left_dealt hand seat.old
        (way_at way goal trail (WalkAt.Pair head more slot)) key }
    ensures table { StaysAtTable seat.old seat.new }
    ensures steps { steps_made seat.new ≡ steps_made seat.old + 2 }
    ensures finds { WalkFinds S.Shape M.Machine M.left_dealt hand.entry seat.old
        (way_at way goal trail (WalkAt.Pair head more slot)) key seat.new result }
{
    let kind = Kind::LoadSettled;
    let part = NodeWord::Settled(SettledPart::Value(slot));
    let low = read::<S, M>(hand, seat, kind, trail.node, start, part);
    let part = NodeWord::Settled(SettledPart::High(slot));
    let high = read::<S, M>(hand, seat, kind, trail.node, start, part);
    Found {
        trail,
        head,
        more,
        key,
        value: Some(wide_value(low, high)),
    }
}

/// Goes down from a fork with the head in this word to its child on this side. Where the words of
/// the child begin is computed once, as soon as it is known.
#[inline(always)]
pub fn descend<S: TableShape, M: CallMachine<S>>(
    hand: Hand<S>,
    seat: &mut Seat<u8, SeatView>,
    way: Way,
    goal: Goal,
    place: Reached,
    word: u64,
    side: Side,
) -> Reached
    requires table { IsAt S.mode S.lasts hand seat.old }
    requires start { place.start ≡ node_begins (hand_slots hand) place.trail.node }
    requires waits { (w : Walker (hand_calls S.Shape M.Machine M.left_dealt hand))
        × WalkerGoesDown w seat.old.me.0.passes way goal place.trail (head_of word).level side
        place.turns }
    ensures table { StaysAtTable seat.old seat.new }
    ensures one { steps_made seat.new ≡ suc (steps_made seat.old) }
    ensures below { AsksBelow (hand_slots hand.entry) way (head_of word).level result }
    ensures down { (w : Walker (hand_calls S.Shape M.Machine M.left_dealt hand.entry))
        → WalkerGoesDown w seat.old.me.0.passes way goal place.trail (head_of word).level side
        place.turns
        → WalkerWaits w seat.new.me.0.passes (way_at way goal result.trail result.at) result.turns
        (load Kind.LoadSettled (Word.Node result.trail.node (NodeWord.Settled SettledPart.Head))) }
{
    let node = place.trail.node;
    let part = NodeWord::Child(side);
    let child = read::<S, M>(hand, seat, Kind::LoadChild, node, place.start, part);
    let trail = Trail {
        grand: place.trail.parent,
        grand_side: place.trail.side,
        parent: node,
        side,
        node: NodeNo(child),
    };
    let start = start_for(hand, goal, trail.node);
    let head = Head::of(word);
    let at = WalkAt::Head { above: head.level };
    Reached {
        trail,
        at,
        turns: place.turns,
        start,
    }
}
