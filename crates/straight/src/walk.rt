//! Walks to a key or to the first pair, of whatever machine walks; and that of an edit to its goal.
ghost use Rattle.std.specs.Prelude.{◌≡◌, ◌≢◌, ◌<◌, ◌≤◌, ◌+◌, ◌*◌, ◌^◌, ℕ, suc, true, false, if◌then◌else◌, nat_lt, IfOk, IfErr, MatchResult};
ghost use Rattle.arena.specs.Heads.{head_of};
ghost use Rattle.order.specs.LastTurns.{SharesKey, SharesNoKey};
ghost use Rattle.order.specs.declared.last_turns.LastTurns.{LastTurns};
ghost use Rattle.template.specs.FoundLeaf.{asked_key, path_key};
ghost use Rattle.template.specs.declared.walk.Way.{Way};
ghost use Rattle.template.specs.Walk.Known.{EndsAt, asks_key, goal_slot, open_side};
ghost use Rattle.template.specs.Walk.Places.{way_at, way_from};
ghost use Rattle.template.specs.Walk.Steps.{room, walk_left};
ghost use Rattle.tables.specs.Seats.{StaysAtTable};
ghost use Rattle.tables.specs.Traces.{shared_nodes};
ghost use Rattle.tables.specs.Slotted.{node_begins};
ghost use Rattle.straight.specs.Leads.{steps_made};
ghost use Rattle.straight.specs.Hands.{IsAt, hand_calls, hand_slots, names};
ghost use Rattle.straight.specs.StraightWalk.{AsksHead, HasWalked, IsAskedFork, MayWalk, MayWalkFrom, WalkEnds, WalkEndsFrom, WalkFinds, WalkGoesDown, Walker, WalkerFinds, WalkerHasHead, WalksNearer, with_turn_if};

use crate::call_machine::CallMachine;
use crate::hand::Hand;
use crate::last_walk;
use crate::node::{Reached, descend, end_with, is_leaf, read};
use arena::{Head, Kind, NodeNo, NodeWord, SettledPart, Side, Slot};
use atomic_table::Seat;
use edits::Edit;
use order::LastTurns;
use ordered_map::{shares, slot_behind};
use tables::table_shape::TableShape;
use tables::view::SeatView;
use template::{Found, Goal, Trail, WalkAt, Way};

/// On which side of a fork with this key the walk continues.
#[inline(always)]
fn side_of(goal: Goal, key: u64) -> Side
    ensures { result ≡ (if nat_lt (path_key goal) key then Side.Left else Side.Right) }
{
    let wanted = match goal {
        Goal::Key(wanted) => wanted,
        Goal::End(Side::Left) => 0,
        Goal::End(Side::Right) => u64::MAX,
    };
    if wanted < key {
        Side::Left
    } else {
        Side::Right
    }
}

/// Whether the head in this word is that of a fork whose key the walk loads: of class 0. It is one
/// test, since most nodes on the way are such forks.
#[inline(always)]
fn asks_key(goal: Goal, word: u64) -> bool
    ensures fork { result ≡ true → (head_of word).leaf ≡ false }
    ensures asks { (head_of word).leaf ≡ false → result ≡ asks_key goal (head_of word) }
{
    match goal {
        Goal::Key(_) => word % 8 == 0,
        Goal::End(_) => false,
    }
}

/// On which side of a fork with the head in this word the walk continues without its key.
#[inline(always)]
fn open_side(goal: Goal, word: u64) -> Side
    ensures { result ≡ open_side goal (head_of word) }
{
    match goal {
        Goal::Key(_) => Side::Left,
        Goal::End(side) => { if word % 4 == 0 { side } else { Side::Left } }
    }
}

/// The key whose value the walk answers at a leaf, if this is the one that it has read there.
#[inline(always)]
fn asked_key(goal: Goal, key: u64) -> u64
    ensures { result ≡ asked_key goal key }
{
    match goal {
        Goal::Key(wanted) => wanted,
        Goal::End(_) => key,
    }
}

/// Ends among the pairs of a leaf of class 0 that begins there and has `more` pairs after its
/// first: it loads the keys in order from this slot on, up to the first that is not below the
/// walk's, or the last.
#[inline(always)]
fn end_from<S: TableShape, M: CallMachine<S>>(
    hand: Hand<S>,
    seat: &mut Seat<u8, SeatView>,
    way: Way,
    goal: Goal,
    trail: Trail,
    start: usize,
    head: Head,
    more: u64,
    first: Slot,
) -> Found
    requires table { IsAt S.mode S.lasts hand seat.old }
    requires start { start ≡ node_begins (hand_slots hand) trail.node }
    requires first { first ≡ goal_slot goal more }
    requires told { HasWalked S.Shape M.Machine M.left_dealt hand seat.old
        (way_at way goal trail (WalkAt.More head)) more }
    ensures table { StaysAtTable seat.old seat.new }
    ensures steps { steps_made seat.new ≤ steps_made seat.old + 6 }
    ensures finds { WalkFinds S.Shape M.Machine M.left_dealt hand.entry seat.old
        (way_at way goal trail (WalkAt.More head)) more seat.new result }
{
    let mut slot = first;
    loop {
        let (kind, part) = (Kind::LoadSettled, NodeWord::Settled(SettledPart::Key(slot)));
        let key = read::<S, M>(hand, seat, kind, trail.node, start, part);
        let asked = asked_key(goal, key);
        if asked == key {
            return end_with::<S, M>(hand, seat, way, goal, trail, start, head, more, slot, key);
        }
        match slot_behind(more, slot) {
            Some(next) if key < asked => slot = next,
            _ => {
                return Found {
                    trail,
                    head,
                    more,
                    key: asked,
                    value: None,
                };
            }
        }
    }
}

/// Ends at a leaf that begins there: among its pairs, or at once where it is above all keys.
#[inline(always)]
fn end<S: TableShape, M: CallMachine<S>>(
    hand: Hand<S>,
    seat: &mut Seat<u8, SeatView>,
    way: Way,
    goal: Goal,
    trail: Trail,
    start: usize,
    at: WalkAt,
    word: u64,
) -> Found
    requires first { (more : ℕ) → goal_slot goal more ≡ Slot.First }
    requires table { IsAt S.mode S.lasts hand seat.old }
    requires stands { AsksHead (hand_slots hand) trail at start }
    requires leaf { (head_of word).leaf ≡ true }
    requires told { HasWalked S.Shape M.Machine M.left_dealt hand seat.old
        (way_at way goal trail at) word }
    ensures table { StaysAtTable seat.old seat.new }
    ensures steps { steps_made seat.new ≤ steps_made seat.old + 7 }
    ensures finds { WalkFinds S.Shape M.Machine M.left_dealt hand.entry seat.old
        (way_at way goal trail at) word seat.new result }
{
    let head = Head::of(word);
    if head.class == 0 {
        let (kind, part) = (Kind::LoadSettled, NodeWord::Settled(SettledPart::More));
        let more = read::<S, M>(hand, seat, kind, trail.node, start, part);
        let first = Slot::First;
        return end_from::<S, M>(hand, seat, way, goal, trail, start, head, more, first);
    }
    Found {
        trail,
        head,
        more: 0,
        key: asked_key(goal, 0),
        value: None,
    }
}

/// Whether the walk is one within.
#[inline(always)]
fn is_within(way: Way) -> bool
    ensures yes { result ≡ true → way ≡ Way.Within }
    ensures no { result ≡ false → way ≢ Way.Within }
{
    match way {
        Way::Within => true,
        Way::InTree | Way::InTrie => false,
    }
}

/// Whether the walk ends at a fork of class 0 with this key.
#[inline(always)]
fn ends_at(way: Way, goal: Goal, key: u64) -> bool
    ensures ends { EndsAt (way_from way goal) key result }
    ensures small { key < 2 ^ 64 }
{
    match goal {
        Goal::Key(wanted) => is_within(way) && !shares(key, wanted),
        Goal::End(_) => false,
    }
}

/// Whether the walk is one in a tree.
#[inline(always)]
fn is_in_tree(way: Way) -> bool
    ensures yes { result ≡ true → way ≡ Way.InTree }
    ensures no { result ≡ false → way ≢ Way.InTree }
{
    match way {
        Way::InTree => true,
        Way::InTrie | Way::Within => false,
    }
}

/// Whether a turn counts at a fork with the head in this word whose key is not loaded: in a trie it
/// is to be above all keys.
#[inline(always)]
fn counts_above(way: Way, word: u64) -> bool
    ensures yes { result ≡ true → way ≢ Way.InTree → (head_of word).level < 2 }
    ensures no { result ≡ false → (way ≢ Way.InTree) × (2 ≤ (head_of word).level) }
{
    is_in_tree(way) || Head::of(word).level < 2
}

/// Whether the walk goes to a key that shares that of a fork.
#[inline(always)]
fn shares_key(goal: Goal, key: u64) -> bool
    ensures yes { result ≡ true → SharesKey goal key }
    ensures no { result ≡ false → SharesNoKey goal key }
{
    match goal {
        Goal::Key(wanted) => shares(key, wanted),
        Goal::End(_) => false,
    }
}

/// Whether a turn counts at a fork with this key: in a trie the walk's is to share it.
#[inline(always)]
fn counts_below(way: Way, goal: Goal, key: u64) -> bool
    ensures yes { result ≡ true → way ≢ Way.InTree → SharesKey goal key }
    ensures no { result ≡ false → (way ≢ Way.InTree) × SharesNoKey goal key }
{
    is_in_tree(way) || shares_key(goal, key)
}

/// The last forks where it has turned with one more, if that counts.
#[inline(always)]
fn with_turn(turns: LastTurns, counts: bool, side: Side, node: NodeNo) -> LastTurns
    ensures { result ≡ with_turn_if counts side node turns }
{
    if counts {
        turns.with(side, node)
    } else {
        turns
    }
}

/// Continues after the head of a fork that begins there by its key: on a side, or to the end, where
/// the walk goes no further.
#[inline(always)]
fn pass_by_key<S: TableShape, M: CallMachine<S>>(
    hand: Hand<S>,
    seat: &mut Seat<u8, SeatView>,
    way: Way,
    goal: Goal,
    trail: Trail,
    start: usize,
    at: WalkAt,
    word: u64,
) -> Result<(Side, bool), Found>
    requires table { IsAt S.mode S.lasts hand seat.old }
    requires stands { AsksHead (hand_slots hand) trail at start }
    requires asks { IsAskedFork goal (head_of word) }
    requires told { HasWalked S.Shape M.Machine M.left_dealt hand seat.old
        (way_at way goal trail at) word }
    ensures table { StaysAtTable seat.old seat.new }
    ensures one { steps_made seat.new ≡ suc (steps_made seat.old) }
    ensures down { IfOk result (λ to. WalkGoesDown S.Shape M.Machine M.left_dealt hand.entry
        seat.old (way_at way goal trail at) word seat.new to.0 to.1) }
    ensures finds { IfErr result (WalkFinds S.Shape M.Machine M.left_dealt hand.entry seat.old
        (way_at way goal trail at) word seat.new) }
{
    let (kind, part) = (
        Kind::LoadSettled,
        NodeWord::Settled(SettledPart::Key(Slot::First)),
    );
    let key = read::<S, M>(hand, seat, kind, trail.node, start, part);
    if ends_at(way, goal, key) {
        let head = Head::of(word);
        return Err(Found {
            trail,
            head,
            more: 0,
            key,
            value: None,
        });
    }
    Ok((side_of(goal, key), counts_below(way, goal, key)))
}

/// Goes down from a fork by its key, and loads the head of the child; or ends there, where the walk
/// goes no further.
#[inline(always)]
fn step_by_key<S: TableShape, M: CallMachine<S>>(
    hand: Hand<S>,
    seat: &mut Seat<u8, SeatView>,
    way: Way,
    goal: Goal,
    place: Reached,
    word: u64,
) -> Result<(Reached, u64), Found>
    requires table { IsAt S.mode S.lasts hand seat.old }
    requires stands { AsksHead (hand_slots hand) place.trail place.at place.start }
    requires told { IsAskedFork goal (head_of word)
        × (w : Walker (hand_calls S.Shape M.Machine M.left_dealt hand))
        × WalkerHasHead w seat.old.me.0.passes way goal place word }
    ensures table { StaysAtTable seat.old seat.new }
    ensures stands { IfOk result (λ to.
        AsksHead (hand_slots hand.entry) to.0.trail to.0.at to.0.start) }
    ensures nearer { IfOk result (λ to.
        3 + walk_left to.0.at (room way (shared_nodes (names hand.entry)))
        ≤ walk_left place.at (room way (shared_nodes (names hand.entry)))) }
    ensures steps { MatchResult result (λ _. steps_made seat.new ≡ steps_made seat.old + 3)
        (λ _. steps_made seat.new ≡ suc (steps_made seat.old)) }
    ensures goes { MatchResult result
        (λ to. (w : Walker (hand_calls S.Shape M.Machine M.left_dealt hand.entry))
        → WalkerHasHead w seat.old.me.0.passes way goal place word
        → WalkerHasHead w seat.new.me.0.passes way goal to.0 to.1)
        (λ found. (w : Walker (hand_calls S.Shape M.Machine M.left_dealt hand.entry))
        → WalkerHasHead w seat.old.me.0.passes way goal place word
        → WalkerFinds w seat.new.me.0.passes way goal place.turns found) }
{
    let (trail, start, at) = (place.trail, place.start, place.at);
    let (side, counts) = match pass_by_key::<S, M>(hand, seat, way, goal, trail, start, at, word) {
        Ok(to) => to,
        Err(found) => return Err(found),
    };
    let turns = with_turn(place.turns, counts, side, trail.node);
    let turned = Reached { turns, ..place };
    let below = descend::<S, M>(hand, seat, way, goal, turned, word, side);
    let (kind, part) = (Kind::LoadSettled, NodeWord::Settled(SettledPart::Head));
    let head = read::<S, M>(hand, seat, kind, below.trail.node, below.start, part);
    Ok((below, head))
}

/// Goes down as long as there are forks whose keys the walk loads, in a loop of its own: so its last
/// test is whether there is one more. Answers where it is then, and the head there; or how it ends.
#[inline(always)]
fn descend_by_keys<S: TableShape, M: CallMachine<S>>(
    hand: Hand<S>,
    seat: &mut Seat<u8, SeatView>,
    way: Way,
    goal: Goal,
    first: Reached,
    head: u64,
) -> Result<(Reached, u64), (Found, LastTurns)>
    requires table { IsAt S.mode S.lasts hand seat.old }
    requires stands { AsksHead (hand_slots hand) first.trail first.at first.start }
    requires told { (w : Walker (hand_calls S.Shape M.Machine M.left_dealt hand))
        × WalkerHasHead w seat.old.me.0.passes way goal first head }
    ensures table { StaysAtTable seat.old seat.new }
    ensures stands { IfOk result (λ to.
        AsksHead (hand_slots hand.entry) to.0.trail to.0.at to.0.start) }
    ensures open { IfOk result (λ to.
        (head_of to.1).leaf ≡ false → asks_key goal (head_of to.1) ≡ false) }
    ensures nearer { MatchResult result
        (λ to. WalksNearer seat.old seat.new
        (walk_left first.at (room way (shared_nodes (names hand.entry))))
        (walk_left to.0.at (room way (shared_nodes (names hand.entry)))))
        (λ _. steps_made seat.new ≤ steps_made seat.old
        + walk_left first.at (room way (shared_nodes (names hand.entry)))) }
    ensures goes { MatchResult result
        (λ to. (w : Walker (hand_calls S.Shape M.Machine M.left_dealt hand.entry))
        → WalkerHasHead w seat.old.me.0.passes way goal first head
        → WalkerHasHead w seat.new.me.0.passes way goal to.0 to.1)
        (λ ends. (w : Walker (hand_calls S.Shape M.Machine M.left_dealt hand.entry))
        → WalkerHasHead w seat.old.me.0.passes way goal first head
        → WalkerFinds w seat.new.me.0.passes way goal ends.1 ends.0) }
{
    let (mut place, mut word) = (first, head);
    while asks_key(goal, word) {
        match step_by_key::<S, M>(hand, seat, way, goal, place, word) {
            Ok(to) => {
                place = to.0;
                word = to.1;
            }
            Err(found) => return Err((found, place.turns)),
        }
    }
    Ok((place, word))
}

/// Continues after the head of a node that begins there, which is no fork whose key the walk loads:
/// on a side of a fork, or to the end at a leaf.
#[inline(always)]
fn pass_open<S: TableShape, M: CallMachine<S>>(
    hand: Hand<S>,
    seat: &mut Seat<u8, SeatView>,
    way: Way,
    goal: Goal,
    trail: Trail,
    start: usize,
    at: WalkAt,
    word: u64,
) -> Result<(Side, bool), Found>
    requires first { (more : ℕ) → goal_slot goal more ≡ Slot.First }
    requires table { IsAt S.mode S.lasts hand seat.old }
    requires stands { AsksHead (hand_slots hand) trail at start }
    requires open { (head_of word).leaf ≡ false → asks_key goal (head_of word) ≡ false }
    requires told { HasWalked S.Shape M.Machine M.left_dealt hand seat.old
        (way_at way goal trail at) word }
    ensures table { StaysAtTable seat.old seat.new }
    ensures steps { MatchResult result (λ _. steps_made seat.new ≡ steps_made seat.old)
        (λ _. steps_made seat.new ≤ steps_made seat.old + 7) }
    ensures goes { MatchResult result
        (λ to. WalkGoesDown S.Shape M.Machine M.left_dealt hand.entry
        seat.old (way_at way goal trail at) word seat.new to.0 to.1)
        (WalkFinds S.Shape M.Machine M.left_dealt hand.entry seat.old
        (way_at way goal trail at) word seat.new) }
{
    if is_leaf(word) {
        return Err(end::<S, M>(hand, seat, way, goal, trail, start, at, word));
    }
    Ok((open_side(goal, word), counts_above(way, word)))
}

/// The walk by this way from a place on to the leaf where a key is, or would be, or to the first
/// leaf, and the last forks where it turned. Forks whose keys it loads have a loop of their own.
#[inline(always)]
fn to_goal_from<S: TableShape, M: CallMachine<S>>(
    hand: Hand<S>,
    seat: &mut Seat<u8, SeatView>,
    way: Way,
    goal: Goal,
    first: Reached,
) -> (Found, LastTurns)
    requires slot { (more : ℕ) → goal_slot goal more ≡ Slot.First }
    requires table { IsAt S.mode S.lasts hand seat.old }
    requires stands { AsksHead (hand_slots hand) first.trail first.at first.start }
    requires waits { MayWalkFrom S.Shape M.Machine M.left_dealt hand seat.old way goal first }
    ensures table { StaysAtTable seat.old seat.new }
    ensures steps { steps_made seat.new ≤ steps_made seat.old
        + suc (walk_left first.at (room way (shared_nodes (names hand.entry)))) }
    ensures finds { WalkEndsFrom S.Shape M.Machine M.left_dealt hand.entry seat.old way goal first
        seat.new result.1 result.0 }
{
    let plan = *hand.plan;
    let hand = Hand {
        words: hand.words,
        plan: &plan,
        number: hand.number,
        size: hand.size,
    };
    let mut place = first;
    loop {
        let (kind, part) = (Kind::LoadSettled, NodeWord::Settled(SettledPart::Head));
        let head = read::<S, M>(hand, seat, kind, place.trail.node, place.start, part);
        let (last, word) = match descend_by_keys::<S, M>(hand, seat, way, goal, place, head) {
            Ok(below) => below,
            Err(ends) => return ends,
        };
        let (trail, start, at) = (last.trail, last.start, last.at);
        let (side, counts) = match pass_open::<S, M>(
            hand, seat, way, goal, trail, start, at, word,
        ) {
            Ok(to) => to,
            Err(found) => return (found, last.turns),
        };
        let turns = with_turn(last.turns, counts, side, trail.node);
        let turned = Reached { turns, ..last };
        place = descend::<S, M>(hand, seat, way, goal, turned, word, side);
    }
}

/// The walk by this way from the root to the leaf where a key is, or would be, or to the first
/// leaf, and the last forks where it turned.
#[inline(always)]
pub fn to_goal<S: TableShape, M: CallMachine<S>>(
    hand: Hand<S>,
    seat: &mut Seat<u8, SeatView>,
    way: Way,
    goal: Goal,
) -> (Found, LastTurns)
    requires first { (more : ℕ) → goal_slot goal more ≡ Slot.First }
    requires table { IsAt S.mode S.lasts hand seat.old }
    requires waits { MayWalk S.Shape M.Machine M.left_dealt hand seat.old way goal }
    ensures table { StaysAtTable seat.old seat.new }
    ensures steps { steps_made seat.new ≤ steps_made seat.old
        + (3 * (2 + room way (shared_nodes (names hand.entry))) + 5) }
    ensures finds { WalkEnds S.Shape M.Machine M.left_dealt hand.entry seat.old way goal seat.new
        result.1 result.0 }
{
    to_goal_from::<S, M>(hand, seat, way, goal, Reached::root())
}

/// The walk of an edit from a place on, to its goal: the one above, or that to the last pair. It is a
/// function for each type of edit, so that the compiler has it once, and puts it in its place: what
/// is called from several places it would not, as both walks are too much for `inline(always)`.
#[inline(always)]
pub fn call_from<S: TableShape, M: CallMachine<S>, E: Edit>(
    hand: Hand<S>,
    seat: &mut Seat<u8, SeatView>,
    way: Way,
    goal: Goal,
    first: Reached,
) -> (Found, LastTurns)
    requires table { IsAt S.mode S.lasts hand seat.old }
    requires stands { AsksHead (hand_slots hand) first.trail first.at first.start }
    requires waits { MayWalkFrom S.Shape M.Machine M.left_dealt hand seat.old way goal first }
    ensures table { StaysAtTable seat.old seat.new }
    ensures steps { steps_made seat.new ≤ steps_made seat.old
        + suc (walk_left first.at (room way (shared_nodes (names hand.entry)))) }
    ensures finds { WalkEndsFrom S.Shape M.Machine M.left_dealt hand.entry seat.old way goal first
        seat.new result.1 result.0 }
{
    match goal {
        Goal::Key(_) => to_goal_from::<S, M>(hand, seat, way, goal, first),
        Goal::End(side) => match side {
            Side::Left => to_goal_from::<S, M>(hand, seat, way, goal, first),
            Side::Right => last_walk::to_last_from::<S, M>(hand, seat, way, first),
        },
    }
}
