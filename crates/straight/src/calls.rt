//! Edits and ordered reads of a dictionary.
ghost use Rattle.std.specs.Prelude.{◌≡◌, ◌≤◌, ◌<◌, ◌+◌, ◌*◌, ℕ};
ghost use Rattle.arena.specs.Machines.{Call};
ghost use Rattle.arena.specs.Share.{Remaining};
ghost use Rattle.dict.specs.Calls.{AsksForPairs, IsSmallCall, edit_call};
ghost use Rattle.dict.specs.Says.{KeepsLists};
ghost use Rattle.dict.specs.Translated.{IsReplyOf};
ghost use Rattle.dict.specs.WordReplies.{range_reply};
ghost use Rattle.ordered_map.specs.CallRules.{most_steps};
ghost use Rattle.template.specs.Balance.{map_mode, nodes_by};
ghost use Rattle.ordered_map.specs.OrderedMap.{Neighbour as NeighbourOf};
ghost use Rattle.ordered_map.specs.Requests.{as_map_call};
ghost use Rattle.order.specs.Known.{HasNotBegun};
ghost use Rattle.order.specs.Range.{range_means, range_try_left};
ghost use Rattle.order.specs.Steps.{read_left};
ghost use Rattle.tables.specs.Seats.{StaysAtTable};
ghost use Rattle.tables.specs.Traces.{shared_nodes};
ghost use Rattle.straight.specs.Leads.{steps_made};
ghost use Rattle.straight.specs.Hands.{IsAt, IsCallOf, names};
ghost use Rattle.straight.specs.StraightCalls.{CallHasEnded, SeatCallBegins};

use crate::balance::in_trie;
use crate::hand::Hand;
use crate::room::Room;
use crate::{ordered_read, update};
use arena::{Share, Side};
use atomic_table::Seat;
use dict::{
    Dict, DictRun, Reply, Request, WordKey, WordValue, of_neighbour, of_range, of_update, pairs_of,
};
use order::{Neighbour, Range, RangeRun, Refused};
use ordered_map::Pair;
use std::alloc::Global;
use tables::table_shape::Keeping;
use tables::view::SeatView;
use tree::{EditGoal, EditRule, KeyEdit};

/// The most forks that there are as a rule from the root to a leaf.
const DEEP: usize = 32;

/// Makes an edit with `tries` tries and this share, and returns what is left of that.
#[inline(always)]
pub fn make<K: WordKey, V: WordValue, B: Keeping, G: EditGoal, R: EditRule>(
    hand: Hand<Dict<K, V, B>>,
    seat: &mut Seat<u8, SeatView>,
    share: Share,
    tries: u32,
    edit: KeyEdit<G, R>,
) -> (Reply<K, V>, Share)
    requires table { IsAt (map_mode (B.trie B.the)) B.lasts hand seat.old }
    requires small { (0 < tries) × IsSmallCall (edit_call G.goal R.rule edit) }
    requires in_trie { G.trie edit.goal ≡ B.trie B.the }
    requires begins { (c : Call) × IsCallOf hand c
        × SeatCallBegins K.is_valid K.word_of V.is_valid V.word_of (B.trie B.the) c
        seat.old.me.0.passes (edit_call G.goal R.rule edit) share tries hand.number }
    ensures table { StaysAtTable seat.old seat.new }
    ensures ends { (c : Call) → IsCallOf hand.entry c
        → SeatCallBegins K.is_valid K.word_of V.is_valid V.word_of (B.trie B.the) c
        seat.old.me.0.passes (edit_call G.goal R.rule edit) share tries hand.entry.number
        → CallHasEnded K.is_valid K.word_of V.is_valid V.word_of (B.trie B.the) c seat.new.me.0.passes
        (edit_call G.goal R.rule edit) share tries hand.entry.number result.1 result.0 }
    ensures steps { steps_made seat.new ≤ steps_made seat.old + most_steps (edit_call G.goal R.rule edit) tries
        (nodes_by (B.trie B.the) (shared_nodes (names hand.entry))) }
{
    let goal = edit.goal.goal();
    let (updated, share) = update::make::<Dict<K, V, B>, DictRun<K, V>, KeyEdit<G, R>>(
        hand, seat, edit, share, tries,
    );
    (of_update(goal, updated), share)
}

/// A range that has not begun, with the lists of this room: long enough for what it keeps as a
/// rule, which is its pairs, and the forks above them and on the way to them. Where that is refused,
/// they grow as they are filled.
#[inline(always)]
fn range_run(
    room: &mut Room,
    alloc: Global,
    low: u64,
    high: u64,
    most: usize,
    tries: u32,
    trie: bool,
) -> RangeRun
    ensures low { result.read.low ≡ low }
    ensures high { result.read.high ≡ high }
    ensures most { result.read.most ≡ most }
    ensures fresh { HasNotBegun result trie tries }
    ensures bound { (nodes : ℕ) → 0 < tries → read_left range_means result nodes
        ≤ tries * range_try_left most nodes }
{
    let mut run = Range::run(alloc, low, high, most, tries, trie);
    room.exchange_all(&mut run);
    let pairs = most.min(64);
    let _ = run.read.taken.reserve(pairs);
    let _ = run.snaps.reserve(pairs + DEEP);
    let _ = run.read.waiting.reserve(DEEP);
    run
}

/// What a range replies of what its machine has answered. What it lists grows with this allocator;
/// the room keeps the list of words.
#[inline(always)]
fn told_range<K: WordKey, V: WordValue>(
    room: &mut Room,
    alloc: Global,
    told: Result<Vec<Pair>, Refused>,
) -> Reply<K, V>
    ensures { IsReplyOf K.is_valid K.word_of V.is_valid V.word_of (range_reply told) result }
{
    let words = match told {
        Ok(words) => words,
        Err(refused) => return of_range(alloc, Err(refused)),
    };
    let pairs = pairs_of(alloc, &words);
    room.keep(words);
    match pairs {
        Ok(pairs) => Reply::Pairs(pairs),
        Err(_) => Reply::NoMemory,
    }
}

/// Looks with so many tries for the pair beside a key on this side, and takes nothing of a share. It
/// fills a list of the room.
#[inline(always)]
fn neighbour<K: WordKey, V: WordValue, B: Keeping>(
    hand: Hand<Dict<K, V, B>>,
    seat: &mut Seat<u8, SeatView>,
    room: &mut Room,
    alloc: Global,
    tries: u32,
    key: K,
    side: Side,
) -> Reply<K, V>
    requires table { IsAt (map_mode (B.trie B.the)) B.lasts hand seat.old }
    requires tries { 0 < tries }
    requires begins { (c : Call) × (share : Remaining) × IsCallOf hand c
        × SeatCallBegins K.is_valid K.word_of V.is_valid V.word_of (B.trie B.the) c
        seat.old.me.0.passes (NeighbourOf side (K.word_of key)) share tries hand.number }
    ensures table { StaysAtTable seat.old seat.new }
    ensures ends { (c : Call) (share : Remaining) → IsCallOf hand.entry c
        → SeatCallBegins K.is_valid K.word_of V.is_valid V.word_of (B.trie B.the) c
        seat.old.me.0.passes (NeighbourOf side (K.word_of key)) share tries hand.entry.number
        → CallHasEnded K.is_valid K.word_of V.is_valid V.word_of (B.trie B.the) c seat.new.me.0.passes
        (NeighbourOf side (K.word_of key)) share tries hand.entry.number share result }
    ensures steps { steps_made seat.new
        ≤ steps_made seat.old + most_steps (NeighbourOf side (K.word_of key)) tries
        (nodes_by (B.trie B.the) (shared_nodes (names hand.entry))) }
{
    key.valid();
    let mut run = Neighbour::run(alloc, key.word(), side, tries, in_trie::<B>());
    room.exchange(&mut run);
    let told = ordered_read::call::<Dict<K, V, B>, DictRun<K, V>, Neighbour, B>(
        hand, seat, &mut run,
    );
    room.exchange(&mut run);
    of_neighbour(told)
}

/// Makes an ordered read with `tries` tries, which takes nothing of a share. It fills the lists of
/// the room; what a range replies grows with this allocator.
#[inline(always)]
pub fn read<K: WordKey, V: WordValue, B: Keeping>(
    hand: Hand<Dict<K, V, B>>,
    seat: &mut Seat<u8, SeatView>,
    room: &mut Room,
    alloc: Global,
    tries: u32,
    request: Request<K, V>,
) -> Reply<K, V>
    requires table { IsAt (map_mode (B.trie B.the)) B.lasts hand seat.old }
    requires ordered { (0 < tries) × KeepsLists (as_map_call K.word_of V.word_of request) }
    requires begins { (c : Call) × (share : Remaining) × IsCallOf hand c
        × SeatCallBegins K.is_valid K.word_of V.is_valid V.word_of (B.trie B.the) c
        seat.old.me.0.passes (as_map_call K.word_of V.word_of request) share tries hand.number }
    ensures table { StaysAtTable seat.old seat.new }
    ensures ends { (c : Call) (share : Remaining) → IsCallOf hand.entry c
        → SeatCallBegins K.is_valid K.word_of V.is_valid V.word_of (B.trie B.the) c
        seat.old.me.0.passes (as_map_call K.word_of V.word_of request) share tries hand.entry.number
        → CallHasEnded K.is_valid K.word_of V.is_valid V.word_of (B.trie B.the) c seat.new.me.0.passes
        (as_map_call K.word_of V.word_of request) share tries hand.entry.number share result }
    ensures steps { steps_made seat.new
        ≤ steps_made seat.old + most_steps (as_map_call K.word_of V.word_of request) tries
        (nodes_by (B.trie B.the) (shared_nodes (names hand.entry))) }
    ensures nothing { ¬ AsksForPairs (as_map_call K.word_of V.word_of request) → seat.new ≡ seat.old }
{
    match request {
        Request::Successor { key } => neighbour(hand, seat, room, alloc, tries, key, Side::Right),
        Request::Predecessor { key } => neighbour(hand, seat, room, alloc, tries, key, Side::Left),
        Request::Range { low, high, most } => {
            high.valid();
            let mut run = range_run(
                room,
                alloc,
                low.word(),
                high.word(),
                most as usize,
                tries,
                in_trie::<B>(),
            );
            let told = ordered_read::call::<Dict<K, V, B>, DictRun<K, V>, Range, B>(
                hand, seat, &mut run,
            );
            room.exchange_all(&mut run);
            told_range(room, alloc, told)
        }
        // Never: its callers make ordered reads alone, by the clause `ordered`.
        _ => unreachable!(),
    }
}
