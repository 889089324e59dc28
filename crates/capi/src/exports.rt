//! The functions that C calls. Their contracts hold for a caller that keeps five rules, which no
//! compiler checks:
//!
//! 1. A pass is zeroed before its first use and then written by this library alone; it may move in
//!    memory, and once it has moved its old bytes are not passed again.
//! 2. One call at a time works on a pass; where another thread takes it over, the start or the join
//!    of a thread, a lock or a sequentially consistent atomic orders the calls.
//! 3. Each pointer that is passed leads to live, initialised memory of its type and count, which
//!    nothing else reads or writes during the call; none is null, even where its count is 0.
//! 4. `malloc`, `realloc` and `free` are one allocator, which aligns to 16 bytes; no call comes
//!    from a signal handler, or in the child of a fork of a process with threads.
//! 5. The passes that `regnubas_end` or `regnubas_renew` is given are of one dictionary
//!    (`AreOfOne`).
ghost use Rattle.std.specs.Prelude.{◌≡◌, true, false, None, IfNone, IfSome, length, min};
ghost use Rattle.ordered_map.specs.OrderedMap.{call_insert, call_insert_new, call_delete, call_delete_if, call_pop_first, call_pop_last, call_replace_if, call_successor, call_predecessor};
ghost use Rattle.arena.specs.Limits.{IsAccepted};
ghost use Rattle.arena.specs.declared.limits.Mode.TheVariants.{Tree, Trie};
ghost use Rattle.regnubas.specs.Balance.{map_mode};
ghost use Rattle.capi.specs.Begins.{BeginSays, RenewSays};
ghost use Rattle.capi.specs.Ends.{AreOfOne, EndSays, held_in};
ghost use Rattle.capi.specs.Rests.{AwaySays, BackSays, RestSays};
ghost use Rattle.capi.specs.Answers.{number, no_value, no_count, CallSays, GetSays, EditSays, TakenSays, FoundSays, BetweenSays, LeftSays, CloseSays, MakeLastingSays, MakeSays, limits_of};

use crate::answer::{
    Count, KeyValue, LIMITS, Left, NO_MEMORY, NO_PASS, NONE, PassLimits, SHARED, Value,
    ValueAnswer, numbers_of, status_of_edit, status_of_pairs, status_of_read, tell_pair, tell_pass,
};
use crate::begin::{begin, begin_next};
use crate::client::Closing;
use crate::end::{all_of, are_of_trie, end};
use crate::handle::HandleSlot;
use crate::lasting::open_lasting;
use crate::open::open;
use crate::presence::Presence;
use arena::Mode;
use regnubas::{Limits, NewFault};
use std::alloc::Global;

/// Makes a dictionary with as many passes as there are handles, one for each.
#[unsafe(no_mangle)]
pub extern "C" fn regnubas_make(alloc: Global, each: PassLimits, passes: &mut [HandleSlot]) -> u32
    ensures { MakeSays Tree each passes.old passes.new result }
{
    make(alloc, each, passes, false)
}

/// The same of a trie.
#[unsafe(no_mangle)]
pub extern "C" fn regnubas_make_trie(
    alloc: Global,
    each: PassLimits,
    passes: &mut [HandleSlot],
) -> u32
    ensures { MakeSays Trie each passes.old passes.new result }
{
    make(alloc, each, passes, true)
}

/// Makes a dictionary, a trie or a tree.
fn make(alloc: Global, each: PassLimits, passes: &mut [HandleSlot], trie: bool) -> u32
    ensures { MakeSays (map_mode trie) each passes.old passes.new result }
{
    if passes.len() > 32 {
        return LIMITS;
    }
    let limits = Limits {
        passes: passes.len() as u32,
        nodes: each.nodes,
        scx: each.scx,
        tries: each.tries,
    };
    match open(alloc, limits, trie) {
        Ok(mut places) => {
            passes.swap_with_slice(&mut places);
            NONE
        }
        Err(NewFault::Limits) => LIMITS,
        Err(NewFault::NoMemory) => NO_MEMORY,
    }
}

/// Makes a dictionary that lasts, with as many passes as there are handles, one for each.
#[unsafe(no_mangle)]
pub extern "C" fn regnubas_make_lasting(
    alloc: Global,
    each: PassLimits,
    passes: &mut [HandleSlot],
) -> u32
    ensures { MakeLastingSays Tree each passes.old passes.new result }
{
    make_lasting(alloc, each, passes, false)
}

/// The same of a trie.
#[unsafe(no_mangle)]
pub extern "C" fn regnubas_make_lasting_trie(
    alloc: Global,
    each: PassLimits,
    passes: &mut [HandleSlot],
) -> u32
    ensures { MakeLastingSays Trie each passes.old passes.new result }
{
    make_lasting(alloc, each, passes, true)
}

/// Makes a dictionary that lasts, a trie or a tree.
fn make_lasting(alloc: Global, each: PassLimits, passes: &mut [HandleSlot], trie: bool) -> u32
    ensures { MakeLastingSays (map_mode trie) each passes.old passes.new result }
{
    if passes.len() > 32 {
        return LIMITS;
    }
    let limits = Limits {
        passes: passes.len() as u32,
        nodes: each.nodes,
        scx: each.scx,
        tries: each.tries,
    };
    match open_lasting(alloc, limits, trie) {
        Ok(mut places) => {
            passes.swap_with_slice(&mut places);
            NONE
        }
        Err(NewFault::Limits) => LIMITS,
        Err(NewFault::NoMemory) => NO_MEMORY,
    }
}

/// Makes a dictionary that begins with these pairs, in rising order of keys, with as many passes as
/// there are handles, one for each.
#[unsafe(no_mangle)]
pub extern "C" fn regnubas_make_of_pairs(
    alloc: Global,
    each: PassLimits,
    pairs: &[KeyValue],
    passes: &mut [HandleSlot],
) -> u32
    ensures { BeginSays false each pairs.now passes.old passes.new result }
{
    make_of_pairs(alloc, each, pairs, passes, false)
}

/// The same of a trie.
#[unsafe(no_mangle)]
pub extern "C" fn regnubas_make_trie_of_pairs(
    alloc: Global,
    each: PassLimits,
    pairs: &[KeyValue],
    passes: &mut [HandleSlot],
) -> u32
    ensures { BeginSays true each pairs.now passes.old passes.new result }
{
    make_of_pairs(alloc, each, pairs, passes, true)
}

/// Makes a dictionary that begins with pairs, a trie or a tree.
fn make_of_pairs(
    alloc: Global,
    each: PassLimits,
    pairs: &[KeyValue],
    passes: &mut [HandleSlot],
    trie: bool,
) -> u32
    ensures { BeginSays trie each pairs.now passes.old passes.new result }
{
    let Some(limits) = accepted(each, passes.len()) else {
        return LIMITS;
    };
    let Ok(numbers) = numbers_of(alloc, pairs) else {
        return NO_MEMORY;
    };
    match begin(alloc, limits, trie, &numbers) {
        Ok(mut places) => {
            passes.swap_with_slice(&mut places);
            NONE
        }
        Err(fault) => status_of_pairs(fault),
    }
}

/// The limits of so many passes, if they are within their ranges.
fn accepted(each: PassLimits, passes: usize) -> Option<Limits>
    ensures some { IfSome result (λ limits. (limits ≡ limits_of each passes) × IsAccepted limits) }
    ensures none { IfNone result (¬ IsAccepted (limits_of each passes)) }
{
    if passes > 32 {
        return None;
    }
    let limits = Limits {
        passes: passes as u32,
        nodes: each.nodes,
        scx: each.scx,
        tries: each.tries,
    };
    match limits.check(Mode::Tree) {
        Ok(_layout) => Some(limits),
        Err(_) => None,
    }
}

/// The value of a key.
#[unsafe(no_mangle)]
pub extern "C" fn regnubas_get(alloc: Global, pass: &mut HandleSlot, key: u64) -> ValueAnswer
    ensures { CallSays (no_value 6) (GetSays key) pass.old.handle.value pass.new.handle.value result }
{
    let Some(mut client) = pass.handle.take(alloc) else {
        return ValueAnswer::no_value(NO_PASS);
    };
    let answer = match &mut *client {
        Presence::Here(own) => ValueAnswer::of_value(own.get(key)),
        Presence::Away(_) | Presence::Nobody => ValueAnswer::no_value(NO_PASS),
    };
    pass.handle.put(client);
    answer
}

/// Sets a key to a value, and returns the value that it had.
#[unsafe(no_mangle)]
pub extern "C" fn regnubas_insert(
    alloc: Global,
    pass: &mut HandleSlot,
    key: u64,
    value: Value,
) -> ValueAnswer
    ensures { CallSays (no_value 6) (EditSays (call_insert key (number value))) pass.old.handle.value pass.new.handle.value result }
{
    let Some(mut client) = pass.handle.take(alloc) else {
        return ValueAnswer::no_value(NO_PASS);
    };
    let answer = match &mut *client {
        Presence::Here(own) => ValueAnswer::of_update(own.insert(key, value.number())),
        Presence::Away(_) | Presence::Nobody => ValueAnswer::no_value(NO_PASS),
    };
    pass.handle.put(client);
    answer
}

/// Sets a key to a value if it has none, and returns the value that it has otherwise.
#[unsafe(no_mangle)]
pub extern "C" fn regnubas_insert_new(
    alloc: Global,
    pass: &mut HandleSlot,
    key: u64,
    value: Value,
) -> ValueAnswer
    ensures { CallSays (no_value 6) (EditSays (call_insert_new key (number value))) pass.old.handle.value pass.new.handle.value result }
{
    let Some(mut client) = pass.handle.take(alloc) else {
        return ValueAnswer::no_value(NO_PASS);
    };
    let answer = match &mut *client {
        Presence::Here(own) => ValueAnswer::of_update(own.insert_new(key, value.number())),
        Presence::Away(_) | Presence::Nobody => ValueAnswer::no_value(NO_PASS),
    };
    pass.handle.put(client);
    answer
}

/// Removes a key, and returns the value that it had.
#[unsafe(no_mangle)]
pub extern "C" fn regnubas_delete(alloc: Global, pass: &mut HandleSlot, key: u64) -> ValueAnswer
    ensures { CallSays (no_value 6) (EditSays (call_delete key)) pass.old.handle.value pass.new.handle.value result }
{
    let Some(mut client) = pass.handle.take(alloc) else {
        return ValueAnswer::no_value(NO_PASS);
    };
    let answer = match &mut *client {
        Presence::Here(own) => ValueAnswer::of_update(own.delete(key)),
        Presence::Away(_) | Presence::Nobody => ValueAnswer::no_value(NO_PASS),
    };
    pass.handle.put(client);
    answer
}

/// Removes a key if it has the expected value, and returns the value that it had.
#[unsafe(no_mangle)]
pub extern "C" fn regnubas_delete_if(
    alloc: Global,
    pass: &mut HandleSlot,
    key: u64,
    expected: Value,
) -> ValueAnswer
    ensures { CallSays (no_value 6) (EditSays (call_delete_if key (number expected))) pass.old.handle.value pass.new.handle.value result }
{
    let Some(mut client) = pass.handle.take(alloc) else {
        return ValueAnswer::no_value(NO_PASS);
    };
    let answer = match &mut *client {
        Presence::Here(own) => ValueAnswer::of_update(own.delete_if(key, expected.number())),
        Presence::Away(_) | Presence::Nobody => ValueAnswer::no_value(NO_PASS),
    };
    pass.handle.put(client);
    answer
}

/// Takes the pair with the least key away, and leaves it at `pair`.
#[unsafe(no_mangle)]
pub extern "C" fn regnubas_pop_first(
    alloc: Global,
    pass: &mut HandleSlot,
    pair: &mut KeyValue,
) -> u32
    ensures { CallSays 6 (TakenSays call_pop_first pair.new) pass.old.handle.value pass.new.handle.value result }
{
    let Some(mut client) = pass.handle.take(alloc) else {
        return NO_PASS;
    };
    let status = match &mut *client {
        Presence::Here(own) => match own.pop_first() {
            Ok(taken) => tell_pair(taken, pair),
            Err(fault) => status_of_edit(fault),
        },
        Presence::Away(_) | Presence::Nobody => NO_PASS,
    };
    pass.handle.put(client);
    status
}

/// Takes the pair with the greatest key away, and leaves it at `pair`.
#[unsafe(no_mangle)]
pub extern "C" fn regnubas_pop_last(
    alloc: Global,
    pass: &mut HandleSlot,
    pair: &mut KeyValue,
) -> u32
    ensures { CallSays 6 (TakenSays call_pop_last pair.new) pass.old.handle.value pass.new.handle.value result }
{
    let Some(mut client) = pass.handle.take(alloc) else {
        return NO_PASS;
    };
    let status = match &mut *client {
        Presence::Here(own) => match own.pop_last() {
            Ok(taken) => tell_pair(taken, pair),
            Err(fault) => status_of_edit(fault),
        },
        Presence::Away(_) | Presence::Nobody => NO_PASS,
    };
    pass.handle.put(client);
    status
}

/// Sets a key to a value if it has the expected one, and returns the value that it had.
#[unsafe(no_mangle)]
pub extern "C" fn regnubas_replace_if(
    alloc: Global,
    pass: &mut HandleSlot,
    key: u64,
    expected: Value,
    value: Value,
) -> ValueAnswer
    ensures { CallSays (no_value 6) (EditSays (call_replace_if key (number expected) (number value))) pass.old.handle.value pass.new.handle.value result }
{
    let Some(mut client) = pass.handle.take(alloc) else {
        return ValueAnswer::no_value(NO_PASS);
    };
    let answer = match &mut *client {
        Presence::Here(own) => {
            let told = own.replace_if(key, expected.number(), value.number());
            ValueAnswer::of_update(told)
        }
        Presence::Away(_) | Presence::Nobody => ValueAnswer::no_value(NO_PASS),
    };
    pass.handle.put(client);
    answer
}

/// The pair with the least key above this one, which is left at `pair`.
#[unsafe(no_mangle)]
pub extern "C" fn regnubas_successor(
    alloc: Global,
    pass: &mut HandleSlot,
    key: u64,
    pair: &mut KeyValue,
) -> u32
    ensures { CallSays 6 (FoundSays (call_successor key) pair.new) pass.old.handle.value pass.new.handle.value result }
{
    let Some(mut client) = pass.handle.take(alloc) else {
        return NO_PASS;
    };
    let status = match &mut *client {
        Presence::Here(own) => match own.successor(alloc, key) {
            Ok(found) => tell_pair(found, pair),
            Err(fault) => status_of_read(fault),
        },
        Presence::Away(_) | Presence::Nobody => NO_PASS,
    };
    pass.handle.put(client);
    status
}

/// The pair with the greatest key below this one, which is left at `pair`.
#[unsafe(no_mangle)]
pub extern "C" fn regnubas_predecessor(
    alloc: Global,
    pass: &mut HandleSlot,
    key: u64,
    pair: &mut KeyValue,
) -> u32
    ensures { CallSays 6 (FoundSays (call_predecessor key) pair.new) pass.old.handle.value pass.new.handle.value result }
{
    let Some(mut client) = pass.handle.take(alloc) else {
        return NO_PASS;
    };
    let status = match &mut *client {
        Presence::Here(own) => match own.predecessor(alloc, key) {
            Ok(found) => tell_pair(found, pair),
            Err(fault) => status_of_read(fault),
        },
        Presence::Away(_) | Presence::Nobody => NO_PASS,
    };
    pass.handle.put(client);
    status
}

/// The first pairs from `low` to `high`, as many as there is room for, 64 at the most.
#[unsafe(no_mangle)]
pub extern "C" fn regnubas_range(
    alloc: Global,
    pass: &mut HandleSlot,
    low: u64,
    high: u64,
    room: &mut [KeyValue],
) -> Count
    ensures { CallSays (no_count 6) (BetweenSays low high (min 64 (length room.old)) room.new) pass.old.handle.value pass.new.handle.value result }
{
    let Some(mut client) = pass.handle.take(alloc) else {
        return Count::none(NO_PASS);
    };
    let answer = match &mut *client {
        Presence::Here(own) => own.fill(alloc, low, high, room),
        Presence::Away(_) | Presence::Nobody => Count::none(NO_PASS),
    };
    pass.handle.put(client);
    answer
}

/// The pass rests, between two calls, and leaves the number of the first pass that it waits for at
/// `other`. A pass of a dictionary that does not last waits for nobody, and is as it was.
#[unsafe(no_mangle)]
pub extern "C" fn regnubas_rest(alloc: Global, pass: &mut HandleSlot, other: &mut u32) -> u32
    ensures { CallSays 6 (RestSays other.new) pass.old.handle.value pass.new.handle.value result }
{
    let Some(mut client) = pass.handle.take(alloc) else {
        return NO_PASS;
    };
    let status = match &mut *client {
        Presence::Here(own) => tell_pass(own.rest(), other),
        Presence::Away(_) | Presence::Nobody => NO_PASS,
    };
    pass.handle.put(client);
    status
}

/// The pass goes away, between two calls: until it is back there is no pass for calls, and no pass
/// waits for it. Of a dictionary that does not last no pass goes away.
#[unsafe(no_mangle)]
pub extern "C" fn regnubas_away(alloc: Global, pass: &mut HandleSlot) -> u32
    ensures { AwaySays pass.old.handle.value pass.new.handle.value result }
{
    let Some(mut client) = pass.handle.take(alloc) else {
        return NO_PASS;
    };
    let status = client.go_away();
    pass.handle.put(client);
    status
}

/// A pass that is away is back.
#[unsafe(no_mangle)]
pub extern "C" fn regnubas_back(alloc: Global, pass: &mut HandleSlot) -> u32
    ensures { BackSays pass.old.handle.value pass.new.handle.value result }
{
    let Some(mut client) = pass.handle.take(alloc) else {
        return NO_PASS;
    };
    let status = client.come_back();
    pass.handle.put(client);
    status
}

/// What is left of the pass's share; nothing where there is no pass.
#[unsafe(no_mangle)]
pub extern "C" fn regnubas_left(alloc: Global, pass: &mut HandleSlot) -> Left
    ensures same { pass.new.handle.value ≡ pass.old.handle.value }
    ensures left { LeftSays pass.old.handle.value result }
{
    let Some(client) = pass.handle.take(alloc) else {
        return Left { nodes: 0, scx: 0 };
    };
    let left = client.left();
    pass.handle.put(client);
    left
}

/// Gives the pass up; where its dictionary lasts it goes away by that. The last to leave frees the
/// dictionary.
#[unsafe(no_mangle)]
pub extern "C" fn regnubas_leave(alloc: Global, pass: &mut HandleSlot)
    ensures { pass.new.handle.value ≡ None }
{
    pass.handle.leave(alloc);
}

/// Ends the dictionary by its last pass, and leaves its first pairs in `room`. It answers how many
/// there are in all.
#[unsafe(no_mangle)]
pub extern "C" fn regnubas_close(
    alloc: Global,
    pass: &mut HandleSlot,
    room: &mut [KeyValue],
) -> Count
    ensures { CloseSays pass.old.handle.value pass.new.handle.value room.new result }
{
    let Some(client) = pass.handle.take(alloc) else {
        return Count::none(NO_PASS);
    };
    if let Some(status) = client.refusal() {
        pass.handle.put(client);
        return Count::none(status);
    }
    match Box::into_inner(client).close(alloc) {
        Closing::Pairs(pairs) => Count::of_pairs(pairs, room),
        Closing::NoMemory => Count::none(NO_MEMORY),
        Closing::Shared(own) => match Box::new(alloc, Presence::Here(own)) {
            Ok(client) => {
                pass.handle.put(client);
                Count::none(SHARED)
            }
            Err(_) => Count::none(NO_MEMORY),
        },
    }
}

/// Ends the dictionary by all its passes at once, and leaves its first pairs in `room`. It answers
/// how many there are in all.
#[unsafe(no_mangle)]
pub extern "C" fn regnubas_end(
    alloc: Global,
    passes: &mut [HandleSlot],
    room: &mut [KeyValue],
) -> Count
    requires { AreOfOne (held_in passes.old) }
    ensures { EndSays (held_in passes.old) (held_in passes.new) room.new result }
{
    let Some(all) = all_of(alloc, passes) else {
        return Count::none(NO_PASS);
    };
    if passes.len() < all as usize {
        return Count::none(SHARED);
    }
    match end(alloc, passes) {
        Some(pairs) => Count::of_pairs(pairs, room),
        None => Count::none(NO_MEMORY),
    }
}

/// Ends the dictionary by all its passes at once, leaves its first pairs in `room`, and begins the
/// next, of the same shape, with all of them, whose passes the handles hold then. It answers how
/// many pairs there are.
#[unsafe(no_mangle)]
pub extern "C" fn regnubas_renew(
    alloc: Global,
    each: PassLimits,
    passes: &mut [HandleSlot],
    room: &mut [KeyValue],
) -> Count
    requires { AreOfOne (held_in passes.old) }
    ensures { RenewSays each passes.old passes.new room.new result }
{
    let Some(limits) = accepted(each, passes.len()) else {
        return Count::none(LIMITS);
    };
    let Some(all) = all_of(alloc, passes) else {
        return Count::none(NO_PASS);
    };
    if passes.len() < all as usize {
        return Count::none(SHARED);
    }
    let trie = are_of_trie(alloc, passes);
    match end(alloc, passes) {
        Some(pairs) => begin_next(alloc, limits, trie, pairs, passes, room),
        None => Count::none(NO_MEMORY),
    }
}
