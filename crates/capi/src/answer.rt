//! What calls take from C and answer to it.
ghost use Rattle.std.specs.Prelude.{◌≡◌, ◌≤◌, length, map, vec_len, IfOk, take};
ghost use Rattle.capi.specs.Answers.{number, no_value, no_count, counted, update_status, order_status, IsValueAnswer, IsUpdateAnswer, IsPairAnswer, IsCountOfRange, StandIn, pair_of};
ghost use Rattle.capi.specs.Begins.{pairs_status};
ghost use Rattle.capi.specs.Rests.{IsPassAnswer};

use ordered_map::{halves, wide_value};
use regnubas::{NoMemory, OrderFault, PairsFault, PassNo, UpdateFault};
use std::alloc::Global;

/// Done: the key has no value, or had none.
pub const NONE: u32 = 0;

/// Done: there is a value, or was one.
pub const SOME: u32 = 1;

/// Not done: other passes were in the way at each try.
pub const CONTENDED: u32 = 2;

/// Not done: the pass's share has too little left.
pub const FULL: u32 = 3;

/// Not done: an allocation was refused.
pub const NO_MEMORY: u32 = 4;

/// Not made: the limits are out of range.
pub const LIMITS: u32 = 5;

/// Not done: the handle holds no pass.
pub const NO_PASS: u32 = 6;

/// Not closed: other passes are still held.
pub const SHARED: u32 = 7;

/// Not made: the keys of the pairs do not rise.
pub const ORDER: u32 = 8;

/// Not made: there are more pairs than there is room for.
pub const TOO_MANY: u32 = 9;

/// A value: a number of 128 bits as its two words.
#[repr(C)]
#[derive(Clone, Copy)]
pub struct Value {
    pub low: u64,
    pub high: u64,
}

/// A key and its value.
#[repr(C)]
#[derive(Clone, Copy)]
pub struct KeyValue {
    pub key: u64,
    pub value: Value,
}

/// A status, and the value that goes with it.
#[repr(C)]
#[derive(Clone, Copy)]
pub struct ValueAnswer {
    pub value: Value,
    pub status: u32,
}

/// A status, and the number of pairs that goes with it.
#[repr(C)]
#[derive(Clone, Copy)]
pub struct Count {
    pub pairs: u64,
    pub status: u32,
}

/// What each pass may take, and how often its calls try: `Limits` without the number of passes.
#[repr(C)]
#[derive(Clone, Copy)]
pub struct PassLimits {
    pub nodes: u32,
    pub scx: u32,
    pub tries: u32,
}

/// What is left of a pass's share.
#[repr(C)]
#[derive(Clone, Copy)]
pub struct Left {
    pub nodes: u32,
    pub scx: u32,
}

impl Value {
    /// The words of a number.
    pub(crate) fn of(value: u128) -> Value
        ensures { number result ≡ value }
    {
        let (low, high) = halves(value);
        Value { low, high }
    }

    /// The number of its words.
    pub(crate) fn number(self) -> u128
        ensures { result ≡ number self }
    {
        wide_value(self.low, self.high)
    }
}

/// Why an edit was refused.
pub(crate) fn status_of_edit(fault: UpdateFault) -> u32
    ensures { result ≡ update_status fault }
{
    match fault {
        UpdateFault::Contended { .. } => CONTENDED,
        UpdateFault::Full(_) => FULL,
    }
}

/// Why an ordered read was refused.
pub(crate) fn status_of_read(fault: OrderFault) -> u32
    ensures { result ≡ order_status fault }
{
    match fault {
        OrderFault::Contended { .. } => CONTENDED,
        OrderFault::NoMemory => NO_MEMORY,
    }
}

/// Why no dictionary begins with some pairs.
pub(crate) fn status_of_pairs(fault: PairsFault) -> u32
    ensures { result ≡ pairs_status fault }
{
    match fault {
        PairsFault::Limits => LIMITS,
        PairsFault::Order { .. } => ORDER,
        PairsFault::TooMany { .. } => TOO_MANY,
        PairsFault::NoMemory => NO_MEMORY,
    }
}

/// Pairs that C has given, as numbers.
pub(crate) fn numbers_of(alloc: Global, pairs: &[KeyValue]) -> Result<Vec<(u64, u128)>, NoMemory>
    ensures { IfOk result (λ numbers. numbers.items ≡ map pair_of pairs.now) }
{
    let mut numbers = Vec::with_capacity(alloc, pairs.len())?;
    for pair in pairs {
        numbers.push((pair.key, pair.value.number()))?;
    }
    Ok(numbers)
}

/// What a call answers that has found a pair, and leaves at `room`.
pub(crate) fn tell_pair(found: Option<(u64, u128)>, room: &mut KeyValue) -> u32
    ensures { IsPairAnswer found room.new result }
{
    match found {
        Some((key, value)) => {
            *room = KeyValue {
                key,
                value: Value::of(value),
            };
            SOME
        }
        None => NONE,
    }
}

/// What a rest answers, and leaves at `room`.
pub(crate) fn tell_pass(other: Option<PassNo>, room: &mut u32) -> u32
    ensures { IsPassAnswer other room.new result }
{
    match other {
        Some(other) => {
            *room = other.0;
            SOME
        }
        None => NONE,
    }
}

impl ValueAnswer {
    /// An answer with no value.
    pub(crate) fn no_value(status: u32) -> ValueAnswer
        ensures { result ≡ no_value status }
    {
        ValueAnswer {
            value: Value { low: 0, high: 0 },
            status,
        }
    }

    /// What `get` answers.
    pub(crate) fn of_value(value: Option<u128>) -> ValueAnswer
        ensures { IsValueAnswer value result }
    {
        match value {
            Some(value) => ValueAnswer {
                value: Value::of(value),
                status: SOME,
            },
            None => ValueAnswer::no_value(NONE),
        }
    }

    /// What an edit of a key answers.
    pub(crate) fn of_update(told: Result<Option<u128>, UpdateFault>) -> ValueAnswer
        ensures { IsUpdateAnswer told result }
    {
        match told {
            Ok(old) => ValueAnswer::of_value(old),
            Err(fault) => ValueAnswer::no_value(status_of_edit(fault)),
        }
    }
}

impl Count {
    /// An answer with no number of pairs.
    pub(crate) fn none(status: u32) -> Count
        ensures { result ≡ no_count status }
    {
        Count { pairs: 0, status }
    }

    /// What `range` answers, and leaves in `room`.
    pub(crate) fn of_range(
        told: Result<Vec<(u64, u128)>, OrderFault>,
        room: &mut [KeyValue],
    ) -> Count
        requires { IfOk told (λ pairs. vec_len pairs ≤ length room.old) }
        ensures len { length room.new ≡ length room.old }
        ensures says { IsCountOfRange told room.new result }
    {
        match told {
            Ok(pairs) => {
                put(&pairs, room);
                Count {
                    pairs: pairs.len() as u64,
                    status: SOME,
                }
            }
            Err(fault) => Count::none(status_of_read(fault)),
        }
    }

    /// What `close`, `end` and `renew` answer, and leave in `room`.
    pub(crate) fn of_pairs(mut pairs: Vec<(u64, u128)>, room: &mut [KeyValue]) -> Count
        ensures count { result ≡ counted (vec_len pairs) }
        ensures put { StandIn (take (length room.new) pairs.items) room.new }
    {
        let all = pairs.len() as u64;
        pairs.truncate(room.len());
        put(&pairs, room);
        Count {
            pairs: all,
            status: SOME,
        }
    }
}

/// Writes pairs to the first places.
fn put(pairs: &Vec<(u64, u128)>, room: &mut [KeyValue])
    requires { vec_len pairs.now ≤ length room.old }
    ensures len { length room.new ≡ length room.old }
    ensures put { StandIn pairs.now.items room.new }
{
    let mut i = 0;
    while i < pairs.len() {
        let (key, value) = pairs[i];
        let value = Value::of(value);
        room[i] = KeyValue { key, value };
        i += 1;
    }
}
