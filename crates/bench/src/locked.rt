//! One repetition on a map behind a lock, as a measure for the dictionary.
ghost use Rattle.std.specs.Prelude.{◌≡◌, ◌≤◌};
ghost use Rattle.bench.specs.Tally.{total};

use crate::call::{told, told_pair, told_pairs};
use crate::fault::Fault;
use crate::keys::{Draw, Keys};
use crate::load::{loaded, looks_of};
use crate::repetition::{Repetition, nanos_since, now};
use crate::tally::{End, Tally};
use crate::task::Task;
use crate::work::MapWork;
use forest::OrderFault;
use std::alloc::{AllocError, Global};
use std::collections::BTreeMap;
use std::ops::Bound;
use std::rt::Clock;
use std::sync::{Mutex, Wait};
use std::thread::{Threads, map_vec};

/// A map that one thread at a time has.
type Locked = Mutex<BTreeMap<u64, u64>>;

/// The keys of a load.
const FROM_ZERO: Keys = Keys::Rising { next: 0, apart: 1 };

/// Makes a map and fills it, and lets the threads work in it, by the same draws as in a dictionary.
pub fn run<R: Threads + Wait + Sync + Clock + AllocGlobal>(
    rt: &R,
    task: Task,
    work: MapWork,
) -> Result<Repetition, Fault> {
    let map = Mutex::new(filled(rt.alloc(), task)?);
    let numbers = numbers(rt.alloc(), task.threads)?;
    let start = now(rt)?;
    let tallies = crowd(rt, rt.alloc(), &map, task, work, numbers)?;
    Repetition::since(rt, start, &tallies)
}

/// Makes a map of as many pairs as the task has rounds, which is timed, and looks some up.
pub fn load<R: Wait + Clock + AllocGlobal>(rt: &R, task: Task) -> Result<Repetition, Fault> {
    let alloc = rt.alloc();
    let start = now(rt)?;
    let mut map = BTreeMap::new(alloc);
    fill(&mut map, FROM_ZERO, task.keys, task.calls)?;
    let nanos = nanos_since(rt, start)?;
    let map = Mutex::new(map);
    let (looks, keys) = looks_of(task);
    let looked = rounds(rt, alloc, &map, looks, MapWork::Get, keys);
    Ok(loaded(task, nanos, looked))
}

/// A map with the pairs that a dictionary has at the start.
fn filled(alloc: Global, task: Task) -> Result<BTreeMap<u64, u64>, Fault> {
    let mut map = BTreeMap::new(alloc);
    let mut left = task.pairs();
    for filler in 0..task.fillers() {
        let pairs = task.pairs_of_filler(left);
        fill(&mut map, task.keys_of_filler(filler), task.keys, pairs)?;
        left -= pairs;
    }
    Ok(map)
}

/// Puts this many fresh keys of the source into the map.
fn fill(
    map: &mut BTreeMap<u64, u64>,
    mut source: Keys,
    keys: u32,
    mut pairs: u32,
) -> Result<(), AllocError>
    requires { 1 ≤ keys }
{
    for _draw in 0..u32::MAX {
        if pairs == 0 {
            return Ok(());
        }
        let key = source.key(keys);
        if map.insert(key, key)?.is_none() {
            pairs -= 1;
        }
    }
    Ok(())
}

/// The numbers of the threads.
fn numbers(alloc: Global, threads: u32) -> Result<Vec<u32>, AllocError> {
    let mut numbers = Vec::new(alloc);
    for number in 0..threads {
        numbers.push(number)?;
    }
    Ok(numbers)
}

/// Each number is that of a thread of its own.
fn crowd<R: Threads + Wait + Sync>(
    rt: &R,
    alloc: Global,
    map: &Locked,
    task: Task,
    work: MapWork,
    numbers: Vec<u32>,
) -> Result<Vec<Tally>, AllocError> {
    map_vec(
        rt,
        numbers,
        &|number: u32| {
            let keys = task.keys_of_thread(number);
            rounds(rt, alloc, map, task, work, keys)
        },
    )
}

/// All rounds of a thread.
fn rounds<R: Wait>(
    rt: &R,
    alloc: Global,
    map: &Locked,
    task: Task,
    work: MapWork,
    mut keys: Keys,
) -> Tally
    ensures { total result ≡ task.calls }
{
    let mut tally = Tally::default();
    for call in 0..task.calls {
        let draw = keys.draw(task, work, call);
        let end = round(rt, alloc, map, work, draw, &mut tally);
        tally.count(end);
    }
    tally
}

/// A round, in which this pair may be put in.
fn round<R: Wait>(
    rt: &R,
    alloc: Global,
    map: &Locked,
    work: MapWork,
    draw: Draw,
    tally: &mut Tally,
) -> End
    ensures { total tally.new ≡ total tally.old }
{
    let key = draw.pair.0;
    match work {
        MapWork::Successor | MapWork::Predecessor => {
            let found = beside(&map.lock(rt), work, key);
            told_pair(Ok(found), tally)
        }
        MapWork::Range { most } => {
            let found = pairs_from(alloc, &map.lock(rt), key, most);
            told_pairs(found.map_err(|_| OrderFault::NoMemory), tally)
        }
        _ => {
            let reply = call(&mut map.lock(rt), work, draw);
            match reply {
                Ok(value) => told(Ok(value), tally),
                Err(_) => End::Fail,
            }
        }
    }
}

/// A call of one key, or of the first or the last pair.
fn call(
    map: &mut BTreeMap<u64, u64>,
    work: MapWork,
    draw: Draw,
) -> Result<Option<u64>, AllocError> {
    let (key, value) = draw.pair;
    match work {
        MapWork::Mix { looks } => mix(map, draw, looks),
        MapWork::Insert | MapWork::RiseInsert => Ok(map.insert(key, value)?),
        MapWork::InsertNew => insert_new(map, key, value),
        MapWork::Delete => Ok(map.remove(&key)),
        MapWork::DeleteIf => Ok(delete_if(map, key)),
        MapWork::Pop => Ok(map.pop_first().map(|(key, value)| key.wrapping_add(value))),
        MapWork::Schedule => reschedule(map, draw.pair),
        MapWork::PopLast => Ok(map.pop_last().map(|(key, value)| key.wrapping_add(value))),
        MapWork::Replace => Ok(replace(map, key)),
        _ => Ok(map.get(&key).copied()),
    }
}

/// Takes the first pair out, and puts this one in.
fn reschedule(map: &mut BTreeMap<u64, u64>, pair: (u64, u64)) -> Result<Option<u64>, AllocError> {
    let first = map.pop_first().map(|(key, value)| key.wrapping_add(value));
    let _ = map.insert(pair.0, pair.1)?;
    Ok(first)
}

/// Looks a key up in `looks` of a hundred rounds; else puts it in or takes it out.
fn mix(map: &mut BTreeMap<u64, u64>, draw: Draw, looks: u64) -> Result<Option<u64>, AllocError> {
    let Draw { chance, pair } = draw;
    let half = 100_u64.saturating_sub(looks) / 2;
    if chance < looks {
        Ok(map.get(&pair.0).copied())
    } else if chance - looks < half {
        Ok(map.insert(pair.0, pair.1)?)
    } else {
        Ok(map.remove(&pair.0))
    }
}

/// Puts a key in, if it is not there, and returns the value that it has otherwise.
fn insert_new(
    map: &mut BTreeMap<u64, u64>,
    key: u64,
    value: u64,
) -> Result<Option<u64>, AllocError> {
    match map.get(&key).copied() {
        Some(found) => Ok(Some(found)),
        None => Ok(map.insert(key, value)?),
    }
}

/// Takes a key out, if it has the value of the start, and returns the value that it had.
fn delete_if(map: &mut BTreeMap<u64, u64>, key: u64) -> Option<u64> {
    let old = map.get(&key).copied()?;
    if old == key {
        let _ = map.remove(&key);
    }
    Some(old)
}

/// Gives a key the value that it has had from the start once more, if it is there.
fn replace(map: &mut BTreeMap<u64, u64>, key: u64) -> Option<u64> {
    let value = map.get_mut(&key)?;
    let old = *value;
    if old == key {
        *value = key;
    }
    Some(old)
}

/// The pair before a key or after it, as a search asks for it.
fn beside(map: &BTreeMap<u64, u64>, search: MapWork, key: u64) -> Option<(u64, u64)> {
    match search {
        MapWork::Predecessor => before(map, key),
        _ => behind(map, key),
    }
}

/// The pair after a key.
fn behind(map: &BTreeMap<u64, u64>, key: u64) -> Option<(u64, u64)> {
    let bounds = (Bound::Excluded(key), Bound::Unbounded);
    map.range(bounds).next().map(|(key, value)| (*key, *value))
}

/// The pair before a key.
fn before(map: &BTreeMap<u64, u64>, key: u64) -> Option<(u64, u64)> {
    map.range(..key)
        .next_back()
        .map(|(key, value)| (*key, *value))
}

/// The first `most` pairs from a key on.
fn pairs_from(
    alloc: Global,
    map: &BTreeMap<u64, u64>,
    key: u64,
    most: usize,
) -> Result<Vec<(u64, u64)>, AllocError> {
    let mut pairs = Vec::new(alloc);
    for (key, value) in map.range(key..).take(most) {
        pairs.push((*key, *value))?;
    }
    Ok(pairs)
}
