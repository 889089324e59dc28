//! One repetition of a load: a dictionary is made that begins with pairs.
ghost use Rattle.std.specs.Prelude.{IfOk};
ghost use Rattle.std.specs.List.{All};
ghost use Rattle.tables.specs.Passes.{IsOf};

use crate::call::{Numbers, rounds};
use crate::dictionary::Opened;
use crate::fault::Fault;
use crate::keys::Keys;
use crate::repetition::{Repetition, nanos_since, now};
use crate::tally::Tally;
use crate::task::Task;
use crate::work::MapWork;
use arena::Limits;
use forest::{FilledOnce, Forest, PairsFault, Pass};
use std::alloc::{AllocError, Global};
use std::rt::Clock;

/// There is one pass, which has no share: so what is made is the pairs alone.
const LIMITS: Limits = Limits {
    passes: 1,
    nodes: 0,
    scx: 0,
    tries: 1,
};

/// How many keys are looked up once they are loaded: so few that they count for nothing beside it.
const LOOKS: u32 = 100;

/// Makes a dictionary of as many pairs as the task has rounds, which is timed, and looks some up.
pub fn run<R: Clock + AllocGlobal, B: FilledOnce>(rt: &R, task: Task) -> Result<Repetition, Fault> {
    let alloc = rt.alloc();
    let pairs = rising(alloc, task.calls)?;
    let start = now(rt)?;
    let (forest, pass) = begun::<B>(alloc, &pairs)?;
    let nanos = nanos_since(rt, start)?;
    let (looks, keys) = looks_of(task);
    let looked = rounds(alloc, &forest, looks, MapWork::Get, pass, keys);
    Ok(loaded(task, nanos, looked))
}

/// How often a key is looked up, and which: they are as far apart as they can be.
pub fn looks_of(task: Task) -> (Task, Keys) {
    let calls = task.calls.min(LOOKS);
    let apart = task.calls / calls;
    let Task {
        work,
        threads,
        calls: _,
        times,
        keys,
    } = task;
    let looks = Task {
        work,
        threads,
        calls,
        times,
        keys,
    };
    (looks, Keys::Rising { next: 0, apart })
}

/// A load that took so long, and where these were looked up.
pub fn loaded(task: Task, nanos: u128, looked: Tally) -> Repetition {
    Repetition {
        nanos,
        tally: Tally {
            done: u64::from(task.calls),
            ..looked
        },
    }
}

/// So many keys in order, each with itself.
fn rising(alloc: Global, pairs: u32) -> Result<Vec<(u64, u64)>, AllocError> {
    let mut all = Vec::with_capacity(alloc, pairs as usize)?;
    for key in 0..u64::from(pairs) {
        all.push((key, key))?;
    }
    Ok(all)
}

/// A dictionary that begins with these pairs, and its passes.
fn of_pairs<B: FilledOnce>(alloc: Global, pairs: &[(u64, u64)]) -> Result<Opened<B>, Fault>
    ensures { IfOk result (λ r. All (IsOf r.0) r.1.items) }
{
    match Forest::<Numbers<B>>::of_pairs(alloc, LIMITS, pairs) {
        Ok(opened) => Ok(opened),
        Err(PairsFault::NoMemory) => Err(Fault::NoMemory),
        Err(_) => Err(Fault::Usage),
    }
}

/// Such a dictionary, and its one pass.
fn begun<B: FilledOnce>(
    alloc: Global,
    pairs: &[(u64, u64)],
) -> Result<(Forest<Numbers<B>>, Pass<Numbers<B>>), Fault>
    ensures { IfOk result (λ r. IsOf r.0 r.1) }
{
    let (forest, mut passes) = of_pairs::<B>(alloc, pairs)?;
    match passes.pop() {
        Some(pass) => Ok((forest, pass)),
        None => Err(Fault::Usage),
    }
}
