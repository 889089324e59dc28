//! One repetition on a dictionary.
ghost use Rattle.std.specs.Prelude.{◌≤◌, ◌<◌, IfOk};
ghost use Rattle.std.specs.List.{All};
ghost use Rattle.tables.specs.Passes.{IsOf};

use crate::call::{Numbers, rounds};
use crate::fault::Fault;
use crate::keys::Keys;
use crate::repetition::{Repetition, now, numbered};
use crate::tally::Tally;
use crate::task::Task;
use crate::work::MapWork;
use arena::Limits;
use forest::{FilledOnce, Forest, Keeping, NewFault, Pass};
use std::alloc::{AllocError, Global};
use std::rt::Clock;
use std::thread::{Threads, map_vec};

/// A forest and its passes.
pub type Opened<B> = (Forest<Numbers<B>>, Vec<Pass<Numbers<B>>>);

/// Makes a dictionary and fills it, and lets the threads work in it.
pub fn run<R: Threads + Sync + Clock + AllocGlobal, B: FilledOnce + Send>(
    rt: &R,
    task: Task,
    work: MapWork,
) -> Result<Repetition, Fault> {
    let (forest, passes) = open::<B>(rt.alloc(), task)?;
    let passes = fill_up(&forest, task, passes);
    let passes = numbered(rt.alloc(), &forest, passes)?;
    let start = now(rt)?;
    let tallies = crowd(rt, rt.alloc(), &forest, task, work, passes)?;
    Repetition::since(rt, start, &tallies)
}

/// A dictionary with a pass for each thread, and after these the passes that fill it. Shares are
/// whole ones.
fn open<B: FilledOnce>(alloc: Global, task: Task) -> Result<Opened<B>, Fault>
    ensures { IfOk result (λ r. All (IsOf r.0) r.1.items) }
{
    let limits = Limits {
        passes: task.threads.saturating_add(task.fillers()),
        nodes: task.share(),
        scx: task.share(),
        tries: Limits::MOST_TRIES,
    };
    match Forest::<Numbers<B>>::new(alloc, limits) {
        Ok(opened) => Ok(opened),
        Err(NewFault::NoMemory) => Err(Fault::NoMemory),
        Err(NewFault::Limits) => Err(Fault::Usage),
    }
}

/// Puts the pairs of the start into the map, by the last passes, and answers the others.
fn fill_up<B: FilledOnce>(
    forest: &Forest<Numbers<B>>,
    task: Task,
    mut passes: Vec<Pass<Numbers<B>>>,
) -> Vec<Pass<Numbers<B>>>
    requires passes { All (IsOf forest.now) passes.items }
    ensures { All (IsOf forest.now) result.items }
{
    let mut left = task.pairs();
    for filler in 0..task.fillers() {
        if let Some(pass) = passes.pop() {
            let pairs = task.pairs_of_filler(left);
            drop(fill(forest, pass, task.keys_of_filler(filler), task.keys, pairs));
            left -= pairs;
        }
    }
    passes
}

/// Puts this many fresh keys of the source into the map.
pub fn fill<B: Keeping>(
    forest: &Forest<Numbers<B>>,
    mut pass: Pass<Numbers<B>>,
    mut source: Keys,
    keys: u32,
    mut pairs: u32,
) -> Pass<Numbers<B>>
    requires keys { 1 ≤ keys }
    requires pass { IsOf forest.now pass }
    ensures { IsOf forest.now result }
{
    for _draw in 0..u32::MAX {
        if pairs == 0 {
            break;
        }
        let key = source.key(keys);
        match forest.insert_new(&mut pass, key, key) {
            Ok(None) => pairs -= 1,
            Ok(Some(_)) => {}
            Err(_) => break,
        }
    }
    pass
}

/// Each pass works in a thread of its own.
fn crowd<R: Threads + Sync, B: FilledOnce + Send>(
    rt: &R,
    alloc: Global,
    forest: &Forest<Numbers<B>>,
    task: Task,
    work: MapWork,
    passes: Vec<(u32, Pass<Numbers<B>>)>,
) -> Result<Vec<Tally>, AllocError>
    requires { All (λ p. IsOf forest.now p.1) passes.items }
{
    map_vec(
        rt,
        passes,
        &|(number, pass): (u32, Pass<Numbers<B>>)|
            requires { IsOf forest.now pass }
        { rounds(alloc, forest, task, work, pass, task.keys_of_thread(number)) },
    )
}
