//! One repetition: the threads of one forest.
ghost use Rattle.std.specs.Prelude.{IfOk};
ghost use Rattle.std.specs.List.{All};
ghost use Rattle.tables.specs.Passes.{IsOf};

use crate::fault::Fault;
use crate::tally::Tally;
use crate::task::Task;
use crate::work::{Loaded, Work};
use crate::{cells, dictionary, lasting, load, locked};
use dict::{ByBits, ByOrder};
use forest::{Forest, Pass, TableShape};
use std::alloc::{AllocError, Global};
use std::rt::Clock;
use std::sync::Wait;
use std::thread::Threads;
use std::time::Instant;

/// What a repetition took in nanoseconds, and how its rounds ended.
#[derive(Clone, Copy)]
pub struct Repetition {
    /// The time from the threads' start to their end, or of the making.
    pub nanos: u128,
    /// How the rounds of all threads ended.
    pub tally: Tally,
}

impl Repetition {
    /// That of the threads that have started then, and have ended so by now.
    pub fn since<C: Clock>(
        clock: &C,
        start: Instant,
        tallies: &[Tally],
    ) -> Result<Repetition, Fault> {
        let nanos = nanos_since(clock, start)?;
        let tally = sum(tallies);
        Ok(Repetition { nanos, tally })
    }
}

/// Makes a forest or a map, and lets the threads work in it. The making is timed where it is the
/// work.
pub fn run<R: Threads + Wait + Sync + Clock + AllocGlobal>(
    rt: &R,
    task: Task,
) -> Result<Repetition, Fault> {
    match task.work {
        Work::Cells(work) => cells::run(rt, task, work),
        Work::Tree(work) | Work::Peers(work) => dictionary::run::<R, ByOrder>(rt, task, work),
        Work::Trie(work) => dictionary::run::<R, ByBits>(rt, task, work),
        Work::Lasting(work) => lasting::run(rt, task, work),
        Work::Locked(work) => locked::run(rt, task, work),
        Work::Load(Loaded::Tree) => load::run::<R, ByOrder>(rt, task),
        Work::Load(Loaded::Trie) => load::run::<R, ByBits>(rt, task),
        Work::Load(Loaded::Locked) => locked::load(rt, task),
    }
}

/// Each pass with the number of its thread.
pub fn numbered<S: TableShape>(
    alloc: Global,
    forest: &Forest<S>,
    passes: Vec<Pass<S>>,
) -> Result<Vec<(u32, Pass<S>)>, AllocError>
    requires { All (IsOf forest.now) passes.items }
    ensures { IfOk result (λ ps. All (λ p. IsOf forest.now p.1) ps.items) }
{
    let mut all = Vec::new(alloc);
    let mut number: u32 = 0;
    for pass in passes {
        all.push((number, pass))?;
        number = number.wrapping_add(1);
    }
    Ok(all)
}

fn sum(tallies: &[Tally]) -> Tally {
    let mut all = Tally::default();
    for tally in tallies {
        all.add(*tally);
    }
    all
}

pub fn now<C: Clock>(clock: &C) -> Result<Instant, Fault> {
    match Instant::now(clock) {
        Ok(now) => Ok(now),
        Err(_) => Err(Fault::Clock),
    }
}

/// How many nanoseconds have passed since then.
pub fn nanos_since<C: Clock>(clock: &C, start: Instant) -> Result<u128, Fault> {
    match start.elapsed(clock) {
        Ok(took) => Ok(took.as_nanos()),
        Err(_) => Err(Fault::Clock),
    }
}
