//! One repetition on cells.
ghost use Rattle.std.specs.Prelude.{◌≤◌, IfOk};
ghost use Rattle.std.specs.List.{All};
ghost use Rattle.tables.specs.Passes.{IsOf};

use crate::fault::Fault;
use crate::pair::Pair;
use crate::repetition::{Repetition, now, numbered};
use crate::round::rounds;
use crate::tally::Tally;
use crate::task::Task;
use crate::work::CellWork;
use arena::Limits;
use forest::{Forest, NewFault, Pass};
use prims::Cells;
use std::alloc::{AllocError, Global};
use std::rt::Clock;
use std::thread::{Threads, map_vec};

/// Makes a forest, and lets the threads work in it. The making is not timed.
pub fn run<R: Threads + Sync + Clock + AllocGlobal>(
    rt: &R,
    task: Task,
    work: CellWork,
) -> Result<Repetition, Fault> {
    let (forest, passes) = open(rt.alloc(), task.threads)?;
    let passes = numbered(rt.alloc(), &forest, passes)?;
    let start = now(rt)?;
    let tallies = crowd(rt, &forest, task.calls, work, passes)?;
    Repetition::since(rt, start, &tallies)
}

/// A forest with a pass for each thread. Shares are whole ones whatever the calls, so that runs of
/// different length differ by their rounds alone.
fn open(alloc: Global, threads: u32) -> Result<(Forest<Cells>, Vec<Pass<Cells>>), Fault>
    requires some { 1 ≤ threads }
    requires passes { threads ≤ 32 }
    ensures { IfOk result (λ r. All (IsOf r.0) r.1.items) }
{
    let limits = Limits {
        passes: threads,
        nodes: Limits::MOST_RECORDS,
        scx: Limits::MOST_RECORDS,
        tries: 1,
    };
    match Forest::<Cells>::new(alloc, limits) {
        Ok(opened) => Ok(opened),
        Err(NewFault::NoMemory) => Err(Fault::NoMemory),
        Err(NewFault::Limits) => unreachable!(),
    }
}

/// Each pass works in a thread of its own.
fn crowd<R: Threads + Sync>(
    rt: &R,
    forest: &Forest<Cells>,
    calls: u32,
    work: CellWork,
    passes: Vec<(u32, Pass<Cells>)>,
) -> Result<Vec<Tally>, AllocError>
    requires { All (λ p. IsOf forest.now p.1) passes.items }
{
    map_vec(
        rt,
        passes,
        &|(number, pass): (u32, Pass<Cells>)| {
            rounds(forest, work, calls, pass, Pair::of(work, number))
        },
    )
}
