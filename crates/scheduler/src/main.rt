//! A scheduler: three threads take the job that is due first out of a queue, and no two the same.
//! It goes on without end: what its passes have used up comes back as they rest.
#![tactic(auto)]

mod due;

ghost use Rattle.std.specs.Prelude.{IfOk};
ghost use Rattle.std.specs.List.{All};
ghost use Rattle.regnubas.specs.Passes.{IsOf};

use anyhow::Result;
use due::Due;
use regnubas::{ByBits, Dict, Forest, Lasts, Limits, Pass, UpdateFault};
use std::alloc::{AllocError, Global};
use std::sync::atomic::{AtomicU64, Ordering};
use std::thread::{Threads, map_vec, yield_now};

/// From when a job is due to how often it is still to run. It is a trie, whose pops leave no mark:
/// its passes look up what they have popped as they rest, or their 64 nodes would be used up.
type Queue = Dict<Due, u32, Lasts<ByBits>>;

/// A pass for each thread, with what it may have in use at a time.
const LIMITS: Limits = Limits {
    passes: 3,
    nodes: 64,
    scx: 64,
    tries: 1,
};

/// When each job is due first, and how often it is to run.
const JOBS: [(u32, u32); 5] = [(30, 1), (10, 6000), (20, 4000), (10, 12_000), (15, 2000)];

/// How long after a run a job is due again.
const PERIOD: u32 = 10;

/// After how many jobs a pass rests.
const OFTEN: u32 = 8;

/// The pass rests, and lets another thread go on if it waits for one.
fn rest(queue: &Forest<Queue>, pass: &mut Pass<Queue>)
    requires { IsOf queue.now pass.old }
    ensures { IsOf queue.now pass.new }
{
    if queue.rest(pass).is_some() {
        yield_now();
    }
}

/// Puts a job in. If the share is used up the pass rests first. Answers whether the job is in.
fn put(queue: &Forest<Queue>, pass: &mut Pass<Queue>, due: Due, times: u32) -> bool
    requires { IsOf queue.now pass.old }
    ensures { IsOf queue.now pass.new }
{
    for _ask in 0..10_000_000 {
        match queue.insert(pass, due, times) {
            Ok(_old) => return true,
            Err(UpdateFault::Contended { .. }) => {}
            Err(UpdateFault::Full(_)) => rest(queue, pass),
        }
    }
    false
}

/// Puts all jobs in.
fn fill(queue: &Forest<Queue>, mut pass: Pass<Queue>) -> Pass<Queue>
    requires { IsOf queue.now pass }
    ensures { IsOf queue.now result }
{
    let mut job = 0;
    for (at, times) in JOBS {
        put(queue, &mut pass, Due { at, job }, times);
        job = job.wrapping_add(1);
    }
    pass
}

/// The last pass puts all jobs in, before the threads start.
fn filled(queue: &Forest<Queue>, mut passes: Vec<Pass<Queue>>) -> Result<Vec<Pass<Queue>>>
    requires { All (IsOf queue.now) passes.items }
    ensures { IfOk result (λ ps. All (IsOf queue.now) ps.items) }
{
    let Some(own) = passes.pop() else {
        return Ok(passes);
    };
    passes.push(fill(queue, own))?;
    Ok(passes)
}

/// Runs a job, which here is counted alone, and puts it in again if it is to run once more.
fn run(queue: &Forest<Queue>, pass: &mut Pass<Queue>, runs: &[AtomicU64], due: Due, times: u32)
    requires { IsOf queue.now pass.old }
    ensures { IsOf queue.now pass.new }
{
    if let Some(count) = runs.get(due.job as usize) {
        count.fetch_add(1, Ordering::SeqCst);
    }
    if times > 1 {
        let at = due.at.wrapping_add(PERIOD);
        put(queue, pass, Due { at, job: due.job }, times - 1);
    }
}

/// What a thread does with its pass: it takes jobs out and runs them until there is none, and leaves
/// for ever. A job that another thread is running may be put in again after that, and then that
/// thread takes it.
fn work(queue: &Forest<Queue>, mut pass: Pass<Queue>, runs: &[AtomicU64])
    requires { IsOf queue.now pass }
{
    for turn in 0..100_000_000 {
        match queue.pop_first(&mut pass) {
            Ok(Some((due, times))) => run(queue, &mut pass, runs, due, times),
            Ok(None) => break,
            Err(UpdateFault::Contended { .. }) => {}
            Err(UpdateFault::Full(_)) => rest(queue, &mut pass),
        }
        if turn % OFTEN == 0 {
            rest(queue, &mut pass);
        }
    }
    drop(queue.away(pass));
}

/// All threads work.
fn work_all<R: Threads + Sync>(
    rt: &R,
    queue: &Forest<Queue>,
    passes: Vec<Pass<Queue>>,
    runs: &[AtomicU64],
) -> Result<(), AllocError>
    requires { All (IsOf queue.now) passes.items }
{
    map_vec(rt, passes, &|pass| work(queue, pass, runs))?;
    Ok(())
}

/// How often each job has run.
fn counts<R: Threads + Sync>(rt: &R, alloc: Global) -> Result<Vec<AtomicU64>> {
    let mut runs = Vec::new(alloc);
    for _job in JOBS {
        runs.push(AtomicU64::new(0))?;
    }
    let (queue, passes) = Forest::<Queue>::lasting(alloc, LIMITS)?;
    let passes = filled(&queue, passes)?;
    work_all(rt, &queue, passes, &runs)?;
    Ok(runs)
}

fn main(rt: HostRuntime) -> Result<()> {
    let runs = counts(&rt, rt.alloc())?;
    for (job, count) in runs.iter().enumerate() {
        let count = count.load(Ordering::SeqCst);
        println!(rt; "job {job}: {count}")?;
    }
    Ok(())
}
