//! One repetition on a dictionary that lasts: its passes rest between two rounds.
ghost use Rattle.std.specs.Prelude.{◌≡◌, IfOk};
ghost use Rattle.std.specs.List.{All};
ghost use Rattle.tables.specs.Passes.{IsOf};
ghost use Rattle.bench.specs.Tally.{total};

use crate::call::{Numbers, round};
use crate::dictionary::{Opened, fill};
use crate::fault::Fault;
use crate::keys::{Draw, Keys};
use crate::repetition::{Repetition, now, numbered};
use crate::tally::{End, Tally};
use crate::task::Task;
use crate::work::MapWork;
use arena::Limits;
use dict::ByOrder;
use forest::{Forest, Lasts, NewFault, Pass};
use std::alloc::{AllocError, Global};
use std::rt::Clock;
use std::thread::{Threads, map_vec};

/// A tree whose records come back.
type Kept = Numbers<Lasts<ByOrder>>;

/// After how many rounds a pass rests.
const OFTEN: u32 = 32;

/// Makes a dictionary and fills it, and lets the threads work in it.
pub fn run<R: Threads + Sync + Clock + AllocGlobal>(
    rt: &R,
    task: Task,
    work: MapWork,
) -> Result<Repetition, Fault> {
    let (forest, passes) = open(rt.alloc(), task)?;
    let passes = fill_up(&forest, task, passes);
    let passes = numbered(rt.alloc(), &forest, passes)?;
    let start = now(rt)?;
    let tallies = crowd(rt, rt.alloc(), &forest, task, work, passes)?;
    Repetition::since(rt, start, &tallies)
}

/// A dictionary with a pass for each thread, and after these the passes that fill it.
fn open(alloc: Global, task: Task) -> Result<Opened<Lasts<ByOrder>>, Fault>
    ensures { IfOk result (λ r. All (IsOf r.0) r.1.items) }
{
    let limits = Limits {
        passes: task.threads.saturating_add(task.fillers()),
        nodes: task.share(),
        scx: task.share(),
        tries: 1,
    };
    match Forest::<Kept>::lasting(alloc, limits) {
        Ok(opened) => Ok(opened),
        Err(NewFault::NoMemory) => Err(Fault::NoMemory),
        Err(NewFault::Limits) => Err(Fault::Usage),
    }
}

/// Puts the pairs of the start into the map, by the last passes, which leave, and answers the
/// others.
fn fill_up(forest: &Forest<Kept>, task: Task, mut passes: Vec<Pass<Kept>>) -> Vec<Pass<Kept>>
    requires { All (IsOf forest.now) passes.items }
    ensures { All (IsOf forest.now) result.items }
{
    let mut left = task.pairs();
    for filler in 0..task.fillers() {
        if let Some(pass) = passes.pop() {
            let pairs = task.pairs_of_filler(left);
            let pass = fill(forest, pass, task.keys_of_filler(filler), task.keys, pairs);
            drop(forest.away(pass));
            left -= pairs;
        }
    }
    passes
}

/// Each pass works in a thread of its own.
fn crowd<R: Threads + Sync>(
    rt: &R,
    alloc: Global,
    forest: &Forest<Kept>,
    task: Task,
    work: MapWork,
    passes: Vec<(u32, Pass<Kept>)>,
) -> Result<Vec<Tally>, AllocError>
    requires { All (λ p. IsOf forest.now p.1) passes.items }
{
    map_vec(
        rt,
        passes,
        &|(number, pass): (u32, Pass<Kept>)|
            requires { IsOf forest.now pass }
        { rounds(alloc, forest, task, work, pass, task.keys_of_thread(number)) },
    )
}

/// All rounds of a thread, in a function of its own.
#[inline(never)]
fn rounds(
    alloc: Global,
    forest: &Forest<Kept>,
    task: Task,
    work: MapWork,
    mut pass: Pass<Kept>,
    mut keys: Keys,
) -> Tally
    requires { IsOf forest.now pass }
    ensures { total result ≡ task.calls }
{
    let mut tally = Tally::default();
    for call in 0..task.calls {
        let draw = keys.draw(task, work, call);
        let end = make_round(alloc, forest, work, &mut pass, draw, &mut tally);
        tally.count(end);
        if call % OFTEN == 0 {
            let _waits_for = forest.rest(&mut pass);
        }
    }
    drop(forest.away(pass));
    tally
}

/// A round. If the share is used up the pass rests, and makes it once more. There is one place that
/// makes it, so that it is put together as one on a dictionary that is filled once.
#[inline(always)]
fn make_round(
    alloc: Global,
    forest: &Forest<Kept>,
    work: MapWork,
    pass: &mut Pass<Kept>,
    draw: Draw,
    tally: &mut Tally,
) -> End
    requires { IsOf forest.now pass.old }
    ensures pass { IsOf forest.now pass.new }
    ensures total { total tally.new ≡ total tally.old }
{
    for _again in 0..2_u32 {
        match round(alloc, forest, work, pass, draw, tally) {
            End::Fail => {
                let _waits_for = forest.rest(pass);
            }
            end => return end,
        }
    }
    End::Fail
}
