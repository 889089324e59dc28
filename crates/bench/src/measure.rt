//! A measurement.
ghost use Rattle.std.specs.Prelude.{◌≡◌, ◌≤◌, ◌<◌, ◌/◌, length, slice_get, Some};
ghost use Rattle.std.specs.List.Sorted.{IsNonDecreasingBy, IsPermutation};
ghost use Rattle.bench.specs.declared.repetition.Repetition.{Repetition};

use crate::fault::Fault;
use crate::repetition::{Repetition, run};
use crate::tally::Tally;
use crate::task::Task;
use std::fmt;
use std::rt::Clock;
use std::sync::Wait;
use std::thread::Threads;

/// The names of a row's fields.
pub const HEADER: &str =
    "structure,work,keys,threads,calls,times,median_ns,best_ns,done,lost,fail,checksum";

/// What the repetitions of a task took, and how the rounds of the fastest ended.
#[derive(Clone, Copy)]
pub struct Measurement {
    /// What was measured.
    pub task: Task,
    /// The median of the repetitions.
    pub median: PerCall,
    /// The fastest repetition.
    pub best: PerCall,
    /// How the rounds of the fastest ended.
    pub tally: Tally,
}

/// The time of a round in tenths of a nanosecond.
#[derive(Clone, Copy)]
pub struct PerCall(pub u128);

impl PerCall {
    /// That of a repetition which took this long. There is none if the task asks for none.
    fn of(nanos: u128, task: Task) -> PerCall {
        if task.times == 0 {
            PerCall(0)
        } else {
            PerCall(nanos.saturating_mul(10) / u128::from(task.calls))
        }
    }
}

impl fmt::Display for PerCall {
    fn fmt<W: fmt::Write>(&self, f: &mut fmt::Formatter<W>) -> fmt::Result {
        let whole = self.0 / 10;
        let tenths = self.0 % 10;
        write!(f, "{whole}.{tenths}")
    }
}

/// The row of the measurement.
impl fmt::Display for Measurement {
    fn fmt<W: fmt::Write>(&self, f: &mut fmt::Formatter<W>) -> fmt::Result {
        let (task, median, best, tally) = (self.task, self.median, self.best, self.tally);
        let structure = task.work.structure();
        write!(f, "{structure},{task},{median},{best},{tally}")
    }
}

/// Measures a task.
pub fn measure<R: Threads + Wait + Sync + Clock + AllocGlobal>(
    rt: &R,
    task: Task,
) -> Result<Measurement, Fault> {
    let mut runs = Vec::new(rt.alloc());
    for _time in 0..task.times.max(1) {
        runs.push(run(rt, task)?)?;
    }
    Ok(summary(task, &mut runs))
}

/// The measurement that some runs of a task give. It puts them in order.
fn summary(task: Task, runs: &mut [Repetition]) -> Measurement
    requires { 0 < length runs.old }
{
    let (best, median) = best_and_median(runs);
    Measurement {
        task,
        median: PerCall::of(median.nanos, task),
        best: PerCall::of(best.nanos, task),
        tally: best.tally,
    }
}

/// Puts runs in order, and answers the fastest and the one in the middle.
pub fn best_and_median(runs: &mut [Repetition]) -> (Repetition, Repetition)
    requires { 0 < length runs.old }
    ensures same { IsPermutation runs.old runs.new }
    ensures order { IsNonDecreasingBy (λ (r : Repetition). r.nanos) runs.new }
    ensures best { slice_get runs.new 0 ≡ Some result.0 }
    ensures median { slice_get runs.new (length runs.new / 2) ≡ Some result.1 }
{
    runs.sort_unstable_by_key(|run| run.nanos);
    (runs[0], runs[runs.len() / 2])
}
