//! A run of a script.
ghost use Rattle.std.specs.Prelude.{◌≡◌, true, IfOk};
ghost use Rattle.std.specs.List.{All};
ghost use Rattle.arena.specs.Layout.{IsMap};
ghost use Rattle.template.specs.Balance.{map_mode};
ghost use Rattle.script.specs.Commands.{asks_map};
ghost use Rattle.tables.specs.Passes.{IsOf};
ghost use Rattle.runner.specs.Calls.{HaveWorked};
ghost use Rattle.runner.specs.Outcomes.{IsOutcome};

use crate::client::{Numbers, make_calls};
use crate::gate::Gate;
use crate::outcome::Outcome;
use crate::thread::{Works, join_all, start_all};
use arena::{Mode, NoMemory};
use forest::{FilledOnce, Forest, Pass};
use script::{Call, Script};
use std::alloc::Global;
use std::sync::Wait;
use std::thread::{Threads, scope, scope_env};
use template::{ByBits, ByOrder};

/// Runs a script of a map with a thread for each client, which notifies the gate of its calls. The
/// only error is want of memory, also for a thread: those that were started have ended then.
pub fn run<R: Threads + Wait + Sync, G: Gate>(
    rt: &R,
    alloc: Global,
    script: &Script,
    gate: &G,
) -> Result<Outcome, NoMemory>
    requires map { IsMap script.now.layout.mode }
    ensures { IfOk result (λ o. IsOutcome script.now o.replies.items o.pairs.items) }
{
    match script.layout.mode {
        Mode::Trie => run_by::<R, G, ByBits>(rt, alloc, script, gate),
        _ => run_by::<R, G, ByOrder>(rt, alloc, script, gate),
    }
}

/// The same, of a tree or of a trie, as the type says.
fn run_by<R: Threads + Wait + Sync, G: Gate, B: FilledOnce + Send>(
    rt: &R,
    alloc: Global,
    script: &Script,
    gate: &G,
) -> Result<Outcome, NoMemory>
    requires mode { script.now.layout.mode ≡ map_mode (B.trie B.the) }
    ensures { IfOk result (λ o. IsOutcome script.now o.replies.items o.pairs.items) }
{
    let Ok((forest, passes)) = Forest::<Numbers<B>>::new(alloc, script.limits) else {
        return Err(NoMemory);
    };
    let (passes, replies) = crowd(rt, alloc, &forest, script.calls.as_slice(), gate, passes)?;
    let pairs = forest.close(passes).pairs(alloc)?;
    Ok(Outcome { replies, pairs })
}

/// Each client makes its calls in a thread of its own.
fn crowd<R: Threads + Wait + Sync, G: Gate, B: FilledOnce + Send>(
    rt: &R,
    alloc: Global,
    forest: &Forest<Numbers<B>>,
    calls: &[Call],
    gate: &G,
    passes: Vec<Pass<Numbers<B>>>,
) -> Works<B>
    requires passes { All (IsOf forest.now) passes.items }
    requires asks { All (λ call. asks_map call.command ≡ true) calls.now }
    ensures { IfOk result (λ r. HaveWorked forest.now calls.now passes.items r.0.items r.1.items) }
{
    scope(
        scope_env(),
        rt,
        move |scope| -> Works<B>
            requires passes { All (IsOf forest.now) passes.items }
            requires asks { All (λ call. asks_map call.command ≡ true) calls.now }
            ensures { IfOk result (λ r. HaveWorked forest.entry.now calls.entry.now passes.items r.0.items r.1.items) }
        {
            let (threads, all) = start_all(alloc, scope, forest, calls, gate, passes)?;
            let works = join_all(rt, alloc, threads);
            if all { works } else { Err(NoMemory) }
        },
    )
}
