//! The threads of a run.
ghost use Rattle.std.specs.Prelude.{◌≡◌, true, IsTrue, IfOk, List, [], ◌∷◌, ◌++◌, map};
ghost use Rattle.std.specs.List.{All};
ghost use Rattle.script.specs.Commands.{asks_map};
ghost use Rattle.script.specs.declared.call.Call.{Call};
ghost use Rattle.tables.specs.Passes.{Ground, IsOf, PassView};
ghost use Rattle.runner.specs.Calls.{HasWorked, HaveWorked};

use crate::client::{Numbers, Worked, make_calls};
use crate::gate::Gate;
use arena::NoMemory;
use dict::Reply;
use forest::{FilledOnce, Forest, Pass};
use script::Call;
use std::alloc::Global;
use std::snapshot::Snapshot;
use std::thread::{Promise, PromisedHandle, Scope, Threads};

/// What the threads give back: the passes, and the replies of their clients.
pub(crate) type Works<B> = Result<(Vec<Pass<Numbers<B>>>, Vec<Vec<Reply<u64, u128>>>), NoMemory>;

/// A thread that makes the calls of a client.
pub(crate) type Thread<'a, B> = PromisedHandle<Worked<B>, Duty<'a, B>>;

/// What the thread of a client is to do: to make the client's calls among these in a forest, by the
/// client's pass.
#[derive(Drop)]
pub(crate) struct Duty<'a, B: FilledOnce> {
    forest: &'a Forest<Numbers<B>>,
    calls: &'a [Call],
    pass: Snapshot<Pass<Numbers<B>>>,
}

impl<'a, B: FilledOnce> Promise<Worked<B>> for Duty<'a, B> {
    ghost use Rattle.std.specs.Prelude.{IfOk};
    ghost use Rattle.runner.specs.Calls.{HasWorked};

    ghost kept_by = { λ d worked. IfOk worked (λ w. HasWorked d.forest.now d.calls.now d.pass.value w.0 w.1.items) };
}

/// Starts a thread for each pass, and returns whether all were started. The only error is want of
/// memory before the first.
pub(crate) fn start_all<'s, E, G: Gate, B: FilledOnce + Send>(
    alloc: Global,
    scope: &Scope<'s, E>,
    forest: &'s Forest<Numbers<B>>,
    calls: &'s [Call],
    gate: &'s G,
    passes: Vec<Pass<Numbers<B>>>,
) -> Result<(Vec<Thread<'s, B>>, bool), NoMemory>
    requires passes { All (IsOf forest.now) passes.items }
    requires asks { All (λ call. asks_map call.command ≡ true) calls.now }
    ensures duties { IfOk result (λ r. All (λ t. (t.promise.forest.now ≡ forest.now) × (t.promise.calls.now ≡ calls.now)) r.0.items) }
    ensures passes { IfOk result (λ r. IsTrue r.1 → map (λ t. t.promise.pass.value) r.0.items ≡ passes.items) }
{
    let mut threads = Vec::with_capacity(alloc, passes.len())?;
    for pass in passes {
        let pass_then = Snapshot::of(&pass);
        let duty = Duty {
            forest,
            calls,
            pass: pass_then,
        };
        let work = move || -> Worked<B>
            requires pass { IsOf forest.now pass }
            requires asks { All (λ call. asks_map call.command ≡ true) calls.now }
            ensures { IfOk result (λ w. HasWorked forest.entry.now calls.entry.now pass w.0 w.1.items) }
        { make_calls(alloc, forest, gate, calls, pass) };
        let Ok(thread) = scope.spawn_with(duty, work) else {
            return Ok((threads, false));
        };
        let Ok(()) = threads.push(thread) else {
            unreachable!()
        };
    }
    Ok((threads, true))
}

/// Waits for all threads, and gathers what they give back.
pub(crate) fn join_all<'s, R: Threads, B: FilledOnce>(
    rt: &R,
    alloc: Global,
    threads: Vec<Thread<'s, B>>,
) -> Works<B>
    ensures { (f : Ground) (calls : List Call)
        → All (λ t. (t.promise.forest.now ≡ f) × (t.promise.calls.now ≡ calls)) threads.entry.items
        → IfOk result (λ r. HaveWorked f calls (map (λ t. t.promise.pass.value) threads.entry.items) r.0.items r.1.items) }
{
    let mut works = Ok((Vec::new(alloc), Vec::new(alloc)));
    for thread in threads {
        works = with_work(works, thread.join(rt));
    }
    works
}

/// What the threads have given back, and one more.
fn with_work<B: FilledOnce>(works: Works<B>, worked: Worked<B>) -> Works<B>
    ensures { (f : Ground) (calls : List Call) (olds : List PassView) (old : PassView)
        → IfOk works (λ r. HaveWorked f calls olds r.0.items r.1.items)
        → IfOk worked (λ w. HasWorked f calls old w.0 w.1.items)
        → IfOk result (λ r. HaveWorked f calls (olds ++ old ∷ []) r.0.items r.1.items) }
{
    let (mut passes, mut replies) = works?;
    let (pass, own) = worked?;
    passes.push(pass)?;
    replies.push(own)?;
    Ok((passes, replies))
}
