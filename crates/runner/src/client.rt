//! The calls of one client.
ghost use Rattle.std.specs.Prelude.{◌≡◌, true, false, IfOk};
ghost use Rattle.std.specs.List.{All};
ghost use Rattle.ordered_map.specs.Requests.{AsksForFew, map_request};
ghost use Rattle.script.specs.Commands.{asks_map};
ghost use Rattle.forest.specs.Opened.{IsSameOpen};
ghost use Rattle.tables.specs.Passes.{IsOf};
ghost use Rattle.runner.specs.Calls.{HasCalledNumbers, HasWorked};

use crate::gate::Gate;
use crate::request::request_of;
use arena::{NoMemory, PassNo};
use dict::{Dict, Reply, Request};
use forest::{FilledOnce, Forest, OpenCall, Pass, Stepped};
use script::Call;
use std::alloc::Global;

/// A dictionary of numbers, a tree or a trie.
pub(crate) type Numbers<B> = Dict<u64, u128, B>;

/// What a client's thread gives back: its pass, and the replies to its calls.
pub(crate) type Worked<B> = Result<(Pass<Numbers<B>>, Vec<Reply<u64, u128>>), NoMemory>;

/// Makes the calls of the pass's client among these, one after the other, and notifies the gate of
/// them. The only error is want of memory.
pub(crate) fn make_calls<G: Gate, B: FilledOnce>(
    alloc: Global,
    forest: &Forest<Numbers<B>>,
    gate: &G,
    calls: &[Call],
    pass: Pass<Numbers<B>>,
) -> Worked<B>
    requires pass { IsOf forest.now pass }
    requires asks { All (λ call. asks_map call.command ≡ true) calls.now }
    ensures { IfOk result (λ w. HasWorked forest.now calls.now pass w.0 w.1.items) }
{
    let client = pass.number();
    let mut pass = pass;
    let mut replies = Vec::new(alloc);
    for call in calls {
        if call.client == client {
            let number = replies.len() as u64;
            let request = request_of(call);
            let (back, reply) = make_call(alloc, forest, gate, number, pass, request);
            pass = back;
            replies.push(reply)?;
        }
    }
    Ok((pass, replies))
}

/// Makes a whole call, one atomic step at a time.
fn make_call<G: Gate, B: FilledOnce>(
    alloc: Global,
    forest: &Forest<Numbers<B>>,
    gate: &G,
    number: u64,
    pass: Pass<Numbers<B>>,
    request: Request<u64, u128>,
) -> (Pass<Numbers<B>>, Reply<u64, u128>)
    requires pass { IsOf forest.now pass }
    requires few { AsksForFew request }
    ensures { HasCalledNumbers forest.now pass result.0 (map_request request) result.1 }
{
    let client = pass.number();
    gate.began(client, number);
    let mut call = forest.open(alloc, pass, request);
    make_steps(forest, gate, client, number, &mut call);
    let ended = call.finish();
    gate.answered(client, number);
    ended
}

/// Makes the steps of a call.
fn make_steps<G: Gate, B: FilledOnce>(
    forest: &Forest<Numbers<B>>,
    gate: &G,
    client: PassNo,
    number: u64,
    call: &mut OpenCall<u64, u128, B>,
)
    requires forest { IsOf forest.now call.old.began }
    requires goes { call.old.over ≡ false }
    ensures over { call.new.over ≡ true }
    ensures same { IsSameOpen call.old call.new }
{
    loop {
        match call.step(forest) {
            Stepped::More(kind) => gate.made(client, number, kind),
            Stepped::Done(Some(kind)) => {
                gate.made(client, number, kind);
                return;
            }
            Stepped::Done(None) => return,
        }
    }
}
