//! A broker's table of counters: four threads count messages by topic, each message once. It goes on
//! without end: what its passes have used up comes back as they rest.
#![tactic(auto)]

ghost use Rattle.std.specs.Prelude.{IfOk};
ghost use Rattle.std.specs.List.{All};
ghost use Rattle.regnubas.specs.Passes.{IsOf};

use anyhow::{Result, bail};
use regnubas::{ByBits, Dict, Forest, Lasts, Limits, Name8, Pass, UpdateFault};
use std::alloc::{AllocError, Global};
use std::thread::{Threads, map_vec, yield_now};

/// From topics to how many messages there were.
type Table = Dict<Name8, u32, Lasts<ByBits>>;

/// A pass for each thread and one for the end, with what it may have in use at a time.
const LIMITS: Limits = Limits {
    passes: 5,
    nodes: 64,
    scx: 64,
    tries: 1,
};

/// The topics.
const TOPICS: [&str; 3] = ["news", "sports", "weather"];

/// How many messages each thread counts.
const MESSAGES: usize = 30_000;

/// After how many messages a pass rests.
const OFTEN: usize = 8;

/// Opens a topic, with no message, while no other thread works.
fn open(table: &Forest<Table>, pass: &mut Pass<Table>, topic: &str) -> Result<()>
    requires { IsOf table.now pass.old }
    ensures { IsOf table.now pass.new }
{
    if let Some(topic) = Name8::new(topic) {
        table.insert(pass, topic, 0)?;
    }
    Ok(())
}

/// Opens all topics.
fn open_all(table: &Forest<Table>, mut pass: Pass<Table>) -> Result<Pass<Table>>
    requires { IsOf table.now pass }
    ensures { IfOk result (IsOf table.now) }
{
    for topic in TOPICS {
        open(table, &mut pass, topic)?;
    }
    Ok(pass)
}

/// The pass rests, and lets another thread go on if it waits for one.
fn rest(table: &Forest<Table>, pass: &mut Pass<Table>)
    requires { IsOf table.now pass.old }
    ensures { IsOf table.now pass.new }
{
    if table.rest(pass).is_some() {
        yield_now();
    }
}

/// Counts a message: one more than there were, if no other thread has counted meanwhile, and else
/// again from what that has left. If the share is used up the pass rests first. Answers whether the
/// message is counted.
fn count(table: &Forest<Table>, pass: &mut Pass<Table>, topic: Name8) -> bool
    requires { IsOf table.now pass.old }
    ensures { IsOf table.now pass.new }
{
    let mut seen = 0;
    for _ask in 0..10_000_000 {
        match table.replace_if(pass, topic, &seen, seen.wrapping_add(1)) {
            Ok(Some(told)) if told == seen => return true,
            Ok(Some(told)) => seen = told,
            Ok(None) => return false,
            Err(UpdateFault::Contended { .. }) => {}
            Err(UpdateFault::Full(_)) => rest(table, pass),
        }
    }
    false
}

/// What a thread does with its pass, which then leaves for ever.
fn work(table: &Forest<Table>, mut pass: Pass<Table>)
    requires { IsOf table.now pass }
{
    for message in 0..MESSAGES {
        if let Some(topic) = Name8::new(TOPICS[message % 3]) {
            count(table, &mut pass, topic);
        }
        if message % OFTEN == 0 {
            rest(table, &mut pass);
        }
    }
    drop(table.away(pass));
}

/// All threads work.
fn work_all<R: Threads + Sync>(
    rt: &R,
    table: &Forest<Table>,
    passes: Vec<Pass<Table>>,
) -> Result<(), AllocError>
    requires { All (IsOf table.now) passes.items }
{
    map_vec(rt, passes, &|pass| work(table, pass))?;
    Ok(())
}

/// The counters in the end, by topic. The pass that opens the topics is away while the others work.
fn counters<R: Threads + Sync>(rt: &R, alloc: Global) -> Result<Vec<(Name8, u32)>> {
    let (table, mut passes) = Forest::<Table>::lasting(alloc, LIMITS)?;
    let Some(own) = passes.pop() else {
        bail!("there is no pass")
    };
    let own = table.away(open_all(&table, own)?);
    work_all(rt, &table, passes)?;
    let own = table.back(own);
    Ok(table.end(own).pairs(alloc)?)
}

fn main(rt: HostRuntime) -> Result<()> {
    for (topic, count) in &counters(&rt, rt.alloc())? {
        println!(rt; "{topic} {count}")?;
    }
    Ok(())
}
