//! An index of names: two threads enter names while two others look names up.
#![tactic(auto)]

ghost use Rattle.std.specs.Prelude.{IfOk};
ghost use Rattle.std.specs.List.{All};
ghost use Rattle.regnubas.specs.Passes.{IsOf};

use anyhow::{Result, bail};
use regnubas::{Forest, Limits, Name8, Pass, PassNo, Trie, UpdateFault};
use std::alloc::{AllocError, Global};
use std::sync::atomic::{AtomicU64, Ordering};
use std::thread::{Threads, map_vec};

/// From names of up to 8 characters to the pages on which they are.
type Index = Trie<Name8, u32>;

/// A pass for each thread. A new name takes three nodes at most and an SCX-record, which are never
/// given back.
const LIMITS: Limits = Limits {
    passes: 4,
    nodes: 300,
    scx: 100,
    tries: 100,
};

/// What is entered before the threads start.
const OLD: [(&str, u32); 4] = [("add", 12), ("find", 3), ("min", 7), ("split", 21)];

/// What the two writers enter.
const NEW: [[(&str, u32); 4]; 2] = [
    [("clear", 14), ("last", 9), ("next", 8), ("take", 30)],
    [("drop", 15), ("first", 9), ("max", 7), ("zip", 41)],
];

/// Enters a name, and calls again while others are in the way. Answers whether it is a name and
/// the share of this pass has had room for it.
fn enter(index: &Forest<Index>, pass: &mut Pass<Index>, name: &str, page: u32) -> bool
    requires { IsOf index.now pass.old }
    ensures { IsOf index.now pass.new }
{
    let Some(name) = Name8::new(name) else {
        return false;
    };
    for _ask in 0..1000 {
        match index.insert(pass, name, page) {
            Ok(_old) => return true,
            Err(UpdateFault::Contended { .. }) => {}
            Err(UpdateFault::Full(_)) => return false,
        }
    }
    false
}

/// What a writer does with its pass.
fn write(index: &Forest<Index>, mut pass: Pass<Index>, entries: [(&str, u32); 4]) -> Pass<Index>
    requires { IsOf index.now pass }
    ensures { IsOf index.now result }
{
    for (name, page) in entries {
        enter(index, &mut pass, name, page);
    }
    pass
}

/// The last pass enters the old names, before the threads start.
fn filled(index: &Forest<Index>, mut passes: Vec<Pass<Index>>) -> Result<Vec<Pass<Index>>>
    requires { All (IsOf index.now) passes.items }
    ensures { IfOk result (λ ps. All (IsOf index.now) ps.items) }
{
    let Some(own) = passes.pop() else {
        return Ok(passes);
    };
    passes.push(write(index, own, OLD))?;
    Ok(passes)
}

/// The page of a name, if it is in the index.
fn look_up(index: &Forest<Index>, pass: &mut Pass<Index>, name: &str) -> Option<u32>
    requires { IsOf index.now pass.old }
    ensures { IsOf index.now pass.new }
{
    match Name8::new(name) {
        Some(name) => index.get(pass, &name),
        None => None,
    }
}

/// What a reader does with its pass: it counts the answers that are wrong. An old name is there
/// whenever it asks; a new one may be there or not.
fn read(index: &Forest<Index>, mut pass: Pass<Index>, wrong: &AtomicU64) -> Pass<Index>
    requires { IsOf index.now pass }
    ensures { IsOf index.now result }
{
    for round in 0..1000 {
        let ((old, page), (new, new_page)) = (OLD[round % 4], NEW[round % 2][round / 2 % 4]);
        let right = look_up(index, &mut pass, old) == Some(page)
            && look_up(index, &mut pass, new).is_none_or(|found| found == new_page);
        if !right {
            wrong.fetch_add(1, Ordering::SeqCst);
        }
    }
    pass
}

/// What a thread does with its pass.
fn work(index: &Forest<Index>, pass: Pass<Index>, wrong: &AtomicU64) -> Pass<Index>
    requires { IsOf index.now pass }
    ensures { IsOf index.now result }
{
    match pass.number() {
        PassNo(0) => write(index, pass, NEW[0]),
        PassNo(1) => write(index, pass, NEW[1]),
        PassNo(_) => read(index, pass, wrong),
    }
}

/// All threads work, and return their passes.
fn work_all<R: Threads + Sync>(
    rt: &R,
    index: &Forest<Index>,
    passes: Vec<Pass<Index>>,
    wrong: &AtomicU64,
) -> Result<Vec<Pass<Index>>, AllocError>
    requires { All (IsOf index.now) passes.items }
    ensures { IfOk result (λ ps. All (IsOf index.now) ps.items) }
{
    map_vec(rt, passes, &|pass| work(index, pass, wrong))
}

/// The names from e to n in the end, with their pages, and how many answers were wrong.
fn index<R: Threads + Sync>(rt: &R, alloc: Global) -> Result<(Vec<(Name8, u32)>, u64)> {
    let wrong = AtomicU64::new(0);
    let (index, passes) = Forest::<Index>::new(alloc, LIMITS)?;
    let passes = filled(&index, passes)?;
    let mut passes = work_all(rt, &index, passes, &wrong)?;
    let (Some(low), Some(high), Some(mut own)) = (Name8::new("e"), Name8::new("n"), passes.pop())
    else {
        bail!("no pass has come back");
    };
    let found = index.range(alloc, &mut own, &low, &high, 64)?;
    Ok((found, wrong.load(Ordering::SeqCst)))
}

fn main(rt: HostRuntime) -> Result<()> {
    let (found, wrong) = index(&rt, rt.alloc())?;
    for (name, page) in &found {
        println!(rt; "{name} {page}")?;
    }
    println!(rt; "wrong answers: {wrong}")?;
    Ok(())
}
