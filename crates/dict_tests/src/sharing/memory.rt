//! A growth that is refused. In the gate none is: of each of these tests
//! `crates/cases/data/stories/refused_growths/check_tests` refuses each in turn.
ghost use Rattle.std.specs.Prelude.{IfOk};
ghost use Rattle.std.specs.List.{All};
ghost use Rattle.tables.specs.Passes.{AreNew, IsOf};

use super::beginnings::{Opened, alone};
use super::call::Call::{self, Insert, Predecessor, Range, Successor};
use super::call::pairs_told;
use super::held::Numbers;
use super::{TRIES, closed, limits, two};
use dict::Reply;
use forest::{Closed, Forest, NewFault, PairsFault, Pass};
use std::alloc::Global;
use std::test::Fail;

/// The keys from 1 to this one are put in, each with itself.
const LAST: u64 = 6;

/// Puts them in, which takes no memory.
fn put_all(alloc: Global, forest: &Forest<Numbers>, pass: &mut Pass<Numbers>) -> bool
    requires { IsOf forest.now pass.old }
    ensures { IsOf forest.now pass.new }
{
    for key in 1..=LAST {
        if Insert(key, key).make(alloc, forest, pass) != Reply::Value(None) {
            return false;
        }
    }
    true
}

/// Whether these are the pairs that were put in.
fn are_all(pairs: &[(u64, u64)]) -> bool {
    let many = pairs.len();
    let mut keyed = pairs.iter().zip(1..=LAST);
    many == LAST as usize && keyed.all(|(pair, key)| *pair == (key, key))
}

/// Makes an ordered read, and once more where it had no memory.
fn read(
    alloc: Global,
    forest: &Forest<Numbers>,
    pass: &mut Pass<Numbers>,
    call: Call<u64, u64>,
) -> Reply<u64, u64>
    requires { IsOf forest.now pass.old }
    ensures { IsOf forest.now pass.new }
{
    match call.make(alloc, forest, pass) {
        Reply::NoMemory => call.make(alloc, forest, pass),
        reply => reply,
    }
}

/// A successor answers the next pair, a predecessor the one before, a range all; where one of them
/// had no memory, as soon as it is asked again. Nothing of the share is taken.
fn all_look(alloc: Global, forest: &Forest<Numbers>, pass: &mut Pass<Numbers>) -> bool
    requires { IsOf forest.now pass.old }
    ensures { IsOf forest.now pass.new }
{
    let left = pass.left();
    let next = read(alloc, forest, pass, Successor(3));
    let previous = read(alloc, forest, pass, Predecessor(3));
    let all = pairs_told(read(alloc, forest, pass, Range(0, LAST, 64)));
    next == Reply::Pair(Some((4, 4)))
        && previous == Reply::Pair(Some((2, 2)))
        && all.is_some_and(|pairs| are_all(pairs.as_slice()))
        && pass.left() == left
}

/// The same of the pairs that are left.
fn are_left(alloc: Global, closed: &Closed<Numbers>) -> bool {
    let pairs = match closed.pairs(alloc) {
        Ok(pairs) => Ok(pairs),
        Err(_) => closed.pairs(alloc),
    };
    pairs.is_ok_and(|pairs| are_all(pairs.as_slice()))
}

/// Whether a new dictionary is refused for nothing but want of memory.
fn is_opened_or_lacks_memory(alloc: Global) -> bool {
    match Forest::<Numbers>::new(alloc, limits(2, 20, 20)) {
        Ok(_) | Err(NewFault::NoMemory) => true,
        Err(NewFault::Limits) => false,
    }
}

#[test]
fn a_refused_growth_leaves_all_as_it_was(rt: HostRuntime) -> Result<(), Fail> {
    let alloc = rt.alloc();
    assert!(rt; is_opened_or_lacks_memory(alloc));
    let Ok(mut passes) = Vec::with_capacity(alloc, 2) else {
        return Ok(());
    };
    let Some((forest, mut first, second)) = two(alloc, TRIES) else {
        return Ok(());
    };
    assert!(rt; put_all(alloc, &forest, &mut first));
    assert!(rt; all_look(alloc, &forest, &mut first));
    passes.push(first)?;
    passes.push(second)?;
    let closed = closed(forest, passes).ok_or("a pass is missing")?;
    assert!(rt; are_left(alloc, &closed));
    Ok(())
}

/// The pairs that were put in above.
const PAIRS: [(u64, u64); LAST as usize] = [(1, 1), (2, 2), (3, 3), (4, 4), (5, 5), (6, 6)];

/// A dictionary that begins with them, made once more where there was no memory.
fn begun(alloc: Global) -> Result<Opened, PairsFault>
    ensures { IfOk result (λ r. AreNew r.0 r.1.items) }
{
    match Forest::of_pairs(alloc, limits(1, 9, 9), &PAIRS) {
        Err(PairsFault::NoMemory) => Forest::of_pairs(alloc, limits(1, 9, 9), &PAIRS),
        opened => opened,
    }
}

/// The next one, in the same way.
fn next(alloc: Global, closed: &Closed<Numbers>) -> Result<Opened, PairsFault>
    ensures { IfOk result (λ r. AreNew r.0 r.1.items) }
{
    match closed.renewed(alloc, limits(1, 9, 9)) {
        Err(PairsFault::NoMemory) => closed.renewed(alloc, limits(1, 9, 9)),
        opened => opened,
    }
}

#[test]
fn a_refused_beginning_loses_nothing(rt: HostRuntime) -> Result<(), Fail> {
    let alloc = rt.alloc();
    let (forest, pass) = alone(begun(alloc))?;
    let first = forest.end(pass);
    let (forest, pass) = alone(next(alloc, &first))?;
    assert!(rt; are_left(alloc, &first));
    assert!(rt; are_left(alloc, &forest.end(pass)));
    Ok(())
}
