//! Dictionaries that passes share.
ghost use Rattle.std.specs.Prelude.{IfOk, IfSome};
ghost use Rattle.std.specs.List.{All};
ghost use Rattle.tables.specs.Passes.{IsOf};

mod beginnings;
mod call;
mod calls;
mod held;
mod memory;
mod refusals;
mod renewals;
mod rows;
mod schedules;
mod stopped;
mod threads;
mod worker;

use arena::Limits;
use dict::{Dict, WordKey, WordValue};
use forest::{Closed, FilledOnce, Forest, Pass};
use std::alloc::{AllocError, Global};
use std::test::Fail;

/// How often a call tries, where a test does not say.
const TRIES: u32 = 3;

fn limits(passes: u32, nodes: u32, scx: u32) -> Limits {
    Limits {
        passes,
        nodes,
        scx,
        tries: TRIES,
    }
}

/// Ends the forest, if all its passes are there.
fn closed<K: WordKey, V: WordValue, B: FilledOnce>(
    forest: Forest<Dict<K, V, B>>,
    passes: Vec<Pass<Dict<K, V, B>>>,
) -> Option<Closed<Dict<K, V, B>>>
    requires { All (IsOf forest) passes.items }
{
    if forest.all_back(&passes) {
        Some(forest.close(passes))
    } else {
        None
    }
}

/// Ends the forest, and answers its pairs, if all its passes are there.
fn end<K: WordKey, V: WordValue, B: FilledOnce>(
    alloc: Global,
    forest: Forest<Dict<K, V, B>>,
    passes: Vec<Pass<Dict<K, V, B>>>,
) -> Option<Vec<(K, V)>>
    requires { All (IsOf forest) passes.items }
{
    closed(forest, passes)?.pairs(alloc).ok()
}

/// A dictionary, and its two passes.
fn two<K: WordKey, V: WordValue>(
    alloc: Global,
    tries: u32,
) -> Option<(Forest<Dict<K, V>>, Pass<Dict<K, V>>, Pass<Dict<K, V>>)>
    ensures first { IfSome result (λ t. IsOf t.0 t.1) }
    ensures second { IfSome result (λ t. IsOf t.0 t.2) }
{
    let limits = Limits {
        tries,
        ..limits(2, 20, 20)
    };
    let Ok((forest, mut passes)) = Forest::<Dict<K, V>>::new(alloc, limits) else {
        return None;
    };
    let second = passes.pop()?;
    let first = passes.pop()?;
    Some((forest, first, second))
}

/// The same for a test, which fails if there is none. Each call makes this many tries at most.
fn opened_with<K: WordKey, V: WordValue>(
    alloc: Global,
    tries: u32,
) -> Result<(Forest<Dict<K, V>>, Pass<Dict<K, V>>, Pass<Dict<K, V>>), Fail>
    ensures first { IfOk result (λ t. IsOf t.0 t.1) }
    ensures second { IfOk result (λ t. IsOf t.0 t.2) }
{
    match two(alloc, tries) {
        Some(shared) => Ok(shared),
        None => Err("no forest".into()),
    }
}

/// The same, with calls that try three times.
fn opened<K: WordKey, V: WordValue>(
    alloc: Global,
) -> Result<(Forest<Dict<K, V>>, Pass<Dict<K, V>>, Pass<Dict<K, V>>), Fail>
    ensures first { IfOk result (λ t. IsOf t.0 t.1) }
    ensures second { IfOk result (λ t. IsOf t.0 t.2) }
{
    opened_with(alloc, TRIES)
}

/// Ends a forest of two passes.
fn end_two<K: WordKey, V: WordValue>(
    alloc: Global,
    forest: Forest<Dict<K, V>>,
    one: Pass<Dict<K, V>>,
    other: Pass<Dict<K, V>>,
) -> Result<Option<Vec<(K, V)>>, AllocError>
    requires one { IsOf forest one }
    requires other { IsOf forest other }
{
    let mut passes = Vec::new(alloc);
    passes.push(one)?;
    passes.push(other)?;
    Ok(end(alloc, forest, passes))
}
