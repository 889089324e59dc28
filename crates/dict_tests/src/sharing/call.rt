//! The calls of a dictionary. What a call says of steps and runs is long, and a body with many
//! calls is proved over all of it: so each is made in one place, and tests have rows of calls.
ghost use Rattle.ordered_map.specs.Requests.{AsksForFew};
ghost use Rattle.tables.specs.Passes.{IsOf};

use dict::{Dict, Reply, Request, WordKey, WordValue};
use forest::{FilledOnce, Forest, OrderFault, Pass, UpdateFault};
use std::alloc::Global;

/// No range asks for more pairs.
const MOST_PAIRS: u32 = 64;

/// A call of a dictionary.
#[derive(Clone, Copy, Debug)]
pub(super) enum Call<K, V> {
    Insert(K, V),
    InsertNew(K, V),
    Delete(K),
    /// Of a key: the value that is expected.
    DeleteIf(K, V),
    PopFirst,
    PopLast,
    /// Of a key: the value that is expected, and the new one.
    ReplaceIf(K, V, V),
    Get(K),
    Successor(K),
    Predecessor(K),
    /// From a key to another, this many pairs, or 64.
    Range(K, K, u32),
}

impl<K: WordKey, V: WordValue> Call<K, V> {
    /// The call as one that is held open begins.
    pub(super) fn request(self) -> Request<K, V>
        ensures { AsksForFew result }
    {
        match self {
            Call::Insert(key, value) => Request::Insert { key, value },
            Call::InsertNew(key, value) => Request::InsertNew { key, value },
            Call::Delete(key) => Request::Delete { key },
            Call::DeleteIf(key, expected) => Request::DeleteIf { key, expected },
            Call::PopFirst => Request::PopFirst,
            Call::PopLast => Request::PopLast,
            Call::ReplaceIf(key, expected, value) => {
                Request::ReplaceIf {
                    key,
                    expected,
                    value,
                }
            }
            Call::Get(key) => Request::Get { key },
            Call::Successor(key) => Request::Successor { key },
            Call::Predecessor(key) => Request::Predecessor { key },
            Call::Range(low, high, most) => {
                let most = most.min(MOST_PAIRS);
                Request::Range { low, high, most }
            }
        }
    }

    /// Makes it, all at once.
    pub(super) fn make<B: FilledOnce>(
        self,
        alloc: Global,
        forest: &Forest<Dict<K, V, B>>,
        pass: &mut Pass<Dict<K, V, B>>,
    ) -> Reply<K, V>
        requires { IsOf forest.now pass.old }
        ensures { IsOf forest.now pass.new }
    {
        match self {
            Call::Insert(key, value) => value_told(forest.insert(pass, key, value)),
            Call::InsertNew(key, value) => value_told(forest.insert_new(pass, key, value)),
            Call::Delete(key) => value_told(forest.delete(pass, &key)),
            Call::DeleteIf(key, expected) => value_told(forest.delete_if(pass, &key, &expected)),
            Call::PopFirst => pair_told(forest.pop_first(pass)),
            Call::PopLast => pair_told(forest.pop_last(pass)),
            Call::ReplaceIf(key, expected, value) => {
                value_told(forest.replace_if(pass, key, &expected, value))
            }
            Call::Get(key) => Reply::Value(forest.get(pass, &key)),
            Call::Successor(key) => found_told(forest.successor(alloc, pass, &key)),
            Call::Predecessor(key) => found_told(forest.predecessor(alloc, pass, &key)),
            Call::Range(low, high, most) => range(alloc, forest, pass, low, high, most),
        }
    }
}

/// The pairs that a reply has, if it is one of a range.
pub(super) fn pairs_told<K: WordKey, V: WordValue>(reply: Reply<K, V>) -> Option<Vec<(K, V)>> {
    match reply {
        Reply::Pairs(pairs) => Some(pairs),
        _ => None,
    }
}

/// What an edit of a key has answered, as a reply.
fn value_told<K: WordKey, V: WordValue>(told: Result<Option<V>, UpdateFault>) -> Reply<K, V> {
    match told {
        Ok(old) => Reply::Value(old),
        Err(UpdateFault::Contended { node, scx }) => Reply::Contended { node, scx },
        Err(UpdateFault::Full(full)) => Reply::Full(full),
    }
}

/// And what a pop has answered.
fn pair_told<K: WordKey, V: WordValue>(told: Result<Option<(K, V)>, UpdateFault>) -> Reply<K, V> {
    match told {
        Ok(pair) => Reply::Pair(pair),
        Err(UpdateFault::Contended { node, scx }) => Reply::Contended { node, scx },
        Err(UpdateFault::Full(full)) => Reply::Full(full),
    }
}

/// And what a search for a pair beside a key has answered.
fn found_told<K: WordKey, V: WordValue>(told: Result<Option<(K, V)>, OrderFault>) -> Reply<K, V> {
    match told {
        Ok(pair) => Reply::Pair(pair),
        Err(OrderFault::Contended { node, scx }) => Reply::Contended { node, scx },
        Err(OrderFault::NoMemory) => Reply::NoMemory,
    }
}

fn range<K: WordKey, V: WordValue, B: FilledOnce>(
    alloc: Global,
    forest: &Forest<Dict<K, V, B>>,
    pass: &mut Pass<Dict<K, V, B>>,
    low: K,
    high: K,
    most: u32,
) -> Reply<K, V>
    requires { IsOf forest.now pass.old }
    ensures { IsOf forest.now pass.new }
{
    let most = most.min(MOST_PAIRS) as usize;
    match forest.range(alloc, pass, &low, &high, most) {
        Ok(pairs) => Reply::Pairs(pairs),
        Err(OrderFault::Contended { node, scx }) => Reply::Contended { node, scx },
        Err(OrderFault::NoMemory) => Reply::NoMemory,
    }
}

/// Two passes come to know what both knew.
pub(super) fn meet<K: WordKey, V: WordValue>(
    forest: &Forest<Dict<K, V>>,
    one: &mut Pass<Dict<K, V>>,
    other: &mut Pass<Dict<K, V>>,
)
    requires one { IsOf forest.now one.old }
    requires other { IsOf forest.now other.old }
    ensures one { IsOf forest.now one.new }
    ensures other { IsOf forest.now other.new }
{
    forest.meet(one, other);
}
