//! Large dictionaries that begin with pairs.
ghost use Rattle.std.specs.Prelude.{◌≡◌, IfOk};
ghost use Rattle.tables.specs.Passes.{AreNew, IsOf};

use super::TRIES;
use super::call::Call::{Get, Insert};
use super::held::Numbers;
use super::worker::Worker;
use crate::same::same;
use arena::Limits;
use dict::{ByBits, ByOrder, Reply};
use forest::{Closed, FilledOnce, Forest, PairsFault, Pass};
use std::alloc::{AllocError, Global};
use std::process::Abort;
use std::test::Fail;

/// How many pairs there are.
const MANY: u64 = 100_000;

/// A pass alone: with its share it puts in three keys where leaves are full.
const ALONE: Limits = Limits {
    passes: 1,
    nodes: 9,
    scx: 9,
    tries: TRIES,
};

/// So many pairs, whose keys rise by this step from 0 on, each with a value of its own.
pub(super) fn rising(alloc: Global, many: u64, step: u64) -> Result<Vec<(u64, u64)>, AllocError> {
    let mut pairs = Vec::new(alloc);
    for number in 0..many {
        pairs.push((number.wrapping_mul(step), number))?;
    }
    Ok(pairs)
}

/// A new dictionary and its passes.
pub(super) type Opened<B = ByOrder> = (Forest<Numbers<B>>, Vec<Pass<Numbers<B>>>);

/// One that has one pass.
pub(super) fn alone<B: FilledOnce>(
    opened: Result<Opened<B>, PairsFault>,
) -> Result<(Forest<Numbers<B>>, Pass<Numbers<B>>), Fail>
    requires { IfOk opened (λ r. AreNew r.0 r.1.items) }
    ensures { IfOk result (λ r. IsOf r.0 r.1) }
{
    let Ok((forest, mut passes)) = opened else {
        return Err("no forest".into());
    };
    match passes.pop() {
        Some(pass) => Ok((forest, pass)),
        None => Err("no pass".into()),
    }
}

impl<'a, B: FilledOnce> Worker<'a, B> {
    /// Whether each key has its value, and the one above it has none.
    fn gets(&mut self, pairs: &[(u64, u64)]) -> bool
        ensures { self.new.forest.now ≡ self.old.forest.now }
    {
        for (key, value) in pairs {
            let got = self.make(Get(*key));
            let above = self.make(Get(key.wrapping_add(1)));
            if got != Reply::Value(Some(*value)) || above != Reply::Value(None) {
                return false;
            }
        }
        true
    }

    /// Puts in the key above that of one pair, whose leaf is full. What the pass has left, if the
    /// key had no value, or if there was no node left for it.
    fn split(&mut self, key: u64) -> Option<(u32, u32)>
        ensures { self.new.forest.now ≡ self.old.forest.now }
    {
        match self.make(Insert(key.wrapping_add(1), 1)) {
            Reply::Value(None) => Some(self.pass.left()),
            _ => None,
        }
    }
}

/// A dictionary begins with these pairs, and a pass that gets them has its whole share.
fn begun<B: FilledOnce>(
    rt: &impl Abort,
    alloc: Global,
    pairs: &[(u64, u64)],
) -> Result<Closed<Numbers<B>>, Fail> {
    let (forest, pass) = alone(Forest::<Numbers<B>>::of_pairs(alloc, ALONE, pairs))?;
    let mut worker = Worker::new(alloc, &forest, pass);
    assert!(rt; worker.gets(pairs));
    same(rt, worker.pass.left(), (9, 9));
    let pass = worker.pass;
    Ok(forest.end(pass))
}

/// What was closed is renewed, and its pass puts in a key for each three nodes of its share, and
/// no more.
fn goes_on<B: FilledOnce>(
    rt: &impl Abort,
    alloc: Global,
    closed: &Closed<Numbers<B>>,
    step: u64,
) -> Result<(), Fail> {
    let (forest, pass) = alone(closed.renewed(alloc, ALONE))?;
    let mut worker = Worker::new(alloc, &forest, pass);
    for (number, left) in [
        (0, Some((6, 8))),
        (MANY / 20, Some((3, 7))),
        (MANY - 1, Some((0, 6))),
        (MANY / 4 * 3, None),
    ] {
        let key = step.wrapping_mul(number);
        same(rt, worker.split(key), left);
    }
    same(rt, worker.pass.left(), (0, 6));
    Ok(())
}

/// A large dictionary of this shape begins with pairs whose keys are so far apart.
fn many_are_right<B: FilledOnce>(rt: &impl Abort, alloc: Global, step: u64) -> Result<(), Fail> {
    let pairs = rising(alloc, MANY, step)?;
    let closed = begun::<B>(rt, alloc, &pairs)?;
    let Ok(left) = closed.pairs(alloc) else {
        return Err("no memory".into());
    };
    assert!(rt; left == pairs);
    goes_on(rt, alloc, &closed, step)
}

/// Each step is a power of two, so that the leaves of a trie are full too.
#[test]
fn many_pairs_are_there_from_the_beginning(rt: HostRuntime) -> Result<(), Fail> {
    for step in [2, 1 << 40] {
        many_are_right::<ByOrder>(&rt, rt.alloc(), step)?;
        many_are_right::<ByBits>(&rt, rt.alloc(), step)?;
    }
    Ok(())
}
