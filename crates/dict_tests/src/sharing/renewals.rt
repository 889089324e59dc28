//! Dictionaries that begin with what another was left with, again and again.
ghost use Rattle.std.specs.Prelude.{◌≡◌, IfOk};
ghost use Rattle.std.specs.List.{All};
ghost use Rattle.tables.specs.Passes.{IsOf};

use super::beginnings::Opened;
use super::call::Call::{self, Delete, Insert, InsertNew, PopFirst, PopLast, Successor};
use super::held::Numbers;
use super::threads::{part, stirred};
use super::worker::Worker;
use super::{closed, limits};
use arena::Limits;
use dict::{ByBits, ByOrder, Reply};
use forest::{Closed, FilledOnce, Forest, Pass};
use std::alloc::Global;
use std::process::Abort;
use std::test::Fail;
use std::thread::{Threads, map_vec};

/// How often a dictionary is renewed.
const TIMES: u64 = 10;

/// How many threads change it, in most rounds, and how many calls each of them makes.
const THREADS: u32 = 4;

const CALLS: u64 = 400;

/// No round has more threads.
const MOST_THREADS: u64 = 8;

/// How many keys there are, from 1 on.
const KEYS: u64 = 300;

/// The share of each pass: a call whose way is free takes three nodes at most and one SCX-record.
const SHARE: u32 = 8_000;

/// The pairs that there are, or by how much they have become more: how many, and the sums of their
/// keys and of their values. All wrap.
#[derive(Clone, Copy, Debug, PartialEq, Eq)]
struct Tally {
    pairs: u64,
    keys: u64,
    values: u64,
}

impl Tally {
    const NONE: Tally = Tally {
        pairs: 0,
        keys: 0,
        values: 0,
    };

    /// With what another has.
    fn and(self, other: Tally) -> Tally {
        Tally {
            pairs: self.pairs.wrapping_add(other.pairs),
            keys: self.keys.wrapping_add(other.keys),
            values: self.values.wrapping_add(other.values),
        }
    }

    /// Without what another has.
    fn less(self, other: Tally) -> Tally {
        Tally {
            pairs: self.pairs.wrapping_sub(other.pairs),
            keys: self.keys.wrapping_sub(other.keys),
            values: self.values.wrapping_sub(other.values),
        }
    }

    /// Of a key, if it has a value.
    fn of(key: u64, value: Option<u64>) -> Tally {
        match value {
            Some(value) => Tally {
                pairs: 1,
                keys: key,
                values: value,
            },
            None => Tally::NONE,
        }
    }

    /// Of these pairs.
    fn of_all(pairs: &[(u64, u64)]) -> Tally {
        let mut all = Tally::NONE;
        for (key, value) in pairs {
            all = all.and(Tally::of(*key, Some(*value)));
        }
        all
    }
}

/// An edit of a drawn key, or of an end. No two put in the same value.
fn drawn(number: u64) -> Call<u64, u64> {
    let draw = stirred(number);
    let key = 1 + draw / 16 % KEYS;
    match draw % 16 {
        0..=7 => Insert(key, number),
        8 | 9 => InsertNew(key, number),
        10..=13 => Delete(key),
        14 => PopFirst,
        _ => PopLast,
    }
}

impl<'a, B: FilledOnce> Worker<'a, B> {
    /// Makes an edit, and answers by how much the pairs have become more: none, if it was refused.
    fn made(&mut self, edit: Call<u64, u64>) -> Option<Tally>
        ensures { self.new.forest.now ≡ self.old.forest.now }
    {
        let Some((key, old, new)) = self.change(edit)? else {
            return Some(Tally::NONE);
        };
        Some(Tally::of(key, new).less(Tally::of(key, old)))
    }

    /// What a thread does in a round, and by how much the pairs have become more by it.
    fn work(&mut self, time: u64) -> Option<Tally>
        ensures { self.new.forest.now ≡ self.old.forest.now }
    {
        let worker = time.wrapping_mul(MOST_THREADS).wrapping_add(self.number());
        let mut all = Tally::NONE;
        for call in 0..CALLS {
            let number = worker.wrapping_mul(CALLS).wrapping_add(call);
            all = all.and(self.made(drawn(number))?);
        }
        Some(all)
    }

    /// Whether these are just the pairs that it finds, one above the other. No key is 0.
    fn finds(&mut self, pairs: &[(u64, u64)]) -> bool
        ensures { self.new.forest.now ≡ self.old.forest.now }
    {
        let mut before = 0;
        for pair in pairs {
            if self.make(Successor(before)) != Reply::Pair(Some(*pair)) {
                return false;
            }
            before = pair.0;
        }
        self.make(Successor(before)) == Reply::Pair(None)
    }
}

/// The same of a thread, with its pass.
fn work<B: FilledOnce>(
    alloc: Global,
    forest: &Forest<Numbers<B>>,
    time: u64,
    pass: Pass<Numbers<B>>,
) -> (Pass<Numbers<B>>, Option<Tally>)
    requires { IsOf forest.now pass }
    ensures { IsOf forest.now result.0 }
{
    let mut worker = Worker::new(alloc, forest, pass);
    let more = worker.work(time);
    (worker.pass, more)
}

/// The pairs that there were, with what all threads have added.
fn with_all(before: &[(u64, u64)], added: &[Option<Tally>]) -> Option<Tally> {
    let mut all = Tally::of_all(before);
    for more in added {
        all = all.and((*more)?);
    }
    Some(all)
}

/// The limits of the one after this time: mostly the same, now and then others.
fn next_limits(time: u64) -> Limits {
    match time % 4 {
        1 => limits(THREADS, SHARE + 1_000, SHARE),
        3 => limits(THREADS + 1, SHARE, SHARE - 1_000),
        _ => limits(THREADS, SHARE, SHARE),
    }
}

/// The next dictionary, of which a pass has found just these pairs.
fn next<B: FilledOnce>(
    rt: &impl Abort,
    alloc: Global,
    closed: &Closed<Numbers<B>>,
    time: u64,
    pairs: &[(u64, u64)],
) -> Result<Opened<B>, Fail>
    ensures { IfOk result (λ r. All (IsOf r.0) r.1.items) }
{
    let Ok((forest, mut passes)) = closed.renewed(alloc, next_limits(time)) else {
        return Err("not renewed".into());
    };
    let Some(pass) = passes.pop() else {
        return Err("no pass".into());
    };
    let mut worker = Worker::new(alloc, &forest, pass);
    assert!(rt; worker.finds(pairs));
    passes.push(worker.pass)?;
    Ok((forest, passes))
}

/// The passes work, each in a thread of its own, on a dictionary that began with these pairs. Those
/// that are left are what they say, and the next dictionary begins with them.
fn renewed<R: Threads + Sync + Abort, B: FilledOnce + Send + Sync>(
    rt: &R,
    alloc: Global,
    opened: Opened<B>,
    time: u64,
    before: &[(u64, u64)],
) -> Result<(Forest<Numbers<B>>, Vec<Pass<Numbers<B>>>, Vec<(u64, u64)>), Fail>
    requires { All (IsOf opened.0) opened.1.items }
    ensures { IfOk result (λ r. All (IsOf r.0) r.1.items) }
{
    let (forest, passes) = opened;
    let workers = map_vec(rt, passes, &|pass| work(alloc, &forest, time, pass))?;
    let (passes, added) = part(alloc, &forest, workers)?;
    let Some(closed) = closed(forest, passes) else {
        return Err("a pass is missing".into());
    };
    let Ok(pairs) = closed.pairs(alloc) else {
        return Err("no memory".into());
    };
    assert_eq!(rt; with_all(before, &added), Some(Tally::of_all(&pairs)));
    let (forest, passes) = next(rt, alloc, &closed, time, &pairs)?;
    Ok((forest, passes, pairs))
}

/// Threads work on a dictionary of this shape, which is renewed again and again.
fn renewals_are_right<R: Threads + Sync + Abort, B: FilledOnce + Send + Sync>(
    rt: &R,
    alloc: Global,
) -> Result<(), Fail> {
    let Ok((mut forest, mut passes)) = Forest::<Numbers<B>>::new(alloc, next_limits(0)) else {
        return Err("no forest".into());
    };
    let mut pairs = Vec::new(alloc);
    for time in 0..TIMES {
        (forest, passes, pairs) = renewed(rt, alloc, (forest, passes), time, &pairs)?;
        assert!(rt; !pairs.is_empty());
    }
    Ok(())
}

#[test]
fn ten_renewals_keep_the_pairs(rt: HostRuntime) -> Result<(), Fail> {
    renewals_are_right::<HostRuntime, ByOrder>(&rt, rt.alloc())?;
    renewals_are_right::<HostRuntime, ByBits>(&rt, rt.alloc())
}
