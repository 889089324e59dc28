//! A pass at work on a dictionary of numbers that it shares.
ghost use Rattle.std.specs.Prelude.{◌≡◌};
ghost use Rattle.tables.specs.Passes.{IsOf};

use super::call::Call::{self, Delete, DeleteIf, Insert, InsertNew, PopFirst, PopLast, ReplaceIf};
use super::held::Numbers;
use dict::Reply;
use forest::{FilledOnce, Forest, Pass};
use std::alloc::Global;

/// How often a call that was contended is asked again.
pub(super) const MOST_ASKS: u32 = 1000;

/// What came out in a round of a thread, where it was right.
pub(super) type Out = Option<Option<u64>>;

/// A key that has changed, with the value that it had, and the one that it has now.
type Change = (u64, Option<u64>, Option<u64>);

/// What a call has changed, if it replies this.
fn changed(call: Call<u64, u64>, reply: &Reply<u64, u64>) -> Option<Change> {
    match (call, reply) {
        (Insert(key, value), Reply::Value(old)) => Some((key, *old, Some(value))),
        (InsertNew(key, value), Reply::Value(None)) => Some((key, None, Some(value))),
        (Delete(key), Reply::Value(old)) => Some((key, *old, None)),
        (DeleteIf(key, expected), Reply::Value(Some(old))) if *old == expected => {
            Some((key, Some(*old), None))
        }
        (ReplaceIf(key, expected, value), Reply::Value(Some(old))) if *old == expected => {
            Some((key, Some(*old), Some(value)))
        }
        (PopFirst | PopLast, Reply::Pair(Some(pair))) => Some((pair.0, Some(pair.1), None)),
        _ => None,
    }
}

/// What a key with this value, if it has one, is to the sum of the pairs.
pub(super) fn weight(key: u64, value: Option<u64>) -> u64 {
    match value {
        Some(value) => key.wrapping_mul(1000).wrapping_add(value),
        None => 0,
    }
}

/// A pass, and what each of its calls needs besides.
#[derive(Drop)]
pub(super) struct Worker<'a, B: FilledOnce> {
    alloc: Global,
    pub(super) forest: &'a Forest<Numbers<B>>,
    pub(super) pass: Pass<Numbers<B>>,
    ghost of: { IsOf forest.now pass },
}

impl<'a, B: FilledOnce> Worker<'a, B> {
    pub(super) fn new(
        alloc: Global,
        forest: &'a Forest<Numbers<B>>,
        pass: Pass<Numbers<B>>,
    ) -> Worker<'a, B>
        requires { IsOf forest.now pass }
        ensures { result.forest.now ≡ forest.now }
    {
        Worker {
            alloc,
            forest,
            pass,
        }
    }

    /// Makes a call.
    pub(super) fn make(&mut self, call: Call<u64, u64>) -> Reply<u64, u64>
        ensures { self.new.forest.now ≡ self.old.forest.now }
    {
        call.make(self.alloc, self.forest, &mut self.pass)
    }

    /// Makes a call, again where it was contended.
    pub(super) fn ask(&mut self, call: Call<u64, u64>) -> Option<Reply<u64, u64>>
        ensures { self.new.forest.now ≡ self.old.forest.now }
    {
        for _ask in 0..MOST_ASKS {
            match self.make(call) {
                Reply::Contended { .. } => {}
                reply => return Some(reply),
            }
        }
        None
    }

    /// Makes a call, and answers what it has changed, where it was not refused.
    pub(super) fn change(&mut self, call: Call<u64, u64>) -> Option<Option<Change>>
        ensures { self.new.forest.now ≡ self.old.forest.now }
    {
        match self.ask(call)? {
            Reply::Full(_) | Reply::NoMemory => None,
            reply => Some(changed(call, &reply)),
        }
    }

    /// Makes a call, and answers what it adds to the sum of the pairs.
    pub(super) fn add_up(&mut self, call: Call<u64, u64>) -> Out
        ensures { self.new.forest.now ≡ self.old.forest.now }
    {
        let Some((key, old, new)) = self.change(call)? else {
            return Some(None);
        };
        Some(Some(weight(key, new).wrapping_sub(weight(key, old))))
    }

    /// The number of the pass.
    pub(super) fn number(&self) -> u64 {
        u64::from(self.pass.number().0)
    }
}
