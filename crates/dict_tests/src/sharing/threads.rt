//! Threads that change one dictionary.
ghost use Rattle.std.specs.Prelude.{◌≡◌, IfOk};
ghost use Rattle.std.specs.List.{All};
ghost use Rattle.tables.specs.Passes.{IsOf};

use super::call::Call::{
    self, Delete, DeleteIf, Get, Insert, InsertNew, PopFirst, PopLast, Predecessor, Range,
    ReplaceIf, Successor,
};
use super::call::pairs_told;
use super::held::Numbers;
use super::schedules::WAITING;
use super::worker::{MOST_ASKS, Out, Worker, weight};
use super::{end, limits};
use dict::{ByBits, ByOrder, Reply};
use forest::{FilledOnce, Forest, Pass};
use std::alloc::{AllocError, Global};
use std::process::Abort;
use std::test::Fail;
use std::thread::{Threads, map_vec};

/// How many rounds a thread makes.
const ROUNDS: u64 = 1000;

/// How many keys the window has.
const WINDOW: u64 = 20;

/// How many threads put in the same keys.
const RIVALS: u64 = 8;

/// What a thread does in each of its rounds.
#[derive(Clone, Copy)]
enum Work {
    /// It puts in a key that no other of this many threads has.
    Own { threads: u64 },
    /// It puts in a key where it is absent, which the others do too, with a value of its own. That
    /// comes out if it was put in.
    New,
    /// It puts in or takes out one of a hundred keys.
    Mixed,
    /// The first thread moves a window of keys, and the others look at it.
    Window,
    /// The first thread puts in this many keys.
    First { keys: u64 },
    /// It takes out the first pair, or, where its number is odd, the last.
    Pop,
    /// It makes one of the eleven calls in each of its first rounds. What this adds to the sum of
    /// the pairs comes out.
    Any { rounds: u64 },
    /// It puts in keys that rise, and takes the first pair out after each, as two schedulers' threads
    /// do. What this adds to the sum of the pairs comes out.
    Schedule,
    /// It adds one to the value of the key 0 in each of its first rounds.
    Count { rounds: u64 },
}

/// What came out in each round.
type Outs = [Out; ROUNDS as usize];

/// What a key had, as a reply says; of a pop, whose values are their keys, the value.
fn told(reply: Reply<u64, u64>) -> Out {
    match reply {
        Reply::Value(old) => Some(old),
        Reply::Pair(None) => Some(None),
        Reply::Pair(Some((key, value))) if key == value => Some(Some(value)),
        _ => None,
    }
}

/// Whether this was answered.
fn is_told(out: Out, want: Option<u64>) -> Out {
    if out? == want { Some(None) } else { None }
}

/// Whether these are the pairs of a window: of its keys or of one more, each one above the one
/// before; or of fewer from 0 on.
fn is_window(pairs: &[(u64, u64)]) -> bool {
    let many = pairs.len() as u64;
    let first = match pairs.first() {
        Some((key, _)) => *key,
        None => 0,
    };
    let mut keys = pairs
        .iter()
        .map(|(key, _)| key.wrapping_sub(first))
        .enumerate();
    let steps = keys.all(|(place, above)| place as u64 == above);
    steps && (many == WINDOW || many == WINDOW + 1 || first == 0 && many < WINDOW)
}

/// Puts in or takes out a key by turns. No two rounds of all threads put in the same value.
fn mixed(value: u64) -> Call<u64, u64> {
    let key = stirred(value) % 100;
    if value % 2 == 0 {
        Insert(key, value)
    } else {
        Delete(key)
    }
}

/// One of the eleven calls, on one of a hundred keys with two of four values.
fn any(draw: u64) -> Call<u64, u64> {
    let (key, value, other) = (draw / 16 % 100, draw / 1600 % 4, draw / 6400 % 4);
    match draw % 16 {
        0 => Get(key),
        1 => Successor(key),
        2 => Predecessor(key),
        3 => Range(key, u64::MAX, 10),
        4 => PopFirst,
        5 => PopLast,
        6 => Delete(key),
        7 | 8 => DeleteIf(key, value),
        9 | 10 => ReplaceIf(key, value, other),
        11..=13 => InsertNew(key, value),
        _ => Insert(key, value),
    }
}

/// A number that depends on all of this one.
pub(super) fn stirred(number: u64) -> u64 {
    number.wrapping_mul(11_400_714_819_323_198_485) / 65_536
}

/// Whether a thread has nothing to do in this round any more.
fn is_over(work: Work, number: u64, round: u64) -> bool {
    match work {
        Work::First { keys } => number != 0 || keys <= round,
        Work::Any { rounds } | Work::Count { rounds } => rounds <= round,
        _ => false,
    }
}

/// The pop of a thread of this number: half of them take pairs out at one end, half at the other.
fn pop_of(number: u64) -> Call<u64, u64> {
    if number % 2 == 0 { PopFirst } else { PopLast }
}

impl<'a, B: FilledOnce> Worker<'a, B> {
    /// Makes an edit.
    fn edit(&mut self, edit: Call<u64, u64>) -> Out
        ensures { self.new.forest.now ≡ self.old.forest.now }
    {
        told(self.ask(edit)?)
    }

    /// Adds one to the value of the key 0, and answers what it was. If another thread has changed it
    /// meanwhile, or was in the way, it is read again.
    fn count_up(&mut self) -> Out
        ensures { self.new.forest.now ≡ self.old.forest.now }
    {
        for _ask in 0..MOST_ASKS {
            let value = told(self.make(Get(0)))??;
            let edit = ReplaceIf(0, value, value.wrapping_add(1));
            if told(self.make(edit)) == Some(Some(value)) {
                return Some(Some(value));
            }
        }
        None
    }

    /// Puts a key in that is not there, with itself as its value.
    fn put_same(&mut self, key: u64) -> Out
        ensures { self.new.forest.now ≡ self.old.forest.now }
    {
        is_told(self.edit(Insert(key, key)), None)
    }

    /// Puts in a key where it is absent, with this thread's value of it, which is answered if it
    /// was. If it was not, the key had the value of another thread.
    fn put_new(&mut self, key: u64) -> Out
        ensures { self.new.forest.now ≡ self.old.forest.now }
    {
        let value = key.wrapping_mul(RIVALS).wrapping_add(self.number());
        match self.edit(InsertNew(key, value))? {
            None => Some(Some(value)),
            Some(other) if other / RIVALS == key && other != value => Some(None),
            Some(_) => None,
        }
    }

    /// Puts in the key after the window's last, and takes out its first once there are enough.
    fn move_window(&mut self, round: u64) -> Out
        ensures { self.new.forest.now ≡ self.old.forest.now }
    {
        self.put_same(round)?;
        match round.checked_sub(WINDOW) {
            Some(first) => is_told(self.edit(Delete(first)), Some(first)),
            None => Some(None),
        }
    }

    /// Looks at the window, and answers how many keys it has seen. A look that is refused sees
    /// nothing.
    fn see_window(&mut self) -> Out
        ensures { self.new.forest.now ≡ self.old.forest.now }
    {
        match pairs_told(self.make(Range(0, u64::MAX, 64))) {
            Some(pairs) if is_window(&pairs) => Some(Some(pairs.len() as u64)),
            Some(_) => None,
            None => Some(None),
        }
    }

    /// A round of a thread.
    fn make_round(&mut self, work: Work, round: u64) -> Out
        ensures { self.new.forest.now ≡ self.old.forest.now }
    {
        let number = self.number();
        if is_over(work, number, round) {
            return Some(None);
        }
        // In no order, so that the tree does not grow to one side.
        let place = round.wrapping_mul(377) % ROUNDS;
        let value = number.wrapping_mul(ROUNDS).wrapping_add(round);
        match work {
            Work::Own { threads } => {
                self.put_same(threads.wrapping_mul(place).wrapping_add(number))
            }
            Work::New => self.put_new(place),
            Work::Mixed => self.edit(mixed(value)),
            Work::Window if number == 0 => self.move_window(round),
            Work::Window => self.see_window(),
            Work::First { .. } => self.put_same(round),
            Work::Pop => self.edit(pop_of(number)),
            Work::Any { .. } => self.add_up(any(stirred(value))),
            Work::Schedule => self.schedule_all(round),
            Work::Count { .. } => self.count_up(),
        }
    }
}

/// The rounds of a thread.
fn make_rounds<B: FilledOnce>(
    alloc: Global,
    forest: &Forest<Numbers<B>>,
    work: Work,
    pass: Pass<Numbers<B>>,
) -> (Pass<Numbers<B>>, Outs)
    requires { IsOf forest.now pass }
    ensures { IsOf forest.now result.0 }
{
    let mut worker = Worker::new(alloc, forest, pass);
    let mut outs = [None; ROUNDS as usize];
    for round in 0..ROUNDS {
        outs[round as usize] = worker.make_round(work, round);
    }
    (worker.pass, outs)
}

/// The passes, and what came out.
pub(super) fn part<B: FilledOnce, T: Drop>(
    alloc: Global,
    forest: &Forest<Numbers<B>>,
    workers: Vec<(Pass<Numbers<B>>, T)>,
) -> Result<(Vec<Pass<Numbers<B>>>, Vec<T>), AllocError>
    requires { All (λ w. IsOf forest.now w.0) workers.items }
    ensures { IfOk result (λ r. All (IsOf forest.now) r.0.items) }
{
    let mut passes = Vec::new(alloc);
    let mut all = Vec::new(alloc);
    for (pass, outs) in workers {
        passes.push(pass)?;
        all.push(outs)?;
    }
    Ok((passes, all))
}

/// How a race ended: what came out in each thread's rounds, and the pairs that are left.
#[derive(Drop)]
struct Ended {
    outs: Vec<Outs>,
    pairs: Vec<(u64, u64)>,
}

impl Ended {
    /// Each round of each thread was right.
    fn are_right(&self) -> bool {
        self.outs
            .iter()
            .all(|outs| outs.iter().all(|out| out.is_some()))
    }

    /// The values that came out, in their order.
    fn come(&self, alloc: Global) -> Result<Vec<u64>, AllocError> {
        let mut values = Vec::new(alloc);
        for outs in &self.outs {
            for out in outs {
                if let Some(Some(value)) = out {
                    values.push(*value)?;
                }
            }
        }
        values.sort_unstable();
        Ok(values)
    }

    /// These values and those that are left, in their order.
    fn with_left(&self, mut values: Vec<u64>) -> Result<Vec<u64>, AllocError> {
        for (_, value) in &self.pairs {
            values.push(*value)?;
        }
        values.sort_unstable();
        Ok(values)
    }

    /// These are the values that are left.
    fn are_left(&self, values: &[u64]) -> bool {
        let mut both = values.iter().zip(self.pairs.iter());
        values.len() == self.pairs.len() && both.all(|(value, pair)| *value == pair.1)
    }

    /// These add up to the sum of the pairs that are left.
    fn are_sum(&self, values: &[u64]) -> bool {
        let mut sum = 0u64;
        for value in values {
            sum = sum.wrapping_add(*value);
        }
        for (key, value) in &self.pairs {
            sum = sum.wrapping_sub(weight(*key, Some(*value)));
        }
        sum == 0
    }

    /// This came out.
    fn have_come(&self, alloc: Global, come: Come) -> Result<bool, AllocError> {
        let values = self.come(alloc)?;
        match come {
            Come::Some => Ok(!values.is_empty()),
            Come::Steps(many, step) => Ok(are_steps(&self.with_left(values)?, (many, step))),
            Come::Left => Ok(self.are_left(&values)),
            Come::Sum => Ok(!values.is_empty() && self.are_sum(&values)),
        }
    }

    /// There are this many pairs: these keys one above the other.
    fn has_keys(&self, first: u64, many: usize) -> bool {
        let mut pairs = self.pairs.iter().enumerate();
        self.pairs.len() == many
            && pairs.all(|(place, pair)| pair.0 == first.wrapping_add(place as u64))
    }

    /// These pairs are left.
    fn have_left(&self, left: Left) -> bool {
        let mut pairs = self.pairs.iter();
        match left {
            Left::Keys(first, many) => {
                self.has_keys(first, many) && pairs.all(|(key, value)| key == value)
            }
            Left::News(many) => {
                self.has_keys(0, many) && pairs.all(|(key, value)| *key == value / RIVALS)
            }
            Left::Count(value) => self.pairs.as_slice() == [(0, value)].as_slice(),
            Left::Many(many) => self.pairs.len() == many,
            Left::Some => true,
        }
    }

    /// All is right, these pairs are left, and this came out.
    fn is_as(&self, rt: &impl Abort, alloc: Global, left: Left, come: Come) -> Result<(), Fail> {
        assert!(rt; self.are_right());
        assert!(rt; self.have_left(left));
        assert!(rt; self.have_come(alloc, come)?);
        Ok(())
    }
}

/// The pairs that are left.
#[derive(Clone, Copy)]
enum Left {
    /// This many keys from this one on, each with itself.
    Keys(u64, usize),
    /// This many keys from 0 on, each with the value of one thread.
    News(usize),
    /// The key 0, with this value.
    Count(u64),
    /// This many.
    Many(usize),
    /// Any.
    Some,
}

/// What came out.
#[derive(Clone, Copy)]
enum Come {
    /// Some value.
    Some,
    /// With what is left this many values, which rise by this step from 0 on.
    Steps(usize, u64),
    /// The values that are left, each once.
    Left,
    /// Some values, which add up to the sum of the pairs that are left.
    Sum,
}

/// Whether these are `many` numbers from 0 on, each by this step above the one before.
fn are_steps(values: &[u64], (many, step): (usize, u64)) -> bool {
    let mut places = values.iter().enumerate();
    values.len() == many && places.all(|(place, value)| *value == step.wrapping_mul(place as u64))
}

/// The passes work, each in a thread of its own.
fn worked<R: Threads + Sync, B: FilledOnce + Send + Sync>(
    rt: &R,
    alloc: Global,
    forest: &Forest<Numbers<B>>,
    work: Work,
    passes: Vec<Pass<Numbers<B>>>,
) -> Result<(Vec<Pass<Numbers<B>>>, Vec<Outs>), AllocError>
    requires { All (IsOf forest.now) passes.items }
    ensures { IfOk result (λ r. All (IsOf forest.now) r.0.items) }
{
    let workers = map_vec(rt, passes, &|pass| make_rounds(alloc, forest, work, pass))?;
    part(alloc, forest, workers)
}

/// This many threads do these works, one after the other, and then the forest is closed. The result
/// is that of the second.
fn raced<R: Threads + Sync, B: FilledOnce + Send + Sync>(
    rt: &R,
    alloc: Global,
    threads: u32,
    works: [Work; 2],
) -> Result<Ended, Fail> {
    let share = match threads {
        0..=2 => 32_768,
        3..=8 => 20_000,
        _ => 2_000,
    };
    let Ok((forest, passes)) = Forest::<Numbers<B>>::new(alloc, limits(threads, share, share))
    else {
        return Err("no forest".into());
    };
    let (passes, _) = worked(rt, alloc, &forest, works[0], passes)?;
    let (passes, outs) = worked(rt, alloc, &forest, works[1], passes)?;
    match end(alloc, forest, passes) {
        Some(pairs) => Ok(Ended { outs, pairs }),
        None => Err("a pass is missing".into()),
    }
}

/// This many threads; what they do before and in a race; and how it is to end.
type Race = (u32, [Work; 2], Left, Come);

/// Nothing is put in before a race.
const NOTHING: Work = Work::First { keys: 0 };

const RACES: [Race; 7] = [
    (
        2,
        [NOTHING, Work::Own { threads: 2 }],
        Left::Keys(0, 2000),
        Come::Steps(2000, 1),
    ),
    (
        RIVALS as u32,
        [NOTHING, Work::New],
        Left::News(1000),
        Come::Left,
    ),
    (8, [NOTHING, Work::Mixed], Left::Some, Come::Steps(4000, 2)),
    (4, [NOTHING, Work::Window], Left::Keys(980, 20), Come::Some),
    // Two at each end.
    (
        4,
        [Work::Own { threads: 4 }, Work::Pop],
        Left::Keys(0, 0),
        Come::Steps(4000, 1),
    ),
    (
        32,
        [NOTHING, Work::Any { rounds: 50 }],
        Left::Some,
        Come::Sum,
    ),
    (
        8,
        [Work::First { keys: 1 }, Work::Count { rounds: 500 }],
        Left::Count(4000),
        Come::Steps(4001, 1),
    ),
];

/// Two schedulers' threads.
const SCHEDULE: Race = (2, [NOTHING, Work::Schedule], Left::Many(WAITING), Come::Sum);

/// Each of these races on a dictionary of this kind is as it is to be.
fn races_are_right<R: Threads + Sync + Abort, B: FilledOnce + Send + Sync>(
    rt: &R,
    alloc: Global,
    races: &[Race],
) -> Result<(), Fail> {
    for (threads, works, left, come) in races {
        let ended = raced::<R, B>(rt, alloc, *threads, *works)?;
        ended.is_as(rt, alloc, *left, *come)?;
    }
    Ok(())
}

#[test]
fn threads_share_a_tree(rt: HostRuntime) -> Result<(), Fail> {
    races_are_right::<HostRuntime, ByOrder>(&rt, rt.alloc(), &RACES)
}

#[test]
fn threads_share_a_trie(rt: HostRuntime) -> Result<(), Fail> {
    races_are_right::<HostRuntime, ByBits>(&rt, rt.alloc(), &RACES)
}

/// So many races of two schedulers' threads make a million calls.
const SCHEDULES: usize = 65;

#[test]
fn two_schedulers_share_a_trie(rt: HostRuntime) -> Result<(), Fail> {
    races_are_right::<HostRuntime, ByBits>(&rt, rt.alloc(), &[SCHEDULE; SCHEDULES])
}
