//! The rounds of a thread on a dictionary.
ghost use Rattle.std.specs.Prelude.{◌≡◌};
ghost use Rattle.tables.specs.Passes.{IsOf};
ghost use Rattle.bench.specs.Tally.{total};

use crate::keys::{Draw, Keys};
use crate::tally::{End, Tally, with_reply};
use crate::task::Task;
use crate::work::MapWork;
use dict::Dict;
use forest::{Forest, Keeping, OrderFault, Pass, UpdateFault};
use std::alloc::Global;

/// A dictionary of numbers of one word.
pub type Numbers<B> = Dict<u64, u64, B>;

/// The most pairs that a range may be asked for here.
const MOST_PAIRS: usize = 64;

/// All rounds of a thread.
pub fn rounds<B: Keeping>(
    alloc: Global,
    forest: &Forest<Numbers<B>>,
    task: Task,
    work: MapWork,
    mut pass: Pass<Numbers<B>>,
    mut keys: Keys,
) -> Tally
    requires { IsOf forest.now pass }
    ensures { total result ≡ task.calls }
{
    let mut tally = Tally::default();
    for call in 0..task.calls {
        let draw = keys.draw(task, work, call);
        let end = round(alloc, forest, work, &mut pass, draw, &mut tally);
        tally.count(end);
    }
    tally
}

/// A round, in which this pair may be put in.
pub fn round<B: Keeping>(
    alloc: Global,
    forest: &Forest<Numbers<B>>,
    work: MapWork,
    pass: &mut Pass<Numbers<B>>,
    draw: Draw,
    tally: &mut Tally,
) -> End
    requires { IsOf forest.now pass.old }
    ensures pass { IsOf forest.now pass.new }
    ensures total { total tally.new ≡ total tally.old }
{
    let (pair, key) = (draw.pair, &draw.pair.0);
    match work {
        MapWork::Get | MapWork::RiseGet => told(Ok(forest.get(pass, key)), tally),
        MapWork::Mix { looks } => told(mix(forest, pass, draw, looks), tally),
        MapWork::Insert | MapWork::RiseInsert => {
            told(forest.insert(pass, pair.0, pair.1), tally)
        }
        MapWork::InsertNew => told(forest.insert_new(pass, pair.0, pair.1), tally),
        MapWork::Delete => told(forest.delete(pass, key), tally),
        MapWork::DeleteIf => told(forest.delete_if(pass, key, key), tally),
        MapWork::Pop | MapWork::Schedule => told(pop(forest, work, pass, pair), tally),
        MapWork::PopLast => told(key_and_value(forest.pop_last(pass)), tally),
        MapWork::Replace => told(forest.replace_if(pass, pair.0, key, pair.0), tally),
        MapWork::Successor => told_pair(forest.successor(alloc, pass, key), tally),
        MapWork::Predecessor => told_pair(forest.predecessor(alloc, pass, key), tally),
        MapWork::Range { most } => {
            let most = most.min(MOST_PAIRS);
            told_pairs(forest.range(alloc, pass, key, &u64::MAX, most), tally)
        }
    }
}

/// Looks a key up in `looks` of a hundred rounds; else puts it in or takes it out.
fn mix<B: Keeping>(
    forest: &Forest<Numbers<B>>,
    pass: &mut Pass<Numbers<B>>,
    draw: Draw,
    looks: u64,
) -> Result<Option<u64>, UpdateFault>
    requires { IsOf forest.now pass.old }
    ensures { IsOf forest.now pass.new }
{
    let Draw { chance, pair } = draw;
    let half = 100_u64.saturating_sub(looks) / 2;
    if chance < looks {
        Ok(forest.get(pass, &pair.0))
    } else if chance - looks < half {
        forest.insert(pass, pair.0, pair.1)
    } else {
        forest.delete(pass, &pair.0)
    }
}

/// Takes the first pair out; a scheduler puts this one in.
fn pop<B: Keeping>(
    forest: &Forest<Numbers<B>>,
    work: MapWork,
    pass: &mut Pass<Numbers<B>>,
    pair: (u64, u64),
) -> Result<Option<u64>, UpdateFault>
    requires { IsOf forest.now pass.old }
    ensures { IsOf forest.now pass.new }
{
    let first = key_and_value(forest.pop_first(pass))?;
    if matches!(work, MapWork::Schedule) {
        let _ = forest.insert(pass, pair.0, pair.1)?;
    }
    Ok(first)
}

/// The sum of the key and the value of a pair that was taken out.
fn key_and_value(
    taken: Result<Option<(u64, u64)>, UpdateFault>,
) -> Result<Option<u64>, UpdateFault> {
    match taken {
        Ok(Some((key, value))) => Ok(Some(key.wrapping_add(value))),
        Ok(None) => Ok(None),
        Err(fault) => Err(fault),
    }
}

/// Notes what a call has answered as a value.
pub fn told(reply: Result<Option<u64>, UpdateFault>, tally: &mut Tally) -> End
    ensures { total tally.new ≡ total tally.old }
{
    match reply {
        Ok(value) => {
            tally.tell(match value {
                Some(value) => value.wrapping_add(1),
                None => 0,
            });
            End::Done
        }
        Err(UpdateFault::Contended { .. }) => End::Lost,
        Err(UpdateFault::Full(_)) => End::Fail,
    }
}

fn pair_word(pair: (u64, u64)) -> u64 {
    pair.0.wrapping_add(pair.1).wrapping_add(1)
}

/// Notes what a successor or a predecessor has answered.
pub fn told_pair(reply: Result<Option<(u64, u64)>, OrderFault>, tally: &mut Tally) -> End
    ensures { total tally.new ≡ total tally.old }
{
    match reply {
        Ok(Some(pair)) => tally.tell(pair_word(pair)),
        Ok(None) => tally.tell(0),
        Err(fault) => return refused(fault),
    }
    End::Done
}

/// Notes what a range has answered.
pub fn told_pairs(reply: Result<Vec<(u64, u64)>, OrderFault>, tally: &mut Tally) -> End
    ensures { total tally.new ≡ total tally.old }
{
    match reply {
        Ok(pairs) => {
            let mut checksum = tally.checksum;
            for pair in &pairs {
                checksum = with_reply(checksum, pair_word(*pair));
            }
            tally.checksum = checksum;
            End::Done
        }
        Err(fault) => refused(fault),
    }
}

fn refused(fault: OrderFault) -> End {
    match fault {
        OrderFault::Contended { .. } => End::Lost,
        OrderFault::NoMemory => End::Fail,
    }
}
