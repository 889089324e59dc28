//! Threads that change the same cells.
ghost use Rattle.std.specs.Prelude.{◌≡◌, ◌≢◌, ◌≤◌, IfOk};
ghost use Rattle.std.specs.List.{All};
ghost use Rattle.tables.specs.Passes.{IsOf};

use super::{Fields, end, fields, limits, put};
use crate::same::same;
use arena::{NodeNo, Side};
use forest::{Closed, Forest, Full, Pass};
use prims::{Cells, Llx, Scx};
use std::alloc::{AllocError, Global};
use std::test::Fail;
use std::thread::{Threads, map_vec};

/// How many rounds a thread makes, and how many nodes and SCX-records it has for them.
const ROUNDS: u32 = 1000;

/// What a thread does in each of its rounds.
#[derive(Clone, Copy)]
enum Work {
    /// It puts a fresh cell into the left field of cell 1.
    One,
    /// It puts a fresh cell into a field of one of four cells, if that and the next are as found.
    Four,
}

/// How the rounds of a thread ended, and what is left of its share.
#[derive(Clone, Copy, Debug, Default)]
struct Tally {
    done: u32,
    lost: u32,
    fail: u32,
    refused: u32,
    left: (u32, u32),
}

impl Tally {
    /// One round more has ended so: with no SCX where an LLX gave no snapshot.
    fn count(&mut self, end: Option<Result<Scx, Full>>) {
        let count = match end {
            Some(Ok(Scx::Done)) => &mut self.done,
            Some(Ok(Scx::Lost { node: _, scx: _ })) => &mut self.lost,
            Some(Err(_)) => &mut self.refused,
            None => &mut self.fail,
        };
        *count = count.saturating_add(1);
    }

    /// No SCX was refused, and each has taken a node and an SCX-record.
    fn agrees(&self) -> bool {
        let calls = self.done.saturating_add(self.lost);
        self.refused == 0
            && calls.saturating_add(self.fail) == ROUNDS
            && calls.saturating_add(self.left.0) == ROUNDS
            && calls.saturating_add(self.left.1) == ROUNDS
    }
}

/// Puts a fresh cell into a field of the first of two cells, if LLXs give snapshots of both.
fn put_in_two(
    forest: &Forest<Cells>,
    pass: &mut Pass<Cells>,
    cells: (NodeNo, NodeNo),
    side: Side,
) -> Option<Result<Scx, Full>>
    requires pass { IsOf forest.now pass.old }
    requires cells { (cells.0.0 ≤ 8) × (cells.1.0 ≤ 8) }
    requires apart { cells.0.0 ≢ cells.1.0 }
    ensures { IsOf forest.now pass.new }
{
    let one = forest.llx(pass, cells.0);
    let other = forest.llx(pass, cells.1);
    match (one, other) {
        (Llx::Snapshot(a), Llx::Snapshot(b)) => {
            Some(forest.scx(pass, &[a, b], &[], (cells.0, side), 1))
        }
        _ => None,
    }
}

/// A round at one of four cells, and the next of them.
fn put_in_four(
    forest: &Forest<Cells>,
    pass: &mut Pass<Cells>,
    round: u32,
) -> Option<Result<Scx, Full>>
    requires { IsOf forest.now pass.old }
    ensures { IsOf forest.now pass.new }
{
    let one = u64::from(round % 4);
    let next = (one + 1) % 4;
    let side = if round % 8 < 4 {
        Side::Left
    } else {
        Side::Right
    };
    put_in_two(forest, pass, (NodeNo(one + 1), NodeNo(next + 1)), side)
}

/// The rounds of a thread.
fn make_rounds(forest: &Forest<Cells>, kind: Work, mut pass: Pass<Cells>) -> (Pass<Cells>, Tally)
    requires { IsOf forest.now pass }
    ensures { IsOf forest.now result.0 }
{
    let first = pass.number().0;
    let mut tally = Tally::default();
    for round in 0..ROUNDS {
        let end = match kind {
            Work::One => put(forest, &mut pass, NodeNo(1)),
            Work::Four => put_in_four(forest, &mut pass, first.wrapping_add(round)),
        };
        tally.count(end);
    }
    tally.left = pass.left();
    (pass, tally)
}

/// Each pass works in a thread of its own.
fn crowd<R: Threads + Sync>(
    rt: &R,
    forest: &Forest<Cells>,
    kind: Work,
    passes: Vec<Pass<Cells>>,
) -> Result<Vec<(Pass<Cells>, Tally)>, AllocError>
    requires { All (IsOf forest.now) passes.items }
    ensures { IfOk result (λ ws. All (λ w. IsOf forest.now w.0) ws.items) }
{
    map_vec(rt, passes, &|pass| make_rounds(forest, kind, pass))
}

/// The passes, and their counts.
fn part(
    alloc: Global,
    forest: &Forest<Cells>,
    workers: Vec<(Pass<Cells>, Tally)>,
) -> Result<(Vec<Pass<Cells>>, Vec<Tally>), AllocError>
    requires { All (λ w. IsOf forest.now w.0) workers.items }
    ensures { IfOk result (λ r. All (IsOf forest.now) r.0.items) }
{
    let mut passes = Vec::new(alloc);
    let mut tallies = Vec::new(alloc);
    for (pass, tally) in workers {
        passes.push(pass)?;
        tallies.push(tally)?;
    }
    Ok((passes, tallies))
}

/// A pass meets each of some.
fn meet_each(
    alloc: Global,
    forest: &Forest<Cells>,
    one: &mut Pass<Cells>,
    passes: Vec<Pass<Cells>>,
) -> Result<Vec<Pass<Cells>>, AllocError>
    requires one { IsOf forest.now one.old }
    requires passes { All (IsOf forest.now) passes.items }
    ensures one { IsOf forest.now one.new }
    ensures passes { IfOk result (λ ps. All (IsOf forest.now) ps.items) }
{
    let mut met = Vec::new(alloc);
    for mut pass in passes {
        forest.meet(one, &mut pass);
        met.push(pass)?;
    }
    Ok(met)
}

/// All passes meet: the last comes to know what each of them knew, and then each of them does.
fn meet_all(
    alloc: Global,
    forest: &Forest<Cells>,
    mut passes: Vec<Pass<Cells>>,
) -> Result<Vec<Pass<Cells>>, AllocError>
    requires { All (IsOf forest.now) passes.items }
    ensures { IfOk result (λ ps. All (IsOf forest.now) ps.items) }
{
    let Some(mut last) = passes.pop() else {
        return Ok(passes);
    };
    let passes = meet_each(alloc, forest, &mut last, passes)?;
    let mut passes = meet_each(alloc, forest, &mut last, passes)?;
    passes.push(last)?;
    Ok(passes)
}

/// The fields of the four cells, as a pass finds them.
fn look(forest: &Forest<Cells>, pass: &mut Pass<Cells>) -> [Fields; 4]
    requires { IsOf forest.now pass.old }
    ensures { IsOf forest.now pass.new }
{
    [
        fields(forest.llx(pass, NodeNo(1))),
        fields(forest.llx(pass, NodeNo(2))),
        fields(forest.llx(pass, NodeNo(3))),
        fields(forest.llx(pass, NodeNo(4))),
    ]
}

/// What each pass finds.
fn look_all(
    alloc: Global,
    forest: &Forest<Cells>,
    passes: Vec<Pass<Cells>>,
) -> Result<(Vec<Pass<Cells>>, Vec<[Fields; 4]>), AllocError>
    requires { All (IsOf forest.now) passes.items }
    ensures { IfOk result (λ r. All (IsOf forest.now) r.0.items) }
{
    let mut back = Vec::new(alloc);
    let mut found = Vec::new(alloc);
    for mut pass in passes {
        found.push(look(forest, &mut pass))?;
        back.push(pass)?;
    }
    Ok((back, found))
}

/// How a race ended: what each thread counted, what each pass found after all had met, and the
/// words.
#[derive(Drop)]
struct Ended {
    tallies: Vec<Tally>,
    found: Vec<[Fields; 4]>,
    closed: Closed<Cells>,
}

impl Ended {
    /// The fields of the four cells.
    fn cells(&self) -> [Fields; 4] {
        [
            self.closed.cell(NodeNo(1)),
            self.closed.cell(NodeNo(2)),
            self.closed.cell(NodeNo(3)),
            self.closed.cell(NodeNo(4)),
        ]
    }

    /// Each thread's counts agree with what is left of its share.
    fn counts_agree(&self) -> bool {
        self.tallies.iter().all(|tally| tally.agrees())
    }

    /// Each pass found what the words say.
    fn found_agree(&self) -> bool {
        let cells = self.cells();
        self.found.iter().all(|found| *found == cells)
    }

    fn has_done(&self, pass: u64) -> bool {
        match self.tallies.get(pass as usize) {
            Some(tally) => tally.done > 0,
            None => false,
        }
    }

    /// Whether a field is as at the start, or holds a node of the share of a thread that had a
    /// Done.
    fn is_of_winner(&self, field: u64) -> bool {
        match field.checked_sub(9) {
            Some(taken) => self.has_done(taken / u64::from(ROUNDS)),
            None => field == 0,
        }
    }

    /// Each field of the four cells is such a one.
    fn are_of_winners(&self) -> bool {
        self.cells().iter().all(|cell| match cell {
            Some((left, right)) => self.is_of_winner(*left) && self.is_of_winner(*right),
            None => false,
        })
    }
}

/// This many threads work, and then all passes meet, and the forest is closed.
fn race<R: Threads + Sync>(rt: &R, alloc: Global, threads: u32, kind: Work) -> Result<Ended, Fail> {
    let Ok((forest, passes)) = Forest::<Cells>::new(alloc, limits(threads, ROUNDS, ROUNDS)) else {
        return Err("no forest".into());
    };
    let workers = crowd(rt, &forest, kind, passes)?;
    let (passes, tallies) = part(alloc, &forest, workers)?;
    let passes = meet_all(alloc, &forest, passes)?;
    let (passes, found) = look_all(alloc, &forest, passes)?;
    let Some(closed) = end(forest, passes) else {
        return Err("a pass is missing".into());
    };
    Ok(Ended {
        tallies,
        found,
        closed,
    })
}

#[test]
fn threads_share_cells(rt: HostRuntime) -> Result<(), Fail> {
    for (threads, kind) in [(2, Work::One), (8, Work::Four)] {
        let ended = race(&rt, rt.alloc(), threads, kind)?;
        let many = threads as usize;
        same(&rt, [ended.tallies.len(), ended.found.len()], [many; 2]);
        let is_right = ended.counts_agree() && ended.found_agree() && ended.are_of_winners();
        assert!(rt; is_right, "{threads}");
        if let Work::One = kind {
            let cells = ended.cells();
            assert!(rt; matches!(cells[0], Some((left, 0)) if left > 0));
            same(&rt, [cells[1], cells[2], cells[3]], [Some((0, 0)); 3]);
        }
    }
    Ok(())
}
