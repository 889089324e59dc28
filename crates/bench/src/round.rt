//! The rounds of a thread on cells.
ghost use Rattle.std.specs.Prelude.{◌≡◌, ◌≤◌};
ghost use Rattle.tables.specs.Passes.{IsOf};
ghost use Rattle.bench.specs.Tally.{total};

use crate::pair::Pair;
use crate::tally::{End, Tally};
use crate::work::CellWork;
use arena::{NodeNo, Side};
use forest::{Forest, Full, Pass};
use prims::{Cells, Llx, Scx};

/// All rounds of a thread.
pub fn rounds(
    forest: &Forest<Cells>,
    work: CellWork,
    calls: u32,
    mut pass: Pass<Cells>,
    pair: Pair,
) -> Tally
    requires { IsOf forest.now pass }
    ensures { total result ≡ calls }
{
    let mut tally = Tally::default();
    for _call in 0..calls {
        tally.count(round(forest, work, &mut pass, pair));
    }
    tally
}

fn round(forest: &Forest<Cells>, work: CellWork, pass: &mut Pass<Cells>, pair: Pair) -> End
    requires { IsOf forest.now pass.old }
    ensures { IsOf forest.now pass.new }
{
    match work {
        CellWork::Llx => look(forest, pass, pair.first),
        CellWork::Own | CellWork::Shared => put(forest, pass, pair.first),
        CellWork::Two => put_in_first(forest, pass, pair),
    }
}

/// Looks at a cell. The fields are read, so that no compiler leaves out what gives them.
fn look(forest: &Forest<Cells>, pass: &mut Pass<Cells>, cell: NodeNo) -> End
    requires pass { IsOf forest.now pass.old }
    requires cell { cell.0 ≤ 8 }
    ensures { IsOf forest.now pass.new }
{
    match forest.llx(pass, cell) {
        Llx::Snapshot(snap) if snap.left == snap.right => End::Done,
        _ => End::Fail,
    }
}

/// Puts a fresh cell into the left field of a cell.
fn put(forest: &Forest<Cells>, pass: &mut Pass<Cells>, cell: NodeNo) -> End
    requires pass { IsOf forest.now pass.old }
    requires cell { cell.0 ≤ 8 }
    ensures { IsOf forest.now pass.new }
{
    match forest.llx(pass, cell) {
        Llx::Snapshot(snap) => end_of(forest.scx(pass, &[snap], &[], (cell, Side::Left), 1)),
        _ => End::Fail,
    }
}

/// Puts a fresh cell into the left field of the first cell, where both are as found.
fn put_in_first(forest: &Forest<Cells>, pass: &mut Pass<Cells>, pair: Pair) -> End
    requires { IsOf forest.now pass.old }
    ensures { IsOf forest.now pass.new }
{
    let field = (pair.first, Side::Left);
    let first = forest.llx(pass, pair.first);
    let second = forest.llx(pass, pair.second);
    match (first, second) {
        (Llx::Snapshot(first), Llx::Snapshot(second)) => {
            end_of(forest.scx(pass, &[first, second], &[], field, 1))
        }
        _ => End::Fail,
    }
}

fn end_of(answer: Result<Scx, Full>) -> End {
    match answer {
        Ok(Scx::Done) => End::Done,
        Ok(Scx::Lost { node: _, scx: _ }) => End::Lost,
        Err(_) => End::Fail,
    }
}
