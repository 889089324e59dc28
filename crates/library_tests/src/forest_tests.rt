//! Worked runs, and threads.
ghost use Rattle.std.specs.Prelude.{◌≤◌};
ghost use Rattle.std.specs.List.{All};
ghost use Rattle.tables.specs.Passes.{IsOf};

mod runs;
mod threads;

use arena::{Limits, NodeNo, Side};
use forest::{Closed, Forest, Full, Pass};
use prims::{Cells, Llx, Scx};

/// The fields of a cell, where there are any.
type Fields = Option<(u64, u64)>;

fn limits(passes: u32, nodes: u32, scx: u32) -> Limits {
    Limits {
        passes,
        nodes,
        scx,
        tries: 1,
    }
}

/// What a snapshot says of the fields.
fn fields(llx: Llx) -> Fields {
    match llx {
        Llx::Snapshot(snap) => Some((snap.left.0, snap.right.0)),
        _ => None,
    }
}

/// Puts a fresh cell into the left field of a cell, if an LLX gives a snapshot of it.
fn put(forest: &Forest<Cells>, pass: &mut Pass<Cells>, cell: NodeNo) -> Option<Result<Scx, Full>>
    requires pass { IsOf forest.now pass.old }
    requires cell { cell.0 ≤ 8 }
    ensures { IsOf forest.now pass.new }
{
    match forest.llx(pass, cell) {
        Llx::Snapshot(snap) => Some(forest.scx(pass, &[snap], &[], (cell, Side::Left), 1)),
        _ => None,
    }
}

/// Ends the forest, if all its passes are there.
fn end(forest: Forest<Cells>, passes: Vec<Pass<Cells>>) -> Option<Closed<Cells>>
    requires { All (IsOf forest) passes.items }
{
    if forest.all_back(&passes) {
        Some(forest.close(passes))
    } else {
        None
    }
}
