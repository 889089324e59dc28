//! Worked runs.
ghost use Rattle.std.specs.Prelude.{◌≡◌, IfOk, IfSome};
ghost use Rattle.tables.specs.Passes.{IsOf};

use super::{end, fields, limits, put};
use crate::same::same;
use arena::{Limits, NodeNo, ScxNo, Side};
use forest::{Closed, Forest, Full, Pass, Resource};
use prims::{Cells, Llx, Scx, Vlx};
use std::alloc::{AllocError, Global};
use std::test::Fail;

/// A forest of two passes.
fn two(alloc: Global) -> Option<(Forest<Cells>, Pass<Cells>, Pass<Cells>)>
    ensures first { IfSome result (λ t. IsOf t.0 t.1) }
    ensures second { IfSome result (λ t. IsOf t.0 t.2) }
{
    let Ok((forest, mut passes)) = Forest::<Cells>::new(alloc, limits(2, 10, 10)) else {
        return None;
    };
    let second = passes.pop()?;
    let first = passes.pop()?;
    Some((forest, first, second))
}

/// The same for a test, which fails where there is none.
fn opened(alloc: Global) -> Result<(Forest<Cells>, Pass<Cells>, Pass<Cells>), Fail>
    ensures first { IfOk result (λ t. IsOf t.0 t.1) }
    ensures second { IfOk result (λ t. IsOf t.0 t.2) }
{
    match two(alloc) {
        Some(shared) => Ok(shared),
        None => Err("no forest".into()),
    }
}

fn end_two(
    alloc: Global,
    forest: Forest<Cells>,
    one: Pass<Cells>,
    other: Pass<Cells>,
) -> Result<Option<Closed<Cells>>, AllocError>
    requires one { IsOf forest one }
    requires other { IsOf forest other }
{
    let mut passes = Vec::new(alloc);
    passes.push(one)?;
    passes.push(other)?;
    Ok(end(forest, passes))
}

#[test]
fn the_second_of_two_loses(rt: HostRuntime) -> Result<(), Fail> {
    let (forest, mut first, mut second) = opened(rt.alloc())?;
    let (node, scx) = (NodeNo(1), ScxNo(1));
    let field = (node, Side::Left);
    let a = forest.llx(&mut first, node);
    let b = forest.llx(&mut second, node);
    same(&rt, [fields(a), fields(b)], [Some((0, 0)); 2]);
    let (Llx::Snapshot(a), Llx::Snapshot(b)) = (a, b) else {
        return Err("no snapshot".into());
    };
    let unchanged = forest.vlx(&mut first, &[a]);
    let done = forest.scx(&mut first, &[a], &[], field, 7);
    same(&rt, (unchanged, done), (Vlx::Same, Ok(Scx::Done)));
    let changed = forest.vlx(&mut second, &[b]);
    let lost = forest.scx(&mut second, &[b], &[], field, 7);
    let (was_changed, was_lost) = (Vlx::Changed { node, scx }, Scx::Lost { node, scx });
    same(&rt, (changed, lost), (was_changed, Ok(was_lost)));
    same(&rt, [first.left(), second.left()], [(9, 9); 2]);
    forest.meet(&mut first, &mut second);
    let found = fields(forest.llx(&mut second, node));
    let Some(closed) = end_two(rt.alloc(), forest, first, second)? else {
        return Err("a pass is missing".into());
    };
    let cells = [found, closed.cell(node), closed.cell(NodeNo(29))];
    same(&rt, cells, [Some((9, 0)), Some((9, 0)), None]);
    Ok(())
}

#[test]
fn a_node_is_finalized(rt: HostRuntime) -> Result<(), Fail> {
    let (forest, mut first, mut second) = opened(rt.alloc())?;
    let (n1, n2) = (NodeNo(1), NodeNo(2));
    let c = forest.llx(&mut second, n2);
    let a = forest.llx(&mut first, n1);
    let b = forest.llx(&mut first, n2);
    let (Llx::Snapshot(a), Llx::Snapshot(b), Llx::Snapshot(c)) = (a, b, c) else {
        return Err("no snapshot".into());
    };
    let done = forest.scx(&mut first, &[a, b], &[n2], (n1, Side::Left), 0);
    same(&rt, done, Ok(Scx::Done));
    let (node, scx) = (n2, ScxNo(1));
    same(
        &rt,
        forest.llx(&mut first, n2),
        Llx::Finalized { node, scx },
    );
    let lost = forest.scx(&mut second, &[c], &[], (n2, Side::Left), 0);
    same(&rt, lost, Ok(Scx::Lost { node, scx }));
    same(
        &rt,
        forest.llx(&mut second, n2),
        Llx::Finalized { node, scx },
    );
    Ok(())
}

#[test]
fn a_pass_loses_with_a_snapshot_that_it_has_spent(rt: HostRuntime) -> Result<(), Fail> {
    let (forest, mut pass, _) = opened(rt.alloc())?;
    let (node, scx) = (NodeNo(1), ScxNo(1));
    let Llx::Snapshot(snap) = forest.llx(&mut pass, node) else {
        return Err("no snapshot".into());
    };
    let done = forest.scx(&mut pass, &[snap], &[], (node, Side::Left), 7);
    let lost = forest.scx(&mut pass, &[snap], &[], (node, Side::Left), 8);
    same(&rt, done, Ok(Scx::Done));
    same(&rt, lost, Ok(Scx::Lost { node, scx }));
    same(
        &rt,
        forest.vlx(&mut pass, &[snap]),
        Vlx::Changed { node, scx },
    );
    same(&rt, fields(forest.llx(&mut pass, node)), Some((9, 0)));
    Ok(())
}

/// How a pass's second put ends.
fn second_put(alloc: Global, limits: Limits) -> Option<Result<Scx, Full>> {
    let Ok((forest, mut passes)) = Forest::<Cells>::new(alloc, limits) else {
        return None;
    };
    let mut pass = passes.pop()?;
    put(&forest, &mut pass, NodeNo(1))?.ok()?;
    put(&forest, &mut pass, NodeNo(1))
}

#[test]
fn a_share_runs_out(rt: HostRuntime) {
    let cases = [
        (1, 1, Resource::Nodes),
        (1, 2, Resource::Nodes),
        (2, 1, Resource::Scx),
    ];
    for (nodes, scx, what) in cases {
        let full = Full { what, left: 0 };
        let refused = second_put(rt.alloc(), limits(1, nodes, scx));
        same(&rt, refused, Some(Err(full)));
    }
}

#[test]
fn the_largest_forest(rt: HostRuntime) {
    let passes = match Forest::<Cells>::new(rt.alloc(), limits(32, 32768, 32768)) {
        Ok((forest, passes)) => if forest.all_back(&passes) {
            passes.len()
        } else {
            0
        },
        Err(_) => 0,
    };
    same(&rt, passes, 32);
}
