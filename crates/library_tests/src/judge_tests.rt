//! Runs that a judge finds lawful, and changed ones with their first unlawful row.
use self::Edit::{Insert, Put, Remove};
use self::Group::{Look, One, Says, Whole};
use self::Made::{Abort, Commit, Fill, Freeze, Frozen, Load, Mark, Other, Update};
use self::Part::{N, S};
use crate::same::same;
use arena::Kind::{
    LoadAllFrozen, LoadChild, LoadInfo, LoadMarked, LoadSettled, LoadState, SetFrozen,
};
use arena::NodeWord::{Child, Info, Marked, Settled};
use arena::ScxWord::{AllFrozen, Call, Member, New, Old, Plan, Seen, State};
use arena::SettledPart::{Head, Key, Value};
use arena::Side::{Left, Right};
use arena::Slot::First;
use arena::{Kind, Layout, Limits, Mode, NodeNo, NodeWord, PassNo, Row, ScxNo, ScxWord, Word};
use judge::{Judge, first_unlawful};
use std::alloc::{AllocError, Global};
use std::process;
use std::test::Fail;

const VALUE: NodeWord = Settled(Value(First));

/// A word of a node or of an SCX-record of this number.
#[derive(Clone, Copy)]
enum Part {
    N(u64, NodeWord),
    S(u64, ScxWord),
}

/// What a row says: its client, its word or the record of its word, what that held before, and, but
/// of a load and of a word that is set once, what it holds after.
#[derive(Clone, Copy)]
enum Made {
    /// Of the kind that its word has.
    Load(u32, Part, u64),
    Fill(u32, Part, u64, u64),
    Freeze(u32, u64, u64, u64),
    Frozen(u32, u64, u64),
    Mark(u32, u64, u64),
    /// Of a left field.
    Update(u32, u64, u64, u64),
    Commit(u32, u64, u64),
    Abort(u32, u64, u64),
    Other(u32, Kind, Part, u64, u64),
}

/// What an SCX-record says of one node: its plan, `new`, `old`, the node and what was seen there.
#[derive(Clone, Copy)]
struct Said(u64, u64, u64, u64, u64);

/// Rows that follow each other, by one client.
#[derive(Clone, Copy)]
enum Group {
    One(Made),
    /// LLX of a node: the SCX-record that its info names, the state of that, and its left field.
    Look(u32, u64, u64, u64, u64),
    /// An SCX-record is filled.
    Says(u32, u64, Said),
    /// An SCX that nobody is in the way of, from its fills on: its record, and the second node, with
    /// what was seen there, which it finalizes.
    Whole(u32, u64, Said, (u64, u64)),
}

/// A run of cells.
const RUN: [Group; 41] = [
    // row 0: client 0 puts 70 into a fresh cell left of cell 1,
    Look(0, 1, 0, 2, 0),
    One(Fill(0, N(9, VALUE), 0, 70)),
    Says(0, 1, Said(1, 9, 0, 1, 0)),
    One(Load(0, S(1, Plan), 1)),
    One(Load(0, S(1, Member(0)), 1)),
    One(Load(0, S(1, Seen(0)), 0)),
    One(Freeze(0, 1, 0, 1)),
    // row 18: while client 1 looks at cell 1, and helps
    One(Load(1, N(1, Marked), 0)),
    One(Load(1, N(1, Info), 1)),
    One(Load(1, S(1, State), 0)),
    One(Load(1, N(1, Marked), 0)),
    One(Load(1, S(1, State), 0)),
    One(Load(1, S(1, Plan), 1)),
    One(Load(1, S(1, Member(0)), 1)),
    One(Load(1, S(1, Seen(0)), 0)),
    One(Freeze(1, 1, 1, 1)),
    One(Frozen(1, 1, 0)),
    One(Frozen(0, 1, 1)),
    One(Load(0, S(1, New), 9)),
    One(Load(0, S(1, Old), 0)),
    One(Update(0, 1, 0, 9)),
    One(Load(1, S(1, New), 9)),
    One(Load(1, S(1, Old), 0)),
    One(Update(1, 1, 9, 9)),
    One(Commit(1, 1, 0)),
    One(Commit(0, 1, 1)),
    // row 37: client 1 covers cells 1 and 2, finalizes cell 2, and puts another cell left of cell 1
    Look(1, 1, 1, 1, 9),
    Look(1, 2, 0, 2, 0),
    One(Fill(1, N(19, VALUE), 0, 80)),
    Whole(1, 11, Said(18, 19, 9, 1, 1), (2, 0)),
    // row 73: both clients try cell 3; client 1 wins, and client 0 aborts
    One(Fill(0, N(10, VALUE), 0, 90)),
    Says(0, 2, Said(1, 10, 0, 3, 0)),
    One(Fill(1, N(20, VALUE), 0, 91)),
    Says(1, 12, Said(1, 20, 0, 3, 0)),
    One(Freeze(1, 3, 0, 12)),
    One(Freeze(0, 3, 12, 12)),
    One(Load(0, S(2, AllFrozen), 0)),
    One(Abort(0, 2, 0)),
    One(Frozen(1, 12, 0)),
    One(Update(1, 3, 0, 20)),
    One(Commit(1, 12, 0)),
];

/// A client puts key 5 with value 50 into an empty tree. Rows 0 to 33.
const INSERT: [Group; 14] = [
    // it walks an empty tree, and fills what it will put in
    One(Load(0, N(0, Settled(Head)), 2)),
    One(Load(0, N(0, Child(Left)), 1)),
    One(Load(0, N(1, Settled(Head)), 13)),
    One(Fill(0, N(3, Settled(Head)), 0, 20)),
    One(Fill(0, N(3, Settled(Key(First))), 0, 5)),
    One(Fill(0, N(3, VALUE), 0, 50)),
    One(Fill(0, N(4, Settled(Head)), 0, 21)),
    One(Fill(0, N(4, Settled(Key(First))), 0, 0)),
    One(Fill(0, N(4, VALUE), 0, 0)),
    One(Fill(0, N(5, Settled(Head)), 0, 9)),
    One(Fill(0, N(5, Settled(Key(First))), 0, 0)),
    One(Fill(0, N(5, Child(Left)), 0, 3)),
    One(Fill(0, N(5, Child(Right)), 0, 4)),
    Whole(0, 1, Said(18, 5, 1, 0, 0), (1, 0)),
];

/// The loads of LLX.
fn look(client: u32, node: u64, scx: u64, state: u64, left: u64) -> [Made; 7] {
    [
        Load(client, N(node, Marked), 0),
        Load(client, N(node, Info), scx),
        Load(client, S(scx, State), state),
        Load(client, N(node, Marked), 0),
        Load(client, N(node, Child(Left)), left),
        Load(client, N(node, Child(Right)), 0),
        Load(client, N(node, Info), scx),
    ]
}

fn says(client: u32, scx: u64, Said(plan, new, old, node, seen): Said) -> [Made; 6] {
    [
        Fill(client, S(scx, Plan), 0, plan),
        Fill(client, S(scx, New), 0, new),
        Fill(client, S(scx, Old), 0, old),
        Fill(client, S(scx, Member(0)), 0, node),
        Fill(client, S(scx, Seen(0)), 0, seen),
        Fill(client, S(scx, Call), 0, 0),
    ]
}

/// The fills of an SCX-record of two nodes, and its SCX.
fn whole(
    client: u32,
    scx: u64,
    Said(plan, new, old, node, seen): Said,
    (other, other_seen): (u64, u64),
) -> [Made; 21] {
    [
        Fill(client, S(scx, Plan), 0, plan),
        Fill(client, S(scx, New), 0, new),
        Fill(client, S(scx, Old), 0, old),
        Fill(client, S(scx, Member(0)), 0, node),
        Fill(client, S(scx, Member(1)), 0, other),
        Fill(client, S(scx, Seen(0)), 0, seen),
        Fill(client, S(scx, Seen(1)), 0, other_seen),
        Fill(client, S(scx, Call), 0, 0),
        Load(client, S(scx, Plan), plan),
        Load(client, S(scx, Member(0)), node),
        Load(client, S(scx, Seen(0)), seen),
        Freeze(client, node, seen, scx),
        Load(client, S(scx, Member(1)), other),
        Load(client, S(scx, Seen(1)), other_seen),
        Freeze(client, other, other_seen, scx),
        Frozen(client, scx, 0),
        Mark(client, other, 0),
        Load(client, S(scx, New), new),
        Load(client, S(scx, Old), old),
        Update(client, node, old, new),
        Commit(client, scx, 0),
    ]
}

fn word(part: Part) -> Word {
    match part {
        N(number, part) => Word::Node(NodeNo(number), part),
        S(number, part) => Word::Scx(ScxNo(number), part),
    }
}

fn load_of(part: Part) -> Kind {
    match part {
        N(_, Child(_)) => LoadChild,
        N(_, Info) => LoadInfo,
        N(_, Marked) => LoadMarked,
        S(_, State) => LoadState,
        S(_, AllFrozen) => LoadAllFrozen,
        _ => LoadSettled,
    }
}

fn row(made: Made) -> Row {
    let (pass, kind, part, before, after) = match made {
        Load(pass, part, value) => (pass, load_of(part), part, value, value),
        Fill(pass, part, before, after) => (pass, Kind::Fill, part, before, after),
        Freeze(pass, node, before, after) => (pass, Kind::Freeze, N(node, Info), before, after),
        Frozen(pass, scx, before) => (pass, SetFrozen, S(scx, AllFrozen), before, 1),
        Mark(pass, node, before) => (pass, Kind::Mark, N(node, Marked), before, 1),
        Update(pass, node, before, after) => {
            (pass, Kind::Update, N(node, Child(Left)), before, after)
        }
        Commit(pass, scx, before) => (pass, Kind::Commit, S(scx, State), before, 1),
        Abort(pass, scx, before) => (pass, Kind::Abort, S(scx, State), before, 2),
        Other(pass, kind, part, before, after) => (pass, kind, part, before, after),
    };
    Row {
        pass: PassNo(pass),
        call: 0,
        kind,
        word: word(part),
        before,
        after,
    }
}

fn push_each(rows: &mut Vec<Row>, made: &[Made]) -> Result<(), AllocError> {
    for one in made {
        rows.push(row(*one))?;
    }
    Ok(())
}

fn push(rows: &mut Vec<Row>, group: Group) -> Result<(), AllocError> {
    match group {
        One(made) => push_each(rows, &[made]),
        Look(client, node, scx, state, left) => {
            push_each(rows, &look(client, node, scx, state, left))
        }
        Says(client, scx, said) => push_each(rows, &says(client, scx, said)),
        Whole(client, scx, said, second) => push_each(rows, &whole(client, scx, said, second)),
    }
}

fn push_all(rows: &mut Vec<Row>, groups: &[Group]) -> Result<(), AllocError> {
    for group in groups {
        push(rows, *group)?;
    }
    Ok(())
}

/// The rows of these groups.
fn rows_of(alloc: Global, groups: &[Group]) -> Result<Vec<Row>, AllocError> {
    let mut rows = Vec::new(alloc);
    push_all(&mut rows, groups)?;
    Ok(rows)
}

/// A table whose clients have `records` nodes and SCX-records each.
fn layout(mode: Mode, passes: u32, records: u32) -> Result<Layout, Fail> {
    let limits = Limits {
        passes,
        nodes: records,
        scx: records,
        tries: 3,
    };
    Ok(limits.check(mode)?)
}

/// Cells: nodes 0 to 8 are there from the start, client 0 has nodes 9 to 18 and SCX-records 1 to
/// 10, client 1 has nodes 19 to 28 and SCX-records 11 to 20.
fn cells() -> Result<Layout, Fail> {
    layout(Mode::Records, 2, 10)
}

/// The first unlawful row of the run of this number, of those of a test, is this one; none where
/// the run is lawful.
fn judged(
    rt: &impl process::Abort,
    alloc: Global,
    layout: &Layout,
    (number, rows): (usize, &[Row]),
    want: Option<usize>,
) -> Result<(), Fail> {
    let answer = first_unlawful(alloc, layout, rows)?;
    same(rt, (number, answer), (number, want));
    Ok(())
}

/// A judge takes in these rows, each of them lawful.
fn take_in(rt: &impl process::Abort, judge: &mut Judge, rows: &[Row]) -> Result<(), Fail> {
    for row in rows {
        assert!(rt; judge.is_lawful(row));
        judge.make(row)?;
    }
    Ok(())
}

/// What it remembers of nodes 1 to 4, and of SCX-records 2 and 12.
fn remembers(rt: &impl process::Abort, judge: &Judge) {
    let last = [1, 3, 4].map(|number| judge.last(NodeNo(number)));
    same(rt, last, [2, 3, 0]);
    let is_final = [judge.is_final(NodeNo(2)), judge.is_final(NodeNo(1))];
    same(rt, is_final, [true, false]);
    let is_named = [judge.is_named(ScxNo(12)), judge.is_named(ScxNo(2))];
    same(rt, is_named, [true, false]);
    same(rt, judge.is_in_progress(ScxNo(12)), false);
}

#[test]
fn a_judge_remembers_a_run(rt: HostRuntime) -> Result<(), Fail> {
    let mut judge = Judge::new(rt.alloc(), &cells()?)?;
    take_in(&rt, &mut judge, &rows_of(rt.alloc(), &RUN)?)?;
    same(&rt, judge.get(Word::Scx(ScxNo(12), State)), 1);
    same(&rt, (judge.entries(), judge.taken()), (3, 4));
    remembers(&rt, &judge);
    Ok(())
}

/// A change of a run at one place.
#[derive(Clone, Copy)]
enum Edit {
    Put(usize, Made),
    Insert(usize, Made),
    Remove(usize),
}

/// The first unlawful row of a changed run, none where it is still lawful, and its change.
type Judged = (Option<usize>, Edit);

const LOADS: [Judged; 10] = [
    // a wrong `before`, a load that changes its word, and one of another kind
    (Some(4), Put(4, Load(0, N(1, Child(Left)), 5))),
    (
        Some(4),
        Put(4, Other(0, LoadChild, N(1, Child(Left)), 0, 5)),
    ),
    (Some(4), Put(4, Other(0, LoadInfo, N(1, Child(Left)), 0, 0))),
    (
        Some(4),
        Put(4, Other(0, LoadSettled, N(1, Child(Left)), 0, 0)),
    ),
    // a client that is none
    (Some(0), Put(0, Load(2, N(1, Marked), 0))),
    // words outside of the table, and the last ones inside
    (Some(0), Insert(0, Load(0, N(29, VALUE), 0))),
    (None, Insert(0, Load(0, N(28, VALUE), 0))),
    (Some(0), Insert(0, Load(0, S(21, State), 0))),
    (None, Insert(0, Load(0, S(20, State), 0))),
    (Some(0), Insert(0, Load(0, S(1, Member(4)), 0))),
];

const FILLS: [Judged; 19] = [
    // another client's share, and out of order
    (Some(7), Put(7, Fill(1, N(9, VALUE), 0, 70))),
    (Some(7), Put(7, Fill(0, N(10, VALUE), 0, 70))),
    (Some(8), Put(8, Fill(0, S(2, Plan), 0, 1))),
    (Some(7), Put(7, Fill(0, N(1, VALUE), 0, 70))),
    // of words that are not filled
    (Some(7), Put(7, Fill(0, N(9, Info), 0, 1))),
    (Some(7), Put(7, Fill(0, N(9, Marked), 0, 1))),
    (Some(8), Put(8, Fill(0, S(1, State), 0, 1))),
    (Some(8), Put(8, Fill(0, S(1, AllFrozen), 0, 1))),
    // of records before they are named, and then
    (None, Insert(17, Fill(0, N(9, VALUE), 70, 71))),
    (None, Insert(17, Fill(0, S(1, Call), 0, 5))),
    (Some(18), Insert(18, Fill(0, N(9, VALUE), 70, 71))),
    (Some(18), Insert(18, Fill(0, S(1, Call), 0, 5))),
    // that name records of another client that are not named yet
    (Some(9), Put(9, Fill(0, S(1, New), 0, 19))),
    (Some(10), Put(10, Fill(0, S(1, Old), 0, 19))),
    (Some(11), Put(11, Fill(0, S(1, Member(0)), 0, 19))),
    (Some(12), Put(12, Fill(0, S(1, Seen(0)), 0, 11))),
    (Some(8), Insert(8, Fill(0, N(9, Child(Left)), 0, 19))),
    // a node that no field has named, though an SCX-record has
    (Some(31), Insert(31, Fill(1, N(19, Child(Left)), 0, 9))),
    (None, Insert(32, Fill(1, N(19, Child(Left)), 0, 9))),
];

const FREEZES: [Judged; 9] = [
    // by a client that is not the owner, of another node, for another SCX-record
    (Some(17), Put(17, Freeze(1, 1, 0, 1))),
    (Some(17), Put(17, Freeze(0, 2, 0, 1))),
    (Some(17), Put(17, Freeze(0, 1, 0, 2))),
    (Some(17), Put(17, Freeze(0, 1, 0, 0))),
    // out of order
    (Some(63), Put(63, Freeze(1, 2, 0, 11))),
    // one that loses stores nothing
    (Some(88), Put(88, Freeze(0, 3, 12, 2))),
    // all frozen before all are, for no node, and with another number
    (Some(66), Put(66, Frozen(1, 11, 0))),
    (Some(0), Insert(0, Frozen(0, 5, 0))),
    (
        Some(27),
        Put(27, Other(1, SetFrozen, S(1, AllFrozen), 0, 2)),
    ),
];

const ENDS: [Judged; 18] = [
    // a mark before all are frozen, of a node that stays, and with another number
    (Some(67), Insert(67, Mark(1, 2, 0))),
    (Some(68), Put(68, Mark(1, 1, 0))),
    (Some(68), Put(68, Other(1, Kind::Mark, N(2, Marked), 0, 2))),
    (None, Insert(73, Mark(0, 2, 1))),
    // an update before all are frozen, before all are marked, of another number, of another
    // field
    (Some(27), Insert(27, Update(0, 1, 0, 9))),
    (Some(70), Remove(68)),
    (Some(31), Put(31, Update(0, 1, 0, 8))),
    (Some(31), Put(31, Update(0, 2, 0, 9))),
    (
        Some(31),
        Put(31, Other(0, Kind::Update, N(1, Child(Right)), 0, 9)),
    ),
    // an update that comes late
    (None, Insert(73, Update(0, 1, 19, 19))),
    (None, Insert(64, Update(0, 1, 9, 9))),
    // a commit with no win, and with another number
    (Some(31), Insert(31, Commit(0, 1, 0))),
    (Some(35), Put(35, Other(1, Kind::Commit, S(1, State), 0, 2))),
    // an abort over `allfrozen`, by another client, with no cause, and with another number
    (Some(28), Insert(28, Abort(0, 1, 0))),
    (Some(90), Put(90, Abort(1, 2, 0))),
    (Some(87), Insert(87, Abort(0, 2, 0))),
    (Some(90), Put(90, Other(0, Kind::Abort, S(2, State), 0, 1))),
    (Some(27), Insert(27, Abort(0, 1, 0))),
];

/// The run of cells with a change.
fn edited(alloc: Global, edit: Edit) -> Result<Vec<Row>, AllocError> {
    let mut rows = Vec::new(alloc);
    for (place, old) in rows_of(alloc, &RUN)?.iter().enumerate() {
        match edit {
            Put(at, new) if at == place => rows.push(row(new))?,
            Insert(at, new) if at == place => {
                rows.push(row(new))?;
                rows.push(*old)?;
            }
            Remove(at) if at == place => {}
            _ => rows.push(*old)?,
        }
    }
    Ok(rows)
}

#[test]
fn changed_runs_are_judged(rt: HostRuntime) -> Result<(), Fail> {
    let layout = cells()?;
    for edits in [
        LOADS.as_slice(),
        FILLS.as_slice(),
        FREEZES.as_slice(),
        ENDS.as_slice(),
    ] {
        for (number, (want, edit)) in edits.iter().enumerate() {
            let rows = edited(rt.alloc(), *edit)?;
            judged(&rt, rt.alloc(), &layout, (number, rows.as_slice()), *want)?;
        }
    }
    Ok(())
}

/// What the judge says of an SCX-record that is begun after the whole run, and how it is begun:
/// what it says of a first and of a second node, and what its freeze finds.
type Begun = (Option<usize>, Said, (u64, u64), u64);

const BEGINS: [Begun; 22] = [
    (None, Said(1, 11, 0, 4, 0), (0, 0), 0),
    (None, Said(1, 11, 19, 1, 11), (0, 0), 11),
    (None, Said(2, 11, 0, 4, 0), (5, 0), 0),
    // one that loses, whatever the SCX-record says
    (None, Said(1, 9, 0, 4, 5), (0, 0), 0),
    (None, Said(1, 11, 0, 2, 0), (0, 0), 11),
    // a plan without nodes, of five, with `at` or a finalized node out of V, and one too large
    (Some(103), Said(0, 11, 0, 4, 0), (0, 0), 0),
    (Some(103), Said(5, 11, 0, 4, 0), (0, 0), 0),
    (Some(103), Said(129, 11, 0, 4, 0), (0, 0), 0),
    (Some(103), Said(17, 11, 0, 4, 0), (0, 0), 0),
    (Some(103), Said(1025, 11, 0, 4, 0), (0, 0), 0),
    // a second node that is none, and one that is the first
    (Some(103), Said(2, 11, 0, 4, 0), (40, 0), 0),
    (Some(103), Said(2, 11, 0, 4, 0), (4, 0), 0),
    // a node that was seen under an SCX-record in progress
    (Some(103), Said(2, 11, 0, 4, 0), (5, 5), 0),
    // a finalized node
    (Some(103), Said(1, 11, 0, 2, 11), (0, 0), 11),
    (Some(103), Said(2, 11, 0, 4, 0), (2, 11), 0),
    // the field shows another number than `old`
    (Some(103), Said(1, 11, 9, 1, 11), (0, 0), 11),
    (Some(103), Said(1, 11, 5, 4, 0), (0, 0), 0),
    // a node that a field, or another SCX-record, has used
    (Some(103), Said(1, 9, 0, 4, 0), (0, 0), 0),
    (Some(103), Said(1, 10, 0, 4, 0), (0, 0), 0),
    // a node that is not the client's
    (Some(103), Said(1, 5, 0, 4, 0), (0, 0), 0),
    (Some(103), Said(1, 40, 0, 4, 0), (0, 0), 0),
    (Some(96), Said(1, 20, 0, 4, 0), (0, 0), 0),
];

/// Client 0 begins an SCX-record after the whole run. Rows 94 to 103, where the last is the freeze.
fn begin(alloc: Global, begun: &Begun) -> Result<Vec<Row>, AllocError> {
    let (_, said, (second, seen), found) = *begun;
    let after = if found == said.4 { 3 } else { found };
    let mut run = rows_of(alloc, &RUN)?;
    push_each(&mut run, &[Fill(0, N(11, VALUE), 0, 90)])?;
    push_each(&mut run, &says(0, 3, said))?;
    let rows = [
        Fill(0, S(3, Member(1)), 0, second),
        Fill(0, S(3, Seen(1)), 0, seen),
        Freeze(0, said.3, found, after),
    ];
    push_each(&mut run, &rows)?;
    Ok(run)
}

#[test]
fn begins_are_judged(rt: HostRuntime) -> Result<(), Fail> {
    let layout = cells()?;
    for (number, begun) in BEGINS.iter().enumerate() {
        let rows = begin(rt.alloc(), begun)?;
        judged(&rt, rt.alloc(), &layout, (number, rows.as_slice()), begun.0)?;
    }
    Ok(())
}

/// A client sets cell 1 after doing so `number` times, when its left field holds this.
fn set_again(number: u32, left: u64) -> [Group; 9] {
    let state = if number == 0 { 2 } else { 1 };
    let number = u64::from(number);
    let (scx, node) = (number + 1, number + 9);
    [
        Look(0, 1, number, state, left),
        One(Fill(0, N(node, VALUE), 0, 70)),
        Says(0, scx, Said(1, node, left, 1, number)),
        One(Load(0, S(scx, Plan), 1)),
        One(Freeze(0, 1, number, scx)),
        One(Frozen(0, scx, 0)),
        One(Load(0, S(scx, New), node)),
        One(Update(0, 1, left, node)),
        One(Commit(0, scx, 0)),
    ]
}

/// One client sets cell 1 again and again: 120 times. And an insert, after which a leaf below the
/// new node is filled late: it is named with that node.
#[test]
fn long_runs_and_inserts_are_judged(rt: HostRuntime) -> Result<(), Fail> {
    let mut rows = rows_of(rt.alloc(), &set_again(0, 0))?;
    for number in 1..120 {
        push_all(&mut rows, &set_again(number, u64::from(number) + 8))?;
    }
    let cells = layout(Mode::Records, 1, 300)?;
    judged(&rt, rt.alloc(), &cells, (0, rows.as_slice()), None)?;
    let mut rows = rows_of(rt.alloc(), &INSERT)?;
    push_each(&mut rows, &[Fill(0, N(3, VALUE), 50, 51)])?;
    let tree = layout(Mode::Tree, 1, 10)?;
    judged(&rt, rt.alloc(), &tree, (1, rows.as_slice()), Some(34))
}
