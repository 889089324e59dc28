//! Calls that are held open, while the other pass makes calls.
ghost use Rattle.std.specs.Prelude.{◌≡◌, true, false, IfOk};
ghost use Rattle.tables.specs.Passes.{IsOf};

use super::call::Call;
use super::call::Call::{
    Delete, DeleteIf, Get, Insert, InsertNew, PopFirst, PopLast, Predecessor, Range, ReplaceIf,
    Successor,
};
use super::rows::Says::{Pair, Pairs, Value};
use super::rows::{Row, Told, make_all};
use super::{end_two, opened};
use crate::same::{has, same};
use arena::Kind;
use arena::Kind::{
    Abort as GiveUp, Commit, Fill, Freeze, LoadAllFrozen, LoadChild, LoadInfo, LoadMarked,
    LoadSettled, LoadState, Mark, SetFrozen, Update,
};
use dict::{ByOrder, Dict, Reply};
use forest::{Forest, OpenCall, Pass, Stepped};
use std::alloc::{AllocError, Global};
use std::process::Abort;
use std::test::Fail;

/// A dictionary of numbers, a tree or by `B` a trie.
pub(super) type Numbers<B = ByOrder> = Dict<u64, u64, B>;

/// A call of it that is held open.
pub(super) type Held = OpenCall<u64, u64>;

/// The walk to the only leaf.
const WALK: &[Kind] = &[LoadSettled, LoadChild, LoadSettled];

/// LLX of two nodes.
const LOOKS: &[Kind] = &[
    LoadMarked, LoadInfo, LoadState, LoadMarked, LoadChild, LoadChild, LoadInfo, LoadMarked,
    LoadInfo, LoadState, LoadMarked, LoadChild, LoadChild, LoadInfo,
];

/// The fills of the nodes of the first key, and of a leaf of two pairs.
const NODES: &[Kind] = &[Fill; 10];

const LEAF: &[Kind] = &[Fill; 6];

/// The fills of an SCX-record over two nodes, and what comes before its first freeze.
const READY: &[Kind] = &[
    Fill,
    Fill,
    Fill,
    Fill,
    Fill,
    Fill,
    Fill,
    Fill,
    LoadSettled,
    LoadSettled,
    LoadSettled,
];

/// The SCX from that freeze on, which finalizes one of the nodes.
const PUT: &[Kind] = &[
    Freeze,
    LoadSettled,
    LoadSettled,
    Freeze,
    SetFrozen,
    Mark,
    LoadSettled,
    LoadSettled,
    Update,
    Commit,
];

/// That freeze finds another SCX-record there.
const LOST: &[Kind] = &[Freeze, LoadAllFrozen, GiveUp];

/// On to the leaf of one pair below a fork, whose pair is read.
const ON: &[Kind] = &[LoadChild, LoadSettled, LoadSettled, LoadSettled];

const PAIR: &[Kind] = &[LoadSettled; 3];

/// What a get reads of it besides.
const VALUE: &[Kind] = &[LoadSettled; 2];

/// Makes this many steps of a call, or fewer if it is over before, and notes their kinds. Returns
/// whether the call is not over.
pub(super) fn hold(
    forest: &Forest<Numbers>,
    call: &mut Held,
    steps: usize,
    kinds: &mut Vec<Kind>,
) -> Result<bool, AllocError>
    requires forest { IsOf forest.now call.old.began }
    requires goes { call.old.over ≡ false }
    ensures forest { IfOk result (λ _. IsOf forest.now call.new.began) }
    ensures goes { IfOk result (λ goes. goes ≡ true → call.new.over ≡ false) }
{
    for _step in 0..steps {
        match call.step(forest) {
            Stepped::More(kind) => kinds.push(kind)?,
            Stepped::Done(_) => return Ok(false),
        }
    }
    Ok(true)
}

/// Makes this many steps of a call, which is not over then.
pub(super) fn held(
    forest: &Forest<Numbers>,
    mut call: Held,
    steps: usize,
    kinds: &mut Vec<Kind>,
) -> Result<Held, Fail>
    requires forest { IsOf forest.now call.began }
    requires goes { call.over ≡ false }
    ensures forest { IfOk result (λ call. IsOf forest.now call.began) }
    ensures goes { IfOk result (λ call. call.over ≡ false) }
{
    if hold(forest, &mut call, steps, kinds)? {
        Ok(call)
    } else {
        Err("the call is over".into())
    }
}

/// Makes the rest of a call, and notes the kinds of its steps.
pub(super) fn rest(
    forest: &Forest<Numbers>,
    mut call: Held,
    kinds: &mut Vec<Kind>,
) -> Result<(Pass<Numbers>, Reply<u64, u64>), AllocError>
    requires forest { IsOf forest.now call.began }
    requires goes { call.over ≡ false }
    ensures pass { IfOk result (λ r. IsOf forest.now r.0) }
{
    loop {
        match call.step(forest) {
            Stepped::More(kind) => kinds.push(kind)?,
            Stepped::Done(Some(kind)) => {
                kinds.push(kind)?;
                return Ok(call.finish());
            }
            Stepped::Done(None) => return Ok(call.finish()),
        }
    }
}

/// Whether these are the kinds of the parts, one part after the other.
fn are(kinds: &[Kind], parts: &[&[Kind]]) -> bool {
    let mut left = kinds;
    for part in parts {
        match left.strip_prefix(*part) {
            Some(behind) => left = behind,
            None => return false,
        }
    }
    left.is_empty()
}

/// A call that the first pass holds open, while the second makes calls.
#[derive(Clone, Copy)]
struct Case {
    /// What the second does before.
    before: &'static [Row<'static, u64, u64>],
    call: Call<u64, u64>,
    /// After this many steps, the newest of this kind, it is held.
    steps: usize,
    newest: Option<Kind>,
    /// What the second does meanwhile.
    meanwhile: &'static [Row<'static, u64, u64>],
    /// What the call answers, and of which kinds its steps are.
    told: Told<'static, u64, u64>,
    kinds: Option<&'static [&'static [Kind]]>,
    /// What the first does after it.
    behind: &'static [Row<'static, u64, u64>],
    /// The shares at the end, and the pairs.
    left: [(u32, u32); 2],
    pairs: &'static [(u64, u64)],
}

/// An insert is held after its first freeze, and the call that the second makes helps it first.
const HELPED: Case = Case {
    before: &[],
    call: Insert(5, 50),
    steps: 39,
    newest: Some(Freeze),
    meanwhile: &[
        (Get(5), Value(None), (20, 20)),
        (Insert(7, 70), Value(None), (19, 19)),
        (Get(5), Value(Some(50)), (19, 19)),
    ],
    told: Value(None),
    kinds: Some(&[WALK, LOOKS, NODES, READY, PUT]),
    behind: &[],
    left: [(17, 19), (19, 19)],
    pairs: &[(5, 50), (7, 70)],
};

/// It is held just before that freeze, which then finds the SCX-record of the other insert. The
/// pair that is there is read, and both are put into one leaf.
const TOO_LATE: Case = Case {
    steps: 38,
    newest: Some(LoadSettled),
    meanwhile: &[
        (Insert(7, 70), Value(None), (17, 19)),
        (Get(5), Value(None), (17, 19)),
    ],
    kinds: Some(&[
        WALK, LOOKS, NODES, READY, LOST, WALK, ON, LOOKS, PAIR, LEAF, READY, PUT,
    ]),
    left: [(16, 18), (17, 19)],
    ..HELPED
};

/// A lesser key is put in just before the first freeze of a pop: it takes that one.
const POP: Case = Case {
    before: &[(Insert(7, 70), Value(None), (17, 19))],
    call: PopFirst,
    steps: 56,
    newest: Some(LoadSettled),
    meanwhile: &[(Insert(5, 50), Value(None), (16, 18))],
    told: Pair(Some((5, 50))),
    kinds: None,
    left: [(18, 18), (16, 18)],
    pairs: &[(7, 70)],
    ..HELPED
};

/// A greater key is put in just before that of the last pair: it takes that one.
const POP_LAST: Case = Case {
    call: PopLast,
    meanwhile: &[(Insert(9, 90), Value(None), (16, 18))],
    told: Pair(Some((9, 90))),
    ..POP
};

/// The key is put in just before the first freeze of an insert where it is absent: what this has
/// filled is of no use, and its second try takes nothing.
const INSERT_NEW: Case = Case {
    call: InsertNew(5, 50),
    meanwhile: &[(InsertNew(5, 51), Value(None), (17, 19))],
    told: Value(Some(51)),
    kinds: None,
    left: [(17, 19), (17, 19)],
    pairs: &[(5, 51)],
    ..TOO_LATE
};

/// Another value is put in just before that of a delete of the one expected, which takes one try.
const DELETE_IF: Case = Case {
    before: &[(Insert(5, 50), Value(None), (17, 19))],
    call: DeleteIf(5, 50),
    meanwhile: &[(ReplaceIf(5, 50, 51), Value(Some(50)), (16, 18))],
    told: Value(Some(51)),
    left: [(19, 19), (16, 18)],
    pairs: &[(5, 51)],
    ..POP
};

/// A get has reached the leaf of 5, which the delete takes off: it reads what was.
const GET: Case = Case {
    before: &[(Insert(5, 50), Value(None), (17, 19))],
    call: Get(5),
    steps: 4,
    newest: Some(LoadChild),
    meanwhile: &[
        (Delete(5), Value(Some(50)), (16, 18)),
        (Get(5), Value(None), (16, 18)),
    ],
    told: Value(Some(50)),
    kinds: Some(&[WALK, ON, VALUE]),
    behind: &[(Get(5), Value(None), (20, 20))],
    left: [(20, 20), (16, 18)],
    pairs: &[],
};

/// A range of no pairs makes no step.
const NO_PAIRS: Case = Case {
    before: &[],
    call: Range(0, 9, 0),
    steps: 0,
    newest: None,
    meanwhile: &[],
    told: Pairs(&[]),
    kinds: Some(&[]),
    behind: &[],
    left: [(20, 20), (20, 20)],
    pairs: &[],
};

/// An insert of (5, 50) is held after its first freeze, over the leaf of 7. A call that reaches
/// the frozen node has to help it, and so loses its first try, which takes nothing of its share.
const FROZEN: Case = Case {
    before: &[(Insert(7, 70), Value(None), (17, 19))],
    steps: 42,
    kinds: None,
    left: [(19, 19), (16, 18)],
    ..HELPED
};

const DELETE: Case = Case {
    meanwhile: &[(Delete(7), Value(Some(70)), (16, 18))],
    pairs: &[(5, 50)],
    ..FROZEN
};

/// Two of these find nothing to do, and help nobody.
const DELETES_IF: Case = Case {
    meanwhile: &[
        (DeleteIf(7, 71), Value(Some(70)), (17, 19)),
        (DeleteIf(5, 50), Value(None), (17, 19)),
        (DeleteIf(7, 70), Value(Some(70)), (16, 18)),
        (DeleteIf(5, 50), Value(Some(50)), (15, 17)),
    ],
    left: [(19, 19), (15, 17)],
    pairs: &[],
    ..FROZEN
};

const SECOND_INSERT_NEW: Case = Case {
    meanwhile: &[(InsertNew(5, 51), Value(Some(50)), (17, 19))],
    left: [(19, 19), (17, 19)],
    ..FROZEN
};

const SECOND_POP: Case = Case {
    meanwhile: &[(PopFirst, Pair(Some((5, 50))), (16, 18))],
    pairs: &[(7, 70)],
    ..FROZEN
};

const SECOND_POP_LAST: Case = Case {
    meanwhile: &[(PopLast, Pair(Some((7, 70))), (16, 18))],
    pairs: &[(5, 50)],
    ..FROZEN
};

const REPLACEMENT: Case = Case {
    meanwhile: &[(ReplaceIf(7, 70, 71), Value(Some(70)), (16, 18))],
    pairs: &[(5, 50), (7, 71)],
    ..FROZEN
};

const SUCCESSOR: Case = Case {
    meanwhile: &[(Successor(4), Pair(Some((5, 50))), (17, 19))],
    left: [(19, 19), (17, 19)],
    ..FROZEN
};

const PREDECESSOR: Case = Case {
    meanwhile: &[(Predecessor(6), Pair(Some((5, 50))), (17, 19))],
    left: [(19, 19), (17, 19)],
    ..FROZEN
};

const RANGE: Case = Case {
    meanwhile: &[(Range(0, 9, 64), Pairs(&[(5, 50), (7, 70)]), (17, 19))],
    left: [(19, 19), (17, 19)],
    ..FROZEN
};

/// Plays a case, up to its end.
fn play(rt: &impl Abort, alloc: Global, case: &Case) -> Result<(), Fail> {
    let (forest, first, mut second) = opened::<u64, u64>(alloc)?;
    make_all(rt, alloc, &forest, &mut second, case.before);
    let mut kinds = Vec::new(alloc);
    let call = forest.open(alloc, first, case.call.request());
    let call = held(&forest, call, case.steps, &mut kinds)?;
    same(rt, kinds.last().copied(), case.newest);
    make_all(rt, alloc, &forest, &mut second, case.meanwhile);
    let (mut first, reply) = rest(&forest, call, &mut kinds)?;
    assert!(rt; case.told.is_of(&reply), "{reply:?}");
    assert!(rt;
        case.kinds.is_none_or(|parts| are(&kinds, parts)),
        "{kinds:?}"
    );
    make_all(rt, alloc, &forest, &mut first, case.behind);
    same(rt, [first.left(), second.left()], case.left);
    let left = end_two(alloc, forest, first, second)?;
    assert!(rt; has(&left, case.pairs), "{:?}", case.pairs);
    Ok(())
}

const CASES: [Case; 17] = [
    HELPED,
    TOO_LATE,
    POP,
    POP_LAST,
    INSERT_NEW,
    DELETE_IF,
    GET,
    NO_PAIRS,
    DELETE,
    DELETES_IF,
    SECOND_INSERT_NEW,
    SECOND_POP,
    SECOND_POP_LAST,
    REPLACEMENT,
    SUCCESSOR,
    PREDECESSOR,
    RANGE,
];

#[test]
fn a_call_that_is_held_is_helped_or_tries_again(rt: HostRuntime) -> Result<(), Fail> {
    for case in CASES {
        play(&rt, rt.alloc(), &case)?;
    }
    Ok(())
}
