//! The steps of an SCX.
ghost use Rattle.std.specs.Prelude.{◌≡◌, ◌≢◌, ℕ, ◌<◌, ◌⊎◌, ◌↔◌, IsTrue, true};
ghost use Rattle.arena.specs.Fills.{IsOwnScx};
ghost use Rattle.arena.specs.History.{value};
ghost use Rattle.arena.specs.Lawful.{IsExchange, IsFreeze, IsSetFrozen, IsMark, AllAreMarked, IsUpdate, IsCommit, IsAbort, MayBegin, IsFrozen, AreFrozen};
ghost use Rattle.arena.specs.ScxRecords.{member, count, scx_finalizes};
ghost use Rattle.arena.specs.Words.{state, marked};
ghost use Rattle.arena.specs.declared.step.Kind.TheVariants.{Update};
ghost use Rattle.judge.specs.Histories.{seen_history};

use crate::beginning::{is_as_seen, is_own_scx, may_begin};
use crate::entering::finalizes;
use crate::facts::{frozen_count, has_won, last_loaded};
use crate::judge::Judge;
use crate::records::{are_frozen, count, field, is_same, member, of_node, of_scx, plan};
use arena::{NodeNo, NodeWord, PassNo, Row, ScxNo, ScxWord, Word};

/// Whether a row is an exchange of one value for another, won or lost.
fn is_exchange(row: &Row, expected: u64, stored: u64) -> bool
    ensures { IsTrue result ↔ IsExchange row.now expected stored }
{
    if row.before == expected {
        row.after == stored
    } else {
        row.after == row.before
    }
}

/// Whether a freezing exchange of the node at a place may win, by a pass.
fn may_win(judge: &Judge, pass: PassNo, scx: u64, place: u8) -> bool
    requires { pass.0 < judge.now.layout.passes }
    ensures { IsTrue result ↔ ((value (seen_history judge.now) (state scx) ≡ 0) ×
        (place ≡ 0 → MayBegin judge.now.layout (seen_history judge.now) pass.0 scx)) }
{
    of_scx(judge, scx, ScxWord::State) == 0 && (place > 0 || may_begin(judge, pass, scx))
}

/// Whether a row freezes the node at a place for an SCX-record.
fn is_freeze(judge: &Judge, row: &Row, scx: u64, place: u8) -> bool
    requires { row.now.pass.0 < judge.now.layout.passes }
    ensures { IsTrue result ↔ IsFreeze judge.now.layout (seen_history judge.now) row.now scx place }
{
    let info = Word::Node(NodeNo(member(judge, scx, place)), NodeWord::Info);
    let seen = of_scx(judge, scx, ScxWord::Seen(place));
    place < count(judge, scx)
        && is_same(row.word, info)
        && are_frozen(judge, scx, place)
        && is_exchange(row, seen, scx)
        && (row.before != seen || may_win(judge, row.pass, scx, place))
}

/// Whether a row freezes some node for an SCX-record.
fn is_freeze_for(judge: &Judge, row: &Row, scx: u64) -> bool
    requires { row.now.pass.0 < judge.now.layout.passes }
    ensures { IsTrue result ↔ ((j : ℕ) ×
        IsFreeze judge.now.layout (seen_history judge.now) row.now scx j) }
{
    for place in 0..count(judge, scx) {
        if is_freeze(judge, row, scx, place) {
            return true;
        }
    }
    false
}

/// Whether a row freezes some node for some SCX-record. One that wins leaves it there. One that
/// loses is mostly for that which it finds there, or for the one a word of which its pass has
/// loaded last; only if it is for neither are all looked at.
pub fn is_some_freeze(judge: &Judge, row: &Row) -> bool
    requires { row.now.pass.0 < judge.now.layout.passes }
    ensures { IsTrue result ↔ ((s j : ℕ) ×
        IsFreeze judge.now.layout (seen_history judge.now) row.now s j) }
{
    is_freeze_for(judge, row, row.after)
        || is_freeze_for(judge, row, last_loaded(judge, row.pass))
        || (row.before == row.after && is_freeze_for_any(judge, row))
}

fn is_freeze_for_any(judge: &Judge, row: &Row) -> bool
    requires { row.now.pass.0 < judge.now.layout.passes }
    ensures { IsTrue result ↔ ((s j : ℕ) ×
        IsFreeze judge.now.layout (seen_history judge.now) row.now s j) }
{
    judge.laws_hold();
    for scx in 0..u64::from(judge.layout().all_scx()) {
        if is_freeze_for(judge, row, scx) {
            return true;
        }
    }
    false
}

/// Whether a row says that all nodes of an SCX-record are frozen.
fn is_set_frozen(judge: &Judge, row: &Row, scx: u64) -> bool
    ensures { IsTrue result ↔ IsSetFrozen (seen_history judge.now) row.now scx }
{
    let count = count(judge, scx);
    is_same(row.word, Word::Scx(ScxNo(scx), ScxWord::AllFrozen))
        && row.after == 1
        && 0 < count
        && are_frozen(judge, scx, count)
}

/// Whether a row says that all nodes are frozen, for the SCX-record of its word.
pub fn is_some_set_frozen(judge: &Judge, row: &Row) -> bool
    ensures { IsTrue result ↔ ((s : ℕ) × IsSetFrozen (seen_history judge.now) row.now s) }
{
    match row.word {
        Word::Scx(scx, _) => is_set_frozen(judge, row, scx.0),
        Word::Node(_, _) => false,
    }
}

/// Whether a row marks the node at a place, which an SCX-record finalizes.
fn is_mark(judge: &Judge, row: &Row, scx: u64, place: u8) -> bool
    requires { place < 4 }
    ensures { IsTrue result ↔ IsMark (seen_history judge.now) row.now scx place }
{
    let marked = Word::Node(NodeNo(member(judge, scx, place)), NodeWord::Marked);
    let all_frozen = of_scx(judge, scx, ScxWord::AllFrozen);
    place < count(judge, scx)
        && finalizes(plan(judge, scx), place)
        && is_same(row.word, marked)
        && row.after == 1
        && all_frozen == 1
}

fn is_mark_for(judge: &Judge, row: &Row, scx: u64) -> bool
    ensures { IsTrue result ↔ ((j : ℕ) × IsMark (seen_history judge.now) row.now scx j) }
{
    for place in 0..count(judge, scx) {
        if is_mark(judge, row, scx, place) {
            return true;
        }
    }
    false
}

/// Whether a row marks a node for some SCX-record. Its info word still names that one.
pub fn is_some_mark(judge: &Judge, row: &Row) -> bool
    ensures { IsTrue result ↔ ((s j : ℕ) × IsMark (seen_history judge.now) row.now s j) }
{
    match row.word {
        Word::Node(node, _) => {
            judge.laws_hold();
            let scx = of_node(judge, node.0, NodeWord::Info);
            is_mark_for(judge, row, scx)
        }
        Word::Scx(_, _) => false,
    }
}

/// Whether the node at a place is marked.
fn is_marked(judge: &Judge, scx: u64, place: u8) -> bool
    ensures { IsTrue result ↔ (value (seen_history judge.now) (marked (member (seen_history judge.now) scx place)) ≡ 1) }
{
    let node = member(judge, scx, place);
    of_node(judge, node, NodeWord::Marked) == 1
}

/// Whether the nodes that an SCX-record finalizes are marked.
fn are_marked(judge: &Judge, scx: u64) -> bool
    ensures { IsTrue result ↔ AllAreMarked (seen_history judge.now) scx }
{
    let plan = plan(judge, scx);
    for place in 0..count(judge, scx) {
        if finalizes(plan, place) && !is_marked(judge, scx, place) {
            return false;
        }
    }
    true
}

/// Whether a row is an update by an SCX-record.
fn is_update(judge: &Judge, row: &Row, scx: u64) -> bool
    ensures { IsTrue result ↔ IsUpdate (seen_history judge.now) row.now scx }
{
    let old = of_scx(judge, scx, ScxWord::Old);
    let new = of_scx(judge, scx, ScxWord::New);
    is_same(row.word, field(judge, scx))
        && of_scx(judge, scx, ScxWord::AllFrozen) == 1
        && are_marked(judge, scx)
        && is_exchange(row, old, new)
}

/// Whether a row is an update by some SCX-record. One that wins is by that which the info of the
/// field's node names. One that loses mostly too, or by the one a word of which its pass has loaded
/// last; only if it is by neither are all looked at.
pub fn is_some_update(judge: &Judge, row: &Row) -> bool
    requires pass { row.now.pass.0 < judge.now.layout.passes }
    requires kind { row.now.kind ≡ Update }
    requires before { row.now.before ≡ value (seen_history judge.now) row.now.word }
    ensures { IsTrue result ↔ ((s : ℕ) × IsUpdate (seen_history judge.now) row.now s) }
{
    let Word::Node(node, _) = row.word else {
        return false;
    };
    judge.laws_hold();
    is_update(judge, row, of_node(judge, node.0, NodeWord::Info))
        || is_update(judge, row, last_loaded(judge, row.pass))
        || (row.before == row.after && is_update_of_any(judge, row))
}

fn is_update_of_any(judge: &Judge, row: &Row) -> bool
    ensures { IsTrue result ↔ ((s : ℕ) × IsUpdate (seen_history judge.now) row.now s) }
{
    judge.laws_hold();
    for scx in 0..u64::from(judge.layout().all_scx()) {
        if is_update(judge, row, scx) {
            return true;
        }
    }
    false
}

/// Whether a row commits the SCX-record of its word, one of whose updates has won.
pub fn is_some_commit(judge: &Judge, row: &Row) -> bool
    ensures { IsTrue result ↔ ((s : ℕ) × IsCommit (seen_history judge.now) row.now s) }
{
    match row.word {
        Word::Scx(scx, ScxWord::State) => row.after == 1 && has_won(judge, scx.0),
        _ => false,
    }
}

/// Whether a pass may know that an SCX-record has begun, or that it has not: it is its own, or its
/// first node was ever frozen for it.
fn may_end(judge: &Judge, pass: PassNo, scx: u64) -> bool
    requires is_pass { pass.0 < judge.now.layout.passes }
    requires some { 0 < count (seen_history judge.now) scx }
    ensures { IsTrue result ↔ (IsOwnScx judge.now.layout pass.0 scx ⊎ IsFrozen (seen_history judge.now) scx 0) }
{
    is_own_scx(judge.layout(), pass, scx) || 0 < frozen_count(judge, scx)
}

/// Whether the node at a place is the first that was never frozen for an SCX-record.
fn is_next(judge: &Judge, scx: u64, place: u8) -> bool
    requires { place < count (seen_history judge.now) scx }
    ensures { IsTrue result ↔
        (AreFrozen (seen_history judge.now) scx place × (IsFrozen (seen_history judge.now) scx place → ⊥)) }
{
    place == frozen_count(judge, scx)
}

/// Whether a row aborts an SCX-record since the node at a place is no longer as it has seen it.
fn is_abort(judge: &Judge, row: &Row, scx: u64, place: u8) -> bool
    requires { row.now.pass.0 < judge.now.layout.passes }
    ensures { IsTrue result ↔ IsAbort judge.now.layout (seen_history judge.now) row.now scx place }
{
    is_same(row.word, Word::Scx(ScxNo(scx), ScxWord::State))
        && row.after == 2
        && of_scx(judge, scx, ScxWord::AllFrozen) == 0
        && place < count(judge, scx)
        && may_end(judge, row.pass, scx)
        && is_next(judge, scx, place)
        && !is_as_seen(judge, scx, place)
}

/// Whether a row aborts the SCX-record of its word.
pub fn is_some_abort(judge: &Judge, row: &Row) -> bool
    requires { row.now.pass.0 < judge.now.layout.passes }
    ensures { IsTrue result ↔ ((s j : ℕ) ×
        IsAbort judge.now.layout (seen_history judge.now) row.now s j) }
{
    match row.word {
        Word::Scx(scx, _) => is_abort(judge, row, scx.0, frozen_count(judge, scx.0)),
        Word::Node(_, _) => false,
    }
}
