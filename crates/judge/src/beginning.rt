//! What the first freezing exchange that wins for an SCX-record asks.
ghost use Rattle.std.specs.Prelude.{◌≡◌, ◌≢◌, ℕ, ◌<◌, ◌↔◌, IsTrue};
ghost use Rattle.arena.specs.Fills.{IsOwnNode, IsOwnScx};
ghost use Rattle.arena.specs.History.{value};
ghost use Rattle.arena.specs.Layout.{all_nodes};
ghost use Rattle.arena.specs.Lawful.{MayBegin};
ghost use Rattle.arena.specs.ScxRecords.{member, seen, old, field, field_index};
ghost use Rattle.arena.specs.Words.{state, info, marked};
ghost use Rattle.judge.specs.Beginning.{AreReady};
ghost use Rattle.judge.specs.Histories.{seen_history};
ghost use Rattle.judge.specs.Uses.{IsUnused};

use crate::facts::{value_of, was_in_field, was_in_other_new};
use crate::judge::Judge;
use crate::records::{count, field, member, of_node, of_scx, plan};
use arena::{Layout, NodeWord, PassNo, ScxWord};

/// Whether a node is of a pass's own share.
pub fn is_own_node(layout: &Layout, pass: PassNo, node: u64) -> bool
    requires { pass.0 < layout.now.passes }
    ensures { IsTrue result ↔ IsOwnNode layout.now pass.0 node }
{
    let first = u64::from(layout.first_node(pass));
    first <= node && node < first + u64::from(layout.nodes)
}

/// Whether an SCX-record is of a pass's own share.
pub fn is_own_scx(layout: &Layout, pass: PassNo, scx: u64) -> bool
    requires { pass.0 < layout.now.passes }
    ensures { IsTrue result ↔ IsOwnScx layout.now pass.0 scx }
{
    let first = u64::from(layout.first_scx(pass));
    first <= scx && scx < first + u64::from(layout.scx)
}

/// Whether the first nodes of an SCX-record, as many as `count`, are nodes of the table.
fn are_inside(judge: &Judge, scx: u64, count: u8) -> bool
    ensures { IsTrue result ↔
        ((j : ℕ) → j < count → member (seen_history judge.now) scx j < all_nodes judge.now.layout) }
{
    for place in 0..count {
        if member(judge, scx, place) >= u64::from(judge.layout().all_nodes()) {
            return false;
        }
    }
    true
}

/// Whether none of these nodes but that at the place is the same as the one there.
fn is_alone(judge: &Judge, scx: u64, place: u8, count: u8) -> bool
    ensures { IsTrue result ↔
        ((k : ℕ) → k < count → place ≢ k → member (seen_history judge.now) scx place ≢ member (seen_history judge.now) scx k) }
{
    for other in 0..count {
        if other != place && member(judge, scx, place) == member(judge, scx, other) {
            return false;
        }
    }
    true
}

fn are_distinct(judge: &Judge, scx: u64, count: u8) -> bool
    ensures { IsTrue result ↔
        ((j k : ℕ) → j < count → k < count → j ≢ k →
        member (seen_history judge.now) scx j ≢ member (seen_history judge.now) scx k) }
{
    for place in 0..count {
        if !is_alone(judge, scx, place, count) {
            return false;
        }
    }
    true
}

/// Whether what these nodes were frozen for is finished.
fn are_at_rest(judge: &Judge, scx: u64, count: u8) -> bool
    ensures { IsTrue result ↔
        ((j : ℕ) → j < count → value (seen_history judge.now) (state (seen (seen_history judge.now) scx j)) ≢ 0) }
{
    for place in 0..count {
        let seen = of_scx(judge, scx, ScxWord::Seen(place));
        if of_scx(judge, seen, ScxWord::State) == 0 {
            return false;
        }
    }
    true
}

/// Whether the info word of the node at a place is as the SCX-record has seen it.
pub fn is_as_seen(judge: &Judge, scx: u64, place: u8) -> bool
    ensures { IsTrue result ↔
        (value (seen_history judge.now) (info (member (seen_history judge.now) scx place)) ≡
        seen (seen_history judge.now) scx place) }
{
    let node = member(judge, scx, place);
    let seen = of_scx(judge, scx, ScxWord::Seen(place));
    of_node(judge, node, NodeWord::Info) == seen
}

fn is_unmarked(judge: &Judge, scx: u64, place: u8) -> bool
    ensures { IsTrue result ↔ (value (seen_history judge.now) (marked (member (seen_history judge.now) scx place)) ≡ 0) }
{
    let node = member(judge, scx, place);
    of_node(judge, node, NodeWord::Marked) == 0
}

/// Whether those of these nodes whose info words are as seen are not marked.
fn are_unmarked(judge: &Judge, scx: u64, count: u8) -> bool
    ensures { IsTrue result ↔ ((j : ℕ) → j < count →
        value (seen_history judge.now) (info (member (seen_history judge.now) scx j)) ≡ seen (seen_history judge.now) scx j →
        value (seen_history judge.now) (marked (member (seen_history judge.now) scx j)) ≡ 0) }
{
    for place in 0..count {
        if is_as_seen(judge, scx, place) && !is_unmarked(judge, scx, place) {
            return false;
        }
    }
    true
}

/// Whether the field shows `old` where its node's info word is as seen.
fn shows_old(judge: &Judge, scx: u64) -> bool
    ensures { let h = seen_history judge.now in IsTrue result ↔
        (value h (info (member h scx (field_index h scx))) ≡ seen h scx (field_index h scx) →
        value h (field h scx) ≡ old h scx) }
{
    let place = plan(judge, scx).at().number();
    let shown = value_of(judge, field(judge, scx));
    !is_as_seen(judge, scx, place) || shown == of_scx(judge, scx, ScxWord::Old)
}

/// Whether no field, and `new` of no other SCX-record, has named a node that was not there from the
/// start.
fn is_unused(judge: &Judge, user: u64, node: u64) -> bool
    requires { node < all_nodes judge.now.layout }
    ensures { IsTrue result ↔ IsUnused (seen_history judge.now) user node }
{
    !was_in_field(judge, node) && !was_in_other_new(judge, user, node)
}

/// Whether a node is of the pass's own share, and no field and no other `new` has named it.
fn is_fresh(judge: &Judge, pass: PassNo, user: u64, node: u64) -> bool
    requires { pass.0 < judge.now.layout.passes }
    ensures { IsTrue result ↔ (IsOwnNode judge.now.layout pass.0 node ×
        IsUnused (seen_history judge.now) user node) }
{
    is_own_node(judge.layout(), pass, node) && is_unused(judge, user, node)
}

/// Whether an SCX-record of these nodes may begin.
fn are_ready(judge: &Judge, scx: u64, count: u8) -> bool
    ensures { IsTrue result ↔ AreReady judge.now.layout (seen_history judge.now) scx count }
{
    are_inside(judge, scx, count)
        && are_distinct(judge, scx, count)
        && are_at_rest(judge, scx, count)
        && are_unmarked(judge, scx, count)
}

/// Whether the first freezing exchange for an SCX-record may win, by a pass.
pub fn may_begin(judge: &Judge, pass: PassNo, scx: u64) -> bool
    requires { pass.0 < judge.now.layout.passes }
    ensures { IsTrue result ↔ MayBegin judge.now.layout (seen_history judge.now) pass.0 scx }
{
    let new = of_scx(judge, scx, ScxWord::New);
    is_own_scx(judge.layout(), pass, scx)
        && plan(judge, scx).is_valid()
        && are_ready(judge, scx, count(judge, scx))
        && shows_old(judge, scx)
        && is_fresh(judge, pass, scx, new)
}
