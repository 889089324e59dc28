//! What an SCX-record may begin with in a trie alone: a split at a bit, a fork above a fork, and what
//! takes the pair at an end out, which covers node 2 besides.
ghost use Rattle.std.specs.Prelude.{◌≡◌, ◌≢◌, ◌^◌, ◌<◌, ◌⊎◌, ℕ, false, true, IsTrue};
ghost use Rattle.arena.specs.Fills.{IsNamed};
ghost use Rattle.arena.specs.ScxRecords.{member as member_of, seen as seen_at, new};
ghost use Rattle.arena.specs.Words.{child as child_of, info};
ghost use Rattle.arena.specs.declared.word.Side.{Side as SideOf};
ghost use Rattle.ordered_map.specs.EditPlans.{end_leaf_plan, end_join_plan, above_plan};
ghost use Rattle.ordered_map.specs.OrderedMap.{edit_key};
ghost use Rattle.ordered_map.specs.TreeWords.{is_leaf, opposite, toward as toward_of};
ghost use Rattle.ordered_map.specs.TrieShape.{SplitsLeaf, EditsEndLeaf, TakesEndLeafOut, PutsAbove, IsAboveBy};
ghost use Rattle.audit.specs.Edits.{edit_begun, word_now};
ghost use Rattle.judge.specs.Histories.{seen_history};

use crate::edits::{
    BegunEdit, child, edited, is_as_seen, is_join, is_split, is_swap, leaf_plan, may_edit, member,
    scx_word, toward,
};
use crate::found::FoundLeaves;
use crate::leaves::{head, held, is_low_leaf, is_readable, key_of, settled};
use crate::trie_shape::{is_low_fork, shares};
use arena::{NodeNo, Plan, ScxWord, SettledPart, Side};
use arrayvec::ArrayVec;
use judge::Judge;

/// Whether an SCX-record of two nodes splits a full leaf or puts a fork above a fork.
pub(crate) fn edits_in_trie(judge: &Judge, scx: u64, begun: &BegunEdit) -> bool
    requires { begun.now.key < 2 ^ 64 }
    ensures edit { IsTrue result → SplitsLeaf (seen_history judge.now) scx (edit_begun begun.now)
        ⊎ PutsAbove (seen_history judge.now) scx (edit_begun begun.now) }
    ensures fresh { IsTrue result → (side : SideOf) →
        is_leaf (word_now judge.now)
        (word_now judge.now (child_of (new (seen_history judge.now) scx) side)) ≡ true →
        IsNamed judge.now.layout (seen_history judge.now)
        (word_now judge.now (child_of (new (seen_history judge.now) scx) side)) → ⊥ }
{
    splits_leaf(judge, scx, begun) || puts_above(judge, scx, begun)
}

/// Whether an SCX-record covers a parent and a leaf, finalizes the leaf, and puts a fork over two
/// into the parent's field towards the key.
fn splits_leaf(judge: &Judge, scx: u64, begun: &BegunEdit) -> bool
    requires { begun.now.key < 2 ^ 64 }
    ensures edit { IsTrue result → SplitsLeaf (seen_history judge.now) scx (edit_begun begun.now) }
    ensures fresh { IsTrue result → (side : SideOf) →
        IsNamed judge.now.layout (seen_history judge.now)
        (word_now judge.now (child_of (new (seen_history judge.now) scx) side)) → ⊥ }
{
    let (parent, leaf) = (member(judge, scx, 0), member(judge, scx, 1));
    scx_word(judge, scx, ScxWord::Plan) == leaf_plan(toward(judge, parent, begun.key))
        && scx_word(judge, scx, ScxWord::Old) == leaf
        && head(judge, leaf).leaf
        && is_readable(judge, leaf)
        && is_split(judge, leaf, scx_word(judge, scx, ScxWord::New), begun)
}

/// Whether an SCX-record covers a parent and node 2, and puts a fork above the fork that the
/// parent's field towards the key is to hold.
fn puts_above(judge: &Judge, scx: u64, begun: &BegunEdit) -> bool
    ensures edit { IsTrue result → PutsAbove (seen_history judge.now) scx (edit_begun begun.now) }
    ensures fresh { IsTrue result → (side : SideOf) →
        is_leaf (word_now judge.now)
        (word_now judge.now (child_of (new (seen_history judge.now) scx) side)) ≡ true →
        IsNamed judge.now.layout (seen_history judge.now)
        (word_now judge.now (child_of (new (seen_history judge.now) scx) side)) → ⊥ }
{
    let parent = member(judge, scx, 0);
    let (old, new) = (
        scx_word(judge, scx, ScxWord::Old),
        scx_word(judge, scx, ScxWord::New),
    );
    scx_word(judge, scx, ScxWord::Plan) == above_plan(toward(judge, parent, begun.key))
        && is_above(judge, old, new, begun)
        && member(judge, scx, 1) == 2
}

/// Whether a fork goes below another one, beside a fresh leaf that holds the edit's pair alone.
fn is_above(judge: &Judge, old: u64, fork: u64, begun: &BegunEdit) -> bool
    ensures edit { IsTrue result → (leaf : ℕ) × (side : SideOf)
        × IsAboveBy (word_now judge.now) (edit_begun begun.now) old fork leaf side }
    ensures fresh { IsTrue result → (side : SideOf) →
        is_leaf (word_now judge.now) (word_now judge.now (child_of fork side)) ≡ true →
        IsNamed judge.now.layout (seen_history judge.now)
        (word_now judge.now (child_of fork side)) → ⊥ }
{
    let side = toward(judge, fork, begun.key);
    let leaf = child(judge, fork, side);
    is_low_fork(judge, old)
        && is_low_fork(judge, fork)
        && child(judge, fork, opposite(side)) == old
        && !judge.is_named_node(NodeNo(leaf))
        && is_low_leaf(judge, leaf)
        && held(judge, leaf) == edited(begun, ArrayVec::new())
}

fn opposite(side: Side) -> Side
    ensures { result ≡ opposite side }
{
    match side {
        Side::Left => Side::Right,
        Side::Right => Side::Left,
    }
}

/// Whether an SCX-record covers a parent, the leaf at an end and node 2, finalizes the leaf, and puts
/// another leaf into the parent's field towards the key.
pub(crate) fn edits_end_leaf(judge: &Judge, scx: u64, begun: &BegunEdit) -> bool
    ensures { IsTrue result → EditsEndLeaf (seen_history judge.now) scx (edit_begun begun.now) }
{
    let (parent, leaf) = (member(judge, scx, 0), member(judge, scx, 1));
    let new = scx_word(judge, scx, ScxWord::New);
    scx_word(judge, scx, ScxWord::Plan) == end_leaf_plan(toward(judge, parent, begun.key))
        && scx_word(judge, scx, ScxWord::Old) == leaf
        && member(judge, scx, 2) == 2
        && head(judge, leaf).leaf
        && head(judge, new).level == head(judge, leaf).level
        && is_readable(judge, leaf)
        && may_edit(judge, leaf, begun)
        && is_swap(judge, leaf, new, begun)
}

/// Whether an SCX-record covers a grandparent, a parent, the sibling of the leaf at an end and node
/// 2, finalizes the parent and the sibling, and puts a copy of this into the grandparent's field
/// towards the key.
pub(crate) fn takes_end_leaf_out(
    judge: &Judge,
    scx: u64,
    begun: &BegunEdit,
    found: FoundLeaves,
) -> bool
    ensures { IsTrue result → TakesEndLeafOut (seen_history judge.now) scx (edit_begun begun.now)
        (toward_of (word_now judge.now) (member_of (seen_history judge.now) scx 1)
        (edit_key (edit_begun begun.now))) }
{
    let plan = end_join_plan(toward(judge, member(judge, scx, 0), begun.key));
    let side = toward(judge, member(judge, scx, 1), begun.key);
    let leaf = end_leaf_out(judge, scx, side, found);
    scx_word(judge, scx, ScxWord::Plan) == plan
        && scx_word(judge, scx, ScxWord::Old) == member(judge, scx, 1)
        && member(judge, scx, 3) == 2
        && is_join(judge, scx, leaf, 2, begun)
        && is_sibling(judge, scx, side)
}

/// Whether the third node is what the second names beside this side, where that is as it was seen.
fn is_sibling(judge: &Judge, scx: u64, side: Side) -> bool
    ensures { IsTrue result →
        word_now judge.now (info (member_of (seen_history judge.now) scx 1)) ≡ seen_at
        (seen_history judge.now) scx 1 →
        word_now judge.now (child_of (member_of (seen_history judge.now) scx 1) (opposite side)) ≡
        member_of (seen_history judge.now) scx 2 }
{
    !is_as_seen(judge, scx, 1)
        || child(judge, member(judge, scx, 1), opposite(side)) == member(judge, scx, 2)
}

/// The leaf at an end that an SCX-record takes out: what its second node names on this side. If that
/// has changed since it was seen, the SCX-record can win no more, and it is one that its client has
/// found.
pub(crate) fn end_leaf_out(judge: &Judge, scx: u64, side: Side, found: FoundLeaves) -> u64
    ensures { word_now judge.now (info (member_of (seen_history judge.now) scx 1)) ≡ seen_at (seen_history judge.now) scx 1 →
        result ≡ word_now judge.now (child_of (member_of (seen_history judge.now) scx 1) side) }
{
    if is_as_seen(judge, scx, 1) {
        child(judge, member(judge, scx, 1), side)
    } else if may_take_out(judge, scx, found.before) {
        found.before
    } else {
        found.newest
    }
}

/// Whether a node is a leaf of one pair, whose key may stand where an SCX-record changes a field.
fn may_take_out(judge: &Judge, scx: u64, node: u64) -> bool {
    let (fork, key) = (member(judge, scx, 0), key_of(judge, node));
    is_low_leaf(judge, node)
        && settled(judge, node, SettledPart::More) == 0
        && shares(judge, fork, key)
        && toward(judge, fork, key) == Plan(scx_word(judge, scx, ScxWord::Plan)).side()
}

/// The plan word of an edit of the leaf at an end, that changes the field on a side.
fn end_leaf_plan(side: Side) -> u64
    ensures { result ≡ end_leaf_plan side }
{
    match side {
        Side::Left => 19,
        Side::Right => 531,
    }
}

/// The plan word of taking the leaf at an end out, that changes the field on a side.
fn end_join_plan(side: Side) -> u64
    ensures { result ≡ end_join_plan side }
{
    match side {
        Side::Left => 52,
        Side::Right => 564,
    }
}

/// The plan word of putting a fork above a fork, that changes the field on a side.
fn above_plan(side: Side) -> u64
    ensures { result ≡ above_plan side }
{
    match side {
        Side::Left => 2,
        Side::Right => 514,
    }
}
