//! Edits that are made in a trie alone. They cover node 2 as the last.
use crate::breach::Objection;
use crate::claimed_edit::ClaimedEdit;
use crate::details::Detail::{Node, Pairs};
use crate::leaf_edit::{check_swap, check_unnamed};
use crate::leaf_out::{check_child, check_taken};
use crate::trie_keys::shares;
use arena::{Kind, NodeWord, ScxNo, ScxWord, SettledPart, Side, Word};

/// It covers a fork, the leaf at an end and node 2, and `new` is a leaf of what the call leaves.
pub(crate) fn check_end_leaf_edit(edit: &ClaimedEdit<'_>) -> Result<(), Objection> {
    let leaf = edit.member(1);
    edit.check_place(19, 531, "retires its second node")?;
    check_guard(edit, 2)?;
    edit.check_leaf(leaf)?;
    edit.check_asks(leaf)?;
    check_swap(edit, leaf, edit.new_node())
}

/// It covers two forks, one below the other, a child of the second and node 2: the other child is
/// the leaf at an end, of which the call leaves nothing, and `new` is a copy of the first.
pub(crate) fn check_end_leaf_out(edit: &ClaimedEdit<'_>) -> Result<(), Objection> {
    let fork = edit.member(1);
    edit.check_place(52, 564, "retires its second and its third node")?;
    check_guard(edit, 3)?;
    let text = "#, its second node, is no fork";
    edit.demand(!edit.head(fork).leaf, text, &[Node(fork)])?;
    let side = edit.toward(fork, edit.key);
    check_child(edit, fork, opposite(side), edit.member(2))?;
    check_taken(edit, end_leaf_out(edit, side), 2)
}

/// The leaf at an end that it takes out: what its second node names on this side. If that has changed
/// since it was seen, it can win no more, and the leaf is one that its client has found.
pub(crate) fn end_leaf_out(edit: &ClaimedEdit<'_>, side: Side) -> u64 {
    if edit.before.is_as_seen(edit.scx, 1) {
        return edit.child(edit.member(1), side);
    }
    let owner = edit.before.judge.layout().owner(ScxNo(edit.scx));
    let mut found = edit
        .before
        .rows
        .iter()
        .rev()
        .filter_map(|row| match row.word {
            Word::Node(node, NodeWord::Settled(SettledPart::More))
                if row.kind == Kind::LoadSettled && Some(row.pass) == owner => { Some(node.0) }
            _ => None,
        });
    let newest = found.next().unwrap_or(0);
    match found.next() {
        Some(leaf) if may_take_out(edit, leaf) => leaf,
        _ => newest,
    }
}

/// Whether a node is a leaf of one pair, whose key may stand where its field is.
fn may_take_out(edit: &ClaimedEdit<'_>, node: u64) -> bool {
    let (head, key, fork) = (edit.head(node), edit.key_of(node), edit.member(0));
    head.leaf
        && head.class == 0
        && edit.settled(node, SettledPart::More) == 0
        && shares(edit, fork, key)
        && edit.toward(fork, key) == edit.before.plan(edit.scx).side()
}

/// It covers a fork and node 2, and `new` is a fork over the one that stood there and a fresh leaf of
/// the call's pair.
pub(crate) fn check_above(edit: &ClaimedEdit<'_>) -> Result<(), Objection> {
    let fork = edit.new_node();
    let old = edit.before.scx_word(edit.scx, ScxWord::Old);
    edit.check_field(2, 514, "retires no node")?;
    check_guard(edit, 1)?;
    check_low_fork(edit, old)?;
    check_low_fork(edit, fork)?;
    let side = edit.toward(fork, edit.key);
    let below = edit.child(fork, opposite(side));
    let text = "# has # beside the new leaf in place of #, its old";
    edit.demand(below == old, text, &[Node(fork), Node(below), Node(old)])?;
    check_lone_leaf(edit, fork, edit.child(fork, side))
}

/// A leaf below the fork is fresh, and holds just what the call puts in.
fn check_lone_leaf(edit: &ClaimedEdit<'_>, fork: u64, leaf: u64) -> Result<(), Objection> {
    check_unnamed(edit, fork, leaf)?;
    edit.check_low_leaf(leaf)?;
    edit.check_asks(edit.member(1))?;
    let (put, wanted) = (edit.pairs_of(leaf)?, edit.pairs_left(edit.member(1))?);
    let text = "it puts # above a fork in place of #";
    let details = [Pairs(&put), Pairs(&wanted)];
    edit.demand(put.as_slice() == wanted.as_slice(), text, &details)
}

/// A node is a fork that is not above all keys.
fn check_low_fork(edit: &ClaimedEdit<'_>, node: u64) -> Result<(), Objection> {
    let head = edit.head(node);
    let text = "# is no fork of class 0";
    edit.demand(!head.leaf && head.class == 0, text, &[Node(node)])
}

/// Its node at this place, the last, is node 2.
fn check_guard(edit: &ClaimedEdit<'_>, place: u8) -> Result<(), Objection> {
    let last = edit.member(place);
    let text = "its last node is # in place of n2";
    edit.demand(last == 2, text, &[Node(last)])
}

fn opposite(side: Side) -> Side {
    match side {
        Side::Left => Side::Right,
        Side::Right => Side::Left,
    }
}
