//! Edits that take a leaf out.
use crate::breach::Objection;
use crate::claimed_edit::ClaimedEdit;
use crate::details::Detail::{Node, Pairs, Text};
use arena::Side;

/// It covers two forks, one below the other, and the two children of the second: one is a leaf of
/// which the call leaves nothing, and `new` is a copy of the other.
pub(crate) fn check_leaf_out(edit: &ClaimedEdit<'_>) -> Result<(), Objection> {
    let fork = edit.member(1);
    edit.check_place(116, 628, "retires all nodes but the first")?;
    let text = "#, its second node, is no fork";
    edit.demand(!edit.head(fork).leaf, text, &[Node(fork)])?;
    check_children(edit, fork)?;
    let (leaf, place) = match edit.toward(fork, edit.key) {
        Side::Left => (edit.member(2), 3),
        Side::Right => (edit.member(3), 2),
    };
    check_taken(edit, leaf, place)
}

/// The call leaves nothing of the leaf, and `new` is a copy of the node at this place.
pub(crate) fn check_taken(edit: &ClaimedEdit<'_>, leaf: u64, place: u8) -> Result<(), Objection> {
    edit.check_low_leaf(leaf)?;
    edit.check_asks(leaf)?;
    let left = edit.pairs_left(leaf)?;
    let text = "it takes # out, of which the call leaves #";
    edit.demand(left.is_empty(), text, &[Node(leaf), Pairs(&left)])?;
    check_copy(edit, place)
}

/// The last two nodes are the children of the second, where this is as it was seen.
fn check_children(edit: &ClaimedEdit<'_>, fork: u64) -> Result<(), Objection> {
    for (side, place) in [(Side::Left, 2), (Side::Right, 3)] {
        check_child(edit, fork, side, edit.member(place))?;
    }
    Ok(())
}

/// A node is the child of the second on this side, where the second is as it was seen.
pub(crate) fn check_child(
    edit: &ClaimedEdit<'_>,
    fork: u64,
    side: Side,
    node: u64,
) -> Result<(), Objection> {
    let child = edit.child(fork, side);
    let text = "it covers # in place of #, a child of #";
    let details = [Node(node), Node(child), Node(fork)];
    edit.demand(
        child == node || !edit.before.is_as_seen(edit.scx, 1),
        text,
        &details,
    )
}

/// `new` has the head and the key of the node at a place, and its pairs, or, where that is as it
/// was seen, its fields.
fn check_copy(edit: &ClaimedEdit<'_>, place: u8) -> Result<(), Objection> {
    let node = edit.member(place);
    let new = edit.new_node();
    check_part(edit, place, "head", edit.head(new) == edit.head(node))?;
    check_part(edit, place, "key", edit.key_of(new) == edit.key_of(node))?;
    if edit.head(node).leaf {
        return check_pairs(edit, place, new, node);
    }
    let has_fields = edit.child(new, Side::Left) == edit.child(node, Side::Left)
        && edit.child(new, Side::Right) == edit.child(node, Side::Right);
    let is_same = has_fields || !edit.before.is_as_seen(edit.scx, place);
    check_part(edit, place, "fields", is_same)
}

fn check_pairs(edit: &ClaimedEdit<'_>, place: u8, new: u64, node: u64) -> Result<(), Objection> {
    edit.check_leaf(new)?;
    edit.check_leaf(node)?;
    let (put, wanted) = (edit.pairs_of(new)?, edit.pairs_of(node)?);
    check_part(edit, place, "pairs", put.as_slice() == wanted.as_slice())
}

/// This part of `new` is that of the node at a place.
fn check_part(
    edit: &ClaimedEdit<'_>,
    place: u8,
    part: &str,
    is_same: bool,
) -> Result<(), Objection> {
    let text = "its new, #, is no copy of #, which has another #";
    let details = [Node(edit.new_node()), Node(edit.member(place)), Text(part)];
    edit.demand(is_same, text, &details)
}
