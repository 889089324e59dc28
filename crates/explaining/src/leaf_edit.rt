//! Edits that put another leaf, or a fork over two, in the place of a leaf.
use crate::breach::Objection;
use crate::claimed_edit::ClaimedEdit;
use crate::details::Detail::{Node, Number, Pairs};
use crate::map_before::MapPairs;
use arena::{NodeNo, Side};
use std::alloc::AllocError;

/// It covers a fork and a leaf below it, and `new` holds what the call makes of the leaf.
pub(crate) fn check_leaf_edit(edit: &ClaimedEdit<'_>) -> Result<(), Objection> {
    let (leaf, new) = (edit.member(1), edit.new_node());
    edit.check_place(18, 530, "retires its second node")?;
    edit.check_leaf(leaf)?;
    edit.check_asks(leaf)?;
    if edit.head(new).leaf {
        check_swap(edit, leaf, new)
    } else {
        check_split(edit, leaf, new)
    }
}

/// `new` is on the level of the leaf in whose place it comes.
fn check_level(edit: &ClaimedEdit<'_>, leaf: u64, new: u64) -> Result<(), Objection> {
    let (level, wanted) = (edit.head(new).level, edit.head(leaf).level);
    let text = "# has level # in place of #, that of #";
    let details = [Node(new), Number(level), Number(wanted), Node(leaf)];
    edit.demand(level == wanted, text, &details)
}

/// Another leaf comes in the place of a leaf that has pairs.
pub(crate) fn check_swap(edit: &ClaimedEdit<'_>, leaf: u64, new: u64) -> Result<(), Objection> {
    check_level(edit, leaf, new)?;
    let text = "it puts the leaf # in place of #, which is above all keys and needs a fork";
    edit.demand(edit.head(leaf).class == 0, text, &[Node(new), Node(leaf)])?;
    edit.check_low_leaf(new)?;
    check_pairs(edit, leaf, &edit.pairs_of(new)?)
}

/// The pairs are those that the call makes of a leaf.
fn check_pairs(edit: &ClaimedEdit<'_>, leaf: u64, put: &MapPairs) -> Result<(), Objection> {
    let (shown, wanted) = (edit.pairs_of(leaf)?, edit.pairs_left(leaf)?);
    let text = "it puts # in place of #, which the call makes of #";
    let details = [Pairs(put), Pairs(&wanted), Pairs(&shown)];
    edit.demand(put.as_slice() == wanted.as_slice(), text, &details)
}

/// A fork comes in the place of a leaf, over two fresh ones: between them they have what the call
/// makes of its pairs, and the right one is a leaf of the same class. In a tree the fork has its key.
fn check_split(edit: &ClaimedEdit<'_>, leaf: u64, fork: u64) -> Result<(), Objection> {
    let (left, right) = (edit.child(fork, Side::Left), edit.child(fork, Side::Right));
    let is_high = edit.head(leaf).class > 0;
    if !edit.is_in_trie() {
        check_level(edit, leaf, fork)?;
    }
    check_fresh(edit, fork, left)?;
    check_fresh(edit, fork, right)?;
    edit.check_low_leaf(left)?;
    edit.check_leaf(right)?;
    check_alike(edit, right, leaf, is_high)?;
    check_alike(edit, fork, right, is_high || !edit.is_in_trie())?;
    let (low, high) = (edit.pairs_of(left)?, edit.pairs_of(right)?);
    check_side(edit, fork, left, Side::Left, &low)?;
    check_side(edit, fork, right, Side::Right, &high)?;
    check_pairs(edit, leaf, &joined(low, &high)?)
}

/// The pairs of two leaves, those of the left one in front.
fn joined(mut low: MapPairs, high: &MapPairs) -> Result<MapPairs, AllocError> {
    for pair in high.iter() {
        low.push(*pair)?;
    }
    Ok(low)
}

/// A node below the fork is named by no word yet, and, in a tree, one level below it.
fn check_fresh(edit: &ClaimedEdit<'_>, fork: u64, node: u64) -> Result<(), Objection> {
    check_unnamed(edit, fork, node)?;
    let (level, above) = (edit.head(node).level, edit.head(fork).level);
    let wanted = above.saturating_add(1);
    let text = "# has level # in place of #, just below #";
    let details = [Node(node), Number(level), Number(wanted), Node(fork)];
    edit.demand(level == wanted || edit.is_in_trie(), text, &details)
}

/// A node below the fork is named by no word yet.
pub(crate) fn check_unnamed(edit: &ClaimedEdit<'_>, fork: u64, node: u64) -> Result<(), Objection> {
    let text = "#, below #, is named already";
    let details = [Node(node), Node(fork)];
    edit.demand(
        !edit.before.judge.is_named_node(NodeNo(node)),
        text,
        &details,
    )
}

/// Two nodes are of one class, and have one key if that is asked.
fn check_alike(
    edit: &ClaimedEdit<'_>,
    node: u64,
    other: u64,
    has_its_key: bool,
) -> Result<(), Objection> {
    let (class, wanted) = (edit.head(node).class, edit.head(other).class);
    let text = "# has class # in place of #, that of #";
    let details = [
        Node(node),
        Number(u64::from(class)),
        Number(u64::from(wanted)),
        Node(other),
    ];
    edit.demand(class == wanted, text, &details)?;
    let (key, wanted) = (edit.key_of(node), edit.key_of(other));
    let text = "# has key # in place of #, that of #";
    let details = [Node(node), Number(key), Number(wanted), Node(other)];
    edit.demand(key == wanted || !has_its_key, text, &details)
}

/// The keys of a leaf are on its side of the fork.
fn check_side(
    edit: &ClaimedEdit<'_>,
    fork: u64,
    leaf: u64,
    side: Side,
    pairs: &MapPairs,
) -> Result<(), Objection> {
    let parting = edit.key_of(fork);
    for (key, _) in pairs.iter() {
        let text = "# has key # on the wrong side of #, of key #";
        let details = [Node(leaf), Number(*key), Node(fork), Number(parting)];
        edit.demand(edit.toward(fork, *key) == side, text, &details)?;
    }
    Ok(())
}
