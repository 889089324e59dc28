//! Whether an SCX-record that begins makes the edit of its client's call.
use crate::breach::Objection;
use crate::claimed_edit::ClaimedEdit;
use crate::details::Detail::{Call, Node, Number, Scx, Text};
use crate::leaf_edit::check_leaf_edit;
use crate::leaf_out::check_leaf_out;
use crate::lines_before::LinesBefore;
use crate::map_before::end_pair;
use crate::steps::AFTER;
use crate::trie_edit::{check_above, check_end_leaf_edit, check_end_leaf_out, end_leaf_out};
use crate::trie_keys::check_keys;
use arena::{PassNo, Row, ScxWord, Side};
use ordered_map::{Goal, Rule};
use script::Command;

/// Of a map an SCX-record that begins makes the edit of its client's call: it puts something in the
/// place of a leaf, or takes one out.
pub(crate) fn check_edit(before: &LinesBefore<'_>, row: &Row) -> Result<(), Objection> {
    if !before.judge.is_begin(row) {
        return Ok(());
    }
    let edit = claimed_edit(before, row)?;
    if edit.is_in_trie() {
        check_in_trie(&edit)?;
        check_keys(&edit)
    } else {
        check_in_tree(&edit)
    }
}

/// The edit that a client's call asks for, if it asks for one.
fn asked_edit(before: &LinesBefore<'_>, pass: PassNo) -> Option<(Goal, Rule)> {
    match before.next(pass) {
        Some(Command::Map(request)) => request.edit(),
        _ => None,
    }
}

/// The edit of the client's call for which an SCX-record begins.
fn claimed_edit<'a>(before: &'a LinesBefore<'a>, row: &Row) -> Result<ClaimedEdit<'a>, Objection> {
    let (scx, client) = (row.after, row.pass);
    let Some((goal, rule)) = asked_edit(before, client) else {
        let text = "# begins for #, which makes no edit";
        return Err(before.object(AFTER, text, &[Scx(scx), Call(client)]));
    };
    let mut edit = ClaimedEdit {
        before,
        scx,
        client,
        goal,
        rule,
        key: 0,
    };
    edit.key = key_of(&edit)?;
    Ok(edit)
}

/// In a tree it changes a leaf, or takes one out.
fn check_in_tree(edit: &ClaimedEdit<'_>) -> Result<(), Objection> {
    match edit.before.plan(edit.scx).count() {
        2 => check_leaf_edit(edit),
        4 => check_leaf_out(edit),
        many => refuse_count(edit, many, "two"),
    }
}

/// In a trie it does so too, or puts a fork above a fork; at an end of the map it covers node 2
/// besides.
fn check_in_trie(edit: &ClaimedEdit<'_>) -> Result<(), Objection> {
    let many = edit.before.plan(edit.scx).count();
    let old = edit.before.scx_word(edit.scx, ScxWord::Old);
    match (edit.goal, many) {
        (Goal::End(_), 3) => check_end_leaf_edit(edit),
        (Goal::End(_), 4) => check_end_leaf_out(edit),
        (Goal::End(_), _) => refuse_count(edit, many, "three"),
        (Goal::Key(_), 2) if edit.head(old).leaf => check_leaf_edit(edit),
        (Goal::Key(_), 2) => check_above(edit),
        (Goal::Key(_), 4) => check_leaf_out(edit),
        (Goal::Key(_), _) => refuse_count(edit, many, "two"),
    }
}

/// It covers neither so many nodes nor four.
fn refuse_count(edit: &ClaimedEdit<'_>, many: u8, few: &str) -> Result<(), Objection> {
    let text = "it covers # nodes, in place of #, or of four to take a leaf out";
    edit.demand(false, text, &[Number(u64::from(many)), Text(few)])
}

/// The key of the edit; at an end of the map it is that of the leaf there.
fn key_of(edit: &ClaimedEdit<'_>) -> Result<u64, Objection> {
    let (leaf, end) = match edit.goal {
        Goal::Key(key) => return Ok(key),
        Goal::End(side) => (end_leaf(edit, side), side),
    };
    let pair = end_pair(&edit.pairs_of(leaf)?, end);
    let text = "# holds no pair to take out";
    edit.demand(pair.is_some(), text, &[Node(leaf)])?;
    match pair {
        Some((key, _)) => Ok(key),
        None => Ok(0),
    }
}

/// The leaf at an end from which it takes a pair: of two nodes, or three in a trie, the second, of
/// four the child on that side, unless this is above all keys.
fn end_leaf(edit: &ClaimedEdit<'_>, side: Side) -> u64 {
    let (many, second) = (edit.before.plan(edit.scx).count(), edit.member(1));
    if many == 2 || (many == 3 && edit.is_in_trie()) {
        second
    } else if edit.is_in_trie() {
        end_leaf_out(edit, edit.toward(second, end_key(side)))
    } else if side == Side::Right && edit.head(edit.member(3)).class == 0 {
        edit.member(3)
    } else {
        edit.member(2)
    }
}

/// The outermost key on a side.
fn end_key(side: Side) -> u64 {
    match side {
        Side::Left => 0,
        Side::Right => u64::MAX,
    }
}
