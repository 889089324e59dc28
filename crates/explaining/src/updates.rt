//! Updates of fields.
use crate::begins::field_of;
use crate::breach::Objection;
use crate::details::Detail::{Named, Node, Number, Scx};
use crate::lines_before::LinesBefore;
use crate::steps::{AFTER, WORD};
use crate::stores::{check_all_frozen, finalizes};
use arena::{NodeNo, NodeWord, Row, ScxWord, Word};

/// An update exchanges the field of an SCX-record from `old` to `new`, once all its nodes are frozen
/// and what it finalizes is marked.
pub(crate) fn check_update(before: &LinesBefore<'_>, row: &Row) -> Result<(), Objection> {
    let Word::Node(node, NodeWord::Child(_)) = row.word else {
        let text = "# in place of a field of a node, which an update exchanges";
        return Err(before.object(WORD, text, &[Named(row.word)]));
    };
    let scx = before.node_word(node.0, NodeWord::Info);
    if row.before == row.after && field_of(before, scx) != row.word {
        return check_lost(before, row);
    }
    check_its_field(before, row.word, node, scx)?;
    check_ready(before, scx)?;
    check_exchange(before, row, scx)
}

/// The word is the field of the SCX-record that the info of its node names.
fn check_its_field(
    before: &LinesBefore<'_>,
    field: Word,
    node: NodeNo,
    scx: u64,
) -> Result<(), Objection> {
    let text = "the info of # names #, whose field is not #";
    let details = [Node(node.0), Scx(scx), Named(field)];
    before.demand(field_of(before, scx) == field, WORD, text, &details)
}

/// All its nodes are frozen, and what it finalizes is marked.
fn check_ready(before: &LinesBefore<'_>, scx: u64) -> Result<(), Objection> {
    check_all_frozen(before, scx)?;
    for place in 0..before.plan(scx).count() {
        check_marked(before, scx, place)?;
    }
    Ok(())
}

/// A node that it finalizes is marked.
fn check_marked(before: &LinesBefore<'_>, scx: u64, place: u8) -> Result<(), Objection> {
    let node = before.member(scx, place);
    let is_marked = before.node_word(node, NodeWord::Marked) == 1;
    let text = "#, which # finalizes, is not marked";
    let details = [Node(node), Scx(scx)];
    before.demand(
        is_marked || !finalizes(before, scx, place),
        WORD,
        text,
        &details,
    )
}

/// What it leaves is `new`, or, where it does not find `old`, what it finds.
fn check_exchange(before: &LinesBefore<'_>, row: &Row, scx: u64) -> Result<(), Objection> {
    let old = before.scx_word(scx, ScxWord::Old);
    if row.before == old {
        return check_put(before, row, scx);
    }
    let text = "# in place of #, since the exchange is lost: old of # is #";
    let details = [Number(row.after), Number(row.before), Scx(scx), Number(old)];
    before.demand(row.after == row.before, AFTER, text, &details)
}

/// What it leaves is `new`.
fn check_put(before: &LinesBefore<'_>, row: &Row, scx: u64) -> Result<(), Objection> {
    let new = before.scx_word(scx, ScxWord::New);
    let text = "# in place of #, the word new of #";
    let details = [Number(row.after), Number(new), Scx(scx)];
    before.demand(row.after == new, AFTER, text, &details)
}

/// One that changes nothing, and is not of the SCX-record that the info names, is lost by another.
fn check_lost(before: &LinesBefore<'_>, row: &Row) -> Result<(), Objection> {
    let Some(scx) = before.probable_scx(row.pass, row.word) else {
        let text = "no SCX-record has the field #";
        return Err(before.object(WORD, text, &[Named(row.word)]));
    };
    check_ready(before, scx)?;
    let new = before.scx_word(scx, ScxWord::New);
    let text = "# in place of #, since the exchange wins: old of # is # too";
    let details = [Number(row.after), Number(new), Scx(scx), Number(row.before)];
    Err(before.object(AFTER, text, &details))
}
