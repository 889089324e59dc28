//! Freezing exchanges.
use crate::begins::check_beginning;
use crate::breach::Objection;
use crate::details::Detail::{Named, Node, Number, Scx};
use crate::lines_before::LinesBefore;
use crate::steps::{AFTER, WORD};
use arena::{NodeNo, NodeWord, Row, ScxWord, Word};

/// A freeze exchanges the info of a node that an SCX-record covers, from its `i` word to the
/// SCX-record, and all its earlier nodes have been frozen for it.
pub(crate) fn check_freeze(before: &LinesBefore<'_>, row: &Row) -> Result<(), Objection> {
    let Word::Node(node, NodeWord::Info) = row.word else {
        let text = "# in place of the info of a node, which a freeze exchanges";
        return Err(before.object(WORD, text, &[Named(row.word)]));
    };
    if row.before == row.after {
        return check_lost(before, row, node);
    }
    check_won(before, row, node)
}

/// One that changes the info wins, so it is for the SCX-record that it leaves there.
fn check_won(before: &LinesBefore<'_>, row: &Row, node: NodeNo) -> Result<(), Objection> {
    let (scx, node) = (row.after, node.0);
    let Some(place) = before.place_of(scx, node) else {
        let text = "# does not cover #, so it does not freeze it";
        return Err(before.object(AFTER, text, &[Scx(scx), Node(node)]));
    };
    check_wins(before, row, scx, place)?;
    check_earlier(before, scx, place)?;
    check_unfinished(before, scx)?;
    if place == 0 {
        check_beginning(before, row)?;
    }
    Ok(())
}

/// It has found what the node's info was.
fn check_wins(before: &LinesBefore<'_>, row: &Row, scx: u64, place: u8) -> Result<(), Objection> {
    let seen = before.scx_word(scx, ScxWord::Seen(place));
    let text = "# in place of #, since the exchange is lost: i# of # is #";
    let details = [
        Number(scx),
        Number(row.before),
        Number(u64::from(place)),
        Scx(scx),
        Number(seen),
    ];
    before.demand(row.before == seen, AFTER, text, &details)
}

fn check_unfinished(before: &LinesBefore<'_>, scx: u64) -> Result<(), Objection> {
    let state = before.scx_word(scx, ScxWord::State);
    let text = "# is finished, since its state is #, so it freezes no more";
    before.demand(state == 0, AFTER, text, &[Scx(scx), Number(state)])
}

/// All earlier nodes have been frozen.
fn check_earlier(before: &LinesBefore<'_>, scx: u64, place: u8) -> Result<(), Objection> {
    let Some(earlier) = before.first_unfrozen(scx, place) else {
        return Ok(());
    };
    let text = "#, which # covers before #, was never frozen for #";
    let details = [
        Node(before.member(scx, earlier)),
        Scx(scx),
        Node(before.member(scx, place)),
        Scx(scx),
    ];
    Err(before.object(WORD, text, &details))
}

/// One that changes nothing is lost for some SCX-record, which covers the node.
fn check_lost(before: &LinesBefore<'_>, row: &Row, node: NodeNo) -> Result<(), Objection> {
    let Some(scx) = before.probable_scx(row.pass, row.word) else {
        let text = "no SCX-record covers #, so none freezes it";
        return Err(before.object(WORD, text, &[Node(node.0)]));
    };
    let Some(place) = before.place_of(scx, node.0) else {
        return Ok(());
    };
    check_earlier(before, scx, place)?;
    let text = "# in place of #, since the exchange wins: i# of # is # too";
    let details = [
        Number(row.after),
        Number(scx),
        Number(u64::from(place)),
        Scx(scx),
        Number(row.before),
    ];
    Err(before.object(AFTER, text, &details))
}
