//! Stores into words of an SCX-record, or of a node that it finalizes.
use crate::breach::Objection;
use crate::details::Detail::{Client, Named, Node, Number, Scx, Text};
use crate::lines_before::LinesBefore;
use crate::steps::{AFTER, CLIENT, WORD};
use arena::{MemberIndex, NodeWord, Row, ScxWord, Word};

/// A store is into the word of its kind, and stores its number.
fn check_stored(
    before: &LinesBefore<'_>,
    row: &Row,
    wanted: &str,
    number: u64,
    is_right: bool,
) -> Result<(), Objection> {
    let text = "# in place of #, which this kind of step stores into";
    before.demand(is_right, WORD, text, &[Named(row.word), Text(wanted)])?;
    let what = "which this kind of step stores";
    before.demand_same(AFTER, row.after, number, what)
}

/// Stores 1 into `allfrozen`, if all nodes have been frozen.
pub(crate) fn check_frozen(before: &LinesBefore<'_>, row: &Row) -> Result<(), Objection> {
    let is_right = matches!(row.word, Word::Scx(_, ScxWord::AllFrozen));
    check_stored(before, row, "allfrozen of an SCX-record", 1, is_right)?;
    check_each_frozen(before, scx_of(row.word))
}

/// The SCX-record that a word is of. That it is of one has been asked before.
fn scx_of(word: Word) -> u64 {
    match word {
        Word::Scx(scx, _) => scx.0,
        Word::Node(..) => 0,
    }
}

/// An SCX-record covers some node, and each has been frozen for it.
fn check_each_frozen(before: &LinesBefore<'_>, scx: u64) -> Result<(), Objection> {
    let many = before.plan(scx).count();
    before.demand(many > 0, WORD, "# covers no node", &[Scx(scx)])?;
    let Some(place) = before.first_unfrozen(scx, many) else {
        return Ok(());
    };
    let text = "#, which # covers, was never frozen for it";
    Err(before.object(WORD, text, &[Node(before.member(scx, place)), Scx(scx)]))
}

/// Stores 1 into the mark of a node that an SCX-record finalizes whose nodes are all frozen.
pub(crate) fn check_mark(before: &LinesBefore<'_>, row: &Row) -> Result<(), Objection> {
    let is_right = matches!(row.word, Word::Node(_, NodeWord::Marked));
    check_stored(before, row, "the mark of a node", 1, is_right)?;
    match row.word {
        Word::Node(node, _) => check_finalized(before, node.0),
        Word::Scx(..) => Ok(()),
    }
}

/// The SCX-record that a node's info names finalizes it, and all its nodes are frozen.
fn check_finalized(before: &LinesBefore<'_>, node: u64) -> Result<(), Objection> {
    let scx = before.node_word(node, NodeWord::Info);
    let is_finalized = match before.place_of(scx, node) {
        Some(place) => finalizes(before, scx, place),
        None => false,
    };
    let text = "the info of # names #, which does not finalize it";
    before.demand(is_finalized, WORD, text, &[Node(node), Scx(scx)])?;
    check_all_frozen(before, scx)
}

/// `allfrozen` of an SCX-record is 1.
pub(crate) fn check_all_frozen(before: &LinesBefore<'_>, scx: u64) -> Result<(), Objection> {
    let stored = before.scx_word(scx, ScxWord::AllFrozen);
    let text = "allfrozen of # is #, and has to be 1 before";
    before.demand(stored == 1, WORD, text, &[Scx(scx), Number(stored)])
}

/// Whether an SCX-record finalizes the node at a place.
pub(crate) fn finalizes(before: &LinesBefore<'_>, scx: u64, place: u8) -> bool {
    match MemberIndex::new(usize::from(place)) {
        Some(index) => before.plan(scx).finalizes(index),
        None => false,
    }
}

/// Stores 1 into the state, once an update has won.
pub(crate) fn check_commit(before: &LinesBefore<'_>, row: &Row) -> Result<(), Objection> {
    check_state(before, row, 1)?;
    let scx = scx_of(row.word);
    let text = "no update of # has won, so it is not committed";
    before.demand(before.has_won(scx), WORD, text, &[Scx(scx)])
}

/// It stores this number into the state of an SCX-record.
fn check_state(before: &LinesBefore<'_>, row: &Row, state: u64) -> Result<(), Objection> {
    let is_right = matches!(row.word, Word::Scx(_, ScxWord::State));
    check_stored(before, row, "the state of an SCX-record", state, is_right)
}

/// Stores 2 into the state, where the first node that was never frozen can no longer be.
pub(crate) fn check_abort(before: &LinesBefore<'_>, row: &Row) -> Result<(), Objection> {
    check_state(before, row, 2)?;
    let scx = scx_of(row.word);
    let text = "allfrozen of # is 1, so it is not aborted";
    let all_frozen = before.scx_word(scx, ScxWord::AllFrozen);
    before.demand(all_frozen == 0, WORD, text, &[Scx(scx)])?;
    check_aborter(before, row, scx)?;
    check_overtaken(before, scx)
}

/// The first node that was never frozen for it has another info since.
fn check_overtaken(before: &LinesBefore<'_>, scx: u64) -> Result<(), Objection> {
    let Some(place) = before.first_unfrozen(scx, before.plan(scx).count()) else {
        let text = "no node of # is left that was never frozen for it";
        return Err(before.object(WORD, text, &[Scx(scx)]));
    };
    let text = "#, the first node of # that was never frozen for it, still has the info that i# \
        says";
    let details = [
        Node(before.member(scx, place)),
        Scx(scx),
        Number(u64::from(place)),
    ];
    before.demand(!before.is_as_seen(scx, place), WORD, text, &details)
}

/// The client owns the SCX-record, or its first node has been frozen for it.
fn check_aborter(before: &LinesBefore<'_>, row: &Row, scx: u64) -> Result<(), Objection> {
    let is_own = before.owns_scx(row.pass, scx);
    let has_begun = before.first_unfrozen(scx, 1).is_none();
    let text = "# does not own #, whose first node was never frozen for it";
    let details = [Client(row.pass), Scx(scx)];
    before.demand(is_own || has_begun, CLIENT, text, &details)
}
