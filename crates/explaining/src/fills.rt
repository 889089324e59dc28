//! Fills.
use crate::breach::Objection;
use crate::details::Detail::{Client, Named, Node, Scx, Share, Text};
use crate::lines_before::LinesBefore;
use crate::steps::{AFTER, WORD};
use crate::words::other_owner;
use arena::{NodeNo, NodeWord, PassNo, Row, ScxNo, ScxWord, Word};
use judge::{is_own_node, is_own_scx};

/// A fill stores into a word that is settled or a field, of what is the client's own and not shared
/// yet, a number that the client may know.
pub(crate) fn check_fill(before: &LinesBefore<'_>, row: &Row) -> Result<(), Objection> {
    check_filled_word(before, row)?;
    match row.word {
        Word::Node(node, _) => check_own_node(before, row.pass, node)?,
        Word::Scx(scx, _) => check_own_scx(before, row.pass, scx)?,
    }
    check_value(before, row)
}

fn check_filled_word(before: &LinesBefore<'_>, row: &Row) -> Result<(), Objection> {
    let is_filled = match row.word {
        Word::Node(_, NodeWord::Info | NodeWord::Marked) => false,
        Word::Scx(_, ScxWord::State | ScxWord::AllFrozen) => false,
        _ => true,
    };
    let text = "# in place of a settled word or a field of a node, or one of plan to call of an \
        SCX-record, which a fill stores into";
    before.demand(is_filled, WORD, text, &[Named(row.word)])
}

fn check_own_node(before: &LinesBefore<'_>, pass: PassNo, node: NodeNo) -> Result<(), Objection> {
    let (layout, node) = (before.judge.layout(), node.0);
    if pass.0 >= layout.passes {
        return Ok(());
    }
    let first = layout.first_node(pass);
    let text = "# is not of #'s share, which is #";
    let details = [Node(node), Client(pass), Share("n", first, layout.nodes)];
    before.demand(is_own_node(layout, pass, node), WORD, text, &details)?;
    let next = u64::from(first.saturating_add(before.judge.nodes_taken(pass)));
    let text = "# in place of #, the next node of the share";
    before.demand(node <= next, WORD, text, &[Node(node), Node(next)])?;
    check_unnamed_node(before, node)
}

fn check_unnamed_node(before: &LinesBefore<'_>, node: u64) -> Result<(), Objection> {
    let text = "# is named already, and what is shared is not filled again";
    let details = [Node(node)];
    before.demand(
        !before.judge.is_named_node(NodeNo(node)),
        WORD,
        text,
        &details,
    )
}

fn check_own_scx(before: &LinesBefore<'_>, pass: PassNo, scx: ScxNo) -> Result<(), Objection> {
    let (layout, scx) = (before.judge.layout(), scx.0);
    if pass.0 >= layout.passes {
        return Ok(());
    }
    let first = layout.first_scx(pass);
    let text = "# is not of #'s share, which is #";
    let details = [Scx(scx), Client(pass), Share("s", first, layout.scx)];
    before.demand(is_own_scx(layout, pass, scx), WORD, text, &details)?;
    let next = u64::from(first.saturating_add(before.judge.scx_taken(pass)));
    let text = "# in place of #, the next SCX-record of the share";
    before.demand(scx <= next, WORD, text, &[Scx(scx), Scx(next)])?;
    check_unnamed_scx(before, scx)
}

fn check_unnamed_scx(before: &LinesBefore<'_>, scx: u64) -> Result<(), Objection> {
    let text = "# is named already, and what is shared is not filled again";
    before.demand(!before.judge.is_named(ScxNo(scx)), WORD, text, &[Scx(scx)])
}

/// What the number may be: a node of another share only if a field of a named node has held it, and
/// as `new` none. This is asked last, so it is what is broken.
fn check_value(before: &LinesBefore<'_>, row: &Row) -> Result<(), Objection> {
    match row.word {
        Word::Node(_, NodeWord::Child(_)) | Word::Scx(_, ScxWord::Old | ScxWord::Member(_)) => {
            check_not_others(before, row, "and no field of a named node has held it")
        }
        Word::Scx(_, ScxWord::New) => {
            check_not_others(before, row, "in place of a node of the client's own")
        }
        Word::Scx(_, ScxWord::Seen(_)) => check_known_scx(before, row),
        _ => Ok(()),
    }
}

/// The node is not of another share, or is at fault for this reason.
fn check_not_others(before: &LinesBefore<'_>, row: &Row, why: &str) -> Result<(), Objection> {
    let Some(owner) = other_owner(before.judge.layout(), row.pass, row.after) else {
        return Ok(());
    };
    let text = "# is of #'s share, #";
    Err(before.object(AFTER, text, &[Node(row.after), Client(owner), Text(why)]))
}

/// An SCX-record of another share only if an info word has named it.
fn check_known_scx(before: &LinesBefore<'_>, row: &Row) -> Result<(), Objection> {
    let scx = ScxNo(row.after);
    match before.judge.layout().owner(scx) {
        Some(owner) if owner != row.pass => {
            let text = "# is of #'s share, and no info word has named it";
            let details = [Scx(scx.0), Client(owner)];
            before.demand(before.judge.is_named(scx), AFTER, text, &details)
        }
        _ => Ok(()),
    }
}
