//! Levels of a tree.
use crate::breach::Objection;
use crate::details::Detail::{Node, Number};
use crate::lines_before::LinesBefore;
use crate::steps::{AFTER, WORD};
use arena::{Head, NodeNo, NodeWord, Row, SettledPart, Side, Word};

/// The level of a child is above its parent's, and a head that a field has named stays.
pub(crate) fn check_levels(before: &LinesBefore<'_>, row: &Row) -> Result<(), Objection> {
    if row.before == row.after {
        return Ok(());
    }
    match row.word {
        Word::Node(node, NodeWord::Child(_)) => check_child(before, node.0, row.after),
        Word::Node(node, NodeWord::Settled(SettledPart::Head)) => check_head(before, node.0),
        _ => Ok(()),
    }
}

/// A field has held the node, or it is of the opening.
fn stands(before: &LinesBefore<'_>, node: u64) -> bool {
    node < 3 || before.judge.is_in_field(NodeNo(node))
}

/// The head of the node may still change.
fn check_head(before: &LinesBefore<'_>, node: u64) -> Result<(), Objection> {
    let text = "the head of # stays, since a field has held it";
    before.demand(!stands(before, node), WORD, text, &[Node(node)])
}

/// A node may be below another, and what is below it too.
fn check_child(before: &LinesBefore<'_>, node: u64, child: u64) -> Result<(), Objection> {
    let text = "# is put below itself";
    before.demand(node != child, AFTER, text, &[Node(child)])?;
    if stands(before, node) {
        check_rises(before, node, child)?;
    }
    for side in [Side::Left, Side::Right] {
        let below = before.node_word(child, NodeWord::Child(side));
        check_rises(before, child, below)?;
    }
    Ok(())
}

/// The level of a fork is below that of a child.
fn check_rises(before: &LinesBefore<'_>, fork: u64, child: u64) -> Result<(), Objection> {
    let (above, below) = (head(before, fork), head(before, child));
    let text = "# of level # is put below # of level #: levels rise";
    let details = [
        Node(child),
        Number(below.level),
        Node(fork),
        Number(above.level),
    ];
    before.demand(
        above.leaf || above.level < below.level,
        AFTER,
        text,
        &details,
    )
}

fn head(before: &LinesBefore<'_>, node: u64) -> Head {
    Head::of(before.node_word(node, NodeWord::Settled(SettledPart::Head)))
}
