//! What is asked of an SCX-record that begins, which is where its first node is frozen for it.
use crate::breach::Objection;
use crate::details::Detail::{Client, Named, Node, Number, Scx};
use crate::lines_before::LinesBefore;
use crate::steps::{AFTER, CLIENT};
use arena::{Kind, NodeNo, NodeWord, Row, ScxNo, ScxWord, Side, Word};

/// The conditions of a beginning, one after another.
pub(crate) fn check_beginning(before: &LinesBefore<'_>, row: &Row) -> Result<(), Objection> {
    let scx = row.after;
    let text = "# does not own #, so it does not begin it";
    let details = [Client(row.pass), Scx(scx)];
    before.demand(before.owns_scx(row.pass, scx), CLIENT, text, &details)?;
    check_plan(before, scx)?;
    for place in 0..before.plan(scx).count() {
        check_node(before, scx, place)?;
    }
    check_field(before, scx)?;
    check_new(before, row)
}

fn check_plan(before: &LinesBefore<'_>, scx: u64) -> Result<(), Objection> {
    let plan = before.plan(scx);
    let text = "the plan of # is #, in place of one of 1 to 4 nodes, with those to finalize and \
        the field's among them";
    before.demand(plan.is_valid(), AFTER, text, &[Scx(scx), Number(plan.0)])
}

/// A node that it covers is in the table, differs from the earlier ones, and is at rest.
fn check_node(before: &LinesBefore<'_>, scx: u64, place: u8) -> Result<(), Objection> {
    let node = before.member(scx, place);
    let text = "v# of # is #, and there is no such node";
    let nodes = u64::from(before.judge.layout().all_nodes());
    let details = [Number(u64::from(place)), Scx(scx), Number(node)];
    before.demand(node < nodes, AFTER, text, &details)?;
    let text = "# covers # twice";
    let details = [Scx(scx), Node(node)];
    before.demand(
        before.place_of(scx, node) == Some(place),
        AFTER,
        text,
        &details,
    )?;
    check_at_rest(before, scx, place)
}

/// What the node's info was is finished, and if it still is, the node is not marked.
fn check_at_rest(before: &LinesBefore<'_>, scx: u64, place: u8) -> Result<(), Objection> {
    let (node, number) = (before.member(scx, place), Number(u64::from(place)));
    let seen = before.scx_word(scx, ScxWord::Seen(place));
    let text = "i# of # is #, which is in progress";
    let details = [number, Scx(scx), Scx(seen)];
    before.demand(
        before.scx_word(seen, ScxWord::State) != 0,
        AFTER,
        text,
        &details,
    )?;
    let is_marked = before.node_word(node, NodeWord::Marked) != 0;
    let text = "# is marked, and its info is still i# of #";
    let details = [Node(node), number, Scx(scx)];
    before.demand(
        !before.is_as_seen(scx, place) || !is_marked,
        AFTER,
        text,
        &details,
    )
}

/// If the field's node is as it was seen, the field still holds `old`.
fn check_field(before: &LinesBefore<'_>, scx: u64) -> Result<(), Objection> {
    let at = before.plan(scx).at().number();
    let field = field_of(before, scx);
    let (held, old) = (before.judge.get(field), before.scx_word(scx, ScxWord::Old));
    let text = "# holds #, in place of #, the word old of #";
    let details = [Named(field), Number(held), Number(old), Scx(scx)];
    before.demand(
        !before.is_as_seen(scx, at) || held == old,
        AFTER,
        text,
        &details,
    )
}

/// The field that an SCX-record changes.
pub(crate) fn field_of(before: &LinesBefore<'_>, scx: u64) -> Word {
    let plan = before.plan(scx);
    let node = before.member(scx, plan.at().number());
    let side: Side = plan.side();
    Word::Node(NodeNo(node), NodeWord::Child(side))
}

/// `new` is a node of the owner's share that no field and no other SCX-record's `new` has held.
fn check_new(before: &LinesBefore<'_>, row: &Row) -> Result<(), Objection> {
    let scx = row.after;
    let new = before.scx_word(scx, ScxWord::New);
    let text = "new of # is #, which is not of #'s share";
    let details = [Scx(scx), Node(new), Client(row.pass)];
    before.demand(before.owns_node(row.pass, new), AFTER, text, &details)?;
    let text = "new of # is #, which a field has held already";
    let details = [Scx(scx), Node(new)];
    before.demand(
        !before.judge.is_in_field(NodeNo(new)),
        AFTER,
        text,
        &details,
    )?;
    check_unused(before, scx, new)
}

fn check_unused(before: &LinesBefore<'_>, scx: u64, new: u64) -> Result<(), Objection> {
    let Some(other) = other_user(before, ScxNo(scx), new) else {
        return Ok(());
    };
    let text = "new of # is #, which new of # has held already";
    Err(before.object(AFTER, text, &[Scx(scx), Node(new), Scx(other.0)]))
}

/// Another SCX-record whose `new` has held a node.
fn other_user(before: &LinesBefore<'_>, user: ScxNo, new: u64) -> Option<ScxNo> {
    for row in before.rows.iter() {
        if let Word::Scx(scx, ScxWord::New) = row.word
            && row.kind == Kind::Fill
            && row.after == new
            && scx != user
        {
            return Some(scx);
        }
    }
    None
}
