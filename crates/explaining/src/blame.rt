//! SCX-records that were in the way of a call.
use crate::breach::Objection;
use crate::details::Detail::{Node, Scx, Text};
use crate::lines_before::LinesBefore;
use crate::replies::ANSWER;
use crate::words::name_of;
use arena::{Kind, NodeNo, NodeWord, ScxNo, ScxWord, Word};
use record::Finished;

/// The SCX-record is another client's, covers the node, and has begun.
pub(crate) fn check_blame(
    before: &LinesBefore<'_>,
    reply: &Finished,
    node: NodeNo,
    scx: ScxNo,
) -> Result<(), Objection> {
    let owner = before.judge.layout().owner(scx);
    let (scx, node) = (scx.0, node.0);
    let text = "# is not of another client's share";
    let is_another = owner.is_some() && owner != Some(reply.client);
    before.demand(is_another, ANSWER, text, &[Scx(scx)])?;
    let text = "# does not cover #";
    let details = [Scx(scx), Node(node)];
    before.demand(before.place_of(scx, node).is_some(), ANSWER, text, &details)?;
    let text = "# has not begun, so it was in nobody's way";
    let details = [Scx(scx)];
    before.demand(
        before.was_frozen(before.member(scx, 0), scx),
        ANSWER,
        text,
        &details,
    )
}

/// The SCX-record was in progress after more than so many steps, which are those before something.
pub(crate) fn check_since(
    before: &LinesBefore<'_>,
    scx: ScxNo,
    steps: usize,
    what: &str,
) -> Result<(), Objection> {
    let until = before.in_progress_until(scx);
    let text = "# was finished before #";
    before.demand(steps < until, ANSWER, text, &[Scx(scx.0), Text(what)])
}

/// The last step of this kind that the call has made has found the SCX-record in the node's info.
pub(crate) fn check_found(
    before: &LinesBefore<'_>,
    reply: &Finished,
    kind: Kind,
    blamed: (NodeNo, ScxNo),
) -> Result<(), Objection> {
    let (name, (node, scx)) = (Text(name_of(kind)), blamed);
    let Some(row) = before.last_of(reply.client, kind) else {
        let text = "the call has made no step of kind #";
        return Err(before.object(ANSWER, text, &[name]));
    };
    let text = "the last # of the call has not found # in the info of #";
    let is_found = row.word == Word::Node(node, NodeWord::Info) && row.before == scx.0;
    before.demand(is_found, ANSWER, text, &[name, Scx(scx.0), Node(node.0)])
}

/// An LLX has failed: what it has found in its cell's info is finished, and was in progress since
/// the call began, when the cell was not final. This is asked last, so it is what is broken.
pub(crate) fn check_failed(
    before: &LinesBefore<'_>,
    reply: &Finished,
    blamed: (NodeNo, ScxNo),
) -> Result<(), Objection> {
    let (node, scx) = blamed;
    check_found(before, reply, Kind::LoadInfo, blamed)?;
    let first = before.client(reply.client).first;
    check_since(before, scx, first, "the call began")?;
    let text = "# is in progress, and the call has not helped it";
    let details = [Scx(scx.0)];
    before.demand(
        before.scx_word(scx.0, ScxWord::State) != 0,
        ANSWER,
        text,
        &details,
    )?;
    let text = "# was final when the call began";
    Err(before.object(ANSWER, text, &[Node(node.0)]))
}

/// An SCX is lost, or a VLX has found a change: it has met this SCX-record since its snapshot. This is
/// asked last, so it is what is broken.
pub(crate) fn check_met(
    before: &LinesBefore<'_>,
    reply: &Finished,
    kind: Kind,
    blamed: (NodeNo, ScxNo),
) -> Result<(), Objection> {
    let (node, scx) = blamed;
    check_found(before, reply, kind, blamed)?;
    let text = "# was not in progress over # since the snapshot of that, or an earlier cell had \
        changed";
    Err(before.object(ANSWER, text, &[Scx(scx.0), Node(node.0)]))
}
