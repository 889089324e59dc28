//! Answers of calls of cells.
use crate::blame::{check_blame, check_failed, check_met};
use crate::breach::Objection;
use crate::details::Detail::{Node, Number};
use crate::lines_before::LinesBefore;
use crate::map_answers::{check_left, check_moment_is, check_no_moment};
use crate::replies::ANSWER;
use arena::{Full, Kind, NodeNo, NodeWord, PassNo, ScxNo, Side};
use record::{Answer, Finished};
use script::{Cell, Command};

/// A call of cells names its moment, and its answer is true.
pub(crate) fn check_cell_answer(
    before: &LinesBefore<'_>,
    command: &Command,
    reply: &Finished,
) -> Result<(), Objection> {
    match &reply.answer {
        Answer::Snapshot { left, right } => {
            check_at_end(before, reply)?;
            check_snapshot(before, command, *left, *right)
        }
        Answer::Finalized => {
            check_at_end(before, reply)?;
            check_final(before, command)
        }
        Answer::Same => check_same(before, reply),
        Answer::Done => check_done(before, reply),
        _ => check_refused(before, command, reply),
    }
}

/// The answer is that of the last turn of the call.
fn check_at_end(before: &LinesBefore<'_>, reply: &Finished) -> Result<(), Objection> {
    check_moment_is(before, reply, reply.end, "the last turn of the call")
}

/// An objection to the answer, in words that name nothing.
fn object_to_answer(before: &LinesBefore<'_>, text: &str) -> Objection {
    before.object(ANSWER, text, &[])
}

/// All cells were as their snapshots found them. That is asked last, so it is what is broken.
fn check_same(before: &LinesBefore<'_>, reply: &Finished) -> Result<(), Objection> {
    check_moment_is(before, reply, reply.begin, "the first turn of the call")?;
    let text = "a cell was not as its snapshot found it when the call began";
    Err(object_to_answer(before, text))
}

/// An update has won. That there was room for it is asked last, so it is what is broken.
fn check_done(before: &LinesBefore<'_>, reply: &Finished) -> Result<(), Objection> {
    let turn = before.client(reply.client).won.unwrap_or(reply.end);
    check_moment_is(before, reply, turn, "the turn of the call's update")?;
    let text = "the share had no room for an update when the call began";
    Err(object_to_answer(before, text))
}

/// The cell that an `llx` or a `set` is of.
fn cell_of(command: &Command) -> NodeNo {
    match command {
        Command::Llx { cell } => cell.node(),
        Command::Set { field, value: _ } => field.0.node(),
        _ => NodeNo(0),
    }
}

/// The fields of a cell that is not final.
fn check_snapshot(
    before: &LinesBefore<'_>,
    command: &Command,
    left: NodeNo,
    right: NodeNo,
) -> Result<(), Objection> {
    let cell = cell_of(command);
    let text = "# is final, so there is no snapshot of it";
    before.demand(!before.judge.is_final(cell), ANSWER, text, &[Node(cell.0)])?;
    let held = (
        before.node_word(cell.0, NodeWord::Child(Side::Left)),
        before.node_word(cell.0, NodeWord::Child(Side::Right)),
    );
    let text = "snap # # in place of snap # #, the fields of #";
    let details = [
        Number(left.0),
        Number(right.0),
        Number(held.0),
        Number(held.1),
        Node(cell.0),
    ];
    before.demand(held == (left.0, right.0), ANSWER, text, &details)
}

fn check_final(before: &LinesBefore<'_>, command: &Command) -> Result<(), Objection> {
    let cell = cell_of(command);
    let text = "# is not final: no entry finalizes it";
    before.demand(before.judge.is_final(cell), ANSWER, text, &[Node(cell.0)])
}

/// A call that says nothing of its cells has no moment, and says why.
fn check_refused(
    before: &LinesBefore<'_>,
    command: &Command,
    reply: &Finished,
) -> Result<(), Objection> {
    check_no_moment(before, reply)?;
    match reply.answer {
        Answer::Fail { node, scx } | Answer::Lost { node, scx } | Answer::Changed { node, scx } => {
            check_among(before, command, node)?;
            check_disturbed(before, reply, (node, scx))
        }
        Answer::Full { what, left } => check_full(before, reply.client, &Full { what, left }),
        Answer::Unlinked { node } => {
            check_among(before, command, node)?;
            check_unlinked(before, node)
        }
        _ => Ok(()),
    }
}

/// The SCX-record was in the call's way.
fn check_disturbed(
    before: &LinesBefore<'_>,
    reply: &Finished,
    blamed: (NodeNo, ScxNo),
) -> Result<(), Objection> {
    check_blame(before, reply, blamed.0, blamed.1)?;
    match &reply.answer {
        Answer::Fail { .. } => check_failed(before, reply, blamed),
        Answer::Lost { .. } => check_met(before, reply, Kind::Freeze, blamed),
        _ => check_met(before, reply, Kind::LoadInfo, blamed),
    }
}

/// So much is left of the share. That the call knows is asked last, so it is what is broken.
fn check_full(before: &LinesBefore<'_>, pass: PassNo, full: &Full) -> Result<(), Objection> {
    check_left(before, pass, full)?;
    let text =
        "the call cannot know that its share has too little: it has not looked at its cell, or keeps no \
                 snapshot of one";
    Err(object_to_answer(before, text))
}

/// A cell without a snapshot. That it is the first is asked last, so it is what is broken.
fn check_unlinked(before: &LinesBefore<'_>, node: NodeNo) -> Result<(), Objection> {
    let text = "# is not the first cell of the call without a kept snapshot";
    Err(before.object(ANSWER, text, &[Node(node.0)]))
}

/// The node is a cell of the call.
fn check_among(before: &LinesBefore<'_>, command: &Command, node: NodeNo) -> Result<(), Objection> {
    let is_among = match command {
        Command::Scx(update) => has_cell(update.cells(), node),
        Command::Vlx { cells } => has_cell(cells.as_slice(), node),
        _ => cell_of(command) == node,
    };
    let text = "# is no cell of the call";
    before.demand(is_among, ANSWER, text, &[Node(node.0)])
}

fn has_cell(cells: &[Cell], node: NodeNo) -> bool {
    cells.iter().any(|cell| cell.node() == node)
}
