//! What is asked of each step.
use crate::breach::Objection;
use crate::details::Detail::{Call, Client, Named, Node, Number, Scx, Text};
use crate::fills::check_fill;
use crate::freezes::check_freeze;
use crate::levels::check_levels;
use crate::lines_before::LinesBefore;
use crate::loads::check_load;
use crate::made_edit::check_edit;
use crate::stores::{check_abort, check_commit, check_frozen, check_mark};
use crate::updates::check_update;
use crate::words::name_of;
use arena::{Kind, PassNo, Row, ScxWord, Word};
use ordered_map::Request;
use script::Command;

const NUMBER: usize = 1;

pub(crate) const CLIENT: usize = 2;

const KIND: usize = 3;

pub(crate) const WORD: usize = 4;

pub(crate) const BEFORE: usize = 5;

pub(crate) const AFTER: usize = 6;

/// A turn that makes this step.
pub(crate) fn check_step(
    before: &LinesBefore<'_>,
    number: u64,
    row: &Row,
) -> Result<(), Objection> {
    check_pass(before, row.pass)?;
    check_number(before, number)?;
    check_call(before, row)?;
    check_word(before, row)?;
    check_kind(before, row)?;
    if before.record.script.layout.mode.is_map() {
        check_levels(before, row)?;
        check_edit(before, row)?;
    }
    check_bound(before, row)
}

/// There is a client of this number.
pub(crate) fn check_pass(before: &LinesBefore<'_>, pass: PassNo) -> Result<(), Objection> {
    let last = before.clients.len().saturating_sub(1);
    let text = "# is above #, the last client";
    let details = [Number(u64::from(pass.0)), Number(last as u64)];
    before.demand(
        (pass.0 as usize) < before.clients.len(),
        CLIENT,
        text,
        &details,
    )
}

/// Turns are numbered from 1.
pub(crate) fn check_number(before: &LinesBefore<'_>, number: u64) -> Result<(), Objection> {
    let next = before.turn.saturating_add(1);
    before.demand_same(NUMBER, number, next, "the next turn")
}

/// The client has a call left, which may make a step of this kind.
fn check_call(before: &LinesBefore<'_>, row: &Row) -> Result<(), Objection> {
    let Some(command) = before.next(row.pass) else {
        let text = "# has no call left, so each further turn is idle";
        return Err(before.object(CLIENT, text, &[Client(row.pass)]));
    };
    let text = "# by #, which makes #";
    let details = [
        Text(name_of(row.kind)),
        Call(row.pass),
        Text(kinds_of(&command)),
    ];
    before.demand(may_make(&command, row.kind), KIND, text, &details)?;
    check_call_word(before, row)
}

/// A fill of `call` stores the number of the client's call.
fn check_call_word(before: &LinesBefore<'_>, row: &Row) -> Result<(), Objection> {
    let is_call = row.kind == Kind::Fill && matches!(row.word, Word::Scx(_, ScxWord::Call));
    if !is_call {
        return Ok(());
    }
    let (number, what) = (
        before.client(row.pass).answered,
        "the number of the client's call",
    );
    before.demand_same(AFTER, row.after, number, what)
}

/// Whether a call with this command may make a step of a kind.
fn may_make(command: &Command, kind: Kind) -> bool {
    match command {
        Command::Llx { cell: _ } => kind != Kind::Fill,
        Command::Vlx { cells: _ } => kind == Kind::LoadInfo,
        Command::Map(Request::Get { key: _ }) => {
            kind == Kind::LoadSettled || kind == Kind::LoadChild
        }
        Command::Map(Request::Successor { key: _ } | Request::Predecessor { key: _ }) => {
            kind != Kind::Fill
        }
        Command::Map(Request::Range { low, high, most }) => {
            kind != Kind::Fill && *most > 0 && low <= high
        }
        _ => true,
    }
}

/// Which kinds of step such a call makes.
fn kinds_of(command: &Command) -> &'static str {
    match command {
        Command::Vlx { cells: _ } => "no steps but info",
        Command::Map(Request::Get { key: _ }) => "no steps but settled and child",
        Command::Map(Request::Range { low, high, most }) if *most == 0 || high < low => "no step",
        _ => "no fill",
    }
}

/// The word exists, and held what the step has found there.
fn check_word(before: &LinesBefore<'_>, row: &Row) -> Result<(), Objection> {
    let layout = before.judge.layout();
    let nodes = layout.all_nodes().saturating_sub(1);
    let scx = layout.all_scx().saturating_sub(1);
    let text = "# does not exist: there are the nodes n0 to # and the SCX-records s0 to #";
    let details = [Named(row.word), Node(u64::from(nodes)), Scx(u64::from(scx))];
    before.demand(layout.has(row.word), WORD, text, &details)?;
    let held = before.judge.get(row.word);
    let text = "# in place of #, which # holds";
    let details = [Number(row.before), Number(held), Named(row.word)];
    before.demand(row.before == held, BEFORE, text, &details)
}

/// What is asked of its kind. A step that is lawful does what its kind allows.
fn check_kind(before: &LinesBefore<'_>, row: &Row) -> Result<(), Objection> {
    match row.kind {
        _ if before.judge.is_lawful(row) => Ok(()),
        Kind::Fill => check_fill(before, row),
        Kind::Freeze => check_freeze(before, row),
        Kind::SetFrozen => check_frozen(before, row),
        Kind::Mark => check_mark(before, row),
        Kind::Update => check_update(before, row),
        Kind::Commit => check_commit(before, row),
        Kind::Abort => check_abort(before, row),
        _ => check_load(before, row),
    }
}

/// A call makes no more steps than it may. This is asked last, so it is what is broken.
fn check_bound(before: &LinesBefore<'_>, row: &Row) -> Result<(), Objection> {
    let text = "#, has made # steps, and may make no more";
    let details = [Call(row.pass), Number(before.client(row.pass).steps)];
    Err(before.object(NUMBER, text, &details))
}
