//! Replies.
use crate::breach::Objection;
use crate::cell_answers::check_cell_answer;
use crate::details::Detail::{Call, Client, Number, Told};
use crate::lines_before::LinesBefore;
use crate::map_answers::check_map_answer;
use arena::PassNo;
use ordered_map::{Reply, Request};
use record::{Answer, Finished};
use script::Command;

const CLIENT: usize = 1;

const NUMBER: usize = 2;

const BEGIN: usize = 3;

const END: usize = 4;

pub(crate) const MOMENT: usize = 5;

pub(crate) const ANSWER: usize = 6;

/// A reply answers the next call of the client that made the newest turn, which is its last.
pub(crate) fn check_reply(before: &LinesBefore<'_>, reply: &Finished) -> Result<(), Objection> {
    check_newest(before, reply.client)?;
    let Some(command) = before.next(reply.client) else {
        let text = "# has no call left";
        return Err(before.object(CLIENT, text, &[Client(reply.client)]));
    };
    check_turns(before, reply)?;
    check_form(before, &command, reply)?;
    check_changed(before, &command, reply)?;
    check_moment(before, reply)?;
    check_share(before, &command, reply)?;
    match &command {
        Command::Map(request) => check_map_answer(before, request, reply),
        _ => check_cell_answer(before, &command, reply),
    }
}

fn check_newest(before: &LinesBefore<'_>, client: PassNo) -> Result<(), Objection> {
    let Some(last) = before.last else {
        return Err(before.object(CLIENT, "no turn has been made", &[]));
    };
    let (found, wanted) = (u64::from(client.0), u64::from(last.0));
    let what = "the client that made the newest turn";
    before.demand_same(CLIENT, found, wanted, what)
}

/// The number of the call, and its first and last turn.
fn check_turns(before: &LinesBefore<'_>, reply: &Finished) -> Result<(), Objection> {
    check_number(before, reply)?;
    check_begin(before, reply)?;
    before.demand_same(END, reply.end, before.turn, "the newest turn")
}

fn check_number(before: &LinesBefore<'_>, reply: &Finished) -> Result<(), Objection> {
    let next = before.client(reply.client).answered;
    before.demand_same(NUMBER, reply.call, next, "the client's next call")
}

fn check_begin(before: &LinesBefore<'_>, reply: &Finished) -> Result<(), Objection> {
    let client = reply.client;
    let Some(begun) = before.client(client).begun else {
        let text = "# has made no turn since its last reply";
        return Err(before.object(CLIENT, text, &[Client(client)]));
    };
    before.demand_same(BEGIN, reply.begin, begun, "the first turn of the call")
}

/// The call may give an answer of this form.
fn check_form(
    before: &LinesBefore<'_>,
    command: &Command,
    reply: &Finished,
) -> Result<(), Objection> {
    let (fits, text) = if before.is_idle {
        let fits = may_answer_at_once(command, &reply.answer);
        (fits, "# is no answer to #, without a step")
    } else {
        let fits = may_answer(command, &reply.answer);
        (fits, "# is no answer to #, after a step")
    };
    let details = [Told(&reply.answer), Call(reply.client)];
    before.demand(fits, ANSWER, text, &details)
}

fn may_answer_at_once(command: &Command, answer: &Answer) -> bool {
    match (command, answer) {
        (Command::Scx(_), Answer::Unlinked { .. } | Answer::Full { .. }) => true,
        (Command::Vlx { .. }, Answer::Unlinked { .. }) => true,
        (Command::Map(request), Answer::Map(reply)) => may_reply_at_once(request, reply),
        _ => false,
    }
}

/// Whether a call of the map may be answered so without a step: a range with nothing to look for, or
/// a search that is refused its memory.
fn may_reply_at_once(request: &Request<u64, u128>, reply: &Reply<u64, u128>) -> bool {
    let is_empty =
        matches!(request, Request::Range { low, high, most } if *most == 0 || high < low);
    match (request, reply) {
        (Request::Range { .. }, Reply::Pairs(pairs)) => is_empty && pairs.is_empty(),
        (Request::Range { .. }, Reply::NoMemory) => !is_empty,
        (Request::Successor { .. } | Request::Predecessor { .. }, Reply::NoMemory) => true,
        _ => false,
    }
}

fn may_answer(command: &Command, answer: &Answer) -> bool {
    match (command, answer) {
        (Command::Map(request), Answer::Map(reply)) => may_reply(request, reply),
        (Command::Llx { .. }, Answer::Snapshot { .. } | Answer::Finalized | Answer::Fail { .. }) =>
            true,
        (Command::Scx(_), Answer::Done | Answer::Lost { .. }) => true,
        (Command::Vlx { .. }, Answer::Same | Answer::Changed { .. }) => true,
        (Command::Set { .. }, Answer::Done | Answer::Lost { .. } | Answer::Full { .. }) => true,
        (Command::Set { .. }, Answer::Finalized | Answer::Fail { .. }) => true,
        _ => false,
    }
}

fn may_reply(request: &Request<u64, u128>, reply: &Reply<u64, u128>) -> bool {
    if let Some((goal, _)) = request.edit() {
        return goal.may_reply(reply);
    }
    match (request, reply) {
        (Request::Get { .. }, Reply::Value(_)) => true,
        (Request::Get { .. }, _) => false,
        (Request::Range { .. }, Reply::Pairs(_)) => true,
        (Request::Successor { .. } | Request::Predecessor { .. }, Reply::Pair(_)) => true,
        (_, Reply::Contended { .. } | Reply::NoMemory) => true,
        _ => false,
    }
}

/// It says that the call has made a change if an update of it has won, and only then.
fn check_changed(
    before: &LinesBefore<'_>,
    command: &Command,
    reply: &Finished,
) -> Result<(), Objection> {
    let says = says_change(command, &reply.answer);
    let Some(turn) = before.client(reply.client).won else {
        let text = "# says that the call has made a change, but it has no entry in the log";
        return before.demand(!says, ANSWER, text, &[Told(&reply.answer)]);
    };
    let text = "# says that the call has changed nothing, but its update has won in turn #";
    before.demand(says, ANSWER, text, &[Told(&reply.answer), Number(turn)])
}

fn says_change(command: &Command, answer: &Answer) -> bool {
    match (command, answer) {
        (Command::Scx(_) | Command::Set { .. }, Answer::Done) => true,
        (Command::Map(request), Answer::Map(reply)) => request.changes(reply),
        _ => false,
    }
}

fn check_moment(before: &LinesBefore<'_>, reply: &Finished) -> Result<(), Objection> {
    let (begin, end) = (reply.begin, reply.end);
    let Some(moment) = reply.moment else {
        return Ok(());
    };
    let text = "# is not within the call, which is from turn # to #";
    let details = [Number(moment), Number(begin), Number(end)];
    before.demand(begin <= moment && moment <= end, MOMENT, text, &details)
}

/// The call has not taken more of its share than it may.
fn check_share(
    before: &LinesBefore<'_>,
    command: &Command,
    reply: &Finished,
) -> Result<(), Objection> {
    let (client, taken) = (before.client(reply.client), before.taken(reply.client));
    let (nodes, scx) = (
        taken.0.saturating_sub(client.nodes),
        taken.1.saturating_sub(client.scx),
    );
    let (each, most) = most_taken(command, before.record.script.limits.tries);
    let text = "the call has taken # SCX-records of its share, and may take #";
    let count = Number(u64::from(scx));
    before.demand(scx <= most, ANSWER, text, &[count, Number(u64::from(most))])?;
    let most = each.saturating_mul(scx);
    let text = "the call has taken # nodes of its share, and may take # with # SCX-records";
    let details = [Number(u64::from(nodes)), Number(u64::from(most)), count];
    before.demand(nodes <= most, ANSWER, text, &details)
}

/// How many nodes a call may take with each SCX-record, and how many of these.
fn most_taken(command: &Command, tries: u32) -> (u32, u32) {
    match command {
        Command::Scx(_) | Command::Set { .. } => (1, 1),
        Command::Map(request) => match request.edit() {
            Some((_, rule)) => (rule.nodes_in_try(), tries),
            None => (0, 0),
        },
        _ => (0, 0),
    }
}
