//! Answers of calls of the map.
use crate::blame::{check_blame, check_since};
use crate::breach::Objection;
use crate::details::Detail::{Number, Text, Told};
use crate::lines_before::LinesBefore;
use crate::map_before::{needed_by, pairs_at, reply_of};
use crate::replies::{ANSWER, MOMENT};
use arena::{Full, Kind, Mode, NodeNo, NodeWord, PassNo, Resource, ScxNo, SettledPart, Word};
use ordered_map::{Goal, Reply, Request};
use record::{Answer, Finished};
use report::answer_text;

/// A call of the map answers what the map replied at its moment, or is refused as it deserves.
pub(crate) fn check_map_answer(
    before: &LinesBefore<'_>,
    request: &Request<u64, u128>,
    reply: &Finished,
) -> Result<(), Objection> {
    let Answer::Map(told) = &reply.answer else {
        return Ok(());
    };
    match told {
        Reply::Value(_) | Reply::Pair(_) | Reply::Pairs(_) => {
            match before.client(reply.client).won {
                Some(turn) => check_change(before, request, reply, turn),
                None => check_reading(before, request, reply),
            }
        }
        Reply::Contended { node, scx } => check_contended(before, request, reply, (*node, *scx)),
        Reply::Full(full) => check_full(before, request, reply, full),
        Reply::NoMemory => check_no_moment(before, reply),
    }
}

/// All tries were begun, there was something to do, if that is found first, and the SCX-record was in
/// the way of the last.
fn check_contended(
    before: &LinesBefore<'_>,
    request: &Request<u64, u128>,
    reply: &Finished,
    (node, scx): (NodeNo, ScxNo),
) -> Result<(), Objection> {
    check_no_moment(before, reply)?;
    check_tries(before, reply.client)?;
    if !looks_first(before, request) {
        check_needed(before, request, reply)?;
    }
    check_blame(before, reply, node, scx)?;
    let newest = newest_try(before, reply.client);
    check_since(before, scx, newest, "the last try of the call began")
}

/// Whether an edit goes to an end of a trie, where it looks at node 2 first.
fn looks_first(before: &LinesBefore<'_>, request: &Request<u64, u128>) -> bool {
    before.record.script.layout.mode == Mode::Trie
        && matches!(request.edit(), Some((Goal::End(_), _)))
}

/// What the map replies after a turn, as text.
fn reply_at(
    before: &LinesBefore<'_>,
    request: &Request<u64, u128>,
    turn: u64,
) -> Result<String, Objection> {
    let pairs = pairs_at(before, turn)?;
    let reply = reply_of(before.alloc, request, &pairs)?;
    Ok(answer_text(before.alloc, &Answer::Map(reply))?)
}

/// A call with an entry answers what the map replied just before it.
fn check_change(
    before: &LinesBefore<'_>,
    request: &Request<u64, u128>,
    reply: &Finished,
    turn: u64,
) -> Result<(), Objection> {
    check_moment_is(before, reply, turn, "the turn of the call's update")?;
    let answer = answer_text(before.alloc, &reply.answer)?;
    let wanted = reply_at(before, request, turn.saturating_sub(1))?;
    check_replied(before, turn, answer.as_str(), wanted.as_str())
}

/// The answer is what the map replied just before the turn of the update.
fn check_replied<'a>(
    before: &LinesBefore<'_>,
    turn: u64,
    answer: &'a str,
    wanted: &'a str,
) -> Result<(), Objection> {
    let text = "# in place of #, which the map replies just before turn #, when the update wins";
    let details = [Text(answer), Text(wanted), Number(turn)];
    before.demand(answer == wanted, ANSWER, text, &details)
}

/// A call that reads answers what the map replied after a turn of the call, and names the latest
/// such.
fn check_reading(
    before: &LinesBefore<'_>,
    request: &Request<u64, u128>,
    reply: &Finished,
) -> Result<(), Objection> {
    let answer = answer_text(before.alloc, &reply.answer)?;
    let what = "the latest turn of the call after which the map replies so";
    if let Some(latest) = latest_such(before, request, reply, answer.as_str())? {
        return check_moment_is(before, reply, latest, what);
    }
    let last = reply_at(before, request, reply.end)?;
    Err(object_to_reading(before, reply, answer.as_str(), last.as_str()))
}

/// The map never replied so in the call.
fn object_to_reading<'a>(
    before: &LinesBefore<'_>,
    reply: &Finished,
    answer: &'a str,
    last: &'a str,
) -> Objection {
    let text = "# in place of #, which the map replies after turn #, the call's last, and from \
        turn # on it never replies #";
    let details = [
        Text(answer),
        Text(last),
        Number(reply.end),
        Number(reply.begin),
        Text(answer),
    ];
    before.object(ANSWER, text, &details)
}

/// The latest turn of a call after which the map replies this, if there is one.
fn latest_such(
    before: &LinesBefore<'_>,
    request: &Request<u64, u128>,
    reply: &Finished,
    answer: &str,
) -> Result<Option<u64>, Objection> {
    if reply_at(before, request, reply.end)?.as_str() == answer {
        return Ok(Some(reply.end));
    }
    let mut latest = None;
    for entry in before.entries.iter() {
        let until = entry.step.saturating_sub(1);
        let is_within = reply.begin < entry.step && entry.step <= reply.end;
        if is_within && reply_at(before, request, until)?.as_str() == answer {
            latest = Some(until);
        }
    }
    Ok(latest)
}

/// The moment is this turn.
pub(crate) fn check_moment_is(
    before: &LinesBefore<'_>,
    reply: &Finished,
    turn: u64,
    what: &str,
) -> Result<(), Objection> {
    if let Some(moment) = reply.moment {
        return before.demand_same(MOMENT, moment, turn, what);
    }
    let text = "nothing in place of #, #";
    Err(before.object(MOMENT, text, &[Number(turn), Text(what)]))
}

/// An answer that says nothing of the map has no moment.
pub(crate) fn check_no_moment(before: &LinesBefore<'_>, reply: &Finished) -> Result<(), Objection> {
    let text = "# where nothing is wanted: # has no moment";
    let details = [Number(reply.moment.unwrap_or(0)), Told(&reply.answer)];
    before.demand(reply.moment.is_none(), MOMENT, text, &details)
}

/// The call has begun as many tries as it may.
fn check_tries(before: &LinesBefore<'_>, pass: PassNo) -> Result<(), Objection> {
    let limit = before.record.script.limits.tries;
    let begun = before.rows.iter().skip(before.client(pass).first);
    let tries = begun
        .filter(|row| row.pass == pass && begins_try(row))
        .count();
    let text = "the call has begun # tries, and gives up after #";
    let details = [Number(tries as u64), Number(u64::from(limit))];
    before.demand(tries == limit as usize, ANSWER, text, &details)
}

/// How many steps there were before the newest try of a client.
fn newest_try(before: &LinesBefore<'_>, pass: PassNo) -> usize {
    let begins = |row: &arena::Row| row.pass == pass && begins_try(row);
    before.rows.iter().rposition(begins).unwrap_or(0)
}

/// Whether a step begins a try: it loads the root's head.
fn begins_try(row: &arena::Row) -> bool {
    match row.word {
        Word::Node(node, NodeWord::Settled(SettledPart::Head)) => {
            row.kind == Kind::LoadSettled && node.0 == 0
        }
        _ => false,
    }
}

/// The most nodes that an edit needed after some turn of its call.
fn most_needed(
    before: &LinesBefore<'_>,
    request: &Request<u64, u128>,
    reply: &Finished,
) -> Result<u32, Objection> {
    let mut most = needed_by(request, &pairs_at(before, reply.end)?);
    for entry in before.entries.iter() {
        if reply.begin < entry.step && entry.step <= reply.end {
            let pairs = pairs_at(before, entry.step.saturating_sub(1))?;
            most = most.max(needed_by(request, &pairs));
        }
    }
    Ok(most)
}

/// An edit that was refused had something to do after some turn of its call.
fn check_needed(
    before: &LinesBefore<'_>,
    request: &Request<u64, u128>,
    reply: &Finished,
) -> Result<(), Objection> {
    let needed = most_needed(before, request, reply)?;
    let text = "the map gave the call nothing to do after any turn from # to #";
    let details = [Number(reply.begin), Number(reply.end)];
    before.demand(
        needed > 0 || request.edit().is_none(),
        ANSWER,
        text,
        &details,
    )
}

/// The share has just so much left, too little for what the edit needed.
fn check_full(
    before: &LinesBefore<'_>,
    request: &Request<u64, u128>,
    reply: &Finished,
    full: &Full,
) -> Result<(), Objection> {
    check_no_moment(before, reply)?;
    check_left(before, reply.client, full)?;
    check_needed(before, request, reply)?;
    if full.what == Resource::Nodes {
        check_too_few(before, request, reply, full.left)?;
    }
    Err(object_to_full(before, reply.client, full.what))
}

/// The share had enough as the call began, and no try can have been lost.
fn object_to_full(before: &LinesBefore<'_>, pass: PassNo, resource: Resource) -> Objection {
    let (layout, client) = (before.judge.layout(), before.client(pass));
    let (what, left) = match resource {
        Resource::Nodes => ("nodes", layout.nodes.saturating_sub(client.nodes)),
        Resource::Scx => ("SCX-records", layout.scx.saturating_sub(client.scx)),
    };
    let text = "# # were left as the call began, and since then no SCX-record of another client \
        was in progress, to which it could have lost a try";
    let details = [Number(u64::from(left)), Text(what)];
    before.object(ANSWER, text, &details)
}

/// So many nodes are too few for the edit.
fn check_too_few(
    before: &LinesBefore<'_>,
    request: &Request<u64, u128>,
    reply: &Finished,
    told: u32,
) -> Result<(), Objection> {
    let needed = most_needed(before, request, reply)?;
    let text = "# nodes are enough for the call, which needed # at most";
    let details = [Number(u64::from(told)), Number(u64::from(needed))];
    before.demand(told < needed, ANSWER, text, &details)
}

/// What is left of the share: so many nodes, or no SCX-record, and some node.
pub(crate) fn check_left(
    before: &LinesBefore<'_>,
    pass: PassNo,
    full: &Full,
) -> Result<(), Objection> {
    let (layout, taken) = (before.judge.layout(), before.taken(pass));
    let nodes = layout.nodes.saturating_sub(taken.0);
    let scx = layout.scx.saturating_sub(taken.1);
    let (left, what) = match full.what {
        Resource::Nodes => (nodes, "the nodes that are left of the share"),
        Resource::Scx => (scx, "the SCX-records that are left of the share"),
    };
    let fits = full.what == Resource::Nodes || (scx == 0 && nodes > 0);
    before.demand_same(ANSWER, u64::from(full.left), u64::from(left), what)?;
    let text = "# SCX-records and # nodes are left: none and some are wanted";
    let details = [Number(u64::from(scx)), Number(u64::from(nodes))];
    before.demand(fits, ANSWER, text, &details)
}
