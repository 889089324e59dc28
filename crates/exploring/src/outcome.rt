//! What a schedule leaves.
use arena::PassNo;
use explaining::edit_pairs;
use record::{Entry, Line, Record};
use report::answer_text;
use script::{Call, Command};
use std::alloc::{AllocError, Global};

/// The rows of a record's outcome: the replies by client and call, and the pairs that are left in
/// the map, by rising key.
pub(crate) fn outcome_text(alloc: Global, record: &Record) -> Result<String, AllocError> {
    let mut text = String::new(alloc);
    for client in 0..record.script.layout.passes {
        put_replies(alloc, &mut text, record, PassNo(client))?;
    }
    let pairs = pairs_of(alloc, record)?;
    for (key, value) in pairs.iter() {
        writeln!(text, "pair,{key},{value},")?;
    }
    Ok(text)
}

/// Adds the replies of a client.
fn put_replies(
    alloc: Global,
    text: &mut String,
    record: &Record,
    client: PassNo,
) -> Result<(), AllocError> {
    for line in record.lines.iter() {
        if let Line::Reply(reply) = line
            && reply.client == client
        {
            let answer = answer_text(alloc, &reply.answer)?;
            writeln!(text, "reply,{},{},{answer}", client.0, reply.call)?;
        }
    }
    Ok(())
}

/// The pairs that the updates of a record leave, by rising key.
fn pairs_of(alloc: Global, record: &Record) -> Result<Vec<(u64, u128)>, AllocError> {
    let mut pairs = Vec::new(alloc);
    for line in record.lines.iter() {
        if let Line::Log(entry) = line
            && let Some(command) = command_of(record.script.calls.as_slice(), entry)
        {
            edit_pairs(&mut pairs, command)?;
        }
    }
    Ok(pairs)
}

/// The command of the call that an entry is of.
fn command_of(calls: &[Call], entry: &Entry) -> Option<Command> {
    let mut own = calls.iter().filter(|call| call.client == entry.client);
    Some(own.nth(entry.call as usize)?.command)
}
