//! The map after a turn.
use crate::lines_before::LinesBefore;
use arena::Side;
use ordered_map::{Goal, Reply, Request, Rule};
use script::Command;
use std::alloc::{AllocError, Global};

/// The pairs of a map, by rising key.
pub(crate) type MapPairs = Vec<(u64, u128)>;

/// The map after a turn, as the entries up to it leave it.
pub(crate) fn pairs_at(before: &LinesBefore<'_>, turn: u64) -> Result<MapPairs, AllocError> {
    let mut pairs = Vec::new(before.alloc);
    for entry in before.entries.iter() {
        if entry.step <= turn
            && let Some(command) = before.command_of(entry.client, entry.call)
        {
            edit_pairs(&mut pairs, command)?;
        }
    }
    Ok(pairs)
}

/// Edits the pairs of a map, by rising key, as a command does that has an entry.
pub fn edit_pairs(pairs: &mut Vec<(u64, u128)>, command: Command) -> Result<(), AllocError> {
    if let Command::Map(request) = command
        && let Some((goal, rule)) = request.edit()
        && let Some(key) = key_of(goal, pairs)
    {
        leave(pairs, key, rule)?;
    }
    Ok(())
}

/// Gives a key what this rule leaves it.
pub(crate) fn leave(pairs: &mut MapPairs, key: u64, rule: Rule) -> Result<(), AllocError> {
    pairs.retain(|pair| pair.0 != key);
    if let Some(value) = rule.leaves() {
        pairs.push((key, value))?;
    }
    pairs.sort()?;
    Ok(())
}

/// The key to which an edit of these pairs goes, if it finds one.
fn key_of(goal: Goal, pairs: &MapPairs) -> Option<u64> {
    match goal {
        Goal::Key(key) => Some(key),
        Goal::End(side) => Some(end_pair(pairs, side)?.0),
    }
}

/// What a key has.
pub(crate) fn value_of(pairs: &MapPairs, key: u64) -> Option<u128> {
    Some(pairs.iter().find(|pair| pair.0 == key)?.1)
}

/// The pair at an end.
pub(crate) fn end_pair(pairs: &MapPairs, side: Side) -> Option<(u64, u128)> {
    match side {
        Side::Left => pairs.first().copied(),
        Side::Right => pairs.last().copied(),
    }
}

/// What a map of these pairs replies to a call.
pub(crate) fn reply_of(
    alloc: Global,
    request: &Request<u64, u128>,
    pairs: &MapPairs,
) -> Result<Reply<u64, u128>, AllocError> {
    Ok(match *request {
        Request::Successor { key } => {
            Reply::Pair(pairs.iter().find(|pair| key < pair.0).copied())
        }
        Request::Predecessor { key } => {
            Reply::Pair(pairs.iter().rev().find(|pair| pair.0 < key).copied())
        }
        Request::Range { low, high, most } => Reply::Pairs(range_of(
            alloc, pairs, low, high, most,
        )?),
        Request::Get { key } => Reply::Value(value_of(pairs, key)),
        _ => match request.edit() {
            Some((Goal::End(side), _)) => Reply::Pair(end_pair(pairs, side)),
            Some((Goal::Key(key), _)) => Reply::Value(value_of(pairs, key)),
            None => Reply::Value(None),
        },
    })
}

/// The first pairs with keys in these bounds.
fn range_of(
    alloc: Global,
    pairs: &MapPairs,
    low: u64,
    high: u64,
    most: u32,
) -> Result<MapPairs, AllocError> {
    let mut found = Vec::new(alloc);
    for pair in pairs.iter() {
        if low <= pair.0 && pair.0 <= high && found.len() < most as usize {
            found.push(*pair)?;
        }
    }
    Ok(found)
}

/// How many nodes an edit needs on a map of these pairs; none if it has nothing to do.
pub(crate) fn needed_by(request: &Request<u64, u128>, pairs: &MapPairs) -> u32 {
    match request.edit() {
        Some((Goal::End(side), _)) => u32::from(end_pair(pairs, side).is_some()),
        Some((Goal::Key(key), rule)) => {
            let found = value_of(pairs, key);
            match (rule.applies(found), found) {
                (true, None) => 3,
                (true, Some(_)) => 1,
                (false, _) => 0,
            }
        }
        None => 0,
    }
}
