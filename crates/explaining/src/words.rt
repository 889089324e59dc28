//! What is named in more than one condition.
use crate::lines_before::LinesBefore;
use crate::map_before::MapPairs;
use arena::{Kind, Layout, PassNo};
use record::Entry;
use script::{CommandText, kind_name};
use std::alloc::{AllocError, Global};

/// The next call of a client: its number, and what it does.
pub(crate) fn call_words(before: &LinesBefore<'_>, pass: PassNo) -> Result<String, AllocError> {
    let (alloc, number) = (before.alloc, before.client(pass).answered);
    let mut text = format!(in alloc; "client {}'s call {number}", pass.0)?;
    let Some(command) = before.next(pass) else {
        return Ok(text);
    };
    let told = CommandText::of(alloc, &command)?;
    write!(text, ", {}", told.name)?;
    for field in [&told.a, &told.b, &told.c] {
        if !field.is_empty() {
            write!(text, " {}", field.as_str())?;
        }
    }
    Ok(text)
}

/// The nodes of a client's share, or its SCX-records.
pub(crate) fn put_share(
    text: &mut String,
    letter: &str,
    first: u32,
    many: u32,
) -> Result<(), AllocError> {
    match first.saturating_add(many).checked_sub(1) {
        Some(last) if many > 0 => write!(text, "{letter}{first} to {letter}{last}"),
        _ => text.push_str("empty"),
    }
}

/// Pairs, as `pairs KEY VALUE KEY VALUE`.
pub(crate) fn put_pairs(text: &mut String, pairs: &MapPairs) -> Result<(), AllocError> {
    if pairs.is_empty() {
        return text.push_str("no pair");
    }
    text.push_str("pairs")?;
    for (key, value) in pairs.iter() {
        write!(text, " {key} {value}")?;
    }
    Ok(())
}

/// The row of an entry.
pub(crate) fn entry_words(alloc: Global, entry: &Entry) -> Result<String, AllocError> {
    let Entry {
        place,
        step,
        scx,
        client,
        call,
    } = entry;
    format!(in alloc; "log,{place},{step},s{},{},{call},", scx.0, client.0)
}

/// Whether a node is of another client's share, and of whose.
pub(crate) fn other_owner(layout: &Layout, pass: PassNo, node: u64) -> Option<PassNo> {
    let behind = node.checked_sub(u64::from(layout.opening()))?;
    let owner = behind.checked_div(u64::from(layout.nodes))?;
    match u32::try_from(owner) {
        Ok(owner) if owner < layout.passes && owner != pass.0 => Some(PassNo(owner)),
        _ => None,
    }
}

/// The name of a kind of step.
pub(crate) fn name_of(kind: Kind) -> &'static str {
    kind_name(kind)
}
