//! The condition that a line of a record breaks.
use crate::breach::{Breach, Objection};
use crate::details::Detail::{Number, Text};
use crate::entries::check_entry;
use crate::idle::check_idle;
use crate::lines_before::LinesBefore;
use crate::replies::check_reply;
use crate::steps::check_step;
use crate::words::entry_words;
use arena::NoMemory;
use record::{Line, Record, TurnRow};
use std::alloc::Global;

/// Why the line of this index is not lawful after those before it, which are; with the index behind
/// the last line, why the record may not end there. The only error is want of memory.
pub fn explain(alloc: Global, record: &Record, line: usize) -> Result<Breach, NoMemory> {
    match check(alloc, record, line) {
        Err(Objection::Breaks(breach)) => Ok(breach),
        Err(Objection::NoMemory) => Err(NoMemory),
        Ok(()) => Ok(Breach {
            field: 0,
            text: String::from_str(alloc, "it does not fit the rows before it")?,
        }),
    }
}

/// Objects to the line, if a condition can be told that it breaks.
fn check(alloc: Global, record: &Record, line: usize) -> Result<(), Objection> {
    let before = LinesBefore::of(alloc, record, line)?;
    let found = record.lines.get(line);
    if !matches!(found, Some(Line::Log(_))) {
        check_owed(&before)?;
    }
    match found {
        Some(Line::Step(TurnRow::Step { number, row })) => check_step(&before, *number, row),
        Some(Line::Step(TurnRow::Idle { number, client })) => check_idle(&before, *number, *client),
        Some(Line::Log(entry)) => check_entry(&before, entry),
        Some(Line::Reply(reply)) => check_reply(&before, reply),
        None => Ok(()),
    }
}

/// After an update that wins comes its entry.
fn check_owed(before: &LinesBefore<'_>) -> Result<(), Objection> {
    let Some(entry) = &before.owed else {
        return Ok(());
    };
    let wanted = entry_words(before.alloc, entry)?;
    let text = "the update of turn # has won, so its entry comes next: #";
    Err(before.object(0, text, &[Number(before.turn), Text(wanted.as_str())]))
}
