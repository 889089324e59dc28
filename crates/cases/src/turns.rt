//! Plays that are made again, turn by turn.
ghost use Rattle.std.specs.Prelude.{◌<◌, All, IfOk};

use crate::command::Action;
use crate::finding::Finding;
use crate::inputs::Inputs;
use anyhow::Result;
use arena::{Mode, PassNo};
use player::play;
use record::{Line, Record, TurnRow};
use report::{read_record, write_record};
use script::read_script;
use std::alloc::{AllocError, Global};
use std::sync::Wait;
use std::thread::Threads;
use texts::Metered;

/// Of the report of a play: the audit finds it lawful, it is read as it was written, and the same
/// turns, made one by one, give it again.
pub(crate) fn replayed<R: AllocGlobal + Threads + Wait + Sync>(
    rt: &R,
    mode: Mode,
    script: &[u8],
    report: &[u8],
) -> Result<Finding> {
    let alloc = rt.alloc();
    let (first, second) = (report.to_vec(alloc)?, Vec::new(alloc));
    let given = Inputs { first, second };
    if given.over(rt, Action::Audit).out.as_slice() != b"lawful\n".as_slice() {
        return Ok(Finding::Unlawful);
    }
    if given.over(rt, Action::Copy).out.as_slice() != report {
        return Ok(Finding::Copy);
    }
    let again = again(alloc, mode, script, report)?;
    Ok(if again.as_slice() == report {
        Finding::AsExpected
    } else {
        Finding::Turns
    })
}

/// The report of the turns of a report.
fn again(alloc: Global, mode: Mode, script: &[u8], report: &[u8]) -> Result<Vec<u8>> {
    let script = read_script(alloc, mode, &mut Metered::new(script))?;
    let record = read_record(alloc, &mut Metered::new(report))?;
    let turns = turns_of(alloc, &record, script.layout.passes)?;
    let record = play(alloc, &script, turns.as_slice())?;
    let mut to = Metered::new(Vec::new(alloc));
    write_record(alloc, &record, &mut to)?;
    Ok(to.inner)
}

/// The clients of the turns of a record, among this many.
fn turns_of(alloc: Global, record: &Record, passes: u32) -> Result<Vec<PassNo>, AllocError>
    ensures { IfOk result (λ turns. All (λ pass. pass.0 < passes) turns.items) }
{
    let mut turns = Vec::new(alloc);
    for line in record.lines.iter() {
        match client_of(line) {
            Some(client) if client.0 < passes => turns.push(client)?,
            _ => {}
        }
    }
    Ok(turns)
}

/// The client of a turn.
fn client_of(line: &Line) -> Option<PassNo> {
    match line {
        Line::Step(TurnRow::Step { number: _, row }) => Some(row.pass),
        Line::Step(TurnRow::Idle { number: _, client }) => Some(*client),
        _ => None,
    }
}
