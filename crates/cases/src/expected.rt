//! What a case is to end with.
use crate::command::Action;
use crate::ended::ProgramEnd;
use crate::files::{file_of, has_file, text_of};
use crate::finding::Finding;
use anyhow::Result;
use std::alloc::{AllocError, Global};
use std::rt::Files;
use std::str::from_utf8;

/// What a command is to write.
#[derive(Drop)]
pub(crate) enum Expected {
    /// Just this to its output.
    Output(Vec<u8>),
    /// Of a report or of outcomes these rows: all replies and pairs, each last row, and whichever
    /// other rows are here.
    Rows(String),
    /// This line to standard error alone.
    Fault(Vec<u8>),
}

impl Expected {
    /// What a folder says.
    pub(crate) fn of<R: Files + AllocGlobal>(
        rt: &R,
        command: Action<'_>,
        folder: &str,
    ) -> Result<Expected> {
        if has_file(rt, folder, "fault.txt")? {
            return Ok(Expected::Fault(file_of(rt, folder, "fault.txt")?));
        }
        Ok(match command {
            Action::Play(_) if has_file(rt, folder, "rows.csv")? => {
                Expected::Rows(text_of(rt, folder, "rows.csv")?)
            }
            Action::Outcomes { .. } => Expected::Rows(text_of(rt, folder, "rows.csv")?),
            Action::Play(_) | Action::Copy => Expected::Output(file_of(rt, folder, "report.csv")?),
            Action::Run { .. } => Expected::Output(file_of(rt, folder, "outcome.csv")?),
            Action::Picture => Expected::Output(file_of(rt, folder, "picture.svg")?),
            Action::Audit => Expected::Output(b"lawful\n".to_vec(rt.alloc())?),
        })
    }

    /// What a page of a folder's report has: the rows of that.
    pub(crate) fn of_page<R: Files + AllocGlobal>(rt: &R, folder: &str) -> Result<Expected> {
        Ok(Expected::Rows(text_of(rt, folder, "report.csv")?))
    }

    /// How a command has ended, against this.
    pub(crate) fn compare(
        &self,
        alloc: Global,
        ended: &ProgramEnd<Vec<u8>>,
    ) -> Result<Finding, AllocError> {
        if ended.err.as_slice() != self.fault() {
            return Ok(Finding::Fault);
        }
        if ended.status != status_of(self.fault()) {
            return Ok(Finding::Status(ended.status));
        }
        Ok(match self {
            Expected::Output(out) => same(ended.out.as_slice(), out.as_slice()),
            Expected::Rows(rows) => {
                let report = from_utf8(ended.out.as_slice()).unwrap_or("");
                let chosen = rows_among(alloc, report, rows.as_str())?;
                same(chosen.as_bytes(), rows.as_bytes())
            }
            Expected::Fault(_) => same(ended.out.as_slice(), b""),
        })
    }

    fn fault(&self) -> &[u8] {
        match self {
            Expected::Fault(fault) => fault.as_slice(),
            _ => b"",
        }
    }
}

/// The status with which the program ends after this line on standard error.
fn status_of(fault: &[u8]) -> u8 {
    let fault = from_utf8(fault).unwrap_or("");
    let begins = |word: &str| fault.starts_with(word);
    if fault.is_empty() {
        0
    } else if begins("bad script: ") || begins("bad schedule: ") || begins("not lawful: ") {
        1
    } else if fault.contains(", row ") {
        1
    } else if begins("bad gate\n") || begins("usage\n") || begins("--") || begins("SCRIPT ") {
        2
    } else {
        4
    }
}

/// The lines of a text that are replies, pairs, a last row, or among these rows.
fn rows_among(alloc: Global, report: &str, rows: &str) -> Result<String, AllocError> {
    let mut chosen = String::new(alloc);
    for line in report.lines() {
        let is_named = rows.lines().any(|row| row == line);
        let is_kind = ["reply,", "pair,", "end,"]
            .iter()
            .any(|kind| line.starts_with(*kind));
        if is_kind || is_named {
            chosen.push_str(line)?;
            chosen.push('\n')?;
        }
    }
    Ok(chosen)
}

/// Whether a text is the one wanted.
fn same(text: &[u8], wanted: &[u8]) -> Finding {
    if text == wanted {
        return Finding::AsExpected;
    }
    let mut line: u64 = 1;
    for (byte, other) in text.iter().zip(wanted) {
        if byte != other {
            break;
        }
        if *byte == b'\n' {
            line = line.saturating_add(1);
        }
    }
    Finding::Output(line)
}
