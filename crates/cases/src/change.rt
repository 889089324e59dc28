//! Reports with a change.
use crate::command::Action;
use crate::expected::Expected;
use crate::files::{file_of, has_file, lines_of};
use crate::finding::Finding;
use crate::inputs::Inputs;
use anyhow::{Context, Result};
use arena::Mode;
use std::alloc::Global;
use std::rt::Files;
use std::sync::Wait;
use std::thread::Threads;

/// The folder of a report, or of its script and schedule; the row that the audit is to name once it
/// changed; and the changes: what is there, and what is put in its place the first time that
/// it is there.
#[derive(Clone, Copy)]
pub(crate) struct ReportChange<'a> {
    folder: &'a str,
    row: &'a str,
    changes: &'a str,
}

impl<'a> ReportChange<'a> {
    /// What a line says, with a `;` between any two of these.
    pub(crate) fn of(line: &'a str) -> Result<ReportChange<'a>> {
        let (folder, rest) = line.split_once(';').context(line)?;
        let (row, changes) = rest.split_once(';').context(line)?;
        Ok(ReportChange {
            folder,
            row,
            changes,
        })
    }

    /// How the audit of the changed report ends.
    pub(crate) fn find<R: Files + AllocGlobal + Threads + Wait + Sync>(
        self,
        rt: &R,
    ) -> Result<Finding> {
        let alloc = rt.alloc();
        let report = report_of(rt, self.folder)?;
        let texts = Inputs {
            first: changed(alloc, report, self.changes)?,
            second: Vec::new(alloc),
        };
        let row = self.row;
        let fault = format!(in alloc; "not lawful: row {row}\n")?.into_bytes();
        let ended = texts.over(rt, Action::Audit);
        Ok(Expected::Fault(fault).compare(alloc, &ended)?)
    }
}

/// The report of a folder: the file, or where there is none, what a play of its texts prints.
fn report_of<R: Files + AllocGlobal + Threads + Wait + Sync>(
    rt: &R,
    folder: &str,
) -> Result<Vec<u8>> {
    if has_file(rt, folder, "report.csv")? {
        return file_of(rt, folder, "report.csv");
    }
    let command = Action::Play(Mode::Tree);
    Ok(Inputs::of(rt, command, folder)?.over(rt, command).out)
}

/// A report with these changes made.
fn changed(alloc: Global, report: Vec<u8>, changes: &str) -> Result<Vec<u8>> {
    let mut text = String::from_utf8(report).context("no text")?;
    let mut parts = changes.split(';');
    while let (Some(old), Some(new)) = (parts.next(), parts.next()) {
        let (old, new) = (lines_of(alloc, old)?, lines_of(alloc, new)?);
        let (front, back) = text
            .as_str()
            .split_once(old.as_str())
            .context("no such row")?;
        text = format!(in alloc; "{front}{new}{back}")?;
    }
    Ok(text.into_bytes())
}
