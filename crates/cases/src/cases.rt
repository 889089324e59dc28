//! All cases, one after another.
use crate::case::Case;
use crate::change::ReportChange;
use crate::example::Example;
use crate::files::list_of;
use crate::finding::Finding;
use crate::refusal::Refusal;
use crate::sweep::Sweep;
use crate::words::WordsCase;
use anyhow::{Context, Result};
use std::io::Input;
use std::rt::Files;
use std::sync::Wait;
use std::thread::Threads;
use std::time::Clock;

/// How many cases there were, and how many of them did not end as they have to.
#[derive(Clone, Copy, Default)]
pub(crate) struct Told {
    pub(crate) all: u64,
    pub(crate) other: u64,
}

/// Reports of each case how it ends. A line of a list that begins with `#` is a remark.
pub(crate) fn all<R: Files + Input + Print + Clock + AllocGlobal + Threads + Wait + Sync>(
    rt: &R,
) -> Result<Told> {
    let mut told = Told::default();
    told.cases(rt)?;
    told.refusals(rt)?;
    told.changes(rt)?;
    told.words(rt)?;
    told.sweeps(rt)?;
    Ok(told)
}

impl Told {
    /// Those that have folders.
    fn cases<R: Files + Input + Print + Clock + AllocGlobal + Threads + Wait + Sync>(
        &mut self,
        rt: &R,
    ) -> Result<()> {
        for line in list_of(rt, "cases.txt")?.as_str().lines() {
            if let Some(rest) = line.strip_prefix("all ") {
                let (count, case) = rest.split_once(' ').context(line)?;
                let finding = self.numbered(rt, count.parse().ok().context(line)?, case)?;
                self.tell(rt, line, finding)?;
            } else if let Some(rest) = line.strip_prefix("example ") {
                self.tell(rt, line, Example::of(rest)?.find(rt)?)?;
            } else if !line.starts_with('#') {
                self.tell(rt, line, Case::of(line)?.find(rt)?)?;
            }
        }
        Ok(())
    }

    /// This many in folders of this case's folder, from `000` on: how the last one ends that does
    /// not end as it has to. Reports each such one.
    fn numbered<R: Files + Print + AllocGlobal + Threads + Wait + Sync>(
        &mut self,
        rt: &R,
        count: u32,
        case: &str,
    ) -> Result<Finding> {
        let mut found = Finding::AsExpected;
        for number in 0..count {
            let line = format!(in rt.alloc(); "{case}/{number:03}")?;
            let finding = Case::of(line.as_str())?.find(rt)?;
            if finding != Finding::AsExpected {
                self.tell(rt, line.as_str(), finding)?;
                found = finding;
            }
        }
        Ok(found)
    }

    /// Texts that are refused.
    fn refusals<R: Files + Print + AllocGlobal + Threads + Wait + Sync>(
        &mut self,
        rt: &R,
    ) -> Result<()> {
        for line in list_of(rt, "refused.txt")?.as_str().lines() {
            if !line.starts_with('#') {
                self.tell(rt, line, Refusal::of(line)?.find(rt)?)?;
            }
        }
        Ok(())
    }

    /// Reports with a change.
    fn changes<R: Files + Print + AllocGlobal + Threads + Wait + Sync>(
        &mut self,
        rt: &R,
    ) -> Result<()> {
        for line in list_of(rt, "reports.txt")?.as_str().lines() {
            if !line.starts_with('#') {
                self.tell(rt, line, ReportChange::of(line)?.find(rt)?)?;
            }
        }
        Ok(())
    }

    /// Words of the command line.
    fn words<R: Files + Input + Print + Clock + AllocGlobal + Threads + Wait + Sync>(
        &mut self,
        rt: &R,
    ) -> Result<()> {
        for line in list_of(rt, "words.txt")?.as_str().lines() {
            if !line.starts_with('#') {
                self.tell(rt, line, WordsCase::of(line)?.find(rt)?)?;
            }
        }
        Ok(())
    }

    /// Scripts by one schedule after another.
    fn sweeps<R: Files + Print + AllocGlobal>(&mut self, rt: &R) -> Result<()> {
        for line in list_of(rt, "sweeps.txt")?.as_str().lines() {
            if !line.starts_with('#') {
                self.tell(rt, line, Sweep::of(line)?.find(rt.alloc())?)?;
            }
        }
        Ok(())
    }

    /// Reports how a case has ended.
    fn tell<R: Print>(&mut self, rt: &R, name: &str, finding: Finding) -> Result<()> {
        println!(rt; "{name}: {finding}")?;
        self.all = self.all.saturating_add(1);
        if finding != Finding::AsExpected {
            self.other = self.other.saturating_add(1);
        }
        Ok(())
    }
}
