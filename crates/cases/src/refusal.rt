//! Inputs that are refused.
use crate::command::Action;
use crate::expected::Expected;
use crate::files::lines_of;
use crate::finding::Finding;
use crate::inputs::Inputs;
use anyhow::{Context, Result};
use std::sync::Wait;
use std::thread::Threads;

/// A command, the fault that it is to report, and its texts, in which `|` is a new line.
#[derive(Clone, Copy)]
pub(crate) struct Refusal<'a> {
    command: Action<'a>,
    fault: &'a str,
    texts: &'a str,
}

impl<'a> Refusal<'a> {
    /// What a line says: the words of the command, the fault, and one text or two, with a `;`
    /// between them.
    pub(crate) fn of(line: &'a str) -> Result<Refusal<'a>> {
        let (words, rest) = line.split_once(';').context(line)?;
        let (fault, texts) = rest.split_once(';').context(line)?;
        Ok(Refusal {
            command: Action::of(words)?,
            fault,
            texts,
        })
    }

    /// How it ends.
    pub(crate) fn find<R: AllocGlobal + Threads + Wait + Sync>(self, rt: &R) -> Result<Finding> {
        let alloc = rt.alloc();
        let (first, second) = self.texts.split_once(';').unwrap_or((self.texts, ""));
        let texts = Inputs {
            first: lines_of(alloc, first)?.into_bytes(),
            second: lines_of(alloc, second)?.into_bytes(),
        };
        let fault = self.fault;
        let fault = format!(in alloc; "{fault}\n")?.into_bytes();
        let ended = texts.over(rt, self.command);
        Ok(Expected::Fault(fault).compare(alloc, &ended)?)
    }
}
