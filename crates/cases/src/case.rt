//! Cases that have folders.
use crate::command::Action;
use crate::devices::failing;
use crate::expected::Expected;
use crate::finding::Finding;
use crate::inputs::Inputs;
use crate::turns::replayed;
use anyhow::{Context, Result};
use std::rt::Files;
use std::sync::Wait;
use std::thread::Threads;

/// A command, the folder that has its texts, and the one that has what it is to write.
#[derive(Clone, Copy)]
pub(crate) struct Case<'a> {
    command: Action<'a>,
    folder: &'a str,
    expected: &'a str,
    /// Whether its readers and its writer fail at each place in turn.
    fails: bool,
}

impl<'a> Case<'a> {
    /// What a line says: the words of the command, and its folder; before them `failing` if
    /// its devices fail, and after them `as` and the other folder if that is not the same.
    pub(crate) fn of(line: &'a str) -> Result<Case<'a>> {
        let (fails, line) = match line.strip_prefix("failing ") {
            Some(rest) => (true, rest),
            None => (false, line),
        };
        let (given, expected) = line.split_once(" as ").unwrap_or((line, ""));
        let (words, folder) = given.rsplit_once(' ').context(line)?;
        Ok(Case {
            command: Action::of(words)?,
            folder,
            expected: if expected.is_empty() {
                folder
            } else {
                expected
            },
            fails,
        })
    }

    /// How it ends.
    pub(crate) fn find<R: Files + AllocGlobal + Threads + Wait + Sync>(
        self,
        rt: &R,
    ) -> Result<Finding> {
        let texts = Inputs::of(rt, self.command, self.folder)?;
        let expected = Expected::of(rt, self.command, self.expected)?;
        let ended = texts.over(rt, self.command);
        let finding = expected.compare(rt.alloc(), &ended)?;
        if finding != Finding::AsExpected {
            return Ok(finding);
        }
        match self.command {
            _ if self.fails => Ok(failing(rt, self.command, &texts, ended.out.as_slice())),
            Action::Play(mode) if ended.status == 0 => {
                replayed(rt, mode, texts.first.as_slice(), ended.out.as_slice())
            }
            _ => Ok(Finding::AsExpected),
        }
    }
}
