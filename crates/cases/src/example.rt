//! Examples in the help of `rnb`.
use crate::command::Action;
use crate::expected::Expected;
use crate::finding::Finding;
use crate::words::people_end;
use anyhow::{Context, Result};
use std::io::Input;
use std::rt::Files;
use std::str::from_utf8;
use std::sync::Wait;
use std::thread::Threads;
use std::time::Clock;

/// The example of a command, and the folder that has what it is to write.
#[derive(Clone, Copy)]
pub(crate) struct Example<'a> {
    command: &'a str,
    folder: &'a str,
}

impl<'a> Example<'a> {
    /// What a line says: the words of the command, and the folder.
    pub(crate) fn of(line: &'a str) -> Result<Example<'a>> {
        let (command, folder) = line.rsplit_once(' ').context(line)?;
        Ok(Example { command, folder })
    }

    /// How it ends. What is said on standard error without a fault comes behind the output.
    pub(crate) fn find<R: Files + Input + Clock + AllocGlobal + Threads + Wait + Sync>(
        self,
        rt: &R,
    ) -> Result<Finding> {
        let alloc = rt.alloc();
        let (name, _) = self.command.split_once(' ').unwrap_or((self.command, ""));
        let asked = format!(in alloc; "rnb {name} --help")?;
        let help = people_end(rt, asked.as_str())?;
        let words = example_in(from_utf8(help.out.as_slice()).unwrap_or("")).context("no example")?;
        let mut ended = people_end(rt, words)?;
        if ended.status == 0 {
            ended.out.extend_from_slice(ended.err.as_slice())?;
            ended.err.clear();
        }
        Ok(self.expected(rt)?.compare(alloc, &ended)?)
    }

    fn expected<R: Files + AllocGlobal>(self, rt: &R) -> Result<Expected> {
        if self.command == "page" {
            return Expected::of_page(rt, self.folder);
        }
        Expected::of(rt, Action::of(self.command)?, self.folder)
    }
}

/// The words of the example in a help, without the file to which the shell sends its output.
fn example_in(help: &str) -> Option<&str> {
    let line = help
        .lines()
        .find_map(|line| line.strip_prefix("Example: "))?;
    Some(match line.split_once(" >") {
        Some((words, _)) => words,
        None => line,
    })
}
