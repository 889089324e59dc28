//! What a command is given.
use crate::command::Action;
use crate::ended::ProgramEnd;
use crate::files::file_of;
use anyhow::Result;
use std::rt::Files;
use std::sync::Wait;
use std::thread::Threads;

/// The texts of a command: a script and a schedule, a script alone, or a report.
#[derive(Drop)]
pub(crate) struct Inputs {
    pub(crate) first: Vec<u8>,
    /// Empty where the command takes one text.
    pub(crate) second: Vec<u8>,
}

impl Inputs {
    /// Those of a folder.
    pub(crate) fn of<R: Files + AllocGlobal>(
        rt: &R,
        command: Action<'_>,
        folder: &str,
    ) -> Result<Inputs> {
        let none = Vec::new(rt.alloc());
        let (first, second) = match command {
            Action::Play(_) => {
                (
                    file_of(rt, folder, "script.csv")?,
                    file_of(rt, folder, "schedule.csv")?,
                )
            }
            Action::Run { .. } | Action::Outcomes { .. } => {
                (file_of(rt, folder, "script.csv")?, none)
            }
            Action::Audit | Action::Copy | Action::Picture => (
                file_of(rt, folder, "report.csv")?,
                none,
            ),
        };
        Ok(Inputs { first, second })
    }

    /// How the command ends over them.
    pub(crate) fn over<R: Threads + Wait + Sync + AllocGlobal>(
        &self,
        rt: &R,
        command: Action<'_>,
    ) -> ProgramEnd<Vec<u8>> {
        let (mut first, mut second) = (self.first.as_slice(), self.second.as_slice());
        command.over(rt, &mut first, &mut second, Vec::new(rt.alloc()))
    }
}
