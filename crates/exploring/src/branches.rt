//! Where another client may take a turn.
use crate::stretch::{Begun, Stretch, add_turn, branch_off, turns_of};
use arena::PassNo;
use record::{Line, Record, TurnRow};
use script::Call;
use std::alloc::{AllocError, Global};

/// A play that is looked through, turn by turn, from where it continued.
#[derive(Drop)]
pub(crate) struct Branches {
    /// How many calls each client has left.
    calls: Vec<u64>,
    /// The turns so far.
    stretches: Vec<Stretch>,
    /// Who has made the newest turn.
    newest: Option<PassNo>,
    /// How many turns had been made when it continued.
    first: u64,
    made: u64,
    interruptions: u32,
    /// The other ways to continue, those with as many interruptions and those with one more.
    pub(crate) beside: Vec<Begun>,
    pub(crate) above: Vec<Begun>,
}

impl Branches {
    /// Those of a record of a schedule that has begun so.
    pub(crate) fn of(alloc: Global, record: &Record, from: &Begun) -> Result<Branches, AllocError> {
        let passes = record.script.layout.passes;
        let mut branches = Branches {
            calls: calls_of(alloc, record.script.calls.as_slice(), passes)?,
            stretches: Vec::new(alloc),
            newest: None,
            first: turns_of(from.stretches.as_slice()),
            made: 0,
            interruptions: from.interruptions,
            beside: Vec::new(alloc),
            above: Vec::new(alloc),
        };
        for line in record.lines.iter() {
            branches.line(alloc, line)?;
        }
        Ok(branches)
    }

    fn line(&mut self, alloc: Global, line: &Line) -> Result<(), AllocError> {
        match line {
            Line::Step(TurnRow::Step { number: _, row }) => self.turn(alloc, row.pass),
            Line::Step(TurnRow::Idle { number: _, client }) => self.turn(alloc, *client),
            Line::Log(_) => Ok(()),
            Line::Reply(reply) => {
                if let Some(calls) = self.calls.get_mut(reply.client.0 as usize) {
                    *calls = calls.saturating_sub(1);
                }
                Ok(())
            }
        }
    }

    /// Continues with a turn of a client.
    fn turn(&mut self, alloc: Global, client: PassNo) -> Result<(), AllocError> {
        if self.first < self.made {
            self.branch(alloc, client)?;
        }
        self.made = self.made.saturating_add(1);
        self.newest = Some(client);
        add_turn(&mut self.stretches, client)
    }

    /// Adds the schedules in which another client makes this turn.
    fn branch(&mut self, alloc: Global, client: PassNo) -> Result<(), AllocError> {
        let has_call = self.newest.is_some_and(|newest| self.has_call(newest));
        let interruptions = self.interruptions.saturating_add(u32::from(has_call));
        let stretches = self.stretches.as_slice();
        for (number, calls) in self.calls.iter().enumerate() {
            let other = PassNo(u32::try_from(number).unwrap_or(u32::MAX));
            if *calls == 0 || other == client {
                continue;
            }
            let branch = branch_off(alloc, stretches, other, interruptions)?;
            if has_call {
                self.above.push(branch)?;
            } else {
                self.beside.push(branch)?;
            }
        }
        Ok(())
    }

    fn has_call(&self, client: PassNo) -> bool {
        match self.calls.get(client.0 as usize) {
            Some(calls) => *calls > 0,
            None => false,
        }
    }

    /// The whole schedule.
    pub(crate) fn into_stretches(self) -> Vec<Stretch> {
        self.stretches
    }
}

/// How many calls each of this many clients has.
pub(crate) fn calls_of(alloc: Global, calls: &[Call], passes: u32) -> Result<Vec<u64>, AllocError> {
    let mut counts = Vec::new(alloc);
    for _ in 0..passes {
        counts.push(0)?;
    }
    for call in calls {
        if let Some(count) = counts.get_mut(call.client.0 as usize) {
            *count = u64::saturating_add(*count, 1);
        }
    }
    Ok(counts)
}
