//! The search through all schedules.
use crate::branches::{Branches, calls_of};
use crate::found::FoundOutcome;
use crate::outcome::outcome_text;
use crate::playing::play_on;
use crate::stretch::{Begun, branch_off};
use arena::{NoMemory, PassNo};
use audit::{AuditFault, Unwatched, Watch, audit};
use record::Record;
use script::Script;
use std::alloc::{AllocError, Global};
use std::mem;

/// What is found of the schedules of a script.
#[derive(Drop)]
pub struct Exploration {
    /// How many were played.
    pub played: u64,
    /// How many that had begun were not played, since there were too many.
    pub left: u64,
    /// The outcomes, in the order in which they came.
    pub(crate) outcomes: Vec<FoundOutcome>,
    /// Those to be played before one has another interruption, and after that.
    now: Vec<Begun>,
    later: Vec<Begun>,
}

/// Plays the schedules of a script in which clients with a call left are interrupted at most
/// `interruptions` times in all, those with fewer first; at most `most` of them. The record of each
/// outcome's first schedule is audited.
///
/// Of two clients that make m and n turns, whatever the other does, those with p interruptions are
/// C(m - 1, a) C(n - 1, b) + C(n - 1, a) C(m - 1, b), where a is p / 2 rounded up and b rounded
/// down: one client begins, and of the places after its turns, but the last, a are chosen, and
/// b after those of the other. Up to two interruptions that is 2 + (m + n - 2) + 2 (m - 1)(n - 1).
pub fn explore(
    alloc: Global,
    script: &Script,
    interruptions: u32,
    most: u64,
) -> Result<Exploration, AuditFault> {
    explore_watched(alloc, script, interruptions, most, &mut Unwatched)
}

/// The same, and says how many schedules it has played.
pub fn explore_watched<W: Watch>(
    alloc: Global,
    script: &Script,
    interruptions: u32,
    most: u64,
    watch: &mut W,
) -> Result<Exploration, AuditFault> {
    let mut exploration = Exploration::of(alloc, script).map_err(no_memory)?;
    for _ in 0..most {
        let Some(next) = exploration.next() else {
            return Ok(exploration);
        };
        let new = exploration.play(alloc, script, &next, interruptions, most);
        if let Some(record) = new.map_err(no_memory)? {
            audit(alloc, &record)?;
        }
        watch.reached(exploration.played);
    }
    exploration.leave();
    Ok(exploration)
}

fn no_memory(_refused: NoMemory) -> AuditFault {
    AuditFault::NoMemory
}

impl Exploration {
    /// No schedule of a script is played.
    fn of(alloc: Global, script: &Script) -> Result<Exploration, NoMemory> {
        Ok(Exploration {
            played: 0,
            left: 0,
            outcomes: Vec::new(alloc),
            now: first_of(alloc, script)?,
            later: Vec::new(alloc),
        })
    }

    /// The next schedule to be played.
    fn next(&mut self) -> Option<Begun> {
        if self.now.is_empty() {
            mem::swap(&mut self.now, &mut self.later);
        }
        self.now.pop()
    }

    /// Plays a schedule, and notes its outcome and those that branch off from it. Answers the
    /// record of an outcome that is new.
    fn play(
        &mut self,
        alloc: Global,
        script: &Script,
        begun: &Begun,
        interruptions: u32,
        most: u64,
    ) -> Result<Option<Record>, NoMemory> {
        let record = play_on(alloc, script, begun)?;
        self.played = self.played.saturating_add(1);
        let mut branches = Branches::of(alloc, &record, begun)?;
        for branch in mem::replace(&mut branches.beside, Vec::new(alloc)) {
            self.keep(branch, most, false)?;
        }
        for branch in mem::replace(&mut branches.above, Vec::new(alloc)) {
            if branch.interruptions <= interruptions {
                self.keep(branch, most, true)?;
            }
        }
        let is_new = self.note(alloc, &record, begun.interruptions, branches)?;
        Ok(if is_new { Some(record) } else { None })
    }

    /// Whether more schedules wait than may be played.
    fn is_full(&self, most: u64) -> bool {
        let waiting = (self.now.len() as u64).saturating_add(self.later.len() as u64);
        most <= waiting.saturating_add(self.played)
    }

    /// Keeps a schedule to be played, now or later, if not too many wait.
    fn keep(&mut self, branch: Begun, most: u64, later: bool) -> Result<(), AllocError> {
        if self.is_full(most) {
            self.left = self.left.saturating_add(1);
        } else if later {
            self.later.push(branch)?;
        } else {
            self.now.push(branch)?;
        }
        Ok(())
    }

    /// Notes the outcome of a play, and answers whether it is new.
    fn note(
        &mut self,
        alloc: Global,
        record: &Record,
        interruptions: u32,
        branches: Branches,
    ) -> Result<bool, NoMemory> {
        let text = outcome_text(alloc, record)?;
        for outcome in self.outcomes.iter_mut() {
            if outcome.text.as_str() == text.as_str() {
                outcome.schedules = outcome.schedules.saturating_add(1);
                return Ok(false);
            }
        }
        let outcome = FoundOutcome {
            text,
            schedules: 1,
            interruptions,
            first: branches.into_stretches(),
        };
        self.outcomes.push(outcome)?;
        Ok(true)
    }

    /// Counts what is left.
    fn leave(&mut self) {
        let waiting = (self.now.len() as u64).saturating_add(self.later.len() as u64);
        self.left = self.left.saturating_add(waiting);
    }
}

/// The schedules that begin with each client that has a call, or one of no turns.
fn first_of(alloc: Global, script: &Script) -> Result<Vec<Begun>, NoMemory> {
    let mut first = Vec::new(alloc);
    let calls = calls_of(alloc, script.calls.as_slice(), script.layout.passes)?;
    for (number, calls) in calls.iter().enumerate().rev() {
        if *calls > 0 {
            let client = PassNo(u32::try_from(number).unwrap_or(u32::MAX));
            first.push(branch_off(alloc, &[], client, 0)?)?;
        }
    }
    if first.is_empty() {
        first.push(branch_off(alloc, &[], PassNo(0), 0)?)?;
    }
    Ok(first)
}
