//! Outcomes, and how often they came.
use crate::search::Exploration;
use crate::stretch::Stretch;
use arena::NoMemory;
use std::alloc::{AllocError, Global};

/// How many turns a row of a schedule has at most.
const MOST_TURNS: u32 = 1_000_000;

/// An outcome.
#[derive(Drop)]
pub(crate) struct FoundOutcome {
    /// Its rows.
    pub(crate) text: String,
    /// How many schedules have it.
    pub(crate) schedules: u64,
    /// How many interruptions the first of these has, and its turns.
    pub(crate) interruptions: u32,
    pub(crate) first: Vec<Stretch>,
}

/// All outcomes as csv: of each how many schedules have it, its replies and pairs, and the first of
/// these schedules.
pub fn outcomes_text(alloc: Global, found: &Exploration) -> Result<String, NoMemory> {
    let mut text = String::new(alloc);
    writeln!(text, "outcomes,1,{},", found.played)?;
    for (place, outcome) in found.outcomes.iter().enumerate() {
        let number = place.saturating_add(1);
        let (schedules, interruptions) = (outcome.schedules, outcome.interruptions);
        writeln!(text, "outcome,{number},{schedules},{interruptions}")?;
        text.push_str(outcome.text.as_str())?;
        put_schedule(&mut text, outcome.first.as_slice())?;
    }
    Ok(text)
}

/// How many schedules are played and how many are left, as a line; nothing where none is left.
pub fn left_text(alloc: Global, found: &Exploration) -> Result<String, NoMemory> {
    let (played, left) = (found.played, found.left);
    if left == 0 {
        return Ok(String::new(alloc));
    }
    Ok(format!(in alloc; "{played} schedules are played, and {left} that branch off are left\n")?)
}

/// Adds the rows of a schedule.
fn put_schedule(text: &mut String, stretches: &[Stretch]) -> Result<(), AllocError> {
    let mut rows: u64 = 0;
    for stretch in stretches {
        rows = rows.saturating_add(put_stretch(text, *stretch)?);
    }
    writeln!(text, "end,{rows},,")
}

/// Adds the rows of a stretch, and answers how many they are.
fn put_stretch(text: &mut String, stretch: Stretch) -> Result<u64, AllocError> {
    let (client, most) = (stretch.client.0, MOST_TURNS);
    let (full, rest) = (stretch.turns / MOST_TURNS, stretch.turns % MOST_TURNS);
    for _ in 0..full {
        writeln!(text, "step,{client},,{most}")?;
    }
    if rest == 0 {
        return Ok(u64::from(full));
    }
    writeln!(text, "step,{client},,{rest}")?;
    Ok(u64::from(full) + 1)
}
