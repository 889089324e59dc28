//! The command that tells what a script can answer.
use arena::Mode;
use audit::{Unwatched, Watch};
use exploring::{explore_watched, left_text, outcomes_text};
use program::Fault;
use script::read_script;
use std::alloc::Global;
use std::io::{Read, Write};
use texts::{Metered, send};

/// Of which schedules the outcomes are told: those with at most so many interruptions, and at most so
/// many of them.
#[derive(Clone, Copy)]
pub(crate) struct ScheduleBounds {
    pub(crate) interruptions: u32,
    pub(crate) most: u64,
}

/// Writes the outcomes of a script by schedules with at most this many interruptions, of at most
/// this many schedules, and answers the line that says how many are left.
pub fn explore_over<R: Read, O: Write>(
    alloc: Global,
    mode: Mode,
    script: &mut R,
    interruptions: u32,
    most: u64,
    out: &mut Metered<O>,
) -> Result<String, Fault> {
    let bounds = ScheduleBounds {
        interruptions,
        most,
    };
    explore_to(alloc, mode, script, bounds, &mut Unwatched, out)
}

/// The same, of which somebody is told how many schedules are played.
pub(crate) fn explore_to<R: Read, W: Watch, O: Write>(
    alloc: Global,
    mode: Mode,
    script: &mut R,
    bounds: ScheduleBounds,
    watch: &mut W,
    out: &mut Metered<O>,
) -> Result<String, Fault> {
    let script = read_script(alloc, mode, &mut Metered::new(script))?;
    let found = explore_watched(alloc, &script, bounds.interruptions, bounds.most, watch)?;
    send(outcomes_text(alloc, &found)?.as_bytes(), out)?;
    Ok(left_text(alloc, &found)?)
}
