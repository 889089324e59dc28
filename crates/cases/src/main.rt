//! Gives the program the cases that are where this one runs, and reports how each ends: a line a
//! case. `cases.txt` lists those that have folders, `refused.txt` has texts that are refused,
//! `reports.txt` reports with a change, `words.txt` words of the command line, and `sweeps.txt` scripts
//! that are played by one schedule after another.
#![tactic(auto)]

mod case;
mod cases;
mod change;
mod command;
mod copy;
mod devices;
mod ended;
mod example;
mod expected;
mod explored;
mod files;
mod finding;
mod inputs;
mod refusal;
mod sweep;
mod turns;
mod words;

use crate::cases::all;
use anyhow::{Result, ensure};

/// Ends with status 1 where a file is missing, where there are no cases, and where one does not end
/// as it has to.
fn main(rt: HostRuntime) -> Result<()> {
    let told = all(&rt)?;
    let other = told.other;
    ensure!(told.all > 0, "no cases");
    ensure!(other == 0, "{other} cases end otherwise");
    Ok(())
}
