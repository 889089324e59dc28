//! What the program does.
use crate::fault::Fault;
use crate::measure::{HEADER, measure};
use crate::words::{tasks_of, words_of};
use std::rt::{Clock, Env};
use std::sync::Wait;
use std::thread::Threads;

/// Measures what the words of the command line ask for, and prints a row for each measurement.
pub fn bench<R: Threads + Wait + Sync + Clock + Env + Print + AllocGlobal>(
    rt: &R,
) -> Result<(), Fault> {
    let words = words_of(rt)?;
    let tasks = tasks_of(rt.alloc(), words.as_slice())?;
    rt.println(HEADER)?;
    for task in tasks {
        let row = measure(rt, task)?;
        rt.println(row)?;
    }
    Ok(())
}
