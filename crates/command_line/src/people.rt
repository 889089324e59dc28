//! What the program for people does with its words.
ghost use Rattle.std.specs.Prelude.{◌≤◌};

use crate::buffered::play_buffered;
use crate::command_help::whole_command;
use crate::complaint::Complaint;
use crate::outcomes::{ScheduleBounds, explore_to};
use crate::progress::Progress;
use crate::refusal::{record_of, require_lawful, schedule_of, script_of};
use crate::source::{LateFile, Source};
use crate::words::matches_of;
use arena::Mode;
use clap::error::ErrorKind;
use clap::{ArgMatches, Error};
use drawing::{Window, picture_of, write_page};
use program::{Fault, run_over};
use record::Record;
use std::alloc::Global;
use std::io::{Input, Write};
use std::rt::Files;
use std::sync::Wait;
use std::thread::Threads;
use std::time::Clock;
use texts::{Metered, send};

/// Does what the words ask for, of which the first is the program's own name, and answers the exit
/// status. Help goes to `out`; a fault goes to `err`, and says where and what.
pub fn people_words<
    R: Files + Input + Clock + AllocGlobal + Threads + Wait + Sync,
    O: Write,
    E: Write,
>(rt: &R, words: &[String], out: &mut O, err: &mut E) -> u8
    ensures { result ≤ 4 }
{
    match matches_of(whole_command(rt.alloc()), words) {
        Ok(given) => {
            match choose_output(rt, &given, out, err) {
                Ok(()) => 0,
                Err(complaint) => complaint.print(err),
            }
        }
        Err(error) => print_usage(&error, out, err),
    }
}

/// Prints help, the version, or what does not fit.
fn print_usage<O: Write, E: Write>(error: &Error, out: &mut O, err: &mut E) -> u8
    ensures { result ≤ 4 }
{
    if error.kind() == ErrorKind::OutOfMemory {
        return Complaint::NoMemory.print(err);
    }
    if error.use_stderr() {
        let _ = write!(err, "{error}");
        return 2;
    }
    match write!(out, "{error}") {
        Ok(()) => 0,
        Err(_) => Complaint::Write.print(err),
    }
}

fn choose_output<
    R: Files + Input + Clock + AllocGlobal + Threads + Wait + Sync,
    O: Write,
    E: Write,
>(rt: &R, given: &ArgMatches<'_>, out: &mut O, err: &mut E) -> Result<(), Complaint> {
    // That there is a command has been asked.
    let Some((name, given)) = given.subcommand() else {
        return Ok(());
    };
    let Some(file) = given.get_str("output") else {
        return do_command(rt, name, given, out, err);
    };
    let mut late = LateFile::new(rt, file);
    match do_command(rt, name, given, &mut late, err) {
        Err(Complaint::Write) => Err(late.unwritten(rt.alloc())),
        done => done,
    }
}

fn do_command<R: Files + Input + Clock + AllocGlobal + Threads + Wait + Sync, O: Write, E: Write>(
    rt: &R,
    name: &str,
    given: &ArgMatches<'_>,
    out: &mut O,
    err: &mut E,
) -> Result<(), Complaint> {
    match name {
        "play" => play(rt, Mode::Tree, given, out, err),
        "trie" => play(rt, Mode::Trie, given, out, err),
        "records" => play(rt, Mode::Records, given, out, err),
        "run" => run(rt, given, out),
        "outcomes" => list_outcomes(rt, given, out, err),
        _ => show(rt, name, given, out, err),
    }
}

fn play<R: Files + Input + Clock + AllocGlobal, O: Write, E: Write>(
    rt: &R,
    mode: Mode,
    given: &ArgMatches<'_>,
    out: &mut O,
    err: &mut E,
) -> Result<(), Complaint> {
    let alloc = rt.alloc();
    require_one_input(alloc, given)?;
    let text = Source::of(rt, given, "SCRIPT")?;
    let script = script_of(alloc, mode, &text)?;
    let schedule = Source::of(rt, given, "SCHEDULE")?;
    schedule_of(alloc, &script, &schedule)?;
    let texts = (text.bytes.as_slice(), schedule.bytes.as_slice());
    let watch = Progress::new(rt, err, given.get_flag("progress"), "turns", None);
    let mut unsaid = Vec::new(alloc);
    ended(play_buffered(alloc, mode, texts, watch, out, &mut unsaid))
}

/// Standard input can be read once.
fn require_one_input(alloc: Global, given: &ArgMatches<'_>) -> Result<(), Complaint> {
    if given.get_str("SCRIPT") == Some("-") && given.get_str("SCHEDULE") == Some("-") {
        let text = "SCRIPT and SCHEDULE: only one of them can be `-`";
        return Err(Complaint::Usage(String::from_str(alloc, text)?));
    }
    Ok(())
}

/// How a command ends that has this status over texts which are right: it can want memory, and a
/// write can fail.
fn ended(status: u8) -> Result<(), Complaint> {
    match status {
        0 => Ok(()),
        3 => Err(Complaint::NoMemory),
        _ => Err(Complaint::Write),
    }
}

fn run<R: Files + Input + Clock + AllocGlobal + Threads + Wait + Sync, O: Write>(
    rt: &R,
    given: &ArgMatches<'_>,
    out: &mut O,
) -> Result<(), Complaint> {
    let (alloc, mode) = (rt.alloc(), map_of(given));
    let script = Source::of(rt, given, "SCRIPT")?;
    script_of(alloc, mode, &script)?;
    let gate = given.get_str("gate").unwrap_or("open");
    let mut script = Metered::new(script.bytes.as_slice());
    let (mut out, mut err) = (Metered::new(out), Vec::new(alloc));
    ended(run_over(
        rt,
        mode == Mode::Trie,
        gate,
        &mut script,
        &mut out,
        &mut err,
    ))
}

fn list_outcomes<R: Files + Input + Clock + AllocGlobal, O: Write, E: Write>(
    rt: &R,
    given: &ArgMatches<'_>,
    out: &mut O,
    err: &mut E,
) -> Result<(), Complaint> {
    let (alloc, mode) = (rt.alloc(), map_of(given));
    let script = Source::of(rt, given, "SCRIPT")?;
    script_of(alloc, mode, &script)?;
    let bounds = bounds_of(given);
    let (mut script, mut out) = (script.bytes.as_slice(), Metered::new(out));
    let asked = given.get_flag("progress");
    let mut watch = Progress::new(rt, err, asked, "schedules at most", Some(bounds.most));
    let left = explore_to(alloc, mode, &mut script, bounds, &mut watch, &mut out)?;
    let _ = err.write_all(left.as_bytes());
    Ok(())
}

/// The bounds of the schedules that are asked for.
fn bounds_of(given: &ArgMatches<'_>) -> ScheduleBounds {
    ScheduleBounds {
        interruptions: given.get_one::<u32>("interruptions").unwrap_or(2),
        most: given.get_one::<u64>("most").unwrap_or(1_000_000),
    }
}

/// The mode of the map that is asked for.
fn map_of(given: &ArgMatches<'_>) -> Mode {
    match given.get_str("map") {
        Some("trie") => Mode::Trie,
        _ => Mode::Tree,
    }
}

/// Audits a report, draws it, or makes a page of it.
fn show<R: Files + Input + Clock + AllocGlobal, O: Write, E: Write>(
    rt: &R,
    name: &str,
    given: &ArgMatches<'_>,
    out: &mut O,
    err: &mut E,
) -> Result<(), Complaint> {
    let alloc = rt.alloc();
    let window = window_of(alloc, given)?;
    let report = Source::of(rt, given, "REPORT")?;
    let record = record_of(alloc, &report)?;
    if name == "audit" {
        let all = Some(record.lines.len() as u64);
        let mut watch = Progress::new(rt, err, given.get_flag("progress"), "rows of the run", all);
        require_lawful(alloc, &report, &record, &mut watch)?;
    }
    Ok(write_shown(alloc, name, &record, window, &mut Metered::new(out))?)
}

fn write_shown<O: Write>(
    alloc: Global,
    name: &str,
    record: &Record,
    window: Window,
    out: &mut Metered<O>,
) -> Result<(), Fault> {
    match name {
        "picture" => send(picture_of(alloc, record, window)?.as_bytes(), out)?,
        "page" => write_page(alloc, record, out)?,
        _ => send(b"lawful\n", out)?,
    }
    Ok(())
}

/// The turns that are drawn, in rising order.
fn window_of(alloc: Global, given: &ArgMatches<'_>) -> Result<Window, Complaint> {
    let from = given.get_one::<u64>("from").unwrap_or(Window::ALL.from);
    let to = given.get_one::<u64>("to").unwrap_or(Window::ALL.to);
    if from == 0 {
        let text = String::from_str(alloc, "--from: 0 is below 1, the first turn")?;
        return Err(Complaint::Usage(text));
    }
    if to < from {
        let text = format!(in alloc; "--to: {to} is below {from}, the first turn that is drawn")?;
        return Err(Complaint::Usage(text));
    }
    Ok(Window { from, to })
}
