//! What the program does with its words.
ghost use Rattle.std.specs.Prelude.{◌≤◌};

use crate::args::{Invocation, read_words};
use crate::buffered::play_buffered;
use arena::Mode;
use audit::Unwatched;
use program::{Fault, audit_over, run_over};
use std::fs;
use std::io::Write;
use std::rt::Files;
use std::sync::Wait;
use std::thread::Threads;
use texts::Metered;

/// Does what the words ask for, the first being the program's own name, and answers the exit
/// status. The files are opened in the order of the words before any of them is read.
pub fn run_words<R: Files + AllocGlobal + Threads + Wait + Sync, O: Write, E: Write>(
    rt: &R,
    words: &[String],
    out: &mut O,
    err: &mut E,
) -> u8
    ensures { result ≤ 4 }
{
    match read_words(rt.alloc(), words) {
        Ok(
            Invocation::Play {
                mode,
                script,
                schedule,
            },
        ) => play_files(rt, mode, script, schedule, out, err),
        Ok(Invocation::Run { trie, gate, script }) => run_file(rt, trie, gate, script, out, err),
        Ok(Invocation::Audit { report }) => audit_file(rt, report, out, err),
        Err(fault) => fault.print(err),
    }
}

/// Plays the script in a file by the schedule in another.
fn play_files<R: Files + AllocGlobal, O: Write, E: Write>(
    rt: &R,
    mode: Mode,
    script: &str,
    schedule: &str,
    out: &mut O,
    err: &mut E,
) -> u8
    ensures { result ≤ 4 }
{
    match open_both(rt, script, schedule) {
        Ok(texts) => play_buffered(rt.alloc(), mode, texts, Unwatched, out, err),
        Err(fault) => fault.print(err),
    }
}

fn open_both<R: Files>(rt: &R, first: &str, second: &str) -> Result<(R::File, R::File), Fault> {
    Ok((fs::open(rt, first)?, fs::open(rt, second)?))
}

/// Runs the script in a file with threads, at the gate of this name.
fn run_file<R: Files + AllocGlobal + Threads + Wait + Sync, O: Write, E: Write>(
    rt: &R,
    trie: bool,
    gate: &str,
    script: &str,
    out: &mut O,
    err: &mut E,
) -> u8
    ensures { result ≤ 4 }
{
    match fs::open(rt, script) {
        Ok(script) => {
            run_over(
                rt,
                trie,
                gate,
                &mut Metered::new(script),
                &mut Metered::new(out),
                err,
            )
        }
        Err(error) => Fault::from(error).print(err),
    }
}

/// Audits the report in a file.
fn audit_file<R: Files + AllocGlobal, O: Write, E: Write>(
    rt: &R,
    report: &str,
    out: &mut O,
    err: &mut E,
) -> u8
    ensures { result ≤ 4 }
{
    match fs::open(rt, report) {
        Ok(report) => {
            let (mut report, mut out) = (Metered::new(report), Metered::new(out));
            audit_over(rt.alloc(), &mut report, &mut out, err)
        }
        Err(error) => Fault::from(error).print(err),
    }
}
