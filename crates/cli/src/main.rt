//! The program: plays a script by a schedule, runs one with threads, or audits a report.
#![tactic(auto)]

use command_line::{run_words, words_of};
use std::process::ExitCode;

fn main(rt: HostRuntime) -> ExitCode {
    let mut err = rt.stderr();
    let status = match words_of(&rt) {
        Ok(words) => run_words(&rt, words.as_slice(), &mut rt.stdout(), &mut err),
        Err(fault) => fault.print(&mut err),
    };
    ExitCode::from(status)
}
