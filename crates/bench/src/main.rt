//! Times whole calls of a forest: `bench WORK THREADS CALLS TIMES KEYS`. Its dictionary has keys
//! and values of one word, in leaves that have room for values of two.
#![tactic(auto)]

mod call;
mod cells;
mod dictionary;
mod draws;
mod fault;
mod keys;
mod lasting;
mod load;
mod locked;
mod measure;
mod pair;
mod program;
mod repetition;
mod round;
mod tally;
mod task;
mod words;
mod work;

use std::process::ExitCode;

fn main(rt: HostRuntime) -> ExitCode {
    match program::bench(&rt) {
        Ok(()) => ExitCode::SUCCESS,
        Err(fault) => ExitCode::from(fault.print(&mut rt.stderr())),
    }
}
