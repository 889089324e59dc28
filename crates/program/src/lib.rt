//! What the program does, over any readers and writers: plays a script by a schedule, and prints
//! the report; runs one with threads, and prints the outcome; or audits a report.
#![tactic(auto)]

mod audited;
mod fault;
mod play;
mod threaded;

pub use audited::audit_over;
pub use fault::Fault;
pub use play::play_over;
pub use threaded::{run_at, run_over};
