//! The record of a run as text, and the outcome of one with threads.
#![tactic(auto)]

mod answer;
mod as_row;
mod call;
mod commands;
mod count;
mod fault;
mod form;
mod head;
mod line;
mod name;
mod numbers;
mod outcome;
mod read;
mod read_call;
mod read_head;
mod read_line;
mod reply;
mod rows;
mod stream;
mod totals;
mod version;
mod word;
mod write;

pub use answer::answer_text;
pub use fault::ReportFault;
pub use outcome::write_outcome;
pub use read::read_record;
pub use stream::{Stream, StreamFault};
pub use texts::WriteFault;
pub use word::word_text;
pub use write::write_record;
