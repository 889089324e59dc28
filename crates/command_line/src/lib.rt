//! What the programs do with the words of their command lines.
#![tactic(auto)]

mod args;
mod ask;
mod buffered;
mod cell_fields;
mod command_help;
mod complaint;
mod excerpt;
mod field;
mod forms;
mod outcomes;
mod people;
mod picture;
mod progress;
mod refusal;
mod report_forms;
mod row_fault;
mod sheet_rows;
mod source;
mod words;

pub use ask::run_words;
pub use outcomes::explore_over;
pub use people::people_words;
pub use picture::draw_over;
pub use words::{exit_status, words_of};
