//! Texts of csv rows, in and out: readers and writers that count their failures, rows, numbers.
#![tactic(auto)]

mod digits;
mod fail_at;
mod fault;
mod metered;
mod number;
mod rows;
mod sending;
mod sheet;

pub use fail_at::FailAt;
pub use fault::{Cause, TextFault, WriteFault};
pub use metered::Metered;
pub use number::{Number, is_number, number_of, small_number_of};
pub use rows::{Format, Rows, by_failure_count, field};
pub use sending::send;
pub use sheet::Sheet;
