//! What can be refused while a report is read.
ghost use Rattle.std.specs.Prelude.{◌≡◌};
ghost use Rattle.report.specs.Faults.{report_fault};

use texts::{Cause, TextFault};
use thiserror::Error;

/// Why a report could not be read.
#[derive(Clone, Copy, Debug, PartialEq, Eq, Error)]
pub enum ReportFault {
    /// An allocation was refused.
    #[error("no memory")]
    NoMemory,
    /// The reader failed in this call.
    #[error("read failed")]
    Read,
    /// The first row that is not as reports have it, counted from 1.
    #[error("not lawful: row {row}")]
    NotLawful { row: u64 },
}

/// What is wrong with a row that no report has.
#[derive(Clone, Copy, Debug, PartialEq, Eq)]
pub struct NotLawful;

impl Cause for NotLawful {
    const FIELDS: NotLawful = NotLawful;

    ghost FIELDS = { record {} };

    const END: NotLawful = NotLawful;

    ghost END = { record {} };

    const LONG: NotLawful = NotLawful;

    ghost LONG = { record {} };
}

/// Why the rows of a report were refused.
pub type RowFault = TextFault<NotLawful>;

impl From<RowFault> for ReportFault {
    ghost from_gives = { λ rows fault. fault ≡ report_fault rows };

    fn from(fault: RowFault) -> ReportFault {
        match fault {
            RowFault::NoMemory => ReportFault::NoMemory,
            RowFault::Read => ReportFault::Read,
            RowFault::Bad { row, .. } => ReportFault::NotLawful { row },
        }
    }
}
