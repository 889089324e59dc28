//! What an audit finds wrong.
ghost use Rattle.std.specs.Prelude.{◌≡◌, ◌≤◌, ◌+◌, ℕ, true, OnOk};
ghost use Rattle.audit.specs.declared.fault.LineFault.TheVariants as refused;

use arena::NoMemory;
use std::alloc::AllocError;
use thiserror::Error;

/// Why a record is not found lawful.
#[derive(Clone, Copy, Debug, PartialEq, Eq, Error)]
pub enum AuditFault {
    /// An allocation was refused. Nothing is known of the record.
    #[error("no memory")]
    NoMemory,
    /// The first row of the record's report that is not as the rows before it ask, counted from 1
    /// (that just this row is at fault is tested).
    #[error("not lawful: row {row}")]
    NotLawful { row: u64 },
}

/// Why a line is refused.
#[derive(Clone, Copy)]
pub(crate) enum LineFault {
    /// An allocation was refused.
    NoMemory,
    /// The line does not fit those before it.
    NotLawful,
    /// The line before it, an idle turn, does not: it is the whole of a call, and this is not its
    /// reply.
    Unexplained,
}

impl LineFault {
    /// The fault of a record that is refused at the line of this index, where the line of index 0
    /// is in row `first` of its report.
    pub(crate) fn at(self, first: u64, line: usize) -> AuditFault
        ensures { (row : ℕ) → result ≡ AuditFault.NotLawful row → (first ≤ row)
            × (row ≤ first + line) }
    {
        let back = match self {
            LineFault::NoMemory => return AuditFault::NoMemory,
            LineFault::NotLawful => 0,
            LineFault::Unexplained => 1,
        };
        AuditFault::NotLawful {
            row: first.saturating_add(line.saturating_sub(back) as u64),
        }
    }
}

/// Refuses a line if this does not hold of it.
pub(crate) fn require(fits: bool) -> Result<(), LineFault>
    ensures { OnOk result (fits ≡ true) }
{
    if fits {
        Ok(())
    } else {
        Err(LineFault::NotLawful)
    }
}

impl From<NoMemory> for LineFault {
    ghost from_gives = { λ _ made. made ≡ refused.NoMemory };

    fn from(_error: NoMemory) -> LineFault {
        LineFault::NoMemory
    }
}

impl From<AllocError> for LineFault {
    ghost from_gives = { λ _ made. made ≡ refused.NoMemory };

    fn from(_error: AllocError) -> LineFault {
        LineFault::NoMemory
    }
}
