//! Why the program stops early.
ghost use Rattle.std.specs.Prelude.{◌≡◌};
ghost use Rattle.program.specs.Status.{fault_of_audit, fault_of_report, fault_of_schedule, fault_of_script, fault_of_stream, fault_of_write, status_of};
ghost use Rattle.program.specs.declared.fault.Fault.TheVariants as fault;

use arena::NoMemory;
use audit::AuditFault;
use report::{ReportFault, StreamFault, WriteFault};
use script::{ScheduleCause, ScheduleFault, ScriptCause, ScriptFault};
use std::io;
use std::io::{ErrorKind, Write};
use thiserror::Error;

/// Why the program does not do what was asked. Its text is the line that is printed.
#[derive(Clone, Copy, Debug, PartialEq, Eq, Error)]
pub enum Fault {
    /// No command, or words that do not fit it.
    #[error("usage")]
    Usage,
    /// No gate of this name.
    #[error("bad gate")]
    BadGate,
    /// The script is refused: its first faulty row, counted from 1, and what is wrong with it.
    #[error("bad script: row {row}: {cause}")]
    BadScript { row: u64, cause: ScriptCause },
    /// The schedule is refused: its first faulty row, counted from 1, and what is wrong with it.
    #[error("bad schedule: row {row}: {cause}")]
    BadSchedule { row: u64, cause: ScheduleCause },
    /// The report is refused: its first row, counted from 1, that is not as the rows before it ask.
    #[error("not lawful: row {row}")]
    NotLawful { row: u64 },
    /// An allocation was refused.
    #[error("no memory")]
    NoMemory,
    /// A file could not be opened, or a read failed.
    #[error("read failed")]
    Read,
    /// A write to the output failed.
    #[error("write failed")]
    Write,
}

impl Fault {
    /// The status with which the program ends.
    pub fn status(self) -> u8
        ensures { result ≡ status_of self }
    {
        match self {
            Fault::BadScript { row: _, cause: _ }
            | Fault::BadSchedule { row: _, cause: _ }
            | Fault::NotLawful { row: _ } => 1,
            Fault::Usage | Fault::BadGate => 2,
            Fault::NoMemory => 3,
            Fault::Read | Fault::Write => 4,
        }
    }

    /// Reports it in a line, and answers its status. If the line cannot be written, the status
    /// alone reports it.
    pub fn print<E: Write>(self, err: &mut E) -> u8
        ensures { result ≡ status_of self }
    {
        let _ = writeln!(err, "{self}");
        self.status()
    }
}

impl From<ScriptFault> for Fault {
    ghost from_gives = { λ given made. made ≡ fault_of_script given };

    fn from(fault: ScriptFault) -> Fault {
        match fault {
            ScriptFault::NoMemory => Fault::NoMemory,
            ScriptFault::Read => Fault::Read,
            ScriptFault::Bad { row, cause } => Fault::BadScript { row, cause },
        }
    }
}

impl From<ScheduleFault> for Fault {
    ghost from_gives = { λ given made. made ≡ fault_of_schedule given };

    fn from(fault: ScheduleFault) -> Fault {
        match fault {
            ScheduleFault::NoMemory => Fault::NoMemory,
            ScheduleFault::Read => Fault::Read,
            ScheduleFault::Bad { row, cause } => Fault::BadSchedule { row, cause },
        }
    }
}

impl From<ReportFault> for Fault {
    ghost from_gives = { λ given made. made ≡ fault_of_report given };

    fn from(fault: ReportFault) -> Fault {
        match fault {
            ReportFault::NoMemory => Fault::NoMemory,
            ReportFault::Read => Fault::Read,
            ReportFault::NotLawful { row } => Fault::NotLawful { row },
        }
    }
}

impl From<AuditFault> for Fault {
    ghost from_gives = { λ given made. made ≡ fault_of_audit given };

    fn from(fault: AuditFault) -> Fault {
        match fault {
            AuditFault::NoMemory => Fault::NoMemory,
            AuditFault::NotLawful { row } => Fault::NotLawful { row },
        }
    }
}

impl From<NoMemory> for Fault {
    ghost from_gives = { λ _ made. made ≡ fault.NoMemory };

    fn from(_fault: NoMemory) -> Fault {
        Fault::NoMemory
    }
}

impl From<WriteFault> for Fault {
    ghost from_gives = { λ given made. made ≡ fault_of_write given };

    fn from(fault: WriteFault) -> Fault {
        match fault {
            WriteFault::NoMemory => Fault::NoMemory,
            WriteFault::Write => Fault::Write,
        }
    }
}

impl From<StreamFault> for Fault {
    ghost from_gives = { λ given made. made ≡ fault_of_stream given };

    fn from(fault: StreamFault) -> Fault {
        match fault {
            StreamFault::NoMemory => Fault::NoMemory,
            // No stream of the program is asked again after a fault.
            StreamFault::Write | StreamFault::Ended => Fault::Write,
        }
    }
}

/// What it means that a file could not be opened.
impl From<io::Error> for Fault {
    fn from(error: io::Error) -> Fault {
        match error.kind() {
            ErrorKind::OutOfMemory => Fault::NoMemory,
            _ => Fault::Read,
        }
    }
}
