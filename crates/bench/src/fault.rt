//! Why the program stops early.
ghost use Rattle.std.specs.Prelude.{◌≡◌, ◌↔◌};

use std::alloc::{AllocError, AllocFailed};
use std::io;
use std::io::{ErrorKind, Write};
use thiserror::Error;

/// Why the program does not measure what was asked. Its text is the line that is printed.
#[derive(Clone, Copy, Debug, Error)]
pub enum Fault {
    /// Words that do not fit the command line.
    #[error("usage: bench WORK|cells|tree|trie|lasting|peers|mutex|all [THREADS [CALLS [TIMES [KEYS]]]]")]
    Usage,
    /// An allocation was refused.
    #[error("no memory")]
    NoMemory,
    /// The clock could not be read.
    #[error("no clock")]
    Clock,
    /// A write to the output failed.
    #[error("write failed")]
    Write,
}

impl Fault {
    /// The status with which the program ends.
    pub fn status(self) -> u8
        ensures { (result ≡ 2) ↔ (self ≡ Fault.Usage) }
    {
        match self {
            Fault::Usage => 2,
            Fault::NoMemory => 3,
            Fault::Clock | Fault::Write => 4,
        }
    }

    /// Reports it in a line, and answers its status. If the line cannot be written, the status
    /// alone reports it.
    pub fn print<E: Write>(self, err: &mut E) -> u8
        ensures { (result ≡ 2) ↔ (self ≡ Fault.Usage) }
    {
        let _ = writeln!(err, "{self}");
        self.status()
    }
}

impl From<AllocError> for Fault {
    fn from(_error: AllocError) -> Fault {
        Fault::NoMemory
    }
}

impl<T: Drop> From<AllocFailed<T>> for Fault {
    fn from(_error: AllocFailed<T>) -> Fault {
        Fault::NoMemory
    }
}

/// What it means that a row could not be printed.
impl From<io::Error> for Fault {
    fn from(error: io::Error) -> Fault {
        match error.kind() {
            ErrorKind::OutOfMemory => Fault::NoMemory,
            _ => Fault::Write,
        }
    }
}
