//! Why a text is refused, and why one is not written to its end.
ghost use Rattle.std.specs.Prelude.{◌≡◌};
ghost use Rattle.texts.specs.declared.fault.WriteFault.TheVariants.{NoMemory};

use std::alloc::AllocError;
use thiserror::Error;

/// Why a text was refused.
#[derive(Clone, Copy, Debug, PartialEq, Eq, Error)]
#[error_bound(C: std::fmt::Display)]
pub enum TextFault<C> {
    /// An allocation was refused.
    #[error("no memory")]
    NoMemory,
    /// The reader failed.
    #[error("read failed")]
    Read,
    /// The first faulty row, counted from 1, and what is wrong with it.
    #[error("row {row}: {cause}")]
    Bad { row: u64, cause: C },
}

/// The causes that rows of every text have.
pub trait Cause {
    /// The row has another number of fields, or is no text.
    const FIELDS: Self;

    ghost FIELDS: { Self };

    /// The end row is missing, does not count what is before it, or a row comes after it.
    const END: Self;

    ghost END: { Self };

    /// There are too many rows.
    const LONG: Self;

    ghost LONG: { Self };
}

/// Why a text could not be written to its end.
#[derive(Clone, Copy, Debug, PartialEq, Eq, Error)]
pub enum WriteFault {
    /// An allocation was refused.
    #[error("no memory")]
    NoMemory,
    /// The writer failed in this call.
    #[error("write failed")]
    Write,
}

impl From<AllocError> for WriteFault {
    ghost from_gives = { λ _ fault. fault ≡ NoMemory };

    fn from(_error: AllocError) -> WriteFault {
        WriteFault::NoMemory
    }
}
