//! What is wrong with a line.
use arena::NoMemory;
use std::alloc::AllocError;

/// The condition that a line breaks: which field of its row shows it, counted from 0, and in words
/// what was found and what is wanted.
#[derive(Debug, Drop)]
pub struct Breach {
    pub field: usize,
    pub text: String,
}

/// Why no further condition is asked.
#[derive(Drop)]
pub(crate) enum Objection {
    /// An allocation was refused.
    NoMemory,
    /// The line breaks this one.
    Breaks(Breach),
}

impl From<AllocError> for Objection {
    fn from(_error: AllocError) -> Objection {
        Objection::NoMemory
    }
}

impl From<NoMemory> for Objection {
    fn from(_error: NoMemory) -> Objection {
        Objection::NoMemory
    }
}
