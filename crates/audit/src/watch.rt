//! Who learns how far a long work is.

/// Learns again and again how much of a work is done.
pub trait Watch {
    /// This much of it is done: lines of a record, or schedules of a script.
    fn reached(&mut self, done: u64);
}

/// Nobody.
#[derive(Clone, Copy)]
pub struct Unwatched;

impl Watch for Unwatched {
    fn reached(&mut self, _done: u64) {}
}
