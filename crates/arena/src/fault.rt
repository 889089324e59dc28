//! What can be refused here.
use std::alloc::{AllocError, AllocFailed};
use std::fmt;
use thiserror::Error;

/// A limit is out of its range: `Limits` says which there are.
#[derive(Clone, Copy, Debug, PartialEq, Eq, Error)]
#[error("bad limits")]
pub struct BadLimits;

/// A growth was refused: the allocator has no memory. What was there before stays as it was.
#[derive(Clone, Copy, Debug, PartialEq, Eq, Error)]
#[error("no memory")]
pub struct NoMemory;

/// What a share can run out of.
#[derive(Clone, Copy, Debug, PartialEq, Eq)]
pub enum Resource {
    /// Nodes; an edit takes up to three in a try.
    Nodes,
    /// SCX-records; an edit takes one in a try.
    Scx,
}

impl fmt::Display for Resource {
    fn fmt<W: fmt::Write>(&self, f: &mut fmt::Formatter<W>) -> fmt::Result {
        match self {
            Resource::Nodes => write!(f, "nodes"),
            Resource::Scx => write!(f, "SCX-records"),
        }
    }
}

/// A share has too little left for a call: `left` of `what`. Nothing is ever given back to a share,
/// so the same call stays refused. Nodes are counted before SCX-records.
#[derive(Clone, Copy, Debug, PartialEq, Eq, Error)]
#[error("full: {left} {what} left")]
pub struct Full {
    /// Of what there is too little.
    pub what: Resource,
    /// How many of these are left, which may be more than none.
    pub left: u32,
}

impl From<AllocError> for NoMemory {
    fn from(_error: AllocError) -> NoMemory {
        NoMemory
    }
}

impl<T: Drop> From<AllocFailed<T>> for NoMemory {
    fn from(_error: AllocFailed<T>) -> NoMemory {
        NoMemory
    }
}
