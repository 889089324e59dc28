//! What a run reports of its calls while it makes them.
use arena::{Kind, PassNo};

/// Is notified of each call of a run by the thread that makes it, and may let that thread wait. A
/// client's calls are numbered from 0.
pub trait Gate: Sync {
    /// The call is about to make its first step.
    fn began(&self, client: PassNo, call: u64);

    /// The call has made a step of this kind.
    fn made(&self, client: PassNo, call: u64, kind: Kind);

    /// The call has its reply.
    fn answered(&self, client: PassNo, call: u64);

    /// Whether a call has waited in vain.
    fn missed(&self) -> bool;
}
