//! How far the clients of a run are.
ghost use Rattle.std.specs.Prelude.{◌≡◌, ◌↔◌, ◌<◌, IsTrue};

use crate::counts::CLIENTS;
use arena::PassNo;
use std::array::from_fn;
use std::sync::atomic::{AtomicBool, AtomicU64, Ordering};
use std::thread::yield_now;

/// How many times a call looks at most whether what it waits for has happened.
pub(crate) const MOST_LOOKS: u64 = 1_000_000_000;

/// How often it looks before it leaves its processor to another thread.
const LOOKS_AT_ONCE: u64 = 1024;

/// How many calls of each client are answered, and whether a call has waited in vain.
#[derive(Drop)]
pub(crate) struct Answers {
    /// How often a call looks before it has waited in vain.
    most_looks: u64,
    counts: [AtomicU64; CLIENTS],
    missed: AtomicBool,
}

impl Answers {
    /// No call is answered.
    pub(crate) fn new(most_looks: u64) -> Answers
        ensures { result.most_looks ≡ most_looks }
    {
        Answers {
            most_looks,
            counts: from_fn(|_| AtomicU64::new(0)),
            missed: AtomicBool::new(false),
        }
    }

    /// This call is answered, and so are those of its client before it.
    pub(crate) fn note(&self, client: PassNo, call: u64) {
        if let Some(count) = self.counts.get(client.0 as usize) {
            count.store(call.saturating_add(1), Ordering::SeqCst);
        }
    }

    /// Waits until this call, if there is one, is answered. After too many looks it has waited in
    /// vain, and from then on no call waits.
    pub(crate) fn wait(&self, awaited: Option<(PassNo, u64)>) {
        let Some((client, call)) = awaited else {
            return;
        };
        for look in 0..self.most_looks {
            if self.has(client, call) || self.missed() {
                return;
            }
            if look % LOOKS_AT_ONCE == LOOKS_AT_ONCE - 1 {
                yield_now();
            }
        }
        self.missed.store(true, Ordering::SeqCst);
    }

    /// Whether a call has waited in vain.
    pub(crate) fn missed(&self) -> bool {
        self.missed.load(Ordering::SeqCst)
    }

    /// Whether this call is answered.
    fn has(&self, client: PassNo, call: u64) -> bool {
        match self.counts.get(client.0 as usize) {
            Some(count) => is_answered(call, count.load(Ordering::SeqCst)),
            None => true,
        }
    }
}

/// Whether this call, counted from 0, is answered if this many calls of its client are.
fn is_answered(call: u64, answered: u64) -> bool
    ensures { IsTrue result ↔ call < answered }
{
    answered > call
}
