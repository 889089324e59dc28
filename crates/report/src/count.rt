//! Counts of clients' calls.
ghost use Rattle.std.specs.Prelude.{◌≡◌, ◌≢◌, ℕ, ◌+◌, ◌-◌, ◌^◌, ◌<◌, [], IfOk, OnOk, OnErr, min};
ghost use Rattle.report.specs.Counts.{HasCounted, calls_counted};

use arena::PassNo;
use std::alloc::{AllocError, Global};

/// How many calls of each client there were so far.
#[derive(Drop)]
pub struct Counts {
    calls: Vec<u64>,
}

impl Counts {
    /// No call is counted yet.
    pub fn new(alloc: Global) -> Counts
        ensures { HasCounted result [] }
    {
        let calls = Vec::new(alloc);
        Counts { calls }
    }

    /// How many calls of the client there were before the one that is counted now.
    pub fn count(&mut self, client: PassNo) -> Result<u64, AllocError>
        ensures before { IfOk result (λ before. before ≡ calls_counted self.old client.0) }
        ensures counted { OnOk result (calls_counted self.new client.0 ≡ min (calls_counted self.old client.0 + 1) (2 ^ 64 - 1)) }
        ensures unchanged { OnErr result (calls_counted self.new client.0 ≡ calls_counted self.old client.0) }
        ensures others { (other : ℕ) → other ≢ client.0 →
            calls_counted self.new other ≡ calls_counted self.old other }
    {
        let place = client.0 as usize;
        if self.calls.len() <= place {
            self.calls.resize(place + 1, 0)?;
        }
        let before = self.calls[place];
        self.calls[place] = before.saturating_add(1);
        Ok(before)
    }
    /// Counts a call, if it is of a client below `passes`.
    pub fn count_below(&mut self, passes: u32, client: PassNo) -> Result<(), AllocError>
        ensures counted { client.0 < passes →
            OnOk result (calls_counted self.new client.0 ≡ min (calls_counted self.old client.0 + 1) (2 ^ 64 - 1)) }
        ensures others { (other : ℕ) → other < passes → other ≢ client.0 →
            calls_counted self.new other ≡ calls_counted self.old other }
    {
        if client.0 < passes {
            self.count(client)?;
        }
        Ok(())
    }

    /// How many calls of the client there were so far.
    pub fn so_far(&self, client: PassNo) -> u64
        ensures { result ≡ calls_counted self.now client.0 }
    {
        self.calls.get(client.0 as usize).copied().unwrap_or(0)
    }
}
