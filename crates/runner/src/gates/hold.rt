//! A gate at which the first client waits for the second.
ghost use Rattle.std.specs.Prelude.{◌≡◌, nat_lt};
ghost use Rattle.runner.specs.Turns.{call_count, held_back};

use crate::answers::{Answers, MOST_LOOKS};
use crate::counts::counts;
use crate::gate::Gate;
use arena::{Kind, PassNo};
use script::Script;

/// Client 0's first call waits, before its first step, until client 1's first call is answered; if
/// that client has no call, it doesn't wait.
#[derive(Drop)]
pub struct Hold {
    holds: bool,
    answers: Answers,
}

impl Hold {
    /// The gate of a script. A call has waited in vain after 1,000,000,000 looks.
    pub fn new(script: &Script) -> Hold
        ensures holds { result.holds ≡ nat_lt 0 (call_count script.now.calls.items 1) }
        ensures looks { result.answers.most_looks ≡ 1000000000 }
    {
        Hold::with_looks(script, MOST_LOOKS)
    }

    /// The gate of a script, at which a call has waited too long after this many looks.
    pub fn with_looks(script: &Script, most_looks: u64) -> Hold
        ensures holds { result.holds ≡ nat_lt 0 (call_count script.now.calls.items 1) }
        ensures looks { result.answers.most_looks ≡ most_looks }
    {
        let counts = counts(&script.calls);
        Hold {
            holds: 0 < counts[1],
            answers: Answers::new(most_looks),
        }
    }

    /// The call for which this one waits.
    fn awaited(&self, client: PassNo, call: u64) -> Option<(PassNo, u64)>
        ensures { result ≡ held_back self.now.holds client.0 call }
    {
        if self.holds && client.0 == 0 && call == 0 {
            Some((PassNo(1), 0))
        } else {
            None
        }
    }
}

impl Gate for Hold {
    fn began(&self, client: PassNo, call: u64) {
        self.answers.wait(self.awaited(client, call));
    }

    fn made(&self, _client: PassNo, _call: u64, _kind: Kind) {}

    fn answered(&self, client: PassNo, call: u64) {
        self.answers.note(client, call);
    }

    fn missed(&self) -> bool {
        self.answers.missed()
    }
}
