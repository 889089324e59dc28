//! A gate at which the clients' calls take turns.
ghost use Rattle.std.specs.Prelude.{◌≡◌, ◌<◌, ℕ, slice_index};
ghost use Rattle.runner.specs.Turns.{call_if, call_count, in_turn};

use crate::answers::{Answers, MOST_LOOKS};
use crate::counts::{CLIENTS, counts};
use crate::gate::Gate;
use arena::{Kind, PassNo};
use script::Script;

/// A call waits, before its first step, for the client before its own to have answered its call of
/// the same number; client 0's waits for the last client's call of the number before. A client that
/// has no such call isn't waited for.
#[derive(Drop)]
pub struct Alternate {
    clients: u32,
    counts: [u64; CLIENTS],
    answers: Answers,
}

impl Alternate {
    /// The gate of a script. A call has waited in vain after 1,000,000,000 looks.
    pub fn new(script: &Script) -> Alternate
        ensures clients { result.clients ≡ script.now.layout.passes }
        ensures counts { (c : ℕ) → c < CLIENTS → slice_index result.counts c ≡ call_count script.now.calls.items c }
        ensures looks { result.answers.most_looks ≡ 1000000000 }
    {
        Alternate::with_looks(script, MOST_LOOKS)
    }

    /// The gate of a script, at which a call has waited too long after this many looks.
    pub fn with_looks(script: &Script, most_looks: u64) -> Alternate
        ensures clients { result.clients ≡ script.now.layout.passes }
        ensures counts { (c : ℕ) → c < CLIENTS → slice_index result.counts c ≡ call_count script.now.calls.items c }
        ensures looks { result.answers.most_looks ≡ most_looks }
    {
        Alternate {
            clients: script.layout.passes,
            counts: counts(&script.calls),
            answers: Answers::new(most_looks),
        }
    }

    /// The call for which this one waits, if the other client has such a call.
    fn awaited(&self, client: PassNo, call: u64) -> Option<(PassNo, u64)>
        ensures { result ≡ in_turn (slice_index self.now.counts) self.now.clients client.0 call }
    {
        if client.0 > 0 {
            return self.call_if(client.0 - 1, call);
        }
        if self.clients > 0 && call > 0 {
            return self.call_if(self.clients - 1, call - 1);
        }
        None
    }

    /// This call, if the client has it.
    fn call_if(&self, client: u32, call: u64) -> Option<(PassNo, u64)>
        ensures { result ≡ call_if (slice_index self.now.counts) client call }
    {
        let count = *self.counts.get(client as usize)?;
        if call < count {
            Some((PassNo(client), call))
        } else {
            None
        }
    }
}

impl Gate for Alternate {
    fn began(&self, client: PassNo, call: u64) {
        self.answers.wait(self.awaited(client, call));
    }

    fn made(&self, _client: PassNo, _call: u64, _kind: Kind) {}

    fn answered(&self, client: PassNo, call: u64) {
        self.answers.note(client, call);
    }

    fn missed(&self) -> bool {
        self.answers.missed()
    }
}
