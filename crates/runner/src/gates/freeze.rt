//! A gate at which the first client waits for the second in the midst of its first call.
ghost use Rattle.std.specs.Prelude.{◌≡◌, nat_lt};
ghost use Rattle.runner.specs.Turns.{call_count, held_frozen};

use crate::answers::{Answers, MOST_LOOKS};
use crate::counts::counts;
use crate::gate::Gate;
use arena::{Kind, PassNo};
use script::Script;

/// Client 0's first call waits, after its first step of kind `freeze`, until client 1's first call
/// is answered; if that client has no call, it doesn't wait. After later steps of that kind it has
/// nothing to wait for any more.
#[derive(Drop)]
pub struct Freeze {
    holds: bool,
    answers: Answers,
}

impl Freeze {
    /// The gate of a script. A call has waited in vain after 1,000,000,000 looks.
    pub fn new(script: &Script) -> Freeze
        ensures holds { result.holds ≡ nat_lt 0 (call_count script.now.calls.items 1) }
        ensures looks { result.answers.most_looks ≡ 1000000000 }
    {
        Freeze::with_looks(script, MOST_LOOKS)
    }

    /// The gate of a script, at which a call has waited too long after this many looks.
    pub fn with_looks(script: &Script, most_looks: u64) -> Freeze
        ensures holds { result.holds ≡ nat_lt 0 (call_count script.now.calls.items 1) }
        ensures looks { result.answers.most_looks ≡ most_looks }
    {
        let counts = counts(&script.calls);
        Freeze {
            holds: 0 < counts[1],
            answers: Answers::new(most_looks),
        }
    }

    /// The call for which this one waits after a step of this kind.
    fn awaited(&self, client: PassNo, call: u64, kind: Kind) -> Option<(PassNo, u64)>
        ensures { result ≡ held_frozen self.now.holds client.0 call kind }
    {
        if self.holds && client.0 == 0 && call == 0 && kind == Kind::Freeze {
            Some((PassNo(1), 0))
        } else {
            None
        }
    }
}

impl Gate for Freeze {
    fn began(&self, _client: PassNo, _call: u64) {}

    fn made(&self, client: PassNo, call: u64, kind: Kind) {
        self.answers.wait(self.awaited(client, call, kind));
    }

    fn answered(&self, client: PassNo, call: u64) {
        self.answers.note(client, call);
    }

    fn missed(&self) -> bool {
        self.answers.missed()
    }
}
