//! How many calls the clients of a script have.
ghost use Rattle.std.specs.Prelude.{◌≡◌, ◌<◌, ℕ, slice_index};
ghost use Rattle.runner.specs.Turns.{call_count};

use script::Call;

/// The most clients of a script.
pub(crate) const CLIENTS: usize = 32;

/// How many of these calls each client has.
pub(crate) fn counts(calls: &[Call]) -> [u64; CLIENTS]
    ensures { (c : ℕ) → c < CLIENTS → slice_index result c ≡ call_count calls.now c }
{
    let mut counts = [0u64; CLIENTS];
    for call in calls {
        let client = call.client.0 as usize;
        if client < CLIENTS {
            counts[client] += 1;
        }
    }
    counts
}
