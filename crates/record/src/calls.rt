//! Where a client's calls are in a script.
ghost use Rattle.std.specs.Prelude.{drop};
ghost use Rattle.record.specs.Commands.{IsNextCallAt, commands};

use arena::PassNo;
use script::Call;

/// Where the next call of a client is, from this place on.
pub fn next_call(calls: &[Call], from: usize, pass: PassNo) -> Option<usize>
    ensures { IsNextCallAt calls.now pass.0 (commands (drop from calls.now) pass.0) result }
{
    for at in from..calls.len() {
        if calls[at].client == pass {
            return Some(at);
        }
    }
    None
}
