//! Where a client's calls are in a script.
ghost use Rattle.std.specs.Prelude.{List, drop};
ghost use Rattle.record.specs.Common.{Command};
ghost use Rattle.record.specs.Commands.{IsNextCallAt};

use arena::PassNo;
use record::next_call;
use script::Call;

/// Where the call of a client is that comes after this one, which is its next.
pub(crate) fn next_behind(calls: &[Call], at: Option<usize>, pass: PassNo) -> Option<usize>
    ensures { (left : List Command) → IsNextCallAt calls.now pass.0 left at →
        IsNextCallAt calls.now pass.0 (drop 1 left) result }
{
    let Some(at) = at else {
        return None;
    };
    if at < calls.len() {
        next_call(calls, at + 1, pass)
    } else {
        None
    }
}
