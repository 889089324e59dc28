//! Calls of a script as calls of a dictionary.
ghost use Rattle.std.specs.Prelude.{◌≡◌, true, Some};
ghost use Rattle.ordered_map.specs.Requests.{AsksForFew, map_request};
ghost use Rattle.record.specs.MapRecord.{map_call};
ghost use Rattle.script.specs.Commands.{asks_map};

use dict::Request;
use script::{Call, Command};

/// The call of a dictionary that a call on a map is.
pub(crate) fn request_of(call: &Call) -> Request<u64, u128>
    requires { asks_map call.now.command ≡ true }
    ensures call { map_call (Some call.now.command) ≡ Some (map_request result) }
    ensures few { AsksForFew result }
{
    match call.command {
        Command::Map(request) => request,
        _ => unreachable!(),
    }
}
