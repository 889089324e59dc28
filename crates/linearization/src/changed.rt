//! What a command may change of the map.
ghost use Rattle.std.specs.Prelude.{◌≡◌};
ghost use Rattle.linearization.specs.Changed.{changed_key};

use script::Command;

/// The key of a command whose value it may change, if it may change one.
pub(crate) fn changed_key(command: Command) -> Option<u64>
    ensures { result ≡ changed_key command }
{
    match command {
        Command::Map(request) => request.edit()?.0.key(None),
        _ => None,
    }
}
