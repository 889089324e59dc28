//! The commands of a script, by clients.
ghost use Rattle.std.specs.Prelude.{◌≡◌, ℕ, ◌<◌, List, IfOk, slice_get};
ghost use Rattle.script.specs.declared.call.Call.{Call as CallOf};
ghost use Rattle.record.specs.Commands.{commands};
ghost use Rattle.report.specs.Counts.{HasCommands};

use arena::PassNo;
use script::{Call, Command};
use std::alloc::{AllocError, Global};

/// The commands of each client, in the script's order.
#[derive(Drop)]
pub struct Commands {
    clients: Vec<Vec<Command>>,
}

impl Commands {
    /// Those of the clients below `passes` among these calls.
    pub fn of(alloc: Global, calls: &[Call], passes: u32) -> Result<Commands, AllocError>
        ensures { IfOk result (λ all. HasCommands all passes calls.now) }
    {
        let mut clients = Vec::new(alloc);
        for client in 0..passes {
            clients.push(commands_of(alloc, calls, PassNo(client))?)?;
        }
        Ok(Commands { clients })
    }

    /// The command of a client's call of this number, if there is one.
    pub fn get(&self, client: PassNo, number: u64) -> Option<Command>
        ensures { (passes : ℕ) (calls : List CallOf) → HasCommands self.now passes calls → client.0 < passes →
            result ≡ slice_get (commands calls client.0) number }
    {
        let own = self.clients.get(client.0 as usize)?;
        own.get(number as usize).copied()
    }
}

/// The commands of a client.
fn commands_of(alloc: Global, calls: &[Call], client: PassNo) -> Result<Vec<Command>, AllocError>
    ensures { IfOk result (λ own. own.items ≡ commands calls.now client.0) }
{
    let mut own = Vec::new(alloc);
    for call in calls {
        if call.client == client {
            own.push(call.command)?;
        }
    }
    Ok(own)
}
