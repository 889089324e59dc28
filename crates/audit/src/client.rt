//! Where a client is in its calls.
ghost use Rattle.std.specs.Prelude.{◌≡◌, ℕ, List, length, set, slice_get, ◌+◌, ◌<◌, ◌^◌, Some, None, IfSome, IsSome, IsTrue, drop, unwrap_or};
ghost use Rattle.record.specs.Common.{Command as CommandOf, commands};
ghost use Rattle.record.specs.declared.record.Entry.{Entry as EntryOf};
ghost use Rattle.audit.specs.declared.client.ClientState.{ClientState as ClientOf};
ghost use Rattle.record.specs.Commands.{IsNextCallAt};
ghost use Rattle.audit.specs.Calls.{command_at};

use crate::place::next_behind;
use arena::PassNo;
use record::{Entry, next_call};
use script::{Call, Command};

/// What the lines so far say of a client.
#[derive(Clone, Copy)]
pub(crate) struct ClientState {
    pub(crate) pass: PassNo,
    /// Where its next call is in the script, if it has one left.
    pub(crate) at: Option<usize>,
    /// How many of its calls are answered.
    pub(crate) answered: u64,
    /// The first turn since its last reply.
    pub(crate) begun: Option<u64>,
    /// How many steps it has made since.
    pub(crate) steps: u64,
    /// The turn since then in which an update of its own has won.
    pub(crate) won: Option<u64>,
}

impl ClientState {
    /// A client that has made no turn.
    pub(crate) fn new(pass: PassNo, calls: &[Call]) -> ClientState
        ensures at { IsNextCallAt calls.now pass.0 (commands (drop 0 calls.now) pass.0) result.at }
        ensures new { result ≡ record { pass = pass; at = result.at; answered = 0; begun = None; steps = 0; won = None } }
    {
        ClientState {
            pass,
            at: next_call(calls, 0, pass),
            answered: 0,
            begun: None,
            steps: 0,
            won: None,
        }
    }

    /// The command of its next call.
    pub(crate) fn command(&self, calls: &[Call]) -> Option<Command>
        ensures { result ≡ command_at calls.now self.now.at }
    {
        let call = calls.get(self.at?)?;
        Some(call.command)
    }

    /// The same, with this turn of its own.
    pub(crate) fn turned(self, number: u64) -> ClientState
        ensures { result ≡ record self { begun = Some (unwrap_or self.begun number) } }
    {
        ClientState {
            begun: Some(self.begun.unwrap_or(number)),
            ..self
        }
    }

    /// The same, with this turn of its own, in which it has made a step.
    pub(crate) fn stepped(self, number: u64) -> ClientState
        requires { self.steps + 1 < 2 ^ 64 }
        ensures { result ≡ record self {
          begun = Some
              (unwrap_or self.begun number);
          steps = self.steps + 1;
        } }
    {
        ClientState {
            steps: self.steps + 1,
            ..self.turned(number)
        }
    }

    /// The same, with its call answered.
    pub(crate) fn ended(self, calls: &[Call]) -> ClientState
        requires { self.answered + 1 < 2 ^ 64 }
        ensures place { (left : List CommandOf) → IsNextCallAt calls.now self.pass.0 left self.at →
            IsNextCallAt calls.now self.pass.0 (drop 1 left) result.at }
        ensures same { result ≡ record self { at = result.at; answered = self.answered + 1; begun = None; steps = 0; won = None } }
    {
        ClientState {
            at: next_behind(calls, self.at, self.pass),
            answered: self.answered + 1,
            begun: None,
            steps: 0,
            won: None,
            ..self
        }
    }
}

/// Whether the call of a client has begun, unless this is its own turn.
pub(crate) fn has_begun(client: &ClientState, pass: PassNo) -> bool
    ensures { IsTrue result → (pass.0 ≡ client.now.pass.0 → ⊥) → IsSome client.now.begun }
{
    pass == client.pass || client.begun.is_some()
}

/// An update of a client has won in this turn, if this entry is owed.
pub(crate) fn note_win(clients: &mut Vec<ClientState>, number: u64, owed: &Option<Entry>)
    requires there { IfSome owed.now (λ e. e.client.0 < length clients.old.items) }
    ensures same { length clients.new.items ≡ length clients.old.items }
    ensures none { owed.now ≡ None → clients.new.items ≡ clients.old.items }
    ensures some { (e : EntryOf) → (c : ClientOf) → owed.now ≡ Some e →
        slice_get clients.old.items e.client.0 ≡ Some c →
        clients.new.items ≡ set clients.old.items e.client.0 (record c { won = Some number }) }
{
    if let Some(entry) = owed {
        let client = clients[entry.client.0 as usize];
        clients[entry.client.0 as usize] = ClientState {
            won: Some(number),
            ..client
        };
    }
}
