//! Calls of a script.
ghost use Rattle.script.specs.Commands.{AsksForFewPairs};
ghost use Rattle.script.specs.Laws.FewPairs.{few_prop};

use crate::command::Command;
use arena::PassNo;

/// A call and the client that makes it.
#[derive(Clone, Copy, Debug, PartialEq, Eq)]
pub struct Call {
    /// The client that makes it.
    pub client: PassNo,
    /// What it does.
    pub command: Command,
    ghost few: { AsksForFewPairs command } by { few_prop command },
}
