//! A gate at which no call waits.
ghost use Rattle.std.specs.Prelude.{◌≡◌, false};

use crate::gate::Gate;
use arena::{Kind, PassNo};
use script::Script;

/// Lets each call go at once.
#[derive(Clone, Copy, Debug)]
pub struct Open;

impl Open {
    /// The gate of a script.
    pub fn new(_script: &Script) -> Open {
        Open
    }
}

impl Gate for Open {
    fn began(&self, _client: PassNo, _call: u64) {}

    fn made(&self, _client: PassNo, _call: u64, _kind: Kind) {}

    fn answered(&self, _client: PassNo, _call: u64) {}

    fn missed(&self) -> bool
        ensures { result ≡ false }
    {
        false
    }
}
