//! Whether a pass is there, so that calls can be made with it, or away.
ghost use Rattle.std.specs.Prelude.{◌≡◌, Some, IfNone};
ghost use Rattle.std.specs.Option.{option_map};

use crate::answer::{Left, NO_PASS, NONE, SHARED};
use crate::away::AwayPass;
use crate::client::{Closing, OwnedPass};
use std::alloc::Global;
use std::mem::replace;

/// What a handle leads to.
#[derive(Drop)]
pub enum Presence {
    Here(OwnedPass),
    Away(AwayPass),
    /// Only while a pass goes away, or comes back.
    Nobody,
}

impl Presence {
    ghost use Rattle.capi.specs.Answers.{LeftSays};
    ghost use Rattle.capi.specs.Handles.{holds_lasting, holds_trie, pass_count};
    ghost use Rattle.capi.specs.Left.{IsClosingHere, IsRefusal};
    ghost use Rattle.capi.specs.Presence.{IsHere, here};
    ghost use Rattle.capi.specs.Rests.{AwaySays, BackSays};

    /// How many passes the dictionary has, if this one is there.
    pub(crate) fn all(&self) -> Option<u32>
        ensures { result ≡ option_map pass_count (here (Some self.now)) }
    {
        match self {
            Presence::Here(pass) => Some(pass.all()),
            Presence::Away(_) | Presence::Nobody => None,
        }
    }

    /// Whether there is a pass of a trie.
    pub(crate) fn is_trie(&self) -> bool
        ensures { result ≡ holds_trie (Some self.now) }
    {
        match self {
            Presence::Here(pass) => pass.is_trie(),
            Presence::Away(_) | Presence::Nobody => false,
        }
    }

    /// Whether there is a pass of a dictionary that lasts.
    pub(crate) fn lasts(&self) -> bool
        ensures { result ≡ holds_lasting (Some self.now) }
    {
        match self {
            Presence::Here(pass) => pass.lasts(),
            Presence::Away(_) | Presence::Nobody => false,
        }
    }

    /// What is left of the pass's share, if it is there.
    pub(crate) fn left(&self) -> Left
        ensures { LeftSays (Some self.now) result }
    {
        match self {
            Presence::Here(pass) => {
                let (nodes, scx) = pass.left();
                Left { nodes, scx }
            }
            Presence::Away(_) | Presence::Nobody => Left { nodes: 0, scx: 0 },
        }
    }

    /// Why it cannot end its dictionary, if it cannot.
    pub(crate) fn refusal(&self) -> Option<u32>
        ensures told { IsRefusal self.now result }
        ensures none { IfNone result (IsHere self.now) }
    {
        match self {
            Presence::Here(pass) if pass.is_last() => None,
            Presence::Here(_) => Some(SHARED),
            Presence::Away(_) | Presence::Nobody => Some(NO_PASS),
        }
    }

    /// Ends the forest, if this is its last client.
    pub(crate) fn close(self, alloc: Global) -> Closing
        requires { IsHere self }
        ensures { IsClosingHere self result }
    {
        match self {
            Presence::Here(pass) => pass.close(alloc),
            Presence::Away(_) | Presence::Nobody => unreachable!(),
        }
    }

    /// Leaves for ever: a pass goes away first, if its dictionary lasts, so that no other waits for
    /// it.
    pub(crate) fn leave(self) {
        match self {
            Presence::Here(pass) => drop(pass.away()),
            Presence::Away(away) => drop(away),
            Presence::Nobody => {}
        }
    }

    /// The pass goes away, if it is there and its dictionary lasts.
    pub(crate) fn go_away(&mut self) -> u32
        ensures { AwaySays (Some self.old) (Some self.new) result }
    {
        match replace(self, Presence::Nobody) {
            Presence::Here(pass) => match pass.away() {
                Ok(away) => {
                    *self = Presence::Away(away);
                    NONE
                }
                Err(pass) => {
                    *self = Presence::Here(pass);
                    NO_PASS
                }
            },
            Presence::Away(away) => {
                *self = Presence::Away(away);
                NO_PASS
            }
            Presence::Nobody => NO_PASS,
        }
    }

    /// The pass comes back, if it is away.
    pub(crate) fn come_back(&mut self) -> u32
        ensures { BackSays (Some self.old) (Some self.new) result }
    {
        match replace(self, Presence::Nobody) {
            Presence::Away(away) => {
                *self = Presence::Here(away.back());
                NONE
            }
            Presence::Here(pass) => {
                *self = Presence::Here(pass);
                NO_PASS
            }
            Presence::Nobody => NO_PASS,
        }
    }
}
