//! The player without a list of its lines.
ghost use Rattle.std.specs.Prelude.{◌≡◌, ◌≢◌};

use crate::interleaving::Interleaving;
use crate::lines::Lines;
use arena::{NoMemory, PassNo};
use script::Script;
use std::alloc::Global;
use std::marker::Model;

/// Plays a script's calls, one turn of a client at a time, and hands out the lines of each turn. It
/// keeps what the next turns need, the words, the calls that run and the changes of the map, and no
/// line, so its memory grows with the changes of the map alone.
#[derive(Drop)]
pub struct Core {
    interleaving: Interleaving,
}

impl Model for Core {
    ghost use Rattle.std.specs.Prelude.{List};
    ghost use Rattle.record.specs.declared.record.Line.{Line};
    ghost use Rattle.player.specs.declared.interleaving.Interleaving.{Interleaving};
    ghost use Rattle.player.specs.contracts.interleaving.Interleaving.{the_row};

    ghost Value = { Interleaving };

    ghost coded = { the_row.coded };

    ghost use Rattle.player.specs.BetweenTurns.{IsBetweenTurns};

    ghost view = { λ core. core.interleaving };

    ghost invariant = { λ core. (lines : List Line) × IsBetweenTurns core.interleaving lines };
}

impl Core {
    ghost use Rattle.std.specs.Prelude.{◌≡◌, ◌<◌, ◌-◌, ◌^◌, suc, [], is_some, IfOk, OnErr, OnOk};
    ghost use Rattle.record.specs.Commands.{next_command};
    ghost use Rattle.record.specs.Turns.{turns};
    ghost use Rattle.player.specs.Core.{StandsAt, IsNextTurn, passes_of, turns_made, with_lines};
    ghost use Rattle.player.specs.Player.{PlayerView, script_view, IsPlayed};

    /// A core that plays a copy of the script, with no turn made. The only error is want of memory.
    pub fn new(alloc: Global, script: &Script) -> Result<Core, NoMemory>
        ensures { IfOk result (λ core. StandsAt core record { script = script_view script.now; lines = [] }) }
    {
        Ok(Core {
            interleaving: Interleaving::new(alloc, script)?,
        })
    }

    /// One turn of a client: its next atomic step, or a row of kind idle where it has no call left
    /// or its call answers without a step. Its lines replace what is in `more`, so
    /// that who asks for many turns has none of them moved; whatever lines have led to the core,
    /// these come next. A refusal leaves it as it was, and the same turn can be asked again.
    pub fn step_into(&mut self, client: PassNo, more: &mut Lines) -> Result<(), NoMemory>
        requires client { client.0 < passes_of self.old }
        requires steps { turns_made self.old < 2 ^ 64 - 1 }
        ensures turn { OnOk result ((p : PlayerView) → StandsAt self.old p →
            IsNextTurn p client.0 more.new.items) }
        ensures stands { OnOk result ((p : PlayerView) → StandsAt self.old p →
            StandsAt self.new (with_lines p more.new.items)) }
        ensures refused { OnErr result ((p : PlayerView) → StandsAt self.old p →
            StandsAt self.new p) }
        ensures lawful { (p : PlayerView) → StandsAt self.new p → IsPlayed p }
        ensures script { script_view self.new.script ≡ script_view self.old.script }
        ensures counted { OnOk result (turns_made self.new ≡ suc (turns_made self.old)) }
    {
        self.interleaving.step(client, more)
    }

    /// How many turns were made so far.
    pub fn steps(&self) -> u64
        ensures steps { result ≡ turns_made self.now }
        ensures turns { (p : PlayerView) → StandsAt self.now p → result ≡ turns p.lines }
    {
        self.interleaving.turns()
    }

    /// Whether a client has a call left.
    pub fn has_call(&self, client: PassNo) -> bool
        requires { client.0 < passes_of self.now }
        ensures is { (p : PlayerView) → StandsAt self.now p →
            result ≡ is_some (next_command p.script.calls p.lines client.0) }
        ensures lawful { (p : PlayerView) → StandsAt self.now p → IsPlayed p }
    {
        self.interleaving.has_call(client)
    }

    /// The script that it plays.
    pub fn into_script(self) -> Script
        ensures { (p : PlayerView) → StandsAt self p → script_view result ≡ p.script }
    {
        self.interleaving.into_script()
    }
}
