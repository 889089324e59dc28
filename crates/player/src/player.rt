//! The player.
ghost use Rattle.std.specs.Prelude.{◌≡◌, ◌≢◌, ◌<◌, map, IfOk, All};
ghost use Rattle.record.specs.LawfulRun.{IsLawfulRun};
ghost use Rattle.player.specs.Player.{script_view};

use crate::lines::{Lines, append, row_of};
use crate::player_core::Core;
use crate::plays::Plays;
use crate::turned::Turned;
use arena::{NoMemory, PassNo};
use record::{Line, Record, TurnRow};
use script::Script;
use std::alloc::Global;
use std::fmt;
use std::marker::Model;

/// Plays a script's calls, one turn of a client at a time, and keeps the lines of all turns.
#[derive(Drop)]
pub struct Player {
    core: Core,
    lines: Vec<Line>,
}

impl Model for Player {
    ghost use Rattle.player.specs.Player.{PlayerView, view_code};

    ghost Value = { PlayerView };

    ghost coded = { view_code };

    ghost use Rattle.player.specs.Core.{StandsAt};
    ghost use Rattle.player.specs.Playing.{player_view};

    ghost view = { player_view };

    ghost invariant = { λ p. StandsAt p.core (player_view p) };
}

impl Player {
    ghost use Rattle.std.specs.Prelude.{◌≡◌, ◌≢◌, ℕ, ◌-◌, ◌<◌, ◌^◌, List, [], IfOk, IfErr, reverse};
    ghost use Rattle.record.specs.Turns.{clients, turns};
    ghost use Rattle.record.specs.LawfulRun.{IsLawfulRun};
    ghost use Rattle.player.specs.Player.{script_view, IsPlayed, IsTurnMore};
    ghost use Rattle.player.specs.Plays.{TellsTurn};

    /// A player of a copy of the script, with no turn made. The only error is want of memory.
    pub fn new(alloc: Global, script: &Script) -> Result<Player, NoMemory>
        ensures script { IfOk result (λ p. p.script ≡ script_view script.now) }
        ensures no_turns { IfOk result (λ p. p.lines ≡ []) }
    {
        Ok(Player {
            core: Core::new(alloc, script)?,
            lines: Vec::new(alloc),
        })
    }

    /// One turn of a client: its next atomic step, or a row of kind idle where it has no call left
    /// or its call answers without a step. A refusal leaves all as it was, and the same turn can be
    /// asked again.
    pub fn step(&mut self, client: PassNo) -> Result<TurnRow, NoMemory>
        requires { client.0 < self.old.script.layout.passes }
        ensures turn { IfOk result (λ row. IsTurnMore self.old self.new client.0 row) }
        ensures refused { IfErr result (λ _. self.new ≡ self.old) }
        ensures lawful { IsPlayed self.new }
    {
        Ok(self.make(client)?.0)
    }

    /// The same; answers also what the turn shows.
    fn make(&mut self, client: PassNo) -> Result<(TurnRow, Turned), NoMemory>
        requires { client.0 < self.old.script.layout.passes }
        ensures turn { IfOk result (λ made. TellsTurn self.old self.new client.0 made.0 made.1) }
        ensures refused { IfErr result (λ _. self.new ≡ self.old) }
        ensures lawful { IsPlayed self.new }
        ensures few { turns self.old.lines < 2 ^ 64 - 1 }
    {
        self.lines.reserve(3)?;
        let mut more = Lines::new();
        self.core.step_into(client, &mut more)?;
        let row = row_of(more.as_slice());
        let turned = Turned::of(more.as_slice());
        append(&mut self.lines, more);
        Ok((row, turned))
    }

    /// The script and the lines of all turns: a lawful run, in which turn i was made by the client
    /// of whom the i-th was asked.
    pub fn record(self) -> Record
        ensures script { script_view result.script ≡ self.script }
        ensures lines { result.lines.items ≡ reverse self.lines }
        ensures lawful { (asked : List ℕ) → clients self.lines ≡ reverse asked →
            IsLawfulRun self.script.layout self.script.limits.tries self.script.calls asked result.lines.items }
    {
        Record {
            script: self.core.into_script(),
            lines: self.lines,
        }
    }
}

impl Plays<()> for Player {
    ghost use Rattle.std.specs.Prelude.{◌≡◌, ◌-◌, ◌^◌};
    ghost use Rattle.record.specs.Turns.{turns};

    type Fault = NoMemory;

    ghost passes = { λ player. player.script.layout.passes };

    ghost left = { λ player. 2 ^ 64 - 1 - turns player.lines };

    ghost behind = { λ start player to p. player ≡ p };

    ghost broken = { λ start player to fault p. player ≡ p };

    fn has_call(&self, client: PassNo) -> bool {
        self.core.has_call(client)
    }

    fn turn(&mut self, client: PassNo, to: &mut ()) -> Result<Turned, NoMemory> {
        let _ = to;
        Ok(self.make(client)?.1)
    }
}

impl fmt::Debug for Player {
    fn fmt<W: fmt::Write>(&self, f: &mut fmt::Formatter<W>) -> fmt::Result {
        f.debug_struct("Player")
            .field("lines", &self.lines.len())
            .finish_non_exhaustive()
    }
}

/// The record of a script whose clients make these turns, one after another. The only error is want
/// of memory.
pub fn play(alloc: Global, script: &Script, turns: &[PassNo]) -> Result<Record, NoMemory>
    requires turns { All (λ pass. pass.0 < script.now.layout.passes) turns.now }
    ensures script { IfOk result (λ r. script_view r.script ≡ script_view script.now) }
    ensures lawful { IfOk result (λ r. IsLawfulRun script.now.layout script.now.limits.tries script.now.calls.items (map (λ p. p.0) turns.now) r.lines.items) }
{
    let mut player = Player::new(alloc, script)?;
    for turn in turns {
        player.step(*turn)?;
    }
    Ok(player.record())
}
