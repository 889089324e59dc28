//! What plays a script.
ghost use Rattle.std.specs.Prelude.{◌≡◌, ℕ, ◌<◌, is_some, IfErr, IfOk, OnOk};
ghost use Rattle.record.specs.Commands.{next_command};
ghost use Rattle.record.specs.declared.record.TurnRow.{TurnRow};
ghost use Rattle.player.specs.Plays.{TellsTurn};
ghost use Rattle.player.specs.Player.{PlayerView};

use crate::turned::Turned;
use arena::PassNo;

/// Plays a script, one turn of a client at a time, and may write to `to` what each turn shows.
pub trait Plays<To> {
    /// Why a turn is not made, or not written.
    type Fault;

    /// How many clients there are.
    ghost passes: { Self → ℕ };

    /// How many turns can still be counted.
    ghost left: { Self → ℕ };

    /// These turns of a script have led to it; nothing of them was written at the start, and
    /// all is written now.
    ghost behind: { To → Self → To → PlayerView → Type 0 };

    /// A fault came after these turns, or in one more; this is what is written.
    ghost broken: { To → Self → To → Self.Fault → PlayerView → Type 0 };

    /// Whether a client has a call left.
    fn has_call(&self, client: PassNo) -> bool
        requires { client.0 < passes self.now }
        ensures { (start to : To) (p : PlayerView) → behind start self.now to p →
            result ≡ is_some (next_command p.script.calls p.lines client.0) };

    /// One turn of a client.
    fn turn(&mut self, client: PassNo, to: &mut To) -> Result<Turned, Self::Fault>
        requires { client.0 < passes self.old }
        ensures turned { (start : To) (p : PlayerView) → behind start self.old to.old p →
            IfOk result (λ turned. (later : PlayerView) × (row : TurnRow) ×
            TellsTurn p later client.0 row turned × behind start self.new to.new later) }
        ensures broken { (start : To) (p : PlayerView) → behind start self.old to.old p →
            IfErr result (λ fault. broken start self.new to.new fault p) }
        ensures passes { passes self.new ≡ passes self.old }
        ensures nearer { OnOk result (left self.new < left self.old) };
}
