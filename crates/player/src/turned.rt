//! What a turn shows of itself.
ghost use Rattle.std.specs.Prelude.{◌≡◌, ◌∷◌, List, Option, is_some};
ghost use Rattle.record.specs.Turns.{kind_of as kind_at};
ghost use Rattle.record.specs.declared.record.Entry.{Entry};
ghost use Rattle.record.specs.declared.record.Finished.{Finished};
ghost use Rattle.record.specs.declared.record.Line.{Line};
ghost use Rattle.record.specs.declared.record.TurnRow.{TurnRow};
ghost use Rattle.player.specs.Lines.{turn_lines};

use arena::Kind;
use record::Line;

/// What a turn has done, as far as an order asks for it.
#[derive(Clone, Copy)]
pub struct Turned {
    /// The kind of its step; `None` if it made none.
    pub kind: Option<Kind>,
    /// Whether it has ended a call.
    pub ended: bool,
}

impl Turned {
    ghost use Rattle.std.specs.Prelude.{◌≡◌, ℕ};
    ghost use Rattle.player.specs.Core.{IsNextTurn, with_lines};
    ghost use Rattle.player.specs.Plays.{TellsTurn};
    ghost use Rattle.player.specs.Player.{IsPlayed, PlayerView};

    /// What these lines of a turn show.
    pub fn of(lines: &[Line]) -> Turned
        ensures { (p : PlayerView) (i : ℕ) (turn : IsNextTurn p i lines.now) → IsPlayed (with_lines p lines.now) →
            TellsTurn p (with_lines p lines.now) i turn.row result }
    {
        Turned {
            kind: kind_of(lines),
            ended: ends_a_call(lines),
        }
    }
}

/// The kind of the step that a turn has made.
fn kind_of(lines: &[Line]) -> Option<Kind>
    ensures { (row : TurnRow) (behind : List Line) → lines.now ≡ Line.Step row ∷ behind →
        result ≡ kind_at row }
{
    match lines.first() {
        Some(Line::Step(row)) => row.kind(),
        _ => None,
    }
}

/// Whether a turn has ended a call.
fn ends_a_call(lines: &[Line]) -> bool
    ensures { (row : TurnRow) (entry : Option Entry) (reply : Option Finished) →
        lines.now ≡ turn_lines row entry reply → result ≡ is_some reply }
{
    matches!(lines.last(), Some(Line::Reply(_)))
}
