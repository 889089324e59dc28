//! The lines of one turn.
ghost use Rattle.std.specs.Prelude.{◌≡◌, ◌<◌, ◌≤◌, ◌++◌, ◌∷◌, List};
ghost use Rattle.arrayvec.specs.ArrayVec.{array_vec_len};
ghost use Rattle.record.specs.declared.record.Line.{Line};
ghost use Rattle.record.specs.declared.record.TurnRow.{TurnRow};
ghost use Rattle.player.specs.Lines.{room_left, turn_lines};

use arrayvec::ArrayVec;
use record::{Entry, Line, TurnRow};

/// The lines of one turn, in order: its row, the entry of the log that it has made, if it has made
/// one, and the reply to the call that it has ended, if it has ended one.
pub type Lines = ArrayVec<Line, 3>;

/// Puts the row and the entry of a turn in place of what is there. A reply has room after them.
#[inline]
pub(crate) fn begin(lines: &mut Lines, row: TurnRow, entry: Option<Entry>)
    ensures lines { lines.new.items ≡ turn_lines row entry None }
    ensures room { array_vec_len lines.new < 3 }
{
    lines.clear();
    lines.push(Line::Step(row));
    if let Some(entry) = entry {
        lines.push(Line::Log(entry));
    }
}

/// The row of a turn, which is the first of its lines.
pub(crate) fn row_of(turn: &[Line]) -> TurnRow
    requires { (row : TurnRow) × (behind : List Line) × (turn.now ≡ Line.Step row ∷ behind) }
    ensures { (row : TurnRow) (behind : List Line) → turn.now ≡ Line.Step row ∷ behind →
        result ≡ row }
{
    match turn {
        [Line::Step(row), ..] => *row,
        _ => unreachable!(),
    }
}

/// Moves the lines of a turn to the end of those before it, which must have room for them.
pub(crate) fn append(list: &mut Vec<Line>, mut turn: Lines)
    requires { 3 ≤ room_left list.old }
    ensures { list.new.items ≡ list.old.items ++ turn.items }
{
    while let Some(line) = turn.pop_at(0) {
        list.push_reserved(line);
    }
}
