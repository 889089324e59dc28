//! The rows of a report, one at a time.
ghost use Rattle.std.specs.Prelude.{◌≡◌, ◌<◌, ◌+◌, ◌-◌, ◌^◌, ◌++◌, List, ℕ, IfErr, IfOk, MatchBool, OnOk, length, min};
ghost use Rattle.csv.specs.Records.{fields_of};
ghost use Rattle.script.specs.Commands.{texts};
ghost use Rattle.texts.specs.Fields.{field_of};
ghost use Rattle.texts.specs.Reads.{HasRead, IsAtRow, last_row};
ghost use Rattle.texts.specs.Texts.{AreRows, IfBad};
ghost use Rattle.report.specs.RowFaults.{AreOfReport, BeginReport, IsFirstBadRow};

use crate::fault::{NotLawful, RowFault};
use csv::StringRecord;
use std::io::Read;
use texts::Rows;

/// How many fields a row of a report has.
const WIDTH: usize = 7;

/// Advances to the next row, or past the last row, when it answers false.
pub fn advance<R: Read + Drop>(rows: &mut Rows<R>) -> Result<bool, RowFault>
    ensures number { rows.new.number ≡ min (rows.old.number + 1) (2 ^ 64 - 1) }
    ensures row { (bytes : List ℕ) (so_far : List (List (List ℕ))) → HasRead R.remaining bytes so_far rows.old →
        IfOk result (λ found. MatchBool found (IsAtRow R.remaining bytes so_far 7 rows.new) (AreRows bytes so_far)) }
    ensures fault { (bytes : List ℕ) (so_far : List (List (List ℕ))) → HasRead R.remaining bytes so_far rows.old →
        rows.old.number ≡ length so_far → length so_far < 2 ^ 64 - 1 → BeginReport so_far →
        IfErr result (IfBad (λ row _. IsFirstBadRow bytes row)) }
{
    rows.advance(WIDTH)
}

/// Advances to the next row, which has to be there.
pub fn next_row<R: Read + Drop>(rows: &mut Rows<R>) -> Result<(), RowFault>
    ensures number { rows.new.number ≡ min (rows.old.number + 1) (2 ^ 64 - 1) }
    ensures row { (bytes : List ℕ) (so_far : List (List (List ℕ))) → HasRead R.remaining bytes so_far rows.old →
        OnOk result (IsAtRow R.remaining bytes so_far 7 rows.new) }
    ensures fault { (bytes : List ℕ) (so_far : List (List (List ℕ))) → HasRead R.remaining bytes so_far rows.old →
        rows.old.number ≡ length so_far → length so_far < 2 ^ 64 - 1 → BeginReport so_far → ¬ (AreOfReport so_far) →
        IfErr result (IfBad (λ row _. IsFirstBadRow bytes row)) }
{
    if advance(rows)? {
        Ok(())
    } else {
        Err(rows.fault(NotLawful))
    }
}

/// The fields of the row.
pub fn row_fields<R: Read + Drop>(rows: &Rows<R>) -> [&str; 7]
    ensures { length (last_row rows.now) ≡ 7 → texts result ≡ last_row rows.now }
{
    let row = rows.row();
    [
        field(row, 0),
        field(row, 1),
        field(row, 2),
        field(row, 3),
        field(row, 4),
        field(row, 5),
        field(row, 6),
    ]
}

fn field(row: &StringRecord, place: usize) -> &str
    ensures { result.now ≡ field_of (fields_of row.now) place }
{
    row.get(place).unwrap_or("")
}
