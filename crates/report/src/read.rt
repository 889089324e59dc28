//! The whole report, read back.
ghost use Rattle.std.specs.Prelude.{◌≡◌, ◌≢◌, ◌<◌, ◌+◌, ◌-◌, ◌^◌, List, [], ◌∷◌, ◌++◌, ℕ, All, IfErr, IfOk, IsErrOf, OnOk, Some, codes, length, map, reverse};
ghost use Rattle.arena.specs.declared.limits.Limits.{Limits};
ghost use Rattle.arena.specs.declared.limits.Mode.{Mode};
ghost use Rattle.script.specs.declared.call.Call.{Call};
ghost use Rattle.script.specs.declared.script.Script.{Script};
ghost use Rattle.record.specs.declared.record.Line.{Line};
ghost use Rattle.report.specs.Answers.{HasForm};
ghost use Rattle.report.specs.Numbered.{AreNumbered};
ghost use Rattle.texts.specs.Reads.{HasRead, IsAtRow, last_row};
ghost use Rattle.texts.specs.Texts.{AreRows, IfBad};
ghost use Rattle.report.specs.Report.{BeginsBehindCalls, IsCallRow, name_of, report_end_row, report_text, rows_of_calls, rows_of_lines, seven};
ghost use Rattle.report.specs.RowFaults.{AreAdmitted, IfRefused, IsFirstBadRow, IsReportOf};
ghost use Rattle.report.specs.declared.version.Version.{Version as VersionOf};
ghost use Rattle.report.specs.Spellings.{IsReported, IsSpelledLine};

use crate::fault::{NotLawful, ReportFault, RowFault};
use crate::read_call::calls_of;
use crate::read_head::{limits_of, title_of};
use crate::read_line::lines_of;
use crate::rows::{advance, next_row, row_fields};
use crate::totals::is_end_of;
use crate::version::Version;
use record::{Line, Record};
use script::Script;
use std::alloc::Global;
use std::io::Read;
use texts::{Metered, Rows, by_failure_count};

/// Reads a report of either version and mode: its rows are those of the record, and no others.
/// Whether the run is lawful is not asked here, only what a row says by itself, the numbers of the
/// calls and the counts of the end row. Where two answers have one text, a reply gets the one that
/// its call may give. Nothing is kept of a text that is refused. What was written of a record is
/// read as one that has the same report.
pub fn read_record<R: Read>(alloc: Global, from: &mut Metered<R>) -> Result<Record, ReportFault>
    ensures rows { (bytes : List ℕ) → R.remaining from.old.inner ≡ Some bytes →
        IfOk result (λ told. IsReportOf told.script told.lines.items bytes) }
    ensures again { (script : Script) (lines : List Line) → R.remaining from.old.inner ≡ Some (report_text script lines) →
        IfOk result (λ told. report_text told.script told.lines.items ≡ report_text script lines) }
    ensures calls { IfOk result (λ told. AreNumbered told.script.layout.passes (reverse told.lines.items)) }
    ensures forms { IfOk result (λ told. All (HasForm told.script.layout.passes told.script.calls.items) told.lines.items) }

    // A text that is refused is no report; the row that is named is the first that is as in none.
    ensures refused { (bytes : List ℕ) → R.remaining from.old.inner ≡ Some bytes →
        IfErr result (IfRefused (IsFirstBadRow bytes)) }

    // Whether a read failed follows from the failure count, as long as it can rise.
    ensures ok { OnOk result (from.new.failures ≡ from.old.failures) }
    ensures read { IsErrOf result ReportFault.Read → from.old.failures < 2 ^ 64 - 1 →
        from.new.failures ≢ from.old.failures }
    ensures failed { from.new.failures ≢ from.old.failures → IsErrOf result ReportFault.Read }
{
    let before = from.failures;
    let read = record_of(alloc, from);
    Ok(by_failure_count(read, before, from.failures)?)
}

fn record_of<R: Read>(alloc: Global, from: &mut Metered<R>) -> Result<Record, RowFault>
    ensures rows { (bytes : List ℕ) → R.remaining from.old.inner ≡ Some bytes →
        IfOk result (λ told. IsReportOf told.script told.lines.items bytes) }
    ensures again { (script : Script) (lines : List Line) → R.remaining from.old.inner ≡ Some (report_text script lines) →
        IfOk result (λ told. report_text told.script told.lines.items ≡ report_text script lines) }
    ensures calls { IfOk result (λ told. AreNumbered told.script.layout.passes (reverse told.lines.items)) }
    ensures forms { IfOk result (λ told. All (HasForm told.script.layout.passes told.script.calls.items) told.lines.items) }
    ensures fault { (bytes : List ℕ) → R.remaining from.old.inner ≡ Some bytes →
        IfErr result (IfBad (λ row _. IsFirstBadRow bytes row)) }
{
    let mut rows = Rows::new(alloc, from);
    let (version, script) = script_of(alloc, &mut rows)?;
    let lines = lines_of(
        alloc,
        &mut rows,
        script.calls.as_slice(),
        script.layout.passes,
        version,
    )?;
    end_of(&mut rows, lines.as_slice())?;
    Ok(Record { script, lines })
}

/// Reads the first two rows and the calls, and advances to the row after them. It answers the
/// version too.
fn script_of<R: Read + Drop>(
    alloc: Global,
    rows: &mut Rows<R>,
) -> Result<(Version, Script), RowFault>
    ensures rows { (bytes : List ℕ) → HasRead R.remaining bytes [] rows.old →
        IfOk result (λ told. IsAtRow R.remaining bytes
        (rows_of_calls told.0 told.1.layout.mode told.1.limits told.1.calls.items) 7 rows.new) }
    ensures reported { IfOk result (λ told. All (IsReported told.0 told.1.layout.mode told.1.layout.passes) told.1.calls.items) }
    ensures behind { (bytes : List ℕ) → HasRead R.remaining bytes [] rows.old →
        OnOk result (¬ (IsCallRow (last_row rows.new))) }
    ensures number { rows.old.number ≡ 0 →
        IfOk result (λ told. rows.new.number ≡ 3 + length told.1.calls.items) }
    ensures fault { (bytes : List ℕ) → HasRead R.remaining bytes [] rows.old → rows.old.number ≡ 0 →
        IfErr result (IfBad (λ row _. IsFirstBadRow bytes row)) }
{
    next_row(rows)?;
    let Some((version, mode)) = title_of(row_fields(rows)) else {
        return Err(rows.fault(NotLawful));
    };
    next_row(rows)?;
    let Some((limits, layout)) = limits_of(row_fields(rows), mode) else {
        return Err(rows.fault(NotLawful));
    };
    next_row(rows)?;
    let calls = calls_of(alloc, rows, layout, version)?;
    let script = Script {
        limits,
        layout,
        calls,
    };
    Ok((version, script))
}

/// Tests the end row, and that no row follows.
fn end_of<R: Read + Drop>(rows: &mut Rows<R>, lines: &[Line]) -> Result<(), RowFault>
    ensures rows { (bytes : List ℕ) (before : List (List (List ℕ))) → IsAtRow R.remaining bytes before 7 rows.old →
        OnOk result (AreRows bytes (before ++ seven (report_end_row lines.now) ∷ [])) }
    ensures fault { (bytes : List ℕ) (version : VersionOf) (mode : Mode) (limits : Limits) (calls : List Call) →
        AreAdmitted version mode limits calls → All (IsSpelledLine version) lines.now →
        IsAtRow R.remaining bytes (rows_of_lines version mode limits calls lines.now) 7 rows.old →
        BeginsBehindCalls lines.now (last_row rows.old) →
        name_of (last_row rows.old) ≡ codes "end" → rows.old.number ≡ 3 + length calls + length lines.now →
        length calls + length lines.now < 2 ^ 64 - 5 → IfErr result (IfBad (λ row _. IsFirstBadRow bytes row)) }
{
    if !is_end_of(row_fields(rows), lines) {
        return Err(rows.fault(NotLawful));
    }
    if advance(rows)? {
        return Err(rows.fault(NotLawful));
    }
    Ok(())
}
