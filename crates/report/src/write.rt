//! The whole report.
ghost use Rattle.std.specs.Prelude.{[], OnOk, OnErr};
ghost use Rattle.std.specs.Io.KnownBytes.{Appends};
ghost use Rattle.report.specs.Report.{call_rows, report_text};
ghost use Rattle.texts.specs.Pages.{BeginsWith, CountsWriteFault, rows_text};

use crate::as_row::{ROWS, write_rows};
use crate::call::put_calls;
use crate::count::Counts;
use crate::head::{put_end, put_head};
use crate::totals::Totals;
use record::Record;
use script::Call;
use std::alloc::Global;
use std::io::Write;
use texts::{Metered, Sheet, WriteFault, send};

/// Writes the report of a run: a row that names the format and the mode, the limits, the calls of
/// the script, the lines of the run in order, and a row that counts them. After a fault what was
/// written is a beginning of the report.
pub fn write_record<W: Write>(
    alloc: Global,
    record: &Record,
    to: &mut Metered<W>,
) -> Result<(), WriteFault>
    ensures all { OnOk result (Appends (W.contents to.old.inner) (W.contents to.new.inner) (report_text «record».now.script «record».now.lines.items)) }
    ensures beginning { OnErr result (BeginsWith (W.contents to.old.inner) (W.contents to.new.inner)
        (report_text «record».now.script «record».now.lines.items)) }
    ensures failures { CountsWriteFault result to.old.failures to.new.failures }
{
    let script = &record.script;
    let mut sheet = Sheet::new(alloc);
    put_head(&mut sheet, script)?;
    send(sheet.text(), to)?;
    write_calls(alloc, &mut sheet, script.calls.as_slice(), to)?;
    write_rows(&mut sheet, record.lines.as_slice(), to)?;
    sheet.clear();
    put_end(&mut sheet, Totals::of(record.lines.as_slice()))?;
    send(sheet.text(), to)
}

/// Writes the rows of calls, over what is on the sheet.
pub fn write_calls<W: Write>(
    alloc: Global,
    sheet: &mut Sheet,
    calls: &[Call],
    to: &mut Metered<W>,
) -> Result<(), WriteFault>
    ensures all { OnOk result (Appends (W.contents to.old.inner) (W.contents to.new.inner) (rows_text 7 (call_rows [] calls.now))) }
    ensures beginning { OnErr result (BeginsWith (W.contents to.old.inner) (W.contents to.new.inner) (rows_text 7 (call_rows [] calls.now))) }
    ensures failures { CountsWriteFault result to.old.failures to.new.failures }
{
    let mut counts = Counts::new(alloc);
    for some in calls.chunks(ROWS) {
        sheet.clear();
        put_calls(alloc, sheet, some, &mut counts)?;
        send(sheet.text(), to)?;
    }
    Ok(())
}
