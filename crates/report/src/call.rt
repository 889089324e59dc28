//! Calls as rows.
ghost use Rattle.std.specs.Prelude.{◌≡◌, ◌+◌, ◌^◌, ◌<◌, List, ◌∷◌, ◌++◌, length, reverse, OnOk, codes, decimal};
ghost use Rattle.script.specs.declared.call.Call.{Call};
ghost use Rattle.report.specs.Counts.{HasCounted};
ghost use Rattle.script.specs.Commands.{command_row};
ghost use Rattle.report.specs.Report.{call_rows};
ghost use Rattle.texts.specs.Pages.{line_of, rows_text};
ghost use Rattle.texts.specs.Sheets.{sheet_text};

use crate::count::Counts;
use crate::numbers::put_field;
use script::{Call, CommandText};
use std::alloc::{AllocError, Global};
use texts::Sheet;

/// Puts the rows of some calls, when `counts` has counted those before.
pub fn put_calls(
    alloc: Global,
    sheet: &mut Sheet,
    calls: &[Call],
    counts: &mut Counts,
) -> Result<(), AllocError>
    ensures rows { (earlier : List Call) → HasCounted counts.old earlier → length earlier + length calls.now < 2 ^ 64 →
        OnOk result (sheet_text sheet.new ≡ sheet_text sheet.old ++ rows_text 7 (call_rows earlier calls.now)) }
    ensures counted { (earlier : List Call) → HasCounted counts.old earlier → length earlier + length calls.now < 2 ^ 64 →
        OnOk result (HasCounted counts.new (reverse calls.now ++ earlier)) }
{
    for call in calls {
        let number = counts.count(call.client)?;
        put_call(alloc, sheet, call, number)?;
    }
    Ok(())
}

fn put_call(alloc: Global, sheet: &mut Sheet, call: &Call, number: u64) -> Result<(), AllocError>
    ensures { OnOk result (sheet_text sheet.new ≡ sheet_text sheet.old
        ++ line_of 7 (codes "call" ∷ decimal call.now.client.0 ∷ decimal number ∷ command_row call.now.command)) }
{
    let command = CommandText::of(alloc, &call.command)?;
    sheet.make_room(47)?;
    sheet.put("call,");
    put_field(sheet, u64::from(call.client.0));
    put_field(sheet, number);
    sheet.push(command.name)?;
    sheet.push(",")?;
    sheet.push(command.a.as_str())?;
    sheet.push(",")?;
    sheet.push(command.b.as_str())?;
    sheet.push(",")?;
    sheet.push(command.c.as_str())?;
    sheet.push("\n")
}
