//! The first rows of a report and its last one.
ghost use Rattle.std.specs.Prelude.{◌≡◌, ◌≤◌, [], ◌∷◌, ◌++◌, OnOk, length};
ghost use Rattle.script.specs.Rows.{limits_row};
ghost use Rattle.report.specs.Report.{counts_row, mode_text, title_row};
ghost use Rattle.texts.specs.Pages.{line_of, rows_text};
ghost use Rattle.texts.specs.Sheets.{sheet_room, sheet_text};

use crate::numbers::put_field;
use crate::totals::Totals;
use crate::version::Version;
use arena::{Limits, Mode};
use script::Script;
use std::alloc::AllocError;
use texts::Sheet;

/// How long one of these rows is at most.
const LONGEST: usize = 96;

/// Puts the two rows that say what was run and how large it was.
pub fn put_head(sheet: &mut Sheet, script: &Script) -> Result<(), AllocError>
    ensures { OnOk result (sheet_text sheet.new ≡ sheet_text sheet.old
        ++ rows_text 7 (title_row script.now.layout.mode ∷ limits_row script.now.limits ∷ [])) }
{
    sheet.make_room(LONGEST)?;
    put_title(sheet, script.layout.mode);
    sheet.make_room(LONGEST)?;
    put_limits(sheet, &script.limits);
    Ok(())
}

fn put_title(sheet: &mut Sheet, mode: Mode)
    requires { 96 ≤ sheet_room sheet.old }
    ensures { sheet_text sheet.new ≡ sheet_text sheet.old ++ line_of 7 (title_row mode) }
{
    sheet.put("report,");
    sheet.put(Version::Two.name());
    sheet.put(",");
    sheet.put(mode_name(mode));
    sheet.put(",,,,\n");
}

fn mode_name(mode: Mode) -> &'static str
    ensures name { result.now ≡ mode_text mode }
    ensures short { length result.now ≤ 7 }
{
    match mode {
        Mode::Tree => "tree",
        Mode::Trie => "trie",
        Mode::Records => "records",
    }
}

fn put_limits(sheet: &mut Sheet, limits: &Limits)
    requires { 96 ≤ sheet_room sheet.old }
    ensures { sheet_text sheet.new ≡ sheet_text sheet.old ++ line_of 7 (limits_row limits.now) }
{
    sheet.put("limits,");
    put_field(sheet, u64::from(limits.passes));
    put_field(sheet, u64::from(limits.nodes));
    put_field(sheet, u64::from(limits.scx));
    sheet.number(u64::from(limits.tries));
    sheet.put(",,\n");
}

/// Puts the row that counts the others by their kind.
pub fn put_end(sheet: &mut Sheet, totals: Totals) -> Result<(), AllocError>
    ensures { OnOk result (sheet_text sheet.new ≡ sheet_text sheet.old
        ++ rows_text 7 (counts_row totals.steps totals.replies totals.entries ∷ [])) }
{
    sheet.make_room(LONGEST)?;
    sheet.put("end,");
    put_field(sheet, totals.steps);
    put_field(sheet, totals.replies);
    sheet.number(totals.entries);
    sheet.put(",,,\n");
    Ok(())
}
