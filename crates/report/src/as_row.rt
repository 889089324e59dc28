//! Rows of things that have one each: put on a sheet, or written.
ghost use Rattle.std.specs.Prelude.{◌≡◌, ◌++◌, ℕ, List, OnErr, OnOk, map};
ghost use Rattle.std.specs.Io.KnownBytes.{Appends};
ghost use Rattle.texts.specs.Pages.{BeginsWith, CountsWriteFault, line_of, rows_text};
ghost use Rattle.texts.specs.Sheets.{sheet_text};

use std::alloc::AllocError;
use std::io::Write;
use texts::{Metered, Sheet, WriteFault, send};

/// How many rows are made in memory before they go out.
pub const ROWS: usize = 64;

/// What has a row of its own in a text.
pub trait AsRow {
    /// How many fields the row has, and which.
    ghost width: { ℕ };

    ghost fields: { Self → List (List ℕ) };

    /// Puts its row.
    fn put_row(&self, sheet: &mut Sheet) -> Result<(), AllocError>
        ensures { OnOk result (sheet_text sheet.new ≡ sheet_text sheet.old ++ line_of width (fields self.now)) };
}

/// Puts the rows of some things.
pub fn put_rows<T: AsRow>(sheet: &mut Sheet, things: &[T]) -> Result<(), AllocError>
    ensures { OnOk result (sheet_text sheet.new ≡ sheet_text sheet.old ++ rows_text T.width (map T.fields things.now)) }
{
    for thing in things {
        thing.put_row(sheet)?;
    }
    Ok(())
}

/// Writes the rows of things, over what is on the sheet.
pub fn write_rows<T: AsRow, W: Write>(
    sheet: &mut Sheet,
    things: &[T],
    to: &mut Metered<W>,
) -> Result<(), WriteFault>
    ensures all { OnOk result (Appends (W.contents to.old.inner) (W.contents to.new.inner) (rows_text T.width (map T.fields things.now))) }
    ensures beginning { OnErr result (BeginsWith (W.contents to.old.inner) (W.contents to.new.inner) (rows_text T.width (map T.fields things.now))) }
    ensures failures { CountsWriteFault result to.old.failures to.new.failures }
{
    for some in things.chunks(ROWS) {
        sheet.clear();
        put_rows(sheet, some)?;
        send(sheet.text(), to)?;
    }
    Ok(())
}
