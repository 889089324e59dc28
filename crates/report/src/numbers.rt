//! Fields of numbers.
ghost use Rattle.std.specs.Prelude.{◌≡◌, ◌≤◌, ◌+◌, ◌++◌, codes, decimal};
ghost use Rattle.texts.specs.Sheets.{IsPlain, sheet_room, sheet_text};

use texts::Sheet;

/// Puts the digits of a number and a comma: at most 21 bytes.
#[inline]
pub fn put_field(sheet: &mut Sheet, n: u64)
    requires { 21 ≤ sheet_room sheet.old }
    ensures text { sheet_text sheet.new ≡ (sheet_text sheet.old ++ decimal n) ++ codes "," }
    ensures room { sheet_room sheet.old ≤ sheet_room sheet.new + 21 }
    ensures plain { IsPlain (decimal n) }
{
    sheet.number(n);
    sheet.put(",");
}
