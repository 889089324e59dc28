//! The outcome of a run with threads.
ghost use Rattle.std.specs.Prelude.{◌≡◌, [], ◌∷◌, ◌++◌, ◌+◌, ◌^◌, ◌<◌, IfOk, OnErr, OnOk, length};
ghost use Rattle.std.specs.Io.KnownBytes.{Appends};
ghost use Rattle.report.specs.Outcome.{client_rows, gate_row, outcome_end_row, outcome_text, outcome_title_row, pair_row, replies_counted, reply_row, reply_rows};
ghost use Rattle.texts.specs.Pages.{BeginsWith, CountsWriteFault, line_of, rows_text};
ghost use Rattle.texts.specs.Sheets.{sheet_text};

use crate::as_row::{AsRow, ROWS, write_rows};
use crate::numbers::put_field;
use crate::reply::put_reply;
use ordered_map::Reply;
use std::alloc::{AllocError, Global};
use std::io::Write;
use texts::{Metered, Sheet, WriteFault, send};

/// How long a row is at most, except for the reply in it.
const LONGEST: usize = 80;

/// Writes the outcome of a run: a row that names the format, one that says whether the gate was
/// met, the replies by client and call, the pairs by key, and a row that counts both. After a fault
/// what was written is a beginning of it.
pub fn write_outcome<W: Write>(
    alloc: Global,
    missed: bool,
    replies: &[Vec<Reply<u64, u128>>],
    pairs: &[(u64, u128)],
    to: &mut Metered<W>,
) -> Result<(), WriteFault>
    ensures all { OnOk result (Appends (W.contents to.old.inner) (W.contents to.new.inner) (outcome_text missed replies.now pairs.now)) }
    ensures beginning { OnErr result (BeginsWith (W.contents to.old.inner) (W.contents to.new.inner) (outcome_text missed replies.now pairs.now)) }
    ensures failures { CountsWriteFault result to.old.failures to.new.failures }
{
    let mut sheet = Sheet::new(alloc);
    put_opening(&mut sheet, missed)?;
    send(sheet.text(), to)?;
    let count = write_clients(&mut sheet, replies, to)?;
    write_rows(&mut sheet, pairs, to)?;
    sheet.clear();
    put_closing(&mut sheet, count, pairs.len() as u64)?;
    send(sheet.text(), to)
}

/// Puts the first two rows.
fn put_opening(sheet: &mut Sheet, missed: bool) -> Result<(), AllocError>
    ensures { OnOk result (sheet_text sheet.new ≡
        sheet_text sheet.old ++ rows_text 4 (outcome_title_row ∷ gate_row missed ∷ [])) }
{
    sheet.push("outcome,1,,\n")?;
    if missed {
        sheet.push("gate,missed,,\n")
    } else {
        sheet.push("gate,met,,\n")
    }
}

/// Writes the rows of all replies, and answers how many there are.
fn write_clients<W: Write>(
    sheet: &mut Sheet,
    replies: &[Vec<Reply<u64, u128>>],
    to: &mut Metered<W>,
) -> Result<u64, WriteFault>
    ensures all { OnOk result (Appends (W.contents to.old.inner) (W.contents to.new.inner) (rows_text 4 (client_rows 0 replies.now))) }
    ensures beginning { OnErr result (BeginsWith (W.contents to.old.inner) (W.contents to.new.inner) (rows_text 4 (client_rows 0 replies.now))) }
    ensures failures { CountsWriteFault result to.old.failures to.new.failures }
    ensures count { IfOk result (λ count. count ≡ replies_counted replies.now) }
{
    let (mut client, mut count): (u64, u64) = (0, 0);
    for own in replies {
        write_replies(sheet, client, own.as_slice(), to)?;
        client = client.saturating_add(1);
        count = count.saturating_add(own.len() as u64);
    }
    Ok(count)
}

/// Writes the rows of a client's replies.
fn write_replies<W: Write>(
    sheet: &mut Sheet,
    client: u64,
    replies: &[Reply<u64, u128>],
    to: &mut Metered<W>,
) -> Result<(), WriteFault>
    ensures all { OnOk result (Appends (W.contents to.old.inner) (W.contents to.new.inner) (rows_text 4 (reply_rows client 0 replies.now))) }
    ensures beginning { OnErr result (BeginsWith (W.contents to.old.inner) (W.contents to.new.inner) (rows_text 4 (reply_rows client 0 replies.now))) }
    ensures failures { CountsWriteFault result to.old.failures to.new.failures }
{
    let mut call: u64 = 0;
    for some in replies.chunks(ROWS) {
        sheet.clear();
        put_replies(sheet, client, call, some)?;
        send(sheet.text(), to)?;
        call = call.saturating_add(some.len() as u64);
    }
    Ok(())
}

/// Puts the rows of some replies of a client, from its call of this number on.
fn put_replies(
    sheet: &mut Sheet,
    client: u64,
    first: u64,
    replies: &[Reply<u64, u128>],
) -> Result<(), AllocError>
    ensures { first + length replies.now < 2 ^ 64 →
        OnOk result (sheet_text sheet.new ≡ sheet_text sheet.old ++ rows_text 4 (reply_rows client first replies.now)) }
{
    let mut call = first;
    for reply in replies {
        put_reply_row(sheet, client, call, reply)?;
        call = call.saturating_add(1);
    }
    Ok(())
}

fn put_reply_row(
    sheet: &mut Sheet,
    client: u64,
    call: u64,
    reply: &Reply<u64, u128>,
) -> Result<(), AllocError>
    ensures { OnOk result (sheet_text sheet.new ≡ sheet_text sheet.old ++ line_of 4 (reply_row client call reply.now)) }
{
    sheet.make_room(LONGEST)?;
    sheet.put("reply,");
    put_field(sheet, client);
    put_field(sheet, call);
    put_reply(sheet, reply)?;
    sheet.push("\n")
}

impl AsRow for (u64, u128) {
    ghost width = { 4 };

    ghost fields = { pair_row };

    fn put_row(&self, sheet: &mut Sheet) -> Result<(), AllocError> {
        let (key, value) = *self;
        sheet.make_room(LONGEST)?;
        sheet.put("pair,");
        put_field(sheet, key);
        sheet.wide_number(value);
        sheet.put(",\n");
        Ok(())
    }
}

/// Puts the row that counts replies and pairs.
fn put_closing(sheet: &mut Sheet, replies: u64, pairs: u64) -> Result<(), AllocError>
    ensures { OnOk result (sheet_text sheet.new ≡ sheet_text sheet.old ++ rows_text 4 (outcome_end_row replies pairs ∷ [])) }
{
    sheet.make_room(LONGEST)?;
    sheet.put("end,");
    put_field(sheet, replies);
    sheet.number(pairs);
    sheet.put(",\n");
    Ok(())
}
