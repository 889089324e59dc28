//! Steps, log entries and replies as rows.
ghost use Rattle.std.specs.Prelude.{◌≡◌, ◌≤◌, ◌++◌, OnOk, codes};
ghost use Rattle.record.specs.declared.record.Line.TheVariants.{Step as StepLine, Log, Reply as ReplyLine};
ghost use Rattle.record.specs.declared.record.TurnRow.TheVariants.{Step as Made, Idle};
ghost use Rattle.report.specs.Report.{line_row, moment_text};
ghost use Rattle.texts.specs.Pages.{line_of};
ghost use Rattle.texts.specs.Sheets.{IsPlain, sheet_room, sheet_text};

use crate::answer::put_answer;
use crate::as_row::AsRow;
use crate::numbers::put_field;
use crate::word::put_word;
use arena::PassNo;
use record::{Entry, Finished, Line, TurnRow};
use script::kind_name;
use std::alloc::AllocError;
use texts::Sheet;

/// How long a row is at most, except for the answer in the row of a reply.
const LONGEST: usize = 160;

impl AsRow for Line {
    ghost width = { 7 };

    ghost fields = { line_row };

    /// Room is made once, and the fields are put in place. None of them has a byte for which csv
    /// puts quotes.
    fn put_row(&self, sheet: &mut Sheet) -> Result<(), AllocError> {
        sheet.make_room(LONGEST)?;
        match self {
            Line::Step(TurnRow::Step { number, row }) => put_step(sheet, *number, row),
            Line::Step(TurnRow::Idle { number, client }) => put_idle(sheet, *number, *client),
            Line::Log(entry) => put_entry(sheet, entry),
            Line::Reply(reply) => put_finished(sheet, reply)?,
        }
        Ok(())
    }
}

#[inline]
fn put_step(sheet: &mut Sheet, number: u64, row: &arena::Row)
    requires { 160 ≤ sheet_room sheet.old }
    ensures { sheet_text sheet.new ≡ sheet_text sheet.old ++ line_of 7 (line_row (StepLine (Made number row.now))) }
{
    sheet.put("step,");
    put_field(sheet, number);
    put_field(sheet, u64::from(row.pass.0));
    sheet.put(kind_name(row.kind));
    sheet.put(",");
    put_word(sheet, row.word);
    sheet.put(",");
    put_field(sheet, row.before);
    sheet.number(row.after);
    sheet.put("\n");
}

fn put_idle(sheet: &mut Sheet, number: u64, client: PassNo)
    requires { 160 ≤ sheet_room sheet.old }
    ensures { sheet_text sheet.new ≡ sheet_text sheet.old ++ line_of 7 (line_row (StepLine (Idle number client))) }
{
    sheet.put("step,");
    put_field(sheet, number);
    put_field(sheet, u64::from(client.0));
    sheet.put("idle,,,\n");
}

fn put_entry(sheet: &mut Sheet, entry: &Entry)
    requires { 160 ≤ sheet_room sheet.old }
    ensures { sheet_text sheet.new ≡ sheet_text sheet.old ++ line_of 7 (line_row (Log entry.now)) }
{
    sheet.put("log,");
    put_field(sheet, entry.place);
    put_field(sheet, entry.step);
    sheet.put("s");
    put_field(sheet, entry.scx.0);
    put_field(sheet, u64::from(entry.client.0));
    put_field(sheet, entry.call);
    sheet.put("\n");
}

fn put_finished(sheet: &mut Sheet, reply: &Finished) -> Result<(), AllocError>
    requires { 160 ≤ sheet_room sheet.old }
    ensures { OnOk result (sheet_text sheet.new ≡ sheet_text sheet.old ++ line_of 7 (line_row (ReplyLine reply.now))) }
{
    sheet.put("reply,");
    put_field(sheet, u64::from(reply.client.0));
    put_field(sheet, reply.call);
    put_field(sheet, reply.begin);
    put_field(sheet, reply.end);
    put_moment(sheet, reply.moment);
    put_answer(sheet, &reply.answer)?;
    sheet.make_room(1)?;
    sheet.put("\n");
    Ok(())
}

/// Puts the turn of a moment, if there is one, and a comma: at most 21 bytes.
fn put_moment(sheet: &mut Sheet, moment: Option<u64>)
    requires { 21 ≤ sheet_room sheet.old }
    ensures text { sheet_text sheet.new ≡ (sheet_text sheet.old ++ moment_text moment) ++ codes "," }
    ensures plain { IsPlain (moment_text moment) }
{
    match moment {
        Some(turn) => put_field(sheet, turn),
        None => sheet.put(","),
    }
}
