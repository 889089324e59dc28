//! The lines of a run, as rows say them.
ghost use Rattle.std.specs.Prelude.{◌≡◌, ◌≢◌, ◌<◌, ◌≤◌, ◌+◌, ◌-◌, ◌^◌, List, [], ◌∷◌, ◌++◌, ℕ, All, Option, slice_index_or, IfErr, IfNone, IfOk, IfSome, MatchOption, OnOk, codes, decimal, length, map, reverse, vec_len};
ghost use Rattle.arena.specs.declared.limits.Limits.{Limits};
ghost use Rattle.arena.specs.declared.limits.Mode.{Mode};
ghost use Rattle.arena.specs.declared.step.Row.{Row as StepRow};
ghost use Rattle.record.specs.declared.record.Entry.{Entry as EntryOf};
ghost use Rattle.record.specs.declared.record.Finished.{Finished as FinishedOf};
ghost use Rattle.record.specs.declared.record.Line.{Line};
ghost use Rattle.record.specs.declared.record.Line.TheVariants.{Step as StepLine, Log, Reply as ReplyLine};
ghost use Rattle.record.specs.declared.record.TurnRow.{TurnRow};
ghost use Rattle.record.specs.declared.record.TurnRow.TheVariants.{Step as Made};
ghost use Rattle.report.specs.Counts.{HasCommands, HasCountedReplies, calls_counted};
ghost use Rattle.report.specs.Numbered.{AreNumbered, IsOfNextCall};
ghost use Rattle.script.specs.Commands.{texts};
ghost use Rattle.script.specs.declared.call.Call.{Call as CallOf};
ghost use Rattle.texts.specs.Reads.{IsAtRow, last_row};
ghost use Rattle.report.specs.Answers.{HasForm, answer_text};
ghost use Rattle.texts.specs.Texts.{IfBad};
ghost use Rattle.report.specs.Report.{BeginsBehindCalls, IsCallRow, line_row, moment_text, name_of, rows_of_calls, seven};
ghost use Rattle.report.specs.RowFaults.{AreAdmitted, IsFirstBadRow};
ghost use Rattle.report.specs.declared.version.Version.{Version as VersionOf};
ghost use Rattle.report.specs.Spellings.{IsReplyLine, IsSpelledAnswer, IsSpelledEntry, IsSpelledFinished, IsSpelledLine, IsSpelledStep, IsSpelledTurn};

use crate::answer::answer_of;
use crate::commands::Commands;
use crate::count::Counts;
use crate::fault::{NotLawful, RowFault};
use crate::form::fitted_to;
use crate::name::{client_of, scx_of};
use crate::rows::{next_row, row_fields};
use crate::version::Version;
use crate::word::word_of;
use record::{Answer, Entry, Finished, Line, TurnRow};
use script::{Call, kind_of};
use std::alloc::{AllocError, Global};
use std::io::Read;
use texts::{Rows, number_of};

/// Reads the lines from this row on, up to the first row that begins as the end row does. The calls
/// are those of the clients below `passes`.
pub fn lines_of<R: Read + Drop>(
    alloc: Global,
    rows: &mut Rows<R>,
    calls: &[Call],
    passes: u32,
    version: Version,
) -> Result<Vec<Line>, RowFault>
    ensures calls { IfOk result (λ lines. AreNumbered passes (reverse lines.items)) }
    ensures forms { IfOk result (λ lines. All (HasForm passes calls.now) lines.items) }
    ensures spelled { IfOk result (λ lines. All (IsSpelledLine version) lines.items) }
    ensures number { rows.old.number ≡ 3 + length calls.now → length calls.now ≤ 65536 →
        IfOk result (λ lines. rows.new.number ≡ 3 + length calls.now + vec_len lines) }
    ensures behind { (bytes : List ℕ) (before : List (List (List ℕ))) →
        IsAtRow R.remaining bytes before 7 rows.old → ¬ (IsCallRow (last_row rows.old)) →
        IfOk result (λ lines. BeginsBehindCalls lines.items (last_row rows.new)) }
    ensures ends { (bytes : List ℕ) (before : List (List (List ℕ))) → IsAtRow R.remaining bytes before 7 rows.old →
        OnOk result (name_of (last_row rows.new) ≡ codes "end") }
    ensures rows { (bytes : List ℕ) (before : List (List (List ℕ))) → IsAtRow R.remaining bytes before 7 rows.old →
        IfOk result (λ lines. IsAtRow R.remaining bytes (before ++ map seven (map line_row lines.items)) 7 rows.new) }
    ensures fault { (bytes : List ℕ) (mode : Mode) (limits : Limits) → AreAdmitted version mode limits calls.now →
        IsAtRow R.remaining bytes (rows_of_calls version mode limits calls.now) 7 rows.old → ¬ (IsCallRow (last_row rows.old)) →
        rows.old.number ≡ 3 + length calls.now → IfErr result (IfBad (λ row _. IsFirstBadRow bytes row)) }
{
    let Ok(commands) = Commands::of(alloc, calls, passes) else {
        return Err(RowFault::NoMemory);
    };
    let mut lines = Vec::new(alloc);
    let mut replies = Counts::new(alloc);
    while row_fields(rows)[0] != "end" {
        let line = next_line(alloc, rows, &commands, passes, version, &mut replies)?;
        lines.push(line).map_err(|_| RowFault::NoMemory)?;
        next_row(rows)?;
    }
    Ok(lines)
}

/// The line of this row, whose reply is counted if it is of a client below `passes`.
fn next_line<R: Read + Drop>(
    alloc: Global,
    rows: &Rows<R>,
    commands: &Commands,
    passes: u32,
    version: Version,
    replies: &mut Counts,
) -> Result<Line, RowFault>
    ensures row { length (last_row rows.now) ≡ 7 →
        IfOk result (λ line. last_row rows.now ≡ seven (line_row line)) }
    ensures call { IfOk result (IsOfNextCall (calls_counted replies.old)) }
    ensures form { (calls : List CallOf) → HasCommands commands.now passes calls →
        IfOk result (HasForm passes calls) }
    ensures counted { (lines : List Line) → HasCountedReplies replies.old passes lines → length lines < 2 ^ 64 - 1 →
        IfOk result (λ line. HasCountedReplies replies.new passes (line ∷ lines)) }
    ensures spelled { IfOk result (IsSpelledLine version) }
    ensures none { length (last_row rows.now) ≡ 7 → IfErr result (IfBad (λ row _. (row ≡ rows.now.number)
        × ((line : Line) → IsSpelledLine version line → last_row rows.now ≢ seven (line_row line)))) }
{
    let Ok(line) = line_of(alloc, row_fields(rows), commands, version, replies) else {
        return Err(RowFault::NoMemory);
    };
    let Some(line) = line else {
        return Err(rows.fault(NotLawful));
    };
    if let Line::Reply(reply) = &line {
        let Ok(()) = replies.count_below(passes, reply.client) else {
            return Err(RowFault::NoMemory);
        };
    }
    Ok(line)
}

/// The line that a row says, by its form. A step is of its client's first call that has no reply
/// yet. The only error is want of memory.
fn line_of(
    alloc: Global,
    fields: [&str; 7],
    commands: &Commands,
    version: Version,
    replies: &Counts,
) -> Result<Option<Line>, AllocError>
    ensures row { IfOk result (λ o. IfSome o (λ line. texts fields.entry ≡ seven (line_row line))) }
    ensures call { IfOk result (λ o. IfSome o (IsOfNextCall (calls_counted replies.now))) }
    ensures form { (passes : ℕ) (calls : List CallOf) → HasCommands commands.now passes calls →
        IfOk result (λ o. IfSome o (HasForm passes calls)) }
    ensures spelled { IfOk result (λ o. IfSome o (IsSpelledLine version)) }
    ensures none { IfOk result (λ o. IfNone o ((line : Line) → IsSpelledLine version line →
        texts fields.entry ≢ seven (line_row line))) }
{
    if fields[0] != "reply" {
        return Ok(turn_or_entry_of(fields, version, replies));
    }
    match answer_of(alloc, fields[6], version)? {
        Some(answer) => Ok(reply_of(fields, answer, commands)),
        None => Ok(None),
    }
}

/// The line of a row, if it is no reply.
fn turn_or_entry_of(fields: [&str; 7], version: Version, replies: &Counts) -> Option<Line>
    ensures row { IfSome result (λ line. texts fields.entry ≡ seven (line_row line)) }
    ensures call { IfSome result (IsOfNextCall (calls_counted replies.now)) }
    ensures form { (passes : ℕ) (calls : List CallOf) → IfSome result (HasForm passes calls) }
    ensures spelled { IfSome result (IsSpelledLine version) }
    ensures none { IfNone result ((line : Line) → IsSpelledLine version line →
        texts fields.entry ≡ seven (line_row line) → IsReplyLine line) }
{
    match fields[0] {
        "step" => Some(Line::Step(turn_of(fields, version, replies)?)),
        "log" => Some(Line::Log(entry_of(fields)?)),
        _ => None,
    }
}

fn turn_of(fields: [&str; 7], version: Version, replies: &Counts) -> Option<TurnRow>
    ensures row { IfSome result (λ row. texts fields.entry ≡ seven (line_row (StepLine row))) }
    ensures call { IfSome result (λ row. IsOfNextCall (calls_counted replies.now) (StepLine row)) }
    ensures spelled { IfSome result (IsSpelledTurn version) }
    ensures none { IfNone result ((row : TurnRow) → IsSpelledTurn version row →
        texts fields.entry ≢ seven (line_row (StepLine row))) }
{
    match fields[3] {
        "idle" => idle_of(fields),
        _ => step_of(fields, version, replies),
    }
}

fn idle_of(fields: [&str; 7]) -> Option<TurnRow>
    ensures row { IfSome result (λ row. texts fields.entry ≡ seven (line_row (StepLine row))) }
    ensures call { (calls : ℕ → ℕ) → IfSome result (λ row. IsOfNextCall calls (StepLine row)) }
    ensures spelled { (version : VersionOf) → IfSome result (IsSpelledTurn version) }
    ensures none { IfNone result ((number client : ℕ) → number < 2 ^ 64 → client < 2 ^ 32 →
        texts fields.entry ≢ seven (codes "step" ∷ decimal number ∷ decimal client ∷ codes "idle" ∷ [])) }
{
    let ["step", number, client, "idle", "", "", ""] = fields else {
        return None;
    };
    Some(TurnRow::Idle {
        number: number_of(number)?,
        client: client_of(client)?,
    })
}

fn step_of(fields: [&str; 7], version: Version, replies: &Counts) -> Option<TurnRow>
    ensures row { IfSome result (λ row. texts fields.entry ≡ seven (line_row (StepLine row))) }
    ensures call { IfSome result (λ row. IsOfNextCall (calls_counted replies.now) (StepLine row)) }
    ensures spelled { IfSome result (IsSpelledTurn version) }
    ensures none { IfNone result ((number : ℕ) (row : StepRow) → number < 2 ^ 64 → IsSpelledStep version row →
        texts fields.entry ≢ seven (line_row (StepLine (Made number row)))) }
{
    let ["step", number, client, kind, word, before, after] = fields else {
        return None;
    };
    let number = number_of(number)?;
    let pass = client_of(client)?;
    let row = arena::Row {
        pass,
        call: replies.so_far(pass),
        kind: kind_of(kind)?,
        word: word_of(word, version)?,
        before: number_of(before)?,
        after: number_of(after)?,
    };
    Some(TurnRow::Step { number, row })
}

fn entry_of(fields: [&str; 7]) -> Option<Entry>
    ensures row { IfSome result (λ entry. texts fields.entry ≡ seven (line_row (Log entry))) }
    ensures spelled { IfSome result IsSpelledEntry }
    ensures none { IfNone result ((entry : EntryOf) → IsSpelledEntry entry →
        texts fields.entry ≢ seven (line_row (Log entry))) }
{
    let ["log", place, step, scx, client, call, ""] = fields else {
        return None;
    };
    Some(Entry {
        place: number_of(place)?,
        step: number_of(step)?,
        scx: scx_of(scx)?,
        client: client_of(client)?,
        call: number_of(call)?,
    })
}

/// The reply with this answer, which the last field spells, in the form that answers its call.
fn reply_of(fields: [&str; 7], answer: Answer, commands: &Commands) -> Option<Line>
    requires text { slice_index_or (texts fields) 6 [] ≡ answer_text answer }
    ensures row { IfSome result (λ line. texts fields.entry ≡ seven (line_row line)) }
    ensures call { (calls : ℕ → ℕ) → IfSome result (IsOfNextCall calls) }
    ensures form { (passes : ℕ) (calls : List CallOf) → HasCommands commands.now passes calls →
        IfSome result (HasForm passes calls) }
    ensures spelled { (version : VersionOf) → IsSpelledAnswer version answer →
        IfSome result (IsSpelledLine version) }
    ensures none { IfNone result ((version : VersionOf) (reply : FinishedOf) → IsSpelledFinished version reply
        → texts fields.entry ≢ seven (line_row (ReplyLine reply))) }
{
    let ["reply", client, call, begin, end, moment, _] = fields else {
        return None;
    };
    let (client, call) = (client_of(client)?, number_of(call)?);
    let reply = Finished {
        client,
        call,
        begin: number_of(begin)?,
        end: number_of(end)?,
        moment: moment_of(moment)?,
        answer: fitted_to(commands.get(client, call), answer),
    };
    Some(Line::Reply(reply))
}

/// The moment of a reply, which may have none.
fn moment_of(text: &str) -> Option<Option<u64>>
    ensures { MatchOption result ((moment : Option ℕ) → IfSome moment (λ turn. turn < 2 ^ 64) → text.now ≢ moment_text moment)
        (λ moment. text.now ≡ moment_text moment) }
{
    match text {
        "" => Some(None),
        some => Some(Some(number_of(some)?)),
    }
}
