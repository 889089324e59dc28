//! The calls of a report's script, as rows say them.
ghost use Rattle.std.specs.Prelude.{◌≡◌, ◌≢◌, ◌≤◌, ◌<◌, ◌^◌, ◌-◌, ◌+◌, List, [], ◌∷◌, ◌++◌, ℕ, All, IfErr, IfNone, IfOk, IfSome, OnOk, codes, decimal, length, map, vec_len};
ghost use Rattle.arena.specs.Limits.{IsAccepted, IsLayoutOf};
ghost use Rattle.arena.specs.declared.limits.Limits.{Limits};
ghost use Rattle.script.specs.Commands.{command_row, texts};
ghost use Rattle.script.specs.declared.call.Call.{Call};
ghost use Rattle.report.specs.Counts.{HasCounted};
ghost use Rattle.texts.specs.Reads.{IsAtRow, last_row};
ghost use Rattle.texts.specs.Texts.{IfBad};
ghost use Rattle.report.specs.Report.{IsCallRow, call_rows, head_rows, reported_call_row, seven};
ghost use Rattle.report.specs.RowFaults.{IsFirstBadRow};
ghost use Rattle.report.specs.Spellings.{IsReported};

use crate::count::Counts;
use crate::fault::{NotLawful, RowFault};
use crate::name::client_of;
use crate::rows::{next_row, row_fields};
use crate::version::Version;
use arena::Layout;
use script::{Call, command_of};
use std::alloc::Global;
use std::io::Read;
use texts::{Rows, number_of};

/// How many calls a script may have.
const MOST_CALLS: usize = 65536;

/// Reads the calls from this row on, up to the first row that is none.
pub fn calls_of<R: Read + Drop>(
    alloc: Global,
    rows: &mut Rows<R>,
    layout: Layout,
    version: Version,
) -> Result<Vec<Call>, RowFault>
    ensures few { IfOk result (λ calls. vec_len calls ≤ 65536) }
    ensures accepted { IfOk result (λ calls. All (IsReported version layout.mode layout.passes) calls.items) }
    ensures number { rows.old.number ≡ 3 →
        IfOk result (λ calls. rows.new.number ≡ 3 + vec_len calls) }
    ensures behind { (bytes : List ℕ) (before : List (List (List ℕ))) → IsAtRow R.remaining bytes before 7 rows.old →
        OnOk result (¬ (IsCallRow (last_row rows.new))) }
    ensures rows { (bytes : List ℕ) (before : List (List (List ℕ))) → IsAtRow R.remaining bytes before 7 rows.old →
        IfOk result (λ calls. IsAtRow R.remaining bytes (before ++ map seven (call_rows [] calls.items)) 7 rows.new) }
    ensures fault { (bytes : List ℕ) (limits : Limits) → IsAccepted limits → IsLayoutOf limits layout.mode layout →
        IsAtRow R.remaining bytes (head_rows version layout.mode limits) 7 rows.old → rows.old.number ≡ 3 →
        IfErr result (IfBad (λ row _. IsFirstBadRow bytes row)) }
{
    let mut calls = Vec::new(alloc);
    let mut counts = Counts::new(alloc);
    while row_fields(rows)[0] == "call" {
        let call = next_call(rows, layout, version, &mut counts)?;
        if calls.len() == MOST_CALLS {
            return Err(rows.fault(NotLawful));
        }
        calls
            .extend_from_slice(&[call])
            .map_err(|_| RowFault::NoMemory)?;
        next_row(rows)?;
    }
    Ok(calls)
}

/// The call of this row, whose number is that of its client's calls so far.
fn next_call<R: Read + Drop>(
    rows: &Rows<R>,
    layout: Layout,
    version: Version,
    counts: &mut Counts,
) -> Result<Call, RowFault>
    ensures accepted { IfOk result (IsReported version layout.mode layout.passes) }
    ensures row { (earlier : List Call) → HasCounted counts.old earlier → length (last_row rows.now) ≡ 7 →
        IfOk result (λ call. last_row rows.now ≡ seven (reported_call_row earlier call)) }
    ensures counted { (earlier : List Call) → HasCounted counts.old earlier → length earlier < 2 ^ 64 - 1 →
        IfOk result (λ call. HasCounted counts.new (call ∷ earlier)) }
    ensures none { (earlier : List Call) → HasCounted counts.old earlier →
        length earlier < 2 ^ 64 → length (last_row rows.now) ≡ 7 →
        IfErr result (IfBad (λ row _. (row ≡ rows.now.number) ×
        ((call : Call) → IsReported version layout.mode layout.passes call →
        last_row rows.now ≢ seven (reported_call_row earlier call)))) }
{
    let Some((call, number)) = call_of(row_fields(rows), layout, version) else {
        return Err(rows.fault(NotLawful));
    };
    let Ok(before) = counts.count(call.client) else {
        return Err(RowFault::NoMemory);
    };
    if before != number {
        return Err(rows.fault(NotLawful));
    }
    Ok(call)
}

/// The call that a row says, and its number among the client's calls.
fn call_of(fields: [&str; 7], layout: Layout, version: Version) -> Option<(Call, u64)>
    ensures accepted { IfSome result (λ told. IsReported version layout.mode layout.passes told.0) }
    ensures fits { IfSome result (λ told. told.1 < 2 ^ 64) }
    ensures row { IfSome result (λ told. texts fields.entry ≡
        codes "call" ∷ decimal told.0.client.0 ∷ decimal told.1 ∷ command_row told.0.command) }
    ensures none { IfNone result ((call : Call) (number : ℕ) →
        IsReported version layout.mode layout.passes call → number < 2 ^ 64 →
        texts fields.entry ≢ codes "call" ∷ decimal call.client.0 ∷ decimal number ∷ command_row call.command) }
{
    let ["call", client, number, name, a, b, c] = fields else {
        return None;
    };
    let client = client_of(client)?;
    let number = number_of(number)?;
    let command = version.command(command_of(layout.mode, name, [a, b, c]).ok()?)?;
    if client.0 < layout.passes {
        Some((Call { client, command }, number))
    } else {
        None
    }
}
