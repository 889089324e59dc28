//! The audit of a record.
ghost use Rattle.std.specs.Prelude.{◌≡◌, ◌+◌, ℕ, Err, OnOk, length, reverse};
ghost use Rattle.record.specs.Common.{IsLawfulRun, clients};
ghost use Rattle.audit.specs.Faults.{MayBeAtFault};

use crate::fault::{AuditFault, LineFault};
use crate::run::Replay;
use crate::watch::{Unwatched, Watch};
use record::Record;
use script::Script;
use std::alloc::Global;

/// Says whether a record is one of a lawful run: each line fits those before it, and after the last
/// nothing is owed. Otherwise the fault names the first row of the record's report that does not.
/// Nothing is played again.
pub fn audit(alloc: Global, record: &Record) -> Result<(), AuditFault>
    ensures lawful { OnOk result
        (IsLawfulRun «record».now.script.layout «record».now.script.limits.tries «record».now.script.calls.items
        (reverse (clients (reverse «record».now.lines.items))) «record».now.lines.items) }

    // No line before the row that a fault names is at fault.
    ensures fault { (row : ℕ) → result ≡ Err (AuditFault.NotLawful row) →
        MayBeAtFault «record».now row }
{
    audit_watched(alloc, record, &mut Unwatched)
}

/// The same, and says how many of the lines it has judged.
pub fn audit_watched<W: Watch>(
    alloc: Global,
    record: &Record,
    watch: &mut W,
) -> Result<(), AuditFault>
    ensures lawful { OnOk result
        (IsLawfulRun «record».now.script.layout «record».now.script.limits.tries «record».now.script.calls.items
        (reverse (clients (reverse «record».now.lines.items))) «record».now.lines.items) }
    ensures fault { (row : ℕ) → result ≡ Err (AuditFault.NotLawful row) →
        MayBeAtFault «record».now row }
{
    let first = first_row(&record.script);
    let mut run = match Replay::new(alloc, record) {
        Ok(run) => run,
        Err(refused) => return Err(refused.at(first, 0)),
    };
    for at in 0..record.lines.len() {
        if let Err(refused) = run.line() {
            return Err(refused.at(first, at));
        }
        watch.reached(at as u64);
    }
    if let Err(refused) = run.finish() {
        return Err(refused.at(first, record.lines.len()));
    }
    Ok(())
}

/// The row of a report in which the first line of the run is: after its head, the limits and
/// the calls.
fn first_row(script: &Script) -> u64
    ensures { result ≡ length script.now.calls.items + 3 }
{
    (script.calls.len() as u64).saturating_add(3)
}
