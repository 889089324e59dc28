//! The command that audits a report.
ghost use Rattle.std.specs.Prelude.{◌≡◌, ◌≢◌, ◌≤◌, ◌↔◌, ◌⊎◌, ℕ, List, IfErr, OnOk, Some};
ghost use Rattle.std.specs.Io.KnownBytes.{Appends};
ghost use Rattle.program.specs.Audited.{IsDeservedByReport, IsRefusedFor, IsReportOfLawfulRun, lawful_line};
ghost use Rattle.program.specs.Status.{CanRise, status_of};

use crate::fault::Fault;
use audit::audit;
use report::read_record;
use std::alloc::Global;
use std::io::{Read, Write};
use texts::{Metered, send};

/// Reads a report, audits its record, and prints `lawful` to `out` where it is one of a lawful run;
/// a fault goes to `err` as one line. Answers the exit status: 0, 1 where a row is refused, 3 for
/// want of memory, 4 where a read or a write failed. A refused report leaves `out` as it was.
pub fn audit_over<R: Read, O: Write, E: Write>(
    alloc: Global,
    report: &mut Metered<R>,
    out: &mut Metered<O>,
    err: &mut E,
) -> u8
    // Of a reader whose bytes are known.
    ensures lawful { (told : List ℕ) → R.remaining report.old.inner ≡ Some told → result ≡ 0 →
        IsReportOfLawfulRun told }
    ensures deserved { (told : List ℕ) → R.remaining report.old.inner ≡ Some told → result ≡ 1 →
        (row : ℕ) × IsRefusedFor told row }

    // 4 exactly if a read or a write failed, as their counts say while they can rise.
    ensures failed { CanRise report.old.failures → CanRise out.old.failures →
        result ≡ 4 ↔ ((report.new.failures ≢ report.old.failures) ⊎ (out.new.failures ≢ out.old.failures)) }

    ensures says { result ≡ 0 →
        Appends (O.contents out.old.inner) (O.contents out.new.inner) lawful_line }
    ensures refused { result ≡ 1 → out.new ≡ out.old }
    ensures not_usage { result ≢ 2 }
    ensures status { result ≤ 4 }
{
    match audit_report(alloc, report, out) {
        Ok(()) => 0,
        Err(fault) => fault.print(err),
    }
}

fn audit_report<R: Read, O: Write>(
    alloc: Global,
    report: &mut Metered<R>,
    out: &mut Metered<O>,
) -> Result<(), Fault>
    ensures lawful { (told : List ℕ) → R.remaining report.old.inner ≡ Some told →
        OnOk result (IsReportOfLawfulRun told) }
    ensures deserved { (told : List ℕ) → R.remaining report.old.inner ≡ Some told →
        IfErr result (IsDeservedByReport told) }
    ensures well { OnOk result
        ((report.new.failures ≡ report.old.failures) × (out.new.failures ≡ out.old.failures)) }
    ensures failed { CanRise report.old.failures → CanRise out.old.failures →
        IfErr result (λ fault. status_of fault ≡ 4 ↔
        ((report.new.failures ≢ report.old.failures) ⊎ (out.new.failures ≢ out.old.failures))) }
    ensures says { OnOk result (Appends (O.contents out.old.inner) (O.contents out.new.inner) lawful_line) }
    ensures refused { IfErr result (λ fault. status_of fault ≡ 1 → out.new ≡ out.old) }
    ensures not_usage { IfErr result (λ fault. status_of fault ≢ 2) }
{
    let record = read_record(alloc, report)?;
    audit(alloc, &record)?;
    send(b"lawful\n", out)?;
    Ok(())
}
