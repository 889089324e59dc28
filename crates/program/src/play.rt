//! The commands that play a script.
ghost use Rattle.std.specs.Prelude.{◌≡◌, ◌≢◌, ◌≤◌, ◌↔◌, ◌⊎◌, ℕ, List, IfErr, OnErr, OnOk, Some};
ghost use Rattle.program.specs.Printed.{HasPrinted, HasPrintedPart, IsDeserved};
ghost use Rattle.program.specs.Status.{CanRise, status_of};
ghost use Rattle.program.specs.declared.fault.Fault.{Fault};

use crate::fault::Fault;
use arena::Mode;
use player::follow;
use report::Stream;
use script::{read_schedule, read_script};
use std::alloc::Global;
use std::io::{Read, Write};
use texts::Metered;

/// Plays a script by a schedule, and prints the report to `out`; a fault goes to `err` as one line.
/// Answers the exit status: 0, 1 where the script or the schedule is refused, 3 for want of memory,
/// 4 where a read or a write failed. A refused script or schedule leaves `out` as it was.
pub fn play_over<S: Read, T: Read, O: Write, E: Write>(
    alloc: Global,
    mode: Mode,
    script: &mut Metered<S>,
    schedule: &mut Metered<T>,
    out: &mut Metered<O>,
    err: &mut E,
) -> u8
    // Of readers whose bytes are known: what is printed, and why a text is refused.
    ensures printed { (said ordered : List ℕ) →
        S.remaining script.old.inner ≡ Some said → T.remaining schedule.old.inner ≡ Some ordered →
        result ≡ 0 → HasPrinted mode said ordered (O.contents out.old.inner) (O.contents out.new.inner) }
    ensures deserved { (said ordered : List ℕ) →
        S.remaining script.old.inner ≡ Some said → T.remaining schedule.old.inner ≡ Some ordered →
        result ≡ 1 → (fault : Fault) × (status_of fault ≡ 1) × IsDeserved mode said ordered fault }

    // After a fault: nothing, or a beginning.
    ensures beginning { (said ordered : List ℕ) →
        S.remaining script.old.inner ≡ Some said → T.remaining schedule.old.inner ≡ Some ordered →
        result ≢ 0 → (out.new ≡ out.old) ⊎ HasPrintedPart mode said ordered (O.contents out.old.inner) (O.contents out.new.inner) }

    // 4 exactly if a read or a write failed, as their counts say while they can rise.
    ensures failed { CanRise script.old.failures → CanRise schedule.old.failures → CanRise out.old.failures →
        result ≡ 4 ↔ ((script.new.failures ≢ script.old.failures)
        ⊎ (schedule.new.failures ≢ schedule.old.failures) ⊎ (out.new.failures ≢ out.old.failures)) }

    ensures refused { result ≡ 1 → out.new ≡ out.old }
    ensures not_usage { result ≢ 2 }
    ensures status { result ≤ 4 }
{
    match play(alloc, mode, script, schedule, out) {
        Ok(()) => 0,
        Err(fault) => fault.print(err),
    }
}

fn play<S: Read, T: Read, O: Write>(
    alloc: Global,
    mode: Mode,
    script: &mut Metered<S>,
    schedule: &mut Metered<T>,
    out: &mut Metered<O>,
) -> Result<(), Fault>
    ensures printed { (said ordered : List ℕ) →
        S.remaining script.old.inner ≡ Some said → T.remaining schedule.old.inner ≡ Some ordered →
        OnOk result (HasPrinted mode said ordered (O.contents out.old.inner) (O.contents out.new.inner)) }
    ensures deserved { (said ordered : List ℕ) →
        S.remaining script.old.inner ≡ Some said → T.remaining schedule.old.inner ≡ Some ordered →
        IfErr result (IsDeserved mode said ordered) }
    ensures beginning { (said ordered : List ℕ) →
        S.remaining script.old.inner ≡ Some said → T.remaining schedule.old.inner ≡ Some ordered →
        OnErr result ((out.new ≡ out.old) ⊎ HasPrintedPart mode said ordered (O.contents out.old.inner) (O.contents out.new.inner)) }
    ensures well { OnOk result ((script.new.failures ≡ script.old.failures)
        × (schedule.new.failures ≡ schedule.old.failures) × (out.new.failures ≡ out.old.failures)) }
    ensures failed { CanRise script.old.failures → CanRise schedule.old.failures → CanRise out.old.failures →
        IfErr result (λ fault. status_of fault ≡ 4 ↔ ((script.new.failures ≢ script.old.failures)
        ⊎ (schedule.new.failures ≢ schedule.old.failures) ⊎ (out.new.failures ≢ out.old.failures))) }
    ensures refused { IfErr result (λ fault. status_of fault ≡ 1 → out.new ≡ out.old) }
    ensures not_usage { IfErr result (λ fault. status_of fault ≢ 2) }
{
    let script = read_script(alloc, mode, script)?;
    let schedule = read_schedule(alloc, &script, schedule)?;
    let mut stream = Stream::new(alloc, &script, out)?;
    follow(&mut stream, schedule.orders.as_slice(), out)?;
    stream.end(out)?;
    Ok(())
}
