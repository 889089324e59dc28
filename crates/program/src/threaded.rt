//! The command that runs a script with threads.
ghost use Rattle.std.specs.Prelude.{◌≡◌, ◌≢◌, ◌≤◌, ◌↔◌, ◌⊎◌, ℕ, List, IfErr, IsErrOf, OnOk, Some};
ghost use Rattle.arena.specs.Layout.{IsMap};
ghost use Rattle.template.specs.Balance.{map_mode};
ghost use Rattle.histories.specs.Common.{Mode as ModeOf};
ghost use Rattle.program.specs.Status.{CanRise, status_of};
ghost use Rattle.runner.specs.Gates.{IsGate};
ghost use Rattle.program.specs.Threaded.{HasPrintedRun, HasRun, IsDeservedWithThreads};
ghost use Rattle.program.specs.declared.fault.Fault.{Fault};

use crate::fault::Fault;
use arena::Mode;
use report::write_outcome;
use runner::{Alternate, Freeze, Gate, GateName, Hold, Open, run};
use script::{Script, read_script};
use std::alloc::Global;
use std::io::{Read, Write};
use std::sync::Wait;
use std::thread::Threads;
use texts::Metered;

/// Runs a script of a map, a tree or a trie, with a thread for each client and the gate of this
/// name, and prints the outcome to `out`; a fault goes to `err` as one line. Answers the exit
/// status: 0, 1 where the script is refused, 2 for a gate of no such name, 3 for want of memory, 4
/// where a read or a write failed. A refused script, or gate, leaves `out` as it was.
pub fn run_over<R: AllocGlobal + Threads + Wait + Sync, S: Read, O: Write, E: Write>(
    rt: &R,
    trie: bool,
    gate: &str,
    script: &mut Metered<S>,
    out: &mut Metered<O>,
    err: &mut E,
) -> u8
    // Of a reader whose bytes are known: what is printed, and why a text is refused.
    ensures printed { (said : List ℕ) → S.remaining script.old.inner ≡ Some said →
        result ≡ 0 → HasPrintedRun (map_mode trie) said (O.contents out.old.inner) (O.contents out.new.inner) }
    ensures deserved { (said : List ℕ) → S.remaining script.old.inner ≡ Some said →
        result ≡ 1 → (fault : Fault) × (status_of fault ≡ 1) × IsDeservedWithThreads (map_mode trie) gate.now said fault }

    // 4 exactly if a read or a write failed, as their counts say while they can rise.
    ensures failed { CanRise script.old.failures → CanRise out.old.failures →
        result ≡ 4 ↔ ((script.new.failures ≢ script.old.failures) ⊎ (out.new.failures ≢ out.old.failures)) }

    ensures gate { result ≡ 2 ↔ ¬ (IsGate gate.now) }
    ensures refused { (result ≡ 1) ⊎ (result ≡ 2) → out.new ≡ out.old }
    ensures status { result ≤ 4 }
{
    match run_gated(rt, rt.alloc(), trie, gate, script, out) {
        Ok(()) => 0,
        Err(fault) => fault.print(err),
    }
}

/// Runs a script with the gate of this name.
fn run_gated<R: Threads + Wait + Sync, S: Read, O: Write>(
    rt: &R,
    alloc: Global,
    trie: bool,
    gate: &str,
    script: &mut Metered<S>,
    out: &mut Metered<O>,
) -> Result<(), Fault>
    ensures printed { (said : List ℕ) → S.remaining script.old.inner ≡ Some said →
        OnOk result (HasPrintedRun (map_mode trie) said (O.contents out.old.inner) (O.contents out.new.inner)) }
    ensures deserved { (said : List ℕ) → S.remaining script.old.inner ≡ Some said →
        IfErr result (IsDeservedWithThreads (map_mode trie) gate.now said) }
    ensures well { OnOk result
        ((script.new.failures ≡ script.old.failures) × (out.new.failures ≡ out.old.failures)) }
    ensures failed { CanRise script.old.failures → CanRise out.old.failures →
        IfErr result (λ fault. status_of fault ≡ 4 ↔
        ((script.new.failures ≢ script.old.failures) ⊎ (out.new.failures ≢ out.old.failures))) }
    ensures bad_gate { ¬ (IsGate gate.now) → IsErrOf result Fault.BadGate }
    ensures gate { IfErr result (λ fault. status_of fault ≡ 2 → ¬ (IsGate gate.now)) }
    ensures refused { IfErr result (λ fault. status_of fault ≡ 1 → out.new ≡ out.old) }
    ensures idle { IfErr result (λ fault. status_of fault ≡ 2 → out.new ≡ out.old) }
{
    let Some(name) = GateName::of(gate) else {
        return Err(Fault::BadGate);
    };
    let script = read_script(alloc, mode_of(trie), script)?;
    match name {
        GateName::Open => run_at(rt, alloc, &script, &Open::new(&script), out),
        GateName::Alternate => run_at(rt, alloc, &script, &Alternate::new(&script), out),
        GateName::Hold => run_at(rt, alloc, &script, &Hold::new(&script), out),
        GateName::Freeze => run_at(rt, alloc, &script, &Freeze::new(&script), out),
    }
}

/// The mode of a map that is a trie, or is not.
#[tactic(auto, using(crate::proofs::MapModes::of_map))]
fn mode_of(trie: bool) -> Mode
    ensures mode { result ≡ map_mode trie }
    ensures map { IsMap result }
{
    if trie { Mode::Trie } else { Mode::Tree }
}

/// Runs a script of a map with a thread for each client and this gate, and prints the outcome to
/// `out`.
pub fn run_at<R: Threads + Wait + Sync, G: Gate, O: Write>(
    rt: &R,
    alloc: Global,
    script: &Script,
    gate: &G,
    out: &mut Metered<O>,
) -> Result<(), Fault>
    requires map { IsMap script.now.layout.mode }
    ensures printed { OnOk result (HasRun script.now (O.contents out.old.inner) (O.contents out.new.inner)) }
    ensures deserved { (mode : ModeOf) (name said : List ℕ) → IfErr result (IsDeservedWithThreads mode name said) }
    ensures late { IfErr result (λ fault. 3 ≤ status_of fault) }
    ensures well { OnOk result (out.new.failures ≡ out.old.failures) }
    ensures failed { CanRise out.old.failures →
        IfErr result (λ fault. status_of fault ≡ 4 ↔ (out.new.failures ≢ out.old.failures)) }
{
    let outcome = run(rt, alloc, script, gate)?;
    let (replies, pairs) = (outcome.replies.as_slice(), outcome.pairs.as_slice());
    write_outcome(alloc, gate.missed(), replies, pairs, out)?;
    Ok(())
}
