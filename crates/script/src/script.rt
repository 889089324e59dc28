//! Scripts of calls.
ghost use Rattle.texts.specs.declared.fault.TextFault.{TextFault};
ghost use Rattle.std.specs.Prelude.{◌≡◌, ◌≢◌, ◌≤◌, ◌<◌, ◌^◌, ◌-◌, ℕ, List, [], ◌∷◌, Some, IfOk, IfErr, IfSome, IfNone, OnOk, IsErrOf, All, length, vec_len};
ghost use Rattle.script.specs.Grammars.{IsHeadFault, IsScriptFault, SayScript};
ghost use Rattle.texts.specs.Reads.{HasRead};
ghost use Rattle.texts.specs.Texts.{IfBad};
ghost use Rattle.arena.specs.Limits.{IsAccepted, IsLayoutOf};
ghost use Rattle.script.specs.Commands.{IsOfMode};
ghost use Rattle.csv.specs.Records.{fields_of};
ghost use Rattle.script.specs.Rows.{limits_row};

use crate::call::Call;
use crate::call_rows::CallRows;
use crate::fault::{ScriptCause, ScriptFault};
use arena::{Layout, Limits, Mode, NoMemory};
use csv::StringRecord;
use std::alloc::{AllocError, Global};
use std::io::Read;
use texts::{Metered, Rows, by_failure_count, field, small_number_of};

/// The limits of a table, and the calls of its clients in the order of the script.
#[derive(Debug, Drop)]
pub struct Script {
    /// The limits of its first row.
    pub limits: Limits,
    /// The table that they give.
    pub layout: Layout,
    /// The calls of all clients, at most 65,536.
    pub calls: Vec<Call>,
    ghost clients: { All (λ call. call.client.0 < layout.passes) calls.items },
    ghost few: { vec_len calls ≤ 65536 },
    ghost accepted: { IsAccepted limits },
    ghost of_limits: { IsLayoutOf limits layout.mode layout },
    ghost of_mode: { All (λ call. IsOfMode layout.mode call.command) calls.items },
}

impl Script {
    ghost use Rattle.std.specs.Prelude.{◌≡◌, IfOk};

    /// A copy of the script. The only error is want of memory.
    pub fn copy(&self, alloc: Global) -> Result<Script, NoMemory>
        ensures layout { IfOk result (λ s. s.layout ≡ self.now.layout) }
        ensures limits { IfOk result (λ s. s.limits ≡ self.now.limits) }
        ensures calls { IfOk result (λ s. s.calls.items ≡ self.now.calls.items) }
    {
        Ok(Script {
            limits: self.limits,
            layout: self.layout,
            calls: self.calls.as_slice().to_vec(alloc)?,
        })
    }
}

impl Clone for Script {
    ghost use Rattle.std.specs.Prelude.{◌≡◌};

    ghost is_clone = { λ s copy. (copy.layout ≡ s.layout) × (copy.limits ≡ s.limits) × (copy.calls.items ≡ s.calls.items) };

    fn clone(&self) -> Result<Script, AllocError> {
        match self.copy(*self.calls.allocator()) {
            Ok(copy) => Ok(copy),
            Err(NoMemory) => Err(AllocError),
        }
    }
}

/// Reads a script: its limits, its calls, and the end row that counts them. Nothing is kept of a
/// text that is refused.
pub fn read_script<R: Read>(
    alloc: Global,
    mode: Mode,
    from: &mut Metered<R>,
) -> Result<Script, ScriptFault>
    ensures mode { IfOk result (λ script. script.layout.mode ≡ mode) }

    // Of a reader whose bytes are known: the script is what they say, and a fault is their first.
    ensures says { (bytes : List ℕ) → R.remaining from.old.inner ≡ Some bytes → IfOk result
        (λ script. SayScript mode bytes script.limits script.layout script.calls.items) }
    ensures fault { (bytes : List ℕ) → R.remaining from.old.inner ≡ Some bytes →
        IfErr result (IfBad (IsScriptFault mode bytes)) }

    // Whether a read failed follows from the failure count, as long as it can rise.
    ensures ok { OnOk result (from.new.failures ≡ from.old.failures) }
    ensures read { IsErrOf result TextFault.Read → from.old.failures < 2 ^ 64 - 1 →
        from.new.failures ≢ from.old.failures }
    ensures failed { from.new.failures ≢ from.old.failures → IsErrOf result TextFault.Read }
{
    let before = from.failures;
    let script = script_of(alloc, mode, from);
    by_failure_count(script, before, from.failures)
}

fn script_of<R: Read>(
    alloc: Global,
    mode: Mode,
    from: &mut Metered<R>,
) -> Result<Script, ScriptFault>
    ensures mode { IfOk result (λ script. script.layout.mode ≡ mode) }
    ensures says { (bytes : List ℕ) → R.remaining from.old.inner ≡ Some bytes → IfOk result
        (λ script. SayScript mode bytes script.limits script.layout script.calls.items) }
    ensures fault { (bytes : List ℕ) → R.remaining from.old.inner ≡ Some bytes →
        IfErr result (IfBad (IsScriptFault mode bytes)) }
{
    let mut rows = Rows::new(alloc, from);
    let head = head_of(&mut rows, mode)?;
    let calls = rows.entries(alloc, &CallRows { layout: head.1 })?;
    Ok(Script {
        limits: head.0,
        layout: head.1,
        calls,
    })
}

/// Reads the first row.
fn head_of<R: Read + Drop>(rows: &mut Rows<R>, mode: Mode) -> Result<(Limits, Layout), ScriptFault>
    ensures accepted { IfOk result (λ head. IsAccepted head.0 × IsLayoutOf head.0 mode head.1) }
    ensures says { (bytes : List ℕ) → HasRead R.remaining bytes [] rows.old → IfOk result
        (λ head. HasRead R.remaining bytes (limits_row head.0 ∷ []) rows.new) }
    ensures number { rows.old.number ≡ 0 → rows.new.number ≡ 1 }
    ensures fault { (bytes : List ℕ) → HasRead R.remaining bytes [] rows.old → rows.old.number ≡ 0 → IfErr result
        (IfBad (λ row cause. (row ≡ 1) × IsHeadFault bytes cause)) }
{
    if !rows.advance(5)? {
        return Err(rows.fault(ScriptCause::End));
    }
    match limits_of(rows.row(), mode) {
        Some(head) => Ok(head),
        None => Err(rows.fault(ScriptCause::Limits)),
    }
}

/// What the first row says.
fn limits_of(row: &StringRecord, mode: Mode) -> Option<(Limits, Layout)>
    ensures accepted { IfSome result (λ r. IsAccepted r.0) }
    ensures layout { IfSome result (λ r. IsLayoutOf r.0 mode r.1) }
    ensures row { IfSome result (λ r. length (fields_of row.now) ≡ 5 →
        fields_of row.now ≡ limits_row r.0) }
    ensures none { IfNone result ((limits : Limits) → IsAccepted limits →
        fields_of row.now ≢ limits_row limits) }
{
    if field(row, 0) != "limits" {
        return None;
    }
    let limits = Limits {
        passes: small_number_of(field(row, 1))?,
        nodes: small_number_of(field(row, 2))?,
        scx: small_number_of(field(row, 3))?,
        tries: small_number_of(field(row, 4))?,
    };
    let layout = limits.check(mode).ok()?;
    Some((limits, layout))
}
