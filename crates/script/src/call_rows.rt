//! The rows of a script that are calls.
ghost use Rattle.std.specs.Prelude.{◌≡◌, ◌<◌, length, refl, IfOk, IfErr};
ghost use Rattle.csv.specs.Records.{fields_of};
ghost use Rattle.script.specs.declared.call.Call.{Call};
ghost use Rattle.script.specs.Calls.{call_row, IsNoCall};
ghost use Rattle.script.specs.Grammars.{call_grammar};
ghost use Rattle.script.specs.Commands.{IsCommand, IsOfMode};

use crate::call::Call;
use crate::client::client_of;
use crate::command_rows::command_of;
use crate::fault::ScriptCause;
use arena::Layout;
use csv::StringRecord;
use texts::{Format, field};

/// Rows `client,command,a,b,c` of a script.
#[derive(Clone, Copy)]
pub(crate) struct CallRows {
    pub(crate) layout: Layout,
}

impl Format for CallRows {
    type Entry = Call;

    type Cause = ScriptCause;

    const WIDTH: usize = 5;

    ghost WIDTH = { 5 };

    ghost grammar = { λ rows. call_grammar rows.layout };

    fn entry(&self, row: &StringRecord) -> Result<Call, ScriptCause>
        ensures accepted { IfOk result (λ call. (call.client.0 < self.now.layout.passes) ×
            IsOfMode self.now.layout.mode call.command × IsCommand call.command) }
        ensures row { IfOk result (λ call. length (fields_of row.now) ≡ 5 →
            fields_of row.now ≡ call_row call) }
        ensures cause { IfErr result (λ cause. length (fields_of row.now) ≡ 5 →
            IsNoCall self.now.layout (fields_of row.now) cause) }
    {
        let client = client_of(field(row, 0), self.layout.passes).ok_or(ScriptCause::Client)?;
        let arguments = [field(row, 2), field(row, 3), field(row, 4)];
        let command = command_of(self.layout.mode, field(row, 1), arguments)?;
        Ok(Call { client, command })
    }

    ghost use Rattle.std.proofs.Common.{lit≤};

    ghost width = { λ _. (refl, lit≤ tt) };

    ghost causes = { λ _. (refl, refl, refl) };
}
