//! Why a text is refused.
use texts::{Cause, TextFault};
use thiserror::Error;

/// Why a script was refused.
pub type ScriptFault = TextFault<ScriptCause>;

/// Why a schedule was refused.
pub type ScheduleFault = TextFault<ScheduleCause>;

/// What is wrong with a row of a script, in the order in which it is looked for.
#[derive(Clone, Copy, Debug, PartialEq, Eq, Error)]
pub enum ScriptCause {
    /// Another number of fields, or no text.
    #[error("fields")]
    Fields,
    /// The first row says no limits that are accepted.
    #[error("limits")]
    Limits,
    /// The first field is the number of no client.
    #[error("client")]
    Client,
    /// The second field names no command of the mode.
    #[error("command")]
    Command,
    /// The arguments do not fit the command.
    #[error("argument")]
    Argument,
    /// The end row is missing or wrong, or a row comes after it.
    #[error("end")]
    End,
    /// The 65,537th call.
    #[error("long")]
    Long,
}

/// What is wrong with a row of a schedule, in the order in which it is looked for.
#[derive(Clone, Copy, Debug, PartialEq, Eq, Error)]
pub enum ScheduleCause {
    /// Another number of fields, or no text.
    #[error("fields")]
    Fields,
    /// The first field names no order.
    #[error("command")]
    Command,
    /// The second field is the number of no client.
    #[error("client")]
    Client,
    /// The third field is no kind of step where the order has one, or is not empty elsewhere.
    #[error("kind")]
    Kind,
    /// The fourth field is no number from 1 to 1,000,000 where
    /// the order has one, or is not empty elsewhere.
    #[error("number")]
    Number,
    /// The end row is missing or wrong, or a row comes after it.
    #[error("end")]
    End,
    /// The 65,537th order.
    #[error("long")]
    Long,
}

impl Cause for ScriptCause {
    ghost use Rattle.script.specs.declared.fault.ScriptCause.{ScriptCause};

    const FIELDS: ScriptCause = ScriptCause::Fields;

    ghost FIELDS = { ScriptCause.Fields };

    const END: ScriptCause = ScriptCause::End;

    ghost END = { ScriptCause.End };

    const LONG: ScriptCause = ScriptCause::Long;

    ghost LONG = { ScriptCause.Long };
}

impl Cause for ScheduleCause {
    ghost use Rattle.script.specs.declared.fault.ScheduleCause.{ScheduleCause};

    const FIELDS: ScheduleCause = ScheduleCause::Fields;

    ghost FIELDS = { ScheduleCause.Fields };

    const END: ScheduleCause = ScheduleCause::End;

    ghost END = { ScheduleCause.End };

    const LONG: ScheduleCause = ScheduleCause::Long;

    ghost LONG = { ScheduleCause.Long };
}
