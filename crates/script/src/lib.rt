//! Scripts of calls and schedules of turns, as csv rows say them.
#![tactic(auto)]

mod call;
mod call_rows;
mod cells;
mod client;
mod command;
mod command_rows;
mod fault;
mod kind;
mod schedule;
mod script;

pub use call::Call;
pub use cells::{Cell, CellList};
pub use command::{CellUpdate, Command};
pub use command_rows::{CommandText, command_of};
pub use fault::{ScheduleCause, ScheduleFault, ScriptCause, ScriptFault};
pub use kind::{kind_name, kind_of};
pub use schedule::{Order, Schedule, read_schedule};
pub use script::{Script, read_script};
pub use texts::{FailAt, Metered, TextFault};
