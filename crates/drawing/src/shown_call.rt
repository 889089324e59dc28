//! Calls as a picture shows them.
use crate::parts::TextPart::Text;
use crate::parts::joined;
use arena::PassNo;
use record::Finished;
use report::answer_text;
use script::{Command, CommandText};
use std::alloc::{AllocError, Global};

/// A call that has begun.
#[derive(Drop)]
pub(crate) struct ShownCall {
    pub(crate) client: PassNo,
    /// The numbers of its first and its last turn so far.
    pub(crate) begin: u64,
    pub(crate) end: u64,
    /// Where it took place, if it answered or changed something.
    pub(crate) moment: Option<u64>,
    /// Whether it is answered.
    pub(crate) is_answered: bool,
    /// Whether an update of its own has won.
    pub(crate) has_entry: bool,
    /// What it does, and what it has answered.
    pub(crate) text: String,
}

impl ShownCall {
    /// One with this text that a reply has answered.
    pub(crate) fn answered(
        alloc: Global,
        reply: &Finished,
        call: &str,
    ) -> Result<ShownCall, AllocError> {
        let answer = answer_text(alloc, &reply.answer)?;
        Ok(ShownCall {
            client: reply.client,
            begin: reply.begin,
            end: reply.end,
            moment: reply.moment,
            is_answered: true,
            has_entry: false,
            text: joined(alloc, &[Text(call), Text(" → "), Text(answer.as_str())])?,
        })
    }

    /// One with this text that is not answered, with its first and its newest turn.
    pub(crate) fn open(
        alloc: Global,
        client: PassNo,
        (begin, end): (u64, u64),
        call: &str,
    ) -> Result<ShownCall, AllocError> {
        Ok(ShownCall {
            client,
            begin,
            end,
            moment: None,
            is_answered: false,
            has_entry: false,
            text: joined(alloc, &[Text(call), Text(" …")])?,
        })
    }
}

/// The text of a call.
pub(crate) fn call_text(alloc: Global, command: &Command) -> Result<String, AllocError> {
    let told = CommandText::of(alloc, command)?;
    let mut text = String::from_str(alloc, told.name)?;
    add_fields(&mut text, &told, matches!(command, Command::Scx(_)))?;
    Ok(text)
}

/// Puts the fields of a command after its name; of an SCX those that are empty too.
fn add_fields(text: &mut String, told: &CommandText, is_scx: bool) -> Result<(), AllocError> {
    let between = if is_scx { " | " } else { " " };
    let mut gap = " ";
    for field in [&told.a, &told.b, &told.c] {
        if is_scx || !field.is_empty() {
            text.push_str(gap)?;
            text.push_str(field.as_str())?;
            gap = between;
        }
    }
    Ok(())
}
