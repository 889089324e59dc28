//! Turns without a step.
use crate::breach::Objection;
use crate::details::Detail::Call;
use crate::lines_before::LinesBefore;
use crate::steps::{check_number, check_pass};
use arena::PassNo;

const KIND: usize = 3;

/// A turn without a step is of a client with no call left, or all of a call.
pub(crate) fn check_idle(
    before: &LinesBefore<'_>,
    number: u64,
    pass: PassNo,
) -> Result<(), Objection> {
    check_pass(before, pass)?;
    check_number(before, number)?;
    if before.next(pass).is_none() {
        return Ok(());
    }
    check_not_begun(before, pass)
}

/// A call that has not begun may be answered without a step, but its reply is to follow. This is
/// asked last, so it is what is broken.
fn check_not_begun(before: &LinesBefore<'_>, pass: PassNo) -> Result<(), Objection> {
    let text = "#, has begun, and makes a step in each of its turns";
    let details = [Call(pass)];
    before.demand(before.client(pass).begun.is_none(), KIND, text, &details)?;
    let text = "#, is not answered, so a turn without a step is all of it, and in the next row \
        is its reply, with an answer that needs no step";
    Err(before.object(KIND, text, &[Call(pass)]))
}
