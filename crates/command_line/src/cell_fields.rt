//! What is wrong with the cells of an `scx`.
use crate::field::{are_cells, or_nothing};
use csv::StringRecord;
use std::alloc::{AllocError, Global};
use texts::number_of;

/// What is wrong with the fields of an `scx` in a row, from this index on, and with which: its
/// cells, those of them that it finalizes, and its change.
pub(crate) fn scx_fault(
    alloc: Global,
    row: &StringRecord,
    first: usize,
) -> Result<Option<(usize, String)>, AllocError> {
    let cells = field_at(row, first);
    let finalized = field_at(row, first.saturating_add(1));
    let change = field_at(row, first.saturating_add(2));
    if !are_cells(cells) {
        return Ok(None);
    }
    if !is_part(finalized, cells) {
        return Ok(Some((1, part_fault(alloc, finalized, cells)?)));
    }
    if !is_change(change, cells) {
        return Ok(Some((2, change_fault(alloc, change, cells)?)));
    }
    Ok(None)
}

/// The cells to be finalized are no part of the cells.
fn part_fault(alloc: Global, finalized: &str, cells: &str) -> Result<String, AllocError> {
    format!(in alloc; "{finalized} in place of some of the cells {cells}, in their order")
}

/// The change is none of a field of one of the cells.
fn change_fault(alloc: Global, change: &str, cells: &str) -> Result<String, AllocError> {
    let shown = or_nothing(change);
    format!(in alloc;
        "{shown} in place of one of the cells {cells}, left or right, and a number, with spaces between"
    )
}

fn field_at(row: &StringRecord, place: usize) -> &str {
    match row.get(place) {
        Some(field) => field,
        None => "",
    }
}

/// Whether `whole` gives `part`, where some of its cells are left out.
fn is_part(part: &str, whole: &str) -> bool {
    let mut wanted = part.split(' ').filter(|cell| !cell.is_empty()).peekable();
    for cell in whole.split(' ') {
        if wanted.peek() == Some(&cell) {
            wanted.next();
        }
    }
    wanted.peek().is_none() && !part.contains("  ")
}

fn is_change(change: &str, cells: &str) -> bool {
    let mut fields = change.split(' ');
    let (cell, side, value) = (fields.next(), fields.next(), fields.next());
    let (Some(cell), Some(side), Some(value)) = (cell, side, value) else {
        return false;
    };
    fields.next().is_none()
        && cells.split(' ').any(|other| other == cell)
        && (side == "left" || side == "right")
        && number_of::<u64>(value).is_some()
}
