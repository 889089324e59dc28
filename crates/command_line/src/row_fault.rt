//! What is wrong with a row of a text.
use crate::cell_fields::scx_fault;
use crate::field::Field;
use crate::sheet_rows::{FoundRow, row_of, row_text};
use crate::source::Source;
use csv::StringRecord;
use std::alloc::{AllocError, Global};

/// How many calls, or rows of a schedule, there are at most.
const MOST_ENTRIES: u64 = 65_536;

/// What is wrong, and with which field of the row, if it is one of them.
#[derive(Drop)]
pub(crate) struct RowFault {
    pub(crate) field: Option<usize>,
    /// The name of the field, if it has one.
    pub(crate) name: &'static str,
    pub(crate) text: String,
}

/// What a row of a script or a schedule is to be.
#[derive(Clone, Copy)]
pub(crate) struct Form<'a, 'b> {
    pub(crate) fields: &'a [Field],
    /// Of a row behind the head, how many entries are before it, and the end row that is to be behind
    /// these.
    pub(crate) entry: Option<(u64, &'b str)>,
    /// Where the arguments of an `scx` begin.
    pub(crate) scx_at: Option<usize>,
}

impl RowFault {
    /// One of the whole row.
    fn of_row(text: String) -> RowFault {
        RowFault {
            field: None,
            name: "",
            text,
        }
    }

    /// One of the field at this place.
    fn of_field(fields: &[Field], place: usize, text: String) -> RowFault {
        RowFault {
            field: Some(place),
            name: name_at(fields, place),
            text,
        }
    }
}

/// The name of the field at a place.
pub(crate) fn name_at(fields: &[Field], place: usize) -> &'static str {
    match fields.get(place) {
        Some(field) => field.name,
        None => "",
    }
}

/// What is wrong with a row of a script or a schedule.
pub(crate) fn fault_of(
    alloc: Global,
    source: &Source<'_>,
    row: u64,
    found: &StringRecord,
    form: &Form<'_, '_>,
) -> Result<RowFault, AllocError> {
    if let Some(fault) = form_fault(alloc, source, row, found, form.fields.len())? {
        return Ok(fault);
    }
    if let Some((before, end)) = form.entry
        && let Some(fault) = entry_fault(alloc, found, before, end)?
    {
        return Ok(fault);
    }
    field_fault(alloc, found, form.fields, form.scx_at)
}

/// What is wrong with a row that is not there, or no text, of a text whose first row and whose last
/// are to be these.
pub(crate) fn absent_fault(
    alloc: Global,
    found: &FoundRow,
    row: u64,
    first: &str,
    last: &str,
) -> Result<RowFault, AllocError> {
    let text = match (found, row) {
        (FoundRow::NoText, _) => String::from_str(alloc, "no UTF-8")?,
        (_, 1) => format!(in alloc; "there is no row, and the first is {first}")?,
        _ => format!(in alloc; "there is no such row, and the last is {last}")?,
    };
    Ok(RowFault::of_row(text))
}

/// What is wrong with a row of so many fields, if its form is at fault, or its place behind the end
/// row.
pub(crate) fn form_fault(
    alloc: Global,
    source: &Source<'_>,
    row: u64,
    found: &StringRecord,
    width: usize,
) -> Result<Option<RowFault>, AllocError> {
    let count = found.len();
    if count != width {
        let text = format!(in alloc; "{count} fields in place of {width}")?;
        return Ok(Some(RowFault::of_row(text)));
    }
    match row_of(alloc, source, row.saturating_sub(1)) {
        FoundRow::Row(before) if before.get(0) == Some("end") && row > 1 => {
            let text = String::from_str(alloc, "a row after the end row")?;
            Ok(Some(RowFault::of_row(text)))
        }
        _ => Ok(None),
    }
}

/// What is wrong with an entry of a text behind so many others, or with its end row.
fn entry_fault(
    alloc: Global,
    found: &StringRecord,
    before: u64,
    end: &str,
) -> Result<Option<RowFault>, AllocError> {
    if found.get(0) == Some("end") {
        let text = row_text(alloc, found)?;
        let text = format!(in alloc; "{text} in place of {end}")?;
        return Ok(Some(RowFault::of_row(text)));
    }
    if before == MOST_ENTRIES {
        let text = format!(in alloc; "more than {MOST_ENTRIES} rows before the end row")?;
        return Ok(Some(RowFault::of_row(text)));
    }
    Ok(None)
}

/// The first field that is not what it has to be; of an `scx`, whose arguments begin at an index,
/// these are looked at last. What else is at fault is the last field.
pub(crate) fn field_fault(
    alloc: Global,
    found: &StringRecord,
    fields: &[Field],
    scx_at: Option<usize>,
) -> Result<RowFault, AllocError> {
    for (place, field) in fields.iter().enumerate() {
        if let Some(text) = field.fault(alloc, found.get(place).unwrap_or(""))? {
            return Ok(RowFault::of_field(fields, place, text));
        }
    }
    if let Some(first) = scx_at
        && let Some((place, text)) = scx_fault(alloc, found, first)?
    {
        return Ok(RowFault::of_field(fields, first.saturating_add(place), text));
    }
    let last = fields.len().saturating_sub(1);
    let shown = found.get(last).unwrap_or("");
    let text = format!(in alloc; "{shown} is not of one of the forms in docs/FORMATS.md")?;
    Ok(RowFault::of_field(fields, last, text))
}
