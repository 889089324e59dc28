//! The rows of a text that has been read.
use crate::source::Source;
use csv::{Reader, ReaderBuilder, StringRecord};
use std::alloc::{AllocError, Global};

/// What is found where a row is looked for.
#[derive(Drop)]
pub(crate) enum FoundRow {
    /// A row with these fields.
    Row(StringRecord),
    /// A row that is no UTF-8.
    NoText,
    /// The text has ended before.
    Missing,
}

/// The rows of a text, from the first on.
pub(crate) fn rows_of<'a>(alloc: Global, source: &'a Source<'_>) -> Reader<&'a [u8]> {
    ReaderBuilder::new()
        .has_headers(false)
        .flexible(true)
        .from_reader(alloc, source.bytes.as_slice())
}

/// A row of a text, counted from 1.
pub(crate) fn row_of(alloc: Global, source: &Source<'_>, row: u64) -> FoundRow {
    let mut rows = rows_of(alloc, source);
    let mut found = StringRecord::new(alloc);
    for _ in 0..row {
        match rows.read_record(&mut found) {
            Ok(true) => {}
            Ok(false) => return FoundRow::Missing,
            Err(_) => return FoundRow::NoText,
        }
    }
    FoundRow::Row(found)
}

/// The row again.
pub(crate) fn row_text(alloc: Global, row: &StringRecord) -> Result<String, AllocError> {
    let mut text = String::new(alloc);
    for (place, field) in row.iter().enumerate() {
        if place > 0 {
            text.push(',')?;
        }
        text.push_str(field)?;
    }
    Ok(text)
}
