//! The files of the cases.
use anyhow::{Context, Result};
use std::alloc::{AllocError, Global};
use std::fs;
use std::rt::Files;

/// The text of a list of cases.
pub(crate) fn list_of<R: Files + AllocGlobal>(rt: &R, name: &str) -> Result<String> {
    fs::read_to_string(rt, name).context(name)
}

/// The text of a folder's file.
pub(crate) fn text_of<R: Files + AllocGlobal>(rt: &R, folder: &str, name: &str) -> Result<String> {
    let path = path_of(rt.alloc(), folder, name)?;
    fs::read_to_string(rt, path.as_str()).context(path.as_str())
}

/// The bytes of a folder's file.
pub(crate) fn file_of<R: Files + AllocGlobal>(rt: &R, folder: &str, name: &str) -> Result<Vec<u8>> {
    let path = path_of(rt.alloc(), folder, name)?;
    fs::read(rt, path.as_str()).context(path.as_str())
}

/// Whether a folder has a file of this name.
pub(crate) fn has_file<R: Files + AllocGlobal>(rt: &R, folder: &str, name: &str) -> Result<bool> {
    let path = path_of(rt.alloc(), folder, name)?;
    fs::exists(rt, path.as_str()).context(path.as_str())
}

fn path_of(alloc: Global, folder: &str, name: &str) -> Result<String, AllocError> {
    format!(in alloc; "{folder}/{name}")
}

/// A text with a new line for each `|`.
pub(crate) fn lines_of(alloc: Global, text: &str) -> Result<String, AllocError> {
    let mut lines = String::new(alloc);
    for (place, part) in text.split('|').enumerate() {
        if place > 0 {
            lines.push('\n')?;
        }
        lines.push_str(part)?;
    }
    Ok(lines)
}
