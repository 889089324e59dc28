//! Rows of labels, none of which lies over another.
use std::alloc::{AllocError, Global};

/// How many letters a label has at most.
const MOST_LETTERS: usize = 44;

/// What is left free between two labels of a row.
const GAP: f64 = 8.0;

/// Rows of labels, from the one next to what is labelled. The labels come from right to left, and
/// each gets the first row with room for it. A line from its left end passes the rows before that
/// one, so none of these has room there any more.
#[derive(Drop)]
pub(crate) struct LabelRows {
    /// Up to where each row has room.
    begins: Vec<f64>,
}

impl LabelRows {
    /// No rows yet.
    pub(crate) fn new(alloc: Global) -> LabelRows {
        LabelRows {
            begins: Vec::new(alloc),
        }
    }

    /// The row, from 0, of a label that reaches from there to there.
    pub(crate) fn place(&mut self, left: f64, right: f64) -> Result<usize, AllocError> {
        for (row, begin) in self.begins.iter_mut().enumerate() {
            let has_room = right + GAP <= *begin;
            *begin = left;
            if has_room {
                return Ok(row);
            }
        }
        let row = self.begins.len();
        self.begins.push(left)?;
        Ok(row)
    }

    /// How many rows there are.
    pub(crate) fn count(&self) -> usize {
        self.begins.len()
    }
}

/// A text, or its beginning where it is too long for a label.
pub(crate) fn shortened(alloc: Global, text: &str) -> Result<String, AllocError> {
    if text.chars().count() <= MOST_LETTERS {
        return String::from_str(alloc, text);
    }
    let mut short = String::new(alloc);
    for letter in text.chars().take(MOST_LETTERS - 1) {
        short.push(letter)?;
    }
    short.push('…')?;
    Ok(short)
}
