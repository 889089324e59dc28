//! What a field of a row has to be, and what is wrong with one that is not.
use std::alloc::{AllocError, Global};
use texts::number_of;

/// What a field has to be.
#[derive(Clone, Copy)]
pub(crate) enum Wanted {
    /// A number in these bounds.
    Number { least: u128, most: u128 },
    /// Such a number, or nothing.
    NumberOrNothing { most: u128 },
    /// One of these words, between spaces.
    OneOf(&'static str),
    /// Cells between spaces.
    Cells,
    /// An SCX-record.
    Scx,
    /// A word of the table; not one with the high half of a value, if there is none.
    TableWord { has_high: bool },
    Nothing,
    /// Whatever is said of it elsewhere.
    Text,
}

/// The words of a node and of an SCX-record.
const NODE_PARTS: &str = "head key value left right info marked more key1 value1 key2 value2 key3 \
    value3 high high1 high2 high3";

const SCX_PARTS: &str = "state allfrozen plan new old v0 v1 v2 v3 i0 i1 i2 i3 call";

/// A field: its name, and what it has to be.
#[derive(Clone, Copy)]
pub(crate) struct Field {
    pub(crate) name: &'static str,
    pub(crate) wanted: Wanted,
}

impl Field {
    /// A field with a number in these bounds.
    pub(crate) fn number(name: &'static str, least: u128, most: u128) -> Field {
        Field {
            name,
            wanted: Wanted::Number { least, most },
        }
    }

    /// What is wrong with what was found there, if anything is.
    pub(crate) fn fault(&self, alloc: Global, found: &str) -> Result<Option<String>, AllocError> {
        match self.wanted {
            Wanted::Number { least, most } => number_fault(alloc, found, least, most),
            Wanted::NumberOrNothing { most } if !found.is_empty() => {
                number_fault(alloc, found, 0, most)
            }
            wanted if wanted.takes(found) => Ok(None),
            wanted => Ok(Some(wanted.fault(alloc, found)?)),
        }
    }
}

impl Wanted {
    /// Whether this may stand there, where it is not asked for its bounds as a number.
    fn takes(self, found: &str) -> bool {
        match self {
            Wanted::OneOf(words) => has_word(words, found),
            Wanted::Cells => are_cells(found),
            Wanted::Scx => is_scx(found),
            Wanted::TableWord { has_high } => is_table_word(found, has_high),
            Wanted::Nothing => found.is_empty(),
            Wanted::Text | Wanted::Number { .. } | Wanted::NumberOrNothing { .. } => true,
        }
    }

    /// What is wrong with something else that was found there.
    fn fault(self, alloc: Global, found: &str) -> Result<String, AllocError> {
        let shown = or_nothing(found);
        match self {
            Wanted::OneOf(words) => words_fault(alloc, shown, words),
            Wanted::Cells => format!(in alloc;
                "{shown} in place of 1 to 4 different cells, from 1 to 8, with a space between two"
            ),
            Wanted::Scx => format!(in alloc; "{shown} in place of an SCX-record, as s1"),
            Wanted::TableWord { .. } => format!(in alloc;
                "{shown} in place of a word of the table, as n5.left or s2.state"
            ),
            _ => format!(in alloc; "{found} where nothing is wanted"),
        }
    }
}

/// What was found, in words where it is nothing.
pub(crate) fn or_nothing(found: &str) -> &str {
    if found.is_empty() { "nothing" } else { found }
}

fn has_word(words: &str, found: &str) -> bool {
    words.split(' ').any(|word| word == found)
}

fn words_fault(alloc: Global, shown: &str, words: &str) -> Result<String, AllocError> {
    if words.contains(' ') {
        format!(in alloc; "{shown} is none of these: {words}")
    } else {
        format!(in alloc; "{shown} in place of {words}")
    }
}

/// Whether these are one to four cells that differ.
pub(crate) fn are_cells(text: &str) -> bool {
    let mut many = 0;
    for (place, cell) in text.split(' ').enumerate() {
        let is_cell = matches!(number_of::<u64>(cell), Some(1..=8));
        if !is_cell || text.split(' ').take(place).any(|other| other == cell) {
            return false;
        }
        many = place;
    }
    many < 4
}

fn is_scx(text: &str) -> bool {
    match text.strip_prefix("s") {
        Some(number) => number_of::<u64>(number).is_some(),
        None => false,
    }
}

fn is_table_word(text: &str, has_high: bool) -> bool {
    let Some((record, part)) = text.split_once('.') else {
        return false;
    };
    if part.starts_with("high") && !has_high {
        return false;
    }
    match record.strip_prefix("n") {
        Some(number) => number_of::<u64>(number).is_some() && has_word(NODE_PARTS, part),
        None => is_scx(record) && has_word(SCX_PARTS, part),
    }
}

fn number_fault(
    alloc: Global,
    found: &str,
    least: u128,
    most: u128,
) -> Result<Option<String>, AllocError> {
    let shown = or_nothing(found);
    let text = match number_of::<u128>(found) {
        Some(number) if least <= number && number <= most => return Ok(None),
        _ if least == most => format!(in alloc; "{shown} in place of {most}")?,
        Some(number) if number < least => format!(in alloc; "{found} is below {least}")?,
        None if !is_digits(found) => format!(in alloc;
            "{shown} in place of a number in decimal digits, {least} to {most}"
        )?,
        _ => format!(in alloc; "{found} is above {most}")?,
    };
    Ok(Some(text))
}

/// Whether a text is the digits of a number, though it may be too large to be read.
fn is_digits(text: &str) -> bool {
    !text.starts_with("0") && !text.is_empty() && text.bytes().all(|byte| byte.is_ascii_digit())
}
