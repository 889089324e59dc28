//! Texts that are joined from parts. They are put into the picture as they are, so no text is made
//! of them before.
use itoa::Buffer;
use std::alloc::{AllocError, Global};

/// A part of a text.
#[derive(Clone, Copy)]
pub(crate) enum TextPart<'a> {
    Text(&'a str),
    Number(u64),
    /// A number of two words.
    Wide(u128),
    /// A number, or its first and last digits where it is too long for a small place.
    Short(u128),
    /// A length in the picture, to a tenth.
    Length(f64),
    /// The same to a whole.
    Rounded(f64),
}

/// Some parts, one after another.
pub(crate) fn joined(alloc: Global, parts: &[TextPart]) -> Result<String, AllocError> {
    let mut text = String::new(alloc);
    add(&mut text, parts)?;
    Ok(text)
}

/// Puts some parts after a text.
pub(crate) fn add(text: &mut String, parts: &[TextPart]) -> Result<(), AllocError> {
    for part in parts {
        match *part {
            TextPart::Text(more) => text.push_str(more)?,
            TextPart::Number(number) => text.push_str(Buffer::new().format(number))?,
            TextPart::Wide(number) => text.push_str(Buffer::new().format(number))?,
            TextPart::Short(number) => add_short(text, number)?,
            TextPart::Length(length) => write!(text, "{length:.1}")?,
            TextPart::Rounded(length) => write!(text, "{length:.0}")?,
        }
    }
    Ok(())
}

fn add_short(text: &mut String, number: u128) -> Result<(), AllocError> {
    let mut buffer = Buffer::new();
    let digits = buffer.format(number);
    if number < 1_000_000 {
        return text.push_str(digits);
    }
    for (place, digit) in digits.chars().enumerate() {
        if place == 2 {
            text.push('…')?;
        }
        if place < 2 || digits.len() <= place.saturating_add(3) {
            text.push(digit)?;
        }
    }
    Ok(())
}

/// How many digits a number has.
pub(crate) fn digits_of(number: u64) -> usize {
    Buffer::new().format(number).len()
}
