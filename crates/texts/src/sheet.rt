//! Text that is written into room made before.
ghost use Rattle.std.specs.Prelude.{◌≡◌, ◌≤◌, ◌+◌, [], ◌++◌, OnOk, decimal, length, take, vec_len};
ghost use Rattle.std.specs.Str.{IsUtf8};

use crate::digits::digits_in;
use itoa::{Buffer, write_digits};
use std::alloc::{AllocError, Global};

/// Text, and room after it. Room is made once for many bytes, and names and numbers are then put in
/// place: nothing is written twice, and nothing fails.
#[derive(Drop)]
pub struct Sheet {
    bytes: Vec<u8>,
    end: usize,
    ghost within: { end ≤ vec_len bytes },
    ghost utf8: { ∥ IsUtf8 (take end bytes.items) ∥₁ },
}

impl Sheet {
    ghost use Rattle.texts.specs.Sheets.{IsPlain, sheet_room, sheet_text};

    /// No text, and no room.
    pub fn new(alloc: Global) -> Sheet
        ensures text { sheet_text result ≡ [] }
        ensures room { sheet_room result ≡ 0 }
    {
        Sheet {
            bytes: Vec::new(alloc),
            end: 0,
        }
    }

    /// The text.
    pub fn text(&self) -> &[u8]
        ensures { result.now ≡ sheet_text self.now }
    {
        &self.bytes[..self.end]
    }

    /// The same as a `str`.
    pub fn as_str(&self) -> &str
        ensures { result.now ≡ sheet_text self.now }
    {
        match str::from_utf8(self.text()) {
            Ok(text) => text,
            Err(_) => unreachable!(),
        }
    }

    /// Takes the text away, and keeps the room.
    pub fn clear(&mut self)
        ensures text { sheet_text self.new ≡ [] }
        ensures room { sheet_room self.new ≡ sheet_room self.old + length (sheet_text self.old) }
    {
        self.end = 0;
    }

    /// Makes room for this many bytes, if there is not as much.
    #[inline]
    pub fn make_room(&mut self, room: usize) -> Result<(), AllocError>
        ensures room { OnOk result (room ≤ sheet_room self.new) }
        ensures kept { sheet_room self.old ≤ sheet_room self.new }
        ensures text { sheet_text self.new ≡ sheet_text self.old }
    {
        if room <= self.bytes.len() - self.end {
            return Ok(());
        }
        self.grow(room)
    }

    fn grow(&mut self, room: usize) -> Result<(), AllocError>
        ensures room { OnOk result (room ≤ sheet_room self.new) }
        ensures kept { sheet_room self.old ≤ sheet_room self.new }
        ensures text { sheet_text self.new ≡ sheet_text self.old }
    {
        let Some(wanted) = self.end.checked_add(room) else {
            return Err(AllocError);
        };
        let wanted = wanted.max(self.bytes.len());
        self.bytes.resize(wanted, 0)
    }

    /// Puts a text after the one that is there.
    #[inline]
    pub fn put(&mut self, text: &str)
        requires { length text.now ≤ sheet_room self.old }
        ensures text { sheet_text self.new ≡ sheet_text self.old ++ text.now }
        ensures room { sheet_room self.new + length text.now ≡ sheet_room self.old }
    {
        let end = self.end + text.len();
        self.bytes[self.end..end].copy_from_slice(text.as_bytes());
        self.end = end;
    }

    /// The same, with room that is made for it.
    pub fn push(&mut self, text: &str) -> Result<(), AllocError>
        ensures { OnOk result (sheet_text self.new ≡ sheet_text self.old ++ text.now) }
    {
        self.make_room(text.len())?;
        self.put(text);
        Ok(())
    }

    /// Puts the digits of a number after the text that is there.
    #[inline]
    pub fn number(&mut self, n: u64)
        requires { 20 ≤ sheet_room self.old }
        ensures text { sheet_text self.new ≡ sheet_text self.old ++ decimal n }
        ensures room { sheet_room self.new + length (decimal n) ≡ sheet_room self.old }
        ensures short { length (decimal n) ≤ 20 }
        ensures plain { IsPlain (decimal n) }
    {
        let end = self.end + digits_in(n);
        write_digits(n, self.bytes.as_mut_slice(), end);
        self.end = end;
    }

    /// Puts the digits of a number of up to two words after the text that is there.
    #[inline]
    pub fn wide_number(&mut self, n: u128)
        requires { 39 ≤ sheet_room self.old }
        ensures text { sheet_text self.new ≡ sheet_text self.old ++ decimal n }
        ensures room { sheet_room self.new + length (decimal n) ≡ sheet_room self.old }
        ensures short { length (decimal n) ≤ 39 }
        ensures plain { IsPlain (decimal n) }
    {
        match u64::try_from(n) {
            Ok(word) => self.number(word),
            Err(_) => self.put(Buffer::new().format(n)),
        }
    }
}
