//! Short names.
ghost use Rattle.std.specs.Prelude.{◌≡◌, ◌≢◌, ◌↔◌, ℕ, true, List, IsSome, IsNone, IfSome, ◌==◌};
ghost use Rattle.std.specs.List.{list_all};
ghost use Rattle.std.specs.Char.{is_ascii_graphic};
ghost use Rattle.dict.specs.Names.{IsName, is_padded, is_name_word, name_word};

use std::fmt;

/// A name of up to 8 visible ASCII characters, from `!` to `~`; the empty one too. Names are in the
/// order of texts: by their first character, and so on; a beginning comes before the whole.
#[derive(Clone, Copy, Debug, PartialEq, Eq, PartialOrd, Ord)]
pub struct Name8 {
    word: u64,
    ghost spelled: { is_name_word word ≡ true },
}

impl Name8 {
    /// The name of this text, if it is one's: `Name8::new("ada")` is some, `Name8::new("a b")` and
    /// that of nine characters are none.
    pub fn new(text: &str) -> Option<Name8>
        ensures valid { IsSome result ↔ IsName text.now }
        ensures word { IfSome result (λ n. n.word ≡ name_word text.now) }
    {
        let letters = text.as_bytes();
        if letters.len() > 8 || !are_letters(letters) {
            return None;
        }
        let mut bytes = [0; 8];
        bytes[..letters.len()].copy_from_slice(letters);
        Some(Name8 {
            word: u64::from_be_bytes(bytes),
        })
    }

    /// The name of this word, if it is a name's: the word of a text that `new` takes.
    pub(crate) fn of_word(word: u64) -> Option<Name8>
        ensures some { IfSome result (λ n. n.word ≡ word) }
        ensures text { IfSome result (λ n. (bs : List ℕ) × IsName bs × (n.word ≡ name_word bs)) }
        ensures none { IsNone result → is_name_word word ≢ true }
    {
        if !is_padded(word.to_be_bytes().as_slice()) {
            return None;
        }
        Some(Name8 { word })
    }

    /// The word of it: its characters, the first most significant, and zero bytes after them.
    pub(crate) fn to_word(self) -> u64
        ensures { result ≡ self.word }
    {
        self.word
    }
}

/// Whether these bytes are visible ASCII characters.
fn are_letters(bytes: &[u8]) -> bool
    ensures { result ≡ list_all is_ascii_graphic bytes.now }
{
    bytes.iter().all(|byte| byte.is_ascii_graphic())
}

/// Whether these bytes are zeros.
fn are_zeros(bytes: &[u8]) -> bool
    ensures { result ≡ list_all (λ b. b == 0) bytes.now }
{
    bytes.iter().all(|byte| *byte == 0)
}

/// Whether these bytes are visible ASCII characters, and zeros after them.
fn is_padded(bytes: &[u8]) -> bool
    ensures { result ≡ is_padded bytes.now }
{
    match bytes {
        [] => true,
        [first, rest @ ..] => {
            if *first == 0 {
                are_zeros(rest)
            } else {
                first.is_ascii_graphic() && is_padded(rest)
            }
        }
    }
}

impl fmt::Display for Name8 {
    fn fmt<W: fmt::Write>(&self, f: &mut fmt::Formatter<W>) -> fmt::Result {
        for byte in self.word.to_be_bytes() {
            if byte != 0 {
                f.write_char(char::from(byte))?;
            }
        }
        Ok(())
    }
}
