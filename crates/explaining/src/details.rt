//! What is said of a line that is refused: words, in which a detail stands for each `#`. A `format!`
//! is proved in each body that has one: here each kind of detail is written in one place, and only
//! where a line is refused.
use crate::breach::{Breach, Objection};
use crate::lines_before::LinesBefore;
use crate::map_before::MapPairs;
use crate::words::{call_words, put_pairs, put_share};
use arena::{PassNo, Word};
use record::Answer;
use report::{answer_text, word_text};
use std::alloc::AllocError;

/// What stands for a `#`.
#[derive(Clone, Copy)]
pub(crate) enum Detail<'a> {
    Text(&'a str),
    Number(u64),
    /// A number that may be above all keys.
    Wide(u128),
    Node(u64),
    Scx(u64),
    Client(PassNo),
    /// The next call of a client: its number, and what it does.
    Call(PassNo),
    /// A word, by its name.
    Named(Word),
    Told(&'a Answer),
    Pairs(&'a MapPairs),
    /// A share: the letter of its nodes or SCX-records, the first of them, and how many.
    Share(&'a str, u32, u32),
}

impl LinesBefore<'_> {
    /// Objects to a field of a line, in these words.
    pub(crate) fn object(&self, field: usize, words: &str, details: &[Detail<'_>]) -> Objection {
        match self.text_of(words, details) {
            Ok(text) => Objection::Breaks(Breach { field, text }),
            Err(AllocError) => Objection::NoMemory,
        }
    }

    /// The same, unless this holds of it.
    pub(crate) fn demand(
        &self,
        fits: bool,
        field: usize,
        words: &str,
        details: &[Detail<'_>],
    ) -> Result<(), Objection> {
        if fits {
            return Ok(());
        }
        Err(self.object(field, words, details))
    }

    /// A number of a line is the one that is wanted, which is this.
    pub(crate) fn demand_same(
        &self,
        field: usize,
        found: u64,
        wanted: u64,
        what: &str,
    ) -> Result<(), Objection> {
        let details = [
            Detail::Number(found),
            Detail::Number(wanted),
            Detail::Text(what),
        ];
        self.demand(found == wanted, field, "# in place of #, #", &details)
    }

    /// These words, with each detail in its place.
    pub(crate) fn text_of(
        &self,
        words: &str,
        details: &[Detail<'_>],
    ) -> Result<String, AllocError> {
        let mut text = String::new(self.alloc);
        let mut left = details.iter();
        for piece in words.split('#') {
            text.push_str(piece)?;
            if let Some(detail) = left.next() {
                self.put(&mut text, *detail)?;
            }
        }
        Ok(text)
    }

    fn put(&self, text: &mut String, detail: Detail<'_>) -> Result<(), AllocError> {
        match detail {
            Detail::Text(words) => text.push_str(words),
            Detail::Number(number) => write!(text, "{number}"),
            Detail::Wide(number) => write!(text, "{number}"),
            Detail::Node(node) => write!(text, "n{node}"),
            Detail::Scx(scx) => write!(text, "s{scx}"),
            Detail::Client(pass) => write!(text, "client {}", pass.0),
            Detail::Call(pass) => text.push_str(call_words(self, pass)?.as_str()),
            Detail::Named(word) => text.push_str(word_text(self.alloc, word)?.as_str()),
            Detail::Told(answer) => text.push_str(answer_text(self.alloc, answer)?.as_str()),
            Detail::Pairs(pairs) => put_pairs(text, pairs),
            Detail::Share(letter, first, many) => put_share(text, letter, first, many),
        }
    }
}
