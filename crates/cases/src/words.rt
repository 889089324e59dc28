//! Words of the command line.
use crate::ended::ProgramEnd;
use crate::expected::Expected;
use crate::files::lines_of;
use crate::finding::Finding;
use anyhow::{Context, Result};
use command_line::{people_words, run_words};
use std::alloc::{AllocError, Global};
use std::io::Input;
use std::rt::Files;
use std::sync::Wait;
use std::thread::Threads;
use std::time::Clock;

/// The words after the name of `cli`, or those of `rnb` with its name, which one space parts; the
/// fault that it is to print, if there is one; and else its output. `|` is a new line.
#[derive(Clone, Copy)]
pub(crate) struct WordsCase<'a> {
    words: &'a str,
    fault: &'a str,
    output: &'a str,
}

impl<'a> WordsCase<'a> {
    /// What a line says, with a `;` between any two of these.
    pub(crate) fn of(line: &'a str) -> Result<WordsCase<'a>> {
        let (words, rest) = line.split_once(';').context(line)?;
        let (fault, output) = rest.split_once(';').context(line)?;
        Ok(WordsCase {
            words,
            fault,
            output,
        })
    }

    /// How the program ends with them.
    pub(crate) fn find<R: Files + Input + Clock + AllocGlobal + Threads + Wait + Sync>(
        self,
        rt: &R,
    ) -> Result<Finding> {
        let alloc = rt.alloc();
        let ended = if self.words.starts_with("rnb ") {
            people_end(rt, self.words)?
        } else {
            let (mut out, mut err) = (Vec::new(alloc), Vec::new(alloc));
            let words = all_words(alloc, "regnubas ", self.words)?;
            let status = run_words(rt, words.as_slice(), &mut out, &mut err);
            ProgramEnd { status, out, err }
        };
        Ok(self.expected(alloc)?.compare(alloc, &ended)?)
    }

    fn expected(self, alloc: Global) -> Result<Expected, AllocError> {
        let fault = self.fault;
        Ok(if fault.is_empty() {
            Expected::Output(lines_of(alloc, self.output)?.into_bytes())
        } else {
            let lines = lines_of(alloc, fault)?;
            Expected::Fault(format!(in alloc; "{lines}\n")?.into_bytes())
        })
    }
}

/// How `rnb` ends with these words, the first of which is its name.
pub(crate) fn people_end<R: Files + Input + Clock + AllocGlobal + Threads + Wait + Sync>(
    rt: &R,
    words: &str,
) -> Result<ProgramEnd<Vec<u8>>> {
    let alloc = rt.alloc();
    let (mut out, mut err) = (Vec::new(alloc), Vec::new(alloc));
    let words = all_words(alloc, "", words)?;
    let status = people_words(rt, words.as_slice(), &mut out, &mut err);
    Ok(ProgramEnd { status, out, err })
}

/// All words of these two texts.
fn all_words(alloc: Global, name: &str, words: &str) -> Result<Vec<String>, AllocError> {
    let mut all = Vec::new(alloc);
    for word in name.split_whitespace().chain(words.split_whitespace()) {
        all.push(String::from_str(alloc, word)?)?;
    }
    Ok(all)
}
