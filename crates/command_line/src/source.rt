//! The texts that the program for people reads, and where it writes.
ghost use Rattle.std.specs.Prelude.{◌≤◌, IfOk, length};

use crate::complaint::Complaint;
use clap::ArgMatches;
use std::alloc::Global;
use std::io::{Input, Read, Write};
use std::rt::Files;
use std::{fs, io};

/// A text that has been read, and what it is called.
#[derive(Drop)]
pub(crate) struct Source<'a> {
    pub(crate) name: &'a str,
    pub(crate) bytes: Vec<u8>,
}

impl<'a> Source<'a> {
    /// The file that is given for this argument, or standard input if that is `-`.
    pub(crate) fn of<R: Files + Input + AllocGlobal>(
        rt: &R,
        given: &ArgMatches<'a>,
        argument: &str,
    ) -> Result<Source<'a>, Complaint> {
        let name = given.get_str(argument).unwrap_or("-");
        let (name, bytes) = match name {
            "-" => ("standard input", all_of(rt.alloc(), rt.reader())),
            _ => (name, fs::read(rt, name)),
        };
        match bytes {
            Ok(bytes) => Ok(Source { name, bytes }),
            Err(error) => Err(unread(rt.alloc(), name, &error)),
        }
    }
}

fn all_of<I: Read>(alloc: Global, mut from: I) -> io::Result<Vec<u8>>
where
    I: Drop,
{
    let mut bytes = Vec::new(alloc);
    from.read_to_end(&mut bytes)?;
    Ok(bytes)
}

/// What is said of a file that cannot be read or written.
fn unread(alloc: Global, name: &str, error: &io::Error) -> Complaint {
    match format!(in alloc; "{name}: {error}") {
        Ok(text) if error.kind() != io::ErrorKind::OutOfMemory => Complaint::File(text),
        _ => Complaint::NoMemory,
    }
}

/// A file that is made once something is written: a command that is refused leaves the old one.
#[derive(Drop)]
pub(crate) struct LateFile<'a, R: Files> {
    rt: &'a R,
    name: &'a str,
    file: Option<R::File>,
    /// Why it could not be made or written.
    fault: Option<io::Error>,
}

impl<'a, R: Files> LateFile<'a, R> {
    /// The file of this name.
    pub(crate) fn new(rt: &'a R, name: &'a str) -> LateFile<'a, R> {
        LateFile {
            rt,
            name,
            file: None,
            fault: None,
        }
    }

    /// What is said of the file after a write to it that has failed.
    pub(crate) fn unwritten(&self, alloc: Global) -> Complaint {
        match &self.fault {
            Some(error) => unread(alloc, self.name, error),
            None => Complaint::Write,
        }
    }

    fn write_late(&mut self, buf: &[u8]) -> io::Result<usize>
        ensures { IfOk result (λ written. written ≤ length buf.now) }
    {
        match &mut self.file {
            Some(file) => file.write(buf),
            None => {
                let mut file = fs::create(self.rt, self.name)?;
                let written = file.write(buf);
                self.file = Some(file);
                written
            }
        }
    }
}

impl<R: Files> Write for LateFile<'_, R> {
    fn write(&mut self, buf: &[u8]) -> io::Result<usize> {
        match self.write_late(buf) {
            Ok(written) => Ok(written),
            Err(error) => {
                let kind = error.kind();
                self.fault = Some(error);
                Err(io::Error::from(kind))
            }
        }
    }

    fn flush(&mut self) -> io::Result<()> {
        match &mut self.file {
            Some(file) => file.flush(),
            None => Ok(()),
        }
    }
}
