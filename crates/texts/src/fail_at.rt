//! Readers and writers that fail in mid-stream, for tests.
ghost use Rattle.std.specs.Prelude.{◌≡◌, ◌+◌, IsErr, IfOk, OnErr};
ghost use Rattle.std.specs.Io.{ReadsAtMost, WritesAtMost};
ghost use Rattle.std.specs.Io.KnownBytes.{Keeps, ReadConsumes, WriteAppends};

use std::io;
use std::io::{ErrorKind, Read, Write};

/// Passes this many bytes to or from another reader or writer, and then fails each read and write.
/// A read or write of more bytes than are left is cut to them; a flush is passed on.
#[derive(Debug, Drop)]
pub struct FailAt<T> {
    /// The reader or writer within.
    pub inner: T,
    /// How many bytes it still passes.
    pub left: usize,
}

impl<T> FailAt<T> {
    /// Passes `left` bytes from now on.
    pub fn new(inner: T, left: usize) -> FailAt<T>
        ensures inner { result.inner ≡ inner }
        ensures left { result.left ≡ left }
    {
        FailAt { inner, left }
    }
}

impl<T: Read> Read for FailAt<T> {
    ghost remaining = { λ f. T.remaining f.inner };

    fn read(&mut self, buf: &mut [u8]) -> io::Result<usize>
        ensures bound { ReadsAtMost result buf.new }
        ensures bytes { ReadConsumes (T.remaining self.old.inner) (T.remaining self.new.inner) result buf.new }
        ensures ok { IfOk result (λ n. self.new.left + n ≡ self.old.left) }
        ensures err { OnErr result (self.new.left ≡ self.old.left) }
        ensures fails { self.old.left ≡ 0 → IsErr result }
    {
        if self.left == 0 {
            return Err(ErrorKind::Other.into());
        }
        let most = self.left.min(buf.len());
        let given = self.inner.read(&mut buf[..most])?;
        self.left -= given;
        Ok(given)
    }
}

impl<T: Write> Write for FailAt<T> {
    ghost contents = { λ f. T.contents f.inner };

    fn write(&mut self, buf: &[u8]) -> io::Result<usize>
        ensures bound { WritesAtMost result buf.now }
        ensures bytes { WriteAppends (T.contents self.old.inner) (T.contents self.new.inner) result buf.now }
        ensures ok { IfOk result (λ n. self.new.left + n ≡ self.old.left) }
        ensures err { OnErr result (self.new.left ≡ self.old.left) }
        ensures fails { self.old.left ≡ 0 → IsErr result }
    {
        if self.left == 0 {
            return Err(ErrorKind::Other.into());
        }
        let most = self.left.min(buf.len());
        let taken = self.inner.write(&buf[..most])?;
        self.left -= taken;
        Ok(taken)
    }

    fn flush(&mut self) -> io::Result<()>
        ensures bytes { Keeps (T.contents self.old.inner) (T.contents self.new.inner) }
        ensures left { self.new.left ≡ self.old.left }
    {
        self.inner.flush()
    }
}
