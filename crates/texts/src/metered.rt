//! Readers and writers that count their failures.
ghost use Rattle.std.specs.Prelude.{◌≡◌, ◌+◌, ◌-◌, ◌^◌, ◌<◌, min, length, Ok, IfOk, OnOk, OnErr};
ghost use Rattle.std.specs.Io.{ReadsAtMost, WritesAtMost};
ghost use Rattle.std.specs.Io.KnownBytes.{Keeps, ReadConsumes, WriteAppends};

use std::io;
use std::io::{Read, Write};

/// A reader or a writer, and how often it has failed: by an error, or by a write that took none of
/// some bytes. The count stays at the largest `u64`.
#[derive(Debug, Drop)]
pub struct Metered<T> {
    /// The reader or writer within.
    pub inner: T,
    /// How often it has failed.
    pub failures: u64,
}

impl<T> Metered<T> {
    /// Counts the failures from now on.
    pub fn new(inner: T) -> Metered<T>
        ensures inner { result.inner ≡ inner }
        ensures failures { result.failures ≡ 0 }
    {
        Metered { inner, failures: 0 }
    }

    fn fail(&mut self)
        ensures inner { self.new.inner ≡ self.old.inner }
        ensures failures { self.new.failures ≡ min (self.old.failures + 1) (2 ^ 64 - 1) }
    {
        self.failures = self.failures.saturating_add(1);
    }
}

impl<T: Read> Read for Metered<T> {
    ghost remaining = { λ m. T.remaining m.inner };

    fn read(&mut self, buf: &mut [u8]) -> io::Result<usize>
        ensures bound { ReadsAtMost result buf.new }
        ensures bytes { ReadConsumes (T.remaining self.old.inner) (T.remaining self.new.inner) result buf.new }
        ensures ok { OnOk result (self.new.failures ≡ self.old.failures) }
        ensures err { OnErr result (self.new.failures ≡ min (self.old.failures + 1) (2 ^ 64 - 1)) }
    {
        let given = self.inner.read(buf);
        if given.is_err() {
            self.fail();
        }
        given
    }
}

impl<T: Write> Write for Metered<T> {
    ghost contents = { λ m. T.contents m.inner };

    fn write(&mut self, buf: &[u8]) -> io::Result<usize>
        ensures bound { WritesAtMost result buf.now }
        ensures bytes { WriteAppends (T.contents self.old.inner) (T.contents self.new.inner) result buf.now }

        // To take none of no bytes is no failure.
        ensures some { IfOk result (λ n. 0 < n → self.new.failures ≡ self.old.failures) }
        ensures no_bytes { OnOk result (length buf.now ≡ 0 →
            self.new.failures ≡ self.old.failures) }

        ensures none { 0 < length buf.now → result ≡ Ok 0 →
            self.new.failures ≡ min (self.old.failures + 1) (2 ^ 64 - 1) }
        ensures err { OnErr result (self.new.failures ≡ min (self.old.failures + 1) (2 ^ 64 - 1)) }
    {
        let taken = self.inner.write(buf);
        match &taken {
            Ok(0) if !buf.is_empty() => self.fail(),
            Ok(_) => {}
            Err(_) => self.fail(),
        }
        taken
    }

    fn flush(&mut self) -> io::Result<()>
        ensures bytes { Keeps (T.contents self.old.inner) (T.contents self.new.inner) }
        ensures ok { OnOk result (self.new.failures ≡ self.old.failures) }
        ensures err { OnErr result (self.new.failures ≡ min (self.old.failures + 1) (2 ^ 64 - 1)) }
    {
        let flushed = self.inner.flush();
        if flushed.is_err() {
            self.fail();
        }
        flushed
    }
}
