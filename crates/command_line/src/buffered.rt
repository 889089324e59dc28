//! A report that goes out in large pieces.
ghost use Rattle.std.specs.Prelude.{◌≤◌};

use arena::Mode;
use audit::Watch;
use program::{Fault, play_over};
use std::alloc::Global;
use std::io;
use std::io::{BufWriter, Read, Write};
use texts::Metered;

/// A writer that passes on all that is written, and no flush: so a buffer below it goes out once it
/// is full, though each turn of a play is flushed by itself. Somebody is told how many turns have
/// been flushed: the first flush is that of what is before them.
#[derive(Drop)]
struct Unflushed<W, T> {
    inner: W,
    watch: T,
    flushed: u64,
}

impl<W: Write, T: Watch> Write for Unflushed<W, T> {
    ghost contents = { λ u. W.contents u.inner };

    fn write(&mut self, buf: &[u8]) -> io::Result<usize> {
        self.inner.write(buf)
    }

    fn flush(&mut self) -> io::Result<()> {
        self.watch.reached(self.flushed);
        self.flushed = self.flushed.saturating_add(1);
        Ok(())
    }
}

/// Plays the first of these texts, a script, by the second, a schedule, as `play_over` does, with a
/// buffer before `out`. It goes out in the end, also after a fault: then too `out` has a beginning of
/// the report.
pub(crate) fn play_buffered<S: Read + Drop, T: Read + Drop, W: Watch + Drop, O: Write, E: Write>(
    alloc: Global,
    mode: Mode,
    texts: (S, T),
    watch: W,
    out: &mut O,
    err: &mut E,
) -> u8
    ensures { result ≤ 4 }
{
    let mut to = match BufWriter::new(alloc, out) {
        Ok(inner) => {
            let flushed = 0;
            Metered::new(Unflushed {
                inner,
                watch,
                flushed,
            })
        }
        Err(error) => return Fault::from(error).print(err),
    };
    let (mut script, mut schedule) = (Metered::new(texts.0), Metered::new(texts.1));
    let status = play_over(alloc, mode, &mut script, &mut schedule, &mut to, err);
    if to.inner.inner.flush().is_err() && status == 0 {
        return Fault::Write.print(err);
    }
    status
}
