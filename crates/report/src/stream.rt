//! The report of a run, written while the run is played.
ghost use Rattle.std.specs.Prelude.{◌≡◌, ◌≢◌, ℕ, suc, ◌+◌, ◌-◌, ◌^◌, ◌<◌, List, [], Option, is_some, IfOk, IsTrue, OnErr, OnOk, min, reverse};
ghost use Rattle.std.specs.Io.KnownBytes.{Appends, Keeps};
ghost use Rattle.texts.specs.Pages.{BeginsWith};
ghost use Rattle.record.specs.Commands.{next_command};
ghost use Rattle.record.specs.Turns.{turns};
ghost use Rattle.script.specs.declared.script.Script.{Script};
ghost use Rattle.player.specs.Core.{IsNextTurn, StandsAt, passes_of, turns_made};
ghost use Rattle.player.specs.Player.{PlayerView, script_view};
ghost use Rattle.report.specs.Report.{report_text};
ghost use Rattle.report.specs.StreamFaults.{CountsStreamFault, stream_fault_of};
ghost use Rattle.report.specs.declared.stream.StreamFault.TheVariants as fault;

use crate::as_row::put_rows;
use crate::head::{put_end, put_head};
use crate::totals::Totals;
use crate::write::write_calls;
use arena::{NoMemory, PassNo};
use player::{Core, Lines, Plays, Turned};
use record::Line;
use script::Script;
use std::alloc::{AllocError, Global};
use std::io::Write;
use texts::{Metered, Sheet, WriteFault, send};
use thiserror::Error;

/// How much room the rows of one turn take at most: three rows, and in a reply 64 pairs of numbers.
const ROOM: usize = 4608;

/// Why a part of a report did not go out.
#[derive(Clone, Copy, Debug, PartialEq, Eq, Error)]
pub enum StreamFault {
    /// An allocation was refused.
    #[error("no memory")]
    NoMemory,
    /// The writer failed in this call.
    #[error("write failed")]
    Write,
    /// A call before this one has failed while it wrote.
    #[error("ended")]
    Ended,
}

impl From<WriteFault> for StreamFault {
    ghost from_gives = { λ given made. made ≡ stream_fault_of given };

    fn from(fault: WriteFault) -> StreamFault {
        match fault {
            WriteFault::NoMemory => StreamFault::NoMemory,
            WriteFault::Write => StreamFault::Write,
        }
    }
}

impl From<AllocError> for StreamFault {
    ghost from_gives = { λ _ made. made ≡ fault.NoMemory };

    fn from(_error: AllocError) -> StreamFault {
        StreamFault::NoMemory
    }
}

impl From<NoMemory> for StreamFault {
    ghost from_gives = { λ _ made. made ≡ fault.NoMemory };

    fn from(_fault: NoMemory) -> StreamFault {
        StreamFault::NoMemory
    }
}

/// Plays a script, one turn of a client at a time, and writes its report as it goes. It keeps no
/// line that was written. A writer is lent to each call; it flushes what the call has written.
#[derive(Drop)]
pub struct Stream {
    core: Core,
    alloc: Global,
    sheet: Sheet,
    /// The lines of the last turn.
    lines: Lines,
    totals: Totals,
    ended: bool,
}

impl Stream {
    ghost use Rattle.report.specs.Streams.{EndsByFaults, HasWrittenTurn, HasWritten, text_so_far};

    /// Writes the rows before the first turn: those of the format, the limits and the calls. After
    /// a fault what was written is a beginning of them. The faults are `NoMemory` and `Write`.
    pub fn new<W: Write>(
        alloc: Global,
        script: &Script,
        to: &mut Metered<W>,
    ) -> Result<Stream, StreamFault>
        ensures begun { IfOk result (λ stream. HasWritten stream (W.contents to.old.inner) (W.contents to.new.inner)
            record { script = script_view script.now; lines = [] }) }
        ensures beginning { OnErr result (BeginsWith (W.contents to.old.inner) (W.contents to.new.inner)
            (text_so_far record { script = script_view script.now; lines = [] })) }
        ensures failures { CountsStreamFault result to.old.failures to.new.failures }
        ensures not_ended { result ≢ Err StreamFault.Ended }
    {
        let core = Core::new(alloc, script)?;
        let mut sheet = Sheet::new(alloc);
        put_head(&mut sheet, script)?;
        send(sheet.text(), to)?;
        write_calls(alloc, &mut sheet, script.calls.as_slice(), to)?;
        flush(to)?;
        Ok(Stream {
            core,
            alloc,
            sheet,
            lines: Lines::new(),
            totals: Totals::none(),
            ended: false,
        })
    }

    /// One turn of a client, as `Core::step_into` makes it, and its lines, which are written, and
    /// are in `lines` until the next. If memory for them is refused before it, nothing has changed,
    /// and the same turn can be asked again. If a write fails, or memory is refused after the turn,
    /// what was written is a beginning of the report, and the stream has ended.
    pub fn turn<W: Write>(&mut self, client: PassNo, to: &mut Metered<W>) -> Result<(), StreamFault>
        requires client { client.0 < passes_of self.old.core }
        requires steps { turns_made self.old.core < 2 ^ 64 - 1 }
        ensures turn { OnOk result ((p : PlayerView) → StandsAt self.old.core p →
            IsNextTurn p client.0 self.new.lines.items) }
        ensures says { (start : Option (List ℕ)) (p : PlayerView) → HasWritten self.old start (W.contents to.old.inner) p →
            HasWrittenTurn self.new start (W.contents to.new.inner) p client.0 (to.new ≡ to.old) result }
        ensures ends { EndsByFaults self.old self.new (to.new ≡ to.old) result }
        ensures passes { passes_of self.new.core ≡ passes_of self.old.core }
        ensures counted { OnOk result (turns_made self.new.core ≡ suc (turns_made self.old.core)) }
        ensures failures { CountsStreamFault result to.old.failures to.new.failures }
    {
        if self.ended {
            return Err(StreamFault::Ended);
        }
        self.sheet.clear();
        self.sheet.make_room(ROOM)?;
        self.core.step_into(client, &mut self.lines)?;
        // The turn is made, and can't be asked again until its lines are out.
        self.ended = true;
        put_rows(&mut self.sheet, self.lines.as_slice())?;
        send(self.sheet.text(), to)?;
        flush(to)?;
        self.totals.count(self.lines.as_slice());
        self.ended = false;
        Ok(())
    }

    /// The lines of the last turn.
    pub fn lines(&self) -> &[Line]
        ensures { result.now ≡ self.now.lines.items }
    {
        self.lines.as_slice()
    }

    /// Writes the last row, which counts the others. After a fault what was written is a beginning
    /// of the report.
    pub fn end<W: Write>(self, to: &mut Metered<W>) -> Result<(), StreamFault>
        ensures all { (start : Option (List ℕ)) (p : PlayerView) (script : Script) →
            HasWritten self start (W.contents to.old.inner) p → script_view script ≡ p.script →
            OnOk result (Appends start (W.contents to.new.inner) (report_text script (reverse p.lines))) }
        ensures beginning { (start : Option (List ℕ)) (p : PlayerView) (script : Script) →
            HasWritten self start (W.contents to.old.inner) p → script_view script ≡ p.script →
            OnErr result (BeginsWith start (W.contents to.new.inner) (report_text script (reverse p.lines))) }
        ensures over { IsTrue self.ended → (result ≡ Err StreamFault.Ended) × (to.new ≡ to.old) }
        ensures why { result ≡ Err StreamFault.Ended → IsTrue self.ended }
        ensures failures { CountsStreamFault result to.old.failures to.new.failures }
    {
        let (alloc, totals, ended) = (self.alloc, self.totals, self.ended);
        drop(self);
        if ended {
            return Err(StreamFault::Ended);
        }
        let mut sheet = Sheet::new(alloc);
        put_end(&mut sheet, totals)?;
        send(sheet.text(), to)?;
        flush(to)?;
        Ok(())
    }

    /// How many turns were made so far.
    pub fn steps(&self) -> u64
        ensures steps { result ≡ turns_made self.now.core }
        ensures turns { (p : PlayerView) → StandsAt self.now.core p → result ≡ turns p.lines }
    {
        self.core.steps()
    }

    /// Whether a client has a call left.
    pub fn has_call(&self, client: PassNo) -> bool
        requires { client.0 < passes_of self.now.core }
        ensures { (p : PlayerView) → StandsAt self.now.core p →
            result ≡ is_some (next_command p.script.calls p.lines client.0) }
    {
        self.core.has_call(client)
    }
}

impl<W: Write> Plays<Metered<W>> for Stream {
    ghost use Rattle.report.specs.Streams.{HasBrokenOff, HasWritten};

    type Fault = StreamFault;

    ghost passes = { λ stream. passes_of stream.core };

    ghost left = { λ stream. 2 ^ 64 - 1 - turns_made stream.core };

    ghost behind = { λ start stream to p. HasWritten stream (W.contents start.inner) (W.contents to.inner) p × (to.failures ≡ start.failures) };

    ghost broken = { λ start stream to fault p. HasBrokenOff (W.contents start.inner) (W.contents to.inner) start.failures to.failures fault p };

    fn has_call(&self, client: PassNo) -> bool {
        self.core.has_call(client)
    }

    /// There is no memory for more turns than can be counted.
    fn turn(&mut self, client: PassNo, to: &mut Metered<W>) -> Result<Turned, StreamFault> {
        if self.steps() == u64::MAX {
            return Err(StreamFault::NoMemory);
        }
        self.turn(client, to)?;
        Ok(Turned::of(self.lines()))
    }
}

fn flush<W: Write>(to: &mut Metered<W>) -> Result<(), WriteFault>
    ensures bytes { Keeps (W.contents to.old.inner) (W.contents to.new.inner) }
    ensures ok { OnOk result (to.new.failures ≡ to.old.failures) }
    ensures err { OnErr result (to.new.failures ≡ min (to.old.failures + 1) (2 ^ 64 - 1)) }
    ensures why { OnErr result (result ≡ Err WriteFault.Write) }
{
    to.flush().map_err(|_| WriteFault::Write)
}
