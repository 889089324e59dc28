//! Reports that are written turn by turn, to writers that fail.
ghost use Rattle.std.specs.Prelude.{◌≡◌, ◌<◌, Some};
ghost use Rattle.player.specs.Core.{passes_of};

use arena::{Mode, PassNo};
use report::{Stream, StreamFault};
use script::{Script, ScriptFault, read_script};
use std::alloc::Global;
use std::io;
use std::io::Write;
use std::process::Abort;
use std::test::Fail;
use texts::{FailAt, Metered};

/// No client of these scripts makes as many turns.
const MOST_TURNS: u32 = 100;

const GET: &str = "limits,1,10,10,3\n0,get,0,,\nend,1,,,\n";

/// Its whole report; the first three lines come before the first turn.
const REPORT_OF_GET: &str = "\
    report,2,tree,,,,\n\
    limits,1,10,10,3,,\n\
    call,0,0,get,0,,\n\
    step,1,0,settled,n0.head,2,2\n\
    step,2,0,child,n0.left,1,1\n\
    step,3,0,settled,n1.head,13,13\n\
    reply,0,0,1,3,3,none\n\
    end,3,1,0,,,\n";

/// Updates and a validation, two of them of cells without a snapshot.
const UNLINKED: &str = "\
    limits,1,10,10,1\n\
    0,llx,1,,\n\
    0,scx,1 2,,1 left 5\n\
    0,llx,2,,\n\
    0,scx,1 2,,1 left 5\n\
    0,vlx,1,,\n\
    end,5,,,\n";

/// Their report, with turns that make no step.
const REPORT_OF_UNLINKED: &str = "\
    report,2,records,,,,\n\
    limits,1,10,10,1,,\n\
    call,0,0,llx,1,,\n\
    call,0,1,scx,1 2,,1 left 5\n\
    call,0,2,llx,2,,\n\
    call,0,3,scx,1 2,,1 left 5\n\
    call,0,4,vlx,1,,\n\
    step,1,0,marked,n1.marked,0,0\n\
    step,2,0,info,n1.info,0,0\n\
    step,3,0,state,s0.state,2,2\n\
    step,4,0,marked,n1.marked,0,0\n\
    step,5,0,child,n1.left,0,0\n\
    step,6,0,child,n1.right,0,0\n\
    step,7,0,info,n1.info,0,0\n\
    reply,0,0,1,7,7,snap 0 0\n\
    step,8,0,idle,,,\n\
    reply,0,1,8,8,,unlinked n2\n\
    step,9,0,marked,n2.marked,0,0\n\
    step,10,0,info,n2.info,0,0\n\
    step,11,0,state,s0.state,2,2\n\
    step,12,0,marked,n2.marked,0,0\n\
    step,13,0,child,n2.left,0,0\n\
    step,14,0,child,n2.right,0,0\n\
    step,15,0,info,n2.info,0,0\n\
    reply,0,2,9,15,15,snap 0 0\n\
    step,16,0,fill,n9.value,0,5\n\
    step,17,0,fill,s1.plan,0,2\n\
    step,18,0,fill,s1.new,0,9\n\
    step,19,0,fill,s1.old,0,0\n\
    step,20,0,fill,s1.v0,0,1\n\
    step,21,0,fill,s1.v1,0,2\n\
    step,22,0,fill,s1.i0,0,0\n\
    step,23,0,fill,s1.i1,0,0\n\
    step,24,0,fill,s1.call,0,3\n\
    step,25,0,settled,s1.plan,2,2\n\
    step,26,0,settled,s1.v0,1,1\n\
    step,27,0,settled,s1.i0,0,0\n\
    step,28,0,freeze,n1.info,0,1\n\
    step,29,0,settled,s1.v1,2,2\n\
    step,30,0,settled,s1.i1,0,0\n\
    step,31,0,freeze,n2.info,0,1\n\
    step,32,0,frozen,s1.allfrozen,0,1\n\
    step,33,0,settled,s1.new,9,9\n\
    step,34,0,settled,s1.old,0,0\n\
    step,35,0,update,n1.left,0,9\n\
    log,1,35,s1,0,3,\n\
    step,36,0,commit,s1.state,0,1\n\
    reply,0,3,16,36,35,done\n\
    step,37,0,idle,,,\n\
    reply,0,4,37,37,,unlinked n1\n\
    end,37,5,1,,,\n";

/// Fails where a `FailAt` does, but once: from then on it takes all.
#[derive(Drop)]
struct FailOnce<W> {
    inner: FailAt<W>,
}

impl<W: Write> Write for FailOnce<W> {
    ghost contents = { λ f. W.contents f.inner.inner };

    fn write(&mut self, buf: &[u8]) -> io::Result<usize> {
        let taken = self.inner.write(buf);
        if taken.is_err() {
            self.inner.left = usize::MAX;
        }
        taken
    }

    fn flush(&mut self) -> io::Result<()> {
        self.inner.flush()
    }
}

/// One turn.
fn turn<W: Write>(
    rt: &impl Abort,
    stream: &mut Stream,
    client: PassNo,
    to: &mut Metered<W>,
) -> Result<(), StreamFault>
    requires { client.0 < passes_of stream.old.core }
    ensures { passes_of stream.new.core ≡ passes_of stream.old.core }
{
    assert!(rt; stream.steps() < u64::MAX);
    stream.turn(client, to)
}

/// The turns of a client until it has no call left. After a fault no more is written.
fn finish(
    rt: &impl Abort,
    stream: &mut Stream,
    client: PassNo,
    to: &mut Metered<FailOnce<Vec<u8>>>,
) -> Result<(), StreamFault>
    requires { client.0 < passes_of stream.old.core }
    ensures { passes_of stream.new.core ≡ passes_of stream.old.core }
{
    for _ in 0..MOST_TURNS {
        if !stream.has_call(client) {
            break;
        }
        if let Err(fault) = turn(rt, stream, client, to) {
            // It takes more bytes from here on, and gets none.
            let again = turn(rt, stream, client, to).err();
            assert_eq!(rt; again, Some(StreamFault::Ended));
            return Err(fault);
        }
    }
    Ok(())
}

/// All clients finish, one after the other.
fn write(
    rt: &impl Abort,
    alloc: Global,
    script: &Script,
    to: &mut Metered<FailOnce<Vec<u8>>>,
) -> Result<(), StreamFault> {
    let mut stream = Stream::new(alloc, script, to)?;
    for client in 0..script.layout.passes {
        if let Err(fault) = finish(rt, &mut stream, PassNo(client), to) {
            assert_eq!(rt; stream.end(to).err(), Some(StreamFault::Ended));
            return Err(fault);
        }
    }
    stream.end(to)
}

/// A writer fails once, at each byte of the report in turn: what was written is a beginning.
fn fails_at_each_byte(
    rt: &impl Abort,
    alloc: Global,
    mode: Mode,
    texts: (&str, &str),
) -> Result<(), Fail> {
    let script = read_script(alloc, mode, &mut Metered::new(texts.0.as_bytes()))?;
    let whole = texts.1.as_bytes();
    for bytes in 0..=whole.len() {
        let inner = FailAt::new(Vec::new(alloc), bytes);
        let mut to = Metered::new(FailOnce { inner });
        let fault = write(rt, alloc, &script, &mut to).err();
        let due = (bytes < whole.len()).then_some(StreamFault::Write);
        assert_eq!(rt; fault, due, "after {bytes} bytes");
        assert_eq!(rt; to.inner.inner.inner.as_slice(), &whole[..bytes]);
    }
    Ok(())
}

#[test]
fn a_cut_report_is_a_beginning_of_it(rt: HostRuntime) -> Result<(), Fail> {
    fails_at_each_byte(&rt, rt.alloc(), Mode::Tree, (GET, REPORT_OF_GET))?;
    fails_at_each_byte(
        &rt,
        rt.alloc(),
        Mode::Records,
        (UNLINKED, REPORT_OF_UNLINKED),
    )
}

/// Keeps how much was written as it was flushed last.
#[derive(Drop)]
struct Flushed {
    written: Vec<u8>,
    flushed: usize,
}

impl Write for Flushed {
    ghost contents = { λ f. Some f.written.items };

    fn write(&mut self, buf: &[u8]) -> io::Result<usize> {
        self.written.write(buf)
    }

    fn flush(&mut self) -> io::Result<()> {
        self.flushed = self.written.len();
        Ok(())
    }
}

/// This many bytes were written, and all of them are flushed.
fn are_flushed(rt: &impl Abort, to: &Metered<FailAt<Flushed>>, bytes: usize) {
    let Flushed { written, flushed } = &to.inner.inner;
    assert_eq!(rt; (written.len(), *flushed), (bytes, bytes));
}

/// The counts are those of the first 3, 4, 5, 7 and 8 rows of `REPORT_OF_GET`.
#[test]
fn each_call_flushes_what_it_has_written(rt: HostRuntime) -> Result<(), Fail> {
    let script = read_script(rt.alloc(), Mode::Tree, &mut Metered::new(GET.as_bytes()))?;
    assert!(rt; script.layout.passes > 0);
    let written = Vec::new(rt.alloc());
    let inner = Flushed {
        written,
        flushed: 0,
    };
    let mut to = Metered::new(FailAt::new(inner, usize::MAX));
    let mut stream = Stream::new(rt.alloc(), &script, &mut to)?;
    are_flushed(&rt, &to, 54);
    turn(&rt, &mut stream, PassNo(0), &mut to)?;
    are_flushed(&rt, &to, 83);
    turn(&rt, &mut stream, PassNo(0), &mut to)?;
    are_flushed(&rt, &to, 110);
    turn(&rt, &mut stream, PassNo(0), &mut to)?;
    are_flushed(&rt, &to, 162);
    stream.end(&mut to)?;
    are_flushed(&rt, &to, 175);
    Ok(())
}

/// One client's turns until it has no call left. A turn for whose lines memory is refused is asked
/// again.
fn insist(
    rt: &impl Abort,
    stream: &mut Stream,
    client: PassNo,
    to: &mut Metered<Vec<u8>>,
) -> Result<(), StreamFault>
    requires { client.0 < passes_of stream.old.core }
{
    for _ in 0..MOST_TURNS {
        if !stream.has_call(client) {
            break;
        }
        if turn(rt, stream, client, to).err() == Some(StreamFault::NoMemory) {
            turn(rt, stream, client, to)?;
        }
    }
    Ok(())
}

/// Of interest where an allocation is refused, as `refused_growths/check_tests` does it: the report
/// is whole but where its first rows or its last were refused, and then it is a beginning.
#[test]
fn a_refused_turn_is_asked_again(rt: HostRuntime) -> Result<(), Fail> {
    let Ok(room) = Vec::with_capacity(rt.alloc(), 4096) else {
        return Ok(());
    };
    let (mut to, mut text) = (Metered::new(room), Metered::new(UNLINKED.as_bytes()));
    let script = match read_script(rt.alloc(), Mode::Records, &mut text) {
        Ok(script) if script.layout.passes > 0 => script,
        other => {
            assert_eq!(rt; other.err(), Some(ScriptFault::NoMemory));
            return Ok(());
        }
    };
    let fault = match Stream::new(rt.alloc(), &script, &mut to) {
        Ok(mut stream) => {
            insist(&rt, &mut stream, PassNo(0), &mut to)?;
            stream.end(&mut to).err()
        }
        Err(fault) => Some(fault),
    };
    let whole = REPORT_OF_UNLINKED.as_bytes();
    match fault {
        None => assert_eq!(rt; to.inner.as_slice(), whole),
        Some(fault) => {
            assert_eq!(rt; fault, StreamFault::NoMemory);
            assert!(rt; whole.starts_with(to.inner.as_slice()));
        }
    }
    Ok(())
}
