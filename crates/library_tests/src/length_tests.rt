//! Texts of the greatest length, and one row more.
use crate::same::same;
use arena::Mode;
use program::play_over;
use report::{ReportFault, read_record};
use std::alloc::{AllocError, Global};
use std::process::Abort;
use std::test::Fail;
use texts::Metered;

/// What a command wrote, and its status.
#[derive(Drop)]
struct Ended {
    status: u8,
    out: Vec<u8>,
    err: Vec<u8>,
}

/// What a play of calls on cells wrote.
fn played(alloc: Global, script: &str, schedule: &str) -> Ended {
    let (mut script, mut schedule) = (
        Metered::new(script.as_bytes()),
        Metered::new(schedule.as_bytes()),
    );
    let (mut out, mut err) = (Metered::new(Vec::new(alloc)), Vec::new(alloc));
    let mode = Mode::Records;
    let status = play_over(alloc, mode, &mut script, &mut schedule, &mut out, &mut err);
    let out = out.inner;
    Ended { status, out, err }
}

/// How many lines a text has.
fn count_lines(text: &[u8]) -> usize {
    text.iter().filter(|byte| **byte == b'\n').count()
}

/// A play went well, with this many lines, the last of which are these.
fn ends_well(rt: &impl Abort, ended: &Ended, end: &str, lines: usize) {
    let out = ended.out.as_slice();
    same(rt, out.ends_with(end.as_bytes()), true);
    same(rt, (ended.status, count_lines(out)), (0, lines));
}

/// A first line, this many others, and a last one.
fn long_text(
    alloc: Global,
    first: &str,
    line: &str,
    lines: u32,
    last: &str,
) -> Result<String, Fail> {
    let mut text = String::from_str(alloc, first)?;
    for _ in 0..lines {
        text.push_str(line)?;
    }
    text.push_str(last)?;
    Ok(text)
}

/// This many calls, each of a cell without a snapshot, and so one turn.
fn long_script(alloc: Global, calls: u32) -> Result<String, Fail> {
    let last = format!(in alloc; "end,{calls},,,\n")?;
    long_text(
        alloc,
        "limits,1,0,0,1\n",
        "0,vlx,1,,\n",
        calls,
        last.as_str(),
    )
}

/// This many rows, each of which plays a call.
fn long_schedule(alloc: Global, rows: u32) -> Result<String, Fail> {
    let last = format!(in alloc; "end,{rows},,\n")?;
    long_text(alloc, "", "call,0,,\n", rows, last.as_str())
}

/// The 65,536th row of each text is taken.
#[test]
fn the_longest_texts_are_taken(rt: HostRuntime) -> Result<(), Fail> {
    let script = long_script(rt.alloc(), 65536)?;
    let schedule = long_schedule(rt.alloc(), 65536)?;
    let ended = played(rt.alloc(), script.as_str(), schedule.as_str());
    let end = "reply,0,65535,65536,65536,,unlinked n1\nend,65536,65536,0,,,\n";
    ends_well(&rt, &ended, end, 3 * 65536 + 3);
    Ok(())
}

/// A script of this many calls is refused by a schedule of this many rows with this line.
fn refuses(
    rt: &impl Abort,
    alloc: Global,
    (calls, rows): (u32, u32),
    line: &str,
) -> Result<(), Fail> {
    let script = long_script(alloc, calls)?;
    let schedule = long_schedule(alloc, rows)?;
    let ended = played(alloc, script.as_str(), schedule.as_str());
    same(rt, ended.err.as_slice(), line.as_bytes());
    same(rt, (ended.status, ended.out.len()), (1, 0));
    Ok(())
}

/// The next one is named.
#[test]
fn longer_texts_are_refused(rt: HostRuntime) -> Result<(), Fail> {
    let alloc = rt.alloc();
    refuses(&rt, alloc, (65537, 65536), "bad script: row 65538: long\n")?;
    refuses(
        &rt,
        alloc,
        (65536, 65537),
        "bad schedule: row 65537: long\n",
    )
}

#[test]
fn million_idle_turns(rt: HostRuntime) {
    // One client has no call, and the other none after its first.
    let schedule = "step,1,,999990\nfinish,0,,\nstep,0,,3\nend,3,,\n";
    let ended = played(
        rt.alloc(),
        "limits,2,0,0,1\n0,llx,8,,\nend,1,,,\n",
        schedule,
    );
    let end = "\nreply,0,0,999991,999997,999997,snap 0 0\nstep,999998,0,idle,,,\n\
               step,999999,0,idle,,,\nstep,1000000,0,idle,,,\nend,1000000,1,0,,,\n";
    ends_well(&rt, &ended, end, 1000005);
}

/// A report of this many calls, which no one began.
fn long_report(alloc: Global, calls: u64) -> Result<String, AllocError> {
    let mut text = String::from_str(alloc, "report,1,records,,,,\nlimits,1,0,0,1,,\n")?;
    for number in 0..calls {
        text.push_str(format!(in alloc; "call,0,{number},vlx,8 1,,\n")?.as_str())?;
    }
    text.push_str("end,0,0,0,,,\n")?;
    Ok(text)
}

/// How many calls the report of this many has, once it is read.
fn read_calls(alloc: Global, calls: u64) -> Result<Result<usize, ReportFault>, AllocError> {
    let text = long_report(alloc, calls)?;
    match read_record(alloc, &mut Metered::new(text.as_bytes())) {
        Ok(record) => Ok(Ok(record.script.calls.len())),
        Err(fault) => Ok(Err(fault)),
    }
}

#[test]
fn the_call_past_the_most_is_named(rt: HostRuntime) -> Result<(), Fail> {
    same(&rt, read_calls(rt.alloc(), 65536)?, Ok(65536));
    let fault = ReportFault::NotLawful { row: 65539 };
    same(&rt, read_calls(rt.alloc(), 65537)?, Err(fault));
    Ok(())
}
