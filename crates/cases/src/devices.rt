//! Readers and writers that fail in mid-stream.
use crate::command::Action;
use crate::ended::ProgramEnd;
use crate::finding::Finding;
use crate::inputs::Inputs;
use std::sync::Wait;
use std::thread::Threads;
use texts::FailAt;

/// What is written by a command whose readers and whose writer pass this many bytes.
fn over<R: Threads + Wait + Sync + AllocGlobal>(
    rt: &R,
    command: Action<'_>,
    texts: &Inputs,
    (first, second, out): (usize, usize, usize),
) -> ProgramEnd<Vec<u8>> {
    let mut first = FailAt::new(texts.first.as_slice(), first);
    let mut second = FailAt::new(texts.second.as_slice(), second);
    let out = FailAt::new(Vec::new(rt.alloc()), out);
    let ended = command.over(rt, &mut first, &mut second, out);
    ProgramEnd {
        status: ended.status,
        out: ended.out.inner,
        err: ended.err,
    }
}

/// Where one device fails after each number of bytes in turn, the command says so, and what has
/// gone out is a beginning of its output: none where a read fails.
pub(crate) fn failing<R: Threads + Wait + Sync + AllocGlobal>(
    rt: &R,
    command: Action<'_>,
    texts: &Inputs,
    whole: &[u8],
) -> Finding {
    if let Some(bytes) = other_read(rt, command, texts) {
        return Finding::Read(bytes);
    }
    for bytes in 0..whole.len() {
        if !fails_to_write(rt, command, texts, &whole[..bytes]) {
            return Finding::Write(bytes);
        }
    }
    Finding::AsExpected
}

/// The least number of bytes of a text after which a failed read is not reported as such.
fn other_read<R: Threads + Wait + Sync + AllocGlobal>(
    rt: &R,
    command: Action<'_>,
    texts: &Inputs,
) -> Option<usize> {
    for bytes in 0..=texts.first.len() {
        if !fails_to_read(rt, command, texts, (bytes, usize::MAX)) {
            return Some(bytes);
        }
    }
    if let Action::Play(_) = command {
        for bytes in 0..=texts.second.len() {
            if !fails_to_read(rt, command, texts, (usize::MAX, bytes)) {
                return Some(bytes);
            }
        }
    }
    None
}

fn fails_to_read<R: Threads + Wait + Sync + AllocGlobal>(
    rt: &R,
    command: Action<'_>,
    texts: &Inputs,
    (first, second): (usize, usize),
) -> bool {
    let ended = over(rt, command, texts, (first, second, usize::MAX));
    has_failed(&ended, b"read failed\n", b"")
}

fn fails_to_write<R: Threads + Wait + Sync + AllocGlobal>(
    rt: &R,
    command: Action<'_>,
    texts: &Inputs,
    beginning: &[u8],
) -> bool {
    let written = (usize::MAX, usize::MAX, beginning.len());
    has_failed(
        &over(rt, command, texts, written),
        b"write failed\n",
        beginning,
    )
}

fn has_failed(ended: &ProgramEnd<Vec<u8>>, fault: &[u8], out: &[u8]) -> bool {
    ended.status == 4 && ended.err.as_slice() == fault && ended.out.as_slice() == out
}
