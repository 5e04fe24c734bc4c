//! Commands over files and sinks of which one call fails.

ghost use Rattle.std.specs.Prelude.{◌≤◌};

use crate::calls::texts::first_lines;
use crate::common::{memory_files, ticker, words_of};
use pm_base::PIECE_BYTES;
use pm_cmd_top::top;
use pm_gate::Quiet;
use pm_io::{MemFiles, MemSink};
use pm_planread::PlanFault;
use std::alloc::{AllocError, Global};
use std::sync::Wait;
use std::thread::Threads;

/// What a file holds.
#[derive(Clone, Copy)]
pub enum Text {
    Written(&'static str),
    /// This byte, so many times.
    Filled(u8, usize),
}

/// A status, and what is written to `out` and to `err`.
#[derive(Clone, Copy)]
pub struct End<'a> {
    pub status: u8,
    pub out: &'a [u8],
    pub err: &'a [u8],
}

/// A command over the files `plan` and `trace`.
pub struct Run {
    pub shows: &'static str,
    pub words: &'static str,
    pub plan: Text,
    pub trace: Text,
    /// How it ends where no call fails. Each line that it writes is a call of `out`.
    pub end: End<'static>,
}

/// The numbers of the calls that fail, from 1 on; 0 where none does.
#[derive(Clone, Copy)]
struct Failing {
    read: u64,
    write: u64,
    tell: u64,
}

const NONE: Failing = Failing {
    read: 0,
    write: 0,
    tell: 0,
};

fn text_bytes(alloc: Global, text: Text) -> Result<Vec<u8>, AllocError> {
    match text {
        Text::Written(text) => Vec::from_slice(alloc, text.as_bytes()),
        Text::Filled(byte, count) => vec![in alloc; byte; count],
    }
}

/// Whether the command ends so over these files, where sinks take at most so many bytes at a call.
fn ends<R: Threads + Wait + Sync>(
    rt: &R,
    alloc: Global,
    words: &str,
    mut files: MemFiles,
    failing: Failing,
    most: usize,
    end: End,
) -> Result<bool, AllocError>
    requires { 1 ≤ most }
{
    let words = words_of(alloc, words)?;
    let clock = ticker(alloc)?;
    let write = Vec::from_slice(alloc, &[failing.write])?;
    let tell = Vec::from_slice(alloc, &[failing.tell])?;
    let mut out = MemSink::new(alloc, most, write);
    let mut err = MemSink::new(alloc, most, tell);
    let status = top(
        rt, alloc, &words, &mut files, &mut out, &mut err, &clock, &Quiet,
    );
    Ok(status == end.status && out.taken() == end.out && err.taken() == end.err)
}

/// Whether the audit of a trace ends so.
pub fn audit_ends<R: Threads + Wait + Sync>(
    rt: &R,
    alloc: Global,
    plan: &[u8],
    trace: Vec<u8>,
    end: End,
) -> Result<bool, AllocError> {
    let files = memory_files(alloc, Vec::from_slice(alloc, plan)?, trace, 0)?;
    ends(rt, alloc, "audit plan trace", files, NONE, PIECE_BYTES, end)
}

/// Whether the run ends so.
fn run_ends<R: Threads + Wait + Sync>(
    rt: &R,
    alloc: Global,
    run: &Run,
    failing: Failing,
    most: usize,
    end: End,
) -> Result<bool, AllocError>
    requires { 1 ≤ most }
{
    let plan = text_bytes(alloc, run.plan)?;
    let trace = text_bytes(alloc, run.trace)?;
    let files = memory_files(alloc, plan, trace, failing.read)?;
    ends(rt, alloc, run.words, files, failing, most, end)
}

/// The run ends as is told where no call fails.
pub fn ends_whole<R: Threads + Wait + Sync>(
    rt: &R,
    alloc: Global,
    run: &Run,
) -> Result<bool, PlanFault> {
    Ok(run_ends(rt, alloc, run, NONE, PIECE_BYTES, run.end)?)
}

/// Whichever of so many calls of the files fails, the run writes nothing; it makes no more of them.
pub fn failed_reads<R: Threads + Wait + Sync>(
    rt: &R,
    alloc: Global,
    run: &Run,
    reads: u64,
) -> Result<bool, PlanFault> {
    let read_fault = End {
        status: 4,
        out: b"",
        err: b"read\n",
    };
    for call in 0..reads {
        let failing = Failing {
            read: call + 1,
            ..NONE
        };
        if !run_ends(rt, alloc, run, failing, PIECE_BYTES, read_fault)? {
            return Ok(false);
        }
    }
    let failing = Failing {
        read: reads.saturating_add(1),
        ..NONE
    };
    Ok(run_ends(rt, alloc, run, failing, PIECE_BYTES, run.end)?)
}

/// Whichever call of `out` fails, the run ends behind whole lines; it makes no more calls than it has lines.
pub fn failed_writes<R: Threads + Wait + Sync>(
    rt: &R,
    alloc: Global,
    run: &Run,
) -> Result<bool, PlanFault> {
    let mut failing = Failing { write: 1, ..NONE };
    for lines in 0..run.end.out.len() {
        let end = End {
            status: 5,
            out: first_lines(run.end.out, lines),
            err: b"write\n",
        };
        if end.out.len() == run.end.out.len() {
            break;
        }
        if !run_ends(rt, alloc, run, failing, PIECE_BYTES, end)? {
            return Ok(false);
        }
        failing.write = failing.write.saturating_add(1);
    }
    Ok(run_ends(rt, alloc, run, failing, PIECE_BYTES, run.end)?)
}

/// A fault of `err` before its message changes neither its status nor what it writes to `out`.
fn is_untold<R: Threads + Wait + Sync>(
    rt: &R,
    alloc: Global,
    run: &Run,
) -> Result<bool, AllocError> {
    let failing = Failing { tell: 1, ..NONE };
    let end = End {
        err: b"",
        ..run.end
    };
    run_ends(rt, alloc, run, failing, PIECE_BYTES, end)
}

/// The run ends as is told also where sinks take one byte at a call. A fault of `err`, before its message or in the midst of
/// it, changes neither its status nor what it writes.
pub fn by_few_bytes<R: Threads + Wait + Sync>(
    rt: &R,
    alloc: Global,
    run: &Run,
) -> Result<bool, PlanFault> {
    let failing = Failing { tell: 2, ..NONE };
    let end = End {
        err: run.end.err.get(..9).unwrap_or(run.end.err),
        ..run.end
    };
    Ok(
        run_ends(rt, alloc, run, NONE, 1, run.end)?
            && run_ends(rt, alloc, run, failing, 9, end)?
            && is_untold(rt, alloc, run)?,
    )
}
