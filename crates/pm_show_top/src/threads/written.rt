//! Cases over what `run` and `desk` write.

use crate::common::{memory_files, ticker};
use crate::threads::counting::{Counting, begun, resumed};
use crate::threads::plans::{CUT, HUB, ONE, SECONDS, STAGGERED, TIED};
use pm_audit::load_trace;
use pm_base::{Cb, DevId};
use pm_cmd_top::{audit_top, desk_top, run_top, serial_top};
use pm_gate::{Clock, Gate, Meet, Quiet, Ticker};
use pm_io::{MemFiles, MemSink};
use pm_model::Event;
use pm_planread::{PlanFault, read_plan};
use std::alloc::{AllocError, Global};
use std::sync::Wait;
use std::thread::Threads;

/// By what a plan is run.
#[derive(Clone, Copy)]
pub enum Way {
    /// By `run`, with so many hands.
    Hands(u32),
    /// By `desk`, each script by a pass of its own.
    Desk,
}

/// What a call answered and wrote.
#[derive(Drop)]
pub struct Seen {
    pub status: u8,
    pub out: MemSink,
}

/// A sink that takes all.
fn sink(alloc: Global) -> MemSink {
    MemSink::new(alloc, 4096, Vec::new(alloc))
}

/// The files `plan` and `trace`.
fn files(alloc: Global, plan: &[u8], trace: &[u8]) -> Result<MemFiles, AllocError> {
    let plan = Vec::from_slice(alloc, plan)?;
    memory_files(alloc, plan, Vec::from_slice(alloc, trace)?, 0)
}

/// Runs the plan. By no hands, or more than 16, it is not run.
pub fn written<R: Threads + Wait + Sync, C: Clock + Sync, G: Gate + Sync>(
    rt: &R,
    alloc: Global,
    way: Way,
    plan: &[u8],
    clock: &C,
    gate: &G,
) -> Result<Seen, AllocError> {
    let mut files = files(alloc, plan, b"")?;
    let (mut out, mut err) = (sink(alloc), sink(alloc));
    let status = match way {
        Way::Hands(hands) if 1 <= hands && hands <= 16 => run_top(
            rt, alloc, "plan", hands, &mut files, &mut out, &mut err, clock, gate,
        ),
        Way::Hands(_) => u8::MAX,
        Way::Desk => desk_top(
            rt, alloc, "plan", &mut files, &mut out, &mut err, clock, gate,
        ),
    };
    Ok(Seen { status, out })
}

/// Runs the plan on one thread.
fn run_alone(alloc: Global, plan: &[u8]) -> Result<Seen, AllocError> {
    let mut files = files(alloc, plan, b"")?;
    let (mut out, mut err) = (sink(alloc), sink(alloc));
    let status = serial_top(alloc, "plan", &mut files, &mut out, &mut err);
    Ok(Seen { status, out })
}

/// Whether the trace is lawful for the plan, and a resume callback of device 1 begins in it before that of
/// device 0 ends.
fn overlaps(alloc: Global, plan: &[u8], trace: &[u8]) -> Result<bool, PlanFault> {
    let Ok(book) = load_trace(alloc, read_plan(alloc, plan)?, trace) else {
        return Ok(false);
    };
    let begins = Event::Begin {
        dev: DevId(1),
        cb: Cb::Resume,
    };
    let ends = Event::End {
        dev: DevId(0),
        cb: Cb::Resume,
        code: 0,
    };
    let mut has_begun = false;
    for line in book.lines() {
        has_begun |= line.event == begins;
        if line.event == ends {
            return Ok(has_begun);
        }
    }
    Ok(false)
}

/// One thread runs two islands, or two scripts, one behind the other. In this way the callback of one is held until
/// that of the other has begun: what is written has them side by side.
pub fn tells_what_overlaps<R: Threads + Wait + Sync>(
    rt: &R,
    alloc: Global,
    way: Way,
) -> Result<bool, PlanFault> {
    let meet = Meet::new(DevId(0), DevId(1));
    let ran = written(rt, alloc, way, STAGGERED, &ticker(alloc)?, &meet)?;
    let alone = run_alone(alloc, STAGGERED)?;
    let is_done = ran.status == 0 && alone.status == 0 && meet.met();
    let is_told = overlaps(alloc, STAGGERED, ran.out.taken())?;
    Ok(is_done && is_told && !overlaps(alloc, STAGGERED, alone.out.taken())?)
}

/// Each of two resume callbacks of one island waits in its gate for the other to begin.
pub fn meets<R: Threads + Wait + Sync>(rt: &R, alloc: Global, way: Way) -> Result<bool, PlanFault> {
    let meet = Meet::new(DevId(0), DevId(1));
    let ran = written(rt, alloc, way, TIED, &ticker(alloc)?, &meet)?;
    Ok(ran.status == 0 && meet.met())
}

/// A clock that stands for a long time, so that devices are enabled before callers' delays are over, and then goes on by a
/// second at each reading.
fn late_clock(alloc: Global) -> Result<Ticker, AllocError> {
    Ok(Ticker::new(vec![in alloc; 0; 100_000]?))
}

/// `run` by this many hands calls the gate as often as lines that it writes begin a callback, of each kind and each
/// device.
pub fn run_counts_callbacks<R: Threads + Wait + Sync>(
    rt: &R,
    alloc: Global,
    hands: u32,
) -> Result<bool, PlanFault> {
    let gate = Counting::new();
    let ran = written(
        rt,
        alloc,
        Way::Hands(hands),
        HUB,
        &late_clock(alloc)?,
        &gate,
    )?;
    let Ok(book) = load_trace(alloc, read_plan(alloc, HUB)?, ran.out.taken()) else {
        return Ok(false);
    };
    let begun = begun(book.lines());
    Ok(ran.status == 0 && resumed(&begun) == 5 && begun == gate.counts())
}

/// What one hand writes has its clock's times, a second for each line, where one thread's has none but 0.
pub fn run_goes_by_its_clock<R: Threads + Wait + Sync>(
    rt: &R,
    alloc: Global,
) -> Result<bool, PlanFault> {
    let ran = written(rt, alloc, Way::Hands(1), ONE, &ticker(alloc)?, &Quiet)?;
    Ok(ran.status == 0 && ran.out.taken() == SECONDS)
}

/// The trace of a run in this way is that of a finished run.
pub fn passes_audit<R: Threads + Wait + Sync>(
    rt: &R,
    alloc: Global,
    way: Way,
    plan: &[u8],
) -> Result<bool, PlanFault> {
    let ran = written(rt, alloc, way, plan, &ticker(alloc)?, &Quiet)?;
    let mut files = files(alloc, plan, ran.out.taken())?;
    let (mut out, mut err) = (sink(alloc), sink(alloc));
    let status = audit_top(alloc, "plan", "trace", &mut files, &mut out, &mut err);
    Ok(ran.status == 0 && status == 0 && out.taken() == b"yes finished\n".as_slice())
}

/// Where there are more lines than the plan allows, threads and one thread answer and write the same.
pub fn cut_is_of_one_thread<R: Threads + Wait + Sync>(
    rt: &R,
    alloc: Global,
    way: Way,
) -> Result<bool, PlanFault> {
    let ran = written(rt, alloc, way, CUT, &ticker(alloc)?, &Quiet)?;
    let alone = run_alone(alloc, CUT)?;
    Ok(ran.status == 6 && alone.status == 6 && ran.out.taken() == alone.out.taken())
}
