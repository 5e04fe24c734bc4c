//! Desks, and calls by their passes.

use crate::desks::plans::{C_CALLS, E_CALLS};
use pm_desk::{CloseFault, Closed, Desk, Pass, Receipt, Stop};
use pm_gate::{Clock, Quiet};
use pm_planread::{PlanFault, read_plan};
use pm_script::read_command;
use std::alloc::{AllocError, Global};
use std::sync::Wait;
use std::thread;
use std::thread::Threads;

/// Opens a desk for a plan.
pub fn open(alloc: Global, plan: &[u8]) -> Result<Desk, PlanFault> {
    match Desk::new(alloc, read_plan(alloc, plan)?) {
        Ok(desk) => Ok(desk),
        Err((_plan, error)) => Err(PlanFault::from(error)),
    }
}

/// The pass of a caller; `None` where the plan has no such caller, or it was given before.
pub fn pass_of(desk: &mut Desk, caller: u32) -> Option<Pass> {
    if (caller as usize) < desk.plan().callers.len() {
        desk.pass(caller)
    } else {
        None
    }
}

/// The passes of the first two callers.
pub fn two_passes(desk: &mut Desk) -> Option<(Pass, Pass)> {
    let first = pass_of(desk, 0)?;
    let second = pass_of(desk, 1)?;
    Some((first, second))
}

/// Calls by a pass what the text says; `None` where it is no command of the plan.
pub fn call<R: Wait, C: Clock + Sync>(
    rt: &R,
    desk: &Desk,
    pass: &mut Pass,
    text: &[u8],
    clock: &C,
) -> Option<Result<i32, Stop>> {
    let command = read_command(text, desk.plan()).ok()?;
    if (pass.caller() as usize) < desk.plan().callers.len() {
        Some(pass.call(rt, desk, command, clock, &Quiet))
    } else {
        None
    }
}

/// Calls by a pass what the texts say, in turn.
pub fn call_all<R: Wait, C: Clock + Sync>(
    rt: &R,
    desk: &Desk,
    pass: &mut Pass,
    texts: &[&[u8]],
    clock: &C,
) {
    for text in texts {
        let _ = call(rt, desk, pass, *text, clock);
    }
}

/// Calls at once by two passes, by each on a thread of its own.
pub fn call_at_once<R: Threads + Wait + Sync, C: Clock + Sync>(
    rt: &R,
    desk: &Desk,
    first: &mut Pass,
    second: &mut Pass,
    clock: &C,
) {
    thread::join(
        rt,
        || call_all(rt, desk, first, &C_CALLS, clock),
        || call_all(rt, desk, second, &E_CALLS, clock),
    );
}

/// Whether these are so many receipts, each of the code 0.
pub fn are_done(receipts: &[Receipt], count: usize) -> bool {
    for receipt in receipts {
        if receipt.code != 0 {
            return false;
        }
    }
    receipts.len() == count
}

/// How the closing of a desk ended.
#[derive(Clone, Copy, PartialEq, Eq)]
pub enum Ending {
    /// With so many lines, all of a finished run.
    Finished(usize),
    /// With so many lines, all that the plan allows, of a run that isn't finished.
    Full(usize),
    /// The desk wasn't closed.
    Open,
}

/// Closes a desk to which these passes are handed back.
pub fn close(desk: Desk, passes: Vec<Pass>) -> Ending {
    if !desk.takes_back(&passes) {
        return Ending::Open;
    }
    match desk.close(passes) {
        Ok(closed) => ending_of(closed),
        Err(fault) => ending_by(fault),
    }
}

/// How the closing of a desk ended that was closed.
fn ending_of(closed: Closed) -> Ending {
    let lines = closed.book.lines().len();
    if closed.full {
        Ending::Full(lines)
    } else {
        Ending::Finished(lines)
    }
}

/// How the closing of a desk ended that wasn't.
fn ending_by(_fault: CloseFault) -> Ending {
    Ending::Open
}

/// A list of one pass.
pub fn one_pass(alloc: Global, pass: Pass) -> Result<Vec<Pass>, AllocError> {
    let mut passes = Vec::new(alloc);
    passes.push(pass)?;
    Ok(passes)
}

/// The list with one pass more.
fn with_pass(passes: Vec<Pass>, pass: Pass) -> Result<Vec<Pass>, AllocError> {
    let mut passes = passes;
    passes.push(pass)?;
    Ok(passes)
}

/// A list of two passes, in this order.
fn both_passes(alloc: Global, one: Pass, other: Pass) -> Result<Vec<Pass>, AllocError> {
    let passes = one_pass(alloc, one)?;
    with_pass(passes, other)
}

/// Closes a desk to which this pass alone is handed back.
pub fn close_one(alloc: Global, desk: Desk, pass: Pass) -> Result<Ending, PlanFault> {
    let passes = one_pass(alloc, pass)?;
    Ok(close(desk, passes))
}

/// Closes a desk to which two passes are handed back, in this order.
pub fn close_two(alloc: Global, desk: Desk, one: Pass, other: Pass) -> Result<Ending, PlanFault> {
    let passes = both_passes(alloc, one, other)?;
    Ok(close(desk, passes))
}
