//! The cases: each opens a desk and a clock, and what it shows stands in the functions below it.

use crate::common::ticker;
use crate::desks::desks::{
    Ending, are_done, call, call_all, call_at_once, close_one, close_two, one_pass, open, pass_of,
    two_passes,
};
use crate::desks::plans::{C_CALLS, CALLED, E_CALLS, FOUR};
use pm_desk::{CloseFault, Desk, Pass, Receipt, Stop};
use pm_gate::Ticker;
use pm_planread::PlanFault;
use std::alloc::Global;
use std::sync::Wait;
use std::thread::Threads;

/// Two callers call at once, each on a thread of its own, and each call answers 0.
pub fn two_callers_at_once<R: Threads + Wait + Sync>(
    rt: &R,
    alloc: Global,
) -> Result<bool, PlanFault> {
    let clock = ticker(alloc)?;
    let desk = open(alloc, CALLED)?;
    both_at_once(rt, alloc, desk, &clock)
}

/// Whether all calls of two callers at once answer 0, and the run is finished.
fn both_at_once<R: Threads + Wait + Sync>(
    rt: &R,
    alloc: Global,
    mut desk: Desk,
    clock: &Ticker,
) -> Result<bool, PlanFault> {
    let Some((mut first, mut second)) = two_passes(&mut desk) else {
        return Ok(false);
    };
    call_at_once(rt, &desk, &mut first, &mut second, clock);
    let done = are_both_done(&first, &second);
    let ended = close_two(alloc, desk, first, second)?;
    Ok(done && ended == Ending::Finished(29))
}

/// Whether each call of the two callers of `CALLED` answered 0.
fn are_both_done(first: &Pass, second: &Pass) -> bool {
    are_done(first.receipts(), C_CALLS.len()) && are_done(second.receipts(), E_CALLS.len())
}

/// A call answers what the helper returns, be it an error, 0 or 1: a device that is disabled isn't resumed,
/// one that is enabled is, and one that is Active needn't be.
pub fn calls_answer_their_codes<R: Wait>(rt: &R, alloc: Global) -> Result<bool, PlanFault> {
    let clock = ticker(alloc)?;
    let desk = open(alloc, CALLED)?;
    one_is_answered(rt, alloc, desk, &clock)
}

/// Whether the calls of one caller answer their codes, and the run is finished.
fn one_is_answered<R: Wait>(
    rt: &R,
    alloc: Global,
    mut desk: Desk,
    clock: &Ticker,
) -> Result<bool, PlanFault> {
    let Some(mut pass) = pass_of(&mut desk, 0) else {
        return Ok(false);
    };
    let answered = answers_codes(rt, &desk, &mut pass, clock);
    let ended = close_one(alloc, desk, pass)?;
    Ok(answered && matches!(ended, Ending::Finished(_)))
}

/// Whether calls by a fresh pass answer the codes of a disabled, an enabled and an Active device.
fn answers_codes<R: Wait>(rt: &R, desk: &Desk, pass: &mut Pass, clock: &Ticker) -> bool {
    let disabled = answers(rt, desk, pass, b"get_sync a", clock, -13);
    let enables = answers(rt, desk, pass, b"enable a", clock, 0);
    let resumes = answers(rt, desk, pass, b"resume a", clock, 0);
    let active = answers(rt, desk, pass, b"resume a", clock, 1);
    disabled && enables && resumes && active
}

/// Whether a call answers this code.
fn answers<R: Wait>(
    rt: &R,
    desk: &Desk,
    pass: &mut Pass,
    text: &[u8],
    clock: &Ticker,
    code: i32,
) -> bool {
    match call(rt, desk, pass, text, clock) {
        Some(Ok(answered)) => answered == code,
        _ => false,
    }
}

/// Whether a call is stopped by a limit.
fn is_stopped<R: Wait>(rt: &R, desk: &Desk, pass: &mut Pass, text: &[u8], clock: &Ticker) -> bool {
    matches!(call(rt, desk, pass, text, clock), Some(Err(Stop::Limit)))
}

/// Where a list is full, a call is stopped, and so is each behind it; the desk is closed as full.
pub fn full_list_stops<R: Wait>(rt: &R, alloc: Global) -> Result<bool, PlanFault> {
    let clock = ticker(alloc)?;
    let desk = open(alloc, FOUR)?;
    one_fills_list(rt, alloc, desk, &clock)
}

/// Whether the calls of one caller behind the first are stopped, and the list has four lines.
fn one_fills_list<R: Wait>(
    rt: &R,
    alloc: Global,
    mut desk: Desk,
    clock: &Ticker,
) -> Result<bool, PlanFault> {
    let Some(mut pass) = pass_of(&mut desk, 0) else {
        return Ok(false);
    };
    let stops = stops_behind_first(rt, &desk, &mut pass, clock);
    let kept = is_kept_as_stopped(&pass);
    let ended = close_one(alloc, desk, pass)?;
    Ok(stops && kept && ended == Ending::Full(4))
}

/// Whether the first call answers 0 and the two behind it are stopped.
fn stops_behind_first<R: Wait>(rt: &R, desk: &Desk, pass: &mut Pass, clock: &Ticker) -> bool {
    let first = answers(rt, desk, pass, b"enable a", clock, 0);
    let second = is_stopped(rt, desk, pass, b"get_sync a", clock);
    let third = is_stopped(rt, desk, pass, b"put a", clock);
    first && second && third
}

/// Whether a pass has one receipt, of the code 0, and says that a limit stopped a call.
fn is_kept_as_stopped(pass: &Pass) -> bool {
    are_done(pass.receipts(), 1) && matches!(pass.stopped(), Some(Stop::Limit))
}

/// Where a script has 1,000 commands, a call is stopped; the desk is closed all the same.
pub fn full_script_stops<R: Wait>(rt: &R, alloc: Global) -> Result<bool, PlanFault> {
    let clock = ticker(alloc)?;
    let desk = open(alloc, CALLED)?;
    one_fills_script(rt, alloc, desk, &clock)
}

/// Whether the call of one caller behind the first 1,000 is stopped, and the run is finished.
fn one_fills_script<R: Wait>(
    rt: &R,
    alloc: Global,
    mut desk: Desk,
    clock: &Ticker,
) -> Result<bool, PlanFault> {
    let Some(mut pass) = pass_of(&mut desk, 0) else {
        return Ok(false);
    };
    mark_often(rt, &desk, &mut pass, clock);
    let done = are_done(pass.receipts(), 1_000);
    let stops = is_stopped(rt, &desk, &mut pass, b"mark_last_busy a", clock);
    let ended = close_one(alloc, desk, pass)?;
    Ok(done && stops && ended == Ending::Finished(2_000))
}

/// Calls 1,000 times.
fn mark_often<R: Wait>(rt: &R, desk: &Desk, pass: &mut Pass, clock: &Ticker) {
    for _ in 0..1_000 {
        let _ = call(rt, desk, pass, b"mark_last_busy a", clock);
    }
}

/// A pass is given once.
pub fn pass_is_given_once(alloc: Global) -> Result<bool, PlanFault> {
    let mut desk = open(alloc, CALLED)?;
    let first = gives_pass(&mut desk);
    let again = gives_pass(&mut desk);
    Ok(first && !again)
}

/// Whether the pass of the first caller is given.
fn gives_pass(desk: &mut Desk) -> bool {
    pass_of(desk, 0).is_some()
}

/// Passes may be handed back in any order, and one by which nothing was called not at all.
pub fn passes_in_any_order<R: Wait>(rt: &R, alloc: Global) -> Result<bool, PlanFault> {
    let clock = ticker(alloc)?;
    both_orders(rt, alloc, &clock)
}

/// Whether a desk is closed with its second pass first, and another without its second pass.
fn both_orders<R: Wait>(rt: &R, alloc: Global, clock: &Ticker) -> Result<bool, PlanFault> {
    let both = takes_swapped(rt, alloc, clock)?;
    let one = takes_first(rt, alloc, clock)?;
    Ok(both && one)
}

/// Whether a desk is closed with its second pass first.
fn takes_swapped<R: Wait>(rt: &R, alloc: Global, clock: &Ticker) -> Result<bool, PlanFault> {
    let desk = open(alloc, CALLED)?;
    second_comes_first(rt, alloc, desk, clock)
}

/// Whether a desk is closed without its second pass.
fn takes_first<R: Wait>(rt: &R, alloc: Global, clock: &Ticker) -> Result<bool, PlanFault> {
    let desk = open(alloc, CALLED)?;
    unused_is_kept(rt, alloc, desk, clock)
}

/// Whether the run is finished where the second pass is handed back first.
fn second_comes_first<R: Wait>(
    rt: &R,
    alloc: Global,
    mut desk: Desk,
    clock: &Ticker,
) -> Result<bool, PlanFault> {
    let Some((mut first, mut second)) = two_passes(&mut desk) else {
        return Ok(false);
    };
    call_all(rt, &desk, &mut second, &E_CALLS, clock);
    call_all(rt, &desk, &mut first, &C_CALLS, clock);
    let ended = close_two(alloc, desk, second, first)?;
    Ok(ended == Ending::Finished(29))
}

/// Whether the run is finished where the second pass, by which nothing was called, isn't handed back.
fn unused_is_kept<R: Wait>(
    rt: &R,
    alloc: Global,
    mut desk: Desk,
    clock: &Ticker,
) -> Result<bool, PlanFault> {
    let Some((mut first, second)) = two_passes(&mut desk) else {
        return Ok(false);
    };
    drop(second);
    call_all(rt, &desk, &mut first, &C_CALLS, clock);
    let ended = close_one(alloc, desk, first)?;
    Ok(ended == Ending::Finished(16))
}

/// Where a pass is kept back by which something was called, the first call that lacks its receipt is named.
pub fn lost_pass_is_told<R: Wait>(rt: &R, alloc: Global) -> Result<bool, PlanFault> {
    let clock = ticker(alloc)?;
    let desk = open(alloc, CALLED)?;
    second_is_lost(rt, alloc, desk, &clock)
}

/// Whether it is told that the second pass is kept back, by which something was called.
fn second_is_lost<R: Wait>(
    rt: &R,
    alloc: Global,
    mut desk: Desk,
    clock: &Ticker,
) -> Result<bool, PlanFault> {
    let Some((mut first, mut second)) = two_passes(&mut desk) else {
        return Ok(false);
    };
    call_all(rt, &desk, &mut first, &C_CALLS, clock);
    call_all(rt, &desk, &mut second, &E_CALLS, clock);
    let called = keep_back(second);
    tells_loss(alloc, desk, first, called)
}

/// The first receipt of a pass that isn't handed back.
fn keep_back(pass: Pass) -> Option<Receipt> {
    pass.receipts().first().copied()
}

/// Whether a desk to which the first pass alone is handed back names the second caller's first call.
fn tells_loss(
    alloc: Global,
    desk: Desk,
    first: Pass,
    called: Option<Receipt>,
) -> Result<bool, PlanFault> {
    let passes = one_pass(alloc, first)?;
    Ok(is_told(desk, passes, called))
}

/// Whether a desk to which these passes are handed back names this call, the second caller's first.
fn is_told(desk: Desk, passes: Vec<Pass>, called: Option<Receipt>) -> bool {
    if !desk.takes_back(&passes) {
        return false;
    }
    match desk.close(passes) {
        Ok(_) => false,
        Err(fault) => is_loss(fault, called),
    }
}

/// Whether the fault is that the second caller's first call, which is this one, lacks its receipt.
fn is_loss(fault: CloseFault, called: Option<Receipt>) -> bool {
    match fault {
        CloseFault::Differs {
            book,
            caller,
            nth,
            kept,
            found,
        } => {
            let is_first = caller == 1 && nth == 1 && kept.is_none();
            is_first && is_call(found, called) && book.lines().len() == 29
        }
        _ => false,
    }
}

/// Whether the call that was found is the one that was called.
fn is_call(found: Option<Receipt>, called: Option<Receipt>) -> bool {
    called.is_some() && found == called
}
