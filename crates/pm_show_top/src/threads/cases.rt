//! Cases over islands, their locks and their hints.

ghost use Rattle.std.specs.Prelude.{◌≤◌};

use crate::common::ticker;
use crate::threads::counting::{Counting, begun, resumed};
use crate::threads::plans::{APART, CUT, TIED, TIMED};
use pm_base::DevId;
use pm_book::Book;
use pm_cmd_top::{finished, gather, locked_parts, run_islands};
use pm_gate::{Clock, Gate, Meet, Quiet};
use pm_hands::run_hands;
use pm_islands::islands;
use pm_model::{Line, Plan};
use pm_planread::{PlanFault, read_plan};
use pm_wq::Hints;
use std::alloc::Global;
use std::sync::{Mutex, Wait};
use std::thread;
use std::thread::Threads;

/// The lines that a plan's islands come to by this many hands.
pub fn lines_by<R: Threads + Wait + Sync, C: Clock + Sync, G: Gate + Sync>(
    rt: &R,
    alloc: Global,
    plan: &Plan,
    hands: u32,
    clock: &C,
    gate: &G,
) -> Result<Option<Vec<Line>>, PlanFault>
    requires some { 1 ≤ hands }
    requires few { hands ≤ 16 }
{
    let books = run_islands(rt, alloc, plan, hands, clock, gate)?;
    Ok(gather(alloc, plan, books)?)
}

/// Each of two resume callbacks of one island waits in its gate for the other to begin, and neither does so
/// in vain.
pub fn hands_meet<R: Threads + Wait + Sync>(rt: &R, alloc: Global) -> Result<bool, PlanFault> {
    let plan = read_plan(alloc, TIED)?;
    let meet = Meet::new(DevId(0), DevId(1));
    let lines = lines_by(rt, alloc, &plan, 2, &ticker(alloc)?, &meet)?;
    Ok(islands(&plan) == 1 && lines.is_some() && meet.met())
}

/// This many hands call the gate as often as lines begin a callback, of each kind and each device.
pub fn counts_callbacks<R: Threads + Wait + Sync>(
    rt: &R,
    alloc: Global,
    hands: u32,
) -> Result<bool, PlanFault>
    requires some { 1 ≤ hands }
    requires few { hands ≤ 16 }
{
    let plan = read_plan(alloc, TIMED)?;
    let gate = Counting::new();
    let Some(lines) = lines_by(rt, alloc, &plan, hands, &ticker(alloc)?, &gate)? else {
        return Ok(false);
    };
    let begun = begun(&lines);
    Ok(resumed(&begun) == 2 && begun == gate.counts())
}

/// Waits until the book behind a lock is finished, and says whether it is.
fn waits_for<R: Wait>(rt: &R, island: &Mutex<Book>) -> bool {
    for _ in 0..1_000_000 {
        if island.lock(rt).finished() {
            return true;
        }
        thread::yield_now();
    }
    false
}

/// Two hands finish one island while the lock of the other is held, and the other once it is let go.
pub fn held_lock_stops_no_other<R: Threads + Wait + Sync>(
    rt: &R,
    alloc: Global,
) -> Result<bool, PlanFault> {
    let plan = read_plan(alloc, APART)?;
    let locks = locked_parts(alloc, &plan, islands(&plan))?;
    let [first, second] = locks.as_slice() else {
        return Ok(false);
    };
    let mut hints = Hints::new(alloc, 4)?;
    let clock = ticker(alloc)?;
    let held = second.lock(rt);
    let (_, is_finished) = thread::join(
        rt,
        || run_hands(rt, &locks, &mut hints, 2, &clock, &Quiet),
        move || {
            let is_finished = waits_for(rt, first);
            drop(held);
            is_finished
        },
    );
    Ok(is_finished && second.lock(rt).finished())
}

/// There are no locks, and the merge has no lines.
pub fn empty_plan_is_finished<R: Threads + Wait + Sync>(
    rt: &R,
    alloc: Global,
) -> Result<bool, PlanFault> {
    let plan = read_plan(alloc, b"")?;
    match lines_by(rt, alloc, &plan, 16, &ticker(alloc)?, &Quiet)? {
        Some(lines) => Ok(lines.is_empty()),
        None => Ok(false),
    }
}

/// The queue of hints has one place, in which stands a hint of no island: each that a hand tells is lost
/// until that one is asked for.
pub fn hints_decide_nothing<R: Threads + Wait + Sync>(
    rt: &R,
    alloc: Global,
) -> Result<bool, PlanFault> {
    let plan = read_plan(alloc, APART)?;
    let locks = locked_parts(alloc, &plan, islands(&plan))?;
    let mut hints = Hints::new(alloc, 1)?;
    let mut pass = hints.pass();
    let is_told = hints.tell(rt, &mut pass, 7);
    run_hands(rt, &locks, &mut hints, 2, &ticker(alloc)?, &Quiet);
    let [first, second] = locks.as_slice() else {
        return Ok(false);
    };
    Ok(is_told && first.lock(rt).finished() && second.lock(rt).finished())
}

/// Two islands have more lines together than the plan allows.
pub fn cut_merge_is_none<R: Threads + Wait + Sync>(
    rt: &R,
    alloc: Global,
) -> Result<bool, PlanFault> {
    let plan = read_plan(alloc, CUT)?;
    Ok(lines_by(rt, alloc, &plan, 2, &ticker(alloc)?, &Quiet)?.is_none())
}

/// What comes from behind a lock as a book of another plan is finished as one of this plan.
pub fn strange_book_is_replaced(alloc: Global) -> Result<bool, PlanFault> {
    let plan = read_plan(alloc, APART)?;
    let Ok(strange) = Book::start(alloc, read_plan(alloc, TIED)?) else {
        return Ok(false);
    };
    let Some(book) = finished(alloc, plan, strange)? else {
        return Ok(false);
    };
    Ok(book.plan().callers.len() == 2 && resumed(&begun(book.lines())) == 2)
}
