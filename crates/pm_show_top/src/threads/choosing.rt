//! Cases over what hands choose, how they rest, and for whom a desk waits.

ghost use Rattle.std.specs.Prelude.{◌≤◌};

use crate::threads::cases::lines_by;
use crate::threads::counting::{begun, resumed, resumes_and_suspends};
use crate::threads::plans::{ASKS, LATER, TIMED, TWICE};
use crate::threads::resting::{Resting, Silent};
use crate::threads::written::{Way, written};
use pm_audit::load_trace;
use pm_base::ActorId;
use pm_gate::{Quiet, Stopwatch, Ticker};
use pm_model::{Event, Helper, Line};
use pm_planread::{PlanFault, read_plan};
use std::alloc::Global;
use std::sync::Wait;
use std::thread::Threads;
use std::time::Clock as SystemClock;

/// Runs of one plan, each with a seed of its own.
const RUNS: u64 = 50;

/// Desks of one plan.
const DESKS: u32 = 20;

/// What the first return of a run may show, or not.
#[derive(Clone, Copy)]
pub enum Shown {
    /// Of two callers that do the same, the first is the first to return.
    IsFirst,
    /// A `get_if_active` beside a caller that enables its device is refused.
    IsRefused,
}

/// Whether this is shown by the first return of the lines, which is one of a `get_if_active` where that may be
/// refused.
fn is_shown(shown: Shown, lines: &[Line]) -> bool {
    for line in lines {
        if let Event::Ret { helper, code, .. } = line.event {
            match shown {
                Shown::IsFirst => return line.actor == ActorId::Caller(0),
                Shown::IsRefused if helper == Helper::GetIfActive => return code == -22,
                Shown::IsRefused => {}
            }
        }
    }
    false
}

/// This is shown in some of the runs by this many hands, and in some it isn't.
pub fn in_some<R: Threads + Wait + Sync>(
    rt: &R,
    alloc: Global,
    shown: Shown,
    hands: u32,
) -> Result<bool, PlanFault>
    requires some { 1 ≤ hands }
    requires few { hands ≤ 16 }
{
    let plan = match shown {
        Shown::IsFirst => TWICE,
        Shown::IsRefused => ASKS,
    };
    let plan = read_plan(alloc, plan)?;
    let (mut in_some, mut in_others) = (false, false);
    for seed in 0..RUNS {
        let clock = Ticker::new(Vec::from_slice(alloc, &[seed])?);
        let Some(lines) = lines_by(rt, alloc, &plan, hands, &clock, &Quiet)? else {
            return Ok(false);
        };
        let is_so = is_shown(shown, &lines);
        in_some |= is_so;
        in_others |= !is_so;
    }
    Ok(in_some && in_others)
}

/// A clock goes on only while hands rest: one hand rests once for each callback, and four come to the end too.
pub fn hands_rest<R: Threads + Wait + Sync>(rt: &R, alloc: Global) -> Result<bool, PlanFault> {
    let plan = read_plan(alloc, TIMED)?;
    let (alone, four) = (Resting::new(), Resting::new());
    let one = lines_by(rt, alloc, &plan, 1, &alone, &Quiet)?;
    let more = lines_by(rt, alloc, &plan, 4, &four, &Quiet)?;
    let (Some(one), Some(_)) = (one, more) else {
        return Ok(false);
    };
    let begun = begun(&one);
    Ok(resumed(&begun) == 2 && alone.rests() == resumes_and_suspends(&begun))
}

/// By a clock that can't be read, hands come to the end all the same.
pub fn silent_clock_ends<R: Threads + Wait + Sync>(
    rt: &R,
    alloc: Global,
) -> Result<bool, PlanFault> {
    let plan = read_plan(alloc, TIMED)?;
    let one = lines_by(rt, alloc, &plan, 1, &Silent, &Quiet)?;
    let four = lines_by(rt, alloc, &plan, 4, &Silent, &Quiet)?;
    Ok(one.is_some() && four.is_some())
}

/// A caller calls first within a second of each desk's run, though another waits for a second: time doesn't jump
/// while it is awaited.
pub fn desk_waits_for_callers<R: Threads + Wait + SystemClock + Sync>(
    rt: &R,
    alloc: Global,
) -> Result<bool, PlanFault> {
    for _ in 0..DESKS {
        let clock = Stopwatch::new(rt);
        let ran = written(rt, alloc, Way::Desk, LATER, &clock, &Quiet)?;
        if ran.status != 0 || !is_early(alloc, ran.out.taken())? {
            return Ok(false);
        }
    }
    Ok(true)
}

/// Whether the trace is lawful for `LATER`, and its second caller's first line comes before 1,000 ms.
fn is_early(alloc: Global, trace: &[u8]) -> Result<bool, PlanFault> {
    let Ok(book) = load_trace(alloc, read_plan(alloc, LATER)?, trace) else {
        return Ok(false);
    };
    for line in book.lines() {
        if line.actor == ActorId::Caller(1) {
            return Ok(line.time < 1_000);
        }
    }
    Ok(false)
}
