//! `order PLAN --expect FILE fails INDEX`: the trace of a run that breaks an expectation.

ghost use Rattle.std.specs.Prelude.{ℕ, ◌≡◌, ◌-◌, List, slice_get};
ghost use Rattle.pm_cmd_ends.specs.Ending.{taking};
ghost use Rattle.pm_io.specs.Asks.{AskedOnly};
ghost use Rattle.pm_io.specs.Faults.{Rose};
ghost use Rattle.pm_cmd_lab.specs.ends.Coming.{Came};
ghost use Rattle.pm_cmd_lab.specs.ends.Ending.{Answered, OfThis};
ghost use Rattle.pm_cmd_lab.specs.ends.Reading.{OfPlan};
ghost use Rattle.pm_cmd_lab.specs.find.Check.{OfExpectations};
ghost use Rattle.pm_cmd_lab.specs.order.Failing.{BreakEnds, FailingEnds, IsToldOfFile, IsPathBreaking};
ghost use Rattle.pm_cmd_lab.specs.order.Work.{CameTo, outcome_of_end};
ghost use Rattle.pm_cmd_lab.specs.orders.Expect.{ExpectUnread};

use crate::ends::{Fault, Outcome, finish, load};
use crate::find::{expectations, tell_unread};
use crate::order::breaking::path_breaking;
use crate::order::order::outcome_of_end;
use crate::order::stop::{Stop, end};
use crate::order::writing::write_lines;
use pm_expect::Expectations;
use pm_expect_report::broken::{Expectation, all_of};
use pm_expect_report::orders::no_expectation_text;
use pm_io::{Files, Sink};
use pm_lab_words::Bounds;
use pm_model::{Line, Plan};
use pm_outcomes::witness::{go_on, schedules_are_near};
use std::alloc::Global;

/// Runs `order PLAN --expect FILE fails INDEX`: reads the plan and the file of expectations, and writes to `out` the trace of a
/// run that breaks the expectation of this number, counted from 1: first the answers, then the ends, then the uses, each in the
/// file's order. It is of the plan's schedules at a pace and within bounds on preemptions and snapshots. A file of expectations that is
/// refused is told so on `out`. A message goes to `err`, and the answer is the status that the program ends with.
pub fn failing_top<F: Files, O: Sink, E: Sink>(
    alloc: Global,
    plan: &str,
    expect: &str,
    bounds: Bounds,
    index: u32,
    files: &mut F,
    out: &mut O,
    err: &mut E,
) -> u8
    ensures { Answered (OfPlan F.tells_all (F.told files.old plan.now) plan.now
        (OfExpectations F.tells_all (F.told files.old expect.now) expect.now (FailingEnds bounds index))) result
        (ExpectUnread F.tells_all (F.told files.old plan.now) plan.now expect.now
        (AskedOnly plan.now (F.asked files.old) (F.asked files.new))
        (Rose (F.faults files.old) (F.faults files.new)))
        (taking O.taken O.faults out.old out.new) (taking E.taken E.faults err.old err.new) }
{
    match load(alloc, plan, files) {
        Ok(read) => end(
            run_failing(alloc, read, expect, bounds, index, files, out),
            expect,
            err,
        ),
        Err(fault) => finish(Err(fault), plan, err),
    }
}

/// Reads the file of expectations, and writes a run that breaks one.
fn run_failing<F: Files, O: Sink>(
    alloc: Global,
    plan: Plan,
    expect: &str,
    bounds: Bounds,
    index: u32,
    files: &mut F,
    out: &mut O,
) -> Result<Outcome, Stop>
    ensures { CameTo (OfExpectations F.tells_all (F.told files.old expect.now) expect.now (FailingEnds bounds index) plan) result
        (Rose (F.faults files.old) (F.faults files.new))
        (taking O.taken O.faults out.old out.new) }
{
    match expectations(alloc, &plan, expect, files) {
        Ok(read) => write_failing(alloc, plan, &read.expected, bounds, index, out),
        Err(fault) => told_unread(fault, out),
    }
}

/// Tells why a file of expectations isn't read.
fn told_unread<O: Sink>(fault: Fault, out: &mut O) -> Result<Outcome, Stop>
    ensures { IsToldOfFile fault result (taking O.taken O.faults out.old out.new) }
{
    let told = tell_unread(fault, out)?;
    Ok(told)
}

/// The expectation of a number, from 1.
fn expectation_at(all: &[Expectation], index: u32) -> Option<Expectation>
    ensures { result ≡ slice_get all.now (index - 1) }
{
    all.get((index as usize).saturating_sub(1)).copied()
}

/// Writes a run that breaks the expectation of a number, where the file has one.
fn write_failing<O: Sink>(
    alloc: Global,
    plan: Plan,
    expected: &Expectations,
    bounds: Bounds,
    index: u32,
    out: &mut O,
) -> Result<Outcome, Stop>
    ensures { (text : List ℕ) → CameTo (FailingEnds bounds index plan text expected.now) result ⊥ (taking O.taken O.faults out.old out.new) }
{
    let all = all_of(alloc, expected)?;
    match expectation_at(all.as_slice(), index) {
        Some(each) => write_breaking(alloc, plan, bounds, each, out),
        None => {
            let text = no_expectation_text(alloc, index as usize, all.len())?;
            Err(Stop::Fault(Fault::Refused { text }))
        }
    }
}

/// Writes a run that breaks an expectation.
fn write_breaking<O: Sink>(
    alloc: Global,
    plan: Plan,
    bounds: Bounds,
    each: Expectation,
    out: &mut O,
) -> Result<Outcome, Stop>
    ensures { CameTo (BreakEnds bounds plan each) result ⊥ (taking O.taken O.faults out.old out.new) }
{
    let lines = path_breaking(alloc, &plan, bounds, each)?;
    let outcome = write_broken(alloc, plan, bounds, each, lines.as_slice(), out)?;
    Ok(outcome)
}

/// Writes the run to which one thread goes on from a schedule. Everything that takes memory comes before the first write.
fn write_broken<O: Sink>(
    alloc: Global,
    plan: Plan,
    _bounds: Bounds,
    _each: Expectation,
    lines: &[Line],
    out: &mut O,
) -> Result<Outcome, Fault>
    requires path { IsPathBreaking _bounds plan _each lines.now }
    ensures { Came (BreakEnds _bounds plan _each) result ⊥ (taking O.taken O.faults out.old out.new) }
{
    schedules_are_near();
    let gone = go_on(alloc, plan, lines)?;
    let told = outcome_of_end(gone.end);
    let spelled = gone.book.plan();
    let run = gone.book.lines();
    write_lines(alloc, spelled, run, told, out)
}
