//! `run PLAN`: runs the plan by several threads.

ghost use Rattle.std.specs.Prelude.{◌≤◌, ◌≡◌, ◌≢◌, IsErrOf, IsSome};
ghost use Rattle.pm_io.specs.Asks.{AskedOnly};
ghost use Rattle.pm_io.specs.Faults.{Rose};
ghost use Rattle.pm_cmd_top.specs.Gathering.{IsFinishedRun};
ghost use Rattle.pm_cmd_ends.specs.Coming.{Came};
ghost use Rattle.pm_cmd_ends.specs.Ending.{Answered, taking};
ghost use Rattle.pm_cmd_ends.specs.Reading.{OfPlan};
ghost use Rattle.pm_cmd_top.specs.Runs.{RunEnds};

use crate::serial::write_serial;
use crate::writing::write_lines;
use crate::{gather, run_islands};
use pm_cmd_ends::{Fault, finish, load, promises_are_kept};
use pm_gate::{Clock, Gate};
use pm_io::{Files, Sink};
use pm_model::{Line, Plan};
use std::alloc::Global;
use std::sync::Wait;
use std::thread::Threads;

/// Runs `run PLAN`: reads the plan, runs it by 1 to 16 threads, each island of it behind a lock of its own,
/// and writes the lines that they come to, merged by time, to `out`. A message goes to `err`, and the answer
/// is the status that the program ends with. `clock` tells the threads the time, and `gate` is called while
/// a callback runs.
///
/// What the threads leave is known by its type alone. So a book that isn't of its island's part, or for
/// whose lines there isn't time, is replaced by a fresh one, and each is drained. Where that comes to no
/// finished run of the plan, one thread runs the plan, and its lines are written. This may wait for other
/// threads.
pub fn run_top<
    R: Threads + Wait + Sync,
    F: Files,
    O: Sink,
    E: Sink,
    C: Clock + Sync,
    G: Gate + Sync,
>(
    rt: &R,
    alloc: Global,
    plan: &str,
    hands: u32,
    files: &mut F,
    out: &mut O,
    err: &mut E,
    clock: &C,
    gate: &G,
) -> u8
    requires some { 1 ≤ hands }
    requires few { hands ≤ 16 }
    ensures answer { Answered (OfPlan F.tells_all (F.told files.old plan.now) RunEnds) result
        (Rose (F.faults files.old) (F.faults files.new))
        (taking O.taken O.faults out.old out.new) (taking E.taken E.faults err.old err.new) }
    ensures calm { result ≢ 4 → F.faults files.new ≡ F.faults files.old }
    ensures alone { IsSome (F.told files.old plan.now) → AskedOnly plan.now (F.asked files.old) (F.asked files.new) }
{
    finish(
        run_file(rt, alloc, plan, hands, files, out, clock, gate),
        err,
    )
}

/// Reads the plan, runs it by threads and writes the lines of a run.
fn run_file<R: Threads + Wait + Sync, F: Files, O: Sink, C: Clock + Sync, G: Gate + Sync>(
    rt: &R,
    alloc: Global,
    plan: &str,
    hands: u32,
    files: &mut F,
    out: &mut O,
    clock: &C,
    gate: &G,
) -> Result<(), Fault>
    requires some { 1 ≤ hands }
    requires few { hands ≤ 16 }
    ensures came { Came (OfPlan F.tells_all (F.told files.old plan.now) RunEnds) result
        (Rose (F.faults files.old) (F.faults files.new))
        (taking O.taken O.faults out.old out.new) }
    ensures calm { ¬ IsErrOf result Fault.ReadFailed → F.faults files.new ≡ F.faults files.old }
    ensures alone { IsSome (F.told files.old plan.now) → AskedOnly plan.now (F.asked files.old) (F.asked files.new) }
{
    let plan = load(alloc, plan, files)?;
    run_plan(rt, alloc, plan, hands, out, clock, gate)
}

/// Runs the plan by threads, and writes the lines that they come to, or where those are no finished run,
/// the lines of one thread.
fn run_plan<R: Threads + Wait + Sync, O: Sink, C: Clock + Sync, G: Gate + Sync>(
    rt: &R,
    alloc: Global,
    plan: Plan,
    hands: u32,
    out: &mut O,
    clock: &C,
    gate: &G,
) -> Result<(), Fault>
    requires some { 1 ≤ hands }
    requires few { hands ≤ 16 }
    ensures { Came (RunEnds plan) result ⊥ (taking O.taken O.faults out.old out.new) }
{
    let books = run_islands(rt, alloc, &plan, hands, clock, gate)?;
    match gather(alloc, &plan, books)? {
        Some(lines) => write_finished(alloc, &plan, lines.as_slice(), out),
        None => write_alone(alloc, plan, out),
    }
}

/// Writes the lines of a finished run.
pub(crate) fn write_finished<O: Sink>(
    alloc: Global,
    plan: &Plan,
    lines: &[Line],
    out: &mut O,
) -> Result<(), Fault>
    requires { IsFinishedRun plan.now lines.now }
    ensures { Came (RunEnds plan.now) result ⊥ (taking O.taken O.faults out.old out.new) }
{
    promises_are_kept();
    write_lines(alloc, plan, lines, out)
}

/// Writes the lines of the run that one thread makes.
pub(crate) fn write_alone<O: Sink>(alloc: Global, plan: Plan, out: &mut O) -> Result<(), Fault>
    ensures { Came (RunEnds plan) result ⊥ (taking O.taken O.faults out.old out.new) }
{
    write_serial(alloc, &plan, out)
}
