//! `make NUMBER DEVICES`: makes the plan of the generator and runs it.

ghost use Rattle.std.specs.Prelude.{◌≡◌, ◌≤◌, false, length};
ghost use Rattle.pm_base.specs.declared.limits.TheConstants.{MAX_DEVICES};
ghost use Rattle.pm_report.specs.Report.{summary, summary_text};
ghost use Rattle.pm_model.specs.Serial.{serial};
ghost use Rattle.pm_cmd_ends.specs.Coming.{Came, Wrote};
ghost use Rattle.pm_cmd_top.specs.Commands.{MakeEnds, SummaryEnds};
ghost use Rattle.pm_cmd_ends.specs.Ending.{Answered, taking};

use crate::{ended, is_whole};
use pm_cmd_ends::{Fault, finish, promises_are_kept};
use pm_io::{Sink, write_whole};
use pm_make::make_plan;
use pm_model::Plan;
use pm_report::{Summary, one_more, summary, summary_text};
use pm_serial::{SerialLines, serial_lines_are_lawful};
use std::alloc::Global;

/// Runs `make NUMBER DEVICES`: makes the plan of the generator for the number and 1 to 1,024 devices, runs
/// it on one thread and writes the summary of its run to `out`. A message goes to `err`, and the answer is
/// the status that the program ends with. It reads no file.
pub fn make_top<O: Sink, E: Sink>(
    alloc: Global,
    number: u64,
    devices: u32,
    out: &mut O,
    err: &mut E,
) -> u8
    requires least { 1 ≤ devices }
    requires most { devices ≤ MAX_DEVICES }
    ensures { Answered (MakeEnds number devices) result ⊥
        (taking O.taken O.faults out.old out.new) (taking E.taken E.faults err.old err.new) }
{
    finish(run_make(alloc, number, devices, out), err)
}

/// Makes the plan, runs it and writes the summary of its run.
fn run_make<O: Sink>(alloc: Global, number: u64, devices: u32, out: &mut O) -> Result<(), Fault>
    requires least { 1 ≤ devices }
    requires most { devices ≤ MAX_DEVICES }
    ensures { Came (MakeEnds number devices) result ⊥ (taking O.taken O.faults out.old out.new) }
{
    let plan = make_plan(alloc, number, devices)?;
    count_run(alloc, &plan, out)
}

/// Runs the plan on one thread and writes the summary of its run. No line is kept.
fn count_run<O: Sink>(alloc: Global, plan: &Plan, out: &mut O) -> Result<(), Fault>
    ensures { Came (SummaryEnds plan.now) result ⊥ (taking O.taken O.faults out.old out.new) }
{
    serial_lines_are_lawful();
    promises_are_kept();
    let mut lines = SerialLines::start(alloc, plan)?;
    let counts = counted(plan, &mut lines);
    let end = lines.end();
    let sum = Summary {
        finished: is_whole(end),
        ..counts
    };
    write_summary(alloc, &sum, out)?;
    ended(end)
}

/// The counts of a run that begins, each line counted as it comes.
fn counted(plan: &Plan, lines: &mut SerialLines) -> Summary
    requires plan { lines.old.plan ≡ plan.now }
    requires start { lines.old.came ≡ 0 }
    ensures counts { result ≡ summary plan.now (serial plan.now) false }
    ensures whole { lines.new.came ≡ length (serial plan.now) }
    ensures plan { lines.new.plan ≡ plan.now }
{
    serial_lines_are_lawful();
    let mut sum = summary(plan, &[], false);
    while let Some(line) = lines.next() {
        sum = one_more(&sum, &line);
    }
    sum
}

/// Writes the text of a summary.
fn write_summary<O: Sink>(alloc: Global, sum: &Summary, out: &mut O) -> Result<(), Fault>
    ensures { Wrote (summary_text sum.now) result (taking O.taken O.faults out.old out.new) }
{
    let text = summary_text(alloc, sum)?;
    write_whole(out, text.as_slice())?;
    Ok(())
}
