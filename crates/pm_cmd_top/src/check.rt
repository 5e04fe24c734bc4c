//! `check PLAN`: reads the plan and counts.

ghost use Rattle.std.specs.Prelude.{◌≡◌, ◌≢◌, IsErrOf, IsSome};
ghost use Rattle.pm_io.specs.Asks.{AskedOnly};
ghost use Rattle.pm_io.specs.Faults.{Rose};
ghost use Rattle.pm_cmd_ends.specs.Coming.{Came};
ghost use Rattle.pm_cmd_top.specs.Commands.{CheckEnds};
ghost use Rattle.pm_cmd_ends.specs.Ending.{Answered, taking};
ghost use Rattle.pm_cmd_ends.specs.Reading.{OfPlan};

use crate::counts::counts_text;
use pm_cmd_ends::{Fault, finish, load};
use pm_io::{Files, Sink, write_whole};
use pm_islands::islands;
use pm_model::Plan;
use std::alloc::Global;

/// Runs `check PLAN`: reads the plan and writes the line of its counts to `out`. A message goes to `err`,
/// and the answer is the status that the program ends with.
pub fn check_top<F: Files, O: Sink, E: Sink>(
    alloc: Global,
    plan: &str,
    files: &mut F,
    out: &mut O,
    err: &mut E,
) -> u8
    ensures answer { Answered (OfPlan F.tells_all (F.told files.old plan.now) CheckEnds) result
        (Rose (F.faults files.old) (F.faults files.new))
        (taking O.taken O.faults out.old out.new) (taking E.taken E.faults err.old err.new) }
    ensures calm { result ≢ 4 → F.faults files.new ≡ F.faults files.old }
    ensures alone { IsSome (F.told files.old plan.now) → AskedOnly plan.now (F.asked files.old) (F.asked files.new) }
{
    finish(run_check(alloc, plan, files, out), err)
}

/// Reads the plan and writes the line of its counts.
fn run_check<F: Files, O: Sink>(
    alloc: Global,
    plan: &str,
    files: &mut F,
    out: &mut O,
) -> Result<(), Fault>
    ensures came { Came (OfPlan F.tells_all (F.told files.old plan.now) CheckEnds) result
        (Rose (F.faults files.old) (F.faults files.new))
        (taking O.taken O.faults out.old out.new) }
    ensures calm { ¬ IsErrOf result Fault.ReadFailed → F.faults files.new ≡ F.faults files.old }
    ensures alone { IsSome (F.told files.old plan.now) → AskedOnly plan.now (F.asked files.old) (F.asked files.new) }
{
    let plan = load(alloc, plan, files)?;
    write_counts(alloc, &plan, out)
}

/// Writes the line of a plan's counts.
fn write_counts<O: Sink>(alloc: Global, plan: &Plan, out: &mut O) -> Result<(), Fault>
    ensures { Came (CheckEnds plan.now) result ⊥ (taking O.taken O.faults out.old out.new) }
{
    let text = counts_text(alloc, plan, islands(plan))?;
    write_whole(out, text.as_slice())?;
    Ok(())
}
