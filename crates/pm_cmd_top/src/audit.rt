//! `audit PLAN TRACE`: judges a trace.

ghost use Rattle.std.specs.Prelude.{◌≡◌, ◌≢◌, IsErrOf};
ghost use Rattle.pm_audit.specs.Auditing.{verdict_of};
ghost use Rattle.pm_io.specs.Asks.{AskedOnly};
ghost use Rattle.pm_io.specs.Faults.{Rose};
ghost use Rattle.pm_cmd_ends.specs.Coming.{Came};
ghost use Rattle.pm_cmd_ends.specs.Ending.{Answered, taking};
ghost use Rattle.pm_cmd_ends.specs.Reading.{OfPlan};
ghost use Rattle.pm_cmd_ends.specs.Told.{IsNoPlan};
ghost use Rattle.pm_cmd_top.specs.TraceCommands.{OfAudit, verdict_work};

use crate::feeding::judge_trace;
use pm_audit::Verdict;
use pm_cmd_ends::{Fault, finish, load, promises_are_kept, verdict_line};
use pm_io::{Files, Sink, write_whole};
use pm_model::Plan;
use std::alloc::Global;

/// Runs `audit PLAN TRACE`: reads the plan, and then the trace to its end or to one byte more than a trace
/// may have, and writes the line of its verdict to `out`. A message goes to `err`, and the answer is the
/// status that the program ends with. Neither the trace nor its lines are kept.
pub fn audit_top<F: Files, O: Sink, E: Sink>(
    alloc: Global,
    plan: &str,
    trace: &str,
    files: &mut F,
    out: &mut O,
    err: &mut E,
) -> u8
    ensures answer { Answered (OfPlan F.tells_all (F.told files.old plan.now)
        (OfAudit F.tells_all (F.told files.old trace.now))) result
        (Rose (F.faults files.old) (F.faults files.new))
        (taking O.taken O.faults out.old out.new) (taking E.taken E.faults err.old err.new) }
    ensures calm { result ≢ 4 → F.faults files.new ≡ F.faults files.old }
    ensures alone { IsNoPlan (F.told files.old plan.now) → AskedOnly plan.now (F.asked files.old) (F.asked files.new) }
{
    finish(run_audit(alloc, plan, trace, files, out), err)
}

/// Reads the plan, and judges the trace by it.
fn run_audit<F: Files, O: Sink>(
    alloc: Global,
    plan: &str,
    trace: &str,
    files: &mut F,
    out: &mut O,
) -> Result<(), Fault>
    ensures came { Came (OfPlan F.tells_all (F.told files.old plan.now)
        (OfAudit F.tells_all (F.told files.old trace.now))) result
        (Rose (F.faults files.old) (F.faults files.new))
        (taking O.taken O.faults out.old out.new) }
    ensures calm { ¬ IsErrOf result Fault.ReadFailed → F.faults files.new ≡ F.faults files.old }
    ensures alone { IsNoPlan (F.told files.old plan.now) → AskedOnly plan.now (F.asked files.old) (F.asked files.new) }
{
    let plan = load(alloc, plan, files)?;
    audit_by(alloc, plan, trace, files, out)
}

/// Judges the trace, and writes the line of its verdict.
fn audit_by<F: Files, O: Sink>(
    alloc: Global,
    plan: Plan,
    trace: &str,
    files: &mut F,
    out: &mut O,
) -> Result<(), Fault>
    ensures came { Came (OfAudit F.tells_all (F.told files.old trace.now) plan) result
        (Rose (F.faults files.old) (F.faults files.new))
        (taking O.taken O.faults out.old out.new) }
    ensures calm { ¬ IsErrOf result Fault.ReadFailed → F.faults files.new ≡ F.faults files.old }
{
    promises_are_kept();
    let verdict = judge_trace(alloc, plan, trace, files)?;
    write_whole(out, verdict_line(verdict).as_slice())?;
    verdict_work(verdict)
}

/// How the work of the command is done that wrote the line of this verdict.
fn verdict_work(verdict: Verdict) -> Result<(), Fault>
    ensures { result ≡ verdict_work (verdict_of verdict) }
{
    match verdict {
        Verdict::YesFinished | Verdict::YesOpen => Ok(()),
        Verdict::No { .. } => Err(Fault::SaidNo),
    }
}
