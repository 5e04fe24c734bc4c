//! `find PLAN TRACE`: what stands out in a run, and where.

ghost use Rattle.std.specs.Prelude.{◌≡◌, IfOk, Ok};
ghost use Rattle.pm_cmd_ends.specs.Coming.{trace_too_long};
ghost use Rattle.pm_cmd_ends.specs.Ending.{taking};
ghost use Rattle.pm_io.specs.Asks.{AskedOnly};
ghost use Rattle.pm_io.specs.Faults.{Rose};
ghost use Rattle.pm_cmd_lab.specs.find.Find.{FindEnds, FindUnread, OfFind, outcome_of_find};
ghost use Rattle.pm_cmd_lab.specs.ends.Coming.{Came};
ghost use Rattle.pm_cmd_lab.specs.ends.Ending.{Answered};
ghost use Rattle.pm_cmd_lab.specs.ends.Reading.{OfPlan};
ghost use Rattle.pm_planread.specs.PlanOf.{contents_of, plan_of};

use crate::ends::{Fault, Loaded, Outcome, finish, load_text, write_text};
use pm_base::NoMemory;
use pm_find::trace::{Found, PlanFile, find};
use pm_io::{FileFault, Files, Sink};
use std::alloc::Global;

/// Runs `find PLAN TRACE`: reads the plan and the trace, and writes to `out` what stands out in the run, with notes
/// or without them. A message goes to `err`, and the answer is the status that the program ends with.
pub fn find_top<F: Files, O: Sink, E: Sink>(
    alloc: Global,
    plan: &str,
    trace: &str,
    notes: bool,
    files: &mut F,
    out: &mut O,
    err: &mut E,
) -> u8
    ensures { Answered (OfPlan F.tells_all (F.told files.old plan.now) plan.now
        (OfFind F.tells_all (F.told files.old trace.now) plan.now trace.now notes)) result
        (FindUnread F.tells_all (F.told files.old plan.now) plan.now trace.now
        (AskedOnly plan.now (F.asked files.old) (F.asked files.new))
        (Rose (F.faults files.old) (F.faults files.new)))
        (taking O.taken O.faults out.old out.new) (taking E.taken E.faults err.old err.new) }
{
    match load_text(alloc, plan, files) {
        Ok(read) => finish(
            run_find(alloc, read, plan, trace, notes, files, out),
            trace,
            err,
        ),
        Err(fault) => finish(Err(fault), plan, err),
    }
}

/// Reads the trace, and writes what stands out in the run of the plan.
fn run_find<F: Files, O: Sink>(
    alloc: Global,
    read: Loaded,
    name: &str,
    trace: &str,
    notes: bool,
    files: &mut F,
    out: &mut O,
) -> Result<Outcome, Fault>
    requires { plan_of read.text.items ≡ Ok (contents_of read.plan) }
    ensures { Came (OfFind F.tells_all (F.told files.old trace.now) name.now trace.now notes read.plan) result
        (Rose (F.faults files.old) (F.faults files.new))
        (taking O.taken O.faults out.old out.new) }
{
    let Loaded { plan, text } = read;
    let file = PlanFile {
        name: name.as_bytes(),
        text: &text,
    };
    match find(alloc, plan, trace, file, notes, files) {
        Ok(found) => write_found(&found, out),
        Err(FileFault::TooLong) => {
            let text = too_long_text(alloc)?;
            Err(Fault::Refused { text })
        }
        Err(FileFault::Failed) => Err(Fault::ReadFailed),
        Err(FileFault::NoMemory) => Err(Fault::NoMemory),
    }
}

/// What is told of a trace that is too long.
pub(crate) fn too_long_text(alloc: Global) -> Result<Vec<u8>, NoMemory>
    ensures { IfOk result (λ text. text.items ≡ trace_too_long) }
{
    let text = Vec::from_slice(alloc, b"trace: too_long\n")?;
    Ok(text)
}

/// Writes what was found.
pub(crate) fn write_found<O: Sink>(found: &Found, out: &mut O) -> Result<Outcome, Fault>
    ensures { Came (FindEnds found.now) result ⊥ (taking O.taken O.faults out.old out.new) }
{
    write_text(
        found.text.as_slice(),
        outcome_of_find(found.stands_out),
        out,
    )
}

/// What the command told, by whether an error or a warning is in it.
fn outcome_of_find(stands_out: bool) -> Outcome
    ensures { result ≡ outcome_of_find stands_out }
{
    if stands_out {
        Outcome::Found
    } else {
        Outcome::Done
    }
}
