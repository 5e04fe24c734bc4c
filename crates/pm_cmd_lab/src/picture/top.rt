//! `picture PLAN TRACE`: a picture of a run.

ghost use Rattle.std.specs.Prelude.{◌≡◌, IfOk};
ghost use Rattle.pm_cmd_ends.specs.Coming.{trace_too_long};
ghost use Rattle.pm_cmd_ends.specs.Ending.{taking};
ghost use Rattle.pm_io.specs.Asks.{AskedOnly};
ghost use Rattle.pm_io.specs.Faults.{Rose};
ghost use Rattle.pm_cmd_lab.specs.ends.Coming.{Came};
ghost use Rattle.pm_cmd_lab.specs.ends.Ending.{Answered};
ghost use Rattle.pm_cmd_lab.specs.ends.Reading.{OfPlan};
ghost use Rattle.pm_cmd_lab.specs.picture.Picture.{DrawnEnds, OfPicture, PictureUnread, outcome_of_picture};

use crate::ends::{Fault, Outcome, finish, load, write_text};
use crate::picture::telling::{Drawn, draw_file};
use pm_base::NoMemory;
use pm_io::{FileFault, Files, Sink};
use pm_model::Plan;
use std::alloc::Global;

/// Runs `picture PLAN TRACE`: reads the plan and the trace, and writes to `out` a picture of the run as SVG, or with `json`
/// its timeline as JSON. A message goes to `err`, and the answer is the status that the program ends with.
pub fn picture_top<F: Files, O: Sink, E: Sink>(
    alloc: Global,
    plan: &str,
    trace: &str,
    json: bool,
    files: &mut F,
    out: &mut O,
    err: &mut E,
) -> u8
    ensures { Answered (OfPlan F.tells_all (F.told files.old plan.now) plan.now
        (OfPicture F.tells_all (F.told files.old trace.now) trace.now json)) result
        (PictureUnread F.tells_all (F.told files.old plan.now) plan.now trace.now
        (AskedOnly plan.now (F.asked files.old) (F.asked files.new))
        (Rose (F.faults files.old) (F.faults files.new)))
        (taking O.taken O.faults out.old out.new) (taking E.taken E.faults err.old err.new) }
{
    match load(alloc, plan, files) {
        Ok(read) => finish(
            run_picture(alloc, read, trace, json, files, out),
            trace,
            err,
        ),
        Err(fault) => finish(Err(fault), plan, err),
    }
}

/// Reads the trace, and writes the picture of its run of the plan.
fn run_picture<F: Files, O: Sink>(
    alloc: Global,
    plan: Plan,
    trace: &str,
    json: bool,
    files: &mut F,
    out: &mut O,
) -> Result<Outcome, Fault>
    ensures { Came (OfPicture F.tells_all (F.told files.old trace.now) trace.now json plan) result
        (Rose (F.faults files.old) (F.faults files.new))
        (taking O.taken O.faults out.old out.new) }
{
    match draw_file(alloc, plan, trace, json, files) {
        Ok(drawn) => write_drawn(&drawn, out),
        Err(FileFault::TooLong) => {
            let text = too_long_text(alloc)?;
            Err(Fault::Refused { text })
        }
        Err(FileFault::Failed) => Err(Fault::ReadFailed),
        Err(FileFault::NoMemory) => Err(Fault::NoMemory),
    }
}

/// What is told of a trace that is too long.
fn too_long_text(alloc: Global) -> Result<Vec<u8>, NoMemory>
    ensures { IfOk result (λ text. text.items ≡ trace_too_long) }
{
    let text = Vec::from_slice(alloc, b"trace: too_long\n")?;
    Ok(text)
}

/// Writes what was drawn.
fn write_drawn<O: Sink>(drawn: &Drawn, out: &mut O) -> Result<Outcome, Fault>
    ensures { Came (DrawnEnds drawn.now) result ⊥ (taking O.taken O.faults out.old out.new) }
{
    write_text(
        drawn.text.as_slice(),
        outcome_of_picture(drawn.is_lawful),
        out,
    )
}

/// What the command told, by whether the trace is that of a lawful run.
fn outcome_of_picture(is_lawful: bool) -> Outcome
    ensures { result ≡ outcome_of_picture is_lawful }
{
    if is_lawful {
        Outcome::Done
    } else {
        Outcome::Found
    }
}
