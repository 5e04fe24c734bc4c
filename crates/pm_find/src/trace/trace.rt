//! What is told of a trace's file.

ghost use Rattle.std.specs.Prelude.{◌≡◌, IfErr, IfOk};
ghost use Rattle.pm_find.specs.trace.Telling.{IsNotTold, IsTold};
ghost use Rattle.pm_find.specs.trace.Texts.{files_of};
ghost use Rattle.pm_io.specs.Faults.{Rose};

use crate::trace::places::PlanFile;
use crate::trace::telling::{Found, told_of};
use pm_base::TRACE_BYTES;
use pm_io::{FileFault, Files, read_all};
use pm_model::Plan;
use std::alloc::Global;

/// Reads the trace from its file, in either format, and tells what stands out in its run: a line for each of the
/// first 200 findings, with its place in the plan's file, with notes or without them, and how many there are. Of a trace that isn't lawful it tells
/// the first bad line.
pub fn find<F: Files>(
    alloc: Global,
    plan: Plan,
    trace: &str,
    file: PlanFile<'_>,
    notes: bool,
    files: &mut F,
) -> Result<Found, FileFault>
    ensures told { IfOk result (IsTold F.tells_all (F.told files.old trace.now) plan (files_of trace.now file.entry) notes) }
    ensures not_told { IfErr result (IsNotTold F.tells_all (F.told files.old trace.now)
        (Rose (F.faults files.old) (F.faults files.new))) }
{
    let bytes = read_all(alloc, files, trace, TRACE_BYTES)?;
    match told_of(alloc, plan, trace.as_bytes(), file, &bytes, notes) {
        Ok(found) => Ok(found),
        Err(_) => Err(FileFault::NoMemory),
    }
}
