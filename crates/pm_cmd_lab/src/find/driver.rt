//! `find FILE`: what is wrong in the schedules of a driver, and where in its file.

ghost use Rattle.std.specs.Prelude.{◌≡◌, Ok};
ghost use Rattle.pm_cmd_ends.specs.Ending.{taking};
ghost use Rattle.pm_io.specs.Faults.{Rose};
ghost use Rattle.pm_cmd_lab.specs.ends.Coming.{Came};
ghost use Rattle.pm_cmd_lab.specs.ends.Ending.{Answered, OfThis};
ghost use Rattle.pm_cmd_lab.specs.find.Driver.{DriverEnds, DriverEndsOf, ReportEnds};

use crate::ends::{Fault, Outcome, finish, plan_bytes, write_text};
use pm_driver_read::{DriverFault, read_driver};
use pm_driver_report::{DriverReport, ReportKind, report_driver};
use pm_io::{Files, Sink};
use pm_lab_words::DriverBounds;
use pm_say_driver::say_file;
use std::alloc::Global;

/// Runs `find FILE`: reads the driver's file and writes to `out` what is wrong in its schedules, and what was gone through. A
/// message goes to `err`, and the answer is the status that the program ends with.
pub fn find_driver_top<F: Files, O: Sink, E: Sink>(
    alloc: Global,
    file: &str,
    bounds: DriverBounds,
    notes: bool,
    files: &mut F,
    out: &mut O,
    err: &mut E,
) -> u8
    ensures { Answered (DriverEnds F.tells_all (F.told files.old file.now) file.now bounds notes) result
        (OfThis file.now (Rose (F.faults files.old) (F.faults files.new)))
        (taking O.taken O.faults out.old out.new) (taking E.taken E.faults err.old err.new) }
{
    finish(
        run_driver(alloc, file, bounds, notes, files, out),
        file,
        err,
    )
}

/// Reads the driver's file, and writes what is reported of it.
fn run_driver<F: Files, O: Sink>(
    alloc: Global,
    file: &str,
    bounds: DriverBounds,
    notes: bool,
    files: &mut F,
    out: &mut O,
) -> Result<Outcome, Fault>
    ensures { Came (DriverEnds F.tells_all (F.told files.old file.now) file.now bounds notes) result
        (Rose (F.faults files.old) (F.faults files.new))
        (taking O.taken O.faults out.old out.new) }
{
    match plan_bytes(alloc, file, files) {
        Ok(bytes) => write_driver(alloc, file, &bytes, bounds, notes, out),
        Err(fault) => Err(fault),
    }
}

/// Writes what is reported of a driver's bytes. Everything that takes memory comes before the first write.
fn write_driver<O: Sink>(
    alloc: Global,
    file: &str,
    bytes: &[u8],
    bounds: DriverBounds,
    notes: bool,
    out: &mut O,
) -> Result<Outcome, Fault>
    ensures { Came (DriverEndsOf file.now bounds notes bytes.now) result ⊥ (taking O.taken O.faults out.old out.new) }
{
    match read_driver(alloc, bytes) {
        Ok(driver) => {
            let report = report_driver(alloc, file.as_bytes(), bytes, &driver, bounds, notes)?;
            write_report(report, out)
        }
        Err(DriverFault::Refused { refusal: _ }) => {
            let said = say_file(alloc, file.as_bytes(), bytes)?;
            Err(Fault::Refused { text: said.text })
        }
        Err(DriverFault::NoMemory) => Err(Fault::NoMemory),
    }
}

/// Writes a report, unless it tells why nothing was gone through.
fn write_report<O: Sink>(report: DriverReport, out: &mut O) -> Result<Outcome, Fault>
    ensures { Came (ReportEnds report) result ⊥ (taking O.taken O.faults out.old out.new) }
{
    let text = report.text;
    match report.kind {
        ReportKind::Clean => write_text(text.as_slice(), Outcome::Done, out),
        ReportKind::Found => write_text(text.as_slice(), Outcome::Found, out),
        ReportKind::AtLimit => write_text(text.as_slice(), Outcome::AtLimit, out),
        ReportKind::Refused => Err(Fault::Refused { text }),
    }
}
