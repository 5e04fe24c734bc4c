//! `order FILE finding N`: the trace of a run that shows what `find FILE` tells, or its plan.

ghost use Rattle.std.specs.Prelude.{◌≡◌, false, reverse, true};
ghost use Rattle.pm_cmd_ends.specs.Ending.{taking};
ghost use Rattle.pm_io.specs.Faults.{Rose};
ghost use Rattle.pm_cmd_lab.specs.ends.Coming.{Came};
ghost use Rattle.pm_cmd_lab.specs.ends.Ending.{Answered, OfThis};
ghost use Rattle.pm_cmd_lab.specs.order.Finding.{FindingEnds, FindingEndsOf, OfFinding, OfWitness};
ghost use Rattle.pm_cmd_lab.specs.order.Work.{CameTo};
ghost use Rattle.pm_driver_report.specs.Witnessed.{WitnessesDriver};
ghost use Rattle.pm_model.specs.Lawful.{IsLawful};
ghost use Rattle.pm_outcomes.specs.witness.Going.{IsNear};

use crate::ends::{Fault, Outcome, plan_bytes, write_text};
use crate::order::order::outcome_of_end;
use crate::order::stop::{Stop, end};
use crate::order::writing::write_lines;
use pm_driver_read::{Driver, DriverFault, read_driver};
use pm_driver_report::{
    DriverWitness, WitnessedRun, lists_message, no_finding_text, unmade_text, witness_driver,
};
use pm_io::{Files, Sink};
use pm_lab_words::DriverBounds;
use pm_model::Line;
use pm_outcomes::witness::go_on;
use pm_say_driver::say_file;
use std::alloc::Global;

/// Which finding of a driver is asked for, and whether the plan of its run is.
#[derive(Clone, Copy)]
pub struct FindingAsked {
    pub bounds: DriverBounds,
    pub notes: bool,
    /// Its plan, and not its trace.
    pub plan: bool,
    /// Counted from 1.
    pub number: u32,
}

/// Runs `order FILE finding N`: reads the driver's file and writes to `out` the trace of a run that shows the finding of this number, of
/// those that `find FILE` tells with the same options, or the plan of that run. A message goes to `err`, and the answer is the status that
/// the program ends with.
pub fn finding_top<F: Files, O: Sink, E: Sink>(
    alloc: Global,
    file: &str,
    asked: FindingAsked,
    files: &mut F,
    out: &mut O,
    err: &mut E,
) -> u8
    ensures { Answered (FindingEnds F.tells_all (F.told files.old file.now) file.now asked) result
        (OfThis file.now (Rose (F.faults files.old) (F.faults files.new)))
        (taking O.taken O.faults out.old out.new) (taking E.taken E.faults err.old err.new) }
{
    end(run_finding(alloc, file, asked, files, out), file, err)
}

/// Reads the driver's file, and writes the run of a finding or its plan.
fn run_finding<F: Files, O: Sink>(
    alloc: Global,
    file: &str,
    asked: FindingAsked,
    files: &mut F,
    out: &mut O,
) -> Result<Outcome, Stop>
    ensures { CameTo (FindingEnds F.tells_all (F.told files.old file.now) file.now asked) result
        (Rose (F.faults files.old) (F.faults files.new))
        (taking O.taken O.faults out.old out.new) }
{
    match plan_bytes(alloc, file, files) {
        Ok(bytes) => write_finding(alloc, file, &bytes, asked, out),
        Err(fault) => Err(Stop::Fault(fault)),
    }
}

/// Writes the run of a finding of a driver's bytes, or its plan.
fn write_finding<O: Sink>(
    alloc: Global,
    file: &str,
    bytes: &[u8],
    asked: FindingAsked,
    out: &mut O,
) -> Result<Outcome, Stop>
    ensures { CameTo (FindingEndsOf file.now asked bytes.now) result ⊥ (taking O.taken O.faults out.old out.new) }
{
    match read_driver(alloc, bytes) {
        Ok(driver) => write_witness(alloc, file, &driver, asked, out),
        Err(DriverFault::Refused { refusal: _ }) => {
            let said = say_file(alloc, file.as_bytes(), bytes)?;
            Err(Stop::Fault(Fault::Refused { text: said.text }))
        }
        Err(DriverFault::NoMemory) => Err(Stop::Fault(Fault::NoMemory)),
    }
}

/// Writes the run of a finding of a driver, or its plan.
fn write_witness<O: Sink>(
    alloc: Global,
    file: &str,
    driver: &Driver,
    asked: FindingAsked,
    out: &mut O,
) -> Result<Outcome, Stop>
    ensures { CameTo (OfFinding file.now driver.now asked) result ⊥ (taking O.taken O.faults out.old out.new) }
{
    let found = witness_driver(alloc, driver, asked.bounds, asked.notes, asked.number)?;
    write_found(alloc, file, driver, asked, found, out)
}

/// Writes what the run of a finding came to.
fn write_found<O: Sink>(
    alloc: Global,
    file: &str,
    _driver: &Driver,
    asked: FindingAsked,
    found: DriverWitness,
    out: &mut O,
) -> Result<Outcome, Stop>
    requires found { WitnessesDriver _driver.now asked.bounds asked.notes asked.number found }
    ensures { CameTo (OfFinding file.now _driver.now asked) result ⊥ (taking O.taken O.faults out.old out.new) }
{
    match found {
        DriverWitness::Shown(made) => write_made(alloc, asked.plan, made, out),
        DriverWitness::Fewer(count) => {
            let text = no_finding_text(alloc, asked.number as usize, count)?;
            Err(Stop::Fault(Fault::Refused { text }))
        }
        DriverWitness::TooLong => Err(Stop::Unseen(unmade_text(alloc)?)),
        DriverWitness::Refused => {
            let text = lists_message(alloc, file.as_bytes())?;
            Err(Stop::Fault(Fault::Refused { text }))
        }
    }
}

/// Writes a run that was made, or its plan.
fn write_made<O: Sink>(
    alloc: Global,
    plan: bool,
    made: WitnessedRun,
    out: &mut O,
) -> Result<Outcome, Stop>
    requires lawful { IsLawful made.run.plan (reverse made.lines.items) }
    ensures { CameTo (OfWitness plan made) result ⊥ (taking O.taken O.faults out.old out.new) }
{
    if plan {
        let outcome = write_plan(made, out)?;
        return Ok(outcome);
    }
    write_near(alloc, made, out)
}

/// Writes the plan of a run.
fn write_plan<O: Sink>(made: WitnessedRun, out: &mut O) -> Result<Outcome, Fault>
    ensures { Came (OfWitness true made) result ⊥ (taking O.taken O.faults out.old out.new) }
{
    write_text(made.run.text.as_slice(), Outcome::Done, out)
}

/// Writes a run, where its lines come near one another.
#[tactic(auto, using(crate::proofs::order::FindingLemmas::run_unseen))]
fn write_near<O: Sink>(alloc: Global, made: WitnessedRun, out: &mut O) -> Result<Outcome, Stop>
    requires lawful { IsLawful made.run.plan (reverse made.lines.items) }
    ensures { CameTo (OfWitness false made) result ⊥ (taking O.taken O.faults out.old out.new) }
{
    if !come_near(made.lines.as_slice()) {
        let text = unmade_text(alloc)?;
        return Err(Stop::Unseen(text));
    }
    let outcome = write_run(alloc, made, out)?;
    Ok(outcome)
}

/// Whether each line comes at most 1,000,000 milliseconds after the one before.
#[tactic(auto, using(crate::proofs::order::NearLemmas::near_all))]
fn come_near(lines: &[Line]) -> bool
    ensures { result ≡ true → IsNear (reverse lines.now) }
{
    let mut last = 0u64;
    for line in lines {
        if line.time > last.saturating_add(1_000_000) {
            return false;
        }
        last = line.time;
    }
    true
}

/// Writes the run to which one thread goes on from the lines of a schedule. Everything that takes memory comes before the first write.
fn write_run<O: Sink>(alloc: Global, made: WitnessedRun, out: &mut O) -> Result<Outcome, Fault>
    requires lawful { IsLawful made.run.plan (reverse made.lines.items) }
    requires near { IsNear (reverse made.lines.items) }
    ensures { Came (OfWitness false made) result ⊥ (taking O.taken O.faults out.old out.new) }
{
    let WitnessedRun { lines, run } = made;
    let gone = go_on(alloc, run.plan, lines.as_slice())?;
    let told = outcome_of_end(gone.end);
    let spelled = gone.book.plan();
    let run = gone.book.lines();
    write_lines(alloc, spelled, run, told, out)
}
