//! `order PLAN CALLER N CODE` and `order PLAN end DEVICE STATUS USAGE ERROR`: the trace of a run that shows it.

ghost use Rattle.std.specs.Prelude.{◌≡◌, Ok};
ghost use Rattle.pm_cmd_ends.specs.Ending.{taking};
ghost use Rattle.pm_io.specs.Faults.{Rose};
ghost use Rattle.pm_cmd_lab.specs.ends.Coming.{Came};
ghost use Rattle.pm_cmd_lab.specs.ends.Ending.{Answered, OfThis};
ghost use Rattle.pm_cmd_lab.specs.ends.Reading.{OfPlan};
ghost use Rattle.pm_cmd_lab.specs.order.Order.{ObservationEnds, OrderEnds};
ghost use Rattle.pm_lab_words.specs.Request.{sought_in};
ghost use Rattle.pm_cmd_lab.specs.order.Work.{CameTo, IsPathTo, outcome_of_end};

use crate::ends::{Fault, Outcome, load};
use crate::order::path::path_of;
use crate::order::stop::{Stop, end};
use crate::order::writing::write_lines;
use pm_io::{Files, Sink};
use pm_lab_words::{Bounds, Sought};
use pm_model::{Line, Plan};
use pm_outcomes::islands::islands_stand_alone;
use pm_outcomes::list::Observation;
use pm_outcomes::wanted::{missing_text, observation_sought};
use pm_outcomes::witness::{go_on, schedules_are_near};
use pm_serial::End;
use std::alloc::Global;

/// Runs `order PLAN`: reads the plan, and writes to `out` the trace of a run that shows what is asked for, of the schedules of
/// one island at a pace and within bounds on preemptions and snapshots. A message goes to `err`, and the answer is the status that the
/// program ends with.
pub fn order_top<F: Files, O: Sink, E: Sink>(
    alloc: Global,
    plan: &str,
    bounds: Bounds,
    asked: Sought<'_>,
    files: &mut F,
    out: &mut O,
    err: &mut E,
) -> u8
    ensures { Answered (OfPlan F.tells_all (F.told files.old plan.now) plan.now (OrderEnds bounds (sought_in asked.entry))) result
        (OfThis plan.now (Rose (F.faults files.old) (F.faults files.new)))
        (taking O.taken O.faults out.old out.new) (taking E.taken E.faults err.old err.new) }
{
    end(
        run_order(alloc, plan, bounds, &asked, files, out),
        plan,
        err,
    )
}

/// Reads the plan and writes a run that shows what is asked for.
fn run_order<F: Files, O: Sink>(
    alloc: Global,
    plan: &str,
    bounds: Bounds,
    asked: &Sought<'_>,
    files: &mut F,
    out: &mut O,
) -> Result<Outcome, Stop>
    ensures { CameTo (OfPlan F.tells_all (F.told files.old plan.now) plan.now (OrderEnds bounds (sought_in asked.now))) result
        (Rose (F.faults files.old) (F.faults files.new))
        (taking O.taken O.faults out.old out.new) }
{
    let plan = load(alloc, plan, files)?;
    write_asked(alloc, plan, bounds, asked, out)
}

/// Writes a run of a plan that shows what is asked for, where the plan has what the words name.
fn write_asked<O: Sink>(
    alloc: Global,
    plan: Plan,
    bounds: Bounds,
    asked: &Sought<'_>,
    out: &mut O,
) -> Result<Outcome, Stop>
    ensures { CameTo (OrderEnds bounds (sought_in asked.now) plan) result ⊥ (taking O.taken O.faults out.old out.new) }
{
    match observation_sought(&plan, asked) {
        Ok(observation) => write_order(alloc, plan, bounds, observation, out),
        Err(missing) => {
            let text = missing_text(alloc, &plan, asked, missing)?;
            Err(Stop::Fault(Fault::Refused { text }))
        }
    }
}

/// Writes a run of a plan that shows an observation.
fn write_order<O: Sink>(
    alloc: Global,
    plan: Plan,
    bounds: Bounds,
    observation: Observation,
    out: &mut O,
) -> Result<Outcome, Stop>
    ensures { CameTo (ObservationEnds bounds plan observation) result ⊥ (taking O.taken O.faults out.old out.new) }
{
    let lines = path_of(alloc, &plan, bounds, observation)?;
    let outcome = write_shown(alloc, plan, bounds, observation, lines.as_slice(), out)?;
    Ok(outcome)
}

/// How a run that ends so is told of.
pub fn outcome_of_end(end: End) -> Outcome
    ensures { result ≡ outcome_of_end end }
{
    match end {
        End::Finished => Outcome::Done,
        End::AtLimit => Outcome::AtLimit,
    }
}

/// Writes the run to which one thread goes on from a schedule of an island. Everything that takes memory comes before the first write.
fn write_shown<O: Sink>(
    alloc: Global,
    plan: Plan,
    _bounds: Bounds,
    _observation: Observation,
    lines: &[Line],
    out: &mut O,
) -> Result<Outcome, Fault>
    requires path { IsPathTo _bounds plan _observation lines.now }
    ensures { Came (ObservationEnds _bounds plan _observation) result ⊥ (taking O.taken O.faults out.old out.new) }
{
    islands_stand_alone();
    schedules_are_near();
    let gone = go_on(alloc, plan, lines)?;
    let told = outcome_of_end(gone.end);
    let spelled = gone.book.plan();
    let run = gone.book.lines();
    write_lines(alloc, spelled, run, told, out)
}
