//! `orders PLAN`: what each call may return and how each device may end, over the schedules of a plan.

ghost use Rattle.std.specs.Prelude.{◌≡◌, IfOk, false};
ghost use Rattle.pm_cmd_ends.specs.Ending.{taking};
ghost use Rattle.pm_io.specs.Faults.{Rose};
ghost use Rattle.pm_cmd_lab.specs.orders.Found.{IsFound, IsLedThrough};
ghost use Rattle.pm_cmd_lab.specs.orders.Orders.{OrdersEnds, pace_of};
ghost use Rattle.pm_cmd_lab.specs.orders.OrdersOutcome.{outcome_of_schedules};
ghost use Rattle.pm_cmd_lab.specs.ends.Coming.{Came};
ghost use Rattle.pm_cmd_lab.specs.ends.Ending.{Answered, OfThis};
ghost use Rattle.pm_cmd_lab.specs.ends.Reading.{OfPlan};
ghost use Rattle.pm_explore.specs.declared.search.found.Ended.TheVariants.{Stopped};
ghost use Rattle.pm_explore.specs.declared.search.graph.Stop.TheVariants.{NoMemory as WantsMemory};

use crate::ends::{Fault, Outcome, finish, load, write_text};
use crate::orders::apart::apart_of;
use pm_base::NoMemory;
use pm_explore::schedule::Pace;
use pm_explore::search::{Ended, Stop};
use pm_io::{Files, Sink};
use pm_lab_words::Bounds;
use pm_model::Plan;
use pm_outcomes::find::{Outcomes, all_outcomes};
use pm_outcomes::text::{Reach, differs, told_text};
use std::alloc::Global;

/// Runs `orders PLAN`: reads the plan and writes to `out` what the schedules of its islands show, at a pace and within bounds
/// on preemptions and snapshots: all of it, or only of the commands and devices that differ. A message goes to `err`, and the
/// answer is the status that the program ends with.
pub fn orders_top<F: Files, O: Sink, E: Sink>(
    alloc: Global,
    plan: &str,
    bounds: Bounds,
    differ: bool,
    files: &mut F,
    out: &mut O,
    err: &mut E,
) -> u8
    ensures { Answered (OfPlan F.tells_all (F.told files.old plan.now) plan.now (OrdersEnds bounds differ)) result
        (OfThis plan.now (Rose (F.faults files.old) (F.faults files.new)))
        (taking O.taken O.faults out.old out.new) (taking E.taken E.faults err.old err.new) }
{
    finish(
        run_orders(alloc, plan, bounds, differ, files, out),
        plan,
        err,
    )
}

/// Reads the plan and writes what its schedules show.
fn run_orders<F: Files, O: Sink>(
    alloc: Global,
    plan: &str,
    bounds: Bounds,
    differ: bool,
    files: &mut F,
    out: &mut O,
) -> Result<Outcome, Fault>
    ensures { Came (OfPlan F.tells_all (F.told files.old plan.now) plan.now (OrdersEnds bounds differ)) result
        (Rose (F.faults files.old) (F.faults files.new))
        (taking O.taken O.faults out.old out.new) }
{
    let plan = load(alloc, plan, files)?;
    write_orders(alloc, &plan, bounds, differ, out)
}

/// The pace of the schedules.
pub fn pace_of(bounds: Bounds) -> Pace
    ensures { result ≡ pace_of bounds }
{
    if bounds.late { Pace::Late } else { Pace::Eager }
}

/// Whether the search wanted memory.
fn wants_memory(ended: Ended) -> bool
    ensures { result ≡ false → ended ≡ Stopped WantsMemory → ⊥ }
{
    matches!(ended, Ended::Stopped(Stop::NoMemory))
}

/// What the schedules of a plan, which may be an island's part, show within bounds; `NoMemory` also where the search wanted memory.
pub fn outcomes_of(alloc: Global, plan: &Plan, bounds: Bounds) -> Result<Outcomes, NoMemory>
    ensures found { IfOk result (IsFound bounds plan.now) }
    ensures led { IfOk result (IsLedThrough bounds plan.now) }
{
    let all = all_outcomes(
        alloc,
        plan,
        pace_of(bounds),
        bounds.most as usize,
        bounds.states as usize,
    )?;
    if wants_memory(all.found.ended) {
        return Err(NoMemory);
    }
    Ok(all)
}

/// Writes what a plan's schedules show. Everything that takes memory comes before the first write.
fn write_orders<O: Sink>(
    alloc: Global,
    plan: &Plan,
    bounds: Bounds,
    differ: bool,
    out: &mut O,
) -> Result<Outcome, Fault>
    ensures { Came (OrdersEnds bounds differ plan.now) result ⊥ (taking O.taken O.faults out.old out.new) }
{
    let all = apart_of(alloc, plan, bounds)?;
    let observations = all.observations.as_slice();
    let text = told_text(alloc, plan, observations, all.reach, all.snapshots, differ)?;
    let told = outcome_of_schedules(all.reach, differs(observations));
    write_text(text.as_slice(), told, out)
}

/// What the command told, by how far the list is exact, and whether a command or a device has more than one observation.
pub(crate) fn outcome_of_schedules(reach: Reach, differs: bool) -> Outcome
    ensures { result ≡ outcome_of_schedules reach differs }
{
    match reach {
        Reach::Limit(_) => Outcome::AtLimit,
        _ if differs => Outcome::Found,
        _ => Outcome::Done,
    }
}
