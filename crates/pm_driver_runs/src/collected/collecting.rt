//! Collects the plan of a run.

ghost use Rattle.std.specs.Prelude.{◌≡◌, ◌↔◌, IfOk, IsTrue, Ok, reverse};
ghost use Rattle.pm_planread.specs.PlanOf.{contents_of, plan_of};
ghost use Rattle.pm_driver_runs.specs.OneRun.{IsRunCollection};

use crate::collected::plan::made_plan;
use crate::collected::run::{CollectedRun, RunCollection};
use crate::collected::text::plan_text;
use pm_base::NoMemory;
use pm_model::{Line, Plan};
use pm_planread::{PlanFault, read_plan};
use std::alloc::Global;

// Whether a text is read as this plan.
fn is_read_as(alloc: Global, text: &[u8], plan: &Plan) -> Result<bool, NoMemory>
    ensures { IfOk result (λ is. IsTrue is ↔ (plan_of text.now ≡ Ok (contents_of plan.now))) }
{
    match read_plan(alloc, text) {
        Ok(read) => Ok(read.same(plan)),
        Err(PlanFault::Refused { .. }) => Ok(false),
        Err(PlanFault::NoMemory) => Err(NoMemory),
    }
}

/// The plan of what the callers of a run called, as their scripts, and what the callbacks of its devices answered, as
/// their codes, over the rows of its driver; with a text of that plan. `lines` are the run's, in order.
///
/// The run is a lawful run of the plan, where the driver's plan allows as many lines
/// (`collected_schedules_are_lawful`). Fails where memory runs out.
pub fn collected_run(
    alloc: Global,
    driver: &Plan,
    lines: &[Line],
) -> Result<RunCollection, NoMemory>
    ensures { IfOk result (IsRunCollection driver.now (reverse lines.now)) }
{
    let Some(plan) = made_plan(alloc, driver, lines)? else {
        return Ok(RunCollection::NoPlan);
    };
    let text = plan_text(alloc, &plan)?;
    if is_read_as(alloc, &text, &plan)? {
        Ok(RunCollection::Made(CollectedRun { plan, text }))
    } else {
        Ok(RunCollection::NotRead)
    }
}
