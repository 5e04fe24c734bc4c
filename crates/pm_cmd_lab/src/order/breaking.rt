//! The lines of a schedule that breaks an expectation.

ghost use Rattle.std.specs.Prelude.{◌≡◌, IfErr, IfOk, None, map};
ghost use Rattle.pm_expect_report.specs.broken.Found.{IsFirst, IsFirstOf};
ghost use Rattle.pm_cmd_lab.specs.order.Failing.{IsNotBroken, IsPathBreaking};
ghost use Rattle.pm_cmd_lab.specs.orders.Found.{IsFound, IsLedThrough};
ghost use Rattle.pm_explore.specs.state.SnapshotOf.{snapshot_of};

use crate::order::path::too_far;
use crate::order::stop::Stop;
use crate::orders::{outcomes_of, pace_of};
use pm_base::NoMemory;
use pm_expect_report::broken::{Broken, Expectation, first_broken, firsts_decide};
use pm_expect_report::orders::unbroken_text;
use pm_lab_words::Bounds;
use pm_model::{Line, Plan};
use pm_outcomes::find::Outcomes;
use pm_outcomes::paths::schedule_to;
use pm_outcomes::text::{Reach, reach_of};
use std::alloc::Global;

// Says that none of the schedules breaks it, so far as they were gone through.
fn none_breaks(
    alloc: Global,
    plan: &Plan,
    _bounds: Bounds,
    all: &Outcomes,
    each: Expectation,
) -> Result<Stop, NoMemory>
    requires found { IsFound _bounds plan.now all.now }
    requires none { IsFirstOf plan.now each (map snapshot_of all.now.found.tree.nodes.keys) all.now.found.rounds.items None }
    ensures { IfOk result (IsNotBroken _bounds plan.now each) }
{
    firsts_decide();
    let reach = reach_of(all.found.ended, all.found.rounds.len());
    let text = unbroken_text(alloc, plan, reach, &each)?;
    match reach {
        Reach::All => Ok(Stop::Absent(text)),
        Reach::Within(_) => Ok(Stop::Absent(text)),
        Reach::Limit(_) => Ok(Stop::Unseen(text)),
    }
}

// The lines of a schedule that breaks it where it is broken first.
fn path_to(
    alloc: Global,
    plan: &Plan,
    bounds: Bounds,
    all: &Outcomes,
    broken: Broken,
    _each: Expectation,
) -> Result<Vec<Line>, Stop>
    requires found { IsFound bounds plan.now all.now }
    requires led { IsLedThrough bounds plan.now all.now }
    requires first { IsFirst plan.now _each (map snapshot_of all.now.found.tree.nodes.keys) all.now.found.rounds.items broken }
    ensures ok { IfOk result (λ lines. IsPathBreaking bounds plan.now _each lines.items) }
    ensures err { IfErr result (IsNotBroken bounds plan.now _each) }
{
    firsts_decide();
    match schedule_to(alloc, plan, pace_of(bounds), &all.found.tree, broken.place)? {
        Some(lines) => Ok(lines),
        None => Err(Stop::Unseen(too_far(alloc)?)),
    }
}

/// The lines of a lawful schedule that breaks an expectation, of those within the bounds; or why there is none. Fails where memory
/// runs out.
pub fn path_breaking(
    alloc: Global,
    plan: &Plan,
    bounds: Bounds,
    each: Expectation,
) -> Result<Vec<Line>, Stop>
    ensures ok { IfOk result (λ lines. IsPathBreaking bounds plan.now each lines.items) }
    ensures err { IfErr result (IsNotBroken bounds plan.now each) }
{
    let all = outcomes_of(alloc, plan, bounds)?;
    match first_broken(plan, &each, &all.found) {
        Some(broken) => path_to(alloc, plan, bounds, &all, broken, each),
        None => Err(none_breaks(alloc, plan, bounds, &all, each)?),
    }
}
