//! The whole text.

ghost use Rattle.std.specs.Prelude.{◌≡◌, IfOk, length};
ghost use Rattle.pm_outcomes.specs.text.Reached.{reach_of};
ghost use Rattle.pm_outcomes.specs.text.Texts.{told};

use crate::find::Outcomes;
use crate::list::Outcome;
use crate::text::lines::{push_callers, push_ends, push_last};
use crate::text::reach::{Reach, reach_of};
use pm_base::NoMemory;
use pm_model::Plan;
use std::alloc::Global;

/// The text of a list of outcomes that is exact so far, found on so many snapshots: a line for each command and each
/// device, or only for those that differ, and a last line.
pub fn told_text(
    alloc: Global,
    plan: &Plan,
    outcomes: &[Outcome],
    reach: Reach,
    snapshots: usize,
    differ: bool,
) -> Result<Vec<u8>, NoMemory>
    ensures { IfOk result (λ text. text.items ≡ told plan.now differ reach snapshots outcomes.now) }
{
    let mut text = Vec::new(alloc);
    if matches!(reach, Reach::Limit(None)) {
        push_last(&mut text, reach, snapshots)?;
        return Ok(text);
    }
    push_callers(&mut text, alloc, plan, outcomes, differ)?;
    push_ends(&mut text, alloc, plan, outcomes, differ)?;
    push_last(&mut text, reach, snapshots)?;
    Ok(text)
}

/// The text of what the schedules of a plan show.
pub fn orders_text(
    alloc: Global,
    plan: &Plan,
    all: &Outcomes,
    differ: bool,
) -> Result<Vec<u8>, NoMemory>
    ensures { IfOk result (λ text. text.items ≡ told plan.now differ (reach_of all.now.found.ended (length all.now.found.rounds.items)) (length all.now.found.tree.nodes.keys) all.now.observations.items) }
{
    let reach = reach_of(all.found.ended, all.found.rounds.len());
    told_text(
        alloc,
        plan,
        all.observations.as_slice(),
        reach,
        all.found.tree.nodes.len(),
        differ,
    )
}
