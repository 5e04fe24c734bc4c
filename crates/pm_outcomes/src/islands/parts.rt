//! The part of an island.

ghost use Rattle.std.specs.Prelude.{◌≤◌, IfOk};
ghost use Rattle.pm_outcomes.specs.islands.Homes.{IsHomePart};
ghost use Rattle.pm_islands.specs.Numbers.{AreIslands, island_in};
ghost use Rattle.pm_model.specs.Islands.{IsPart};

use crate::islands::homes::home_of;
use crate::list::Observation;
use pm_base::NoMemory;
use pm_islands::{IslandNumbers, blank, number, part};
use pm_model::Plan;
use std::alloc::Global;

/// The part of an island of a plan; with the number behind the last one that of what no caller is connected with: the
/// plan with every script empty. Fails where memory runs out.
pub fn part_at(
    alloc: Global,
    plan: &Plan,
    numbers: &IslandNumbers,
    island: u32,
) -> Result<Plan, NoMemory>
    requires numbers { AreIslands plan.now numbers.now }
    requires within { island ≤ numbers.now.count }
    ensures { IfOk result (IsPart plan.now (island_in numbers.now) island) }
{
    if island < numbers.count() {
        part(alloc, plan, island)
    } else {
        blank(alloc, plan)
    }
}

/// The part of the island where an observation is at home. Fails where memory runs out.
pub fn home_part(alloc: Global, plan: &Plan, observation: Observation) -> Result<Plan, NoMemory>
    ensures { IfOk result (IsHomePart plan.now observation) }
{
    let numbers = number(alloc, plan)?;
    let island = home_of(&numbers, &observation);
    part_at(alloc, plan, &numbers, island)
}
