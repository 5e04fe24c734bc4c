//! The lines of a schedule that shows an observation.

ghost use Rattle.std.specs.Prelude.{◌≡◌, IfErr, IfOk, length};
ghost use Rattle.pm_outcomes.specs.islands.Homes.{IsHomePart};
ghost use Rattle.pm_outcomes.specs.wanted.Listed.{HasItNot, IsObservationAt};
ghost use Rattle.pm_cmd_lab.specs.order.Order.{too_far_text};
ghost use Rattle.pm_cmd_lab.specs.order.Work.{IsNotShown, IsPathTo};
ghost use Rattle.pm_cmd_lab.specs.orders.Found.{IsFound, IsLedThrough};

use crate::order::stop::Stop;
use crate::orders::{outcomes_of, pace_of};
use pm_base::NoMemory;
use pm_lab_words::Bounds;
use pm_model::{Line, Plan};
use pm_outcomes::find::{Outcomes, witness_of};
use pm_outcomes::islands::home_part;
use pm_outcomes::list::Observation;
use pm_outcomes::text::{Reach, absent_text, reach_of};
use pm_outcomes::wanted::place_of;
use std::alloc::Global;

// Says that none of the schedules of its island has an observation, so far as they were gone through.
fn none_shows(
    alloc: Global,
    plan: &Plan,
    _part: &Plan,
    _bounds: Bounds,
    all: &Outcomes,
    observation: Observation,
) -> Result<Stop, NoMemory>
    requires home { IsHomePart plan.now observation _part.now }
    requires found { IsFound _bounds _part.now all.now }
    requires none { HasItNot all.now.observations.items observation (length all.now.observations.items) }
    ensures { IfOk result (IsNotShown _bounds plan.now observation) }
{
    let reach = reach_of(all.found.ended, all.found.rounds.len());
    let text = absent_text(alloc, plan, reach, &observation)?;
    match reach {
        Reach::All => Ok(Stop::Absent(text)),
        Reach::Within(_) => Ok(Stop::Absent(text)),
        Reach::Limit(_) => Ok(Stop::Unseen(text)),
    }
}

/// The line that says that a path is too long.
pub fn too_far(alloc: Global) -> Result<Vec<u8>, NoMemory>
    ensures { IfOk result (λ text. text.items ≡ too_far_text) }
{
    let text = Vec::from_slice(
        alloc,
        b"order: the path there has more lines than the plan allows\n",
    )?;
    Ok(text)
}

// The lines of a schedule of its island that has the observation at a place of the list.
fn path_to(
    alloc: Global,
    _plan: &Plan,
    part: &Plan,
    bounds: Bounds,
    all: &Outcomes,
    place: usize,
    _observation: Observation,
) -> Result<Vec<Line>, Stop>
    requires home { IsHomePart _plan.now _observation part.now }
    requires found { IsFound bounds part.now all.now }
    requires led { IsLedThrough bounds part.now all.now }
    requires at { IsObservationAt all.now.observations.items _observation place }
    ensures ok { IfOk result (λ lines. IsPathTo bounds _plan.now _observation lines.items) }
    ensures err { IfErr result (IsNotShown bounds _plan.now _observation) }
{
    match witness_of(alloc, part, pace_of(bounds), all, place)? {
        Some(lines) => Ok(lines),
        None => Err(Stop::Unseen(too_far(alloc)?)),
    }
}

/// The lines of a lawful schedule of its island that has an observation, of those within the bounds; or why there is none. Fails where
/// memory runs out.
pub fn path_of(
    alloc: Global,
    plan: &Plan,
    bounds: Bounds,
    observation: Observation,
) -> Result<Vec<Line>, Stop>
    ensures ok { IfOk result (λ lines. IsPathTo bounds plan.now observation lines.items) }
    ensures err { IfErr result (IsNotShown bounds plan.now observation) }
{
    let part = home_part(alloc, plan, observation)?;
    let all = outcomes_of(alloc, &part, bounds)?;
    match place_of(all.observations.as_slice(), observation) {
        Some(place) => path_to(alloc, plan, &part, bounds, &all, place, observation),
        None => Err(none_shows(alloc, plan, &part, bounds, &all, observation)?),
    }
}
