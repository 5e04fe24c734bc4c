//! All outcomes of a plan.

ghost use Rattle.std.specs.Prelude.{ℕ, ◌≡◌, ◌≤◌, ◌+◌, IfOk, Some, length, map, max, min, slice_get, true};
ghost use Rattle.std.specs.List.Sorted.{IsSorted};
ghost use Rattle.pm_outcomes.specs.list.Order.{by_text};
ghost use Rattle.pm_explore.specs.schedule.Snapshots.{Follows, start_snapshot};
ghost use Rattle.pm_outcomes.specs.find.Had.{AreExact, AreExactWithin, AreOfRounds, AreShown, IsListedOnce};
ghost use Rattle.pm_explore.specs.declared.search.found.Ended.TheVariants.{Rounds, Stopped, Whole};
ghost use Rattle.pm_explore.specs.declared.search.graph.Stop.TheVariants.{Full, NoMemory as WantsMemory, TooFar};
ghost use Rattle.pm_explore.specs.search.Exact.{EndWithAll};
ghost use Rattle.pm_explore.specs.search.Growing.{IsLed};
ghost use Rattle.pm_explore.specs.search.Seen.{IsSeen};
ghost use Rattle.pm_explore.specs.search.Trees.{AreLed, IsTree};
ghost use Rattle.pm_explore.specs.state.SnapshotOf.{snapshot_of};
ghost use Rattle.pm_outcomes.specs.paths.Found.{AreOfAllSchedules, AreOfSchedules, IsTooFar};

use crate::find::firsts::first_observations;
use crate::list::{Outcome, listed};
use crate::paths::all_schedules;
use pm_base::NoMemory;
use pm_explore::schedule::Pace;
use pm_explore::search::{Ended, Found, Stop};
use pm_explore::state::Snapshot;
use pm_model::Plan;
use std::alloc::Global;

/// What the schedules of a plan show, and the snapshots at which they stand.
#[derive(Drop)]
pub struct Outcomes {
    /// The snapshots, round by round.
    pub found: Found<Snapshot>,
    /// Each observation once, with the first round that has it and the place of a snapshot that shows it: returns by caller and
    /// command, and then ends by device, each by rounds and then by value.
    pub observations: Vec<Outcome>,
}

fn is_whole(ended: Ended) -> bool
    ensures whole { ended ≡ Ended.Whole → result ≡ true }
    ensures only { result ≡ true → ended ≡ Ended.Whole }
{
    match ended {
        Ended::Whole => true,
        _ => false,
    }
}

/// All that the schedules of a plan show whose lines come at a pace, with the least number of preemptions, up to
/// so many; or all that any schedule shows, where that is seen; or what was found before a snapshot more than the limit, or another
/// stop.
pub fn all_outcomes(
    alloc: Global,
    plan: &Plan,
    pace: Pace,
    most: usize,
    limit: usize,
) -> Result<Outcomes, NoMemory>
    // For each number of preemptions whose schedules were all seen, and for all schedules where it is whole.
    ensures rounds { IfOk result (λ all. (k : ℕ) → IsSeen all.found.ended all.found.rounds.items k → AreExactWithin pace plan.now k all.observations.items) }
    ensures whole { IfOk result (λ all. all.found.ended ≡ Ended.Whole → AreExact pace plan.now all.observations.items) }
    ensures orders { IfOk result (λ all. (k bound : ℕ) → slice_get all.found.rounds.items k ≡ Some bound → AreOfSchedules pace plan.now k (map snapshot_of all.found.tree.nodes.keys) bound) }
    ensures all_schedules { IfOk result (λ all. all.found.ended ≡ Ended.Whole → AreOfAllSchedules pace plan.now (map snapshot_of all.found.tree.nodes.keys)) }
    ensures last { IfOk result (λ all. all.found.ended ≡ Ended.Whole → EndWithAll (map snapshot_of all.found.tree.nodes.keys) all.found.rounds.items) }
    ensures end { IfOk result (λ all. all.found.ended ≡ Ended.Rounds → EndWithAll (map snapshot_of all.found.tree.nodes.keys) all.found.rounds.items) }
    ensures of_rounds { IfOk result (λ all. AreOfRounds all.found.rounds.items all.observations.items) }
    ensures once { IfOk result (λ all. IsListedOnce all.observations.items) }
    ensures in_order { IfOk result (λ all. IsSorted by_text all.observations.items) }

    // Where each shows.
    ensures shown { IfOk result (λ all. AreShown plan.now (map snapshot_of all.found.tree.nodes.keys) all.found.rounds.items all.observations.items) }
    ensures tree { IfOk result (λ all. IsTree (Follows pace plan.now) (start_snapshot plan.now) (map snapshot_of all.found.tree.nodes.keys) all.found.tree.parents.items) }
    ensures led { IfOk result (λ all. AreLed (Follows pace plan.now) (map snapshot_of all.found.tree.nodes.keys) all.found.tree.parents.items all.found.rounds.items) }
    ensures few { IfOk result (λ all. length all.found.rounds.items ≤ most + 1) }
    ensures near { IfOk result (λ all. IsLed (Follows pace plan.now) (min most (length all.found.rounds.items)) (map snapshot_of all.found.tree.nodes.keys) all.found.tree.parents.items) }

    // How the search ended.
    ensures complete { IfOk result (λ all. all.found.ended ≡ Ended.Rounds → length all.found.rounds.items ≡ most + 1) }
    ensures room { IfOk result (λ all. length all.found.tree.nodes.keys ≤ max limit 1) }
    ensures full { IfOk result (λ all. all.found.ended ≡ Ended.Stopped Stop.Full → limit ≤ length all.found.tree.nodes.keys) }
    ensures too_far { IfOk result (λ all. all.found.ended ≡ Ended.Stopped Stop.TooFar → (at : ℕ) × IsTooFar plan.now all.found.tree.parents.items at) }
{
    let found = all_schedules(alloc, plan, pace, most, limit)?;
    let firsts = first_observations(alloc, plan, &found.tree)?;
    let observations = listed(
        alloc,
        &firsts,
        found.rounds.as_slice(),
        is_whole(found.ended),
    )?;
    Ok(Outcomes {
        found,
        observations,
    })
}
