//! A schedule that shows an outcome.

ghost use Rattle.std.specs.Prelude.{ℕ, ◌≡◌, ◌<◌, IfOk, IfSome, None, Some, length, map, slice_get};
ghost use Rattle.pm_outcomes.specs.declared.list.observations.Outcome.{Outcome as AnOutcome};
ghost use Rattle.pm_explore.specs.schedule.Snapshots.{Follows, start_snapshot};
ghost use Rattle.pm_outcomes.specs.find.Had.{AreShown, IsWitness};
ghost use Rattle.pm_explore.specs.search.Trees.{AreLed, IsTree};
ghost use Rattle.pm_explore.specs.state.SnapshotOf.{snapshot_of};
ghost use Rattle.pm_outcomes.specs.paths.Found.{IsTooFar};

use crate::find::finding::Outcomes;
use crate::paths::schedule_to;
use pm_base::NoMemory;
use pm_explore::schedule::Pace;
use pm_model::{Line, Plan};
use std::alloc::Global;

/// The lines of a lawful schedule that has the observation of an outcome, and of which no more preempt than its number says;
/// none where the path there has more lines than the plan allows.
pub fn witness_of(
    alloc: Global,
    plan: &Plan,
    pace: Pace,
    all: &Outcomes,
    index: usize,
) -> Result<Option<Vec<Line>>, NoMemory>
    requires within { index < length all.now.observations.items }
    requires tree { IsTree (Follows pace plan.now) (start_snapshot plan.now) (map snapshot_of all.now.found.tree.nodes.keys) all.now.found.tree.parents.items }
    requires led { AreLed (Follows pace plan.now) (map snapshot_of all.now.found.tree.nodes.keys) all.now.found.tree.parents.items all.now.found.rounds.items }
    requires shown { AreShown plan.now (map snapshot_of all.now.found.tree.nodes.keys) all.now.found.rounds.items all.now.observations.items }
    ensures witness { IfOk result (λ found. IfSome found (λ lines. (o : AnOutcome) → slice_get all.now.observations.items index ≡ Some o → IsWitness pace plan.now all.now.found.rounds.items o lines.items)) }
    ensures far { IfOk result (λ found. found ≡ None → (at : ℕ) × IsTooFar plan.now all.now.found.tree.parents.items at) }
{
    let outcome = all.observations[index];
    schedule_to(alloc, plan, pace, &all.found.tree, outcome.place)
}
