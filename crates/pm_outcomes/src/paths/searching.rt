//! The schedules of a plan are searched through.

ghost use Rattle.std.specs.Prelude.{ℕ, ◌≡◌, ◌≤◌, ◌+◌, IfOk, Some, length, map, max, min, slice_get};
ghost use Rattle.pm_explore.specs.schedule.Snapshots.{Follows, start_snapshot};
ghost use Rattle.pm_explore.specs.declared.search.found.Ended.TheVariants.{Rounds, Stopped, Whole};
ghost use Rattle.pm_explore.specs.declared.search.graph.Stop.TheVariants.{Full, NoMemory as WantsMemory, TooFar};
ghost use Rattle.pm_explore.specs.search.Exact.{EndWithAll};
ghost use Rattle.pm_explore.specs.search.Growing.{IsLed};
ghost use Rattle.pm_explore.specs.search.Trees.{AreLed, IsTree};
ghost use Rattle.pm_explore.specs.state.SnapshotOf.{snapshot_of};
ghost use Rattle.pm_outcomes.specs.paths.Found.{AreOfAllSchedules, AreOfSchedules, IsTooFar};

use crate::paths::graph::PaceGraph;
use crate::paths::run::Run;
use pm_base::NoMemory;
use pm_explore::schedule::{Pace, schedules_are_paths};
use pm_explore::search::{Ended, Found, Stop, search};
use pm_explore::state::Snapshot;
use pm_explore::successors::actors;
use pm_model::Plan;
use std::alloc::Global;

/// All snapshots at which the schedules of a plan stand whose lines come at a pace, round by round: those of at
/// most 0, 1, .. preemptions, up to so many; or all that there are, where that is seen; or what was found before
/// a snapshot more than the limit, or another stop. Each snapshot has the place of one that it follows.
pub fn all_schedules(
    alloc: Global,
    plan: &Plan,
    pace: Pace,
    most: usize,
    limit: usize,
) -> Result<Found<Snapshot>, NoMemory>
    // Each round that is named is exact, however the search ended.
    ensures rounds { IfOk result (λ found. (k bound : ℕ) → slice_get found.rounds.items k ≡ Some bound → AreOfSchedules pace plan.now k (map snapshot_of found.tree.nodes.keys) bound) }

    // The parents lead to each snapshot of a round with no more preemptions than it has.
    ensures tree { IfOk result (λ found. IsTree (Follows pace plan.now) (start_snapshot plan.now) (map snapshot_of found.tree.nodes.keys) found.tree.parents.items) }
    ensures led { IfOk result (λ found. AreLed (Follows pace plan.now) (map snapshot_of found.tree.nodes.keys) found.tree.parents.items found.rounds.items) }

    // There is no round of more preemptions than were asked for. On the path to whichever snapshot no more lines preempt, nor more
    // than rounds are complete.
    ensures few { IfOk result (λ found. length found.rounds.items ≤ most + 1) }
    ensures near { IfOk result (λ found. IsLed (Follows pace plan.now) (min most (length found.rounds.items)) (map snapshot_of found.tree.nodes.keys) found.tree.parents.items) }

    // How it ended. Where it didn't stop, its last round has all.
    ensures whole { IfOk result (λ found. found.ended ≡ Ended.Whole → AreOfAllSchedules pace plan.now (map snapshot_of found.tree.nodes.keys)) }
    ensures last { IfOk result (λ found. found.ended ≡ Ended.Whole → EndWithAll (map snapshot_of found.tree.nodes.keys) found.rounds.items) }
    ensures end { IfOk result (λ found. found.ended ≡ Ended.Rounds → EndWithAll (map snapshot_of found.tree.nodes.keys) found.rounds.items) }
    ensures complete { IfOk result (λ found. found.ended ≡ Ended.Rounds → length found.rounds.items ≡ most + 1) }
    ensures room { IfOk result (λ found. length found.tree.nodes.keys ≤ max limit 1) }
    ensures full { IfOk result (λ found. found.ended ≡ Ended.Stopped Stop.Full → limit ≤ length found.tree.nodes.keys) }
    ensures too_far { IfOk result (λ found. found.ended ≡ Ended.Stopped Stop.TooFar → (at : ℕ) × IsTooFar plan.now found.tree.parents.items at) }
{
    schedules_are_paths();
    let all = actors(alloc, plan)?;
    let mut run = Run::start(alloc, plan)?;
    let start = run.snapshot(alloc, plan)?;
    let graph = PaceGraph {
        plan,
        pace,
        actors: all.as_slice(),
    };
    Ok(search(alloc, &graph, &mut run, start, most, limit))
}
