//! Where each observation of a search shows first.

ghost use Rattle.std.specs.Prelude.{◌≡◌, ◌+◌, ◌++◌, IfOk, List, OnOk, Some, ℕ, length, map, slice_get};
ghost use Rattle.pm_outcomes.specs.declared.list.observations.Observation.{Observation as AnObservation};
ghost use Rattle.pm_outcomes.specs.list.Firsts.{AreFirsts, IsUpTo};
ghost use Rattle.pm_explore.specs.schedule.Snapshots.{Snapshot as Where};
ghost use Rattle.pm_explore.specs.state.SnapshotOf.{snapshot_of};
ghost use Rattle.pm_outcomes.specs.find.Seen.{AreFirstsBefore};

use crate::list::{Firsts, Observation, new_firsts, note};
use crate::observe::shown;
use pm_explore::search::Tree;
use pm_explore::state::Snapshot;
use pm_model::Plan;
use std::alloc::{AllocError, Global};

// Notes that these observations show at a place, which is no earlier than those before.
fn note_all(
    firsts: &mut Firsts,
    observations: &[Observation],
    place: usize,
) -> Result<(), AllocError>
    ensures { OnOk result ((seen : List (AnObservation × ℕ)) → IsUpTo place seen → AreFirsts seen firsts.old.entries.entries → AreFirsts (seen ++ map (λ m. (m, place)) observations.now) firsts.new.entries.entries) }
{
    for observation in observations {
        note(firsts, *observation, place)?;
    }
    Ok(())
}

// Notes what the next snapshot shows.
fn note_snapshot(
    alloc: Global,
    plan: &Plan,
    firsts: &mut Firsts,
    snapshot: &Snapshot,
    place: usize,
) -> Result<(), AllocError>
    ensures { OnOk result ((snapshots : List Where) → slice_get snapshots place ≡ Some (snapshot_of snapshot.now) → AreFirstsBefore plan.now snapshots place firsts.old.entries.entries → AreFirstsBefore plan.now snapshots (place + 1) firsts.new.entries.entries) }
{
    let observations = shown(alloc, plan, snapshot)?;
    note_all(firsts, observations.as_slice(), place)?;
    Ok(())
}

/// The observations of all snapshots of a tree, each with the first place that shows it.
pub fn first_observations(
    alloc: Global,
    plan: &Plan,
    tree: &Tree<Snapshot>,
) -> Result<Firsts, AllocError>
    ensures { IfOk result (λ firsts. AreFirstsBefore plan.now (map snapshot_of tree.now.nodes.keys) (length tree.now.nodes.keys) firsts.entries.entries) }
{
    let mut firsts = new_firsts(alloc);
    for place in 0..tree.nodes.len() {
        let Some(snapshot) = tree.nodes.get_index(place) else {
            unreachable!();
        };
        note_snapshot(alloc, plan, &mut firsts, snapshot, place)?;
    }
    Ok(firsts)
}
