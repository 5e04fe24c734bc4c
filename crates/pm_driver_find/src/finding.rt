//! What is found in all schedules of a driver.

ghost use Rattle.std.specs.Prelude.{ℕ, ◌≡◌, ◌<◌, ◌≤◌, ◌+◌, ◌^◌, IfOk, Some, length, map, max, slice_get};
ghost use Rattle.pm_explore.specs.declared.search.found.Ended.TheVariants.{Rounds, Stopped, Whole};
ghost use Rattle.pm_explore.specs.declared.search.graph.Stop.TheVariants.{Full};
ghost use Rattle.pm_explore.specs.search.Exact.{EndWithAll};
ghost use Rattle.pm_explore.specs.search.Trees.{AreLed, IsTree};
ghost use Rattle.pm_driver_orders.specs.DriverSnapshots.{DriverFollows, start_driver};
ghost use Rattle.pm_driver_rules.specs.GoingOn.{driver_of};
ghost use Rattle.pm_driver_rules.specs.Nodes.{driver_snapshot_of};
ghost use Rattle.pm_driver_find.specs.Suspects.{suspects_of};
ghost use Rattle.pm_driver_find.specs.Told.{AreToldExactly};
ghost use Rattle.pm_driver_search.specs.Found.{AreOfAllDriverSchedules, AreOfDriverSchedules};

use crate::examined::ExaminedDriver;
use crate::firsts::{DriverFinding, all_first_seen};
use crate::suspects::suspects;
use pm_base::NoMemory;
use pm_driver_rules::DriverNode;
use pm_driver_search::all_driver_schedules;
use pm_explore::schedule::Pace;
use pm_explore::search::{Ended, Found, Stop};
use std::alloc::Global;

/// What the schedules of a driver show, and the snapshots at which they stand.
#[derive(Drop)]
pub struct DriverFindings {
    /// The snapshots, round by round.
    pub found: Found<DriverNode>,
    /// What is found: by caller and place, and then by device.
    pub told: Vec<DriverFinding>,
}

/// All that is looked for and that the schedules of a driver show whose lines come at a pace, of whose callbacks at most so many
/// fail, with the least number of preemptions, up to so many; or what was found before a snapshot more than the limit, or another
/// stop.
pub fn all_driver_findings(
    alloc: Global,
    examined: &ExaminedDriver,
    pace: Pace,
    failures: u32,
    most: usize,
    limit: usize,
) -> Result<DriverFindings, NoMemory>
    requires few { length examined.now.rules.now.callers.now < 2 ^ 32 }

    // For each round that is named: what is told with a place before its end is exactly what some schedule of no more preemptions shows.
    ensures told { IfOk result (λ all. (k bound : ℕ) → slice_get all.found.rounds.items k ≡ Some bound → AreToldExactly examined.now pace (driver_of examined.now.rules.now) failures k bound (suspects_of examined.now) all.told.items) }
    ensures rounds { IfOk result (λ all. (k bound : ℕ) → slice_get all.found.rounds.items k ≡ Some bound → AreOfDriverSchedules pace (driver_of examined.now.rules.now) failures k (map driver_snapshot_of all.found.tree.nodes.keys) bound) }
    ensures tree { IfOk result (λ all. IsTree (DriverFollows pace (driver_of examined.now.rules.now) failures) (start_driver (driver_of examined.now.rules.now)) (map driver_snapshot_of all.found.tree.nodes.keys) all.found.tree.parents.items) }
    ensures led { IfOk result (λ all. AreLed (DriverFollows pace (driver_of examined.now.rules.now) failures) (map driver_snapshot_of all.found.tree.nodes.keys) all.found.tree.parents.items all.found.rounds.items) }

    // How the search ended.
    ensures few { IfOk result (λ all. length all.found.rounds.items ≤ most + 1) }
    ensures whole { IfOk result (λ all. all.found.ended ≡ Ended.Whole → AreOfAllDriverSchedules pace (driver_of examined.now.rules.now) failures (map driver_snapshot_of all.found.tree.nodes.keys)) }
    ensures last { IfOk result (λ all. all.found.ended ≡ Ended.Whole → EndWithAll (map driver_snapshot_of all.found.tree.nodes.keys) all.found.rounds.items) }
    ensures complete { IfOk result (λ all. all.found.ended ≡ Ended.Rounds → length all.found.rounds.items ≡ most + 1) }
    ensures full { IfOk result (λ all. all.found.ended ≡ Ended.Stopped Stop.Full → limit ≤ length all.found.tree.nodes.keys) }
{
    let sights = suspects(alloc, examined)?;
    let found = all_driver_schedules(alloc, examined.rules, pace, failures, most, limit)?;
    let told = all_first_seen(alloc, examined, &found.tree, sights.as_slice())?;
    Ok(DriverFindings { found, told })
}
