//! The schedules of a driver are searched through.

ghost use Rattle.std.specs.Prelude.{ℕ, ◌≡◌, ◌<◌, ◌≤◌, ◌+◌, ◌^◌, IfOk, Some, length, map, max, min, slice_get};
ghost use Rattle.pm_explore.specs.declared.search.found.Ended.TheVariants.{Rounds, Stopped, Whole};
ghost use Rattle.pm_explore.specs.declared.search.graph.Stop.TheVariants.{Full};
ghost use Rattle.pm_explore.specs.search.Exact.{EndWithAll};
ghost use Rattle.pm_explore.specs.search.Growing.{IsLed};
ghost use Rattle.pm_explore.specs.search.Trees.{AreLed, IsTree};
ghost use Rattle.pm_driver_orders.specs.DriverSnapshots.{DriverFollows, start_driver};
ghost use Rattle.pm_driver_rules.specs.GoingOn.{driver_of};
ghost use Rattle.pm_driver_search.specs.Found.{AreOfAllDriverSchedules, AreOfDriverSchedules};
ghost use Rattle.pm_driver_rules.specs.Nodes.{driver_snapshot_of};
ghost use Rattle.pm_driver_search.specs.Standing.{IsRun};
ghost use Rattle.pm_driver_orders.specs.declared.Position.TheVariants.{At};
ghost use Rattle.pm_model.specs.World.{start};

use crate::graph::DriverGraph;
use crate::next::Going;
use crate::run::DriverRun;
use crate::step::first_snapshot;
use pm_base::NoMemory;
use pm_driver_orders::{Position, driver_schedules_are_paths};
use pm_driver_rules::{DriverNode, DriverRules};
use pm_explore::schedule::Pace;
use pm_explore::search::{Ended, Found, Stop, search};
use pm_explore::successors::actors;
use pm_model::Plan;
use std::alloc::{AllocError, Global};

// Each caller stands before its program's first command.
fn first_positions(alloc: Global, plan: &Plan) -> Result<Vec<Position>, AllocError>
    ensures { IfOk result (λ out. out.items ≡ map (λ row. At 0) plan.now.callers) }
{
    let rows = plan.callers.as_slice();
    let mut out = Vec::with_capacity(alloc, rows.len())?;
    for _ in rows {
        out.push(Position::At(0))?;
    }
    Ok(out)
}

// The node before any line.
fn first_node(alloc: Global, rules: &DriverRules, run: &DriverRun) -> Result<DriverNode, AllocError>
    requires run { IsRun rules.now.plan.now run.now }
    requires start { run.now.state.world ≡ start rules.now.plan.now }
    ensures { IfOk result (λ node. driver_snapshot_of node ≡ start_driver (driver_of rules.now)) }
{
    let snapshot = first_snapshot(alloc, rules.plan, run)?;
    Ok(DriverNode {
        snapshot,
        positions: first_positions(alloc, rules.plan)?,
        returned: None,
        failures: 0,
    })
}

/// All snapshots at which the schedules of a driver stand whose lines come at a pace and of whose callbacks at most so many fail,
/// round by round: those of at most 0, 1, .. preemptions, up to so many; or all that there are, where that is seen; or what was found
/// before a snapshot more than the limit, or another stop. Each snapshot has the place of one that it follows.
pub fn all_driver_schedules(
    alloc: Global,
    rules: &DriverRules,
    pace: Pace,
    failures: u32,
    most: usize,
    limit: usize,
) -> Result<Found<DriverNode>, NoMemory>
    requires few { length rules.now.callers.now < 2 ^ 32 }

    // Each round that is named is exact, however the search ended.
    ensures rounds { IfOk result (λ found. (k bound : ℕ) → slice_get found.rounds.items k ≡ Some bound → AreOfDriverSchedules pace (driver_of rules.now) failures k (map driver_snapshot_of found.tree.nodes.keys) bound) }

    // The parents lead to each snapshot of a round with no more preemptions than it has.
    ensures tree { IfOk result (λ found. IsTree (DriverFollows pace (driver_of rules.now) failures) (start_driver (driver_of rules.now)) (map driver_snapshot_of found.tree.nodes.keys) found.tree.parents.items) }
    ensures led { IfOk result (λ found. AreLed (DriverFollows pace (driver_of rules.now) failures) (map driver_snapshot_of found.tree.nodes.keys) found.tree.parents.items found.rounds.items) }

    // There is no round of more preemptions than were asked for. On the way to whichever snapshot no more turns preempt, nor more
    // than rounds are complete.
    ensures few { IfOk result (λ found. length found.rounds.items ≤ most + 1) }
    ensures near { IfOk result (λ found. IsLed (DriverFollows pace (driver_of rules.now) failures) (min most (length found.rounds.items)) (map driver_snapshot_of found.tree.nodes.keys) found.tree.parents.items) }

    // How it ended. Where it didn't stop, its last round has all.
    ensures whole { IfOk result (λ found. found.ended ≡ Ended.Whole → AreOfAllDriverSchedules pace (driver_of rules.now) failures (map driver_snapshot_of found.tree.nodes.keys)) }
    ensures last { IfOk result (λ found. found.ended ≡ Ended.Whole → EndWithAll (map driver_snapshot_of found.tree.nodes.keys) found.rounds.items) }
    ensures end { IfOk result (λ found. found.ended ≡ Ended.Rounds → EndWithAll (map driver_snapshot_of found.tree.nodes.keys) found.rounds.items) }
    ensures complete { IfOk result (λ found. found.ended ≡ Ended.Rounds → length found.rounds.items ≡ most + 1) }
    ensures room { IfOk result (λ found. length found.tree.nodes.keys ≤ max limit 1) }
    ensures full { IfOk result (λ found. found.ended ≡ Ended.Stopped Stop.Full → limit ≤ length found.tree.nodes.keys) }
{
    driver_schedules_are_paths();
    let all = actors(alloc, rules.plan)?;
    let mut run = DriverRun::start(alloc, rules.plan)?;
    let start = first_node(alloc, rules, &run)?;
    let graph = DriverGraph {
        going: Going {
            rules,
            pace,
            most: failures,
            actors: all.as_slice(),
        },
    };
    Ok(search(alloc, &graph, &mut run, start, most, limit))
}
