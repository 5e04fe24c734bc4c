//! A path through the nodes of a search is gone step by step.

ghost use Rattle.std.specs.Prelude.{◌≡◌, ◌<◌, ◌+◌, Bool};
ghost use Rattle.pm_explore.specs.schedule.Snapshots.{Follows};
ghost use Rattle.pm_explore.specs.state.SnapshotOf.{snapshot_of};
ghost use Rattle.pm_outcomes.specs.paths.Runs.{IsRunOf, snapshot_of_run};

use crate::paths::run::Run;
use pm_explore::schedule::Pace;
use pm_explore::state::Snapshot;
use pm_explore::successors::{lines_are_by_one, times_are_near};
use pm_laws::counts::sizes;
use pm_model::Plan;

/// Goes on from one node to one that follows it.
pub fn follow(run: &mut Run, plan: &Plan, _pace: Pace, node: &Snapshot)
    requires run { IsRunOf plan.now run.old }
    requires room { run.old.lines < plan.now.lines }
    requires follows { (spends : Bool) × Follows _pace plan.now spends (snapshot_of_run run.old) (snapshot_of node.now) }
    ensures run { IsRunOf plan.now run.new }
    ensures snapshot { snapshot_of_run run.new ≡ snapshot_of node.now }
    ensures lines { run.new.lines ≡ run.old.lines + 1 }
{
    sizes();
    times_are_near();
    lines_are_by_one();
    let Some(actor) = node.last else {
        unreachable!();
    };
    let took = run.step(plan, actor, node.time);
    prove!(took);
}
