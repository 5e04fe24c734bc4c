//! What follows a node of a search.

ghost use Rattle.std.specs.Prelude.{ℕ, ◌≡◌, ◌<◌, IfOk, Some, length, map, slice_get, true};
ghost use Rattle.pm_model.specs.declared.event.Line.{Line as ALine};
ghost use Rattle.pm_explore.specs.schedule.Snapshots.{Follows, after, all_actors, start_snapshot};
ghost use Rattle.pm_explore.specs.schedule.Snapshots.{Snapshot as Where};
ghost use Rattle.pm_explore.specs.search.Exact.{HasExactly};
ghost use Rattle.pm_explore.specs.search.Trees.{HasPath, IsTree};
ghost use Rattle.pm_explore.specs.state.SnapshotOf.{snapshot_of};
ghost use Rattle.pm_explore.specs.successors.Lines.{IsNext};
ghost use Rattle.pm_outcomes.specs.paths.Found.{MayComeNext};
ghost use Rattle.pm_outcomes.specs.paths.Runs.{IsListTo, IsRunOf, StandsAt, snapshot_of_run};

use crate::paths::run::Run;
use pm_base::{ActorId, NoMemory};
use pm_book::all_stand_well;
use pm_explore::schedule::Pace;
use pm_explore::search::Tree;
use pm_explore::state::Snapshot;
use pm_explore::successors::{
    lines_are_by_one, next_lines, next_snapshots_are_all, times_are_near,
};
use pm_laws::bounds::lines_are_bounded;
use pm_laws::counts::sizes;
use pm_model::{Line, Plan};
use std::alloc::{AllocError, Global};

// The lines that may come next where a run stands, and that preempt, or don't.
fn lines_of(
    alloc: Global,
    plan: &Plan,
    pace: Pace,
    actors: &[ActorId],
    run: &Run,
    spends: bool,
) -> Result<Vec<Line>, AllocError>
    requires run { IsRunOf plan.now run.now }
    requires actors { actors.now ≡ all_actors plan.now }
    ensures { IfOk result (λ lines. HasExactly (IsNext pace plan.now (snapshot_of_run run.now) spends) lines.items) }
{
    all_stand_well();
    sizes();
    lines_are_bounded();
    times_are_near();
    next_lines(alloc, plan, &run.state, pace, run.last, spends, actors)
}

// The snapshot to which a line leads from where a run stands: it goes there.
fn snapshot_after(
    alloc: Global,
    plan: &Plan,
    _pace: Pace,
    run: &mut Run,
    line: &Line,
) -> Result<Snapshot, AllocError>
    requires run { IsRunOf plan.now run.old }
    requires room { run.old.lines < plan.now.lines }
    requires next { MayComeNext _pace plan.now (snapshot_of_run run.old) line.now }
    ensures run { IsRunOf plan.now run.new }
    ensures snapshot { IfOk result (λ snapshot. snapshot_of snapshot ≡ after plan.now (snapshot_of_run run.old) line.now) }
{
    sizes();
    times_are_near();
    lines_are_by_one();
    let took = run.step(plan, line.actor, line.time);
    prove!(took);
    Ok(run.snapshot(alloc, plan)?)
}

// A run stands at a node to which so many lines lead, unless it does already.
fn go_back(run: &mut Run, plan: &Plan, node: &Snapshot, lines: u32, is_there: bool)
    requires run { IsRunOf plan.now run.old }
    requires there { IsListTo plan.now (snapshot_of node.now) lines }
    requires stands { is_there ≡ true → StandsAt run.old (snapshot_of node.now) lines }
    ensures run { IsRunOf plan.now run.new }
    ensures stands { StandsAt run.new (snapshot_of node.now) lines }
{
    if !is_there {
        run.stand_at(plan, node, lines);
    }
}

// The snapshots to which these lines lead from a node, at which the run stands: it goes to each, and back again before
// the next.
fn snapshots_after(
    alloc: Global,
    plan: &Plan,
    pace: Pace,
    run: &mut Run,
    node: &Snapshot,
    count: u32,
    lines: &[Line],
) -> Result<Vec<Snapshot>, NoMemory>
    requires run { IsRunOf plan.now run.old }
    requires there { IsListTo plan.now (snapshot_of node.now) count }
    requires stands { StandsAt run.old (snapshot_of node.now) count }
    requires room { count < plan.now.lines }
    requires next { (i : ℕ) (line : ALine) → slice_get lines.now i ≡ Some line → MayComeNext pace plan.now (snapshot_of node.now) line }
    ensures run { IsRunOf plan.now run.new }
    ensures snapshots { IfOk result (λ snapshots. map snapshot_of snapshots.items ≡ map (after plan.now (snapshot_of node.now)) lines.now) }
{
    let mut snapshots = Vec::with_capacity(alloc, lines.len())?;
    let mut is_there = true;
    for line in lines {
        go_back(run, plan, node, count, is_there);
        let snapshot = snapshot_after(alloc, plan, pace, run, line)?;
        snapshots.push(snapshot)?;
        is_there = false;
    }
    Ok(snapshots)
}

/// Snapshots for all that follows a node at a pace by a line that preempts, or by one that doesn't, and for nothing
/// else. The run is one that stands wherever it may.
pub fn next_snapshots(
    alloc: Global,
    plan: &Plan,
    pace: Pace,
    actors: &[ActorId],
    run: &mut Run,
    tree: &Tree<Snapshot>,
    at: usize,
    count: u32,
    spends: bool,
) -> Result<Vec<Snapshot>, NoMemory>
    requires actors { actors.now ≡ all_actors plan.now }
    requires run { IsRunOf plan.now run.old }
    requires within { at < length tree.now.nodes.keys }
    requires tree { IsTree (Follows pace plan.now) (start_snapshot plan.now) (map snapshot_of tree.now.nodes.keys) tree.now.parents.items }
    requires path { HasPath tree.now.parents.items at count }
    requires room { count < plan.now.lines }
    ensures run { IsRunOf plan.now run.new }
    ensures snapshots { IfOk result (λ snapshots. (p : Where) → slice_get (map snapshot_of tree.now.nodes.keys) at ≡ Some p → HasExactly (Follows pace plan.now spends p) (map snapshot_of snapshots.items)) }
{
    next_snapshots_are_all();
    times_are_near();
    let Some(node) = tree.nodes.get_index(at) else {
        unreachable!();
    };
    run.stand_at(plan, node, count);
    let lines = lines_of(alloc, plan, pace, actors, run, spends)?;
    let snapshots = snapshots_after(alloc, plan, pace, run, node, count, lines.as_slice())?;
    Ok(snapshots)
}
