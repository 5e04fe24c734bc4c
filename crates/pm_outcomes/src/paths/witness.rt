//! The schedule that leads to a node of a search, line by line.

ghost use Rattle.std.specs.Prelude.{◌≡◌, ◌<◌, ◌≤◌, ◌+◌, Bool, IfOk, IfSome, None, length, map};
ghost use Rattle.pm_explore.specs.schedule.Snapshots.{Follows, start_snapshot};
ghost use Rattle.pm_explore.specs.search.Trees.{IsTree, IsPath};
ghost use Rattle.pm_explore.specs.state.SnapshotOf.{snapshot_of};
ghost use Rattle.pm_outcomes.specs.paths.Found.{IsTooFar};
ghost use Rattle.pm_outcomes.specs.paths.Runs.{IsAsLed, IsScheduleTo, IsRunOf, LeadsTo, snapshot_of_run};

use crate::paths::replay::follow;
use crate::paths::run::Run;
use pm_base::NoMemory;
use pm_explore::schedule::{Pace, schedules_are_lawful};
use pm_explore::search::{Tree, path_back};
use pm_explore::state::Snapshot;
use pm_explore::successors::{lines_are_by_one, times_are_near};
use pm_laws::counts::sizes;
use pm_model::{Line, Plan};
use std::alloc::Global;

// Goes on from one node to one that follows it; the line that leads there.
fn follow_by(run: &mut Run, plan: &Plan, pace: Pace, node: &Snapshot) -> Line
    requires run { IsRunOf plan.now run.old }
    requires room { run.old.lines < plan.now.lines }
    requires follows { (spends : Bool) × Follows pace plan.now spends (snapshot_of_run run.old) (snapshot_of node.now) }
    ensures run { IsRunOf plan.now run.new }
    ensures snapshot { snapshot_of_run run.new ≡ snapshot_of node.now }
    ensures lines { run.new.lines ≡ run.old.lines + 1 }
    ensures line { LeadsTo pace plan.now (snapshot_of_run run.old) (snapshot_of_run run.new) result }
{
    sizes();
    times_are_near();
    lines_are_by_one();
    let Some(actor) = node.last else {
        unreachable!();
    };
    let Some(line) = run.line(plan, actor, node.time) else {
        unreachable!();
    };
    follow(run, plan, pace, node);
    line
}

// The lines on the path to a node.
fn lines_to(
    alloc: Global,
    plan: &Plan,
    pace: Pace,
    tree: &Tree<Snapshot>,
    at: usize,
    path: &[usize],
) -> Result<Vec<Line>, NoMemory>
    requires within { at < length tree.now.nodes.keys }
    requires tree { IsTree (Follows pace plan.now) (start_snapshot plan.now) (map snapshot_of tree.now.nodes.keys) tree.now.parents.items }
    requires path { IsPath tree.now.parents.items at path.now }
    requires room { length path.now ≤ plan.now.lines + 1 }
    ensures order { IfOk result (λ lines. IsScheduleTo pace plan.now (map snapshot_of tree.now.nodes.keys) at lines.items) }
    ensures few { IfOk result (λ lines. IsAsLed pace plan.now (map snapshot_of tree.now.nodes.keys) tree.now.parents.items at lines.items) }
{
    lines_are_by_one();
    schedules_are_lawful();
    let mut run = Run::start(alloc, plan)?;
    let mut lines = Vec::new(alloc);
    let mut left = path.len() - 1;
    while left > 0 {
        left -= 1;
        let Some(node) = tree.nodes.get_index(path[left]) else {
            unreachable!();
        };
        let line = follow_by(&mut run, plan, pace, node);
        lines.push(line)?;
    }
    Ok(lines)
}

/// The lines of a lawful schedule that stands at a node of a search, of which no more preempt than by the parents; none where the path there has more lines than the
/// plan allows.
pub fn schedule_to(
    alloc: Global,
    plan: &Plan,
    pace: Pace,
    tree: &Tree<Snapshot>,
    at: usize,
) -> Result<Option<Vec<Line>>, NoMemory>
    requires within { at < length tree.now.nodes.keys }
    requires tree { IsTree (Follows pace plan.now) (start_snapshot plan.now) (map snapshot_of tree.now.nodes.keys) tree.now.parents.items }
    ensures order { IfOk result (λ found. IfSome found (λ lines. IsScheduleTo pace plan.now (map snapshot_of tree.now.nodes.keys) at lines.items)) }
    ensures few { IfOk result (λ found. IfSome found (λ lines. IsAsLed pace plan.now (map snapshot_of tree.now.nodes.keys) tree.now.parents.items at lines.items)) }
    ensures far { IfOk result (λ found. found ≡ None → IsTooFar plan.now tree.now.parents.items at) }
{
    let path = path_back(alloc, tree.parents.as_slice(), at)?;
    if path.len() > plan.lines as usize + 1 {
        return Ok(None);
    }
    let lines = lines_to(alloc, plan, pace, tree, at, path.as_slice())?;
    Ok(Some(lines))
}
