//! The schedule that leads to a node of a search, line by line.

ghost use Rattle.std.specs.Prelude.{◌≡◌, ◌≢◌, ◌<◌, ◌≤◌, ◌^◌, Err, IfOk, IfSome, OnOk, false, length, map, true};
ghost use Rattle.pm_driver_orders.specs.DriverSnapshots.{DriverFollows, start_driver};
ghost use Rattle.pm_driver_rules.specs.GoingOn.{driver_of};
ghost use Rattle.pm_driver_rules.specs.Nodes.{driver_snapshot_of};
ghost use Rattle.pm_driver_search.specs.Standing.{IsRun, world_posed};
ghost use Rattle.pm_driver_search.specs.Witness.{IsLineBetween, IsWitness};
ghost use Rattle.pm_explore.specs.declared.search.graph.Stop.TheVariants.{Full};
ghost use Rattle.pm_explore.specs.declared.successors.moves.Last.{Last as ALast};
ghost use Rattle.pm_explore.specs.schedule.Snapshots.{MayFollow};
ghost use Rattle.pm_explore.specs.search.Trees.{IsPath, IsTree};
ghost use Rattle.pm_explore.specs.successors.Standing.{snapshot_at};
ghost use Rattle.pm_model.specs.declared.event.Line.{Line as ALine};
ghost use Rattle.pm_state.specs.Standing.{AllStandWell, IsActor};

use crate::next::{Going, is_actor};
use crate::pose::{pose_of, stand_at};
use crate::run::DriverRun;
use crate::steady::all_stand;
use pm_base::{ActorId, NoMemory};
use pm_driver_rules::{DriverNode, DriverRules};
use pm_explore::schedule::Pace;
use pm_explore::search::{Stop, Tree, path_back};
use pm_explore::successors::actors;
use pm_model::{Line, Move, Plan};
use std::alloc::Global;

// The line that an actor writes at a moment, where a run stands.
#[tactic(auto, using(crate::proofs::WitnessLemmas::only_line))]
fn line_by(plan: &Plan, run: &DriverRun, actor: ActorId, time: u64) -> Option<Line>
    requires run { IsRun plan.now run.now }
    requires stand { AllStandWell plan.now run.now.state.world }
    requires in_range { IsActor plan.now actor }
    requires in_time { time < 2 ^ 63 }
    ensures { IfSome result (λ line. (last : ALast) (other : ALine) → MayFollow plan.now (snapshot_at run.now.state.world last) other → other.actor ≡ actor → other.time ≡ time → other ≡ line) }
{
    let stage = run.state.stage_at(plan, actor)?;
    let Move::Write(event, _, _) = run.state.next(plan, &stage, time) else {
        return None;
    };
    Some(Line { time, actor, event })
}

// The run stands where a node goes on with a line that is a failure, or is none.
fn pose_at(
    alloc: Global,
    going: &Going,
    run: &mut DriverRun,
    node: &DriverNode,
    failing: bool,
) -> Result<(), Stop>
    requires run { IsRun going.now.rules.now.plan.now run.old }
    ensures run { IsRun going.now.rules.now.plan.now run.new }
    ensures stands { OnOk result (run.new.state.world ≡ world_posed (driver_of going.now.rules.now) (driver_snapshot_of node.now) failing) }
    ensures stand { OnOk result (AllStandWell going.now.rules.now.plan.now run.new.state.world) }
    ensures never_full { result ≢ Err Stop.Full }
{
    if node.snapshot.called.len() >= 1 << 32 {
        return Err(Stop::TooFar);
    }
    let plan = going.rules.plan;
    let pose = pose_of(alloc, going.rules, node, failing)?;
    stand_at(plan, run, node, &pose)?;
    if !all_stand(plan, &run.state, going.actors) {
        return Err(Stop::TooFar);
    }
    Ok(())
}

// Whether a callback has failed between two nodes that follow one another.
fn has_failed(from: &DriverNode, to: &DriverNode) -> bool
    ensures yes { result ≡ true → from.now.failures < to.now.failures }
    ensures no { result ≡ false → to.now.failures ≤ from.now.failures }
{
    to.failures > from.failures
}

// The line of each turn that leads from one node to another.
fn line_between(
    alloc: Global,
    going: &Going,
    run: &mut DriverRun,
    from: &DriverNode,
    to: &DriverNode,
) -> Result<Line, Stop>
    requires run { IsRun going.now.rules.now.plan.now run.old }
    ensures run { IsRun going.now.rules.now.plan.now run.new }
    ensures line { IfOk result (IsLineBetween going.now.pace (driver_of going.now.rules.now) going.now.most (driver_snapshot_of from.now) (driver_snapshot_of to.now)) }
    ensures never_full { result ≢ Err Stop.Full }
{
    let plan = going.rules.plan;
    let time = to.snapshot.time;
    let Some(actor) = to.snapshot.last else {
        return Err(Stop::TooFar);
    };
    if time >= 1 << 63 || !is_actor(plan, actor) {
        return Err(Stop::TooFar);
    }
    let failing = has_failed(from, to);
    pose_at(alloc, going, run, from, failing)?;
    match line_by(plan, run, actor, time) {
        Some(line) => Ok(line),
        None => Err(Stop::TooFar),
    }
}

// The lines on the path to a node.
fn lines_to(
    alloc: Global,
    going: &Going,
    run: &mut DriverRun,
    tree: &Tree<DriverNode>,
    at: usize,
    path: &[usize],
) -> Result<Vec<Line>, Stop>
    requires run { IsRun going.now.rules.now.plan.now run.old }
    requires within { at < length tree.now.nodes.keys }
    requires tree { IsTree (DriverFollows going.now.pace (driver_of going.now.rules.now) going.now.most) (start_driver (driver_of going.now.rules.now)) (map driver_snapshot_of tree.now.nodes.keys) tree.now.parents.items }
    requires path { IsPath tree.now.parents.items at path.now }
    ensures { IfOk result (λ lines. IsWitness going.now.pace (driver_of going.now.rules.now) going.now.most (map driver_snapshot_of tree.now.nodes.keys) tree.now.parents.items at lines.items) }
{
    let mut lines = Vec::new(alloc);
    let mut left = path.len() - 1;
    while left > 0 {
        let Some(from) = tree.nodes.get_index(path[left]) else {
            unreachable!();
        };
        left -= 1;
        let Some(to) = tree.nodes.get_index(path[left]) else {
            unreachable!();
        };
        let line = line_between(alloc, going, run, from, to)?;
        lines.push(line)?;
    }
    Ok(lines)
}

/// The lines of a schedule that stands at a node of a search, of which no more preempt than by the parents on the way there. The
/// state is posed anew at each node; none comes where it can't be posed, which the search that found the nodes could.
pub fn witness_to(
    alloc: Global,
    rules: &DriverRules,
    pace: Pace,
    failures: u32,
    tree: &Tree<DriverNode>,
    at: usize,
) -> Result<Option<Vec<Line>>, NoMemory>
    requires few { length rules.now.callers.now < 2 ^ 32 }
    requires within { at < length tree.now.nodes.keys }
    requires tree { IsTree (DriverFollows pace (driver_of rules.now) failures) (start_driver (driver_of rules.now)) (map driver_snapshot_of tree.now.nodes.keys) tree.now.parents.items }
    ensures { IfOk result (λ found. IfSome found (λ lines. IsWitness pace (driver_of rules.now) failures (map driver_snapshot_of tree.now.nodes.keys) tree.now.parents.items at lines.items)) }
{
    let all = actors(alloc, rules.plan)?;
    let going = Going {
        rules,
        pace,
        most: failures,
        actors: all.as_slice(),
    };
    let mut run = DriverRun::start(alloc, rules.plan)?;
    let path = path_back(alloc, tree.parents.as_slice(), at)?;
    match lines_to(alloc, &going, &mut run, tree, at, path.as_slice()) {
        Ok(lines) => Ok(Some(lines)),
        Err(Stop::NoMemory) => Err(NoMemory),
        Err(_) => Ok(None),
    }
}
