//! What follows a node of a search.

ghost use Rattle.std.specs.Prelude.{ℕ, ◌≡◌, ◌≢◌, ◌<◌, ◌≤◌, ◌++◌, ◌^◌, Err, IfOk, IfSome, None, OnOk, Some, length, map, slice_get, true};
ghost use Rattle.pm_model.specs.declared.event.Line.{Line as ALine};
ghost use Rattle.pm_explore.specs.declared.search.graph.Stop.TheVariants.{Full};
ghost use Rattle.pm_explore.specs.schedule.Schedules.{one_more_if};
ghost use Rattle.pm_explore.specs.schedule.Snapshots.{all_actors};
ghost use Rattle.pm_explore.specs.search.Exact.{HasExactly};
ghost use Rattle.pm_explore.specs.successors.Lines.{IsNext};
ghost use Rattle.pm_explore.specs.successors.Standing.{snapshot_at};
ghost use Rattle.pm_laws.specs.counts.Sizes.{HasPlaces};
ghost use Rattle.pm_state.specs.Standing.{AllStandWell, IsActor};
ghost use Rattle.pm_driver_orders.specs.DriverSnapshots.{is_failure};
ghost use Rattle.pm_driver_rules.specs.GoingOn.{driver_of};
ghost use Rattle.pm_driver_rules.specs.Nodes.{driver_snapshot_of};
ghost use Rattle.pm_driver_search.specs.Poses.{IsPose};
ghost use Rattle.pm_driver_search.specs.Standing.{CanCome, IsRun, IsSoon, snapshot_behind, snapshot_posed, world_posed};
ghost use Rattle.pm_driver_search.specs.Turns.{AddsAll, kept_by, snapshots_after, snapshots_by};

use crate::moments::are_early;
use crate::places::{all_after, is_failure, returned_step};
use crate::pose::{Pose, pose_of, stand_at};
use crate::run::DriverRun;
use crate::steady::all_stand;
use crate::step::{read_snapshot, write};
use pm_base::ActorId;
use pm_driver_orders::Position;
use pm_driver_rules::{DriverNode, DriverRules};
use pm_explore::schedule::Pace;
use pm_explore::search::Stop;
use pm_explore::successors::{Last, next_lines};
use pm_model::{Line, Plan};
use std::alloc::{AllocError, Global};

/// How a search goes on from its nodes.
#[derive(Clone, Copy)]
pub struct Going<'a> {
    pub rules: &'a DriverRules<'a>,
    pub pace: Pace,
    /// How many callbacks may fail.
    pub most: u32,
    /// All actors of the plan.
    pub actors: &'a [ActorId],
    ghost all: { actors.now ≡ all_actors rules.now.plan.now },
    ghost few: { length rules.now.callers.now < 2 ^ 32 },
}

// The last line before a node.
fn last_of(node: &DriverNode) -> Last
    ensures { result ≡ record { time = node.now.snapshot.time; actor = node.now.snapshot.last; code = node.now.snapshot.code } }
{
    Last {
        time: node.snapshot.time,
        actor: node.snapshot.last,
        code: node.snapshot.code,
    }
}

/// Whether an actor is one of the plan's.
pub fn is_actor(plan: &Plan, actor: ActorId) -> bool
    ensures { result ≡ true → IsActor plan.now actor }
{
    match actor {
        ActorId::Caller(caller) => (caller as usize) < plan.callers.len(),
        ActorId::Work(dev) => (dev as usize) < plan.devices.len(),
        ActorId::Timer(dev) => (dev as usize) < plan.devices.len(),
    }
}

// Whether whoever wrote the last line is one of the plan's actors, and its time is one that a run can reckon with.
fn is_sound(plan: &Plan, last: Last) -> bool
    ensures actor { result ≡ true → IfSome last.actor (IsActor plan.now) }
    ensures time { result ≡ true → last.time < 2 ^ 63 }
{
    if last.time >= 1 << 63 {
        return false;
    }
    match last.actor {
        Some(actor) => is_actor(plan, actor),
        None => true,
    }
}

// The lines that may come next where a run stands.
fn lines_at(
    alloc: Global,
    going: &Going,
    run: &DriverRun,
    last: Last,
    spends: bool,
) -> Result<Vec<Line>, Stop>
    requires run { IsRun going.now.rules.now.plan.now run.now }
    requires places { HasPlaces going.now.rules.now.plan.now run.now.state.world }
    ensures lines { IfOk result (λ lines. HasExactly (IsNext going.now.pace going.now.rules.now.plan.now (snapshot_at run.now.state.world last) spends) lines.items) }
    ensures stand { OnOk result (AllStandWell going.now.rules.now.plan.now run.now.state.world) }
    ensures early { OnOk result ((line : ALine) → IsSoon going.now.rules.now.plan.now (snapshot_at run.now.state.world last) line) }
    ensures never_full { result ≢ Err Stop.Full }
{
    let plan = going.rules.plan;
    if !is_sound(plan, last) || !all_stand(plan, &run.state, going.actors) {
        return Err(Stop::TooFar);
    }
    if !are_early(plan, &run.state, last, going.actors) {
        return Err(Stop::TooFar);
    }
    let lines = next_lines(
        alloc,
        plan,
        &run.state,
        going.pace,
        last,
        spends,
        going.actors,
    )?;
    Ok(lines)
}

// The same positions.
fn copied(alloc: Global, positions: &[Position]) -> Result<Vec<Position>, AllocError>
    ensures { IfOk result (λ out. out.items ≡ positions.now) }
{
    let mut out = Vec::new(alloc);
    out.extend_from_slice(positions)?;
    Ok(out)
}

// The node behind a line, where all stand so.
fn node_behind(
    alloc: Global,
    plan: &Plan,
    run: &DriverRun,
    node: &DriverNode,
    line: &Line,
    failures: u32,
    all: &[Position],
) -> Result<DriverNode, AllocError>
    requires run { IsRun plan.now run.now }
    ensures { IfOk result (λ next. driver_snapshot_of next ≡ snapshot_behind (driver_snapshot_of node.now) run.now.state.world line.now failures all.now) }
{
    let snapshot = read_snapshot(alloc, plan, run, line)?;
    let positions = copied(alloc, all)?;
    let own = node.positions.as_slice();
    let returned = returned_step(line.actor, &line.event, own);
    Ok(DriverNode {
        snapshot,
        positions,
        returned,
        failures,
    })
}

// Puts a node for each of the positions to which a line leads at the end, where the run stands behind it.
fn push_nodes(
    alloc: Global,
    plan: &Plan,
    run: &DriverRun,
    node: &DriverNode,
    line: &Line,
    failures: u32,
    positions: &[Vec<Position>],
    out: &mut Vec<DriverNode>,
) -> Result<(), AllocError>
    requires run { IsRun plan.now run.now }
    ensures { OnOk result (map driver_snapshot_of out.new.items ≡ map driver_snapshot_of out.old.items ++ map (λ v. snapshot_behind (driver_snapshot_of node.now) run.now.state.world line.now failures v.items) positions.now) }
{
    for all in positions {
        let next = node_behind(alloc, plan, run, node, line, failures, all.as_slice())?;
        out.push(next)?;
    }
    Ok(())
}

// Puts the nodes to which a line leads at the end.
fn push_line(
    alloc: Global,
    going: &Going,
    run: &mut DriverRun,
    node: &DriverNode,
    pose: &Pose,
    failing: bool,
    failures: u32,
    line: &Line,
    out: &mut Vec<DriverNode>,
) -> Result<(), Stop>
    requires run { IsRun going.now.rules.now.plan.now run.old }
    requires pose { IsPose (driver_of going.now.rules.now) (driver_snapshot_of node.now) failing pose.now }
    requires stand { AllStandWell going.now.rules.now.plan.now (world_posed (driver_of going.now.rules.now) (driver_snapshot_of node.now) failing) }
    requires next { CanCome going.now.rules.now.plan.now (snapshot_posed (driver_of going.now.rules.now) (driver_snapshot_of node.now) failing) line.now }
    requires kind { is_failure line.now.event ≡ failing }
    requires failures { failures ≡ one_more_if failing node.now.failures }
    ensures run { IsRun going.now.rules.now.plan.now run.new }
    ensures nodes { OnOk result (map driver_snapshot_of out.new.items ≡ map driver_snapshot_of out.old.items ++ snapshots_by (driver_of going.now.rules.now) (driver_snapshot_of node.now) line.now) }
    ensures never_full { result ≢ Err Stop.Full }
{
    let plan = going.rules.plan;
    let positions = all_after(
        alloc,
        going.rules,
        node.snapshot.devices.as_slice(),
        line.actor,
        &line.event,
        node.positions.as_slice(),
    )?;
    stand_at(plan, run, node, pose)?;
    write(plan, run, node, pose, last_of(node), line)?;
    push_nodes(
        alloc,
        plan,
        run,
        node,
        line,
        failures,
        positions.as_slice(),
        out,
    )?;
    Ok(())
}

// And so where the line is a failure, or none.
#[tactic(auto, using(crate::proofs::NextLemmas::kept_is, crate::proofs::NextLemmas::none_kept))]
fn push_kept(
    alloc: Global,
    going: &Going,
    run: &mut DriverRun,
    node: &DriverNode,
    pose: &Pose,
    failing: bool,
    failures: u32,
    line: &Line,
    out: &mut Vec<DriverNode>,
) -> Result<(), Stop>
    requires run { IsRun going.now.rules.now.plan.now run.old }
    requires pose { IsPose (driver_of going.now.rules.now) (driver_snapshot_of node.now) failing pose.now }
    requires stand { AllStandWell going.now.rules.now.plan.now (world_posed (driver_of going.now.rules.now) (driver_snapshot_of node.now) failing) }
    requires next { CanCome going.now.rules.now.plan.now (snapshot_posed (driver_of going.now.rules.now) (driver_snapshot_of node.now) failing) line.now }
    requires failures { failures ≡ one_more_if failing node.now.failures }
    ensures run { IsRun going.now.rules.now.plan.now run.new }
    ensures nodes { OnOk result (map driver_snapshot_of out.new.items ≡ map driver_snapshot_of out.old.items ++ kept_by (driver_of going.now.rules.now) (driver_snapshot_of node.now) failing line.now) }
    ensures never_full { result ≢ Err Stop.Full }
{
    if is_failure(&line.event) == failing {
        push_line(alloc, going, run, node, pose, failing, failures, line, out)?;
    }
    Ok(())
}

// Puts the nodes to which those of these lines lead at the end that are failures, or none.
fn push_lines(
    alloc: Global,
    going: &Going,
    run: &mut DriverRun,
    node: &DriverNode,
    pose: &Pose,
    failing: bool,
    failures: u32,
    lines: &[Line],
    out: &mut Vec<DriverNode>,
) -> Result<(), Stop>
    requires run { IsRun going.now.rules.now.plan.now run.old }
    requires pose { IsPose (driver_of going.now.rules.now) (driver_snapshot_of node.now) failing pose.now }
    requires stand { AllStandWell going.now.rules.now.plan.now (world_posed (driver_of going.now.rules.now) (driver_snapshot_of node.now) failing) }
    requires next { (i : ℕ) (line : ALine) → slice_get lines.now i ≡ Some line → CanCome going.now.rules.now.plan.now (snapshot_posed (driver_of going.now.rules.now) (driver_snapshot_of node.now) failing) line }
    requires failures { failures ≡ one_more_if failing node.now.failures }
    ensures run { IsRun going.now.rules.now.plan.now run.new }
    ensures nodes { OnOk result (map driver_snapshot_of out.new.items ≡ map driver_snapshot_of out.old.items ++ snapshots_after (driver_of going.now.rules.now) (driver_snapshot_of node.now) failing lines.now) }
    ensures never_full { result ≢ Err Stop.Full }
{
    for line in lines {
        push_kept(alloc, going, run, node, pose, failing, failures, line, out)?;
    }
    Ok(())
}

// How many callbacks have failed behind a turn, where no more than may have.
fn failures_after(node: &DriverNode, failing: bool, most: u32) -> Option<u32>
    ensures some { IfSome result (λ n. (n ≡ one_more_if failing node.now.failures) × (n ≤ most)) }
    ensures none { result ≡ None → most < one_more_if failing node.now.failures }
{
    let failures = if failing {
        node.failures.checked_add(1)?
    } else {
        node.failures
    };
    if failures > most {
        None
    } else {
        Some(failures)
    }
}

/// Puts at the end nodes for all that follows a node by turns that are failures, or by those that are none, and for nothing else.
pub fn push_turns(
    alloc: Global,
    going: &Going,
    run: &mut DriverRun,
    node: &DriverNode,
    spends: bool,
    failing: bool,
    out: &mut Vec<DriverNode>,
) -> Result<(), Stop>
    requires run { IsRun going.now.rules.now.plan.now run.old }
    ensures run { IsRun going.now.rules.now.plan.now run.new }
    ensures turns { OnOk result (AddsAll going.now.pace (driver_of going.now.rules.now) going.now.most spends failing (driver_snapshot_of node.now) (map driver_snapshot_of out.old.items) (map driver_snapshot_of out.new.items)) }
    ensures never_full { result ≢ Err Stop.Full }
{
    let Some(failures) = failures_after(node, failing, going.most) else {
        return Ok(());
    };
    if node.snapshot.called.len() >= 1 << 32 {
        return Err(Stop::TooFar);
    }
    let pose = pose_of(alloc, going.rules, node, failing)?;
    stand_at(going.rules.plan, run, node, &pose)?;
    let lines = lines_at(alloc, going, run, last_of(node), spends)?;
    let lines = lines.as_slice();
    push_lines(
        alloc, going, run, node, &pose, failing, failures, lines, out,
    )?;
    Ok(())
}
