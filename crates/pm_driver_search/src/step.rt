//! A line is written, and where the run stands then is read.

ghost use Rattle.std.specs.Prelude.{◌≡◌, ◌≢◌, ◌<◌, ◌^◌, Err, IfOk, None, OnOk, Some, length, map};
ghost use Rattle.pm_explore.specs.declared.search.graph.Stop.TheVariants.{Full};
ghost use Rattle.pm_driver_orders.specs.DriverSnapshots.{bare_snapshot};
ghost use Rattle.pm_explore.specs.schedule.Snapshots.{MayFollow, code_of};
ghost use Rattle.pm_explore.specs.state.SnapshotOf.{snapshot_of, world_of};
ghost use Rattle.pm_explore.specs.successors.Standing.{snapshot_at};
ghost use Rattle.pm_model.specs.World.{after_line, place, row_at};
ghost use Rattle.pm_state.specs.Standing.{AllStandWell, IsActor};
ghost use Rattle.pm_driver_search.specs.Poses.{world_by};
ghost use Rattle.pm_driver_search.specs.Standing.{IsRun};

use crate::can_take::takes;
use crate::pose::{Pose, begun_devices};
use crate::rooms::fits;
use crate::run::DriverRun;
use pm_base::ActorId;
use pm_driver_rules::DriverNode;
use pm_explore::search::Stop;
use pm_explore::state::Snapshot;
use pm_explore::successors::Last;
use pm_model::{Event, Line, Move, Plan};
use std::alloc::{AllocError, Global};

// How many stages stand in the place of an actor.
fn stages_at(node: &DriverNode, actor: ActorId) -> usize
    ensures { result ≡ length (place (world_of node.now.snapshot) actor) }
{
    let place = match actor {
        ActorId::Caller(caller) => node.snapshot.caller_places.get(caller as usize),
        ActorId::Work(dev) => node.snapshot.work_places.get(dev as usize),
        ActorId::Timer(dev) => node.snapshot.timer_places.get(dev as usize),
    };
    match place {
        Some(stages) => stages.len(),
        None => 0,
    }
}

/// Writes a line that may come next, from where a node stands, if the state can take it.
pub fn write(
    plan: &Plan,
    run: &mut DriverRun,
    node: &DriverNode,
    pose: &Pose,
    _last: Last,
    line: &Line,
) -> Result<(), Stop>
    requires run { IsRun plan.now run.old }
    requires stand { AllStandWell plan.now run.old.state.world }
    requires in_range { IsActor plan.now line.now.actor }
    requires in_time { line.now.time < 2 ^ 63 }
    requires stands { run.old.state.world ≡ world_by node.now pose.now }
    requires may { MayFollow plan.now (snapshot_at run.old.state.world _last) line.now }
    ensures run { IsRun plan.now run.new }
    ensures never_full { result ≢ Err Stop.Full }
    ensures stands { OnOk result (run.new.state.world ≡ after_line plan.now run.old.state.world line.now (row_at plan.now run.old.state.world line.now.actor line.now.time)) }
{
    let Some(stage) = run.state.stage_at(plan, line.actor) else {
        unreachable!();
    };
    let Move::Write(event, change, next) = run.state.next(plan, &stage, line.time) else {
        unreachable!();
    };
    let stages = stages_at(node, line.actor);
    if !fits(stages, &next, run.room) {
        return Err(Stop::TooFar);
    }
    let devices = pose.devices.as_slice();
    let held = node.snapshot.held.as_slice();
    if !takes(plan, &run.state, devices, held, line.actor, &change, &event) {
        return Err(Stop::TooFar);
    }
    run.state
        .go(plan, line.time, line.actor, &event, &change, &next);
    Ok(())
}

// What an event returns to a caller.
fn code_of(event: &Event) -> Option<i32>
    ensures { result ≡ code_of event.now }
{
    match event {
        Event::Ret { code, .. } => Some(*code),
        _ => None,
    }
}

// So many zeros.
fn zeros(alloc: Global, called: &[u32]) -> Result<Vec<u32>, AllocError>
    ensures { IfOk result (λ out. out.items ≡ map (λ n. 0) called.now) }
{
    let mut out = Vec::with_capacity(alloc, called.len())?;
    for _ in called {
        out.push(0)?;
    }
    Ok(out)
}

// A snapshot whose counts of calls and of begins are forgotten.
fn bare(alloc: Global, snapshot: Snapshot) -> Result<Snapshot, AllocError>
    ensures { IfOk result (λ bare. snapshot_of bare ≡ bare_snapshot (snapshot_of snapshot)) }
{
    let mut snapshot = snapshot;
    snapshot.devices = begun_devices(alloc, snapshot.devices.as_slice(), 1)?;
    snapshot.called = zeros(alloc, snapshot.called.as_slice())?;
    Ok(snapshot)
}

/// The snapshot behind a line, at which a run stands; counts are forgotten.
pub fn read_snapshot(
    alloc: Global,
    plan: &Plan,
    run: &DriverRun,
    line: &Line,
) -> Result<Snapshot, AllocError>
    requires run { IsRun plan.now run.now }
    ensures { IfOk result (λ snapshot. snapshot_of snapshot ≡ bare_snapshot (record { world = run.now.state.world; time = line.now.time; last = Some line.now.actor; code = code_of line.now.event })) }
{
    let code = code_of(&line.event);
    let snapshot = Snapshot::of(alloc, plan, &run.state, line.time, Some(line.actor), code)?;
    bare(alloc, snapshot)
}

/// The snapshot before any line.
pub fn first_snapshot(alloc: Global, plan: &Plan, run: &DriverRun) -> Result<Snapshot, AllocError>
    requires run { IsRun plan.now run.now }
    ensures { IfOk result (λ snapshot. snapshot_of snapshot ≡ bare_snapshot (record { world = run.now.state.world; time = 0; last = None; code = None })) }
{
    let snapshot = Snapshot::of(alloc, plan, &run.state, 0, None, None)?;
    bare(alloc, snapshot)
}
