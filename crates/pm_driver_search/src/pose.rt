//! A state is set to stand at a snapshot of a driver, as it goes on.

ghost use Rattle.std.specs.Prelude.{◌≡◌, ◌<◌, ◌^◌, All, IfOk, OnOk, length, map, slice_get, true, if◌then◌else◌, ◌≢◌, Err};
ghost use Rattle.pm_explore.specs.declared.search.graph.Stop.TheVariants.{Full};
ghost use Rattle.std.specs.Option.{option_map_or};
ghost use Rattle.pm_device.specs.Parts.{IsInTime};
ghost use Rattle.pm_driver_flat.specs.Flat.{begun_so};
ghost use Rattle.pm_driver_orders.specs.Drivers.{next_place, places_from};
ghost use Rattle.pm_driver_rules.specs.GoingOn.{driver_of};
ghost use Rattle.pm_laws.specs.counts.Sizes.{HasPlaces};
ghost use Rattle.pm_model.specs.Views.{Views as AViews};
ghost use Rattle.pm_driver_rules.specs.Nodes.{driver_snapshot_of};
ghost use Rattle.pm_driver_search.specs.Poses.{AreMany, CanPose, IsPose, world_by};
ghost use Rattle.pm_driver_search.specs.Standing.{IsRun};

use crate::rooms::have_room;
use crate::run::DriverRun;
use pm_driver_orders::Position;
use pm_driver_rules::{DriverNode, DriverRules, may_call};
use pm_explore::search::Stop;
use pm_model::{CallerRow, Device, Plan};
use std::alloc::{AllocError, Global};

/// Devices whose callbacks have begun so often.
pub fn begun_devices(
    alloc: Global,
    devices: &[Device],
    begun: u32,
) -> Result<Vec<Device>, AllocError>
    ensures { IfOk result (λ out. out.items ≡ map (begun_so begun) devices.now) }
{
    let mut out = Vec::with_capacity(alloc, devices.len())?;
    for device in devices {
        let mut device = *device;
        device.begun_idle = begun;
        device.begun_suspend = begun;
        device.begun_resume = begun;
        out.push(device)?;
    }
    Ok(out)
}

fn script_len(row: &CallerRow) -> usize
    ensures { result ≡ length row.now.script }
{
    row.script.as_slice().len()
}

// Just behind a caller's last command.
fn behind(plan: &Plan, caller: u32) -> usize
    ensures { result ≡ option_map_or (λ row. length row.script) (slice_get plan.now.callers caller) 0 }
{
    match plan.callers.as_slice().get(caller as usize) {
        Some(row) => script_len(row),
        None => 0,
    }
}

// The command that a caller may call next, or behind the last.
#[tactic(auto, using(crate::proofs::PoseLemmas::behind_few))]
fn next_place(rules: &DriverRules, positions: &[Position], devices: &[Device], caller: u32) -> u32
    requires { length rules.now.callers.now < 2 ^ 32 }
    ensures { (v : AViews) → v.devices ≡ devices.now → result ≡ next_place (driver_of rules.now) positions.now v caller }
{
    if may_call(rules.callers, positions, devices, caller)
        && let Some(Position::At(place)) = positions.get(caller as usize)
    {
        *place
    } else {
        behind(rules.plan, caller) as u32
    }
}

/// The numbers of calls of so many callers, as they go on.
pub fn called_places(
    alloc: Global,
    rules: &DriverRules,
    positions: &[Position],
    devices: &[Device],
    called: &[u32],
) -> Result<Vec<u32>, AllocError>
    requires few { length rules.now.callers.now < 2 ^ 32 }
    requires callers { length called.now < 2 ^ 32 }
    ensures { IfOk result (λ out. (v : AViews) → v.devices ≡ devices.now → out.items ≡ places_from (next_place (driver_of rules.now) positions.now v) 0 called.now) }
{
    let mut out = Vec::with_capacity(alloc, called.len())?;
    for caller in 0..called.len() {
        out.push(next_place(rules, positions, devices, caller as u32))?;
    }
    Ok(out)
}

// Whether a run can reckon with the times of a device.
fn is_in_time(device: &Device) -> bool
    ensures { result ≡ true → IsInTime device.now }
{
    device.last_busy < 1 << 63 && -1_000_000 <= device.delay && device.delay <= 1_000_000
}

#[tactic(auto, using(crate::proofs::ListLemmas::all_more, crate::proofs::ListLemmas::all_whole))]
fn are_in_time(devices: &[Device]) -> bool
    ensures { result ≡ true → All IsInTime devices.now }
{
    for device in devices {
        if !is_in_time(device) {
            return false;
        }
    }
    true
}

/// What a state is filled with.
#[derive(Drop)]
pub struct Pose {
    pub devices: Vec<Device>,
    pub called: Vec<u32>,
}

// How often callbacks have begun where the one that ends next fails, or doesn't.
fn begun_for(failing: bool) -> u32
    ensures { result ≡ (if failing then 1 else 2) }
{
    if failing { 1 } else { 2 }
}

/// How a snapshot goes on.
pub fn pose_of(
    alloc: Global,
    rules: &DriverRules,
    node: &DriverNode,
    failing: bool,
) -> Result<Pose, AllocError>
    requires few { length rules.now.callers.now < 2 ^ 32 }
    requires callers { length node.now.snapshot.called.items < 2 ^ 32 }
    ensures { IfOk result (IsPose (driver_of rules.now) (driver_snapshot_of node.now) failing) }
{
    let devices = node.snapshot.devices.as_slice();
    let plain = begun_devices(alloc, devices, 1)?;
    let called = called_places(
        alloc,
        rules,
        node.positions.as_slice(),
        plain.as_slice(),
        node.snapshot.called.as_slice(),
    )?;
    let begun = begun_devices(alloc, devices, begun_for(failing))?;
    Ok(Pose {
        devices: begun,
        called,
    })
}

// Whether there are as many entries as a plan wants.
fn has_entries(plan: &Plan, node: &DriverNode, pose: &Pose) -> bool
    ensures { result ≡ true → AreMany plan.now node.now pose.now }
{
    let devices = plan.devices.len();
    pose.devices.len() == devices
        && node.snapshot.pending.len() == devices
        && node.snapshot.timers.len() == devices
        && node.snapshot.on.len() == plan.domains.len()
        && node.snapshot.held.len() == plan.links.as_slice().len()
        && node.snapshot.present.len() == plan.links.as_slice().len()
        && node.snapshot.caller_places.len() == plan.callers.len()
        && node.snapshot.work_places.len() == devices
        && node.snapshot.timer_places.len() == devices
        && pose.called.len() == plan.callers.len()
}

// Whether a state can stand there that has so much room.
fn can_stand(plan: &Plan, room: usize, node: &DriverNode, pose: &Pose) -> bool
    ensures { result ≡ true → CanPose plan.now room node.now pose.now }
{
    has_entries(plan, node, pose)
        && are_in_time(pose.devices.as_slice())
        && have_room(node.snapshot.caller_places.as_slice(), room)
        && have_room(node.snapshot.work_places.as_slice(), room)
        && have_room(node.snapshot.timer_places.as_slice(), room)
}

// The state stands there.
fn fill(plan: &Plan, run: &mut DriverRun, node: &DriverNode, pose: &Pose)
    requires run { IsRun plan.now run.old }
    requires can { CanPose plan.now run.old.room node.now pose.now }
    ensures run { IsRun plan.now run.new }
    ensures stands { run.new.state.world ≡ world_by node.now pose.now }
{
    let snapshot = &node.snapshot;
    run.state.fill_views(
        plan,
        pose.devices.as_slice(),
        snapshot.pending.as_slice(),
        snapshot.timers.as_slice(),
        snapshot.on.as_slice(),
        snapshot.held.as_slice(),
        snapshot.present.as_slice(),
    );
    run.state.fill_places(
        snapshot.caller_places.as_slice(),
        snapshot.work_places.as_slice(),
        snapshot.timer_places.as_slice(),
        pose.called.as_slice(),
    );
}

/// The state stands where a snapshot goes on, if it can stand there.
pub fn stand_at(
    plan: &Plan,
    run: &mut DriverRun,
    node: &DriverNode,
    pose: &Pose,
) -> Result<(), Stop>
    requires run { IsRun plan.now run.old }
    ensures run { IsRun plan.now run.new }
    ensures stands { OnOk result (run.new.state.world ≡ world_by node.now pose.now) }
    ensures places { OnOk result (HasPlaces plan.now run.new.state.world) }
    ensures never_full { result ≢ Err Stop.Full }
{
    if !can_stand(plan, run.room, node, pose) {
        return Err(Stop::TooFar);
    }
    fill(plan, run, node, pose);
    Ok(())
}
