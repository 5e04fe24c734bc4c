//! What may be seen where a schedule stands.

ghost use Rattle.std.specs.Prelude.{◌≡◌, ◌+◌, ◌<◌, ◌^◌, length};
ghost use Rattle.pm_driver_rules.specs.Nodes.{driver_snapshot_of};
ghost use Rattle.pm_driver_rules.specs.Rules.{is_active_status, status_at};
ghost use Rattle.pm_driver_find.specs.Ends.{any_at};
ghost use Rattle.pm_driver_find.specs.Sights.{code_by, has_answered, has_failed_call, has_no_error, hangs, is_before_call, is_child_on, is_domain_on, is_failure_code, is_in_call, is_left_on, is_off, is_refused_put, is_seen, is_set, is_shared, is_unheld, leaks, leaves_on, leaves_set, stands_so};

use crate::ends::{is_at_rest, is_over, is_unbound, is_undone};
use crate::examined::ExaminedDriver;
use pm_base::{ActorId, DevId, EACCES, EINVAL, Status};
use pm_driver_orders::Position;
use pm_driver_rules::DriverNode;
use pm_model::{Device, DeviceRow, Plan};

/// What a probe may set up that stands until it is undone.
#[derive(Clone, Copy)]
pub enum ProbeSetting {
    /// Runtime power management of the device is enabled (`enable`).
    Enabled,
    /// It is forbidden (`forbid`).
    Forbidden,
    /// Its autosuspend is in use (`use_autosuspend`).
    Autosuspend,
}

/// What may be seen where a schedule stands.
#[derive(Clone, Copy)]
pub enum DriverSight {
    /// The call of this place of a caller's program has returned a code.
    Answers {
        caller: u32,
        place: usize,
        code: i32,
    },
    /// The call of this place has failed: it has returned a code below 0, and none for a device that is disabled.
    FailsUnread {
        caller: u32,
        place: usize,
    },
    /// The call of this place, which puts a count of the device, has been refused: there was none to give back. It has returned -22
    /// (EINVAL), and not for an error of the device.
    PutsNone {
        caller: u32,
        place: usize,
        dev: DevId,
    },
    /// A caller is in the call of this place, and the device isn't active, or its domain is off.
    MeetsOff {
        caller: u32,
        place: usize,
        dev: DevId,
    },
    /// Nothing more may come, and the caller waits before this place.
    Hangs {
        caller: u32,
        place: usize,
    },
    /// Nothing more may come and no caller waits, and the device is active and enabled, though nobody holds it.
    LeftOn {
        dev: DevId,
    },
    /// There too, and callers hold counts of the device; where a probe may keep one, only where that is to be given back.
    Leaks {
        dev: DevId,
        kept: bool,
    },
    /// There too, where what a probe set up is to be undone, and this of it stands.
    LeftSet {
        dev: DevId,
        setting: ProbeSetting,
    },
}

// The code that the last line returned from the call of a caller's place.
fn code_by(node: &DriverNode, caller: u32, place: usize) -> Option<i32>
    ensures { result ≡ code_by (driver_snapshot_of node.now) caller place }
{
    let by = match node.snapshot.last {
        Some(ActorId::Caller(other)) => other == caller,
        _ => false,
    };
    let from = match node.returned {
        Some(other) => other as usize == place,
        None => false,
    };
    if by && from { node.snapshot.code } else { None }
}

// Whether the last line returned this code from there.
fn has_answered(node: &DriverNode, caller: u32, place: usize, code: i32) -> bool
    ensures { result ≡ has_answered (driver_snapshot_of node.now) caller place code }
{
    match code_by(node, caller, place) {
        Some(other) => other == code,
        None => false,
    }
}

fn is_failure_code(code: i32) -> bool
    ensures { result ≡ is_failure_code code }
{
    code < 0 && code != EACCES
}

// Whether the last line returned from there that the call failed.
fn has_failed_call(node: &DriverNode, caller: u32, place: usize) -> bool
    ensures { result ≡ has_failed_call (driver_snapshot_of node.now) caller place }
{
    match code_by(node, caller, place) {
        Some(code) => is_failure_code(code),
        None => false,
    }
}

// Whether a caller is in the call of a place.
fn is_in(positions: &[Position], caller: u32, place: usize) -> bool
    ensures { result ≡ is_in_call positions.now caller place }
{
    match positions.get(caller as usize).copied() {
        Some(Position::In(other)) => other as usize == place,
        _ => false,
    }
}

// Whether a caller stands before a place.
fn is_before_call(positions: &[Position], caller: u32, place: usize) -> bool
    ensures { result ≡ is_before_call positions.now caller place }
{
    match positions.get(caller as usize).copied() {
        Some(Position::At(other)) => other as usize == place,
        _ => false,
    }
}

fn is_active_at(devices: &[Device], dev: DevId) -> bool
    ensures { result ≡ is_active_status (status_at devices.now dev) }
{
    match devices.get(dev.0 as usize) {
        Some(device) => matches!(device.status, Status::Active),
        None => false,
    }
}

// Whether the device's own domain is on, where it has one.
fn is_domain_on(plan: &Plan, on: &[bool], dev: DevId) -> bool
    ensures { result ≡ is_domain_on plan.now on.now dev }
{
    let Some(row) = plan.devices.as_slice().get(dev.0 as usize) else {
        return true;
    };
    match row.domain {
        Some(domain) => on.get(domain.0 as usize).copied().unwrap_or(false),
        None => true,
    }
}

// Whether a caller is in the call of a place, and a device isn't active, or its domain is off.
fn is_off(plan: &Plan, node: &DriverNode, caller: u32, place: usize, dev: DevId) -> bool
    ensures { result ≡ is_off plan.now (driver_snapshot_of node.now) caller place dev }
{
    let snapshot = &node.snapshot;
    let is_on = is_active_at(snapshot.devices.as_slice(), dev)
        && is_domain_on(plan, snapshot.on.as_slice(), dev);
    is_in(node.positions.as_slice(), caller, place) && !is_on
}

fn has_no_error(device: &Device) -> bool
    ensures { result ≡ has_no_error device.now }
{
    device.error == 0
}

// Whether a put of a device has been refused.
fn is_refused_put(node: &DriverNode, caller: u32, place: usize, dev: DevId) -> bool
    ensures { result ≡ is_refused_put (driver_snapshot_of node.now) caller place dev }
{
    let well = match node.snapshot.devices.as_slice().get(dev.0 as usize) {
        Some(device) => has_no_error(device),
        None => false,
    };
    has_answered(node, caller, place, EINVAL) && well
}

// Whether the device of a number is an active child of this one.
fn is_child_on(devices: &[Device], dev: DevId, number: u32, row: &DeviceRow) -> bool
    ensures { result ≡ is_child_on devices.now dev number row.now }
{
    match row.parent {
        Some(parent) => parent.0 == dev.0 && is_active_at(devices, DevId(number)),
        None => false,
    }
}

// Whether one of these devices, counted on from a number, is an active child of this one.
fn some_child_on(devices: &[Device], dev: DevId, number: u32, rows: &[DeviceRow]) -> bool
    requires { number + length rows.now < 2 ^ 32 }
    ensures { result ≡ any_at (is_child_on devices.now dev) number rows.now }
{
    let [row, rest @ ..] = rows else {
        return false;
    };
    is_child_on(devices, dev, number, row) || some_child_on(devices, dev, number + 1, rest)
}

// Whether a device is active and enabled, has no error, and nobody holds it.
fn is_unheld(device: &Device) -> bool
    ensures { result ≡ is_unheld device.now }
{
    matches!(device.status, Status::Active)
        && device.depth == 0
        && device.usage == 0
        && has_no_error(device)
}

fn is_left_on(plan: &Plan, devices: &[Device], dev: DevId) -> bool
    requires { length plan.now.devices < 2 ^ 32 }
    ensures { result ≡ is_left_on plan.now devices.now dev }
{
    let Some(device) = devices.get(dev.0 as usize) else {
        return false;
    };
    is_unheld(device)
        && (device.ignores || !some_child_on(devices, dev, 0, plan.devices.as_slice()))
}

fn is_shared(devices: &[Device], dev: DevId) -> bool
    ensures { result ≡ is_shared devices.now dev }
{
    match devices.get(dev.0 as usize) {
        Some(device) => device.share > 0,
        None => false,
    }
}

fn stands_so(setting: ProbeSetting, device: &Device) -> bool
    ensures { result ≡ stands_so setting device.now }
{
    match setting {
        ProbeSetting::Enabled => device.depth == 0,
        ProbeSetting::Forbidden => !device.auto_on,
        ProbeSetting::Autosuspend => device.use_auto,
    }
}

fn is_set(setting: ProbeSetting, devices: &[Device], dev: DevId) -> bool
    ensures { result ≡ is_set setting devices.now dev }
{
    match devices.get(dev.0 as usize) {
        Some(device) => stands_so(setting, device),
        None => false,
    }
}

// Whether nothing more may come, and a caller waits before a place.
fn hangs(examined: &ExaminedDriver, node: &DriverNode, caller: u32, place: usize) -> bool
    requires { length examined.now.rules.now.callers.now < 2 ^ 32 }
    ensures { result ≡ hangs examined.now (driver_snapshot_of node.now) caller place }
{
    is_before_call(node.positions.as_slice(), caller, place) && is_over(examined, node)
}

#[tactic(auto, using(crate::proofs::FewLemmas::few_devices))]
fn leaves_on(examined: &ExaminedDriver, node: &DriverNode, dev: DevId) -> bool
    requires { length examined.now.rules.now.callers.now < 2 ^ 32 }
    ensures { result ≡ leaves_on examined.now (driver_snapshot_of node.now) dev }
{
    let devices = node.snapshot.devices.as_slice();
    is_left_on(examined.rules.plan, devices, dev) && is_at_rest(examined, node)
}

fn leaks(examined: &ExaminedDriver, node: &DriverNode, dev: DevId, kept: bool) -> bool
    requires { length examined.now.rules.now.callers.now < 2 ^ 32 }
    ensures { result ≡ leaks examined.now (driver_snapshot_of node.now) dev kept }
{
    is_shared(node.snapshot.devices.as_slice(), dev)
        && is_at_rest(examined, node)
        && (!kept || is_unbound(examined, node))
}

fn leaves_set(
    examined: &ExaminedDriver,
    node: &DriverNode,
    dev: DevId,
    setting: ProbeSetting,
) -> bool
    requires { length examined.now.rules.now.callers.now < 2 ^ 32 }
    ensures { result ≡ leaves_set examined.now (driver_snapshot_of node.now) dev setting }
{
    is_set(setting, node.snapshot.devices.as_slice(), dev)
        && is_at_rest(examined, node)
        && is_undone(examined, node)
}

/// Whether this is seen at a node.
pub fn is_seen(examined: &ExaminedDriver, node: &DriverNode, sight: DriverSight) -> bool
    requires { length examined.now.rules.now.callers.now < 2 ^ 32 }
    ensures { result ≡ is_seen examined.now (driver_snapshot_of node.now) sight }
{
    match sight {
        DriverSight::Answers {
            caller,
            place,
            code,
        } => has_answered(node, caller, place, code),
        DriverSight::FailsUnread { caller, place } => has_failed_call(node, caller, place),
        DriverSight::PutsNone { caller, place, dev } => is_refused_put(node, caller, place, dev),
        DriverSight::MeetsOff { caller, place, dev } => {
            is_off(examined.rules.plan, node, caller, place, dev)
        }
        DriverSight::Hangs { caller, place } => hangs(examined, node, caller, place),
        DriverSight::LeftOn { dev } => leaves_on(examined, node, dev),
        DriverSight::Leaks { dev, kept } => leaks(examined, node, dev, kept),
        DriverSight::LeftSet { dev, setting } => leaves_set(examined, node, dev, setting),
    }
}
