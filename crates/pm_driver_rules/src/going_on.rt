//! Where a program goes on from a call.

ghost use Rattle.std.specs.Prelude.{◌≡◌, IfOk, map};
ghost use Rattle.pm_model.specs.Derived.{first_of, is_counted_child};
ghost use Rattle.pm_driver_orders.specs.Programs.{goes_on_at, holds, rows_of};
ghost use Rattle.pm_model.specs.Views.{Views};
ghost use Rattle.pm_driver_rules.specs.Rules.{depth_at};
ghost use Rattle.pm_driver_rules.specs.GoingOn.{answer_of, exit_of, has_child_in, ignores_at, is_so, is_suspended_status, needs_resume, test_of, usage_at, ways_of};

use crate::guards::{is_active_status, status_at};
use pm_base::{DevId, Status};
use pm_driver_script::{Asked, PlaceExit, ProgramPlace};
use pm_driver_text::{CodeTest, Question};
use pm_model::{Device, DeviceRow, Plan};
use std::alloc::{AllocError, Global};

fn depth_at(devices: &[Device], dev: DevId) -> u32
    ensures { result ≡ depth_at devices.now dev }
{
    match devices.get(dev.0 as usize) {
        Some(device) => device.depth,
        None => 1,
    }
}

fn is_suspended_status(status: Status) -> bool
    ensures { result ≡ is_suspended_status status }
{
    matches!(status, Status::Suspended)
}

fn usage_at(devices: &[Device], dev: DevId) -> u32
    ensures { result ≡ usage_at devices.now dev }
{
    match devices.get(dev.0 as usize) {
        Some(device) => device.usage,
        None => 0,
    }
}

fn ignores_at(devices: &[Device], dev: DevId) -> bool
    ensures { result ≡ ignores_at devices.now dev }
{
    match devices.get(dev.0 as usize) {
        Some(device) => device.ignores,
        None => false,
    }
}

// Whether a device of this row is a child of another that counts.
fn is_counted_child(dev: DevId, row: &DeviceRow, device: &Device) -> bool
    ensures { result ≡ is_counted_child dev row.now device.now }
{
    match row.parent {
        Some(parent) => {
            parent.0 == dev.0 && matches!(device.status, Status::Active | Status::Suspending)
        }
        None => false,
    }
}

// Whether a device has children that count, among these.
fn has_child_in(rows: &[DeviceRow], devices: &[Device], dev: DevId) -> bool
    ensures { result ≡ has_child_in rows.now devices.now dev }
{
    let [row, rows @ ..] = rows else {
        return false;
    };
    let [device, devices @ ..] = devices else {
        return false;
    };
    is_counted_child(dev, row, device) || has_child_in(rows, devices, dev)
}

// Whether a device has to come up again where it is forced down.
fn needs_resume(rows: &[DeviceRow], devices: &[Device], dev: DevId) -> bool
    ensures { result ≡ needs_resume rows.now devices.now dev }
{
    usage_at(devices, dev) > 1 || (has_child_in(rows, devices, dev) && !ignores_at(devices, dev))
}

// What a question of a device is answered.
fn is_so(rows: &[DeviceRow], devices: &[Device], dev: DevId, question: Question) -> bool
    ensures { result ≡ is_so rows.now devices.now dev question }
{
    match question {
        Question::Suspended => {
            is_suspended_status(status_at(devices, dev)) && depth_at(devices, dev) == 0
        }
        Question::StatusSuspended => is_suspended_status(status_at(devices, dev)),
        Question::Active => {
            is_active_status(status_at(devices, dev)) || depth_at(devices, dev) != 0
        }
        Question::Enabled => depth_at(devices, dev) == 0,
        Question::StillActive => is_active_status(status_at(devices, dev)),
        Question::NeedsResume => needs_resume(rows, devices, dev),
    }
}

// What answers a call that returned a code: the code, or what its step asks.
fn answer_of(asks: Option<Asked>, rows: &[DeviceRow], devices: &[Device], code: i32) -> i32
    ensures { result ≡ answer_of asks rows.now devices.now code }
{
    match asks {
        Some(asked) => {
            if is_so(rows, devices, asked.dev, asked.question) {
                1
            } else {
                0
            }
        }
        None => code,
    }
}

fn holds(test: CodeTest, code: i32) -> bool
    ensures { result ≡ holds (test_of test) code }
{
    match test {
        CodeTest::Negative => code < 0,
        CodeTest::Nonzero => code != 0,
        CodeTest::Is { code: own } => i64::from(code) == own,
    }
}

// One place, or those that are for every other answer.
fn goes_by(
    alloc: Global,
    exits: &[PlaceExit],
    otherwise: &[u32],
    code: i32,
) -> Result<Vec<u32>, AllocError>
    ensures { IfOk result (λ v. v.items ≡ first_of (rows_of code (map exit_of exits.now)) otherwise.now) }
{
    let mut out = Vec::new(alloc);
    let [exit, rest @ ..] = exits else {
        out.extend_from_slice(otherwise)?;
        return Ok(out);
    };
    if holds(exit.test, code) {
        out.push(exit.to)?;
        return Ok(out);
    }
    goes_by(alloc, rest, otherwise, code)
}

/// Where a program may go on from a place whose call returned a code, by what the devices were as it did.
pub fn goes_on(
    alloc: Global,
    plan: &Plan,
    place: &ProgramPlace,
    devices: &[Device],
    code: i32,
) -> Result<Vec<u32>, AllocError>
    ensures { IfOk result (λ out. (v : Views) → v.devices ≡ devices.now → out.items ≡ goes_on_at (ways_of plan.now place.now) v code) }
{
    let answer = answer_of(place.asks, plan.devices.as_slice(), devices, code);
    goes_by(
        alloc,
        place.exits.as_slice(),
        place.otherwise.as_slice(),
        answer,
    )
}
