//! How a finished run leaves the devices.

ghost use Rattle.std.specs.Prelude.{◌≡◌};
ghost use Rattle.pm_model.specs.Views.{device, fresh_device};
ghost use Rattle.pm_explore.specs.state.SnapshotOf.{views_of};
ghost use Rattle.pm_outcomes.specs.observe.Shows.{end_of};

use crate::list::Left;
use pm_base::{DevId, Status};
use pm_explore::state::Snapshot;
use pm_model::Device;

// A device before any line.
fn fresh_device() -> Device
    ensures { result ≡ fresh_device }
{
    Device {
        status: Status::Suspended,
        error: 0,
        depth: 1,
        last_active: false,
        usage: 0,
        share: 0,
        auto_on: true,
        last_busy: 0,
        use_auto: false,
        delay: 0,
        idle_running: false,
        ignores: false,
        begun_idle: 0,
        begun_suspend: 0,
        begun_resume: 0,
    }
}

/// What a snapshot has of a device.
pub fn device_at(snapshot: &Snapshot, at: DevId) -> Device
    ensures { result ≡ device (views_of snapshot.now) at }
{
    snapshot
        .devices
        .as_slice()
        .get(at.0 as usize)
        .copied()
        .unwrap_or(fresh_device())
}

/// How a snapshot has a device.
pub fn end_of(snapshot: &Snapshot, device: DevId) -> Left
    ensures { result ≡ end_of (views_of snapshot.now) device }
{
    let view = device_at(snapshot, device);
    Left {
        device,
        status: view.status,
        usage: view.usage,
        error: view.error,
    }
}
