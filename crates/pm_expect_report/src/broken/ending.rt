//! Whether a snapshot breaks an end.

ghost use Rattle.std.specs.Prelude.{◌≡◌};
ghost use Rattle.pm_expect_report.specs.broken.Breaches.{left_otherwise, other_end};
ghost use Rattle.pm_expect.specs.verdicts.Verdicts.{is_as_left, is_left};
ghost use Rattle.pm_explore.specs.state.SnapshotOf.{snapshot_of};

use pm_base::Status;
use pm_expect::verdicts::Leaves;
use pm_expect::{End, Left};
use pm_explore::state::Snapshot;
use pm_model::{Device, Plan};
use pm_outcomes::observe::{device_at, is_finished};

// Whether a status is the one that a device is to be left with.
fn is_left(left: Left, status: Status) -> bool
    ensures { result ≡ is_left left status }
{
    match left {
        Left::Suspended => matches!(status, Status::Suspended),
        Left::Active => matches!(status, Status::Active),
    }
}

// Whether a device is left so.
fn is_as_left(end: &End, device: &Device) -> bool
    ensures { result ≡ is_as_left end.now device.now }
{
    let counted = match end.usage {
        Some(usage) => device.usage == usage,
        None => true,
    };
    is_left(end.left, device.status) && counted
}

// How a device is left, where that is otherwise.
fn left_otherwise(end: &End, device: &Device) -> Option<Leaves>
    ensures { result ≡ left_otherwise end.now device.now }
{
    if is_as_left(end, device) {
        return None;
    }
    Some(Leaves {
        status: device.status,
        usage: device.usage,
    })
}

/// How a finished run that stands at a snapshot leaves a device, where that is otherwise than expected.
pub fn other_end(plan: &Plan, end: &End, snapshot: &Snapshot) -> Option<Leaves>
    ensures { result ≡ other_end plan.now end.now (snapshot_of snapshot.now) }
{
    if is_finished(plan, snapshot) {
        left_otherwise(end, &device_at(snapshot, end.dev))
    } else {
        None
    }
}
