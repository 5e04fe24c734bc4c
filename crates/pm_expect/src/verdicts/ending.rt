//! Whether ends hold.

ghost use Rattle.std.specs.Prelude.{◌≡◌, ◌<◌, All, IfOk, length, map};
ghost use Rattle.pm_device.specs.Parts.{IsFor};
ghost use Rattle.pm_expect.specs.verdicts.Verdicts.{end_by, is_as_left, is_left, judged, left_so};

use crate::verdicts::verdict::{Judged, Leaves, Verdict};
use crate::{End, Left};
use pm_base::{NoMemory, Status};
use pm_device::Parts;
use pm_model::{Device, Plan};
use std::alloc::Global;

/// Whether a status is the one that a device is to be left with.
fn is_left(left: Left, status: Status) -> bool
    ensures { result ≡ is_left left status }
{
    match left {
        Left::Suspended => matches!(status, Status::Suspended),
        Left::Active => matches!(status, Status::Active),
    }
}

/// Whether a device is left so.
fn is_as_left(end: &End, device: &Device) -> bool
    ensures { result ≡ is_as_left end.now device.now }
{
    let counted = match end.usage {
        Some(usage) => device.usage == usage,
        None => true,
    };
    is_left(end.left, device.status) && counted
}

/// What becomes of an end, after so many lines, the last of a finished run.
fn left_so(number: u32, end: &End, device: &Device) -> Verdict<Leaves>
    ensures { result ≡ left_so number end.now device.now }
{
    if is_as_left(end, device) {
        return Verdict::Holds;
    }
    Verdict::Fails {
        line: number,
        told: Leaves {
            status: device.status,
            usage: device.usage,
        },
    }
}

/// An end with what becomes of it.
fn judged_end(
    plan: &Plan,
    parts: &Parts,
    number: u32,
    finished: bool,
    end: &End,
) -> Judged<End, Leaves>
    requires made_for { IsFor plan.now parts.now.shape }
    requires in_range { end.now.dev.0 < length plan.now.devices }
    ensures { result ≡ judged (end_by number finished parts.now.views) end.now }
{
    let _plan = plan;
    Judged {
        expected: *end,
        verdict: if finished {
            left_so(number, end, parts.device(end.dev))
        } else {
            Verdict::Open
        },
    }
}

/// What becomes of each end, by the counters after so many lines of a run that is finished or isn't. Fails where memory
/// runs out.
pub fn ends(
    alloc: Global,
    plan: &Plan,
    parts: &Parts,
    number: u32,
    finished: bool,
    expected: &[End],
) -> Result<Vec<Judged<End, Leaves>>, NoMemory>
    requires made_for { IsFor plan.now parts.now.shape }
    requires of_plan { All (λ e. e.dev.0 < length plan.now.devices) expected.now }
    ensures { IfOk result (λ v. v.items ≡ map (judged (end_by number finished parts.now.views)) expected.now) }
{
    let mut verdicts = Vec::with_capacity(alloc, expected.len())?;
    for end in expected {
        verdicts.push(judged_end(plan, parts, number, finished, end))?;
    }
    Ok(verdicts)
}
