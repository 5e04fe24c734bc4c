//! What is seen of a device between two lines, and what is otherwise behind a line.

ghost use Rattle.std.specs.Prelude.{◌≡◌, ◌++◌, ◌<◌, OnOk, length, nat_eq, not};
ghost use Rattle.pm_lanes.specs.declared.shown.Shown.TheVariants as shown;
ghost use Rattle.pm_lanes.specs.Pieces.{at_line, is_bit, is_moment, is_status, seen, turned};
ghost use Rattle.pm_model.specs.Counted.{only_if};

use crate::pushing::push;
use crate::shown::{Piece, Shown};
use pm_base::{DevId, NoMemory, Status};
use pm_device::Parts;

/// What is seen of a device between two lines (`runtime_pm.rst`, section 3).
#[derive(Clone, Copy, PartialEq, Eq)]
pub struct Seen {
    pub status: Status,
    /// The counts that are held on it.
    pub usage: u32,
    /// Whether its disable depth isn't 0.
    pub disabled: bool,
    /// Whether its work item is queued.
    pub queued: bool,
    /// For which moment its timer is armed, in milliseconds of the run.
    pub deadline: Option<u64>,
}

// For which moment the timer of a device is armed.
fn deadline_of(parts: &Parts, dev: DevId) -> Option<u64>
    requires { dev.0 < length parts.now.shape.parents }
    ensures { result ≡ (seen parts.now.views dev).deadline }
{
    match parts.timer(dev) {
        Some(armed) => Some(armed.deadline),
        None => None,
    }
}

/// What is seen of a device.
pub fn seen_of(parts: &Parts, dev: DevId) -> Seen
    requires { dev.0 < length parts.now.shape.parents }
    ensures { result ≡ seen parts.now.views dev }
{
    let device = parts.device(dev);
    Seen {
        status: device.status,
        usage: device.usage,
        disabled: device.depth != 0,
        queued: parts.pending(dev).queued,
        deadline: deadline_of(parts, dev),
    }
}

// Whether two statuses are the same.
fn is_status(one: Status, other: Status) -> bool
    ensures { result ≡ is_status one other }
{
    matches!(
        (one, other),
        (Status::Active, Status::Active)
            | (Status::Suspended, Status::Suspended)
            | (Status::Suspending, Status::Suspending)
            | (Status::Resuming, Status::Resuming)
    )
}

/// Whether two bits are the same.
pub fn is_bit(one: bool, other: bool) -> bool
    ensures { result ≡ is_bit one other }
{
    if one { other } else { !other }
}

// Whether two moments are the same, or both are none.
fn is_moment(one: Option<u64>, other: Option<u64>) -> bool
    ensures { result ≡ is_moment one other }
{
    match (one, other) {
        (Some(one), Some(other)) => one == other,
        (None, None) => true,
        _ => false,
    }
}

// A status that is another one.
fn status_turn(dev: DevId, before: &Seen, after: &Seen) -> Option<Shown>
    ensures { result ≡ only_if (not (is_status before.now.status after.now.status)) (shown.Stands dev after.now.status) }
{
    if is_status(before.status, after.status) {
        return None;
    }
    Some(Shown::Stands {
        dev,
        status: after.status,
    })
}

// A usage that is another one.
fn usage_turn(dev: DevId, before: &Seen, after: &Seen) -> Option<Shown>
    ensures { result ≡ only_if (not (nat_eq before.now.usage after.now.usage)) (shown.Used dev after.now.usage) }
{
    if before.usage == after.usage {
        return None;
    }
    Some(Shown::Used {
        dev,
        usage: after.usage,
    })
}

// A device that is disabled, or no more.
fn disabled_turn(dev: DevId, before: &Seen, after: &Seen) -> Option<Shown>
    ensures { result ≡ only_if (not (is_bit before.now.disabled after.now.disabled)) (shown.Disabled dev after.now.disabled) }
{
    if is_bit(before.disabled, after.disabled) {
        return None;
    }
    Some(Shown::Disabled {
        dev,
        disabled: after.disabled,
    })
}

// A work item that is queued, or no more.
fn queued_turn(dev: DevId, before: &Seen, after: &Seen) -> Option<Shown>
    ensures { result ≡ only_if (not (is_bit before.now.queued after.now.queued)) (shown.Queued dev after.now.queued) }
{
    if is_bit(before.queued, after.queued) {
        return None;
    }
    Some(Shown::Queued {
        dev,
        queued: after.queued,
    })
}

// A timer that is armed for another moment, or no more.
fn timer_turn(dev: DevId, before: &Seen, after: &Seen) -> Option<Shown>
    ensures { result ≡ only_if (not (is_moment before.now.deadline after.now.deadline)) (shown.Armed dev after.now.deadline) }
{
    if is_moment(before.deadline, after.deadline) {
        return None;
    }
    Some(Shown::Armed {
        dev,
        deadline: after.deadline,
    })
}

/// Appends what is otherwise of a device than it was.
#[tactic(auto, using(crate::proofs::PushLemmas::at_line_more))]
pub fn push_turned(
    pieces: &mut Vec<Piece>,
    number: u32,
    dev: DevId,
    before: &Seen,
    after: &Seen,
) -> Result<(), NoMemory>
    ensures { OnOk result (pieces.new.items ≡ pieces.old.items ++ at_line number (turned dev before.now after.now)) }
{
    push(pieces, number, status_turn(dev, before, after))?;
    push(pieces, number, usage_turn(dev, before, after))?;
    push(pieces, number, disabled_turn(dev, before, after))?;
    push(pieces, number, queued_turn(dev, before, after))?;
    push(pieces, number, timer_turn(dev, before, after))?;
    Ok(())
}
