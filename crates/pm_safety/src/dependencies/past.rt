//! What excuses a device from its parent and from its suppliers.

ghost use Rattle.std.specs.Prelude.{◌≡◌, ◌<◌, length, nat_le};
ghost use Rattle.pm_safety.specs.dependencies.Past.{before_of, past_after, past_at, parent_excuse_by, supplier_excuse_by};
ghost use Rattle.pm_device.specs.Parts.{IsFor};
ghost use Rattle.pm_model.specs.Excuse.{forces, is_entry};

use crate::dependencies::Excuse;
use pm_base::DevId;
use pm_device::{Parts, no_callbacks, parent_of};
use pm_model::{Event, Plan, Word};

/// What the lines so far tell of a device that may be an excuse. Lines are counted from 1.
#[derive(Clone, Copy, PartialEq, Eq)]
pub struct Past {
    /// The last line that forced its status, or 0.
    pub forced: u32,
    /// The last line at which it left Suspended, or 0.
    pub woke: u32,
    /// Whether its parent was disabled when it last began to resume, or was forced to Active.
    pub disabled: bool,
}

/// Of a device of which no line has told yet.
pub const NO_PAST: Past = Past {
    forced: 0,
    woke: 0,
    disabled: false,
};

/// How a device stands before a line of this event, which may turn it.
#[derive(Clone, Copy, PartialEq, Eq)]
pub struct Before {
    pub active: bool,
    pub suspended: bool,
    /// Whether it ignores its children.
    pub ignores: bool,
    /// Whether it begins to resume with the line, or becomes Active at once.
    pub enters: bool,
    /// Whether its parent is disabled.
    pub disabled: bool,
}

// Whether an event forces the status of a device.
fn forces(dev: DevId, event: &Event) -> bool
    ensures { result ≡ forces dev event.now }
{
    match *event {
        Event::State {
            dev: of,
            word: Word::ForcedActive | Word::ForcedSuspended,
        } => of.0 == dev.0,
        _ => false,
    }
}

// Whether a device begins to resume with a line of this event, or becomes Active at once.
fn enters(parts: &Parts, plan: &Plan, dev: DevId, event: &Event) -> bool
    requires made_for { IsFor plan.now parts.now.shape }
    requires in_range { dev.0 < length plan.now.devices }
    ensures { result ≡ is_entry plan.now parts.now.views dev event.now }
{
    let Event::State { dev: of, word } = *event else {
        return false;
    };
    of.0 == dev.0
        && match word {
            Word::Resuming => true,
            Word::Active => no_callbacks(plan, dev),
            Word::ForcedActive => !parts.is_active(dev),
            Word::Suspended | Word::Deferred | Word::ForcedSuspended => false,
        }
}

/// How a device stands before a line of this event.
pub fn before_line(parts: &Parts, plan: &Plan, dev: DevId, event: &Event) -> Before
    requires made_for { IsFor plan.now parts.now.shape }
    requires in_range { dev.0 < length plan.now.devices }
    ensures { result ≡ before_of plan.now parts.now.views dev event.now }
{
    Before {
        active: parts.is_active(dev),
        suspended: parts.is_suspended(dev),
        ignores: parts.device(dev).ignores,
        enters: enters(parts, plan, dev, event),
        disabled: parts.is_disabled(parent_of(plan, dev)),
    }
}

/// What is told of a device after a line of this number and event, where it stood so before it and is Suspended
/// after it or isn't.
pub fn after_line(
    past: Past,
    dev: DevId,
    number: u32,
    event: &Event,
    before: Before,
    suspended: bool,
) -> Past
    ensures { result ≡ past_after dev number event.now before suspended past }
{
    Past {
        forced: if forces(dev, event) {
            number
        } else {
            past.forced
        },
        woke: if before.suspended && !suspended {
            number
        } else {
            past.woke
        },
        disabled: if before.enters {
            before.disabled
        } else {
            past.disabled
        },
    }
}

// Whether the status of the other was forced since the device was last Suspended.
fn was_forced(own: Past, other: Past) -> bool
    ensures { result ≡ nat_le own.woke other.forced }
{
    own.woke <= other.forced
}

/// What the lines so far tell of a device.
pub fn past_at(pasts: &[Past], dev: DevId) -> Past
    ensures { result ≡ past_at pasts.now dev }
{
    match pasts.get(dev.0 as usize) {
        Some(past) => *past,
        None => NO_PAST,
    }
}

/// What excuses a device from its parent.
pub fn parent_excuse(own: Past, parent: Past) -> Excuse
    ensures { result ≡ parent_excuse_by own parent }
{
    if was_forced(own, parent) {
        Excuse::Forced {
            line: parent.forced,
        }
    } else if own.disabled {
        Excuse::Disabled
    } else {
        Excuse::Ignored
    }
}

/// What excuses a device from a supplier.
pub fn supplier_excuse(own: Past, supplier: Past) -> Excuse
    ensures { result ≡ supplier_excuse_by own supplier }
{
    if was_forced(own, supplier) {
        Excuse::Forced {
            line: supplier.forced,
        }
    } else {
        Excuse::Disabled
    }
}
