//! How each device ends, at the right of its lane.

use crate::scene::run::Run;
use crate::scene::survey::{Glance, Survey};
use crate::svg::Style;
use indexmap::IndexMap;
use pm_base::{ActorId, DevId, NoMemory, Status};
use pm_find::findings::{Finding, Kind};
use pm_linetext::{push, push_actor, push_device, push_number};
use std::alloc::Global;

/// A count on a device that its caller never gives back: who took it, and in which line.
#[derive(Clone, Copy)]
pub struct Leaked {
    pub actor: ActorId,
    pub line: u32,
}

/// For each device that is left on, or on which a count is, the earliest count that no caller has given back, if there is one.
pub type LeftOn = IndexMap<DevId, Option<Leaked>>;

/// Which devices are left on. Fails where memory runs out.
pub fn left_on(alloc: Global, findings: &[Finding]) -> Result<LeftOn, NoMemory> {
    let mut left = IndexMap::new(alloc);
    for found in findings {
        match found.kind {
            Kind::Leak { actor, dev, .. } if !left.contains_key(&dev) => {
                let leaked = Leaked {
                    actor,
                    line: found.line,
                };
                left.insert(dev, Some(leaked))?;
            }
            Kind::LeftOn { dev, .. } => {
                left.insert(dev, None)?;
            }
            _ => {}
        }
    }
    Ok(left)
}

// The word of a status.
fn status_word(status: Status) -> &'static [u8] {
    match status {
        Status::Active => b"active",
        Status::Suspended => b"suspended",
        Status::Suspending => b"suspending",
        Status::Resuming => b"resuming",
    }
}

// Appends who holds a device.
fn push_holder(text: &mut Vec<u8>, run: &Run<'_>, count: Leaked) -> Result<(), NoMemory> {
    push(text, b", held by ")?;
    push_actor(text, run.plan, count.actor)?;
    push(text, b" since line ")?;
    push_number(text, u64::from(count.line))
}

// Appends what holds a device that no caller holds.
fn push_reason(text: &mut Vec<u8>, run: &Run<'_>, glance: &Glance) -> Result<(), NoMemory> {
    if glance.forbids {
        return push(text, b"forbid");
    }
    if glance.delays {
        return push(text, b"a negative delay");
    }
    match glance.consumer {
        Some(consumer) => {
            push(text, b"its consumer ")?;
            push_device(text, run.plan, consumer)
        }
        None => push(text, b"no caller"),
    }
}

// How a device looks that is left on, and what keeps it so.
fn push_left_on(
    text: &mut Vec<u8>,
    run: &Run<'_>,
    glance: &Glance,
    holder: Option<Leaked>,
) -> Result<Style, NoMemory> {
    if let Some(count) = holder {
        push_holder(text, run, count)?;
        return Ok(Style::LeftHeld);
    }
    if glance.usage > 0 {
        push(text, b", held by ")?;
        push_reason(text, run, glance)?;
        return Ok(Style::LeftOdd);
    }
    if glance.has_active_child {
        push(text, b", since a child is")?;
        return Ok(Style::Left);
    }
    push(text, b", nobody holds it")?;
    Ok(Style::LeftOdd)
}

/// Appends how a device ends, and answers how that looks.
pub fn push_end(
    text: &mut Vec<u8>,
    run: &Run<'_>,
    survey: &Survey,
    left: &LeftOn,
    dev: DevId,
) -> Result<Style, NoMemory> {
    let Some(glance) = survey.devices.get(dev.0 as usize) else {
        return Ok(Style::Left);
    };
    push(text, status_word(glance.status))?;
    if glance.usage > 0 {
        push(text, b", usage ")?;
        push_number(text, u64::from(glance.usage))?;
    }
    if glance.disabled {
        push(text, b", disabled")?;
    }
    match (glance.status, left.get(&dev).copied()) {
        (Status::Active, Some(holder)) => push_left_on(text, run, glance, holder),
        _ => Ok(Style::Left),
    }
}
