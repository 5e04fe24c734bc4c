//! What is left on at the end of a run: devices.

ghost use Rattle.std.specs.Prelude.{◌≡◌, ◌<◌, ◌&&◌, not, IfOk, None, [], false, int_lt, is_some, length, option_map, pos, slice_get, slice_index_or};
ghost use Rattle.std.specs.List.{find, range_with_len};
ghost use Rattle.std.specs.Option.{option_map_or};
ghost use Rattle.pm_device.specs.Parts.{IsFor};
ghost use Rattle.pm_find.specs.findings.Ending.{AreDropped, active_child, awaits_suspend, drops_after, holder_of, holding_consumer, holding_device, holds_supplier, is_active_child, is_left_active, is_suspend_request, left_on, may_drop};
ghost use Rattle.pm_laws.specs.counts.Sizes.{HasEntries};
ghost use Rattle.pm_model.specs.Counted.{is_same};
ghost use Rattle.pm_model.specs.Derived.{is_disabled};
ghost use Rattle.pm_model.specs.PlanRows.{parent};
ghost use Rattle.pm_model.specs.Views.{device};

use crate::findings::Kind;
use crate::findings::watched::Watched;
use pm_base::{DevId, NoMemory, Req};
use pm_device::{Parts, parent};
use pm_model::Plan;
use std::alloc::Global;

/// What holds a device that is Active at the end and that no caller holds (this project's own).
#[derive(Clone, Copy, PartialEq, Eq)]
pub enum Holder {
    /// It is forbidden.
    Forbid,
    /// Its autosuspend delay is negative.
    Delay,
    /// A consumer, which hasn't given its supplier back.
    Consumer(DevId),
    /// A child that is Active.
    Child(DevId),
    /// Nothing does.
    Nobody,
}

// Whether a request asks for a suspend.
fn is_suspend_request(request: Req) -> bool
    ensures { result ≡ is_suspend_request request }
{
    matches!(request, Req::Suspend | Req::Autosuspend)
}

// Whether a suspend of a device that nobody uses is still to come.
fn awaits_suspend(parts: &Parts, dev: DevId) -> bool
    requires { dev.0 < length parts.now.shape.parents }
    ensures { result ≡ awaits_suspend parts.now.views dev }
{
    !parts.is_in_use(dev)
        && (parts.timer(dev).is_some() || is_suspend_request(parts.pending(dev).request))
}

/// For each device of the plan that no line has disabled yet. Fails where memory runs out.
pub fn no_drops(alloc: Global, plan: &Plan) -> Result<Vec<bool>, NoMemory>
    ensures { IfOk result (λ drops. AreDropped plan.now [] drops.items) }
{
    Ok(vec![in alloc; false; plan.devices.len()]?)
}

/// What a line that disables a device, where it stands so, drops.
pub fn may_drop(parts: &Parts, plan: &Plan, dev: DevId) -> Option<bool>
    requires { IsFor plan.now parts.now.shape }
    ensures { result ≡ may_drop (length plan.now.devices) parts.now.views dev }
{
    if (dev.0 as usize) < plan.devices.len() && !parts.is_disabled(dev) {
        Some(awaits_suspend(parts, dev))
    } else {
        None
    }
}

/// Notes what a line dropped, if it disabled the device.
pub fn note_drop(drops: &mut [bool], parts: &Parts, dev: DevId, may: Option<bool>)
    requires { length drops.old ≡ length parts.now.shape.parents }
    ensures { drops.new ≡ drops_after may (is_disabled parts.now.views dev) dev drops.old }
{
    let Some(awaits) = may else {
        return;
    };
    let place = dev.0 as usize;
    if place < drops.len() && parts.is_disabled(dev) {
        drops[place] = awaits;
    }
}

// Whether two devices are the same.
fn is_device(one: DevId, other: DevId) -> bool
    ensures { result ≡ is_same one other }
{
    other.0 == one.0
}

// Whether the link at a place holds this supplier.
fn holds_supplier(parts: &Parts, plan: &Plan, dev: DevId, link: usize) -> bool
    requires entries { HasEntries plan.now parts.now.views }
    ensures { result ≡ holds_supplier plan.now parts.now.views dev link }
{
    match plan.links.as_slice().get(link) {
        Some(row) => is_device(dev, row.supplier) && parts.holds(link),
        None => false,
    }
}

// The consumer of the link at a place.
fn consumer_at(plan: &Plan, link: usize) -> Option<DevId>
    ensures { result ≡ option_map (λ row. row.consumer) (slice_get plan.now.links link) }
{
    match plan.links.as_slice().get(link) {
        Some(row) => Some(row.consumer),
        None => None,
    }
}

// How many links the plan has.
fn link_count(plan: &Plan) -> usize
    ensures { result ≡ length plan.now.links }
{
    plan.links.as_slice().len()
}

// The first link that holds a supplier.
fn holding_link(parts: &Parts, plan: &Plan, dev: DevId) -> Option<usize>
    requires entries { HasEntries plan.now parts.now.views }
    ensures { result ≡ find (holds_supplier plan.now parts.now.views dev) (range_with_len 0 (length plan.now.links)) }
{
    for link in 0..link_count(plan) {
        if holds_supplier(parts, plan, dev, link) {
            return Some(link);
        }
    }
    None
}

// The first consumer that holds a supplier.
fn holding_consumer(parts: &Parts, plan: &Plan, dev: DevId) -> Option<DevId>
    requires entries { HasEntries plan.now parts.now.views }
    ensures { result ≡ holding_consumer plan.now parts.now.views dev }
{
    match holding_link(parts, plan, dev) {
        Some(link) => consumer_at(plan, link),
        None => None,
    }
}

// Whether a device is an Active child of another.
fn is_active_child(parts: &Parts, plan: &Plan, dev: DevId, child: DevId) -> bool
    requires made_for { IsFor plan.now parts.now.shape }
    requires in_range { child.0 < length plan.now.devices }
    ensures { result ≡ is_active_child plan.now parts.now.views dev child.0 }
{
    match parent(plan, child) {
        Some(parent) => is_device(dev, parent) && parts.is_active(child),
        None => false,
    }
}

// The first child that is Active.
fn first_child(parts: &Parts, plan: &Plan, dev: DevId) -> Option<DevId>
    requires made_for { IsFor plan.now parts.now.shape }
    ensures { result ≡ option_map (λ c. record { 0 = c }) (find (is_active_child plan.now parts.now.views dev) (range_with_len 0 (length plan.now.devices))) }
{
    for place in 0..plan.devices.len() {
        let child = DevId(place as u32);
        if is_active_child(parts, plan, dev, child) {
            return Some(child);
        }
    }
    None
}

// The same, of a device that doesn't ignore its children.
fn active_child(parts: &Parts, plan: &Plan, dev: DevId) -> Option<DevId>
    requires made_for { IsFor plan.now parts.now.shape }
    requires in_range { dev.0 < length plan.now.devices }
    ensures { result ≡ active_child plan.now parts.now.views dev }
{
    if parts.device(dev).ignores {
        None
    } else {
        first_child(parts, plan, dev)
    }
}

// Which consumer or child holds a device, if one does.
fn holding_device(parts: &Parts, plan: &Plan, dev: DevId) -> Holder
    requires made_for { IsFor plan.now parts.now.shape }
    requires entries { HasEntries plan.now parts.now.views }
    requires in_range { dev.0 < length plan.now.devices }
    ensures { result ≡ holding_device plan.now parts.now.views dev }
{
    if let Some(consumer) = holding_consumer(parts, plan, dev) {
        return Holder::Consumer(consumer);
    }
    match active_child(parts, plan, dev) {
        Some(child) => Holder::Child(child),
        None => Holder::Nobody,
    }
}

// What holds a device that no caller holds. It looks at all links and all devices.
fn holder_of(parts: &Parts, plan: &Plan, dev: DevId) -> Holder
    requires made_for { IsFor plan.now parts.now.shape }
    requires entries { HasEntries plan.now parts.now.views }
    requires in_range { dev.0 < length plan.now.devices }
    ensures { result ≡ holder_of plan.now parts.now.views dev }
{
    let device = parts.device(dev);
    if !device.auto_on {
        Holder::Forbid
    } else if device.use_auto && device.delay < 0 {
        Holder::Delay
    } else {
        holding_device(parts, plan, dev)
    }
}

// Whether a device is Active with no count of a caller, and enabled; or disabling it dropped a suspend.
fn is_left_active(parts: &Parts, row: &Watched, has_dropped: bool, dev: DevId) -> bool
    requires { dev.0 < length parts.now.shape.parents }
    ensures { result ≡ is_left_active parts.now.views row.now.counts has_dropped dev }
{
    parts.is_active(dev) && row.counts().is_empty() && (!parts.is_disabled(dev) || has_dropped)
}

/// A device that is left on, where the last line that disabled it dropped a suspend, or didn't.
pub fn left_on(
    parts: &Parts,
    plan: &Plan,
    row: &Watched,
    has_dropped: bool,
    dev: DevId,
) -> Option<Kind>
    requires made_for { IsFor plan.now parts.now.shape }
    requires entries { HasEntries plan.now parts.now.views }
    requires in_range { dev.0 < length plan.now.devices }
    ensures { result ≡ left_on plan.now parts.now.views row.now.counts has_dropped dev }
{
    if is_left_active(parts, row, has_dropped, dev) {
        Some(Kind::LeftOn {
            dev,
            by: holder_of(parts, plan, dev),
        })
    } else {
        None
    }
}
