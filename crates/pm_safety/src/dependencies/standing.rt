//! Which bonds of a device are off, by the counters.

ghost use Rattle.std.specs.Prelude.{◌≡◌, ◌<◌, length, not};
ghost use Rattle.std.specs.List.{list_all};
ghost use Rattle.pm_safety.specs.dependencies.Bonds.{off_domain, off_link, off_parent};
ghost use Rattle.pm_device.specs.Parts.{IsFor};
ghost use Rattle.pm_model.specs.PlanRows.{domains_of};
ghost use Rattle.pm_model.specs.Views.{is_on};

use pm_base::{DevId, DomId};
use pm_device::{Parts, domain, parent};
use pm_model::{LinkRow, Plan};

// Whether a domain of a device is off.
fn is_unpowered(parts: &Parts, plan: &Plan, dev: DevId) -> bool
    requires made_for { IsFor plan.now parts.now.shape }
    ensures { result ≡ not (list_all (is_on parts.now.views) (domains_of plan.now dev)) }
{
    parts.up_count(plan, dev) != 0
}

/// The domain of a device, where the device is Active and this domain, or one above it, is off.
pub fn off_domain(parts: &Parts, plan: &Plan, dev: DevId) -> Option<DomId>
    requires made_for { IsFor plan.now parts.now.shape }
    requires in_range { dev.0 < length plan.now.devices }
    ensures { result ≡ off_domain plan.now parts.now.views dev }
{
    match domain(plan, dev) {
        Some(home) if parts.is_active(dev) && is_unpowered(parts, plan, dev) => Some(home),
        _ => None,
    }
}

/// The parent of a device, where the device is Active, and the parent isn't and doesn't ignore its children
/// (`runtime_pm.rst`, section 2).
pub fn off_parent(parts: &Parts, plan: &Plan, dev: DevId) -> Option<DevId>
    requires made_for { IsFor plan.now parts.now.shape }
    requires in_range { dev.0 < length plan.now.devices }
    ensures { result ≡ off_parent plan.now parts.now.views dev }
{
    match parent(plan, dev) {
        Some(parent)
            if parts.is_active(dev) && !parts.is_active(parent) && !parts.device(parent).ignores =>
            Some(parent),
        _ => None,
    }
}

/// A link by its place in the plan, where it has `DL_FLAG_PM_RUNTIME` and is present, its consumer is Active, and
/// its supplier isn't (`device_link.rst`).
pub fn off_link(parts: &Parts, plan: &Plan, link: usize) -> Option<LinkRow>
    requires made_for { IsFor plan.now parts.now.shape }
    requires in_range { link < length plan.now.links }
    requires present_len { length parts.now.views.present ≡ length plan.now.links }
    ensures { result ≡ off_link plan.now parts.now.views link }
{
    let row = plan.links.as_slice()[link];
    if row.pm_runtime
        && parts.has(link)
        && parts.is_active(row.consumer)
        && !parts.is_active(row.supplier)
    {
        Some(row)
    } else {
        None
    }
}
