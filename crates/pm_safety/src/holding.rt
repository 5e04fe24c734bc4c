//! How a device stands with its domains, its parent and its suppliers.

ghost use Rattle.std.specs.Prelude.{◌≡◌, ◌<◌, ◌&&◌, length, nat_eq};
ghost use Rattle.std.specs.List.{enumerate_from, list_all, list_any};
ghost use Rattle.pm_device.specs.Parts.{IsFor};
ghost use Rattle.pm_link.specs.Links.{row_at};
ghost use Rattle.pm_model.specs.History.{History};
ghost use Rattle.pm_model.specs.Promises.{domain_bonds, parent_bonds, supplier_bonds};
ghost use Rattle.pm_model.specs.World.{world};
ghost use Rattle.pm_safety.specs.Inspected.{bond_of, has_active, is_bond};

use crate::answers::{Bond, answer};
use pm_base::DevId;
use pm_device::{Parts, has_domain, parent};
use pm_model::{LinkRow, Plan};

/// How a device that is live or not stands with its domain and those above it.
pub fn domain_bond(parts: &Parts, plan: &Plan, dev: DevId, live: bool) -> Bond
    requires made_for { IsFor plan.now parts.now.shape }
    requires in_range { dev.0 < length plan.now.devices }
    ensures { (h : History) → parts.now.views ≡ (world plan.now h).views → result ≡ bond_of live (domain_bonds plan.now h dev) }
{
    answer(live, has_domain(plan, dev), parts.up_count(plan, dev) == 0)
}

/// How it stands with its parent.
pub fn parent_bond(parts: &Parts, plan: &Plan, dev: DevId, live: bool) -> Bond
    requires made_for { IsFor plan.now parts.now.shape }
    requires in_range { dev.0 < length plan.now.devices }
    ensures { (h : History) → parts.now.views ≡ (world plan.now h).views → result ≡ bond_of live (parent_bonds plan.now h dev) }
{
    match parent(plan, dev) {
        Some(parent) => answer(live, true, parts.is_active(parent)),
        None => Bond::Nothing,
    }
}

// A link by its place.
fn link_at(plan: &Plan, link: usize) -> &LinkRow
    requires { link < length plan.now.links }
    ensures row { result.now ≡ row_at plan.now.links link }
    ensures supplier { (row_at plan.now.links link).supplier.0 < length plan.now.devices }
{
    &plan.links.as_slice()[link]
}

// Whether a link is one of the consumer's that has `DL_FLAG_PM_RUNTIME`.
fn is_runtime(row: &LinkRow, dev: DevId) -> bool
    ensures { result ≡ (nat_eq row.now.consumer.0 dev.0 && row.now.pm_runtime) }
{
    row.consumer.0 == dev.0 && row.pm_runtime
}

// Whether a link, by its place, is such a one and present.
fn is_bond(parts: &Parts, plan: &Plan, dev: DevId, link: usize) -> bool
    requires made_for { IsFor plan.now parts.now.shape }
    requires in_range { link < length plan.now.links }
    requires present_len { length parts.now.views.present ≡ length plan.now.links }
    ensures { result ≡ is_bond parts.now.views dev (link, row_at plan.now.links link) }
{
    let row = link_at(plan, link);
    is_runtime(row, dev) && parts.is_present(plan, row.consumer, row.supplier)
}

// Whether the supplier of such a link is Active.
fn has_active(parts: &Parts, plan: &Plan, dev: DevId, link: usize) -> bool
    requires made_for { IsFor plan.now parts.now.shape }
    requires in_range { link < length plan.now.links }
    requires present_len { length parts.now.views.present ≡ length plan.now.links }
    ensures { result ≡ has_active parts.now.views dev (link, row_at plan.now.links link) }
{
    !is_bond(parts, plan, dev, link) || parts.is_active(link_at(plan, link).supplier)
}

// Whether a device has such a link.
fn has_supplier(parts: &Parts, plan: &Plan, dev: DevId) -> bool
    requires made_for { IsFor plan.now parts.now.shape }
    requires present_len { length parts.now.views.present ≡ length plan.now.links }
    ensures { result ≡ list_any (is_bond parts.now.views dev) (enumerate_from 0 plan.now.links) }
{
    for link in 0..plan.links.as_slice().len() {
        if is_bond(parts, plan, dev, link) {
            return true;
        }
    }
    false
}

// Whether the supplier of each such link is Active.
fn suppliers_are_active(parts: &Parts, plan: &Plan, dev: DevId) -> bool
    requires made_for { IsFor plan.now parts.now.shape }
    requires present_len { length parts.now.views.present ≡ length plan.now.links }
    ensures { result ≡ list_all (has_active parts.now.views dev) (enumerate_from 0 plan.now.links) }
{
    for link in 0..plan.links.as_slice().len() {
        if !has_active(parts, plan, dev, link) {
            return false;
        }
    }
    true
}

/// How it stands with its suppliers. It looks at all links of the plan.
pub fn supplier_bond(parts: &Parts, plan: &Plan, dev: DevId, live: bool) -> Bond
    requires made_for { IsFor plan.now parts.now.shape }
    requires present_len { length parts.now.views.present ≡ length plan.now.links }
    ensures { (h : History) → parts.now.views ≡ (world plan.now h).views → result ≡ bond_of live (supplier_bonds plan.now h dev) }
{
    let some = has_supplier(parts, plan, dev);
    answer(live, some, suppliers_are_active(parts, plan, dev))
}
