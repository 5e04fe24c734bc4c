//! What is told of bonds that are off.

ghost use Rattle.std.specs.Prelude.{◌≡◌, ◌<◌, ◌++◌, All, IfOk, OnOk, length};
ghost use Rattle.std.specs.Option.{option_to_list};
ghost use Rattle.pm_safety.specs.dependencies.Kept.{excuses_by};
ghost use Rattle.pm_safety.specs.dependencies.Told.{broken_near, domain_bond, parent_bond, parent_bonds, supplier_bond, supplier_bonds};
ghost use Rattle.pm_device.specs.Parts.{IsFor};
ghost use Rattle.pm_model.specs.Derived.{is_active};
ghost use Rattle.pm_model.specs.Views.{device};

use crate::dependencies::Bond;
use crate::dependencies::past::{Before, Past, parent_excuse, past_at, supplier_excuse};
use crate::dependencies::standing::{off_domain, off_link, off_parent};
use pm_base::{DevId, NoMemory};
use pm_device::Parts;
use pm_model::Plan;
use std::alloc::Global;

// What is told of a device with its domain.
fn domain_bond(parts: &Parts, plan: &Plan, dev: DevId) -> Option<Bond>
    requires made_for { IsFor plan.now parts.now.shape }
    requires in_range { dev.0 < length plan.now.devices }
    ensures { result ≡ domain_bond plan.now parts.now.views dev }
{
    match off_domain(parts, plan, dev) {
        Some(domain) => Some(Bond::Domain { dev, domain }),
        None => None,
    }
}

// What is told of a device with its parent.
fn parent_bond(parts: &Parts, plan: &Plan, pasts: &[Past], dev: DevId) -> Option<Bond>
    requires made_for { IsFor plan.now parts.now.shape }
    requires in_range { dev.0 < length plan.now.devices }
    ensures { result ≡ parent_bond plan.now parts.now.views (excuses_by pasts.now).parent dev }
{
    match off_parent(parts, plan, dev) {
        Some(parent) => Some(Bond::Parent {
            dev,
            parent,
            excuse: parent_excuse(past_at(pasts, dev), past_at(pasts, parent)),
        }),
        None => None,
    }
}

// What is told of a link.
fn supplier_bond(parts: &Parts, plan: &Plan, pasts: &[Past], link: usize) -> Option<Bond>
    requires made_for { IsFor plan.now parts.now.shape }
    requires in_range { link < length plan.now.links }
    requires present_len { length parts.now.views.present ≡ length plan.now.links }
    ensures { result ≡ supplier_bond plan.now parts.now.views (excuses_by pasts.now).supplier link }
{
    match off_link(parts, plan, link) {
        Some(row) => Some(Bond::Supplier {
            dev: row.consumer,
            supplier: row.supplier,
            excuse: supplier_excuse(past_at(pasts, row.consumer), past_at(pasts, row.supplier)),
        }),
        None => None,
    }
}

// Appends what is told, if anything is.
fn push(bonds: &mut Vec<Bond>, bond: Option<Bond>) -> Result<(), NoMemory>
    ensures { OnOk result (bonds.new.items ≡ bonds.old.items ++ option_to_list bond) }
{
    if let Some(bond) = bond {
        bonds.push(bond)?;
    }
    Ok(())
}

// Appends what is told of these devices with their parents.
fn push_parents(
    bonds: &mut Vec<Bond>,
    parts: &Parts,
    plan: &Plan,
    pasts: &[Past],
    devices: &[usize],
) -> Result<(), NoMemory>
    requires made_for { IsFor plan.now parts.now.shape }
    requires in_range { All (λ c. c < length plan.now.devices) devices.now }
    ensures { OnOk result (bonds.new.items ≡ bonds.old.items ++ parent_bonds plan.now parts.now.views (excuses_by pasts.now).parent devices.now) }
{
    for place in 0..devices.len() {
        let dev = DevId(devices[place] as u32);
        push(bonds, parent_bond(parts, plan, pasts, dev))?;
    }
    Ok(())
}

// Appends what is told of these links.
fn push_suppliers(
    bonds: &mut Vec<Bond>,
    parts: &Parts,
    plan: &Plan,
    pasts: &[Past],
    links: &[usize],
) -> Result<(), NoMemory>
    requires made_for { IsFor plan.now parts.now.shape }
    requires in_range { All (λ l. l < length plan.now.links) links.now }
    requires present_len { length parts.now.views.present ≡ length plan.now.links }
    ensures { OnOk result (bonds.new.items ≡ bonds.old.items ++ supplier_bonds plan.now parts.now.views (excuses_by pasts.now).supplier links.now) }
{
    for place in 0..links.len() {
        push(bonds, supplier_bond(parts, plan, pasts, links[place]))?;
    }
    Ok(())
}

// What is told of a device with its domain, its parent and its suppliers.
fn own_bonds(
    alloc: Global,
    parts: &Parts,
    plan: &Plan,
    pasts: &[Past],
    dev: DevId,
    from: &[usize],
) -> Result<Vec<Bond>, NoMemory>
    requires made_for { IsFor plan.now parts.now.shape }
    requires in_range { dev.0 < length plan.now.devices }
    requires from { All (λ l. l < length plan.now.links) from.now }
    requires present_len { length parts.now.views.present ≡ length plan.now.links }
    ensures { IfOk result (λ bonds. bonds.items ≡ option_to_list (domain_bond plan.now parts.now.views dev) ++ option_to_list (parent_bond plan.now parts.now.views (excuses_by pasts.now).parent dev) ++ supplier_bonds plan.now parts.now.views (excuses_by pasts.now).supplier from.now) }
{
    let mut bonds = Vec::new(alloc);
    push(&mut bonds, domain_bond(parts, plan, dev))?;
    push(&mut bonds, parent_bond(parts, plan, pasts, dev))?;
    push_suppliers(&mut bonds, parts, plan, pasts, from)?;
    Ok(bonds)
}

/// The bonds that a line has broken which turned a device with these children, links as a consumer and links as a
/// supplier: how it stood before the line, and the counters after it.
/// It looks at the device, its children and its links. Fails where memory runs out.
pub fn broken_near(
    alloc: Global,
    parts: &Parts,
    plan: &Plan,
    pasts: &[Past],
    dev: DevId,
    children: &[usize],
    from: &[usize],
    to: &[usize],
    before: Before,
) -> Result<Vec<Bond>, NoMemory>
    requires made_for { IsFor plan.now parts.now.shape }
    requires in_range { dev.0 < length plan.now.devices }
    requires children { All (λ c. c < length plan.now.devices) children.now }
    requires from { All (λ l. l < length plan.now.links) from.now }
    requires to { All (λ l. l < length plan.now.links) to.now }
    requires present_len { length parts.now.views.present ≡ length plan.now.links }
    ensures { IfOk result (λ bonds. bonds.items ≡ broken_near plan.now parts.now.views (excuses_by pasts.now) dev children.now from.now to.now before.active before.ignores (is_active parts.now.views dev) (device parts.now.views dev).ignores) }
{
    if parts.is_active(dev) {
        return if before.active {
            Ok(Vec::new(alloc))
        } else {
            own_bonds(alloc, parts, plan, pasts, dev, from)
        };
    }
    let mut bonds = Vec::new(alloc);
    if before.active {
        push_parents(&mut bonds, parts, plan, pasts, children)?;
        push_suppliers(&mut bonds, parts, plan, pasts, to)?;
    } else if before.ignores && !parts.device(dev).ignores {
        push_parents(&mut bonds, parts, plan, pasts, children)?;
    }
    Ok(bonds)
}
