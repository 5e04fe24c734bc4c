//! Which power domains are left on.

ghost use Rattle.std.specs.Prelude.{◌≡◌, ◌<◌, ◌++◌, IfOk, OnOk, length, nat_eq};
ghost use Rattle.std.specs.List.{list_any};
ghost use Rattle.std.specs.Option.{option_to_list};
ghost use Rattle.pm_safety.specs.dependencies.Domains.{domain_left, domains_left, is_active_within, is_left_on, is_powered, is_within, keeper, keeps_on, places};
ghost use Rattle.pm_device.specs.Parts.{IsFor};
ghost use Rattle.pm_domain.specs.Domains.{fresh_on};
ghost use Rattle.pm_model.specs.PlanRows.{chain, domain_parent, is_kept_on};

use pm_base::{DevId, DomId, NoMemory};
use pm_device::{Parts, domain};
use pm_domain::Domains;
use pm_model::{DomainRow, Plan};
use std::alloc::Global;

/// A power domain that is on though no device of it is Active, and the first of its devices, in the plan's order,
/// that keeps it on since it is disabled (this project's own).
#[derive(Clone, Copy, PartialEq, Eq)]
pub struct DomainOn {
    pub domain: DomId,
    pub keeper: Option<DevId>,
}

// The domain above a domain.
fn above(rows: &[DomainRow], lower: DomId) -> Option<DomId>
    ensures { result ≡ domain_parent rows.now lower }
{
    match rows.get(lower.0 as usize) {
        Some(row) => row.parent,
        None => None,
    }
}

// Whether a domain is among this one and those above it.
fn is_among(rows: &[DomainRow], lowest: Option<DomId>, wanted: DomId) -> bool
    ensures { result ≡ list_any (nat_eq wanted.0) (chain rows.now (length rows.now) lowest) }
{
    let mut next = lowest;
    for _step in 0..rows.len() {
        let Some(lower) = next else {
            return false;
        };
        if wanted.0 == lower.0 {
            return true;
        }
        next = above(rows, lower);
    }
    false
}

// Whether a device is in a domain, or in one under it.
#[tactic(auto, unfolding(pm_model::specs::PlanRows::domains_of))]
fn is_within(plan: &Plan, wanted: DomId, dev: DevId) -> bool
    requires { dev.0 < length plan.now.devices }
    ensures { result ≡ is_within plan.now wanted.0 dev }
{
    is_among(plan.domains.as_slice(), domain(plan, dev), wanted)
}

// Whether the domain of a device is on.
fn is_powered(parts: &Parts, plan: &Plan, dev: DevId) -> bool
    requires { dev.0 < length plan.now.devices }
    ensures { result ≡ is_powered plan.now parts.now.views dev }
{
    match domain(plan, dev) {
        Some(home) => parts.is_on(home.0),
        None => false,
    }
}

// Whether a device of a domain keeps it on.
fn keeps_on(parts: &Parts, plan: &Plan, wanted: DomId, dev: DevId) -> bool
    requires made_for { IsFor plan.now parts.now.shape }
    requires in_range { dev.0 < length plan.now.devices }
    ensures { result ≡ keeps_on plan.now parts.now.views wanted.0 dev.0 }
{
    parts.is_disabled(dev) && is_powered(parts, plan, dev) && is_within(plan, wanted, dev)
}

// The first device that keeps a domain on.
fn keeper(parts: &Parts, plan: &Plan, wanted: DomId) -> Option<DevId>
    requires { IsFor plan.now parts.now.shape }
    ensures { result ≡ keeper plan.now parts.now.views wanted.0 }
{
    for place in 0..plan.devices.len() {
        let dev = DevId(place as u32);
        if keeps_on(parts, plan, wanted, dev) {
            return Some(dev);
        }
    }
    None
}

// Whether a device of a domain is Active.
fn is_active_within(parts: &Parts, plan: &Plan, wanted: DomId, dev: DevId) -> bool
    requires made_for { IsFor plan.now parts.now.shape }
    requires in_range { dev.0 < length plan.now.devices }
    ensures { result ≡ is_active_within plan.now parts.now.views wanted.0 dev.0 }
{
    parts.is_active(dev) && is_within(plan, wanted, dev)
}

// Whether some device of a domain is Active.
fn has_active(parts: &Parts, plan: &Plan, wanted: DomId) -> bool
    requires { IsFor plan.now parts.now.shape }
    ensures { result ≡ list_any (is_active_within plan.now parts.now.views wanted.0) (places plan.now) }
{
    for place in 0..plan.devices.len() {
        if is_active_within(parts, plan, wanted, DevId(place as u32)) {
            return true;
        }
    }
    false
}

// Whether a domain is kept on for good, where these are on before any line.
fn is_kept_on(plan: &Plan, fresh: &Domains, wanted: DomId) -> bool
    requires fresh { fresh.now.on ≡ fresh_on plan.now }
    requires in_range { wanted.0 < length plan.now.domains }
    ensures { result ≡ is_kept_on plan.now.domains wanted.0 }
{
    let _plan = plan;
    fresh.is_on(wanted)
}

// Whether a domain is left on, where these are on before any line.
fn is_left_on(parts: &Parts, plan: &Plan, fresh: &Domains, wanted: DomId) -> bool
    requires made_for { IsFor plan.now parts.now.shape }
    requires fresh { fresh.now.on ≡ fresh_on plan.now }
    requires in_range { wanted.0 < length plan.now.domains }
    ensures { result ≡ is_left_on plan.now parts.now.views wanted.0 }
{
    parts.is_on(wanted.0) && !is_kept_on(plan, fresh, wanted) && !has_active(parts, plan, wanted)
}

// A domain, if it is left on.
fn domain_left(parts: &Parts, plan: &Plan, fresh: &Domains, wanted: DomId) -> Option<DomainOn>
    requires made_for { IsFor plan.now parts.now.shape }
    requires fresh { fresh.now.on ≡ fresh_on plan.now }
    requires in_range { wanted.0 < length plan.now.domains }
    ensures { result ≡ domain_left plan.now parts.now.views wanted.0 }
{
    if is_left_on(parts, plan, fresh, wanted) {
        Some(DomainOn {
            domain: wanted,
            keeper: keeper(parts, plan, wanted),
        })
    } else {
        None
    }
}

// Appends a domain, if it is left on.
fn push(all: &mut Vec<DomainOn>, left: Option<DomainOn>) -> Result<(), NoMemory>
    ensures { OnOk result (all.new.items ≡ all.old.items ++ option_to_list left) }
{
    if let Some(left) = left {
        all.push(left)?;
    }
    Ok(())
}

/// The domains that are left on, in the order of the plan. Of each domain that is on it looks at all devices. Fails
/// where memory runs out.
pub fn domains_left(alloc: Global, parts: &Parts, plan: &Plan) -> Result<Vec<DomainOn>, NoMemory>
    requires { IsFor plan.now parts.now.shape }
    ensures { IfOk result (λ all. all.items ≡ domains_left plan.now parts.now.views) }
{
    let mut all = Vec::new(alloc);
    let fresh = Domains::fresh(alloc, plan)?;
    for place in 0..plan.domains.len() {
        push(
            &mut all,
            domain_left(parts, plan, &fresh, DomId(place as u32)),
        )?;
    }
    Ok(all)
}
