//! Parents and suppliers that aren't earlier, and devices without callbacks where none may be.

ghost use Rattle.std.specs.Prelude.{◌≡◌, ◌&&◌, false, is_some, nat_le};
ghost use Rattle.std.specs.Option.{option_map_or};
ghost use Rattle.pm_model.specs.IsPlan.{lacks_callbacks};
ghost use Rattle.pm_planread.specs.tree.Places.{first_fault};
ghost use Rattle.pm_planread.specs.rows.Orders.{device_later, domain_fault, domain_later, idle_consumer, idle_in_domain, later_fault, link_fault, link_later};

use crate::rows::name_faults::fault_if;
use crate::tree::{Place, Section};
use pm_base::{DevId, DomId};
use pm_model::{DeviceRow, DomainRow, LinkRow};

/// The first parent that isn't earlier than its item, or supplier that isn't earlier than its
/// consumer.
#[tactic(auto, unfolding(crate::specs::rows::Orders::later_fault))]
pub fn later_fault(domains: &[DomainRow], devices: &[DeviceRow], links: &[LinkRow]) -> Option<Place>
    ensures { result ≡ later_fault domains.now devices.now links.now }
{
    later_in_domains(domains)
        .or_else(|| later_in_devices(devices))
        .or_else(|| later_in_links(links))
}

fn later_in_domains(rows: &[DomainRow]) -> Option<Place>
    ensures { result ≡ first_fault domain_later 0 rows.now }
{
    for (i, row) in rows.iter().enumerate() {
        let fault = fault_if(Section::Domain, i, is_later_domain(i, row.parent));
        if fault.is_some() {
            return fault;
        }
    }
    None
}

fn is_later_domain(i: usize, parent: Option<DomId>) -> bool
    ensures { result ≡ option_map_or (λ p. nat_le i p.0) parent false }
{
    match parent {
        Some(parent) => parent.0 as usize >= i,
        None => false,
    }
}

fn later_in_devices(rows: &[DeviceRow]) -> Option<Place>
    ensures { result ≡ first_fault device_later 0 rows.now }
{
    for (i, row) in rows.iter().enumerate() {
        let fault = fault_if(Section::Device, i, is_later_device(i, row.parent));
        if fault.is_some() {
            return fault;
        }
    }
    None
}

fn is_later_device(i: usize, parent: Option<DevId>) -> bool
    ensures { result ≡ option_map_or (λ p. nat_le i p.0) parent false }
{
    match parent {
        Some(parent) => parent.0 as usize >= i,
        None => false,
    }
}

fn later_in_links(rows: &[LinkRow]) -> Option<Place>
    ensures { result ≡ first_fault link_later 0 rows.now }
{
    for (i, row) in rows.iter().enumerate() {
        let fault = fault_if(Section::Link, i, row.supplier.0 >= row.consumer.0);
        if fault.is_some() {
            return fault;
        }
    }
    None
}

/// The first device with `no_callbacks` and a domain.
#[tactic(auto, unfolding(crate::specs::rows::Orders::domain_fault))]
pub fn domain_fault(devices: &[DeviceRow]) -> Option<Place>
    ensures { result ≡ domain_fault devices.now }
{
    idle_in_domains(devices)
}

fn idle_in_domains(rows: &[DeviceRow]) -> Option<Place>
    ensures { result ≡ first_fault idle_in_domain 0 rows.now }
{
    for (i, row) in rows.iter().enumerate() {
        let fault = fault_if(Section::Device, i, row.no_callbacks && row.domain.is_some());
        if fault.is_some() {
            return fault;
        }
    }
    None
}

/// The first link with `pm_runtime` whose consumer has `no_callbacks`.
#[tactic(auto, unfolding(crate::specs::rows::Orders::link_fault))]
pub fn link_fault(devices: &[DeviceRow], links: &[LinkRow]) -> Option<Place>
    ensures { result ≡ link_fault devices.now links.now }
{
    idle_consumers(devices, links)
}

fn idle_consumers(devices: &[DeviceRow], rows: &[LinkRow]) -> Option<Place>
    ensures { result ≡ first_fault (idle_consumer devices.now) 0 rows.now }
{
    for (i, row) in rows.iter().enumerate() {
        let idle = row.pm_runtime && lacks_callbacks(devices, row.consumer);
        let fault = fault_if(Section::Link, i, idle);
        if fault.is_some() {
            return fault;
        }
    }
    None
}

/// Whether a device has no callbacks.
fn lacks_callbacks(devices: &[DeviceRow], dev: DevId) -> bool
    ensures { result ≡ lacks_callbacks devices.now dev }
{
    match devices.get(dev.0 as usize) {
        Some(row) => row.no_callbacks,
        None => false,
    }
}
