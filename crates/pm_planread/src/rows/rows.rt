//! The rows of a plan, whose names are places.

ghost use Rattle.std.specs.Prelude.{◌≡◌, ◌≤◌, length, map, option_and_then, option_map, unwrap_or, IfOk};
ghost use Rattle.pm_base.specs.declared.limits.TheConstants.{MAX_DEVICES};
ghost use Rattle.pm_model.specs.NamedList.{place_named};
ghost use Rattle.pm_planread.specs.rows.Few.{AreFew};
ghost use Rattle.pm_planread.specs.rows.Names.{AreNamesOf, names_in};
ghost use Rattle.pm_planread.specs.rows.Rows.{codes_of, device_of, device_or_first, device_row, device_rows, domain_of, domain_row, domain_rows, link_row, link_rows, ms_of, natural_within};

use crate::rows::codes::{codes_of, is_within};
use crate::rows::index::Index;
use crate::rows::names::{Names, copied};
use crate::tree::{Codes64, RawDevice, RawDomain, RawLink, RawPlan, Text};
use pm_base::{DevId, DomId, MAX_MS, NoMemory};
use pm_model::{
    Codes, DeviceList, DeviceRow, DomainList, DomainRow, Items, LinkList, LinkRow, NamedList,
};
use std::alloc::Global;

/// The domains of a plan.
pub fn domain_rows(alloc: Global, raw: &RawPlan, names: &Names) -> Result<DomainList, NoMemory>
    requires few { AreFew raw.now }
    requires names { AreNamesOf raw.now names.now }
    ensures { IfOk result (λ rows. rows ≡ domain_rows raw.now) }
{
    let rows = domains_in(alloc, raw.domains.as_slice(), &names.domains)?;
    Ok(NamedList::named_as(alloc, rows, names.domains.labels())?)
}

fn domains_in(
    alloc: Global,
    rows: &[RawDomain],
    domains: &Index,
) -> Result<Vec<DomainRow>, NoMemory>
    requires { length domains.now ≤ MAX_DEVICES }
    ensures { IfOk result (λ v. v.items ≡ map (domain_row (names_in domains.now)) rows.now) }
{
    let mut made = Vec::with_capacity(alloc, rows.len())?;
    for row in rows {
        made.push(domain_row(alloc, row, domains)?)?;
    }
    Ok(made)
}

#[tactic(auto, unfolding(crate::specs::rows::Rows::domain_row))]
fn domain_row(alloc: Global, row: &RawDomain, domains: &Index) -> Result<DomainRow, NoMemory>
    requires { length domains.now ≤ MAX_DEVICES }
    ensures { IfOk result (λ made. made ≡ domain_row (names_in domains.now) row.now) }
{
    Ok(DomainRow {
        name: copied(alloc, &row.name)?,
        parent: domain_named(domains, &row.parent),
        always_on: row.always_on,
    })
}

/// The devices of a plan.
pub fn device_rows(alloc: Global, raw: &RawPlan, names: &Names) -> Result<DeviceList, NoMemory>
    requires few { AreFew raw.now }
    requires names { AreNamesOf raw.now names.now }
    ensures { IfOk result (λ rows. rows ≡ device_rows raw.now) }
{
    let rows = raw.devices.as_slice();
    let rows = devices_in(alloc, rows, &names.domains, &names.devices)?;
    Ok(NamedList::named_as(alloc, rows, names.devices.labels())?)
}

fn devices_in(
    alloc: Global,
    rows: &[RawDevice],
    domains: &Index,
    devices: &Index,
) -> Result<Vec<DeviceRow>, NoMemory>
    requires domains { length domains.now ≤ MAX_DEVICES }
    requires devices { length devices.now ≤ MAX_DEVICES }
    ensures { IfOk result (λ v. v.items ≡ map (device_row (names_in domains.now) (names_in devices.now)) rows.now) }
{
    let mut made = Vec::with_capacity(alloc, rows.len())?;
    for row in rows {
        made.push(device_row(alloc, row, domains, devices)?)?;
    }
    Ok(made)
}

#[tactic(auto, unfolding(crate::specs::rows::Rows::device_row))]
fn device_row(
    alloc: Global,
    row: &RawDevice,
    domains: &Index,
    devices: &Index,
) -> Result<DeviceRow, NoMemory>
    requires domains { length domains.now ≤ MAX_DEVICES }
    requires devices { length devices.now ≤ MAX_DEVICES }
    ensures { IfOk result (λ made. made ≡ device_row (names_in domains.now) (names_in devices.now) row.now) }
{
    Ok(DeviceRow {
        name: copied(alloc, &row.name)?,
        parent: device_named(devices, &row.parent),
        domain: domain_named(domains, &row.domain),
        ignore_children: row.ignore_children,
        no_callbacks: row.no_callbacks,
        busy: row.busy,
        idle: idle_codes(alloc, &row.idle)?,
        suspend: codes_of(alloc, &row.suspend)?,
        resume: codes_of(alloc, &row.resume)?,
        idle_ms: ms_of(row.idle_ms),
        suspend_ms: ms_of(row.suspend_ms),
        resume_ms: ms_of(row.resume_ms),
    })
}

/// The links of a plan.
pub fn link_rows(alloc: Global, raw: &RawPlan, names: &Names) -> Result<LinkList, NoMemory>
    requires few { AreFew raw.now }
    requires names { AreNamesOf raw.now names.now }
    ensures { IfOk result (λ rows. rows ≡ link_rows raw.now) }
{
    Ok(Items::new(links_in(alloc, raw.links.as_slice(), &names.devices)?))
}

fn links_in(alloc: Global, rows: &[RawLink], devices: &Index) -> Result<Vec<LinkRow>, NoMemory>
    requires { length devices.now ≤ MAX_DEVICES }
    ensures { IfOk result (λ v. v.items ≡ map (link_row (names_in devices.now)) rows.now) }
{
    let mut made = Vec::with_capacity(alloc, rows.len())?;
    for row in rows {
        made.push(link_row(row, devices))?;
    }
    Ok(made)
}

#[tactic(auto, unfolding(crate::specs::rows::Rows::link_row))]
fn link_row(row: &RawLink, devices: &Index) -> LinkRow
    requires { length devices.now ≤ MAX_DEVICES }
    ensures { result ≡ link_row (names_in devices.now) row.now }
{
    LinkRow {
        consumer: device_or_first(devices, &row.consumer),
        supplier: device_or_first(devices, &row.supplier),
        pm_runtime: row.pm_runtime,
        later: row.later,
    }
}

/// The place of a name.
fn place_in(index: &Index, name: &Text) -> Option<u32>
    requires { length index.now ≤ MAX_DEVICES }
    ensures { result ≡ place_named name.now (names_in index.now) }
{
    match index.find(name.as_slice()) {
        Some(place) => Some(place as u32),
        None => None,
    }
}

fn domain_named(domains: &Index, name: &Option<Text>) -> Option<DomId>
    requires { length domains.now ≤ MAX_DEVICES }
    ensures { result ≡ option_and_then (domain_of (names_in domains.now)) name.now }
{
    match name {
        Some(name) => place_in(domains, name).map(DomId),
        None => None,
    }
}

fn device_named(devices: &Index, name: &Option<Text>) -> Option<DevId>
    requires { length devices.now ≤ MAX_DEVICES }
    ensures { result ≡ option_and_then (device_of (names_in devices.now)) name.now }
{
    match name {
        Some(name) => place_in(devices, name).map(DevId),
        None => None,
    }
}

fn device_or_first(devices: &Index, name: &Text) -> DevId
    requires { length devices.now ≤ MAX_DEVICES }
    ensures { result ≡ device_or_first (names_in devices.now) name.now }
{
    DevId(place_in(devices, name).unwrap_or(0))
}

fn idle_codes(alloc: Global, codes: &Option<Codes64>) -> Result<Option<Codes>, NoMemory>
    ensures { IfOk result (λ made. made ≡ option_map codes_of codes.now) }
{
    match codes {
        Some(codes) => Ok(Some(codes_of(alloc, codes)?)),
        None => Ok(None),
    }
}

/// The milliseconds of a callback.
fn ms_of(number: i64) -> u32
    ensures { result ≡ ms_of number }
{
    natural_within(0, MAX_MS, number)
}

/// The number where it is in the range, and else the least one.
pub fn natural_within(low: u32, high: u32, number: i64) -> u32
    ensures { result ≡ natural_within low high number }
{
    if is_within(low, high, number) {
        number as u32
    } else {
        low
    }
}
