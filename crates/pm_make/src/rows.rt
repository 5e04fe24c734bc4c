//! The domains, devices and links.

ghost use Rattle.std.specs.Prelude.{◌≡◌, ◌≤◌, IfOk, OnOk, vec_len};
ghost use Rattle.std.specs.Option.{option_to_list};
ghost use Rattle.pm_base.specs.declared.limits.TheConstants.{MAX_DEVICES};
ghost use Rattle.pm_make.specs.Draws.{in_turn};
ghost use Rattle.pm_make.specs.Generator.{device, device_step, domain_row, domain_rows, link_step, name, parent_of};

use crate::draws::Draws;
use pm_base::{DevId, DomId, NoMemory};
use pm_model::{DeviceRow, DomainRow, Items, LinkRow, Name};
use std::alloc::Global;

/// A letter and a number.
pub fn name(alloc: Global, letter: &str, number: u32) -> Result<Name, NoMemory>
    ensures { IfOk result (λ made. made ≡ name letter.now number) }
{
    let text = format!(in alloc; "{letter}{number}")?;
    Ok(Items::new(text.into_bytes()))
}

#[tactic(auto, unfolding(crate::specs::Generator::domain_row))]
fn domain_row(alloc: Global, place: u32) -> Result<DomainRow, NoMemory>
    ensures { IfOk result (λ row. row ≡ domain_row place) }
{
    let parent = if place == 0 {
        None
    } else {
        Some(DomId((place - 1) / 2))
    };
    Ok(DomainRow {
        name: name(alloc, "m", place)?,
        parent,
        always_on: false,
    })
}

/// The domains of so many devices.
#[tactic(auto, using(crate::proofs::InTurn::map_more))]
pub fn domain_rows(alloc: Global, devices: u32) -> Result<Vec<DomainRow>, NoMemory>
    requires least { 1 ≤ devices }
    requires most { devices ≤ MAX_DEVICES }
    ensures rows { IfOk result (λ rows. rows.items ≡ domain_rows devices) }
    ensures few { IfOk result (λ rows. vec_len rows ≤ devices) }
{
    let mut rows = Vec::new(alloc);
    for place in 0..(devices - 1) / 8 + 1 {
        rows.push(domain_row(alloc, place)?)?;
    }
    Ok(rows)
}

#[tactic(auto, unfolding(crate::specs::Generator::parent_of))]
fn parent(draws: &mut Draws, place: u32) -> Option<DevId>
    ensures item { result ≡ (parent_of place draws.old.state).item }
    ensures state { draws.new.state ≡ (parent_of place draws.old.state).state }
{
    if place == 0 || draws.below(4) == 0 {
        None
    } else {
        Some(DevId(draws.below(place)))
    }
}

#[tactic(auto, unfolding(crate::specs::Generator::device))]
fn device(alloc: Global, draws: &mut Draws, place: u32) -> Result<DeviceRow, NoMemory>
    ensures item { IfOk result (λ row. row ≡ (device place draws.old.state).item) }
    ensures state { OnOk result (draws.new.state ≡ (device place draws.old.state).state) }
{
    let parent = parent(draws, place);
    let suspend_ms = draws.below(20);
    let resume_ms = draws.below(20);
    Ok(DeviceRow {
        name: name(alloc, "d", place)?,
        parent,
        domain: Some(DomId(place / 8)),
        ignore_children: false,
        no_callbacks: false,
        busy: false,
        idle: Some(Items::new(Vec::new(alloc))),
        suspend: Items::new(Vec::new(alloc)),
        resume: Items::new(Vec::new(alloc)),
        idle_ms: 0,
        suspend_ms,
        resume_ms,
    })
}

/// So many devices.
#[tactic(auto, using(crate::proofs::InTurn::item_more, crate::proofs::InTurn::state_more))]
pub fn device_rows(
    alloc: Global,
    draws: &mut Draws,
    devices: u32,
) -> Result<Vec<DeviceRow>, NoMemory>
    ensures item { IfOk result (λ rows. rows.items ≡ (in_turn device_step devices draws.old.state).item) }
    ensures few { IfOk result (λ rows. vec_len rows ≤ devices) }
    ensures state { OnOk result (draws.new.state ≡ (in_turn device_step devices draws.old.state).state) }
{
    let mut rows = Vec::new(alloc);
    for place in 0..devices {
        rows.push(device(alloc, draws, place)?)?;
    }
    Ok(rows)
}

#[tactic(auto, unfolding(crate::specs::Generator::link_step))]
fn link(draws: &mut Draws, place: u32) -> Option<LinkRow>
    ensures item { option_to_list result ≡ (link_step place draws.old.state).item }
    ensures state { draws.new.state ≡ (link_step place draws.old.state).state }
{
    if place == 0 || draws.below(3) != 0 {
        None
    } else {
        Some(LinkRow {
            consumer: DevId(place),
            supplier: DevId(draws.below(place)),
            pm_runtime: true,
            later: false,
        })
    }
}

/// The links of so many devices.
#[tactic(auto, using(crate::proofs::InTurn::item_more, crate::proofs::InTurn::state_more))]
pub fn link_rows(alloc: Global, draws: &mut Draws, devices: u32) -> Result<Vec<LinkRow>, NoMemory>
    ensures item { IfOk result (λ rows. rows.items ≡ (in_turn link_step devices draws.old.state).item) }
    ensures state { OnOk result (draws.new.state ≡ (in_turn link_step devices draws.old.state).state) }
{
    let mut rows = Vec::new(alloc);
    for place in 0..devices {
        if let Some(row) = link(draws, place) {
            rows.push(row)?;
        }
    }
    Ok(rows)
}
