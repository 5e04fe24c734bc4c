//! Warnings of devices.

ghost use Rattle.std.specs.Prelude.{◌≡◌, ◌<◌, ◌++◌, OnOk, length};
ghost use Rattle.std.specs.List.{list_any};
ghost use Rattle.pm_say.specs.lints.Devices.{is_end, is_needed, is_parent};
ghost use Rattle.pm_say.specs.lints.Marks.{IsMarked};
ghost use Rattle.pm_say.specs.lints.Warnings.{of_device, of_rows};

use crate::lints::Warning;
use crate::lints::helpers::Deed;
use crate::lints::listed::push_if;
use crate::lints::marks::{Marks, is_done};
use pm_base::NoMemory;
use pm_model::{DeviceRow, LinkRow, Plan};

/// Appends the warnings of the devices. Fails where memory runs out.
pub(crate) fn push_devices(
    out: &mut Vec<Warning>,
    plan: &Plan,
    marks: &Marks,
) -> Result<(), NoMemory>
    requires { IsMarked plan.now marks.now }
    ensures { OnOk result (out.new.items ≡ out.old.items ++ of_rows (of_device plan.now) plan.now.devices) }
{
    for (device, row) in plan.devices.as_slice().iter().enumerate() {
        push_device(out, plan, marks, device, row)?;
    }
    Ok(())
}

#[tactic(auto, unfolding(crate::specs::lints::Warnings::of_device))]
fn push_device(
    out: &mut Vec<Warning>,
    plan: &Plan,
    marks: &Marks,
    device: usize,
    row: &DeviceRow,
) -> Result<(), NoMemory>
    requires marked { IsMarked plan.now marks.now }
    requires in_plan { device < length plan.now.devices }
    ensures { OnOk result (out.new.items ≡ out.old.items ++ of_device plan.now device row.now) }
{
    let is_used = is_done(marks, plan, Deed::Uses, device);
    let is_enabled = is_done(marks, plan, Deed::Enables, device);
    push_if(
        out,
        is_used && !is_enabled,
        Warning::NeverEnabled { device },
    )?;
    let needed = is_needed(plan, marks, device, row);
    push_if(out, !needed, Warning::NotNeeded { device })
}

fn is_needed(plan: &Plan, marks: &Marks, device: usize, row: &DeviceRow) -> bool
    requires marked { IsMarked plan.now marks.now }
    requires in_plan { device < length plan.now.devices }
    ensures { result ≡ is_needed plan.now device row.now }
{
    is_done(marks, plan, Deed::Names, device)
        || is_done(marks, plan, Deed::Supplies, device)
        || has_child(plan.devices.as_slice(), device)
        || has_link(plan.links.as_slice(), device)
        || row.domain.is_some()
}

fn has_child(rows: &[DeviceRow], device: usize) -> bool
    ensures { result ≡ list_any (is_parent device) rows.now }
{
    rows.iter().any(|row| is_parent(device, row))
}

fn has_link(links: &[LinkRow], device: usize) -> bool
    ensures { result ≡ list_any (is_end device) links.now }
{
    links.iter().any(|link| is_end(device, link))
}

fn is_parent(device: usize, row: &DeviceRow) -> bool
    ensures { result ≡ is_parent device row.now }
{
    match row.parent {
        Some(parent) => parent.0 as usize == device,
        None => false,
    }
}

fn is_end(device: usize, link: &LinkRow) -> bool
    ensures { result ≡ is_end device link.now }
{
    link.consumer.0 as usize == device || link.supplier.0 as usize == device
}
