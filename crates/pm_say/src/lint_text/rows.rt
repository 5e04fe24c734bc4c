//! What is told of devices, links and callers.

use crate::lint_text::names::{caller_name, device_name};
use pm_base::NoMemory;
use pm_messages::notes::{Note, item_path, key_path};
use pm_model::Plan;
use pm_planread::tree::Section;
use std::alloc::Global;

/// The note on a device that is used and never enabled.
pub fn disabled_note(alloc: Global, plan: &Plan, device: usize) -> Result<Note<'static>, NoMemory> {
    let name = device_name(plan, device);
    let message = format!(in alloc; "device {name:?} is used, and no script enables it")?;
    let hint = format!(in alloc;
        "while it is disabled it is neither resumed nor suspended: write \"enable {name}\""
    )?;
    Note::on_value(alloc, message, key_path(Section::Device, device, "name")).with_hint(hint)
}

/// The note on a device that nothing needs.
pub fn needless_note(alloc: Global, plan: &Plan, device: usize) -> Result<Note<'static>, NoMemory> {
    let name = device_name(plan, device);
    let message = format!(in alloc; "nothing needs device {name:?}")?;
    let hint = format!(in alloc;
        "no script names it, it is in no link and in no domain, and it is no device's parent"
    )?;
    Note::on_value(alloc, message, key_path(Section::Device, device, "name")).with_hint(hint)
}

/// The note on a link that is never added.
pub fn later_note(alloc: Global, plan: &Plan, link: usize) -> Result<Note<'static>, NoMemory> {
    let (consumer, supplier) = match plan.links.as_slice().get(link) {
        Some(row) => (
            device_name(plan, row.consumer.0 as usize),
            device_name(plan, row.supplier.0 as usize),
        ),
        None => ("", ""),
    };
    let message = format!(in alloc;
        "link of {consumer:?} to {supplier:?}: it is there only later, and no script adds it"
    )?;
    let hint = format!(in alloc;
        "write \"link_add {consumer} {supplier}\", or leave \"later\" out"
    )?;
    Note::on_value(alloc, message, item_path(Section::Link, link)).with_hint(hint)
}

/// The note on a caller without commands.
pub fn empty_note(alloc: Global, plan: &Plan, caller: usize) -> Result<Note<'static>, NoMemory> {
    let name = caller_name(plan, caller);
    let message = format!(in alloc; "caller {name:?} has no commands")?;
    let at = key_path(Section::Caller, caller, "name");
    Ok(Note::on_value(alloc, message, at))
}
