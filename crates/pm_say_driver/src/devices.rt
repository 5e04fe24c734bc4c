//! Devices that are refused.

use crate::steps::front_of;
use pm_base::NoMemory;
use pm_driver_read::{DeviceRefusal, DeviceWhy};
use pm_messages::notes::{Note, element_path, item_path, key_path, list, list_under, name_of, row};
use pm_planread::tree::Section;
use std::alloc::Global;
use toml::Table;

fn device_name(tree: &Table, device: usize) -> &str {
    match list(tree, Section::Device).get(device) {
        Some(value) => name_of(value),
        None => "",
    }
}

/// The key of a device under which a list has codes.
fn codes_key(tree: &Table, device: usize) -> Option<&'static str> {
    let table = row(tree, Section::Device, device)?;
    if !list_under(table, "idle").is_empty() {
        Some("idle")
    } else if !list_under(table, "suspend").is_empty() {
        Some("suspend")
    } else if !list_under(table, "resume").is_empty() {
        Some("resume")
    } else {
        None
    }
}

/// The note on a device. Fails where memory runs out.
pub fn device_note<'a>(
    alloc: Global,
    tree: &'a Table,
    refusal: DeviceRefusal,
) -> Result<Note<'a>, NoMemory> {
    let device = refusal.device;
    let who = front_of(device_name(tree, device));
    match refusal.why {
        DeviceWhy::Fails => {
            let message = format!(in alloc;
                "device {who:?}: it isn't said which callback may fail, or it is said twice"
            )?;
            let at = element_path(Section::Device, device, "fails", refusal.part);
            let note = Note::on_value(alloc, message, at);
            note.with_hint(format!(in alloc;
                "write suspend or resume, and maybe a code of -4095 to -1 but for -13 behind it"
            )?)
        }
        DeviceWhy::Codes => {
            let message = format!(in alloc;
                "device {who:?}: a driver's callbacks have no lists of codes"
            )?;
            let note = match codes_key(tree, device) {
                Some(key) => Note::on_value(alloc, message, key_path(Section::Device, device, key)),
                None => Note::on_key(alloc, message, item_path(Section::Device, device)),
            };
            note.with_hint(format!(in alloc;
                "write what may fail: fails = [\"suspend -16\", \"resume\"]"
            )?)
        }
    }
}
