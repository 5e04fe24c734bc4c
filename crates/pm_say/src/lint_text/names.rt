//! How a message calls what a plan has.

use pm_base::DevId;
use pm_model::{Command, Name, Plan};

/// The text of a name, which is ASCII.
fn text(name: &Name) -> &str {
    str::from_utf8(name.as_slice()).unwrap_or("")
}

/// The name of a device.
pub fn device_name(plan: &Plan, device: usize) -> &str {
    match plan.devices.get(device) {
        Some(row) => text(&row.name),
        None => "",
    }
}

/// The name of the domain of a device.
pub fn domain_name(plan: &Plan, dev: DevId) -> &str {
    let Some(row) = plan.devices.get(dev.0 as usize) else {
        return "";
    };
    let Some(domain) = row.domain else {
        return "";
    };
    match plan.domains.get(domain.0 as usize) {
        Some(row) => text(&row.name),
        None => "",
    }
}

/// The name of a caller.
pub fn caller_name(plan: &Plan, caller: usize) -> &str {
    match plan.callers.get(caller) {
        Some(row) => text(&row.name),
        None => "",
    }
}

/// The commands of a caller.
pub fn script(plan: &Plan, caller: usize) -> &[Command] {
    match plan.callers.get(caller) {
        Some(row) => row.script.as_slice(),
        None => &[],
    }
}
