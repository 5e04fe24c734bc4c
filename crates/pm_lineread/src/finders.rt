//! What finds the names of a plan.

use pm_base::NoMemory;
use pm_model::Plan;
use pm_names::Finder;
use std::alloc::Global;

/// Finds the devices and callers of a plan by their names, sooner than the plan itself does. It serves for
/// each plan, and for the one that it was made for soon.
#[derive(Drop)]
pub struct Finders {
    devices: Finder,
    callers: Finder,
}

impl Finders {
    /// What finds the names of this plan. All memory is taken here.
    pub fn new(alloc: Global, plan: &Plan) -> Result<Finders, NoMemory> {
        Ok(Finders {
            devices: Finder::new(alloc, plan.devices.as_slice())?,
            callers: Finder::new(alloc, plan.callers.as_slice())?,
        })
    }
}

/// What finds devices, where there is something.
pub(crate) fn device_finder(by: Option<&Finders>) -> Option<&Finder> {
    match by {
        Some(finders) => Some(&finders.devices),
        None => None,
    }
}

/// What finds callers, where there is something.
pub(crate) fn caller_finder(by: Option<&Finders>) -> Option<&Finder> {
    match by {
        Some(finders) => Some(&finders.callers),
        None => None,
    }
}
