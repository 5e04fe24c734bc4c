//! A plan.

ghost use Rattle.std.specs.Prelude.{◌≡◌, true};
ghost use Rattle.pm_model.specs.IsPlan.{is_plan};

use crate::rows::{CallerList, DeviceList, DomainList, LinkList};

/// What is run and what a trace is judged against (this project's own). Each value of the type is a
/// plan: whoever makes one proves it.
pub struct Plan {
    /// How many lines a run may have, 1 to 200,000.
    pub lines: u32,
    /// The format of the trace that is written, 1 or 2.
    pub trace: u32,
    pub domains: DomainList,
    pub devices: DeviceList,
    pub links: LinkList,
    pub callers: CallerList,
    pub ghost law: { is_plan lines trace domains devices links callers ≡ true },
}

// Taken apart in one place: a plan is dropped at many, and each of them is a call.
impl Drop for Plan {
    fn drop(self) {
        let Plan {
            lines: _,
            trace: _,
            domains,
            devices,
            links,
            callers,
        } = self;
        drop(domains);
        drop(devices);
        drop(links);
        drop(callers);
    }
}
