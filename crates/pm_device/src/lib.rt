//! The counters of all devices: what the lines of a run add up to, so that a run never looks back at
//! its lines (`runtime_pm.rst`, section 3).
#![tactic(auto)]

ghost use Rattle.std.specs.Prelude.{◌≡◌, ◌<◌, length};
ghost use Rattle.pm_model.specs.Views.{device as device_of, with_device};
ghost use Rattle.pm_device.specs.Children.{counts};
ghost use Rattle.pm_device.specs.Parts.{Counters, IsInTime, is_quiet};

mod changes;
mod domains;
mod fill;
mod fresh;
mod guards;
mod links;
mod moves;
mod readers;
mod rows;

pub use guards::{has, is_above_idle, is_try_again, may_not_wait, prevented};
pub use moves::{
    back, call_returns, calls, goes, helper_returns, supplier_call, then_returns, to_resume,
};
use pm_base::{DevId, Status};
use pm_domain::Domains;
use pm_index::Tally;
use pm_link::Links;
use pm_model::Device;
use pm_request::Requests;
use pm_timer::Timers;
pub use rows::{
    added, code_of, domain, has_domain, has_idle, has_parent, marks_busy, ms_of, no_callbacks,
    parent, parent_of, removed,
};
use std::marker::Model;

/// The counters of all devices, links and domains. Contracts see the views that they keep, and what
/// they were made for.
pub struct Parts {
    devices: Vec<Device>,
    requests: Requests,
    timers: Timers,
    domains: Domains,
    links: Links,
    // A device is marked where it is Active or Suspending; it belongs to its parent.
    children: Tally,
}

impl Drop for Parts {
    fn drop(self) {
        let Parts {
            devices,
            requests,
            timers,
            domains,
            links,
            children,
        } = self;
        drop(devices);
        drop(requests);
        drop(timers);
        drop(domains);
        drop(links);
        drop(children);
    }
}

impl Model for Parts {
    ghost use Rattle.pm_device.specs.Parts.{Counters, IsKept};

    ghost Value = { Counters };

    ghost view = { λ p. record {
      shape = record { parents = p.children.owners; links = p.links.rows; homes = p.domains.homes; above = p.domains.above };
      views = record {
        devices = p.devices.items;
        pending = p.requests;
        timers = p.timers;
        on = p.domains.on;
        held = p.links.held;
        present = p.links.present;
      };
    } };

    ghost invariant = { λ p. IsKept p.children.owners p.devices.items p.requests p.timers p.domains.homes p.domains.awake p.domains.above p.domains.on p.children.bits };
}

/// Whether a child of this status counts.
fn counts(status: Status) -> bool
    ensures { result ≡ counts status }
{
    matches!(status, Status::Active | Status::Suspending)
}

/// Whether a device is Suspended and enabled.
fn is_quiet(device: &Device) -> bool
    ensures { result ≡ is_quiet device.now }
{
    matches!(device.status, Status::Suspended) && device.depth == 0
}

impl Parts {
    // The views of one device change. Its parent and its domain count it as it now is.
    fn set_device(&mut self, dev: DevId, device: Device)
        requires in_range { dev.0 < length self.old.shape.parents }
        requires in_time { IsInTime device }
        ensures { self.new ≡ record self.old { views = with_device self.old.views dev device } }
    {
        self.children.set(dev.0, counts(device.status));
        self.domains.set_awake(dev, !is_quiet(&device));
        self.devices[dev.0 as usize] = device;
    }

    // The same where its status and its depth stay: it is counted already.
    fn keep_device(&mut self, dev: DevId, device: Device)
        requires in_range { dev.0 < length self.old.shape.parents }
        requires in_time { IsInTime device }
        requires status { device.status ≡ (device_of self.old.views dev).status }
        requires depth { device.depth ≡ (device_of self.old.views dev).depth }
        ensures { self.new ≡ record self.old { views = with_device self.old.views dev device } }
    {
        self.devices[dev.0 as usize] = device;
    }
}
