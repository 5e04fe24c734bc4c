//! The counters before any line.

ghost use Rattle.std.specs.Prelude.{◌≡◌, IfOk, map};
ghost use Rattle.pm_model.specs.Views.{fresh_device};
ghost use Rattle.pm_model.specs.World.{start_views};
ghost use Rattle.pm_device.specs.Children.{place_of};
ghost use Rattle.pm_device.specs.Parts.{IsFor};

use crate::Parts;
use pm_base::{DevId, NoMemory, Status};
use pm_domain::Domains;
use pm_index::Tally;
use pm_link::Links;
use pm_model::{Device, DeviceRow, Plan};
use pm_request::Requests;
use pm_timer::Timers;
use std::alloc::{AllocError, Global};

// A device before any line (`runtime_pm.rst`, section 5).
fn fresh_device(ignores: bool) -> Device
    ensures { result ≡ record fresh_device { ignores = ignores } }
{
    Device {
        status: Status::Suspended,
        error: 0,
        depth: 1,
        last_active: false,
        usage: 0,
        share: 0,
        auto_on: true,
        last_busy: 0,
        use_auto: false,
        delay: 0,
        idle_running: false,
        ignores,
        begun_idle: 0,
        begun_suspend: 0,
        begun_resume: 0,
    }
}

// Each device before any line.
fn fresh_devices(alloc: Global, rows: &[DeviceRow]) -> Result<Vec<Device>, AllocError>
    ensures { IfOk result (λ v. v.items ≡ map (λ row. record fresh_device { ignores = row.ignore_children }) rows.now) }
{
    rows.iter()
        .map(|row| fresh_device(row.ignore_children))
        .collect(alloc)
}

// The place of a device in the plan's order.
fn place_of(dev: Option<DevId>) -> Option<u32>
    ensures { result ≡ place_of dev }
{
    match dev {
        Some(dev) => Some(dev.0),
        None => None,
    }
}

// The parent of each device.
fn parents(alloc: Global, rows: &[DeviceRow]) -> Result<Vec<Option<u32>>, AllocError>
    ensures { IfOk result (λ v. v.items ≡ map (λ row. place_of row.parent) rows.now) }
{
    rows.iter().map(|row| place_of(row.parent)).collect(alloc)
}

impl Parts {
    /// The counters of a plan before any line. Fails where memory runs out; no other call takes any.
    pub fn fresh(alloc: Global, plan: &Plan) -> Result<Parts, NoMemory>
        ensures made_for { IfOk result (λ parts. IsFor plan.now parts.shape) }
        ensures start { IfOk result (λ parts. parts.views ≡ start_views plan.now) }
    {
        let rows = plan.devices.as_slice();
        let devices = fresh_devices(alloc, rows)?;
        let children = Tally::new(alloc, parents(alloc, rows)?, rows.len())?;
        let requests = Requests::fresh(alloc, rows.len())?;
        let timers = Timers::fresh(alloc, rows.len())?;
        let domains = Domains::fresh(alloc, plan)?;
        let links = Links::fresh(alloc, plan)?;
        Ok(Parts {
            devices,
            requests,
            timers,
            domains,
            links,
            children,
        })
    }
}
