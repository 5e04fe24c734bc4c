//! The plan that is collected.

ghost use Rattle.std.specs.Prelude.{◌≡◌, IfOk, MatchOption, map, reverse};
ghost use Rattle.pm_driver_flat.specs.Flat.{IsPlanOf};
ghost use Rattle.pm_driver_runs.specs.Collected.{MakesPlan};
ghost use Rattle.pm_driver_runs.specs.OneRun.{IsMadePlan, IsPlanWith};

use crate::collected::limits::are_fit;
use crate::collected::rows::{caller_rows, device_rows, domain_rows, link_rows};
use pm_base::NoMemory;
use pm_model::{CallerRow, DeviceRow, Line, NamedList, Plan};
use std::alloc::Global;

// The plan with these devices and callers, which have the names of the driver's.
#[tactic(auto, using(crate::proofs::OneRunPlan::plan_with))]
fn plan_with(
    alloc: Global,
    driver: &Plan,
    devices: Vec<DeviceRow>,
    callers: Vec<CallerRow>,
) -> Result<Plan, NoMemory>
    requires devices { map (λ row. row.name) devices.items ≡ map (λ row. row.name) driver.now.devices }
    requires callers { map (λ row. row.name) callers.items ≡ map (λ row. row.name) driver.now.callers }
    requires law { IsPlanOf driver.now devices.items callers.items }
    ensures { IfOk result (IsPlanWith driver.now devices.items callers.items) }
{
    let domains = domain_rows(alloc, driver.domains.as_slice())?;
    Ok(Plan {
        lines: driver.lines,
        trace: driver.trace,
        domains: NamedList::named_as(alloc, domains, &driver.domains)?,
        devices: NamedList::named_as(alloc, devices, &driver.devices)?,
        links: link_rows(alloc, driver.links.as_slice())?,
        callers: NamedList::named_as(alloc, callers, &driver.callers)?,
    })
}

/// The plan of what was called and answered by the lines of a run, over a driver's rows; `None` where that makes no
/// plan. Fails where memory runs out.
pub fn made_plan(alloc: Global, driver: &Plan, lines: &[Line]) -> Result<Option<Plan>, NoMemory>
    ensures { IfOk result (λ made. MatchOption made (¬ MakesPlan driver.now (reverse lines.now)) (IsMadePlan driver.now (reverse lines.now))) }
{
    let devices = device_rows(alloc, driver.devices.as_slice(), lines)?;
    let callers = caller_rows(alloc, driver.callers.as_slice(), lines)?;
    if are_fit(&devices, &callers) {
        Ok(Some(plan_with(alloc, driver, devices, callers)?))
    } else {
        Ok(None)
    }
}
