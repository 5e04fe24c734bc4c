//! Large plans, made from a number.
#![tactic(auto)]

ghost use Rattle.std.specs.Prelude.{◌≤◌, IfOk};
ghost use Rattle.pm_base.specs.declared.limits.TheConstants.{MAX_DEVICES};
ghost use Rattle.pm_make.specs.Generator.{IsGenerated};

mod callers;
mod draws;
mod rows;

use callers::caller_rows;
use draws::Draws;
use pm_base::{MAX_LINES, NoMemory};
use pm_model::{Items, NamedList, Plan};
use rows::{device_rows, domain_rows, link_rows};
use std::alloc::Global;

/// The plan of the generator for a number and 1 to 1,024 devices: always the same one. Fails where
/// memory runs out.
pub fn make_plan(alloc: Global, number: u64, devices: u32) -> Result<Plan, NoMemory>
    requires least { 1 ≤ devices }
    requires most { devices ≤ MAX_DEVICES }
    ensures { IfOk result (IsGenerated number devices) }
{
    let mut draws = Draws::new(number);
    let domains = NamedList::new(alloc, domain_rows(alloc, devices)?)?;
    let rows = NamedList::new(alloc, device_rows(alloc, &mut draws, devices)?)?;
    let links = Items::new(link_rows(alloc, &mut draws, devices)?);
    let callers = NamedList::new(alloc, caller_rows(alloc, &mut draws, devices)?)?;
    Ok(Plan {
        lines: MAX_LINES,
        trace: 1,
        domains,
        devices: rows,
        links,
        callers,
    })
}
