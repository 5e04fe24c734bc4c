//! A driver is searched through for what is told of it.

ghost use Rattle.std.specs.Prelude.{◌≡◌, ◌<◌, ◌^◌, IfOk, length};
ghost use Rattle.std.specs.List.{list_any};
ghost use Rattle.pm_driver_report.specs.Report.{IsSearched, has_codes, lists_text, may_be_searched};
ghost use Rattle.pm_driver_report.specs.Rules.{IsExamined};

use crate::follows::all_weighed;
use crate::lines::{DriverLine, all_lines, told_lines};
use crate::passes::{DriverPass, all_passes};
use pm_base::NoMemory;
use pm_driver_find::ExaminedDriver;
use pm_driver_read::Driver;
use pm_driver_rules::has_quiet_idle;
use pm_lab_words::DriverBounds;
use pm_linetext::push;
use pm_model::DeviceRow;
use std::alloc::Global;

/// What was gone through of a driver's schedules, and what is told of it.
#[derive(Drop)]
pub struct DriverSearch {
    pub passes: Vec<DriverPass>,
    /// The findings, in the order in which they are told.
    pub told: Vec<DriverLine>,
}

// Whether the callbacks of a device answer codes of lists.
fn has_codes(row: &DeviceRow) -> bool
    ensures { result ≡ has_codes row.now }
{
    let has_idle = match &row.idle {
        Some(codes) => codes.as_slice().len() != 0,
        None => false,
    };
    has_idle || row.suspend.as_slice().len() != 0 || row.resume.as_slice().len() != 0
}

fn some_has_codes(rows: &[DeviceRow]) -> bool
    ensures { result ≡ list_any has_codes rows.now }
{
    rows.iter().any(has_codes)
}

/// Whether a driver is gone through: no plan is whose callbacks answer lists of codes.
pub fn may_be_searched(driver: &Driver) -> bool
    ensures { result ≡ may_be_searched driver.now }
{
    has_quiet_idle(&driver.plan)
        && !(driver.is_plan && some_has_codes(driver.plan.devices.as_slice()))
}

const LISTS: &[u8] =
    b": its callbacks answer lists of codes: `orders` goes through such a plan, and `find` through a trace of it; in a driver file `fails` says what may fail\n";

/// What is told of a plan with lists of codes.
pub fn lists_message(alloc: Global, file: &[u8]) -> Result<Vec<u8>, NoMemory>
    ensures { IfOk result (λ text. text.items ≡ lists_text file.now) }
{
    let mut text = Vec::new(alloc);
    push(&mut text, file)?;
    push(&mut text, LISTS)?;
    Ok(text)
}

/// Goes through the schedules of a driver for what is told of them.
#[tactic(auto, using(crate::proofs::ReportLemmas::is_searched))]
pub fn search_driver(
    alloc: Global,
    driver: &Driver,
    examined: &ExaminedDriver,
    bounds: DriverBounds,
    notes: bool,
) -> Result<DriverSearch, NoMemory>
    requires callers { length examined.now.rules.now.callers.now < 2 ^ 32 }
    ensures { IfOk result (IsSearched driver.now examined.now bounds notes) }
{
    let passes = all_passes(alloc, examined, bounds)?;
    let lines = all_lines(alloc, driver, passes.as_slice())?;
    let weighed = all_weighed(alloc, driver, examined, passes.as_slice(), lines.as_slice())?;
    let told = told_lines(alloc, notes, weighed.as_slice())?;
    Ok(DriverSearch { passes, told })
}
