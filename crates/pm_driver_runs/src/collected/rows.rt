//! The rows of the plan that is collected.

ghost use Rattle.std.specs.Prelude.{◌≡◌, ◌≤◌, [], IfOk, option_map, length, reverse};
ghost use Rattle.pm_base.specs.declared.limits.TheConstants.{MAX_CALLERS, MAX_DEVICES};
ghost use Rattle.pm_driver_flat.specs.Flat.{plain};
ghost use Rattle.pm_driver_runs.specs.Collected.{codes_in, scripts_in, with_codes, with_scripts};

use crate::collected::answers::codes_of;
use crate::collected::calls::script_of;
use pm_base::{Cb, DevId, NoMemory};
use pm_model::{CallerRow, Codes, DeviceRow, DomainRow, Items, Line, LinkList, LinkRow};
use pm_planread::rows::names::copied;
use std::alloc::Global;

fn domain_row(alloc: Global, row: &DomainRow) -> Result<DomainRow, NoMemory>
    ensures { IfOk result (λ copy. copy ≡ row.now) }
{
    Ok(DomainRow {
        name: copied(alloc, &row.name)?,
        parent: row.parent,
        always_on: row.always_on,
    })
}

/// The same domains. Fails where memory runs out.
pub fn domain_rows(alloc: Global, rows: &[DomainRow]) -> Result<Vec<DomainRow>, NoMemory>
    ensures { IfOk result (λ copies. copies.items ≡ rows.now) }
{
    let mut copies = Vec::with_capacity(alloc, rows.len())?;
    for row in rows {
        copies.push(domain_row(alloc, row)?)?;
    }
    Ok(copies)
}

/// The same links. Fails where memory runs out.
pub fn link_rows(alloc: Global, links: &[LinkRow]) -> Result<LinkList, NoMemory>
    ensures { IfOk result (λ copy. copy ≡ links.now) }
{
    Ok(Items::new(Vec::from_slice(alloc, links)?))
}

// An idle callback that answers 0, where there is one.
fn without_codes(alloc: Global, idle: &Option<Codes>) -> Option<Codes>
    ensures { result ≡ option_map (λ codes. []) idle.now }
{
    match idle {
        Some(_) => Some(Items::new(Vec::new(alloc))),
        None => None,
    }
}

// A device that answers these codes.
fn device_row(
    alloc: Global,
    row: &DeviceRow,
    suspend: Codes,
    resume: Codes,
) -> Result<DeviceRow, NoMemory>
    ensures { IfOk result (λ made. made ≡ record (plain row.now) { suspend = suspend; resume = resume }) }
{
    Ok(DeviceRow {
        name: copied(alloc, &row.name)?,
        parent: row.parent,
        domain: row.domain,
        ignore_children: row.ignore_children,
        no_callbacks: row.no_callbacks,
        busy: row.busy,
        idle: without_codes(alloc, &row.idle),
        suspend,
        resume,
        idle_ms: row.idle_ms,
        suspend_ms: row.suspend_ms,
        resume_ms: row.resume_ms,
    })
}

// A device with the codes that its callbacks answered.
fn answering(
    alloc: Global,
    row: &DeviceRow,
    dev: DevId,
    lines: &[Line],
) -> Result<DeviceRow, NoMemory>
    ensures { IfOk result (λ made. made ≡ record (plain row.now) { suspend = codes_in (reverse lines.now) dev.0 Cb.Suspend; resume = codes_in (reverse lines.now) dev.0 Cb.Resume }) }
{
    let suspend = Items::new(codes_of(alloc, Cb::Suspend, dev, lines)?);
    let resume = Items::new(codes_of(alloc, Cb::Resume, dev, lines)?);
    device_row(alloc, row, suspend, resume)
}

/// The devices, with the codes that their callbacks answered. Fails where memory runs out.
pub fn device_rows(
    alloc: Global,
    rows: &[DeviceRow],
    lines: &[Line],
) -> Result<Vec<DeviceRow>, NoMemory>
    requires { length rows.now ≤ MAX_DEVICES }
    ensures { IfOk result (λ made. made.items ≡ with_codes (codes_in (reverse lines.now)) 0 rows.now) }
{
    let mut made = Vec::with_capacity(alloc, rows.len())?;
    for (d, row) in rows.iter().enumerate() {
        made.push(answering(alloc, row, DevId(d as u32), lines)?)?;
    }
    Ok(made)
}

// A caller with the script that it called.
fn calling(
    alloc: Global,
    row: &CallerRow,
    caller: u32,
    lines: &[Line],
) -> Result<CallerRow, NoMemory>
    ensures { IfOk result (λ made. made ≡ record row.now { script = scripts_in (reverse lines.now) caller }) }
{
    Ok(CallerRow {
        name: copied(alloc, &row.name)?,
        script: Items::new(script_of(alloc, caller, lines)?),
    })
}

/// The callers, with the scripts that they called. Fails where memory runs out.
pub fn caller_rows(
    alloc: Global,
    rows: &[CallerRow],
    lines: &[Line],
) -> Result<Vec<CallerRow>, NoMemory>
    requires { length rows.now ≤ MAX_CALLERS }
    ensures { IfOk result (λ made. made.items ≡ with_scripts (scripts_in (reverse lines.now)) 0 rows.now) }
{
    let mut made = Vec::with_capacity(alloc, rows.len())?;
    for (c, row) in rows.iter().enumerate() {
        made.push(calling(alloc, row, c as u32, lines)?)?;
    }
    Ok(made)
}
