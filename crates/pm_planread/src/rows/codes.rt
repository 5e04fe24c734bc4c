//! Numbers out of their range, and codes that no callback may answer.

ghost use Rattle.std.specs.Prelude.{◌≡◌, [], unwrap_or, IfOk};
ghost use Rattle.pm_model.specs.IsPlan.{is_code};
ghost use Rattle.pm_planread.specs.tree.Places.{first_fault};
ghost use Rattle.pm_planread.specs.rows.Numbers.{bad_code, bad_time, code_fault, first_other_code, has_times, number_fault, other_code_in};
ghost use Rattle.pm_planread.specs.rows.Rows.{codes_of, is_within};

use crate::rows::name_faults::fault_if;
use crate::tree::{Codes64, Place, RawDevice, RawPlan, Section};
use pm_base::{EACCES, MAX_LINES, MAX_MS, MIN_CODE, NoMemory};
use pm_model::{Codes, Items};
use std::alloc::Global;

/// Whether the number is in the range.
pub fn is_within(low: u32, high: u32, number: i64) -> bool
    ensures { result ≡ is_within low high number }
{
    i64::from(low) <= number && number <= i64::from(high)
}

/// The first number out of its range: `lines`, `trace`, and the times of callbacks.
#[tactic(auto, unfolding(crate::specs::rows::Numbers::number_fault))]
pub fn number_fault(raw: &RawPlan) -> Option<Place>
    ensures { result ≡ number_fault raw.now }
{
    if !is_within(1, MAX_LINES, raw.lines) {
        return Some(Place::new(Section::Top, raw.lines_at, 0));
    }
    if !is_within(1, 2, raw.trace) {
        return Some(Place::new(Section::Top, raw.trace_at, 0));
    }
    bad_times(raw.devices.as_slice())
}

fn bad_times(rows: &[RawDevice]) -> Option<Place>
    ensures { result ≡ first_fault bad_time 0 rows.now }
{
    for (i, row) in rows.iter().enumerate() {
        let fault = fault_if(Section::Device, i, !has_times(row));
        if fault.is_some() {
            return fault;
        }
    }
    None
}

fn has_times(row: &RawDevice) -> bool
    ensures { result ≡ has_times row.now }
{
    is_time(row.idle_ms) && is_time(row.suspend_ms) && is_time(row.resume_ms)
}

fn is_time(ms: i64) -> bool
    ensures { result ≡ is_within 0 MAX_MS ms }
{
    is_within(0, MAX_MS, ms)
}

/// The first code that no callback may answer.
#[tactic(auto, unfolding(crate::specs::rows::Numbers::code_fault))]
pub fn code_fault(raw: &RawPlan) -> Option<Place>
    ensures { result ≡ code_fault raw.now }
{
    bad_codes(raw.devices.as_slice())
}

fn bad_codes(rows: &[RawDevice]) -> Option<Place>
    ensures { result ≡ first_fault bad_code 0 rows.now }
{
    for (i, row) in rows.iter().enumerate() {
        if let Some(part) = other_code_in(row) {
            return Some(Place::new(Section::Device, i, part));
        }
    }
    None
}

/// The place in its list of a device's first other code; the lists go idle, suspend, resume.
fn other_code_in(row: &RawDevice) -> Option<usize>
    ensures { result ≡ other_code_in row.now }
{
    if let Some(part) = other_idle_code(&row.idle) {
        return Some(part);
    }
    if let Some(part) = first_other_code(row.suspend.as_slice()) {
        return Some(part);
    }
    first_other_code(row.resume.as_slice())
}

fn other_idle_code(codes: &Option<Codes64>) -> Option<usize>
    ensures { result ≡ first_other_code (unwrap_or codes.now []) }
{
    match codes {
        Some(codes) => first_other_code(codes.as_slice()),
        None => None,
    }
}

fn first_other_code(codes: &[i64]) -> Option<usize>
    ensures { result ≡ first_other_code codes.now }
{
    for (i, code) in codes.iter().enumerate() {
        if !is_code(*code) {
            return Some(i);
        }
    }
    None
}

/// Whether a callback may answer the code: 0, or -4095 to -1 but for -13, which is the core's own.
fn is_code(code: i64) -> bool
    ensures { result ≡ is_code code }
{
    i64::from(MIN_CODE) <= code && code <= 0 && code != i64::from(EACCES)
}

/// The codes that a callback may answer.
pub fn codes_of(alloc: Global, codes: &Codes64) -> Result<Codes, NoMemory>
    ensures { IfOk result (λ made. made ≡ codes_of codes.now) }
{
    Ok(Items::new(codes_in(alloc, codes.as_slice())?))
}

fn codes_in(alloc: Global, codes: &[i64]) -> Result<Vec<i32>, NoMemory>
    ensures { IfOk result (λ made. made.items ≡ codes_of codes.now) }
{
    let mut made = Vec::new(alloc);
    for code in codes {
        if is_code(*code) {
            made.push(*code as i32)?;
        }
    }
    Ok(made)
}
