//! The parts of a device's row.

ghost use Rattle.std.specs.Prelude.{◌≡◌, ◌++◌, OnOk, codes, is_some};
ghost use Rattle.pm_module.specs.Rows.{callback_text, device_callbacks, device_ends, device_flags, device_place, domain_place, field_line, idle_codes, truth};

use crate::pieces::{
    push_device_place, push_domain_place, push_name_field, push_truth, start_field,
};
use crate::rows::push_rows;
use pm_base::{DevId, DomId, NoMemory};
use pm_linetext::{push, push_number};
use pm_model::{DeviceRow, Plan};

/// Appends what a device is and where it stands.
pub(crate) fn push_ends(text: &mut Vec<u8>, row: &DeviceRow) -> Result<(), NoMemory>
    ensures { OnOk result (text.new.items ≡ text.old.items ++ device_ends row.now) }
{
    push_name_field(text, &row.name)?;
    push_parent(text, row.parent)?;
    push_domain(text, row.domain)
}

/// Appends the line with a device's parent.
fn push_parent(text: &mut Vec<u8>, parent: Option<DevId>) -> Result<(), NoMemory>
    ensures { OnOk result
        (text.new.items ≡ text.old.items ++ field_line (codes "parent") (device_place parent)) }
{
    start_field(text, b"parent")?;
    push_device_place(text, parent)?;
    push(text, b",\n")
}

/// Appends the line with a device's power domain.
fn push_domain(text: &mut Vec<u8>, domain: Option<DomId>) -> Result<(), NoMemory>
    ensures { OnOk result
        (text.new.items ≡ text.old.items ++ field_line (codes "domain") (domain_place domain)) }
{
    start_field(text, b"domain")?;
    push_domain_place(text, domain)?;
    push(text, b",\n")
}

/// Appends a line with a truth.
fn push_truth_field(text: &mut Vec<u8>, name: &[u8], value: bool) -> Result<(), NoMemory>
    ensures { OnOk result (text.new.items ≡ text.old.items ++ field_line name.now (truth value)) }
{
    start_field(text, name)?;
    push_truth(text, value)?;
    push(text, b",\n")
}

/// Appends what is so of a device, and what isn't.
pub(crate) fn push_flags(text: &mut Vec<u8>, row: &DeviceRow) -> Result<(), NoMemory>
    ensures { OnOk result (text.new.items ≡ text.old.items ++ device_flags row.now) }
{
    push_truth_field(text, b"ignore_children", row.ignore_children)?;
    push_truth_field(text, b"no_callbacks", row.no_callbacks)?;
    push_truth_field(text, b"marks_busy", row.busy)?;
    push_idle_flag(text, row)
}

/// Appends whether a device has an idle callback.
fn push_idle_flag(text: &mut Vec<u8>, row: &DeviceRow) -> Result<(), NoMemory>
    ensures { OnOk result
        (text.new.items ≡ text.old.items ++ field_line (codes "has_idle") (truth (is_some row.now.idle))) }
{
    push_truth_field(text, b"has_idle", row.idle.is_some())
}

/// Appends how long a callback takes, and its codes in turn.
fn push_callback(text: &mut Vec<u8>, plan: &Plan, ms: u32, codes: &[i32]) -> Result<(), NoMemory>
    ensures { OnOk result (text.new.items ≡ text.old.items ++ callback_text ms codes.now) }
{
    push(text, b"{ .ms = ")?;
    push_number(text, ms as u64)?;
    push(text, b", .codes = (const int[]){ ")?;
    push_rows(text, plan, codes)?;
    push(text, b"LAB_NO_MORE } }")
}

/// Appends a line with a callback.
fn push_callback_field(
    text: &mut Vec<u8>,
    plan: &Plan,
    name: &[u8],
    ms: u32,
    codes: &[i32],
) -> Result<(), NoMemory>
    ensures { OnOk result
        (text.new.items ≡ text.old.items ++ field_line name.now (callback_text ms codes.now)) }
{
    start_field(text, name)?;
    push_callback(text, plan, ms, codes)?;
    push(text, b",\n")
}

/// The codes of a device's idle callback, and none where it has no such callback.
fn idle_codes(row: &DeviceRow) -> &[i32]
    ensures { result.now ≡ idle_codes row.now.idle }
{
    match &row.idle {
        Some(codes) => codes.as_slice(),
        None => &[],
    }
}

/// Appends the callbacks of a device.
pub(crate) fn push_callbacks(
    text: &mut Vec<u8>,
    plan: &Plan,
    row: &DeviceRow,
) -> Result<(), NoMemory>
    ensures { OnOk result (text.new.items ≡ text.old.items ++ device_callbacks row.now) }
{
    push_callback_field(text, plan, b"idle", row.idle_ms, idle_codes(row))?;
    push_callback_field(
        text,
        plan,
        b"suspend",
        row.suspend_ms,
        row.suspend.as_slice(),
    )?;
    push_callback_field(text, plan, b"resume", row.resume_ms, row.resume.as_slice())
}
