//! The text of a device of a plan.

ghost use Rattle.std.specs.Prelude.{◌≡◌, ◌++◌, OnOk};
ghost use Rattle.pm_driver_runs.specs.PlanText.{device_codes, device_marks, device_places, device_section, device_times, idle_line};

use crate::collected::keys::{
    push_codes, push_device_line, push_domain_line, push_flag, push_ms, push_name, push_some_codes,
};
use pm_base::NoMemory;
use pm_linetext::push;
use pm_model::{Codes, DeviceRow, Plan};

fn push_places(text: &mut Vec<u8>, plan: &Plan, row: &DeviceRow) -> Result<(), NoMemory>
    ensures { OnOk result (text.new.items ≡ text.old.items ++ device_places plan.now row.now) }
{
    push_name(text, b"name", row.name.as_slice())?;
    push_device_line(text, plan, b"parent", row.parent)?;
    push_domain_line(text, plan, b"domain", row.domain)
}

fn push_marks(text: &mut Vec<u8>, row: &DeviceRow) -> Result<(), NoMemory>
    ensures { OnOk result (text.new.items ≡ text.old.items ++ device_marks row.now) }
{
    push_flag(text, b"ignore_children", row.ignore_children)?;
    push_flag(text, b"no_callbacks", row.no_callbacks)?;
    push_flag(text, b"busy", row.busy)
}

fn push_idle(text: &mut Vec<u8>, idle: &Option<Codes>) -> Result<(), NoMemory>
    ensures { OnOk result (text.new.items ≡ text.old.items ++ idle_line idle.now) }
{
    match idle {
        Some(codes) => push_codes(text, b"idle", codes.as_slice()),
        None => Ok(()),
    }
}

fn push_answers(text: &mut Vec<u8>, row: &DeviceRow) -> Result<(), NoMemory>
    ensures { OnOk result (text.new.items ≡ text.old.items ++ device_codes row.now) }
{
    push_idle(text, &row.idle)?;
    push_some_codes(text, b"suspend", row.suspend.as_slice())?;
    push_some_codes(text, b"resume", row.resume.as_slice())
}

fn push_times(text: &mut Vec<u8>, row: &DeviceRow) -> Result<(), NoMemory>
    ensures { OnOk result (text.new.items ≡ text.old.items ++ device_times row.now) }
{
    push_ms(text, b"idle_ms", row.idle_ms)?;
    push_ms(text, b"suspend_ms", row.suspend_ms)?;
    push_ms(text, b"resume_ms", row.resume_ms)
}

/// Appends the section of a device. Fails where memory runs out.
pub fn push_device_section(text: &mut Vec<u8>, plan: &Plan, row: &DeviceRow) -> Result<(), NoMemory>
    ensures { OnOk result (text.new.items ≡ text.old.items ++ device_section plan.now row.now) }
{
    push(text, b"\n[[device]]\n")?;
    push_places(text, plan, row)?;
    push_marks(text, row)?;
    push_answers(text, row)?;
    push_times(text, row)
}
