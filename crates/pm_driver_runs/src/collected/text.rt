//! The text of a plan.

ghost use Rattle.std.specs.Prelude.{◌≡◌, ◌++◌, IfOk, OnOk, Some};
ghost use Rattle.pm_driver_runs.specs.PlanText.{caller_section, command_line, command_lines, each_text, link_section, plan_head, plan_sections, plan_text, runtime_line, script_lines, trace_line};
ghost use Rattle.pm_driver_runs.specs.PlanText.{device_line, device_section, domain_line, domain_section, flag_line, name_line, number_line};

use crate::collected::device_text::push_device_section;
use crate::collected::keys::{
    push_device_line, push_domain_line, push_flag, push_name, push_number_line,
};
use pm_base::NoMemory;
use pm_linetext::{push, push_command};
use pm_model::{CallerRow, Command, DeviceRow, DomainRow, LinkRow, Plan};
use std::alloc::Global;

#[tactic(auto, unfolding(crate::specs::PlanText::domain_section))]
fn push_domain_section(text: &mut Vec<u8>, plan: &Plan, row: &DomainRow) -> Result<(), NoMemory>
    ensures { OnOk result (text.new.items ≡ text.old.items ++ domain_section plan.now row.now) }
{
    push(text, b"\n[[domain]]\n")?;
    push_name(text, b"name", row.name.as_slice())?;
    push_domain_line(text, plan, b"parent", row.parent)?;
    push_flag(text, b"always_on", row.always_on)
}

fn push_runtime(text: &mut Vec<u8>, is: bool) -> Result<(), NoMemory>
    ensures { OnOk result (text.new.items ≡ text.old.items ++ runtime_line is) }
{
    if is {
        Ok(())
    } else {
        push(text, b"pm_runtime = false\n")
    }
}

fn push_link_section(text: &mut Vec<u8>, plan: &Plan, row: &LinkRow) -> Result<(), NoMemory>
    ensures { OnOk result (text.new.items ≡ text.old.items ++ link_section plan.now row.now) }
{
    push(text, b"\n[[link]]\n")?;
    push_device_line(text, plan, b"consumer", Some(row.consumer))?;
    push_device_line(text, plan, b"supplier", Some(row.supplier))?;
    push_runtime(text, row.pm_runtime)?;
    push_flag(text, b"later", row.later)
}

fn push_command_line(text: &mut Vec<u8>, plan: &Plan, command: &Command) -> Result<(), NoMemory>
    ensures { OnOk result (text.new.items ≡ text.old.items ++ command_line plan.now command.now) }
{
    push(text, b"  \"")?;
    push_command(text, plan, command)?;
    push(text, b"\",\n")
}

fn push_commands(text: &mut Vec<u8>, plan: &Plan, script: &[Command]) -> Result<(), NoMemory>
    ensures { OnOk result (text.new.items ≡ text.old.items ++ each_text (command_line plan.now) script.now) }
{
    for command in script {
        push_command_line(text, plan, command)?;
    }
    Ok(())
}

fn push_command_lines(text: &mut Vec<u8>, plan: &Plan, script: &[Command]) -> Result<(), NoMemory>
    ensures { OnOk result (text.new.items ≡ text.old.items ++ command_lines plan.now script.now) }
{
    push(text, b"script = [\n")?;
    push_commands(text, plan, script)?;
    push(text, b"]\n")
}

fn push_script(text: &mut Vec<u8>, plan: &Plan, script: &[Command]) -> Result<(), NoMemory>
    ensures { OnOk result (text.new.items ≡ text.old.items ++ script_lines plan.now script.now) }
{
    match script {
        [] => Ok(()),
        [_, ..] => push_command_lines(text, plan, script),
    }
}

#[tactic(auto, unfolding(crate::specs::PlanText::caller_section))]
fn push_caller_section(text: &mut Vec<u8>, plan: &Plan, row: &CallerRow) -> Result<(), NoMemory>
    ensures { OnOk result (text.new.items ≡ text.old.items ++ caller_section plan.now row.now) }
{
    push(text, b"\n[[caller]]\n")?;
    push_name(text, b"name", row.name.as_slice())?;
    push_script(text, plan, row.script.as_slice())
}

fn push_domains(text: &mut Vec<u8>, plan: &Plan, rows: &[DomainRow]) -> Result<(), NoMemory>
    ensures { OnOk result (text.new.items ≡ text.old.items ++ each_text (domain_section plan.now) rows.now) }
{
    for row in rows {
        push_domain_section(text, plan, row)?;
    }
    Ok(())
}

fn push_devices(text: &mut Vec<u8>, plan: &Plan, rows: &[DeviceRow]) -> Result<(), NoMemory>
    ensures { OnOk result (text.new.items ≡ text.old.items ++ each_text (device_section plan.now) rows.now) }
{
    for row in rows {
        push_device_section(text, plan, row)?;
    }
    Ok(())
}

fn push_links(text: &mut Vec<u8>, plan: &Plan, rows: &[LinkRow]) -> Result<(), NoMemory>
    ensures { OnOk result (text.new.items ≡ text.old.items ++ each_text (link_section plan.now) rows.now) }
{
    for row in rows {
        push_link_section(text, plan, row)?;
    }
    Ok(())
}

fn push_callers(text: &mut Vec<u8>, plan: &Plan, rows: &[CallerRow]) -> Result<(), NoMemory>
    ensures { OnOk result (text.new.items ≡ text.old.items ++ each_text (caller_section plan.now) rows.now) }
{
    for row in rows {
        push_caller_section(text, plan, row)?;
    }
    Ok(())
}

fn push_trace(text: &mut Vec<u8>, trace: u32) -> Result<(), NoMemory>
    ensures { OnOk result (text.new.items ≡ text.old.items ++ trace_line trace) }
{
    if trace == 1 {
        Ok(())
    } else {
        push_number_line(text, b"trace", trace)
    }
}

#[tactic(auto, unfolding(crate::specs::PlanText::plan_head))]
fn push_head(text: &mut Vec<u8>, plan: &Plan) -> Result<(), NoMemory>
    ensures { OnOk result (text.new.items ≡ text.old.items ++ plan_head plan.now) }
{
    push_number_line(text, b"lines", plan.lines)?;
    push_trace(text, plan.trace)
}

fn push_sections(text: &mut Vec<u8>, plan: &Plan) -> Result<(), NoMemory>
    ensures { OnOk result (text.new.items ≡ text.old.items ++ plan_sections plan.now) }
{
    push_domains(text, plan, plan.domains.as_slice())?;
    push_devices(text, plan, plan.devices.as_slice())?;
    push_links(text, plan, plan.links.as_slice())?;
    push_callers(text, plan, plan.callers.as_slice())
}

/// The text of a plan. Fails where memory runs out.
#[tactic(auto, unfolding(crate::specs::PlanText::plan_text))]
pub fn plan_text(alloc: Global, plan: &Plan) -> Result<Vec<u8>, NoMemory>
    ensures { IfOk result (λ text. text.items ≡ plan_text plan.now) }
{
    let mut text = Vec::new(alloc);
    push_head(&mut text, plan)?;
    push_sections(&mut text, plan)?;
    Ok(text)
}
