//! The rows of the tables.

ghost use Rattle.std.specs.Prelude.{◌≡◌, ◌++◌, List, ℕ, OnOk};
ghost use Rattle.std.specs.Fmt.{signed_decimal};
ghost use Rattle.std.specs.List.{flat_map};
ghost use Rattle.pm_model.specs.Text.{names_of};
ghost use Rattle.pm_model.specs.declared.plan.Plan.{Plan};
ghost use Rattle.pm_module.specs.Rows.{called_text, caller_row, code_item, command_row, device_row, domain_row, link_row};

use crate::device::{push_callbacks, push_ends, push_flags};
use crate::pieces::{push_domain_place, push_name, push_name_field, push_truth};
use crate::words::{push_call_text, push_return_text};
use pm_base::NoMemory;
use pm_linetext::{push, push_helper, push_number, push_signed};
use pm_model::{CallerRow, Command, DeviceRow, DomainRow, LinkRow, Plan, Script};

/// What has a row in a table, or in a list of a row.
pub(crate) trait Row {
    /// The text of its row, in a module of the plan.
    ghost text_of: { Plan → Self → List ℕ };

    /// Appends the row.
    fn push_row(&self, text: &mut Vec<u8>, plan: &Plan) -> Result<(), NoMemory>
        ensures { OnOk result (text.new.items ≡ text.old.items ++ text_of plan.now self.now) };
}

/// Appends a row for each.
pub(crate) fn push_rows<R: Row>(text: &mut Vec<u8>, plan: &Plan, rows: &[R]) -> Result<(), NoMemory>
    ensures { OnOk result (text.new.items ≡ text.old.items ++ flat_map (R.text_of plan.now) rows.now) }
{
    for row in rows {
        row.push_row(text, plan)?;
    }
    Ok(())
}

impl Row for DomainRow {
    ghost text_of = { λ _ row. domain_row row };

    fn push_row(&self, text: &mut Vec<u8>, _plan: &Plan) -> Result<(), NoMemory> {
        push(text, b"\t{ .name = ")?;
        push_name(text, &self.name)?;
        push(text, b", .parent = ")?;
        push_domain_place(text, self.parent)?;
        push(text, b", .always_on = ")?;
        push_truth(text, self.always_on)?;
        push(text, b" },\n")
    }
}

impl Row for DeviceRow {
    ghost text_of = { λ _ row. device_row row };

    fn push_row(&self, text: &mut Vec<u8>, plan: &Plan) -> Result<(), NoMemory> {
        push(text, b"\t{\n")?;
        push_ends(text, self)?;
        push_flags(text, self)?;
        push_callbacks(text, plan, self)?;
        push(text, b"\t},\n")
    }
}

impl Row for LinkRow {
    ghost text_of = { λ _ row. link_row row };

    fn push_row(&self, text: &mut Vec<u8>, _plan: &Plan) -> Result<(), NoMemory> {
        push(text, b"\t{ .consumer = ")?;
        push_number(text, self.consumer.0 as u64)?;
        push(text, b", .supplier = ")?;
        push_number(text, self.supplier.0 as u64)?;
        push(text, b", .pm_runtime = ")?;
        push_truth(text, self.pm_runtime)?;
        push(text, b", .later = ")?;
        push_truth(text, self.later)?;
        push(text, b" },\n")
    }
}

impl Row for CallerRow {
    ghost text_of = { λ plan row. caller_row (names_of plan) row };

    fn push_row(&self, text: &mut Vec<u8>, plan: &Plan) -> Result<(), NoMemory> {
        push(text, b"\t{\n")?;
        push_name_field(text, &self.name)?;
        push(text, b"\t\t.script = (const struct lab_command[]){\n")?;
        push_script(text, plan, &self.script)?;
        push(text, b"\t\t\t{ }\n\t\t},\n\t},\n")
    }
}

/// Appends a row for each command.
fn push_script(text: &mut Vec<u8>, plan: &Plan, script: &Script) -> Result<(), NoMemory>
    ensures { OnOk result
        (text.new.items ≡ text.old.items ++ flat_map (command_row (names_of plan.now)) script.now) }
{
    push_rows(text, plan, script.as_slice())
}

/// Appends what a command calls: its helper, its device and its number.
fn push_called(text: &mut Vec<u8>, command: &Command) -> Result<(), NoMemory>
    ensures { OnOk result (text.new.items ≡ text.old.items ++ called_text command.now) }
{
    push_helper(text, command.helper)?;
    push(text, b", ")?;
    push_number(text, command.dev.0 as u64)?;
    push(text, b", ")?;
    push_operand_number(text, command)
}

/// Appends the number of a command.
fn push_operand_number(text: &mut Vec<u8>, command: &Command) -> Result<(), NoMemory>
    ensures { OnOk result (text.new.items ≡ text.old.items ++ signed_decimal command.now.number) }
{
    push_signed(text, command.number)
}

/// In a script.
impl Row for Command {
    ghost text_of = { λ plan command. command_row (names_of plan) command };

    fn push_row(&self, text: &mut Vec<u8>, plan: &Plan) -> Result<(), NoMemory> {
        push(text, b"\t\t\t{ LAB_")?;
        push_called(text, self)?;
        push(text, b", ")?;
        push_call_text(text, plan, self)?;
        push(text, b", ")?;
        push_return_text(text, plan, self)?;
        push(text, b" },\n")
    }
}

/// A code that a callback answers.
impl Row for i32 {
    ghost text_of = { λ _ code. code_item code };

    fn push_row(&self, text: &mut Vec<u8>, _plan: &Plan) -> Result<(), NoMemory> {
        push_signed(text, i64::from(*self))?;
        push(text, b", ")
    }
}
