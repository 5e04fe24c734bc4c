//! The list of the warnings.

ghost use Rattle.std.specs.Prelude.{◌≡◌, ◌++◌, IfOk, OnOk, true, length};
ghost use Rattle.std.specs.List.{list_all};
ghost use Rattle.pm_model.specs.IsPlan.{is_command};
ghost use Rattle.pm_say.specs.lints.Marks.{IsMarked};
ghost use Rattle.pm_say.specs.lints.Warnings.{of_caller, of_rows, warnings_of, when};

use crate::lints::Warning;
use crate::lints::commands::push_commands;
use crate::lints::devices::push_devices;
use crate::lints::links::push_links;
use crate::lints::marks::{Marks, marks_of};
use pm_base::NoMemory;
use pm_model::{CallerRow, Plan};
use std::alloc::Global;

/// The warnings of a plan, in the order of its rows: devices, links, and callers with their commands. It
/// goes over the scripts a few times, and over each script once for each of its gets and puts. Fails where
/// memory runs out.
#[tactic(auto, unfolding(crate::specs::lints::Warnings::warnings_of))]
pub fn warnings(alloc: Global, plan: &Plan) -> Result<Vec<Warning>, NoMemory>
    ensures { IfOk result (λ all. all.items ≡ warnings_of plan.now) }
{
    let marks = marks_of(alloc, plan)?;
    let mut out = Vec::new(alloc);
    push_devices(&mut out, plan, &marks)?;
    push_links(&mut out, plan)?;
    push_callers(alloc, &mut out, plan, &marks)?;
    Ok(out)
}

fn push_callers(
    alloc: Global,
    out: &mut Vec<Warning>,
    plan: &Plan,
    marks: &Marks,
) -> Result<(), NoMemory>
    requires { IsMarked plan.now marks.now }
    ensures { OnOk result (out.new.items ≡ out.old.items ++ of_rows (of_caller plan.now) plan.now.callers) }
{
    for (caller, row) in plan.callers.as_slice().iter().enumerate() {
        push_caller(alloc, out, plan, marks, caller, row)?;
    }
    Ok(())
}

#[tactic(auto, unfolding(crate::specs::lints::Warnings::of_caller))]
fn push_caller(
    alloc: Global,
    out: &mut Vec<Warning>,
    plan: &Plan,
    marks: &Marks,
    caller: usize,
    row: &CallerRow,
) -> Result<(), NoMemory>
    requires marked { IsMarked plan.now marks.now }
    requires lawful { list_all (is_command (length plan.now.devices)) row.now.script ≡ true }
    ensures { OnOk result (out.new.items ≡ out.old.items ++ of_caller plan.now caller row.now) }
{
    let script = row.script.as_slice();
    push_if(out, script.is_empty(), Warning::NoCommands { caller })?;
    push_commands(alloc, out, plan, marks, caller, script)
}

/// Appends a warning where it holds.
pub(crate) fn push_if(out: &mut Vec<Warning>, holds: bool, warning: Warning) -> Result<(), NoMemory>
    ensures { OnOk result (out.new.items ≡ out.old.items ++ when holds warning) }
{
    if holds {
        out.push(warning)?;
    }
    Ok(())
}
