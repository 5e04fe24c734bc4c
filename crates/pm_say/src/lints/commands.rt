//! Warnings of commands.

ghost use Rattle.std.specs.Prelude.{◌≡◌, ◌++◌, List, OnOk, Some, length, slice_get, take, true};
ghost use Rattle.std.specs.List.{list_all};
ghost use Rattle.pm_model.specs.IsPlan.{is_command};
ghost use Rattle.pm_model.specs.declared.event.Command.{Command};
ghost use Rattle.pm_say.specs.lints.Commands.{is_dark, keeps_autosuspend, lacks_autosuspend};
ghost use Rattle.pm_say.specs.lints.Marks.{AreLit, IsMarked};
ghost use Rattle.pm_say.specs.lints.Warnings.{of_command, of_rows};

use crate::lints::Warning;
use crate::lints::counts::is_uneven;
use crate::lints::domains::{domain_of, follow};
use crate::lints::helpers::{Deed, is_disabling, is_put_autosuspend, is_set_active, is_set_delay};
use crate::lints::listed::push_if;
use crate::lints::marks::{Marks, has_mark, is_done};
use pm_base::NoMemory;
use pm_model::{Command, Plan};
use std::alloc::Global;

/// Appends the warnings of a caller's commands. Fails where memory runs out.
pub(crate) fn push_commands(
    alloc: Global,
    out: &mut Vec<Warning>,
    plan: &Plan,
    marks: &Marks,
    caller: usize,
    script: &[Command],
) -> Result<(), NoMemory>
    requires marked { IsMarked plan.now marks.now }
    requires lawful { list_all (is_command (length plan.now.devices)) script.now ≡ true }
    ensures { OnOk result (out.new.items ≡ out.old.items ++ of_rows (of_command plan.now caller script.now) script.now) }
{
    let mut on = Vec::from_slice(alloc, &marks.kept_on)?;
    for (place, command) in script.iter().enumerate() {
        push_command(out, plan, marks, &on, caller, script, place, command)?;
        follow(&mut on, plan, command);
    }
    Ok(())
}

/// Appends the warnings of the command at a place of a script, before which these domains are on.
#[tactic(auto, using(std::proofs::lemmas::Option::slice_get_within), unfolding(crate::specs::lints::Warnings::of_command))]
fn push_command(
    out: &mut Vec<Warning>,
    plan: &Plan,
    marks: &Marks,
    on: &[bool],
    caller: usize,
    script: &[Command],
    place: usize,
    command: &Command,
) -> Result<(), NoMemory>
    requires marked { IsMarked plan.now marks.now }
    requires lit { AreLit plan.now (take place script.now) on.now }
    requires lawful { list_all (is_command (length plan.now.devices)) script.now ≡ true }
    requires in_script { slice_get script.now place ≡ Some command.now }
    ensures { OnOk result (out.new.items ≡ out.old.items ++ of_command plan.now caller script.now place command.now) }
{
    let lacks = lacks_autosuspend(plan, marks, command);
    push_if(
        out,
        lacks,
        Warning::NoAutosuspend {
            caller,
            command: place,
        },
    )?;
    push_if(
        out,
        is_dark(plan, on, command),
        Warning::DomainOff {
            caller,
            command: place,
        },
    )?;
    push_if(
        out,
        is_uneven(script, place, command),
        Warning::Uneven {
            caller,
            command: place,
        },
    )?;
    let keeps = keeps_autosuspend(plan, marks, command);
    push_if(
        out,
        keeps,
        Warning::KeepsAutosuspend {
            caller,
            command: place,
        },
    )
}

fn keeps_autosuspend(plan: &Plan, marks: &Marks, command: &Command) -> bool
    requires marked { IsMarked plan.now marks.now }
    requires lawful { is_command (length plan.now.devices) command.now ≡ true }
    ensures { result ≡ keeps_autosuspend plan.now command.now }
{
    let device = command.dev.0 as usize;
    if is_disabling(command.helper) {
        is_done(marks, plan, Deed::UsesAutosuspend, device)
            && !is_done(marks, plan, Deed::StopsAutosuspend, device)
    } else {
        false
    }
}

fn lacks_autosuspend(plan: &Plan, marks: &Marks, command: &Command) -> bool
    requires marked { IsMarked plan.now marks.now }
    requires lawful { is_command (length plan.now.devices) command.now ≡ true }
    ensures { result ≡ lacks_autosuspend plan.now command.now }
{
    let device = command.dev.0 as usize;
    if is_set_delay(command.helper) {
        !is_done(marks, plan, Deed::UsesAutosuspend, device)
    } else if is_put_autosuspend(command.helper) {
        !is_done(marks, plan, Deed::UsesAutosuspend, device)
            && !is_done(marks, plan, Deed::SetsDelay, device)
    } else {
        false
    }
}

fn is_dark(plan: &Plan, on: &[bool], command: &Command) -> bool
    ensures { (before : List Command) → AreLit plan.now before on.now → result ≡ is_dark plan.now before command.now }
{
    if !is_set_active(command.helper) {
        return false;
    }
    match domain_of(plan, command.dev) {
        Some(domain) => !has_mark(on, domain.0 as usize),
        None => false,
    }
}
