//! The driver core's own calls around a script.

ghost use Rattle.std.specs.Prelude.{◌≡◌, ◌≤◌, ◌++◌, ◌∷◌, [], IfOk, OnOk, filter, length, map};
ghost use Rattle.std.specs.Option.{option_copied};
ghost use Rattle.pm_driver_read.specs.Core.{asking, asking_flag, behind_helpers, before_of, bus_start, calling, calling_all, calling_each, closing, ended, failed_tail, failing_helpers, front_helpers, label_behind, label_left, parent_list, put_upper, reinit, returned_tail, undo_all, undo_one, undos_of};
ghost use Rattle.pm_driver_read.specs.Managed.{is_undone_as, undone};

use crate::driver::Role;
use crate::managed::{ManagedStep, flag_of, is_undone_as, same_what};
use pm_base::{DevId, NoMemory};
use pm_driver_text::{CodeTest, Question, ScriptStep, StepExit, StepWhat};
use pm_model::{Command, Helper, Items};
use pm_script::ScriptWord;
use std::alloc::Global;

/// Where a driver's return goes on. No file can write a label of spaces.
pub(crate) const RETURNED: &[u8] = b" ";

/// Where its failure goes on.
pub(crate) const FAILED: &[u8] = b"  ";

/// Behind what the core does to a device that is left disabled: where the driver returned, and where it failed.
const SETTLED: &[u8] = b"   ";

const UNDONE: &[u8] = b"    ";

/// Behind a step that is undone.
const NEXT: &[u8] = b"     ";

/// A bus whose own calls stand around a driver's (`drivers/amba/bus.c`, `drivers/pci/pci-driver.c`).
#[derive(Clone, Copy)]
pub enum Bus {
    Amba,
    Pci,
}

/// The driver core's calls around a script (`drivers/base/dd.c`, `drivers/base/core.c`).
#[derive(Drop)]
pub struct Core {
    pub role: Role,
    pub dev: DevId,
    pub bus: Option<Bus>,
    /// The suppliers by links that resume them, in order.
    pub suppliers: Items<DevId>,
    pub parent: Option<DevId>,
}

/// A step that calls a helper.
fn calling<'a>(alloc: Global, label: Option<&'a [u8]>, helper: Helper, dev: DevId) -> ScriptStep<'a>
    ensures { result ≡ calling (option_copied label.entry) helper dev }
{
    step_of(
        alloc,
        label,
        StepWhat::Call {
            command: Command {
                helper,
                dev,
                number: 0,
            },
        },
    )
}

/// A step without exits.
fn step_of<'a>(alloc: Global, label: Option<&'a [u8]>, what: StepWhat<'a>) -> ScriptStep<'a>
    ensures { result ≡ ended (option_copied label.entry) what.entry }
{
    ScriptStep {
        label: word_of(label),
        devm: false,
        what,
        exits: Items::new(Vec::new(alloc)),
    }
}

fn word_of<'a>(label: Option<&'a [u8]>) -> Option<ScriptWord<'a>>
    ensures { result ≡ option_copied label.entry }
{
    match label {
        Some(bytes) => Some(ScriptWord::new(bytes)),
        None => None,
    }
}

/// A step that goes on at a label where a question is answered by 1.
fn asking<'a>(
    alloc: Global,
    label: Option<&'a [u8]>,
    question: Question,
    dev: DevId,
    skip: &'a [u8],
) -> Result<ScriptStep<'a>, NoMemory>
    ensures { IfOk result (λ step. step ≡ asking (option_copied label.entry) question dev skip.now) }
{
    let mut exits = Vec::new(alloc);
    exits.push(StepExit {
        test: CodeTest::Is { code: 1 },
        label: ScriptWord::new(skip),
    })?;
    Ok(ScriptStep {
        label: word_of(label),
        devm: false,
        what: StepWhat::Ask { question, dev },
        exits: Items::new(exits),
    })
}

/// Appends calls of helpers, the first of which has the label.
fn push_calls<'a>(
    alloc: Global,
    out: &mut Vec<ScriptStep<'a>>,
    label: Option<&'a [u8]>,
    dev: DevId,
    helpers: &[Helper],
) -> Result<(), NoMemory>
    ensures { OnOk result (out.new.items ≡ out.old.items ++ calling_all (option_copied label.entry) dev helpers.now) }
{
    let [helper, rest @ ..] = helpers else {
        return Ok(());
    };
    out.push(calling(alloc, label, *helper, dev))?;
    push_calls(alloc, out, None, dev, rest)
}

/// Appends calls of a helper of each device.
fn push_each<'a>(
    alloc: Global,
    out: &mut Vec<ScriptStep<'a>>,
    helper: Helper,
    devices: &[DevId],
) -> Result<(), NoMemory>
    ensures { OnOk result (out.new.items ≡ out.old.items ++ calling_each helper devices.now) }
{
    let [dev, rest @ ..] = devices else {
        return Ok(());
    };
    out.push(calling(alloc, None, helper, *dev))?;
    push_each(alloc, out, helper, rest)
}

/// Appends a call of a helper of the parent, where there is one.
fn push_parent<'a>(
    alloc: Global,
    out: &mut Vec<ScriptStep<'a>>,
    helper: Helper,
    parent: Option<DevId>,
) -> Result<(), NoMemory>
    ensures { OnOk result (out.new.items ≡ out.old.items ++ calling_each helper (parent_list parent)) }
{
    match parent {
        Some(dev) => {
            out.push(calling(alloc, None, helper, dev))?;
            Ok(())
        }
        None => Ok(()),
    }
}

/// What a bus calls before a driver is known to it.
fn bus_start(role: Role, bus: Option<Bus>) -> &'static [Helper]
    ensures { result.now ≡ bus_start role bus }
{
    match role {
        Role::Probe => match bus {
            Some(Bus::Pci) => &[Helper::Forbid, Helper::SetActive, Helper::Enable],
            Some(Bus::Amba) => &[],
            None => &[],
        },
        Role::Remove => &[],
        Role::Shutdown => &[],
    }
}

/// What is called of the device right before the script.
fn front_helpers(role: Role, bus: Option<Bus>) -> &'static [Helper]
    ensures { result.now ≡ front_helpers role bus }
{
    match role {
        Role::Probe => match bus {
            Some(Bus::Amba) => &[
                Helper::Barrier,
                Helper::GetNoresume,
                Helper::SetActive,
                Helper::Enable,
            ],
            Some(Bus::Pci) => &[Helper::Barrier, Helper::GetSync],
            None => &[Helper::Barrier],
        },
        Role::Remove => match bus {
            Some(_) => &[Helper::GetSync, Helper::PutSync, Helper::GetSync],
            None => &[Helper::GetSync, Helper::PutSync],
        },
        Role::Shutdown => &[Helper::GetNoresume, Helper::Barrier],
    }
}

/// What a bus calls behind a probe that failed.
fn failing_helpers(bus: Option<Bus>) -> &'static [Helper]
    ensures { result.now ≡ failing_helpers bus }
{
    match bus {
        Some(Bus::Amba) => &[Helper::Disable, Helper::SetSuspended, Helper::PutNoidle],
        Some(Bus::Pci) => &[Helper::PutSync],
        None => &[],
    }
}

/// What a bus calls behind a remove.
fn behind_helpers(bus: Option<Bus>) -> &'static [Helper]
    ensures { result.now ≡ behind_helpers bus }
{
    match bus {
        Some(Bus::Amba) => &[
            Helper::PutNoidle,
            Helper::Disable,
            Helper::SetSuspended,
            Helper::PutNoidle,
        ],
        Some(Bus::Pci) => &[Helper::PutNoidle, Helper::PutSync],
        None => &[],
    }
}

/// Appends what is called before a script.
pub(crate) fn push_before<'a>(
    alloc: Global,
    out: &mut Vec<ScriptStep<'a>>,
    core: &Core,
) -> Result<(), NoMemory>
    ensures { OnOk result (out.new.items ≡ out.old.items ++ before_of core.now) }
{
    push_calls(alloc, out, None, core.dev, bus_start(core.role, core.bus))?;
    if let Role::Probe = core.role {
        push_each(alloc, out, Helper::GetSync, core.suppliers.as_slice())?;
        push_parent(alloc, out, Helper::GetSync, core.parent)?;
    }
    push_calls(
        alloc,
        out,
        None,
        core.dev,
        front_helpers(core.role, core.bus),
    )
}

/// What is left of a label behind these.
fn label_left<'a>(label: &'a [u8], helpers: &[Helper]) -> Option<&'a [u8]>
    ensures { option_copied result ≡ label_left label.now helpers.now }
{
    if helpers.is_empty() {
        Some(label)
    } else {
        None
    }
}

/// A step that goes on behind those that undo something, where the flag of this isn't set.
fn asking_flag<'a>(
    alloc: Global,
    label: Option<&'a [u8]>,
    flag: &'a [u8],
) -> Result<ScriptStep<'a>, NoMemory>
    ensures { IfOk result (λ step. step ≡ asking_flag (option_copied label.entry) flag.now) }
{
    let mut exits = Vec::new(alloc);
    exits.push(StepExit {
        test: CodeTest::Is { code: 0 },
        label: ScriptWord::new(NEXT),
    })?;
    Ok(ScriptStep {
        label: word_of(label),
        devm: false,
        what: StepWhat::AskFlag {
            flag: ScriptWord::new(flag),
        },
        exits: Items::new(exits),
    })
}

/// Appends what undoes a step.
fn push_undone<'a>(
    alloc: Global,
    out: &mut Vec<ScriptStep<'a>>,
    what: &StepWhat<'a>,
) -> Result<(), NoMemory>
    ensures { OnOk result (out.new.items ≡ out.old.items ++ map (ended None) (undone what.now)) }
{
    match what {
        StepWhat::DevmEnable { dev } => {
            out.push(calling(alloc, None, Helper::DontUseAutosuspend, *dev))?;
            out.push(calling(alloc, None, Helper::Disable, *dev))?;
        }
        what => {
            out.push(step_of(alloc, None, same_what(what)))?;
        }
    }
    Ok(())
}

/// Appends what undoes a step where its flag is set, which is cleared.
fn push_undo<'a>(
    alloc: Global,
    out: &mut Vec<ScriptStep<'a>>,
    label: Option<&'a [u8]>,
    flag: &'a [u8],
    what: &StepWhat<'a>,
) -> Result<(), NoMemory>
    ensures { OnOk result (out.new.items ≡ out.old.items ++ undo_one flag.now (option_copied label.entry) what.now) }
{
    out.push(asking_flag(alloc, label, flag)?)?;
    let clear = StepWhat::Clear {
        flag: ScriptWord::new(flag),
    };
    out.push(step_of(alloc, None, clear))?;
    push_undone(alloc, out, what)
}

/// The steps of all scripts that are undone, and the number of the caller that undoes its own.
#[derive(Clone, Copy)]
pub(crate) struct Undo<'a, 'b> {
    pub managed: &'b [ManagedStep<'a>],
    pub caller: usize,
}

/// Appends what undoes those of these steps that a caller undoes, the last first. Gives the label that is left.
fn push_undos<'a>(
    alloc: Global,
    out: &mut Vec<ScriptStep<'a>>,
    label: Option<&'a [u8]>,
    core: &Core,
    undo: &Undo<'a, '_>,
    steps: &[ManagedStep<'a>],
) -> Result<Option<&'a [u8]>, NoMemory>
    requires { length undo.now.managed.now ≤ 64 }
    ensures steps { OnOk result (out.new.items ≡ out.old.items ++ undo_all undo.now.managed.now (option_copied label.entry) (filter (is_undone_as core.now.role undo.now.caller core.now.dev) steps.now)) }
    ensures left { IfOk result (λ left. option_copied left ≡ label_behind (option_copied label.entry) (filter (is_undone_as core.now.role undo.now.caller core.now.dev) steps.now)) }
{
    let [step, behind @ ..] = steps else {
        return Ok(label);
    };
    let label = push_undos(alloc, out, label, core, undo, behind)?;
    if !is_undone_as(core.role, undo.caller, core.dev, step) {
        return Ok(label);
    }
    let flag = flag_of(undo.managed, step.caller, step.step);
    push_undo(alloc, out, label, flag, &step.what)?;
    Ok(Some(NEXT))
}

/// Appends that a device is suspended where it is disabled and active (`pm_runtime_reinit`).
fn push_reinit<'a>(
    alloc: Global,
    out: &mut Vec<ScriptStep<'a>>,
    label: Option<&'a [u8]>,
    skip: &'a [u8],
    dev: DevId,
) -> Result<(), NoMemory>
    ensures { OnOk result (out.new.items ≡ out.old.items ++ reinit (option_copied label.entry) skip.now dev) }
{
    out.push(asking(alloc, label, Question::Enabled, dev, skip)?)?;
    out.push(asking(alloc, None, Question::StatusSuspended, dev, skip)?)?;
    out.push(calling(alloc, None, Helper::SetSuspended, dev))?;
    Ok(())
}

/// Appends what is called of a device that a driver gives back: what the bus calls, what undoes `devm` steps, and reinit.
fn push_closing<'a>(
    alloc: Global,
    out: &mut Vec<ScriptStep<'a>>,
    label: &'a [u8],
    skip: &'a [u8],
    core: &Core,
    undo: &Undo<'a, '_>,
    helpers: &[Helper],
) -> Result<(), NoMemory>
    requires { length undo.now.managed.now ≤ 64 }
    ensures { OnOk result (out.new.items ≡ out.old.items ++ closing undo.now.managed.now (undos_of undo.now.managed.now undo.now.caller core.now) label.now skip.now core.now.dev helpers.now) }
{
    push_calls(alloc, out, Some(label), core.dev, helpers)?;
    let left = label_left(label, helpers);
    let left = push_undos(alloc, out, left, core, undo, undo.managed)?;
    push_reinit(alloc, out, left, skip, core.dev)
}

/// Appends what follows a probe: the device may go idle, and what it hangs on is let go.
fn push_put_upper<'a>(
    alloc: Global,
    out: &mut Vec<ScriptStep<'a>>,
    label: &'a [u8],
    core: &Core,
) -> Result<(), NoMemory>
    ensures { OnOk result (out.new.items ≡ out.old.items ++ put_upper label.now core.now) }
{
    out.push(calling(alloc, Some(label), Helper::RequestIdle, core.dev))?;
    push_parent(alloc, out, Helper::Put, core.parent)?;
    push_each(alloc, out, Helper::Put, core.suppliers.as_slice())
}

/// Appends what is called where a driver returned.
pub(crate) fn push_returned<'a>(
    alloc: Global,
    out: &mut Vec<ScriptStep<'a>>,
    core: &Core,
    undo: &Undo<'a, '_>,
) -> Result<(), NoMemory>
    requires { length undo.now.managed.now ≤ 64 }
    ensures { OnOk result (out.new.items ≡ out.old.items ++ returned_tail undo.now.managed.now undo.now.caller core.now) }
{
    let label = match core.role {
        Role::Probe => {
            push_put_upper(alloc, out, RETURNED, core)?;
            None
        }
        Role::Remove => {
            let helpers = behind_helpers(core.bus);
            push_closing(alloc, out, RETURNED, SETTLED, core, undo, helpers)?;
            Some(SETTLED)
        }
        Role::Shutdown => Some(RETURNED),
    };
    out.push(step_of(alloc, label, StepWhat::Return))?;
    Ok(())
}

/// Appends what is called where a driver failed.
pub(crate) fn push_failed<'a>(
    alloc: Global,
    out: &mut Vec<ScriptStep<'a>>,
    core: &Core,
    undo: &Undo<'a, '_>,
) -> Result<(), NoMemory>
    requires { length undo.now.managed.now ≤ 64 }
    ensures { OnOk result (out.new.items ≡ out.old.items ++ failed_tail undo.now.managed.now undo.now.caller core.now) }
{
    let label = match core.role {
        Role::Probe => {
            let helpers = failing_helpers(core.bus);
            push_closing(alloc, out, FAILED, UNDONE, core, undo, helpers)?;
            push_put_upper(alloc, out, UNDONE, core)?;
            None
        }
        Role::Remove => {
            let helpers = behind_helpers(core.bus);
            push_closing(alloc, out, FAILED, UNDONE, core, undo, helpers)?;
            Some(UNDONE)
        }
        Role::Shutdown => Some(FAILED),
    };
    out.push(step_of(alloc, label, StepWhat::Fail))?;
    Ok(())
}
