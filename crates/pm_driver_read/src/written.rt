//! Scripts with the driver core's calls, and what `devm` undoes, written out.

ghost use Rattle.std.specs.Prelude.{◌≡◌, ◌+◌, ◌<◌, ◌≤◌, ◌^◌, ◌++◌, IfOk, OnOk, Some, drop, length, map};
ghost use Rattle.pm_driver_read.specs.Core.{before_of, failed_tail, returned_tail};
ghost use Rattle.pm_driver_text.specs.declared.whats.StepWhat.TheVariants.{DevmEnable};
ghost use Rattle.pm_driver_read.specs.Written.{around, around_lines, came, core_lines, gained, managed_as, own_lines, own_step, own_steps, redirected, redirected_what, step_lines, written_lines, written_steps};

use crate::around::{Core, FAILED, RETURNED, Undo, push_before, push_failed, push_returned};
use crate::managed::{flag_of, is_managed};
use crate::straight::straight_lines;
use pm_base::{DevId, NoMemory};
use pm_driver_text::{ScriptStep, StepWhat};
use pm_model::{Command, Helper, Items};
use pm_script::ScriptWord;
use std::alloc::Global;

/// The steps of a script with the driver core's calls around it.
#[derive(Drop)]
pub struct WrittenScript<'a> {
    pub steps: Vec<ScriptStep<'a>>,
    /// The step of the file's script that each is of.
    pub lines: Vec<Option<u32>>,
}

/// What a step does, where a return and a failure go on at the core's calls.
fn redirected_what<'a>(what: StepWhat<'a>) -> StepWhat<'a>
    ensures { result ≡ redirected_what what.entry }
{
    match what {
        StepWhat::Return => StepWhat::Goto {
            label: ScriptWord::new(RETURNED),
        },
        StepWhat::Fail => StepWhat::Goto {
            label: ScriptWord::new(FAILED),
        },
        other => other,
    }
}

fn redirected<'a>(step: ScriptStep<'a>) -> ScriptStep<'a>
    ensures { result ≡ redirected step.entry }
{
    ScriptStep {
        label: step.label,
        devm: step.devm,
        what: redirected_what(step.what),
        exits: step.exits,
    }
}

/// A step that sets a flag.
fn came<'a>(alloc: Global, label: Option<ScriptWord<'a>>, flag: &'a [u8]) -> ScriptStep<'a>
    ensures { result ≡ came label.entry flag.now }
{
    ScriptStep {
        label,
        devm: false,
        what: StepWhat::Set {
            flag: ScriptWord::new(flag),
        },
        exits: Items::new(Vec::new(alloc)),
    }
}

/// Appends where a driver comes by a step: its flag is set, and where the step has exits, it may fail before.
fn push_gained<'a>(
    alloc: Global,
    out: &mut Vec<ScriptStep<'a>>,
    flag: &'a [u8],
    step: ScriptStep<'a>,
) -> Result<(), NoMemory>
    ensures { OnOk result (out.new.items ≡ out.old.items ++ gained flag.now step.entry) }
{
    let ScriptStep {
        label,
        devm: _,
        what: _,
        exits,
    } = step;
    if exits.as_slice().is_empty() {
        out.push(came(alloc, label, flag))?;
        return Ok(());
    }
    out.push(ScriptStep {
        label,
        devm: false,
        what: StepWhat::Do {
            name: ScriptWord::new(b"devm"),
        },
        exits,
    })?;
    out.push(came(alloc, None, flag))?;
    Ok(())
}

/// Appends a step that enables a device, and sets a flag for what undoes it.
fn push_enabled<'a>(
    alloc: Global,
    out: &mut Vec<ScriptStep<'a>>,
    flag: &'a [u8],
    dev: DevId,
    step: ScriptStep<'a>,
) -> Result<(), NoMemory>
    ensures { OnOk result (out.new.items ≡ out.old.items ++ managed_as flag.now step.entry (DevmEnable dev)) }
{
    let ScriptStep {
        label,
        devm: _,
        what: _,
        exits,
    } = step;
    out.push(came(alloc, label, flag))?;
    out.push(ScriptStep {
        label: None,
        devm: false,
        what: StepWhat::Call {
            command: Command {
                helper: Helper::Enable,
                dev,
                number: 0,
            },
        },
        exits,
    })?;
    Ok(())
}

/// Appends a step that is undone where the driver goes.
fn push_managed<'a>(
    alloc: Global,
    out: &mut Vec<ScriptStep<'a>>,
    flag: &'a [u8],
    step: ScriptStep<'a>,
) -> Result<(), NoMemory>
    ensures { OnOk result (out.new.items ≡ out.old.items ++ managed_as flag.now step.entry step.entry.what) }
{
    if let StepWhat::DevmEnable { dev } = &step.what {
        let dev = *dev;
        return push_enabled(alloc, out, flag, dev, step);
    }
    push_gained(alloc, out, flag, step)
}

/// Appends what is written of a step of a caller.
fn push_own<'a>(
    alloc: Global,
    out: &mut Vec<ScriptStep<'a>>,
    undo: &Undo<'a, '_>,
    number: usize,
    step: ScriptStep<'a>,
) -> Result<(), NoMemory>
    requires { length undo.now.managed.now ≤ 64 }
    ensures { OnOk result (out.new.items ≡ out.old.items ++ own_step undo.now.managed.now undo.now.caller number step.entry) }
{
    if is_managed(&step) {
        let flag = flag_of(undo.managed, undo.caller, number);
        push_managed(alloc, out, flag, step)
    } else {
        out.push(redirected(step))?;
        Ok(())
    }
}

/// Appends a line for each step that has none yet.
fn push_lines(
    lines: &mut Vec<Option<u32>>,
    steps: &[ScriptStep],
    line: Option<u32>,
) -> Result<(), NoMemory>
    requires { length lines.now.items ≤ length steps.now }
    ensures { OnOk result (lines.new.items ≡ lines.old.items ++ map (λ s. line) (drop (length lines.old.items) steps.now)) }
{
    let (_, fresh) = steps.split_at(lines.len());
    for _step in fresh {
        lines.push(line)?;
    }
    Ok(())
}

/// Appends what is written of a step of a caller, and its line.
#[tactic(auto, using(crate::proofs::LineLemmas::fresh_lines))]
fn push_located<'a>(
    alloc: Global,
    out: &mut Vec<ScriptStep<'a>>,
    lines: &mut Vec<Option<u32>>,
    undo: &Undo<'a, '_>,
    number: usize,
    step: ScriptStep<'a>,
) -> Result<(), NoMemory>
    requires few { length undo.now.managed.now ≤ 64 }
    requires number { number < 2 ^ 32 }
    requires even { length lines.now.items ≡ length out.now.items }
    ensures steps { OnOk result (out.new.items ≡ out.old.items ++ own_step undo.now.managed.now undo.now.caller number step.entry) }
    ensures lines { OnOk result (lines.new.items ≡ lines.old.items ++ step_lines number (own_step undo.now.managed.now undo.now.caller number step.entry)) }
    ensures even { OnOk result (length lines.new.items ≡ length out.new.items) }
{
    push_own(alloc, out, undo, number, step)?;
    push_lines(lines, out.as_slice(), Some(number as u32))
}

/// Appends what is written of the steps of a caller, and their lines.
fn push_script<'a>(
    alloc: Global,
    out: &mut Vec<ScriptStep<'a>>,
    lines: &mut Vec<Option<u32>>,
    undo: &Undo<'a, '_>,
    steps: Vec<ScriptStep<'a>>,
) -> Result<(), NoMemory>
    requires few { length undo.now.managed.now ≤ 64 }
    requires short { length steps.items < 2 ^ 16 }
    requires even { length lines.now.items ≡ length out.now.items }
    ensures steps { OnOk result (out.new.items ≡ out.old.items ++ own_steps undo.now.managed.now undo.now.caller 0 steps.entry.items) }
    ensures lines { OnOk result (lines.new.items ≡ lines.old.items ++ own_lines undo.now.managed.now undo.now.caller 0 steps.entry.items) }
    ensures even { OnOk result (length lines.new.items ≡ length out.new.items) }
{
    let mut number = 0usize;
    for step in steps {
        push_located(alloc, out, lines, undo, number, step)?;
        number += 1;
    }
    Ok(())
}

/// Appends what stands before a script, and that it is of no line.
#[tactic(auto, using(crate::proofs::LineLemmas::fresh_lines))]
fn push_front<'a>(
    alloc: Global,
    out: &mut Vec<ScriptStep<'a>>,
    lines: &mut Vec<Option<u32>>,
    core: &Core,
) -> Result<(), NoMemory>
    requires { length lines.now.items ≡ length out.now.items }
    ensures steps { OnOk result (out.new.items ≡ out.old.items ++ before_of core.now) }
    ensures lines { OnOk result (lines.new.items ≡ lines.old.items ++ core_lines (before_of core.now)) }
    ensures even { OnOk result (length lines.new.items ≡ length out.new.items) }
{
    push_before(alloc, out, core)?;
    push_lines(lines, out.as_slice(), None)
}

/// Appends where a script has ended.
fn push_ends<'a>(
    alloc: Global,
    out: &mut Vec<ScriptStep<'a>>,
    core: &Core,
    undo: &Undo<'a, '_>,
) -> Result<(), NoMemory>
    requires { length undo.now.managed.now ≤ 64 }
    ensures { OnOk result (out.new.items ≡ out.old.items ++ (returned_tail undo.now.managed.now undo.now.caller core.now ++ failed_tail undo.now.managed.now undo.now.caller core.now)) }
{
    push_returned(alloc, out, core, undo)?;
    push_failed(alloc, out, core, undo)
}

/// Appends where a script has ended, and that it is of no line.
#[tactic(auto, using(crate::proofs::LineLemmas::fresh_lines))]
fn push_tails<'a>(
    alloc: Global,
    out: &mut Vec<ScriptStep<'a>>,
    lines: &mut Vec<Option<u32>>,
    core: &Core,
    undo: &Undo<'a, '_>,
) -> Result<(), NoMemory>
    requires few { length undo.now.managed.now ≤ 64 }
    requires even { length lines.now.items ≡ length out.now.items }
    ensures steps { OnOk result (out.new.items ≡ out.old.items ++ (returned_tail undo.now.managed.now undo.now.caller core.now ++ failed_tail undo.now.managed.now undo.now.caller core.now)) }
    ensures lines { OnOk result (lines.new.items ≡ lines.old.items ++ core_lines (returned_tail undo.now.managed.now undo.now.caller core.now ++ failed_tail undo.now.managed.now undo.now.caller core.now)) }
{
    push_ends(alloc, out, core, undo)?;
    push_lines(lines, out.as_slice(), None)
}

/// The script with the driver core's calls around it.
fn around<'a>(
    alloc: Global,
    core: &Core,
    undo: &Undo<'a, '_>,
    own: Vec<ScriptStep<'a>>,
) -> Result<WrittenScript<'a>, NoMemory>
    requires few { length undo.now.managed.now ≤ 64 }
    requires short { length own.items < 2 ^ 16 }
    ensures steps { IfOk result (λ made. made.steps.items ≡ around undo.now.managed.now undo.now.caller core.now own.entry.items) }
    ensures lines { IfOk result (λ made. made.lines.items ≡ around_lines undo.now.managed.now undo.now.caller core.now own.entry.items) }
{
    let mut steps = Vec::new(alloc);
    let mut lines = Vec::new(alloc);
    push_front(alloc, &mut steps, &mut lines, core)?;
    push_script(alloc, &mut steps, &mut lines, undo, own)?;
    push_tails(alloc, &mut steps, &mut lines, core, undo)?;
    Ok(WrittenScript { steps, lines })
}

/// The script of a caller as it is written out.
pub(crate) fn written<'a>(
    alloc: Global,
    core: &Option<Core>,
    undo: &Undo<'a, '_>,
    steps: Vec<ScriptStep<'a>>,
) -> Result<WrittenScript<'a>, NoMemory>
    requires few { length undo.now.managed.now ≤ 64 }
    requires short { length steps.items < 2 ^ 16 }
    ensures steps { IfOk result (λ made. made.steps.items ≡ written_steps undo.now.managed.now undo.now.caller core.now steps.entry.items) }
    ensures lines { IfOk result (λ made. made.lines.items ≡ written_lines undo.now.managed.now undo.now.caller core.now steps.entry.items) }
{
    match core {
        Some(core) => around(alloc, core, undo, steps),
        None => {
            let lines = straight_lines(alloc, steps.len())?;
            Ok(WrittenScript { steps, lines })
        }
    }
}
