//! Where a script goes on.

ghost use Rattle.std.specs.Prelude.{◌≡◌, ◌+◌, ◌<◌, ◌^◌, length};
ghost use Rattle.std.specs.Option.{option_copied};
ghost use Rattle.pm_driver_script.specs.Goals.{goal_from, goal_of_step, goto_label, has_label, is_here, stop_at, wanted};

use pm_driver_text::{ScriptStep, StepWhat};

/// Where a caller goes on in its script.
#[derive(Clone, Copy)]
pub enum Goal {
    /// A step, and which of its parts.
    At { step: u32, part: u32 },
    /// It has returned.
    Returned,
    /// It has failed.
    Failed,
}

/// Whether a step has this label.
pub(crate) fn has_label(label: &[u8], step: &ScriptStep) -> bool
    ensures { result ≡ has_label label.now step.now }
{
    match &step.label {
        Some(own) => own.as_slice() == label,
        None => false,
    }
}

/// Whether a step is the one that is looked for: the first with a label, or any.
fn is_here(want: Option<&[u8]>, step: &ScriptStep) -> bool
    ensures { result ≡ is_here (option_copied want.entry) step.now }
{
    match want {
        Some(label) => has_label(label, step),
        None => true,
    }
}

/// Where a caller stands that has come to a step; nowhere yet at a jump.
fn goal_of_step(what: &StepWhat, at: u32) -> Option<Goal>
    ensures { result ≡ goal_of_step what.now at }
{
    match what {
        StepWhat::Goto { .. } => None,
        StepWhat::Return => Some(Goal::Returned),
        StepWhat::Fail => Some(Goal::Failed),
        _ => Some(Goal::At { step: at, part: 0 }),
    }
}

/// The label of a jump.
pub(crate) fn goto_label<'a>(what: &StepWhat<'a>) -> Option<&'a [u8]>
    ensures { option_copied result ≡ goto_label what.now }
{
    match what {
        StepWhat::Goto { label } => Some(label.as_slice()),
        _ => None,
    }
}

fn stop_at(want: Option<&[u8]>, step: &ScriptStep, at: u32) -> Option<Goal>
    ensures { result ≡ stop_at (option_copied want.entry) step.now at }
{
    if is_here(want, step) {
        goal_of_step(&step.what, at)
    } else {
        None
    }
}

/// What is looked for behind a step.
fn wanted<'a>(want: Option<&'a [u8]>, step: &ScriptStep<'a>) -> Option<&'a [u8]>
    ensures { option_copied result ≡ wanted (option_copied want.entry) step.now }
{
    if is_here(want, step) {
        goto_label(&step.what)
    } else {
        want
    }
}

/// Where a caller goes on that looks for a label, or for the next step, from a step on, whose number is given. Jumps are
/// followed; behind the last step it has returned.
pub(crate) fn goal_from<'a>(want: Option<&'a [u8]>, steps: &[ScriptStep<'a>], at: u32) -> Goal
    requires { at + length steps.now < 2 ^ 32 }
    ensures { result ≡ goal_from (option_copied want.entry) steps.now at }
{
    let [step, behind @ ..] = steps else {
        return Goal::Returned;
    };
    match stop_at(want, step, at) {
        Some(goal) => goal,
        None => goal_from(wanted(want, step), behind, at + 1),
    }
}
