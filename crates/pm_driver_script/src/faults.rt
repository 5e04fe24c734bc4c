//! Why a script has no program.

ghost use Rattle.std.specs.Prelude.{◌≡◌, ◌<◌, ◌^◌, drop, length, option_and_then, take};
ghost use Rattle.std.specs.List.{list_any, slice_split};
ghost use Rattle.pm_driver_script.specs.Faults.{exits_fault, goto_fault, is_twice, label_fault, lacks_caller, script_fault, step_fault, what_fault};
ghost use Rattle.pm_driver_script.specs.Goals.{has_label};
ghost use Rattle.pm_driver_script.specs.Marks.{is_comma};

use crate::goals::{goto_label, has_label};
use crate::marks::cut;
use crate::names::{ScriptNames, place_in};
use pm_driver_text::{ScriptStep, StepExit, StepWhat};
use pm_script::ScriptWord;

/// Why a step of a script is refused (this project's own). The first that holds is named.
#[derive(Clone, Copy)]
pub enum ScriptWhy {
    /// Its label stands earlier.
    Twice,
    /// A caller that it stops isn't there.
    NoCaller,
    /// A label that it goes to isn't there.
    NoLabel,
    /// A label that it goes to isn't further on.
    Behind,
}

/// The first refusal of a script, and the step that is refused.
#[derive(Clone, Copy)]
pub struct ScriptRefusal {
    pub step: u32,
    pub why: ScriptWhy,
}

/// Whether a step has the label.
fn is_there(label: &[u8], steps: &[ScriptStep]) -> bool
    ensures { result ≡ list_any (has_label label.now) steps.now }
{
    steps.iter().any(|step| has_label(label, step))
}

/// Why a step can't go to a label.
fn label_fault(label: &[u8], steps: &[ScriptStep], behind: &[ScriptStep]) -> Option<ScriptWhy>
    ensures { result ≡ label_fault steps.now behind.now label.now }
{
    if is_there(label, behind) {
        None
    } else if is_there(label, steps) {
        Some(ScriptWhy::Behind)
    } else {
        Some(ScriptWhy::NoLabel)
    }
}

/// The first fault of exits.
fn exits_fault(exits: &[StepExit], steps: &[ScriptStep], behind: &[ScriptStep]) -> Option<ScriptWhy>
    ensures { result ≡ exits_fault steps.now behind.now exits.now }
{
    for exit in exits {
        let fault = label_fault(exit.label.as_slice(), steps, behind);
        if fault.is_some() {
            return fault;
        }
    }
    None
}

/// Why a jump can't be made.
fn goto_fault(what: &StepWhat, steps: &[ScriptStep], behind: &[ScriptStep]) -> Option<ScriptWhy>
    ensures { result ≡ goto_fault steps.now behind.now what.now }
{
    match goto_label(what) {
        Some(label) => label_fault(label, steps, behind),
        None => None,
    }
}

/// Whether a caller of a list, which commas part, isn't there.
fn lacks_caller(callers: &[ScriptWord], list: &[u8]) -> bool
    ensures { result ≡ lacks_caller callers.now (slice_split is_comma list.now) }
{
    let (name, behind) = cut(list);
    if place_in(callers, name).is_none() {
        return true;
    }
    match behind {
        Some(behind) => lacks_caller(callers, behind),
        None => false,
    }
}

/// Why a step can't do what it says.
fn what_fault(names: &ScriptNames, what: &StepWhat) -> Option<ScriptWhy>
    ensures { result ≡ what_fault names.now what.now }
{
    match what {
        StepWhat::Stop { callers } => {
            if lacks_caller(names.callers.as_slice(), callers.as_slice()) {
                Some(ScriptWhy::NoCaller)
            } else {
                None
            }
        }
        _ => None,
    }
}

/// Whether the label of a step stands in others.
fn is_twice(step: &ScriptStep, before: &[ScriptStep]) -> bool
    ensures { result ≡ is_twice before.now step.now }
{
    match &step.label {
        Some(label) => is_there(label.as_slice(), before),
        None => false,
    }
}

/// Why a step is refused among those of its script.
fn step_fault(
    names: &ScriptNames,
    steps: &[ScriptStep],
    before: &[ScriptStep],
    step: &ScriptStep,
    behind: &[ScriptStep],
) -> Option<ScriptWhy>
    ensures { result ≡ step_fault names.now steps.now before.now step.now behind.now }
{
    if is_twice(step, before) {
        return Some(ScriptWhy::Twice);
    }
    let fault = what_fault(names, &step.what);
    if fault.is_some() {
        return fault;
    }
    let fault = goto_fault(&step.what, steps, behind);
    if fault.is_some() {
        return fault;
    }
    exits_fault(step.exits.as_slice(), steps, behind)
}

/// The first refusal of a script: step by step, and of a step its label, what it does, and where it goes on.
pub fn script_fault(names: &ScriptNames, steps: &[ScriptStep]) -> Option<ScriptRefusal>
    requires { length steps.now < 2 ^ 31 }
    ensures { result ≡ script_fault names.now steps.now }
{
    for (number, step) in steps.iter().enumerate() {
        let (before, _) = steps.split_at(number);
        let (_, behind) = steps.split_at(number + 1);
        if let Some(why) = step_fault(names, steps, before, step, behind) {
            return Some(ScriptRefusal {
                step: number as u32,
                why,
            });
        }
    }
    None
}
