//! The steps of scripts.

ghost use Rattle.std.specs.Prelude.{◌≡◌, ◌<◌, ◌≤◌, ◌^◌, All, IfErr, IfOk, Ok, length, map};
ghost use Rattle.pm_base.specs.declared.limits.TheConstants.{MAX_DEVICES};
ghost use Rattle.pm_driver_script.specs.Fits.{HasFewExits};
ghost use Rattle.pm_driver_read.specs.Programs.{AreFewSteps, caller_steps, located, scripts_from, steps_from};
ghost use Rattle.pm_driver_read.specs.Refusals.{IsFaultOf};
ghost use Rattle.pm_driver_text.specs.Steps.{step_of};

use crate::around::Core;
use crate::keys::{core_of, turns_of};
use crate::refusal::{DriverFault, ProgramWhy, refused};
use crate::words::CallerWords;
use pm_driver_text::{ScriptStep, StepError, step_in};
use pm_model::{DeviceList, Items, Plan};
use pm_planread::tree::Text;
use pm_script::ScriptWord;
use std::alloc::Global;

/// A caller's steps, how often it runs them, and what the driver core calls around them.
#[derive(Drop)]
pub struct CallerSteps<'a> {
    pub name: ScriptWord<'a>,
    pub steps: Items<ScriptStep<'a>>,
    pub turns: u32,
    pub core: Option<Core>,
}

/// The step of a string of a caller's script.
pub(crate) fn located<'a>(
    alloc: Global,
    devices: &DeviceList,
    caller: usize,
    step: usize,
    text: &Text<'a>,
) -> Result<ScriptStep<'a>, DriverFault>
    requires few { length devices.now ≤ MAX_DEVICES }
    ensures ok { IfOk result (λ made. located caller step (step_of (map (λ row. row.name) devices.now) text.now) ≡ Ok made) }
    ensures exits { IfOk result (λ made. length made.exits ≤ 8) }
    ensures fault { IfErr result (IsFaultOf (located caller step (step_of (map (λ row. row.name) devices.now) text.now))) }
{
    match step_in(alloc, text.as_slice(), devices, None) {
        Ok(made) => Ok(made),
        Err(StepError::Refused { fault }) => Err(DriverFault::Refused {
            refusal: refused(caller, step, ProgramWhy::Step { fault }),
        }),
        Err(StepError::NoMemory) => Err(DriverFault::NoMemory),
    }
}

/// The steps of a caller's script, or the first that is none.
#[tactic(auto, using(crate::proofs::RowLemmas::begin, crate::proofs::RowLemmas::read_refused, crate::proofs::RowLemmas::read_all))]
fn steps_in<'a>(
    alloc: Global,
    devices: &DeviceList,
    caller: usize,
    texts: &[Text<'a>],
) -> Result<Vec<ScriptStep<'a>>, DriverFault>
    requires few { length devices.now ≤ MAX_DEVICES }
    ensures ok { IfOk result (λ v. steps_from (map (λ row. row.name) devices.now) caller 0 texts.now ≡ Ok v.items) }
    ensures exits { IfOk result (λ v. HasFewExits v.items) }
    ensures len { IfOk result (λ v. length v.items ≡ length texts.now) }
    ensures fault { IfErr result (IsFaultOf (steps_from (map (λ row. row.name) devices.now) caller 0 texts.now)) }
{
    let mut steps = Vec::with_capacity(alloc, texts.len())?;
    for (number, text) in texts.iter().enumerate() {
        steps.push(located(alloc, devices, caller, number, text)?)?;
    }
    Ok(steps)
}

/// The steps of a caller.
fn caller_steps<'a>(
    alloc: Global,
    plan: &Plan,
    number: usize,
    words: &CallerWords<'a>,
) -> Result<CallerSteps<'a>, DriverFault>
    requires few { length plan.now.devices ≤ MAX_DEVICES }
    requires links { length plan.now.links ≤ 1024 }
    requires texts { length words.now.script ≤ 1000 }
    ensures ok { IfOk result (λ made. caller_steps plan.now.devices plan.now.links number words.now ≡ Ok made) }
    ensures fits { IfOk result AreFewSteps }
    ensures fault { IfErr result (IsFaultOf (caller_steps plan.now.devices plan.now.links number words.now)) }
{
    let steps = steps_in(alloc, &plan.devices, number, words.script.as_slice())?;
    Ok(CallerSteps {
        name: ScriptWord::new(words.name.as_slice()),
        steps: Items::new(steps),
        turns: turns_of(words.times),
        core: core_of(alloc, plan, words)?,
    })
}

/// The steps of callers, or the first that is none.
#[tactic(auto, using(crate::proofs::CallerLemmas::begin, crate::proofs::CallerLemmas::read_refused, crate::proofs::CallerLemmas::read_all))]
pub(crate) fn scripts_in<'a>(
    alloc: Global,
    plan: &Plan,
    callers: &[CallerWords<'a>],
) -> Result<Vec<CallerSteps<'a>>, DriverFault>
    requires few { length plan.now.devices ≤ MAX_DEVICES }
    requires links { length plan.now.links ≤ 1024 }
    requires texts { All (λ c. length c.script ≤ 1000) callers.now }
    ensures ok { IfOk result (λ v. scripts_from plan.now.devices plan.now.links 0 callers.now ≡ Ok v.items) }
    ensures fits { IfOk result (λ v. All AreFewSteps v.items) }
    ensures len { IfOk result (λ v. length v.items ≡ length callers.now) }
    ensures fault { IfErr result (IsFaultOf (scripts_from plan.now.devices plan.now.links 0 callers.now)) }
{
    let mut scripts = Vec::with_capacity(alloc, callers.len())?;
    for (number, words) in callers.iter().enumerate() {
        scripts.push(caller_steps(alloc, plan, number, words)?)?;
    }
    Ok(scripts)
}
