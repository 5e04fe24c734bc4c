//! The `devm` steps of probes.

ghost use Rattle.std.specs.Prelude.{◌≡◌, ◌<◌, ◌≤◌, ◌++◌, IfOk, IfSome, OnOk, length, map, option_map, position};
ghost use Rattle.pm_driver_read.specs.Managed.{all_managed, devm_fault, enables, few_managed, flag_name, flag_of, force_name, is_bound_probe, is_jump, is_lost_devm, is_managed, is_probe_role, is_step_of, is_undone_as, managed_by, managed_from, managed_if};

use crate::around::Core;
use crate::driver::Role;
use crate::refusal::{DriverRefusal, ProgramWhy, refused};
use crate::scripts::CallerSteps;
use pm_base::{DevId, NoMemory};
use pm_driver_text::{ScriptStep, StepWhat};
use pm_script::ScriptWord;
use std::alloc::Global;

/// How many steps of a file may be undone where its driver goes.
pub const MAX_MANAGED: usize = 64;

/// The names of their flags, one behind the other.
const FLAGS: &[u8] =
    b"devm-00devm-01devm-02devm-03devm-04devm-05devm-06devm-07devm-08devm-09devm-10devm-11devm-12devm-13devm-14devm-15devm-16devm-17devm-18devm-19devm-20devm-21devm-22devm-23devm-24devm-25devm-26devm-27devm-28devm-29devm-30devm-31devm-32devm-33devm-34devm-35devm-36devm-37devm-38devm-39devm-40devm-41devm-42devm-43devm-44devm-45devm-46devm-47devm-48devm-49devm-50devm-51devm-52devm-53devm-54devm-55devm-56devm-57devm-58devm-59devm-60devm-61devm-62devm-63";

/// And those of the flags of devices that are resumed by force.
const FORCE_FLAGS: &[u8] =
    b"force-00force-01force-02force-03force-04force-05force-06force-07force-08force-09force-10force-11force-12force-13force-14force-15force-16force-17force-18force-19force-20force-21force-22force-23force-24force-25force-26force-27force-28force-29force-30force-31force-32force-33force-34force-35force-36force-37force-38force-39force-40force-41force-42force-43force-44force-45force-46force-47force-48force-49force-50force-51force-52force-53force-54force-55force-56force-57force-58force-59force-60force-61force-62force-63";

/// A step of a probe that is undone where the driver goes: `devm WHAT`, or `devm_enable`.
#[derive(Drop)]
pub struct ManagedStep<'a> {
    pub caller: usize,
    pub step: usize,
    /// The device that the probe binds.
    pub dev: DevId,
    pub what: StepWhat<'a>,
}

fn enables(what: &StepWhat) -> bool
    ensures { result ≡ enables what.now }
{
    matches!(what, StepWhat::DevmEnable { .. })
}

/// Whether a step is undone where the driver goes.
pub(crate) fn is_managed(step: &ScriptStep) -> bool
    ensures { result ≡ is_managed step.now }
{
    step.devm || enables(&step.what)
}

fn is_probe_role(role: Role) -> bool
    ensures { result ≡ is_probe_role role }
{
    matches!(role, Role::Probe)
}

fn is_bound_probe(core: &Option<Core>) -> bool
    ensures { result ≡ is_bound_probe core.now }
{
    match core {
        Some(core) => is_probe_role(core.role),
        None => false,
    }
}

fn is_jump(what: &StepWhat) -> bool
    ensures { result ≡ is_jump what.now }
{
    matches!(
        what,
        StepWhat::Goto { .. } | StepWhat::Return | StepWhat::Fail
    )
}

/// Whether a step that is undone stands where nothing undoes it, or is a jump or an end.
fn is_lost_devm(core: &Option<Core>, step: &ScriptStep) -> bool
    ensures { result ≡ is_lost_devm core.now step.now }
{
    is_managed(step) && (!is_bound_probe(core) || is_jump(&step.what))
}

fn first_lost(core: &Option<Core>, steps: &[ScriptStep]) -> Option<usize>
    ensures { result ≡ position (is_lost_devm core.now) steps.now }
{
    for (number, step) in steps.iter().enumerate() {
        if is_lost_devm(core, step) {
            return Some(number);
        }
    }
    None
}

/// The first step that can't be undone.
pub(crate) fn devm_fault(scripts: &[CallerSteps]) -> Option<DriverRefusal>
    ensures { result ≡ devm_fault 0 scripts.now }
{
    for (number, caller) in scripts.iter().enumerate() {
        if let Some(step) = first_lost(&caller.core, caller.steps.as_slice()) {
            return Some(refused(number, step, ProgramWhy::Devm));
        }
    }
    None
}

/// Why there are too many steps that are undone.
pub(crate) fn few_managed(managed: &[ManagedStep]) -> Option<ProgramWhy>
    ensures { result ≡ few_managed managed.now }
{
    if managed.len() > MAX_MANAGED {
        Some(ProgramWhy::ManyDevm)
    } else {
        None
    }
}

fn copied<'a>(word: &ScriptWord<'a>) -> ScriptWord<'a>
    ensures { result ≡ word.now }
{
    ScriptWord::new(word.as_slice())
}

/// What another step does too.
pub(crate) fn same_what<'a>(what: &StepWhat<'a>) -> StepWhat<'a>
    ensures { result ≡ what.now }
{
    match what {
        StepWhat::Call { command } => StepWhat::Call { command: *command },
        StepWhat::ResumeAndGet { dev } => StepWhat::ResumeAndGet { dev: *dev },
        StepWhat::Touch { dev, ms } => StepWhat::Touch { dev: *dev, ms: *ms },
        StepWhat::Do { name } => StepWhat::Do { name: copied(name) },
        StepWhat::Ask { question, dev } => StepWhat::Ask {
            question: *question,
            dev: *dev,
        },
        StepWhat::AskFlag { flag } => StepWhat::AskFlag { flag: copied(flag) },
        StepWhat::Set { flag } => StepWhat::Set { flag: copied(flag) },
        StepWhat::Clear { flag } => StepWhat::Clear { flag: copied(flag) },
        StepWhat::Wait { flag, set } => StepWhat::Wait {
            flag: copied(flag),
            set: *set,
        },
        StepWhat::Mark { name } => StepWhat::Mark { name: copied(name) },
        StepWhat::Stop { callers } => StepWhat::Stop {
            callers: copied(callers),
        },
        StepWhat::Lock { name } => StepWhat::Lock { name: copied(name) },
        StepWhat::Unlock { name } => StepWhat::Unlock { name: copied(name) },
        StepWhat::Goto { label } => StepWhat::Goto {
            label: copied(label),
        },
        StepWhat::Return => StepWhat::Return,
        StepWhat::Fail => StepWhat::Fail,
        StepWhat::DevmEnable { dev } => StepWhat::DevmEnable { dev: *dev },
        StepWhat::ForceSuspend { dev } => StepWhat::ForceSuspend { dev: *dev },
        StepWhat::ForceResume { dev } => StepWhat::ForceResume { dev: *dev },
    }
}

/// Appends a step that is undone.
fn push_managed<'a>(
    managed: &mut Vec<ManagedStep<'a>>,
    caller: usize,
    dev: DevId,
    number: usize,
    step: &ScriptStep<'a>,
) -> Result<(), NoMemory>
    ensures { OnOk result (managed.new.items ≡ managed.old.items ++ managed_if caller dev number step.now) }
{
    if is_managed(step) {
        managed.push(ManagedStep {
            caller,
            step: number,
            dev,
            what: same_what(&step.what),
        })?;
    }
    Ok(())
}

/// Appends those of a script.
fn push_script<'a>(
    managed: &mut Vec<ManagedStep<'a>>,
    caller: usize,
    dev: DevId,
    steps: &[ScriptStep<'a>],
) -> Result<(), NoMemory>
    ensures { OnOk result (managed.new.items ≡ managed.old.items ++ managed_from caller dev 0 steps.now) }
{
    for (number, step) in steps.iter().enumerate() {
        push_managed(managed, caller, dev, number, step)?;
    }
    Ok(())
}

/// Appends those of a caller.
fn push_caller<'a>(
    managed: &mut Vec<ManagedStep<'a>>,
    number: usize,
    caller: &CallerSteps<'a>,
) -> Result<(), NoMemory>
    ensures { OnOk result (managed.new.items ≡ managed.old.items ++ managed_by number caller.now) }
{
    match &caller.core {
        Some(core) => push_script(managed, number, core.dev, caller.steps.as_slice()),
        None => Ok(()),
    }
}

/// The steps of all scripts that are undone, in order.
pub(crate) fn all_managed<'a>(
    alloc: Global,
    scripts: &[CallerSteps<'a>],
) -> Result<Vec<ManagedStep<'a>>, NoMemory>
    ensures { IfOk result (λ v. v.items ≡ all_managed 0 scripts.now) }
{
    let mut managed = Vec::new(alloc);
    for (number, caller) in scripts.iter().enumerate() {
        push_caller(&mut managed, number, caller)?;
    }
    Ok(managed)
}

/// The name of the flag of a number.
#[tactic(auto, unfolding(crate::specs::Managed::flag_name))]
pub(crate) fn flag_name(place: usize) -> &'static [u8]
    requires { place < 64 }
    ensures { result.now ≡ flag_name place }
{
    FLAGS.split_at(7 * place).1.split_at(7).0
}

/// The name of the flag of a device that is resumed by force.
#[tactic(auto, unfolding(crate::specs::Managed::force_name))]
pub(crate) fn force_name(place: usize) -> &'static [u8]
    requires { place < 64 }
    ensures { result.now ≡ force_name place }
{
    FORCE_FLAGS.split_at(8 * place).1.split_at(8).0
}

fn is_step_of(caller: usize, step: usize, managed: &ManagedStep) -> bool
    ensures { result ≡ is_step_of caller step managed.now }
{
    managed.caller == caller && managed.step == step
}

fn place_of(managed: &[ManagedStep], caller: usize, step: usize) -> Option<usize>
    ensures place { result ≡ position (is_step_of caller step) managed.now }
    ensures below { IfSome result (λ place. place < length managed.now) }
{
    for (place, other) in managed.iter().enumerate() {
        if is_step_of(caller, step, other) {
            return Some(place);
        }
    }
    None
}

/// The flag of a step.
pub(crate) fn flag_of(managed: &[ManagedStep], caller: usize, step: usize) -> &'static [u8]
    requires { length managed.now ≤ 64 }
    ensures { result.now ≡ flag_of managed.now caller step }
{
    flag_name(place_of(managed, caller, step).unwrap_or(0))
}

/// Whether a caller undoes a step where it closes its device: a probe its own, a remove those of the probes of its device.
pub(crate) fn is_undone_as(role: Role, caller: usize, dev: DevId, managed: &ManagedStep) -> bool
    ensures { result ≡ is_undone_as role caller dev managed.now }
{
    match role {
        Role::Probe => managed.caller == caller,
        Role::Remove => managed.dev.0 == dev.0,
        Role::Shutdown => false,
    }
}
