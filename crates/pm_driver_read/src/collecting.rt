//! The names of all scripts.

ghost use Rattle.std.specs.Prelude.{◌≡◌, ◌≤◌, ◌++◌, [], IfOk, OnOk, length, map};
ghost use Rattle.pm_driver_read.specs.Managed.{all_managed, flag_names, force_names};
ghost use Rattle.pm_driver_read.specs.Programs.{all_forced, collected, few_forced, few_names, names_of};

use crate::managed::{flag_name, force_name};
use crate::refusal::ProgramWhy;
use crate::scripts::CallerSteps;
use pm_base::{DevId, MAX_DEVICES, NoMemory};
use pm_driver_script::{NameKind, ScriptNames, forced_in, names_in};
use pm_model::Items;
use pm_script::ScriptWord;
use std::alloc::Global;

/// The names of a kind in all scripts.
fn collected<'a>(
    alloc: Global,
    kind: NameKind,
    scripts: &[CallerSteps<'a>],
) -> Result<Items<ScriptWord<'a>>, NoMemory>
    ensures { IfOk result (λ names. names ≡ collected kind [] scripts.now) }
{
    let mut names = Vec::new(alloc);
    for caller in scripts {
        names_in(&mut names, kind, caller.steps.as_slice())?;
    }
    Ok(Items::new(names))
}

/// The devices that all scripts resume by force.
pub(crate) fn all_forced(alloc: Global, scripts: &[CallerSteps]) -> Result<Vec<DevId>, NoMemory>
    ensures { IfOk result (λ forced. forced.items ≡ all_forced [] scripts.now) }
{
    let mut forced = Vec::new(alloc);
    for caller in scripts {
        forced_in(&mut forced, caller.steps.as_slice())?;
    }
    Ok(forced)
}

/// Devices that may be resumed by force, at most.
pub const MAX_FORCED: usize = 64;

/// Why there are too many of them.
pub(crate) fn few_forced(forced: &[DevId]) -> Option<ProgramWhy>
    ensures { result ≡ few_forced forced.now }
{
    if forced.len() > MAX_FORCED {
        Some(ProgramWhy::ManyForced)
    } else {
        None
    }
}

/// Appends the flags of so many devices that are resumed by force.
#[tactic(auto, using(crate::proofs::LineLemmas::forces_more))]
fn push_force_names(names: &mut Vec<ScriptWord>, count: usize) -> Result<(), NoMemory>
    requires { count ≤ 64 }
    ensures { OnOk result (names.new.items ≡ names.old.items ++ force_names count) }
{
    for place in 0..count {
        names.push(ScriptWord::new(force_name(place)))?;
    }
    Ok(())
}

/// Appends the flags of so many steps that are undone.
#[tactic(auto, using(crate::proofs::LineLemmas::flags_more))]
fn push_flag_names(names: &mut Vec<ScriptWord>, count: usize) -> Result<(), NoMemory>
    requires { count ≤ 64 }
    ensures { OnOk result (names.new.items ≡ names.old.items ++ flag_names count) }
{
    for place in 0..count {
        names.push(ScriptWord::new(flag_name(place)))?;
    }
    Ok(())
}

/// Appends names.
fn push_words<'a>(names: &mut Vec<ScriptWord<'a>>, words: &[ScriptWord<'a>]) -> Result<(), NoMemory>
    ensures { OnOk result (names.new.items ≡ names.old.items ++ words.now) }
{
    for word in words {
        names.push(ScriptWord::new(word.as_slice()))?;
    }
    Ok(())
}

/// The flags of all scripts.
fn flags_of<'a>(
    alloc: Global,
    scripts: &[CallerSteps<'a>],
    forced: usize,
    managed: usize,
) -> Result<Items<ScriptWord<'a>>, NoMemory>
    requires forced { forced ≤ 64 }
    requires managed { managed ≤ 64 }
    ensures { IfOk result (λ names. names ≡ force_names forced ++ collected NameKind.Flag [] scripts.now ++ flag_names managed) }
{
    let own = collected(alloc, NameKind::Flag, scripts)?;
    let mut names = Vec::new(alloc);
    push_force_names(&mut names, forced)?;
    push_words(&mut names, own.as_slice())?;
    push_flag_names(&mut names, managed)?;
    Ok(Items::new(names))
}

/// The names of callers.
fn caller_names<'a>(
    alloc: Global,
    callers: &[CallerSteps<'a>],
) -> Result<Items<ScriptWord<'a>>, NoMemory>
    ensures { IfOk result (λ names. names ≡ map (λ c. c.name) callers.now) }
{
    let mut names = Vec::with_capacity(alloc, callers.len())?;
    for caller in callers {
        names.push(ScriptWord::new(caller.name.as_slice()))?;
    }
    Ok(Items::new(names))
}

/// The names of all scripts and callers.
pub(crate) fn names_of<'a>(
    alloc: Global,
    devices: u32,
    scripts: &[CallerSteps<'a>],
    forced: Vec<DevId>,
    managed: usize,
) -> Result<ScriptNames<'a>, NoMemory>
    requires all_forced { forced.items ≡ all_forced [] scripts.now }
    requires few_forced { length forced.items ≤ 64 }
    requires all { managed ≡ length (all_managed 0 scripts.now) }
    requires few { managed ≤ 64 }
    ensures { IfOk result (λ names. names ≡ names_of devices scripts.now) }
{
    let flags = flags_of(alloc, scripts, forced.len(), managed)?;
    Ok(ScriptNames {
        devices,
        forced: Items::new(forced),
        flags,
        marks: collected(alloc, NameKind::Mark, scripts)?,
        locks: collected(alloc, NameKind::Lock, scripts)?,
        callers: caller_names(alloc, scripts)?,
    })
}

/// Why there are too many names.
pub(crate) fn few_names(names: &ScriptNames) -> Option<ProgramWhy>
    requires { names.now.devices ≤ 1024 }
    ensures { result ≡ few_names names.now }
{
    if names.flags.as_slice().len() > MAX_DEVICES - names.devices as usize {
        Some(ProgramWhy::ManyFlags)
    } else if names.marks.as_slice().len() > 64 {
        Some(ProgramWhy::ManyMarks)
    } else if names.locks.as_slice().len() > 64 {
        Some(ProgramWhy::ManyLocks)
    } else {
        None
    }
}
