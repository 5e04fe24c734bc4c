//! The refusals of a driver's callers and scripts besides the first (this project's own).
//!
//! `read_driver` decides. Here the words of each caller and each of its steps are looked at by themselves, and where all
//! steps of a script are read, the script. Contracts claim nothing of which refusals are found.

use crate::keys::words_fault;
use crate::plans::based;
use crate::refusal::{DriverFault, DriverRefusal, KeyRefusal, ProgramWhy, refused};
use crate::scripts::located;
use crate::words::{CallerWords, words_in_tree};
use pm_base::NoMemory;
use pm_driver_script::{ScriptNames, script_fault};
use pm_driver_text::ScriptStep;
use pm_model::{Items, Plan};
use pm_planread::tree::raw_plan;
use pm_script::ScriptWord;
use std::alloc::Global;
use toml::Table;

/// Refusals that are kept, at most.
const MOST: usize = 20;

/// Steps of a script that is looked at, at most.
const MOST_STEPS: usize = 1_000;

/// Whether two refusals are of one caller's words, or of one step.
fn is_same(first: DriverRefusal, second: DriverRefusal) -> bool {
    match first {
        DriverRefusal::Key { refusal } => match second {
            DriverRefusal::Key { refusal: other } => refusal.caller == other.caller,
            _ => false,
        },
        DriverRefusal::Program { refusal } => match second {
            DriverRefusal::Program { refusal: other } => {
                refusal.caller == other.caller && refusal.step == other.step
            }
            _ => false,
        },
        DriverRefusal::Plan { .. } | DriverRefusal::Device { .. } => false,
    }
}

/// Refusals but the one that is told already.
#[derive(Drop)]
struct FoundRefusals {
    refusals: Vec<DriverRefusal>,
    told: DriverRefusal,
}

/// Keeps a refusal, where it isn't told already and there is room.
fn keep(found: &mut FoundRefusals, refusal: DriverRefusal) -> Result<(), NoMemory> {
    if found.refusals.len() < MOST && !is_same(found.told, refusal) {
        found.refusals.push(refusal)?;
    }
    Ok(())
}

/// The steps of a script, where all are read. Those that aren't are kept.
#[tactic(auto, using(crate::proofs::ScriptLaw::few_devices))]
fn steps_of<'a>(
    alloc: Global,
    found: &mut FoundRefusals,
    plan: &Plan,
    caller: usize,
    words: &CallerWords<'a>,
) -> Result<Option<Vec<ScriptStep<'a>>>, NoMemory> {
    let mut steps = Vec::new(alloc);
    let mut all = true;
    for (number, text) in words.script.as_slice().iter().enumerate() {
        match located(alloc, &plan.devices, caller, number, text) {
            Ok(step) => {
                steps.push(step)?;
            }
            Err(DriverFault::Refused { refusal }) => {
                keep(found, refusal)?;
                all = false;
            }
            Err(DriverFault::NoMemory) => return Err(NoMemory),
        }
    }
    Ok(if all { Some(steps) } else { None })
}

/// Keeps the refusals of a caller's words and of its script.
fn keep_caller<'a>(
    alloc: Global,
    found: &mut FoundRefusals,
    plan: &Plan,
    names: &ScriptNames,
    callers: &[CallerWords<'a>],
    caller: usize,
    words: &CallerWords<'a>,
) -> Result<(), NoMemory> {
    if let Some(fault) = words_fault(&plan.devices, callers, words) {
        let refusal = KeyRefusal {
            why: fault.why,
            caller,
            part: fault.part,
        };
        keep(found, DriverRefusal::Key { refusal })?;
    }
    let Some(steps) = steps_of(alloc, found, plan, caller, words)? else {
        return Ok(());
    };
    if steps.len() > MOST_STEPS {
        return Ok(());
    }
    match script_fault(names, steps.as_slice()) {
        Some(fault) => {
            let why = ProgramWhy::Script { why: fault.why };
            keep(found, refused(caller, fault.step as usize, why))
        }
        None => Ok(()),
    }
}

/// The callers' names alone.
fn bare_names<'a>(alloc: Global, callers: &[CallerWords<'a>]) -> Result<ScriptNames<'a>, NoMemory> {
    let mut names = Vec::with_capacity(alloc, callers.len())?;
    for words in callers {
        names.push(ScriptWord::new(words.name.as_slice()))?;
    }
    Ok(ScriptNames {
        devices: 0,
        forced: Items::new(Vec::new(alloc)),
        flags: Items::new(Vec::new(alloc)),
        marks: Items::new(Vec::new(alloc)),
        locks: Items::new(Vec::new(alloc)),
        callers: Items::new(names),
    })
}

fn keep_callers(alloc: Global, found: &mut FoundRefusals, tree: &Table) -> Result<(), NoMemory> {
    let base = match based(alloc, raw_plan(alloc, tree)?) {
        Ok(plan) => plan,
        Err(DriverFault::Refused { .. }) => return Ok(()),
        Err(DriverFault::NoMemory) => return Err(NoMemory),
    };
    let callers = words_in_tree(alloc, tree)?;
    let names = bare_names(alloc, callers.as_slice())?;
    let all = callers.as_slice();
    for (caller, words) in all.iter().enumerate() {
        keep_caller(alloc, found, &base, &names, all, caller, words)?;
    }
    Ok(())
}

/// The refusals of a tree's callers and scripts but the one that is told already, caller by caller. Fails where memory
/// runs out.
pub fn further_refusals(
    alloc: Global,
    tree: &Table,
    told: DriverRefusal,
) -> Result<Vec<DriverRefusal>, NoMemory> {
    let mut found = FoundRefusals {
        refusals: Vec::new(alloc),
        told,
    };
    match told {
        DriverRefusal::Key { .. } | DriverRefusal::Program { .. } => {
            keep_callers(alloc, &mut found, tree)?;
        }
        DriverRefusal::Plan { .. } | DriverRefusal::Device { .. } => {}
    }
    let FoundRefusals { refusals, told: _ } = found;
    Ok(refusals)
}
