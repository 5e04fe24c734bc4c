//! The programs of a driver's callers.

ghost use Rattle.std.specs.Prelude.{◌≡◌, ◌<◌, ◌≤◌, ◌^◌, All, IfErr, IfOk, Ok, length};
ghost use Rattle.pm_driver_script.specs.Calls.{FewNames};
ghost use Rattle.pm_driver_read.specs.Programs.{AreFewSteps, fault_from, made_or, program_or, programs_from};
ghost use Rattle.pm_driver_script.specs.Fits.{HasFewExits};
ghost use Rattle.pm_driver_script.specs.Programs.{program_of};
ghost use Rattle.pm_driver_read.specs.Refusals.{IsFaultOf};

use crate::around::Undo;
use crate::managed::ManagedStep;
use crate::refusal::{DriverFault, DriverRefusal, ProgramWhy, refused};
use crate::scripts::CallerSteps;
use crate::written::written;
use pm_driver_script::{Program, Script, ScriptNames, program_of, script_fault};
use pm_driver_text::ScriptStep;
use pm_model::Items;
use std::alloc::Global;

/// A caller's program, and the step of the file's script that each of its steps is of.
#[derive(Drop)]
pub struct LocatedProgram {
    pub program: Program,
    pub lines: Items<Option<u32>>,
}

/// The first script that is refused.
pub(crate) fn first_fault(names: &ScriptNames, scripts: &[CallerSteps]) -> Option<DriverRefusal>
    requires few { All AreFewSteps scripts.now }
    ensures { result ≡ fault_from names.now 0 scripts.now }
{
    for (number, caller) in scripts.iter().enumerate() {
        if let Some(refusal) = script_fault(names, caller.steps.as_slice()) {
            let why = ProgramWhy::Script { why: refusal.why };
            return Some(refused(number, refusal.step as usize, why));
        }
    }
    None
}

/// The program of a caller whose steps are these.
fn made_or(
    alloc: Global,
    names: &ScriptNames,
    number: usize,
    steps: &[ScriptStep],
    turns: u32,
) -> Result<Program, DriverFault>
    requires names { FewNames names.now }
    requires few { length steps.now < 2 ^ 31 }
    requires exits { HasFewExits steps.now }
    ensures ok { IfOk result (λ program. made_or number (program_of steps.now names.now turns) ≡ Ok program) }
    ensures fault { IfErr result (IsFaultOf (made_or number (program_of steps.now names.now turns))) }
{
    let script = Script {
        steps,
        names,
        turns,
    };
    match program_of(alloc, &script)? {
        Some(program) => Ok(program),
        None => Err(DriverFault::Refused {
            refusal: refused(number, 0, ProgramWhy::ManyPlaces),
        }),
    }
}

/// The program of a caller.
#[tactic(auto, using(crate::proofs::WrittenLemmas::few_written, crate::proofs::WrittenLemmas::short_written))]
fn program_or(
    alloc: Global,
    names: &ScriptNames,
    number: usize,
    managed: &[ManagedStep],
    caller: CallerSteps,
) -> Result<LocatedProgram, DriverFault>
    requires names { FewNames names.now }
    requires managed { length managed.now ≤ 64 }
    requires few { AreFewSteps caller }
    ensures ok { IfOk result (λ made. program_or names.now managed.now number caller.entry ≡ Ok made) }
    ensures fault { IfErr result (IsFaultOf (program_or names.now managed.now number caller.entry)) }
{
    let CallerSteps {
        name: _,
        steps,
        turns,
        core,
    } = caller;
    let undo = Undo {
        managed,
        caller: number,
    };
    let made = written(alloc, &core, &undo, steps.into_vec())?;
    let program = made_or(alloc, names, number, made.steps.as_slice(), turns)?;
    Ok(LocatedProgram {
        program,
        lines: Items::new(made.lines),
    })
}

/// The programs of callers.
#[tactic(auto, using(crate::proofs::ProgramLemmas::begin, crate::proofs::ProgramLemmas::read_refused, crate::proofs::ProgramLemmas::read_all))]
pub(crate) fn programs_of(
    alloc: Global,
    names: &ScriptNames,
    managed: &[ManagedStep],
    scripts: Vec<CallerSteps>,
) -> Result<Vec<LocatedProgram>, DriverFault>
    requires names { FewNames names.now }
    requires managed { length managed.now ≤ 64 }
    requires few { All AreFewSteps scripts.items }
    ensures ok { IfOk result (λ v. programs_from names.now managed.now 0 scripts.entry.items ≡ Ok v.items) }
    ensures fault { IfErr result (IsFaultOf (programs_from names.now managed.now 0 scripts.entry.items)) }
{
    let mut programs = Vec::with_capacity(alloc, scripts.len())?;
    for caller in scripts {
        let number = programs.len();
        programs.push(program_or(alloc, names, number, managed, caller)?)?;
    }
    Ok(programs)
}
