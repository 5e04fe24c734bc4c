//! `kernel PLAN`: writes the plan as a module for a kernel.

ghost use Rattle.pm_cmd_ends.specs.Ending.{taking};
ghost use Rattle.pm_io.specs.Faults.{Rose};
ghost use Rattle.pm_cmd_lab.specs.others.Commands.{KernelEnds};
ghost use Rattle.pm_cmd_lab.specs.ends.Coming.{Came};
ghost use Rattle.pm_cmd_lab.specs.ends.Ending.{Answered, OfThis};
ghost use Rattle.pm_cmd_lab.specs.ends.Reading.{OfPlan};

use crate::ends::{Fault, Outcome, finish, load, write_text};
use pm_io::{Files, Sink};
use pm_model::Plan;
use pm_module::module_text;
use std::alloc::Global;

/// Runs `kernel PLAN`: reads the plan and writes the text of its module to `out`. A message goes to `err`,
/// and the answer is the status that the program ends with.
pub fn kernel_top<F: Files, O: Sink, E: Sink>(
    alloc: Global,
    plan: &str,
    files: &mut F,
    out: &mut O,
    err: &mut E,
) -> u8
    ensures { Answered (OfPlan F.tells_all (F.told files.old plan.now) plan.now KernelEnds) result
        (OfThis plan.now (Rose (F.faults files.old) (F.faults files.new)))
        (taking O.taken O.faults out.old out.new) (taking E.taken E.faults err.old err.new) }
{
    finish(run_kernel(alloc, plan, files, out), plan, err)
}

/// Reads the plan and writes the text of its module.
fn run_kernel<F: Files, O: Sink>(
    alloc: Global,
    plan: &str,
    files: &mut F,
    out: &mut O,
) -> Result<Outcome, Fault>
    ensures { Came (OfPlan F.tells_all (F.told files.old plan.now) plan.now KernelEnds) result
        (Rose (F.faults files.old) (F.faults files.new))
        (taking O.taken O.faults out.old out.new) }
{
    let plan = load(alloc, plan, files)?;
    write_module(alloc, &plan, out)
}

/// Writes the text of a plan's module. Everything that takes memory comes before the first write.
fn write_module<O: Sink>(alloc: Global, plan: &Plan, out: &mut O) -> Result<Outcome, Fault>
    ensures { Came (KernelEnds plan.now) result ⊥ (taking O.taken O.faults out.old out.new) }
{
    let text = module_text(alloc, plan)?;
    write_text(text.as_slice(), Outcome::Done, out)
}
