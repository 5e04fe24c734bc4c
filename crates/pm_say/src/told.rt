//! The text that is told.

ghost use Rattle.std.specs.Prelude.{◌≡◌, ◌++◌, IfErr, IfOk, Ok, OnOk, decimal};
ghost use Rattle.pm_planread.specs.PlanOf.{contents_of, plan_of};
ghost use Rattle.pm_say.specs.Counts.{counts_told};
ghost use Rattle.pm_say.specs.Says.{IsNoPlan, Says, TellsOf};

use crate::further::Refusal;
use crate::refused::refused_text;
use crate::warned::told_plan;
use pm_base::NoMemory;
use pm_model::Plan;
use pm_planread::{PlanFault, read_plan};
use pm_spans::source::{push, push_number};
use std::alloc::Global;

/// What a plan came to.
#[derive(Clone, Copy, Debug, PartialEq, Eq)]
pub enum Kind {
    /// It is refused.
    Refused,
    /// It is a plan, and nothing in it looks wrong.
    Clean,
    /// It is a plan, and something in it looks wrong.
    Warned,
}

/// What is told of a plan.
#[derive(Drop)]
pub struct Said {
    pub text: Vec<u8>,
    pub kind: Kind,
}

/// Why bytes give no plan.
#[derive(Drop)]
pub enum NoPlan {
    /// It is refused, and this tells of it.
    Refused { text: Vec<u8> },
    /// Memory ran out.
    NoMemory,
}

/// Tells of the bytes of a plan's file: of a refused one the first refusal, which is that of
/// `read_plan`, with its place, the line that it stands on and what may have been meant; of a plan
/// what looks wrong in it, and how much it has. `file` is how the file is called. Fails where memory runs
/// out.
pub fn say(alloc: Global, file: &[u8], bytes: &[u8]) -> Result<Said, NoMemory>
    ensures { IfOk result (Says file.now bytes.now) }
{
    match read_or_tell(alloc, file, bytes) {
        Ok(plan) => told_plan(alloc, file, bytes, &plan),
        Err(NoPlan::Refused { text }) => Ok(Said {
            text,
            kind: Kind::Refused,
        }),
        Err(NoPlan::NoMemory) => Err(NoMemory),
    }
}

/// Reads a plan from the bytes of its file, or tells why it is refused. `file` is how the file is called.
pub fn read_or_tell(alloc: Global, file: &[u8], bytes: &[u8]) -> Result<Plan, NoPlan>
    ensures plan { IfOk result (λ plan. plan_of bytes.now ≡ Ok (contents_of plan)) }
    ensures told { IfErr result (IsNoPlan file.now bytes.now) }
{
    match read_plan(alloc, bytes) {
        Ok(plan) => Ok(plan),
        Err(fault) => Err(told_of(alloc, file, bytes, fault)),
    }
}

/// What is told of a fault of these bytes.
fn told_of(alloc: Global, file: &[u8], bytes: &[u8], fault: PlanFault) -> NoPlan
    ensures { TellsOf file.now bytes.now fault result }
{
    match fault {
        PlanFault::Refused {
            why,
            section,
            item,
            part,
        } => {
            let refusal = Refusal {
                why,
                section,
                item,
                part,
            };
            match refused_text(alloc, file, bytes, refusal) {
                Ok(text) => NoPlan::Refused { text },
                Err(NoMemory) => NoPlan::NoMemory,
            }
        }
        PlanFault::NoMemory => NoPlan::NoMemory,
    }
}

/// The line of how much a plan has.
#[tactic(auto, unfolding(crate::specs::Counts::counts_told))]
pub(crate) fn counts_text(
    alloc: Global,
    file: &[u8],
    plan: &Plan,
    islands: u32,
) -> Result<Vec<u8>, NoMemory>
    ensures { IfOk result (λ text. text.items ≡ counts_told file.now plan.now islands) }
{
    let mut out = Vec::new(alloc);
    push(&mut out, file)?;
    push_count(&mut out, b": devices ", plan.devices.len())?;
    push_count(&mut out, b" domains ", plan.domains.len())?;
    push_count(&mut out, b" links ", plan.links.as_slice().len())?;
    push_count(&mut out, b" callers ", plan.callers.len())?;
    push_count(&mut out, b" islands ", islands as usize)?;
    push(&mut out, b"\n")?;
    Ok(out)
}

fn push_count(out: &mut Vec<u8>, word: &[u8], count: usize) -> Result<(), NoMemory>
    ensures { OnOk result (out.new.items ≡ out.old.items ++ (word.now ++ decimal count)) }
{
    push(out, word)?;
    push_number(out, count)
}
