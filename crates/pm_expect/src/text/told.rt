//! What is told where an expectation fails.

ghost use Rattle.std.specs.Prelude.{◌≡◌, ◌++◌, IfOk, OnOk, codes};
ghost use Rattle.pm_expect.specs.text.Names.{answer_told, end_told, lack_text, status_word, use_told};
ghost use Rattle.pm_model.specs.Spelling.{device_name};
ghost use Rattle.pm_model.specs.Text.{names_of};

use crate::verdicts::{Lack, Leaves};
use crate::{Answer, End, Use};
use pm_base::{ActorId, DevId, NoMemory, Status};
use pm_find::text::{push, push_actor, push_code, push_device, push_number};
use pm_model::{Items, Plan};
use pm_module::push_command;
use std::alloc::Global;

/// That a call answers this code.
pub fn answer_told(
    alloc: Global,
    plan: &Plan,
    answer: &Answer,
    code: i32,
) -> Result<Items<u8>, NoMemory>
    ensures { IfOk result (λ told. told ≡ answer_told (names_of plan.now) answer.now code) }
{
    let mut text = Vec::new(alloc);
    push_actor(&mut text, plan, ActorId::Caller(answer.caller))?;
    push(&mut text, b": ")?;
    push_command(&mut text, plan, &answer.command)?;
    push(&mut text, b" answers ")?;
    push_code(&mut text, code)?;
    Ok(Items::new(text))
}

fn status_word(status: Status) -> &'static [u8]
    ensures { result.now ≡ status_word status }
{
    match status {
        Status::Active => b"active",
        Status::Suspended => b"suspended",
        Status::Suspending => b"suspending",
        Status::Resuming => b"resuming",
    }
}

/// That a run leaves a device so.
pub fn end_told(
    alloc: Global,
    plan: &Plan,
    end: &End,
    leaves: Leaves,
) -> Result<Items<u8>, NoMemory>
    ensures { IfOk result (λ told. told ≡ end_told (names_of plan.now) end.now leaves) }
{
    let mut text = Vec::new(alloc);
    push_device(&mut text, plan, end.dev)?;
    push(&mut text, b" is ")?;
    push(&mut text, status_word(leaves.status))?;
    push(&mut text, b" at the end, usage ")?;
    push_number(&mut text, leaves.usage)?;
    Ok(Items::new(text))
}

/// Appends a device that isn't active, behind a word for what it is.
#[tactic(auto, using(std::proofs::lemmas::List::append_assoc))]
fn push_missing(text: &mut Vec<u8>, plan: &Plan, word: &[u8], dev: DevId) -> Result<(), NoMemory>
    ensures { OnOk result (text.new.items ≡ text.old.items ++ (word.now ++ device_name (names_of plan.now) dev.0 ++ codes " isn't")) }
{
    push(text, word)?;
    push_device(text, plan, dev)?;
    push(text, b" isn't")
}

/// Appends what a device lacks.
#[tactic(auto, using(std::proofs::lemmas::List::append_assoc))]
fn push_lack(text: &mut Vec<u8>, plan: &Plan, lack: Lack) -> Result<(), NoMemory>
    ensures { OnOk result (text.new.items ≡ text.old.items ++ lack_text (names_of plan.now) lack) }
{
    match lack {
        Lack::Inactive { status } => {
            push(text, b" is ")?;
            push(text, status_word(status))?;
        }
        Lack::Domain { .. } => push(text, b" is active, and its domain or one above it is off")?,
        Lack::Parent { parent } => push_missing(
            text,
            plan,
            b" is active, and its parent ",
            parent,
        )?,
        Lack::Supplier { supplier } => push_missing(
            text,
            plan,
            b" is active, and its supplier ",
            supplier,
        )?,
    }
    Ok(())
}

/// That a device lacks this.
pub fn use_told(alloc: Global, plan: &Plan, used: &Use, lack: Lack) -> Result<Items<u8>, NoMemory>
    ensures { IfOk result (λ told. told ≡ use_told (names_of plan.now) used.now lack) }
{
    let mut text = Vec::new(alloc);
    push_device(&mut text, plan, used.dev)?;
    push_lack(&mut text, plan, lack)?;
    Ok(Items::new(text))
}
