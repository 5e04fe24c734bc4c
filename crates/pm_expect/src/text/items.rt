//! What is told of each expectation.

ghost use Rattle.std.specs.Prelude.{◌≡◌, IfOk, map};
ghost use Rattle.pm_expect.specs.text.Items.{answer_item, end_item, use_item};
ghost use Rattle.pm_model.specs.Text.{names_of};

use crate::text::names::{answer_name, end_name, use_name};
use crate::text::told::{answer_told, end_told, use_told};
use crate::verdicts::{Judged, Lack, Leaves, Verdict};
use crate::{Answer, End, Use};
use pm_base::NoMemory;
use pm_model::{Items, Plan};
use std::alloc::Global;

/// What became of an expectation.
#[derive(Drop)]
pub enum Outcome {
    Held,
    /// It is open.
    Skipped,
    /// It fails at this line of the trace, counted from 1, and this is so there.
    Broke { line: u32, told: Items<u8> },
}

/// What is told of an expectation: how it is called, and what became of it.
#[derive(Drop)]
pub struct Item {
    pub name: Items<u8>,
    pub outcome: Outcome,
}

/// What is told of an answer.
fn answer_item(alloc: Global, plan: &Plan, judged: &Judged<Answer, i32>) -> Result<Item, NoMemory>
    ensures { IfOk result (λ item. item ≡ answer_item (names_of plan.now) judged.now) }
{
    let answer = &judged.expected;
    let outcome = match judged.verdict {
        Verdict::Holds => Outcome::Held,
        Verdict::Open => Outcome::Skipped,
        Verdict::Fails { line, told } => Outcome::Broke {
            line,
            told: answer_told(alloc, plan, answer, told)?,
        },
    };
    Ok(Item {
        name: answer_name(alloc, plan, answer)?,
        outcome,
    })
}

/// What is told of an end.
fn end_item(alloc: Global, plan: &Plan, judged: &Judged<End, Leaves>) -> Result<Item, NoMemory>
    ensures { IfOk result (λ item. item ≡ end_item (names_of plan.now) judged.now) }
{
    let end = &judged.expected;
    let outcome = match judged.verdict {
        Verdict::Holds => Outcome::Held,
        Verdict::Open => Outcome::Skipped,
        Verdict::Fails { line, told } => Outcome::Broke {
            line,
            told: end_told(alloc, plan, end, told)?,
        },
    };
    Ok(Item {
        name: end_name(alloc, plan, end)?,
        outcome,
    })
}

/// What is told of a use.
fn use_item(alloc: Global, plan: &Plan, judged: &Judged<Use, Lack>) -> Result<Item, NoMemory>
    ensures { IfOk result (λ item. item ≡ use_item (names_of plan.now) judged.now) }
{
    let used = &judged.expected;
    let outcome = match judged.verdict {
        Verdict::Holds => Outcome::Held,
        Verdict::Open => Outcome::Skipped,
        Verdict::Fails { line, told } => Outcome::Broke {
            line,
            told: use_told(alloc, plan, used, told)?,
        },
    };
    Ok(Item {
        name: use_name(alloc, plan, used)?,
        outcome,
    })
}

/// What is told of each answer. Fails where memory runs out.
pub fn answer_items(
    alloc: Global,
    plan: &Plan,
    all: &[Judged<Answer, i32>],
) -> Result<Vec<Item>, NoMemory>
    ensures { IfOk result (λ v. v.items ≡ map (answer_item (names_of plan.now)) all.now) }
{
    let mut items = Vec::with_capacity(alloc, all.len())?;
    for judged in all {
        items.push(answer_item(alloc, plan, judged)?)?;
    }
    Ok(items)
}

/// What is told of each end. Fails where memory runs out.
pub fn end_items(
    alloc: Global,
    plan: &Plan,
    all: &[Judged<End, Leaves>],
) -> Result<Vec<Item>, NoMemory>
    ensures { IfOk result (λ v. v.items ≡ map (end_item (names_of plan.now)) all.now) }
{
    let mut items = Vec::with_capacity(alloc, all.len())?;
    for judged in all {
        items.push(end_item(alloc, plan, judged)?)?;
    }
    Ok(items)
}

/// What is told of each use. Fails where memory runs out.
pub fn use_items(
    alloc: Global,
    plan: &Plan,
    all: &[Judged<Use, Lack>],
) -> Result<Vec<Item>, NoMemory>
    ensures { IfOk result (λ v. v.items ≡ map (use_item (names_of plan.now)) all.now) }
{
    let mut items = Vec::with_capacity(alloc, all.len())?;
    for judged in all {
        items.push(use_item(alloc, plan, judged)?)?;
    }
    Ok(items)
}
