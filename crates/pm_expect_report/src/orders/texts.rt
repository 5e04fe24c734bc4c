//! The lines.

ghost use Rattle.std.specs.Prelude.{◌≡◌, ◌++◌, IfOk, OnOk};
ghost use Rattle.pm_expect_report.specs.orders.Texts.{judged_line, judged_lines, no_expectation_line, unbroken_line, verdict_text};
ghost use Rattle.pm_model.specs.Text.{names_of};

use crate::broken::{Broken, Expectation};
use crate::orders::judging::Judged;
use crate::orders::pieces::{push_breach, push_fewest, push_holds, push_name};
use pm_base::NoMemory;
use pm_model::Plan;
use pm_outcomes::text::{Reach, push, push_limit, push_number};
use std::alloc::Global;

// Appends what schedules make of an expectation.
fn push_verdict(
    text: &mut Vec<u8>,
    alloc: Global,
    plan: &Plan,
    reach: Reach,
    rounds: usize,
    expectation: &Expectation,
    broken: &Option<Broken>,
) -> Result<(), NoMemory>
    ensures { OnOk result (text.new.items ≡ text.old.items ++ verdict_text (names_of plan.now) reach rounds expectation.now broken.now) }
{
    let Some(broken) = broken else {
        return push_holds(text, reach);
    };
    push(text, b"fails")?;
    push_fewest(text, rounds, broken.round)?;
    push(text, b": ")?;
    push_name(text, alloc, plan, expectation)?;
    push(text, b": ")?;
    push_breach(text, alloc, plan, expectation, &broken.breach)
}

// Appends the line of an expectation.
fn push_line(
    text: &mut Vec<u8>,
    alloc: Global,
    plan: &Plan,
    file: &[u8],
    reach: Reach,
    rounds: usize,
    judged: &Judged,
) -> Result<(), NoMemory>
    ensures { OnOk result (text.new.items ≡ text.old.items ++ judged_line (names_of plan.now) file.now reach rounds judged.now) }
{
    push(text, file)?;
    push(text, b":")?;
    push_number(text, judged.line)?;
    push(text, b": ")?;
    push_verdict(
        text,
        alloc,
        plan,
        reach,
        rounds,
        &judged.expectation,
        &judged.broken,
    )?;
    push(text, b"\n")
}

/// Appends a line for each expectation of a file that is called so, by schedules that were gone through so far, in so many
/// rounds. Fails where memory runs out.
pub fn push_judged(
    text: &mut Vec<u8>,
    alloc: Global,
    plan: &Plan,
    file: &[u8],
    reach: Reach,
    rounds: usize,
    all: &[Judged],
) -> Result<(), NoMemory>
    ensures { OnOk result (text.new.items ≡ text.old.items ++ judged_lines plan.now file.now reach rounds all.now) }
{
    for judged in all {
        push_line(text, alloc, plan, file, reach, rounds, judged)?;
    }
    Ok(())
}

/// The line that says that no schedule breaks an expectation, so far as they were gone through. Fails where memory runs out.
pub fn unbroken_text(
    alloc: Global,
    plan: &Plan,
    reach: Reach,
    expectation: &Expectation,
) -> Result<Vec<u8>, NoMemory>
    ensures { IfOk result (λ text. text.items ≡ unbroken_line plan.now reach expectation.now) }
{
    let mut text = Vec::new(alloc);
    push(&mut text, b"order: ")?;
    push_name(&mut text, alloc, plan, expectation)?;
    push(&mut text, b": ")?;
    push_holds(&mut text, reach)?;
    push_limit(&mut text, reach)?;
    push(&mut text, b"\n")?;
    Ok(text)
}

/// The line that says that a file has no expectation of this number, but so many. Fails where memory runs out.
pub fn no_expectation_text(alloc: Global, index: usize, count: usize) -> Result<Vec<u8>, NoMemory>
    ensures { IfOk result (λ text. text.items ≡ no_expectation_line index count) }
{
    let mut text = Vec::new(alloc);
    push(&mut text, b"order: no expectation ")?;
    push_number(&mut text, index)?;
    push(&mut text, b": the file has ")?;
    push_number(&mut text, count)?;
    push(&mut text, b"\n")?;
    Ok(text)
}
