//! The texts that are told.

ghost use Rattle.std.specs.Prelude.{◌≡◌, ◌++◌, IfOk, OnOk, decimal, take};
ghost use Rattle.pm_audit.specs.Auditing.{reason_of};
ghost use Rattle.pm_cmd_ends.specs.Said.{why_word};
ghost use Rattle.pm_find.specs.trace.Texts.{TellsEach, TellsShown, files_of, unlawful_text};

use crate::findings::Finding;
use crate::text::{push_count, push_finding};
use crate::trace::places::{PlanFile, place_of};
use itoa::Buffer;
use pm_audit::NoWhy;
use pm_base::NoMemory;
use pm_model::{Line, Plan};
use std::alloc::Global;

/// So many findings are told at most.
const MOST: usize = 200;

/// The first of them, as many as are told.
fn first(all: &[Finding]) -> &[Finding]
    ensures { result.now ≡ take 200 all.now }
{
    if all.len() <= MOST {
        all
    } else {
        all.split_at(MOST).0
    }
}

/// A line for each finding, with its place in the plan's file.
fn each_text(
    alloc: Global,
    plan: &Plan,
    lines: &[Line],
    trace: &[u8],
    file: PlanFile<'_>,
    all: &[Finding],
) -> Result<Vec<u8>, NoMemory>
    ensures { IfOk result (λ text. TellsEach plan.now lines.now (files_of trace.now file.entry) all.now text.items) }
{
    let mut text = Vec::new(alloc);
    for found in all {
        let place = place_of(alloc, plan, lines, file.name, file.text, found)?;
        push_finding(&mut text, plan, trace, found, &place)?;
    }
    Ok(text)
}

/// A line for each of the first findings, with its place in the plan's file, and how many there are in how many lines.
pub(crate) fn shown_text(
    alloc: Global,
    plan: &Plan,
    lines: &[Line],
    trace: &[u8],
    file: PlanFile<'_>,
    all: &[Finding],
) -> Result<Vec<u8>, NoMemory>
    ensures { IfOk result (λ text. TellsShown plan.now lines.now (files_of trace.now file.entry) all.now text.items) }
{
    let mut text = each_text(alloc, plan, lines, trace, file, first(all))?;
    push_count(&mut text, all.len(), lines.len())?;
    Ok(text)
}

/// Appends bytes.
fn push(text: &mut Vec<u8>, piece: &[u8]) -> Result<(), NoMemory>
    ensures { OnOk result (text.new.items ≡ text.old.items ++ piece.now) }
{
    text.extend_from_slice(piece)?;
    Ok(())
}

/// Appends a number in decimal.
fn push_number(text: &mut Vec<u8>, number: u64) -> Result<(), NoMemory>
    ensures { OnOk result (text.new.items ≡ text.old.items ++ decimal number) }
{
    push(text, Buffer::new().format(number).as_bytes())
}

/// Appends the word for why a line is bad.
fn push_why(text: &mut Vec<u8>, why: NoWhy) -> Result<(), NoMemory>
    ensures { OnOk result (text.new.items ≡ text.old.items ++ why_word (reason_of why)) }
{
    push(text, why_word(why))
}

/// Appends that a line of a trace is the first that isn't lawful, and why.
pub(crate) fn push_unlawful(
    text: &mut Vec<u8>,
    file: &[u8],
    line: u64,
    why: NoWhy,
) -> Result<(), NoMemory>
    ensures { OnOk result (text.new.items ≡ text.old.items ++ unlawful_text file.now line (reason_of why)) }
{
    push(text, file)?;
    push(text, b":")?;
    push_number(text, line)?;
    push(text, b": not lawful: ")?;
    push_why(text, why)?;
    push(text, b"\n")?;
    Ok(())
}

/// The word for why a line is bad.
fn why_word(why: NoWhy) -> &'static [u8]
    ensures { result.now ≡ why_word (reason_of why) }
{
    match why {
        NoWhy::Cut => b"cut",
        NoWhy::Text => b"text",
        NoWhy::Limit => b"limit",
        NoWhy::Step => b"step",
        NoWhy::Time => b"time",
    }
}
