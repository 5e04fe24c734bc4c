//! What is told of a run.

ghost use Rattle.std.specs.Prelude.{◌≡◌, IfOk};
ghost use Rattle.pm_audit.specs.Auditing.{reason_of};
ghost use Rattle.pm_find.specs.trace.Telling.{IsFound, IsUnlawful, IsToldOf};
ghost use Rattle.pm_find.specs.trace.Texts.{files_of, shown};

use crate::findings::{Finding, faults, findings, has_faults};
use crate::trace::places::PlanFile;
use crate::trace::texts::{push_unlawful, shown_text};
use pm_audit::{LoadFault, NoWhy, load_trace};
use pm_base::NoMemory;
use pm_book::Book;
use pm_laws::bounds::lines_are_bounded;
use pm_model::Plan;
use std::alloc::Global;

/// What is told of a trace.
#[derive(Drop)]
pub struct Found {
    pub text: Vec<u8>,
    /// Whether an error or a warning stands out, or the trace isn't lawful.
    pub stands_out: bool,
}

/// The findings that are told: all, or those that are errors and warnings.
fn shown(alloc: Global, notes: bool, all: Vec<Finding>) -> Result<Vec<Finding>, NoMemory>
    ensures { IfOk result (λ told. told.items ≡ shown notes all.items) }
{
    if notes { Ok(all) } else { faults(alloc, &all) }
}

/// What is told of the run of a book, whose trace is called so, with notes or without them: a line for each of the
/// first 200 findings in the order of the lines, with its place in the plan's file, and how many there are. Fails where
/// memory runs out.
pub fn tell(
    alloc: Global,
    book: &Book,
    trace: &[u8],
    file: PlanFile<'_>,
    notes: bool,
) -> Result<Found, NoMemory>
    ensures { IfOk result (λ found. IsFound book.now.plan book.now.lines (files_of trace.now file.entry) notes found) }
{
    lines_are_bounded();
    let lines = book.lines();
    let all = findings(alloc, book.plan(), lines, book.finished())?;
    let stands_out = has_faults(&all);
    let told = shown(alloc, notes, all)?;
    let text = shown_text(alloc, book.plan(), lines, trace, file, &told)?;
    Ok(Found { text, stands_out })
}

/// What is told of a trace that is called so, whose first bad line this is, counted from 1. Fails where memory runs
/// out.
pub fn tell_unlawful(alloc: Global, file: &[u8], line: u64, why: NoWhy) -> Result<Found, NoMemory>
    ensures { IfOk result (λ found. IsUnlawful file.now line (reason_of why) found) }
{
    let mut text = Vec::new(alloc);
    push_unlawful(&mut text, file, line, why)?;
    Ok(Found {
        text,
        stands_out: true,
    })
}

/// What is told of the bytes of a trace.
pub(crate) fn told_of(
    alloc: Global,
    plan: Plan,
    trace: &[u8],
    file: PlanFile<'_>,
    bytes: &[u8],
    notes: bool,
) -> Result<Found, NoMemory>
    ensures { IfOk result (λ found. IsToldOf plan (files_of trace.now file.entry) bytes.now notes found) }
{
    match load_trace(alloc, plan, bytes) {
        Ok(book) => tell(alloc, &book, trace, file, notes),
        Err(LoadFault::No { line, why }) => tell_unlawful(alloc, trace, line, why),
        Err(LoadFault::NoMemory) => Err(NoMemory),
    }
}
