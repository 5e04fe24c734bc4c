//! What is told of a trace.

ghost use Rattle.std.specs.Prelude.{◌≡◌, ◌++◌, ◌||◌, IfOk};
ghost use Rattle.pm_audit.specs.Auditing.{reason_of};
ghost use Rattle.pm_expect_report.specs.trace.Checks.{IsBadTold, IsKtapRun, IsPlainRun, IsRunTold, IsToldOf};
ghost use Rattle.pm_expect.specs.Over.{AreOver};
ghost use Rattle.pm_expect.specs.text.Items.{has_failed};
ghost use Rattle.pm_find.specs.trace.Texts.{files_of};

use crate::trace::items::items_in;
use crate::trace::plain::plain_text;
use pm_audit::{LoadFault, NoWhy, load_trace};
use pm_base::NoMemory;
use pm_book::Book;
use pm_expect::Expectations;
use pm_expect::text::{Item, has_failed, push_ktap};
use pm_find::trace::{Found, PlanFile, tell, tell_unlawful};
use pm_model::Plan;
use pm_spans::source::push;
use std::alloc::Global;

/// Whether something stands out already, or an expectation fails.
fn stands_out_with(stands_out: bool, items: &[Item]) -> bool
    ensures { result ≡ (stands_out || has_failed items.now) }
{
    stands_out || has_failed(items)
}

/// What was found, with the lines of the expectations that fail behind it.
fn with_failed(found: Found, failed: &[u8], items: &[Item]) -> Result<Found, NoMemory>
    ensures text { IfOk result (λ told. told.text.items ≡ found.text.items ++ failed.now) }
    ensures stands_out { IfOk result (λ told. told.stands_out ≡ (found.stands_out || has_failed items.now)) }
{
    let Found {
        mut text,
        stands_out,
    } = found;
    push(&mut text, failed)?;
    let stands_out = stands_out_with(stands_out, items);
    Ok(Found { text, stands_out })
}

/// In plain words, over the run of a book.
fn plain_run(
    alloc: Global,
    book: &Book,
    file: &[u8],
    text: &[u8],
    expected: &Expectations,
    trace: &[u8],
    plan_file: PlanFile<'_>,
    notes: bool,
) -> Result<Found, NoMemory>
    requires { AreOver book.now.plan expected.now }
    ensures { IfOk result (λ found. IsPlainRun book.now.plan book.now.lines file.now text.now expected.now (files_of trace.now plan_file.entry) notes found) }
{
    let found = tell(alloc, book, trace, plan_file, notes)?;
    let items = items_in(alloc, book, expected)?;
    let failed = plain_text(alloc, file, text, trace, expected, &items)?;
    with_failed(found, &failed, &items)
}

/// As KTAP, over the run of a book.
fn ktap_run(
    alloc: Global,
    book: &Book,
    expected: &Expectations,
    trace: &[u8],
) -> Result<Found, NoMemory>
    requires { AreOver book.now.plan expected.now }
    ensures { IfOk result (λ found. IsKtapRun book.now.plan book.now.lines expected.now trace.now found) }
{
    let items = items_in(alloc, book, expected)?;
    let mut text = Vec::new(alloc);
    push_ktap(&mut text, trace, &items)?;
    Ok(Found {
        text,
        stands_out: has_failed(&items),
    })
}

/// Over the run of a book.
fn run_told(
    alloc: Global,
    book: &Book,
    file: &[u8],
    text: &[u8],
    expected: &Expectations,
    trace: &[u8],
    plan_file: PlanFile<'_>,
    ktap: bool,
    notes: bool,
) -> Result<Found, NoMemory>
    requires { AreOver book.now.plan expected.now }
    ensures { IfOk result (λ found. IsRunTold book.now.plan book.now.lines file.now text.now expected.now (files_of trace.now plan_file.entry) ktap notes found) }
{
    if ktap {
        ktap_run(alloc, book, expected, trace)
    } else {
        plain_run(alloc, book, file, text, expected, trace, plan_file, notes)
    }
}

/// Of a first bad line.
fn bad_told(
    alloc: Global,
    trace: &[u8],
    ktap: bool,
    line: u64,
    why: NoWhy,
) -> Result<Found, NoMemory>
    ensures { IfOk result (λ found. IsBadTold trace.now ktap line (reason_of why) found) }
{
    let Found { text: bad, .. } = tell_unlawful(alloc, trace, line, why)?;
    let mut text = Vec::new(alloc);
    if ktap {
        push(&mut text, b"KTAP version 1\nBail out! ")?;
    }
    push(&mut text, &bad)?;
    Ok(Found {
        text,
        stands_out: true,
    })
}

/// Tells of the bytes of a trace, in either format, and of what the text of a file expects of it. In plain words it tells what
/// stands out in the run, a line for each expectation that fails, and how many there are; as KTAP the expectations alone. Of a
/// trace that isn't lawful it tells the first bad line. `file` and `trace` are how the files are called, and the findings have
/// their places in the plan's file. Fails where memory runs out.
pub fn check(
    alloc: Global,
    plan: Plan,
    file: &[u8],
    text: &[u8],
    expected: &Expectations,
    trace: &[u8],
    plan_file: PlanFile<'_>,
    bytes: &[u8],
    ktap: bool,
    notes: bool,
) -> Result<Found, NoMemory>
    requires { AreOver plan expected.now }
    ensures { IfOk result (λ found. IsToldOf plan file.now text.now expected.now (files_of trace.now plan_file.entry) bytes.now ktap notes found) }
{
    match load_trace(alloc, plan, bytes) {
        Ok(book) => run_told(
            alloc, &book, file, text, expected, trace, plan_file, ktap, notes,
        ),
        Err(LoadFault::No { line, why }) => bad_told(alloc, trace, ktap, line, why),
        Err(LoadFault::NoMemory) => Err(NoMemory),
    }
}
