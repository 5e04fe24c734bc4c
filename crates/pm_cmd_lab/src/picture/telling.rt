//! What a trace comes to: a picture of its run, or its first bad line.

ghost use Rattle.std.specs.Prelude.{◌≡◌, IfErr, IfOk, true};
ghost use Rattle.pm_audit.specs.Auditing.{reason_of};
ghost use Rattle.pm_io.specs.Faults.{Rose};
ghost use Rattle.pm_cmd_lab.specs.picture.Drawing.{IsDrawn, IsDrawnOf, IsNotDrawn, IsOfRun, IsShown, IsUnlawful};

use pm_audit::{LoadFault, NoWhy, load_trace};
use pm_base::{NoMemory, TRACE_BYTES};
use pm_book::Book;
use pm_find::trace::tell_unlawful;
use pm_io::{FileFault, Files, read_all};
use pm_laws::bounds::lines_are_bounded;
use pm_model::Plan;
use pm_picture::picture_text;
use pm_picture::timeline::timeline_text;
use std::alloc::Global;

/// What is written of a trace.
#[derive(Drop)]
pub(crate) struct Drawn {
    pub text: Vec<u8>,
    /// Whether it is of a lawful run.
    pub is_lawful: bool,
}

/// The picture of the run of a book, or its timeline.
#[tactic(auto, using(crate::proofs::picture::DrawLemmas::shown_timeline, crate::proofs::picture::DrawLemmas::shown_picture))]
fn text_of(alloc: Global, book: &Book, file: &[u8], json: bool) -> Result<Vec<u8>, NoMemory>
    ensures { IfOk result (λ text. IsShown json book.now.lines text.items) }
{
    lines_are_bounded();
    if json {
        timeline_text(alloc, book.plan(), book.lines())
    } else {
        picture_text(alloc, book.plan(), book.lines(), book.finished(), file)
    }
}

/// What is written of the run of a book.
fn drawn_book(alloc: Global, book: &Book, file: &[u8], json: bool) -> Result<Drawn, NoMemory>
    ensures { IfOk result (IsOfRun json book.now.lines) }
{
    let text = text_of(alloc, book, file, json)?;
    Ok(Drawn {
        text,
        is_lawful: true,
    })
}

/// What is told of a trace whose first bad line this is.
fn unlawful(alloc: Global, file: &[u8], line: u64, why: NoWhy) -> Result<Drawn, NoMemory>
    ensures { IfOk result (λ drawn. IsUnlawful file.now line (reason_of why) drawn) }
{
    let told = tell_unlawful(alloc, file, line, why)?;
    Ok(Drawn {
        text: told.text,
        is_lawful: false,
    })
}

/// What is written of the bytes of a trace.
fn drawn_of(
    alloc: Global,
    plan: Plan,
    file: &[u8],
    bytes: &[u8],
    json: bool,
) -> Result<Drawn, NoMemory>
    ensures { IfOk result (λ drawn. IsDrawnOf plan file.now bytes.now json drawn) }
{
    match load_trace(alloc, plan, bytes) {
        Ok(book) => drawn_book(alloc, &book, file, json),
        Err(LoadFault::No { line, why }) => unlawful(alloc, file, line, why),
        Err(LoadFault::NoMemory) => Err(NoMemory),
    }
}

/// Reads the trace from its file, in either format, and draws its run. Of a trace that isn't lawful it tells the first bad
/// line.
pub(crate) fn draw_file<F: Files>(
    alloc: Global,
    plan: Plan,
    trace: &str,
    json: bool,
    files: &mut F,
) -> Result<Drawn, FileFault>
    ensures drawn { IfOk result (IsDrawn F.tells_all (F.told files.old trace.now) plan trace.now json) }
    ensures not_drawn { IfErr result (IsNotDrawn F.tells_all (F.told files.old trace.now)
        (Rose (F.faults files.old) (F.faults files.new))) }
{
    let bytes = read_all(alloc, files, trace, TRACE_BYTES)?;
    match drawn_of(alloc, plan, trace.as_bytes(), &bytes, json) {
        Ok(drawn) => Ok(drawn),
        Err(_) => Err(FileFault::NoMemory),
    }
}
