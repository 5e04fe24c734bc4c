//! Traces that are read into books.

ghost use Rattle.std.specs.Prelude.{◌≡◌, List, ℕ, IfErr, IfOk, IsErrOf};
ghost use Rattle.pm_audit.specs.Auditing.{AuditorStandsFor};
ghost use Rattle.pm_audit.specs.Loading.{AreLoaded};
ghost use Rattle.pm_book.specs.Takings.{TakerStandsFor};
ghost use Rattle.pm_io.specs.Faults.{Rose};
ghost use Rattle.pm_cmd_top.specs.Traces.{IsLoaded, IsNoBook, IsUnloaded};

use crate::feeding::feed_trace;
use pm_audit::{Auditor, LoadFault};
use pm_book::{Book, Taker};
use pm_cmd_ends::Fault;
use pm_io::Files;
use pm_model::Plan;
use std::alloc::Global;

/// Reads the trace from its file, to its end, into a book of the plan. Its lines are kept, and no more of its bytes
/// than a piece.
pub(crate) fn load_book<F: Files>(
    alloc: Global,
    plan: Plan,
    trace: &str,
    files: &mut F,
) -> Result<Book, Fault>
    ensures plan { IfOk result (λ book. book.plan ≡ plan) }
    ensures loaded { IfOk result
        (λ book. IsLoaded F.tells_all (F.told files.old trace.now) plan book.lines) }
    ensures unloaded { IfErr result (IsUnloaded F.tells_all (F.told files.old trace.now) plan
        (Rose (F.faults files.old) (F.faults files.new))) }
    ensures calm { ¬ IsErrOf result Fault.ReadFailed → F.faults files.new ≡ F.faults files.old }
{
    let Ok(mut auditor) = Auditor::keeping(alloc, plan) else {
        return Err(Fault::NoMemory);
    };
    match feed_trace(alloc, files, trace, &mut auditor) {
        Ok(()) => book_of(alloc, auditor),
        Err(fault) => Err(fault),
    }
}

/// The book of the lines whose text the bytes are that the auditor was fed.
fn book_of(alloc: Global, auditor: Auditor<Taker>) -> Result<Book, Fault>
    ensures loaded { IfOk result (λ book. (b : List ℕ) → AuditorStandsFor TakerStandsFor auditor b → AreLoaded auditor.reader.judge.plan b book) }
    ensures refused { IfErr result (λ fault. (b : List ℕ) → AuditorStandsFor TakerStandsFor auditor b → IsNoBook auditor.reader.judge.plan b fault) }
{
    match auditor.book(alloc) {
        Ok(book) => Ok(book),
        Err(LoadFault::No { line, why }) => Err(Fault::NotLawful { line, why }),
        Err(LoadFault::NoMemory) => Err(Fault::NoMemory),
    }
}
