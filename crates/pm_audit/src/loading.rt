//! Makes a book of a trace.

ghost use Rattle.std.specs.Prelude.{◌≡◌, List, ℕ, Err, Some, IfErr, IfOk, OnErr};
ghost use Rattle.pm_audit.specs.Auditing.{AuditorStandsFor};
ghost use Rattle.pm_audit.specs.Loading.{AreLoaded, IsRefused};
ghost use Rattle.pm_book.specs.Takings.{TakerStandsFor};
ghost use Rattle.pm_model.specs.FirstBad.{StandsFor};
ghost use Rattle.pm_model.specs.Lawful.{IsLawful};

use crate::auditor::{Auditor, BadLine};
use crate::reading::NoWhy;
use pm_book::{Book, Taker};
use pm_model::Plan;
use std::alloc::Global;

/// Why no book is made of a trace.
#[derive(Clone, Copy, PartialEq, Eq)]
pub enum LoadFault {
    /// It is the text of no lawful list.
    No {
        /// The number of the first bad line, counted from 1 behind the header, where there is one.
        line: u64,
        why: NoWhy,
    },
    /// Memory ran out.
    NoMemory,
}

impl Auditor<Taker> {
    /// The book of the lines whose text the bytes are that were fed; where the bytes are the text of no lawful list, which
    /// line is the first bad one and why. Memory is taken for whose turn it is.
    pub fn book(self, alloc: Global) -> Result<Book, LoadFault>
        ensures loaded { IfOk result (λ book. (b : List ℕ) → AuditorStandsFor TakerStandsFor self b → AreLoaded self.reader.judge.plan b book) }
        ensures refused { IfErr result (λ fault. (b : List ℕ) → AuditorStandsFor TakerStandsFor self b → IsRefused self.reader.judge.plan b fault) }
    {
        match self.taken() {
            Ok(taker) => book_of(alloc, taker),
            Err(BadLine { line, why }) => Err(LoadFault::No { line, why }),
        }
    }
}

// The book of the lines that are kept.
fn book_of(alloc: Global, taker: Taker) -> Result<Book, LoadFault>
    ensures plan { IfOk result (λ book. book.plan ≡ taker.judge.plan) }
    ensures lines { IfOk result (λ book. taker.kept ≡ Some book.lines) }
    ensures err { OnErr result (result ≡ Err LoadFault.NoMemory) }
{
    match taker.finish(alloc) {
        Ok(book) => Ok(book),
        Err(_) => Err(LoadFault::NoMemory),
    }
}

/// The book of a plan whose lines these bytes are the text of, in either format. Where they are the text
/// of no lawful list, it says which line is the first bad one and why, as an auditor does.
pub fn load_trace(alloc: Global, plan: Plan, bytes: &[u8]) -> Result<Book, LoadFault>
    ensures plan { IfOk result (λ book. book.plan ≡ plan) }
    ensures lawful { IfOk result (λ book. IsLawful plan book.lines) }
    ensures stands { IfOk result (λ book. StandsFor plan bytes.now book.lines) }
    ensures refused { IfErr result (λ fault. IsRefused plan bytes.now fault) }
{
    match Auditor::keeping(alloc, plan) {
        Ok(mut auditor) => {
            auditor.feed(bytes);
            auditor.book(alloc)
        }
        Err(_) => Err(LoadFault::NoMemory),
    }
}
