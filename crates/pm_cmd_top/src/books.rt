//! The book of one island.

ghost use Rattle.std.specs.Prelude.{◌≡◌, ◌≤◌, ◌^◌, [], IfNone, IfOk, IfSome};
ghost use Rattle.pm_model.specs.Lawful.{IsFinished, IsLawful, last_time};
ghost use Rattle.pm_book.specs.Turn.{HasTime};
ghost use Rattle.pm_cmd_top.specs.Gathering.{ComesTo, IsCut, IsKeptOf};

use pm_base::NoMemory;
use pm_book::Book;
use pm_model::Plan;
use pm_serial::{End, drain, fresh_books_have_time, has_time};
use std::alloc::Global;

// The book of a plan with no lines.
fn fresh(alloc: Global, plan: Plan) -> Result<Book, NoMemory>
    ensures plan { IfOk result (λ book. book.plan ≡ plan) }
    ensures lines { IfOk result (λ book. book.lines ≡ []) }
{
    match Book::start(alloc, plan) {
        Ok(book) => Ok(book),
        Err((_plan, error)) => Err(error),
    }
}

/// The book of this plan that can be drained: the one that came from behind a lock, or where that is a
/// book of another plan or there isn't time for its lines, a fresh one. Fails where memory runs out.
pub fn mended(alloc: Global, plan: Plan, book: Book) -> Result<Book, NoMemory>
    ensures plan { IfOk result (λ mended. mended.plan ≡ plan) }
    ensures in_time { IfOk result (λ mended. HasTime mended.plan mended.lines) }
    ensures kept { book.plan ≡ plan → HasTime book.plan book.lines → IfOk result (λ mended. mended ≡ book) }
    ensures keeps { IfOk result (λ mended. IsKeptOf plan book mended.lines) }
{
    fresh_books_have_time();
    if book.plan().same(&plan) && has_time(&book) {
        return Ok(book);
    }
    fresh(alloc, plan)
}

/// The book of this plan whose run is finished: one from behind a lock that is mended, and drained. There
/// is none exactly where the run to which that comes isn't finished, since the plan allows no more lines.
/// Fails where memory runs out.
pub fn finished(alloc: Global, plan: Plan, book: Book) -> Result<Option<Book>, NoMemory>
    ensures plan { IfOk result (λ o. IfSome o (λ book. book.plan ≡ plan)) }
    ensures lawful { IfOk result (λ o. IfSome o (λ book. IsLawful book.plan book.lines)) }
    ensures finished { IfOk result (λ o. IfSome o (λ book. IsFinished book.plan book.lines)) }
    ensures in_time { IfOk result (λ o. IfSome o (λ book. last_time book.lines ≤ 2 ^ 62)) }
    ensures comes { IfOk result (λ o. IfSome o (λ done. ComesTo plan book done.lines)) }
    ensures cut { IfOk result (λ o. IfNone o (IsCut plan book)) }
{
    let mut book = mended(alloc, plan, book)?;
    match drain(&mut book)? {
        End::Finished => {
            let _ = book.lines();
            Ok(Some(book))
        }
        End::AtLimit => Ok(None),
    }
}
