//! What keeps a device from suspending after the lines of a book.

ghost use Rattle.std.specs.Prelude.{◌≡◌, ◌<◌, IfOk, length};
ghost use Rattle.pm_why.specs.Kept.{TellsOf};
ghost use Rattle.pm_why.specs.Reasons.{reasons};

use crate::kept::Gets;
use crate::{Reason, reasons};
use pm_base::{DevId, NoMemory};
use pm_book::Book;
use pm_model::keeper::Keeper;
use std::alloc::Global;

// What the lines of a book tell of a device.
fn gets_of(alloc: Global, book: &Book, dev: DevId) -> Gets
    ensures dev { result.dev ≡ dev }
    ensures told { TellsOf result book.now.lines }
{
    let _limit = book.plan().lines; // so the proof knows that the numbers of lines fit
    let lines = book.lines();
    let mut gets = Gets::start(alloc, dev);
    let mut number = 0u32;
    for line in lines {
        number += 1;
        gets.keep(number, line);
    }
    gets
}

/// Everything that keeps a device of the book's plan from suspending after the book's lines, in the order that `reasons`
/// has. It looks at each line and at each device once. Fails where memory runs out.
pub fn book_reasons(alloc: Global, book: &Book, dev: DevId) -> Result<Vec<Reason>, NoMemory>
    requires { dev.0 < length book.now.plan.devices }
    ensures { IfOk result (λ all. all.items ≡ reasons book.now.plan book.now.lines dev) }
{
    reasons(alloc, book.plan(), book.parts(), &gets_of(alloc, book, dev))
}
