//! A book of a list's lines, and what one thread makes of it.

ghost use Rattle.std.specs.Prelude.{◌≡◌, ◌∷◌, [], IfOk, OnOk, reverse};
ghost use Rattle.pm_model.specs.Lawful.{IsLawful};
ghost use Rattle.pm_model.specs.declared.plan.Plan.{Plan as APlan};
ghost use Rattle.pm_model.specs.History.{History};
ghost use Rattle.pm_explore.specs.declared.schedule.Pace.{Pace};
ghost use Rattle.pm_explore.specs.schedule.Schedules.{IsSchedule};
ghost use Rattle.pm_outcomes.specs.witness.Going.{GoesOnFrom, IsNear};

use pm_base::NoMemory;
use pm_book::{Book, TakeFault};
use pm_explore::successors::times_are_near;
use pm_laws::bounds::lines_are_bounded;
use pm_laws::counts::sizes;
use pm_laws::turns::serial_stops;
use pm_model::{Line, Plan};
use pm_serial::{End, drain, fresh_books_have_time};
use std::alloc::Global;

/// A book with the lines of a run, and how the run ended.
#[derive(Drop)]
pub struct Gone {
    pub book: Book,
    pub end: End,
}

/// The lines of a lawful schedule, at whatever pace, come near one another.
pub fn schedules_are_near()
    ensures { (pace : Pace) (plan : APlan) (h : History) → IsSchedule pace plan h → IsLawful plan h → IsNear h }
{
    times_are_near();
}

// What is wrong with a line that comes next, where it isn't taken.
fn wanting(fault: TakeFault) -> NoMemory
    requires { fault ≡ TakeFault.NoMemory }
{
    match fault {
        TakeFault::NoMemory => NoMemory,
        TakeFault::Limit | TakeFault::Step | TakeFault::Time => unreachable!(),
    }
}

// Takes a line that may come next, and comes near the last one.
fn take(book: &mut Book, line: &Line) -> Result<(), NoMemory>
    requires near { IsNear (line.now ∷ book.old.lines) }
    requires lawful { IsLawful book.old.plan (line.now ∷ book.old.lines) }
    ensures plan { OnOk result (book.new.plan ≡ book.old.plan) }
    ensures lines { OnOk result (book.new.lines ≡ line.now ∷ book.old.lines) }
{
    sizes();
    lines_are_bounded();
    match book.take_line(line) {
        Ok(()) => Ok(()),
        Err(fault) => Err(wanting(fault)),
    }
}

// Takes all lines of a list.
fn take_all(book: &mut Book, lines: &[Line]) -> Result<(), NoMemory>
    requires none { book.old.lines ≡ [] }
    requires near { IsNear (reverse lines.now) }
    requires lawful { IsLawful book.old.plan (reverse lines.now) }
    ensures plan { OnOk result (book.new.plan ≡ book.old.plan) }
    ensures lines { OnOk result (book.new.lines ≡ reverse lines.now) }
{
    for line in lines {
        take(book, line)?;
    }
    Ok(())
}

// The book of a list's lines.
fn book_of(alloc: Global, plan: Plan, lines: &[Line]) -> Result<Book, NoMemory>
    requires near { IsNear (reverse lines.now) }
    requires lawful { IsLawful plan (reverse lines.now) }
    ensures plan { IfOk result (λ book. book.plan ≡ plan) }
    ensures lines { IfOk result (λ book. book.lines ≡ reverse lines.now) }
{
    match Book::start(alloc, plan) {
        Ok(mut book) => {
            take_all(&mut book, lines)?;
            Ok(book)
        }
        Err((_plan, error)) => Err(error),
    }
}

/// The run to which one thread goes on from a lawful list whose lines come near one another: until it is finished, or
/// has all the lines that the plan allows. Fails where memory runs out.
pub fn go_on(alloc: Global, plan: Plan, lines: &[Line]) -> Result<Gone, NoMemory>
    requires near { IsNear (reverse lines.now) }
    requires lawful { IsLawful plan (reverse lines.now) }
    ensures plan { IfOk result (λ gone. gone.book.plan ≡ plan) }
    ensures goes_on { IfOk result (λ gone. GoesOnFrom plan (reverse lines.now) gone.book.lines gone.end) }
{
    fresh_books_have_time();
    serial_stops();
    let mut book = book_of(alloc, plan, lines)?;
    let end = drain(&mut book)?;
    Ok(Gone { book, end })
}
