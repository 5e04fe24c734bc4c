//! The closing of a desk.

ghost use Rattle.std.specs.Prelude.{◌≡◌, ◌<◌, ◌^◌, IfErr, IfNone, IfOk, IfSome, IsTrue, length, reverse, true};
ghost use Rattle.pm_laws.specs.gets.Alone.{IsAlone};
ghost use Rattle.pm_book.specs.Growing.{script_of};
ghost use Rattle.pm_model.specs.Lawful.{IsLawful};
ghost use Rattle.pm_book.specs.Turn.{HasTime};
ghost use Rattle.pm_desk.specs.Agreeing.{Agrees, AllAgree};
ghost use Rattle.pm_desk.specs.Returns.{calls};
ghost use Rattle.pm_desk.specs.Slips.{are_apart, pass_of};
ghost use Rattle.pm_desk.specs.Closing.{AreAlike, IsClosed, IsDifference, IsDrained, IsFault, IsFirstDifference, IsFirstWithRoom, IsWrong, NoneHasRoom, end_of, has_room, is_limited};

use crate::agreeing::{are_apart, disagrees_at, kept_by, receipt_at, stopped_of};
use crate::desk::{Desk, fresh_book};
use crate::pass::{Pass, Receipt, Stop};
use crate::returns::calls_of;
use pm_base::{MAX_COMMANDS, NoMemory};
use pm_book::Book;
use pm_islands::blank;
use pm_laws::gets::one_call_alone;
use pm_model::{Line, Plan};
use pm_serial::{End, drain, fresh_books_have_time, has_time};
use std::alloc::Global;

/// A desk that was closed: its book, which is drained, and whether its list has all the lines that the plan
/// allows and isn't finished.
#[derive(Drop)]
pub struct Closed {
    pub book: Book,
    pub full: bool,
}

/// Why a desk isn't closed. The first that holds, in this order, is the answer. The book is drained.
#[derive(Drop)]
pub enum CloseFault {
    /// The receipts of this caller, the first such in the order of the plan, aren't the calls that the list
    /// has. They differ at this place first, counted from 1: `kept` is the receipt there and `found` the
    /// call, each `None` past the end.
    Differs {
        book: Book,
        caller: u32,
        nth: u32,
        kept: Option<Receipt>,
        found: Option<Receipt>,
    },
    /// A call of this caller, the first such in the order of the plan, was stopped by `Limit`, though the
    /// list has only so many lines, fewer than the plan allows, and the caller's script isn't full.
    NotFull {
        book: Book,
        caller: u32,
        lines: u32,
    },
    /// Memory ran out.
    NoMemory,
}

impl From<NoMemory> for CloseFault {
    ghost use Rattle.std.specs.Prelude.{◌≡◌};
    ghost use Rattle.pm_desk.specs.declared.closing.CloseFault.TheVariants.{NoMemory};

    ghost from_gives = { λ _ why. why ≡ NoMemory };

    fn from(_error: NoMemory) -> CloseFault {
        CloseFault::NoMemory
    }
}

/// Where the receipts of a caller and the calls that the list has differ first.
#[derive(Clone, Copy, PartialEq, Eq)]
struct Difference {
    caller: u32,
    nth: u32,
    kept: Option<Receipt>,
    found: Option<Receipt>,
}

/// What is wrong with the passes to a drained book.
#[derive(Clone, Copy, PartialEq, Eq)]
enum Wrong {
    Differs(Difference),
    NotFull(u32),
}

// Whether the plans differ in scripts at most, where those of the second are empty. Fails where memory runs
// out.
fn are_alike(alloc: Global, plan: &Plan, empty: &Plan) -> Result<bool, NoMemory>
    ensures { IfOk result (λ alike. IsTrue alike → AreAlike plan.now empty.now) }
{
    Ok(blank(alloc, plan)?.same(empty))
}

// The book behind a desk's lock, or where that is of another plan than the desk's or there isn't time for its
// lines, a fresh one. Fails where memory runs out.
fn mended(alloc: Global, book: Book, plan: &Plan) -> Result<Book, NoMemory>
    ensures alike { IfOk result (λ book. AreAlike book.plan plan.now) }
    ensures in_time { IfOk result (λ book. HasTime book.plan book.lines) }
{
    fresh_books_have_time();
    if are_alike(alloc, book.plan(), plan)? && has_time(&book) {
        return Ok(book);
    }
    fresh_book(alloc, plan)
}

// Where the receipts of a caller differ from the calls that the list has.
fn difference_of(
    alloc: Global,
    lines: &[Line],
    passes: &[Pass],
    caller: u32,
) -> Result<Option<Difference>, NoMemory>
    requires { length lines.now < 2 ^ 31 }
    ensures agrees { IfOk result (λ o. IfNone o (Agrees (pass_of passes.now caller) (calls (reverse lines.now) caller))) }
    ensures differs { IfOk result (λ o. IfSome o (IsDifference passes.now (reverse lines.now) caller)) }
{
    let found = calls_of(alloc, caller, lines)?;
    let Some(place) = disagrees_at(passes, caller, &found) else {
        return Ok(None);
    };
    Ok(Some(Difference {
        caller,
        nth: place as u32 + 1,
        kept: receipt_at(kept_by(passes, caller), place),
        found: receipt_at(&found, place),
    }))
}

// Where the receipts of the first caller that don't agree with the list differ from its calls.
fn first_difference(
    alloc: Global,
    lines: &[Line],
    passes: &[Pass],
    callers: u32,
) -> Result<Option<Difference>, NoMemory>
    requires { length lines.now < 2 ^ 31 }
    ensures none { IfOk result (λ o. IfNone o (AllAgree passes.now (reverse lines.now) callers)) }
    ensures some { IfOk result (λ o. IfSome o (IsFirstDifference passes.now (reverse lines.now) callers)) }
{
    for caller in 0..callers {
        if let Some(difference) = difference_of(alloc, lines, passes, caller)? {
            return Ok(Some(difference));
        }
    }
    Ok(None)
}

// Whether a limit stopped a call of a caller that wasn't reached.
fn has_room(book: &Book, passes: &[Pass], caller: u32) -> bool
    ensures { result ≡ has_room passes.now book.now caller }
{
    is_limited(stopped_of(passes, caller))
        && !book.is_full()
        && script_len(book.plan(), caller) < MAX_COMMANDS
}

// Whether it is a limit that stopped a call.
fn is_limited(stopped: Option<Stop>) -> bool
    ensures { result ≡ is_limited stopped }
{
    matches!(stopped, Some(Stop::Limit))
}

// How many commands a caller's script has.
fn script_len(plan: &Plan, caller: u32) -> usize
    ensures { result ≡ length (script_of plan.now.callers caller) }
{
    match plan.callers.get(caller as usize) {
        Some(row) => row.script.as_slice().len(),
        None => 0,
    }
}

// The first caller of whom a limit stopped a call that wasn't reached.
fn first_with_room(book: &Book, passes: &[Pass], callers: u32) -> Option<u32>
    ensures none { IfNone result (NoneHasRoom passes.now book.now callers) }
    ensures some { IfSome result (IsFirstWithRoom passes.now book.now callers) }
{
    for caller in 0..callers {
        if has_room(book, passes, caller) {
            return Some(caller);
        }
    }
    None
}

// What is wrong with the passes.
fn first_wrong(
    alloc: Global,
    book: &Book,
    passes: &[Pass],
    callers: u32,
) -> Result<Option<Wrong>, NoMemory>
    ensures none { IfOk result (λ o. IfNone o (AllAgree passes.now book.now.lines callers × NoneHasRoom passes.now book.now callers)) }
    ensures some { IfOk result (λ o. IfSome o (IsWrong passes.now book.now callers)) }
{
    if let Some(difference) = first_difference(alloc, book.lines(), passes, callers)? {
        return Ok(Some(Wrong::Differs(difference)));
    }
    match first_with_room(book, passes, callers) {
        Some(caller) => Ok(Some(Wrong::NotFull(caller))),
        None => Ok(None),
    }
}

// How many lines a book has.
fn line_count(book: &Book) -> u32
    ensures { result ≡ length book.now.lines }
{
    book.lines().len() as u32
}

// The lines of a book, which are lawful, keep the law of one call alone.
fn keep_laws(book: &Book)
    ensures lawful { IsLawful book.now.plan book.now.lines }
    ensures alone { IsAlone book.now.plan book.now.lines }
{
    one_call_alone();
    let _ = book.lines();
}

// Drains the book behind a desk's lock. Fails where memory runs out.
fn drained(alloc: Global, plan: &Plan, book: Book) -> Result<Closed, NoMemory>
    ensures { IfOk result (λ closed. IsDrained plan.now closed.book (end_of closed.full)) }
{
    let mut book = mended(alloc, book, plan)?;
    let end = drain(&mut book)?;
    keep_laws(&book);
    Ok(Closed {
        book,
        full: is_cut(end),
    })
}

// Whether a list has all the lines that its plan allows, and isn't finished.
fn is_cut(end: End) -> bool
    ensures { end_of result ≡ end }
{
    matches!(end, End::AtLimit)
}

// Compares a drained book with the passes.
fn compared(
    alloc: Global,
    plan: &Plan,
    closed: Closed,
    passes: &[Pass],
) -> Result<Closed, CloseFault>
    requires { IsDrained plan.now closed.book (end_of closed.full) }
    ensures ok { IfOk result (IsClosed plan.now passes.now) }
    ensures err { IfErr result (IsFault plan.now passes.now) }
{
    let callers = plan.callers.len() as u32;
    match first_wrong(alloc, &closed.book, passes, callers)? {
        Some(Wrong::Differs(difference)) => Err(CloseFault::Differs {
            book: closed.book,
            caller: difference.caller,
            nth: difference.nth,
            kept: difference.kept,
            found: difference.found,
        }),
        Some(Wrong::NotFull(caller)) => {
            let lines = line_count(&closed.book);
            Err(CloseFault::NotFull {
                book: closed.book,
                caller,
                lines,
            })
        }
        None => Ok(closed),
    }
}

impl Desk {
    /// Whether these passes can be handed back together: each is of a caller of the plan, and no two are the
    /// same caller's. It takes no memory.
    pub fn takes_back(&self, passes: &[Pass]) -> bool
        ensures { result ≡ are_apart (length self.now.plan.callers) passes.now }
    {
        are_apart(passes, self.plan.callers.len())
    }

    /// Closes the desk, to which its passes are handed back, in any order and not all: drains its book, and
    /// compares the receipts of each caller with the calls that the list has. Of a pass by which no call was
    /// stopped they are the receipts; of one by which a call was stopped they begin with the receipts; and a
    /// caller without a pass called nothing. The passes are such as `takes_back` says.
    ///
    /// `Ok` comes where all agree, and each limit that stopped a call was reached. A book of another plan
    /// than the desk's, or for whose lines there isn't time, is replaced by a fresh one. It waits for no
    /// thread. Fails where memory runs out, and hands nothing back then.
    pub fn close(self, passes: Vec<Pass>) -> Result<Closed, CloseFault>
        requires { are_apart (length self.plan.callers) passes.items ≡ true }
        ensures ok { IfOk result (IsClosed self.plan passes.items) }
        ensures err { IfErr result (IsFault self.plan passes.items) }
    {
        let Desk {
            plan,
            book,
            alloc,
            ..
        } = self;
        let closed = drained(alloc, &plan, book.into_book())?;
        compared(alloc, &plan, closed, &passes)
    }
}
