//! Draining a book.

ghost use Rattle.std.specs.Prelude.{◌≡◌, ◌<◌, ◌↔◌, [], false, reverse, IfNone, IfOk, IfSome, IsOk, IsTrue, OnErr, OnOk};
ghost use Rattle.pm_book.specs.Pages.{is_full};
ghost use Rattle.pm_model.specs.declared.plan.Plan.{Plan};
ghost use Rattle.pm_model.specs.Lawful.{IsFinished};
ghost use Rattle.pm_model.specs.Serial.{serial};
ghost use Rattle.pm_book.specs.Turn.{HasTime, IsTurn, Writes, says_running};
ghost use Rattle.pm_serial.specs.Ends.{GoesOn, HasMemory, IsEnd, IsSerialEnd, whole};

use pm_base::{ActorId, NoMemory};
use pm_book::{Book, Step};
use pm_laws::turns::{serial_ends, serial_stops};

/// Milliseconds from one line to the next on one thread, at most.
const STEP: u64 = 1_000_000;

/// The lines of a book that is drained come no later, in milliseconds of the run.
const LATEST: u64 = 1 << 62;

/// How a run on one thread ended.
#[derive(Clone, Copy, PartialEq, Eq)]
pub enum End {
    /// The run is finished.
    Finished,
    /// The list has all the lines that the plan allows, and the run isn't finished.
    AtLimit,
}

// Whether a step wrote nothing, since the actor's callback runs.
fn says_running(step: Step) -> bool
    ensures { result ≡ says_running step }
{
    matches!(step, Step::Running(_))
}

// Writes the line of the actor whose turn it is: by a step, and where that says that a callback runs,
// by the callback's end.
fn write(book: &mut Book, actor: ActorId, now: u64) -> Result<(), NoMemory>
    requires turn { IsTurn book.old actor now }
    requires room { is_full book.old ≡ false }
    requires in_time { HasTime book.old.plan book.old.lines }
    ensures ok { OnOk result (Writes book.old book.new) }
    ensures memory { 0 < book.old.spare → IsOk result }
    ensures err { OnErr result (GoesOn book.old book.new) }
{
    let step = book.step(actor, now)?;
    if says_running(step) {
        book.end_callback(actor, now);
    }
    Ok(())
}

/// A book without lines has time for all lines of its plan, of which there are at most 200,000: the
/// condition of `drain`.
pub fn fresh_books_have_time()
    ensures { (plan : Plan) → HasTime plan [] }
{}

/// Whether there is time for every line that a book's plan still allows: the condition of `drain`. It takes
/// no memory.
pub fn has_time(book: &Book) -> bool
    ensures { IsTrue result ↔ HasTime book.now.plan book.now.lines }
{
    let lines = book.lines();
    let last = match lines.last() {
        Some(line) => line.time,
        None => 0,
    };
    let free = (book.plan().lines as usize).saturating_sub(lines.len());
    last.saturating_add(STEP * free as u64) <= LATEST
}

/// Lets the run of a book go on by the order of turns on one thread, until it is finished or has all the
/// lines that its plan allows. `Finished` comes exactly where the run is finished, `AtLimit` exactly where
/// the list is full and the run isn't finished. From a book without lines the lines are those of `serial`.
///
/// The time of the last line, in milliseconds of the run, and 1,000,000 for each line that the plan
/// still allows are together at most 2^62, as they are for a book without lines.
///
/// After `NoMemory` the book holds the lines written so far, and this may be called again. It comes only
/// where the book has no memory for all the lines that the plan still allows.
pub fn drain(book: &mut Book) -> Result<End, NoMemory>
    requires { HasTime book.old.plan book.old.lines }
    ensures goes_on { GoesOn book.old book.new }
    ensures whole { IfOk result (λ _. book.new.lines ≡ whole book.old.plan book.old.lines) }
    ensures end { IfOk result (IsEnd book.new) }
    ensures serial { book.old.lines ≡ []
        → IfOk result (λ _. reverse book.new.lines ≡ serial book.old.plan) }
    ensures serial_end { book.old.lines ≡ [] → IfOk result (IsSerialEnd book.old.plan) }
    ensures memory { HasMemory book.old → IsOk result }
{
    serial_stops();
    serial_ends();
    while let Some((actor, now)) = book.next_turn() {
        if book.is_full() {
            return Ok(End::AtLimit);
        }
        write(book, actor, now)?;
    }
    Ok(End::Finished)
}
