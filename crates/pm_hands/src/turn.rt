//! What a hand does with a book in one hold of its lock.

ghost use Rattle.std.specs.Prelude.{◌≡◌, ◌+◌, ◌*◌, false, true, IfNone, IfOk, IfSome, IsTrue, MatchOption, OnErr, length};
ghost use Rattle.pm_model.specs.Lawful.{IsFinished};
ghost use Rattle.pm_book.specs.Pages.{is_full, world_of};
ghost use Rattle.pm_book.specs.Turn.{IsTurn};
ghost use Rattle.pm_state.specs.Standing.{IsActor};
ghost use Rattle.pm_state.specs.Turns.{is_running};
ghost use Rattle.pm_hands.specs.Turning.{AddsOne, ByTurn, ByWrote, Goes, SomeRuns};

use crate::callback::{Wrote, try_step};
use pm_base::{ActorId, DevId, NoMemory};
use pm_book::{Book, EndStep};
use pm_model::{Event, Line, Plan};

/// What came of a hand's turn with a book.
pub enum Turn {
    /// A line was written.
    Wrote(Wrote),
    /// No line may be written now: a callback runs, or others are early while one does.
    Waits,
    /// The run is finished, or its list has all the lines that the plan allows, or its time is at an end.
    Over,
}

// How many actors a plan has.
fn actor_count(plan: &Plan) -> usize
    ensures { result ≡ length plan.now.callers + 2 * length plan.now.devices }
{
    plan.callers.len() + 2 * plan.devices.len()
}

// The actor at a place: callers come first, then work items, then timers.
fn actor_at(plan: &Plan, place: usize) -> Option<ActorId>
    ensures { IfSome result (IsActor plan.now) }
{
    let callers = plan.callers.len();
    let devices = plan.devices.len();
    if place < callers {
        Some(ActorId::Caller(place as u32))
    } else if place < callers + devices {
        Some(ActorId::Work((place - callers) as u32))
    } else if place < callers + 2 * devices {
        Some(ActorId::Timer((place - callers - devices) as u32))
    } else {
        None
    }
}

// Whether the actor is one of the plan's.
fn is_actor(plan: &Plan, actor: ActorId) -> bool
    ensures { IsTrue result → IsActor plan.now actor }
{
    match actor {
        ActorId::Caller(caller) => (caller as usize) < plan.callers.len(),
        ActorId::Work(device) | ActorId::Timer(device) => (device as usize) < plan.devices.len(),
    }
}

// The device of which a line's event speaks.
fn device_in(event: &Event) -> Option<DevId> {
    match event {
        Event::Call { .. } => None,
        Event::Ret { dev, .. }
        | Event::Get { dev, .. }
        | Event::Put { dev, .. }
        | Event::Usage { dev, .. }
        | Event::Idle { dev, .. }
        | Event::Suspend { dev, .. }
        | Event::Resume { dev, .. }
        | Event::Return { dev, .. }
        | Event::Wait { dev }
        | Event::State { dev, .. }
        | Event::Begin { dev, .. }
        | Event::End { dev, .. }
        | Event::Domain { dev, .. }
        | Event::Work { dev, .. }
        | Event::Timer { dev, .. } => Some(*dev),
    }
}

// Lets the first actor go on by one line that may.
fn step_any(book: &mut Book, now: u64) -> Result<Option<Wrote>, NoMemory>
    ensures ok { IfOk result (λ wrote. MatchOption wrote (book.new ≡ book.old) (ByWrote book.old book.new)) }
    ensures err { OnErr result (book.new ≡ book.old) }
{
    for place in 0..actor_count(book.plan()) {
        let Some(actor) = actor_at(book.plan(), place) else {
            break;
        };
        if let Some(wrote) = try_step(book, actor, now)? {
            return Ok(Some(wrote));
        }
    }
    Ok(None)
}

/// Actors of its choice that a turn tries, at most.
const TRIES: u32 = 3;

/// Of so many numbers each makes one choice, so that one number of 64 bits has four of them.
const CHOICES: u64 = 1 << 16;

/// How many of the last lines count as late ones.
const LATE: usize = 64;

// The actor at a place, round all that a plan has.
fn actor_round(plan: &Plan, place: usize) -> Option<ActorId>
    ensures { IfSome result (IsActor plan.now) }
{
    let place = place.checked_rem(actor_count(plan))?;
    actor_at(plan, place)
}

// The caller at a place, round all that a plan has.
fn caller_round(plan: &Plan, place: usize) -> Option<ActorId>
    ensures { IfSome result (IsActor plan.now) }
{
    let place = place.checked_rem(plan.callers.len())?;
    actor_at(plan, place)
}

// One of the late lines, this one counted from the end.
fn late_line(book: &Book, back: usize) -> Option<Line> {
    let lines = book.lines();
    let place = lines.len().checked_sub(1 + back % LATE)?;
    lines.get(place).copied()
}

// The actor, if it is one of the plan's.
fn if_actor(plan: &Plan, actor: ActorId) -> Option<ActorId>
    ensures { IfSome result (IsActor plan.now) }
{
    if is_actor(plan, actor) {
        Some(actor)
    } else {
        None
    }
}

// Who wrote a late line.
fn late_writer(book: &Book, back: usize) -> Option<ActorId>
    ensures { IfSome result (IsActor book.now.plan) }
{
    let line = late_line(book, back)?;
    if_actor(book.plan(), line.actor)
}

// The work item of the device of which a late line speaks.
fn late_work(book: &Book, back: usize) -> Option<ActorId>
    ensures { IfSome result (IsActor book.now.plan) }
{
    let line = late_line(book, back)?;
    let dev = device_in(&line.event)?;
    if_actor(book.plan(), ActorId::Work(dev.0))
}

// The actor that a number chooses: a caller, any actor, who wrote a late line, or the work item of its device.
fn chosen(book: &Book, number: u64) -> Option<ActorId>
    ensures { IfSome result (IsActor book.now.plan) }
{
    let place = (number / 4) as usize;
    match number % 4 {
        0 => caller_round(book.plan(), place),
        1 => actor_round(book.plan(), place),
        2 => late_writer(book, place),
        _ => late_work(book, place),
    }
}

// Lets an actor go on by one line that may, one of a few that a number chooses. It looks at so few that what it
// takes doesn't grow with the plan.
fn step_chosen(book: &mut Book, now: u64, number: u64) -> Result<Option<Wrote>, NoMemory>
    ensures ok { IfOk result (λ wrote. MatchOption wrote (book.new ≡ book.old) (ByWrote book.old book.new)) }
    ensures err { OnErr result (book.new ≡ book.old) }
{
    let mut left = number;
    for _ in 0..TRIES {
        let choice = left % CHOICES;
        left /= CHOICES;
        let Some(actor) = chosen(book, choice) else {
            continue;
        };
        if let Some(wrote) = try_step(book, actor, now)? {
            return Ok(Some(wrote));
        }
    }
    Ok(None)
}

// Whether a callback runs that some actor began.
fn any_runs(book: &Book) -> bool
    ensures { IsTrue result → SomeRuns book.now }
{
    for place in 0..actor_count(book.plan()) {
        let Some(actor) = actor_at(book.plan(), place) else {
            break;
        };
        if book.running(actor) {
            return true;
        }
    }
    false
}

// Where the callback of the actor runs whose turn it is, lets another go on.
fn step_beside(book: &mut Book, now: u64) -> Result<Turn, NoMemory>
    requires full { is_full book.old ≡ false }
    requires runs { SomeRuns book.old }
    ensures ok { IfOk result (ByTurn book.old book.new) }
    ensures err { OnErr result (book.new ≡ book.old) }
{
    match step_any(book, now)? {
        Some(wrote) => Ok(Turn::Wrote(wrote)),
        None => Ok(Turn::Waits),
    }
}

// Where no callback runs, lets the actor go on whose turn it is, at the moment of its turn.
fn step_due(book: &mut Book, actor: ActorId, moment: u64) -> Result<Turn, NoMemory>
    requires full { is_full book.old ≡ false }
    requires turn { IsTurn book.old actor moment }
    requires rests { is_running book.old.plan (world_of book.old) actor ≡ false }
    ensures ok { IfOk result (ByTurn book.old book.new) }
    ensures err { OnErr result (book.new ≡ book.old) }
{
    if any_runs(book) {
        return Ok(Turn::Waits);
    }
    match try_step(book, actor, moment)? {
        Some(wrote) => Ok(Turn::Wrote(wrote)),
        None => Ok(Turn::Over),
    }
}

// Lets the actor go on whose turn it is, now or, where no callback runs, at the moment of its turn.
fn step_next(book: &mut Book, actor: ActorId, moment: u64, now: u64) -> Result<Turn, NoMemory>
    requires full { is_full book.old ≡ false }
    requires turn { IsTurn book.old actor moment }
    requires rests { is_running book.old.plan (world_of book.old) actor ≡ false }
    ensures ok { IfOk result (ByTurn book.old book.new) }
    ensures err { OnErr result (book.new ≡ book.old) }
{
    match try_step(book, actor, now)? {
        Some(wrote) => Ok(Turn::Wrote(wrote)),
        None => step_due(book, actor, moment),
    }
}

/// Lets an actor that may go on by one line, at the moment of the last line, or at this later one by the
/// clock, in milliseconds of the run. Where all are early and no callback runs, the earliest moment at
/// which a line is due counts as now. All answers but `Wrote` change nothing, and so does `NoMemory`.
pub fn take_turn(book: &mut Book, now: u64) -> Result<Turn, NoMemory>
    ensures ok { IfOk result (ByTurn book.old book.new) }
    ensures err { OnErr result (book.new ≡ book.old) }
{
    if book.is_full() {
        return Ok(Turn::Over);
    }
    let Some((actor, moment)) = book.next_turn() else {
        return Ok(Turn::Over);
    };
    if book.running(actor) {
        return step_beside(book, now);
    }
    step_next(book, actor, moment, now)
}

/// Lets an actor go on by one line as `take_turn` does, but one that this number chooses where that may write
/// now. Which it is isn't promised.
pub fn take_any_turn(book: &mut Book, now: u64, number: u64) -> Result<Turn, NoMemory>
    ensures ok { IfOk result (ByTurn book.old book.new) }
    ensures err { OnErr result (book.new ≡ book.old) }
{
    match step_chosen(book, now, number)? {
        Some(wrote) => Ok(Turn::Wrote(wrote)),
        None => take_turn(book, now),
    }
}

/// Lets an actor go on by one line that may write now, at the moment of the last line, or at this later one by
/// the clock. No moment at which a line is due later counts as now. Else nothing is changed, and after
/// `NoMemory` neither.
pub fn step_now(book: &mut Book, now: u64) -> Result<Option<Wrote>, NoMemory>
    ensures ok { IfOk result (λ wrote. MatchOption wrote (book.new ≡ book.old) (ByWrote book.old book.new)) }
    ensures err { OnErr result (book.new ≡ book.old) }
{
    let Some((actor, _moment)) = book.next_turn() else {
        return Ok(None);
    };
    if book.running(actor) {
        return step_any(book, now);
    }
    try_step(book, actor, now)
}

// Ends a running callback, and says whether it did or the list is full. A late one ends at the moment at
// which its end is due.
fn end_running(book: &mut Book, actor: ActorId, now: u64, is_late: bool) -> bool
    requires in_range { IsActor book.old.plan actor }
    requires runs { is_running book.old.plan (world_of book.old) actor ≡ true }
    ensures goes { Goes book.old book.new }
    ensures late { is_late ≡ true → result ≡ true }
    ensures open { result ≡ false → book.new ≡ book.old }
{
    match book.end_callback(actor, now) {
        EndStep::Wrote | EndStep::AtLimit => true,
        EndStep::Early(at) => {
            if is_late {
                book.end_callback(actor, at);
            }
            is_late
        }
    }
}

// Writes the end line of a callback that the actor began, and says whether nothing of it is left to do:
// the line was written, or the list is full, or no callback of the actor runs. It is written at this
// moment by the clock, or where it is late, at the moment at which it is due.
pub(crate) fn end_of(book: &mut Book, actor: ActorId, now: u64, is_late: bool) -> bool
    ensures goes { Goes book.old book.new }
    ensures late { is_late ≡ true → result ≡ true }
    ensures open { result ≡ false → book.new ≡ book.old }
{
    if is_actor(book.plan(), actor) && book.running(actor) {
        end_running(book, actor, now, is_late)
    } else {
        true
    }
}
