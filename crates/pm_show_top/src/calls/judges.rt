//! A judge, and a book, of a plan with one delay, which allows two lines; and a book that goes on by itself.

ghost use Rattle.std.specs.Prelude.{◌≡◌, ◌<◌, ◌^◌, [], IfOk, IfSome};
ghost use Rattle.pm_state.specs.Standing.{IsActor};

use pm_base::{ActorId, NoMemory};
use pm_book::{Bad, Book, Judge, TakeFault};
use pm_lineread::read_line;
use pm_model::{Event, Line, Move, Plan};
use pm_planread::{PlanFault, read_plan};
use pm_serial::{End, drain, fresh_books_have_time, has_time};
use std::alloc::Global;

/// A caller waits for 5 milliseconds.
static DELAY: &[u8] = b"lines = 2
caller = [{name = 'c', script = ['delay 5']}]
";

/// A caller resumes a device. Its seventh line begins the callback.
static RESUME: &[u8] = b"device = [{name = 'a'}]
caller = [{name = 'c', script = ['enable a', 'get_sync a']}]
";

/// The delay's call, and its end.
const CALL: &str = "7 c pm_call: delay 5";

const RET: &str = "12 c pm_ret: delay 0";

/// Lines in the order in which they are told, and what is wrong with each.
static TAKEN: [(&str, Option<Bad>); 5] = [
    ("7 c pm_call: delay 6", Some(Bad::Step)),
    (CALL, None),
    ("11 c pm_ret: delay 0", Some(Bad::Time)),
    (RET, None),
    (RET, Some(Bad::Limit)),
];

/// Times, and the line that is offered then.
static OFFERED: [(u64, Option<&str>); 4] = [
    (7, Some(CALL)),
    (11, None),
    (12, Some(RET)),
    (13, None),
];

fn judge(alloc: Global) -> Result<Judge, PlanFault> {
    match Judge::start(alloc, read_plan(alloc, DELAY)?) {
        Ok(judge) => Ok(judge),
        Err((_plan, error)) => Err(error.into()),
    }
}

fn book(alloc: Global, plan: &[u8]) -> Result<Book, PlanFault>
    ensures { IfOk result (λ book. book.lines ≡ []) }
{
    match Book::start(alloc, read_plan(alloc, plan)?) {
        Ok(book) => Ok(book),
        Err((_plan, error)) => Err(error.into()),
    }
}

/// The line of a caller with this text.
fn line_of(plan: &Plan, text: &str) -> Option<Line>
    ensures of_plan { IfSome result (λ line. IsActor plan.now line.actor) }
    ensures in_time { IfSome result (λ line. line.time < 2 ^ 63) }
{
    let Ok(line) = read_line(plan, text.as_bytes()) else {
        return None;
    };
    let ActorId::Caller(caller) = line.actor else {
        return None;
    };
    if caller as usize >= plan.callers.len() || line.time >= 1 << 63 {
        return None;
    }
    Some(line)
}

/// Whether the line of a caller with this text has this event.
fn is_event_of(plan: &Plan, text: &str, event: Event) -> bool {
    match line_of(plan, text) {
        Some(line) => line.event == event,
        None => false,
    }
}

/// Takes the line that the caller may write at this time, if there is one, and tells its event.
fn take_offered(judge: &mut Judge, time: u64) -> Option<Event> {
    if judge.plan().callers.len() == 0 || time >= 1 << 63 {
        return None;
    }
    let actor = ActorId::Caller(0);
    let mut row = Move::Late(0);
    if !judge.offer(actor, time, &mut row) {
        return None;
    }
    let Move::Write(event, change, next) = &row else {
        return None;
    };
    judge.accept(time, actor, event, change, next);
    Some(*event)
}

/// A judge takes the delay's lines, says what is wrong with others, and knows where it is.
pub fn judge_takes(alloc: Global) -> Result<bool, PlanFault> {
    let mut judge = judge(alloc)?;
    for (text, bad) in &TAKEN {
        let Some(line) = line_of(judge.plan(), text) else {
            return Ok(false);
        };
        if judge.judge(&line).err() != *bad {
            return Ok(false);
        }
    }
    Ok(judge.last_time() == 12 && judge.lines() == 2 && judge.finished())
}

/// What the judge offers is taken, and the run is finished then and not before.
pub fn judge_offers(alloc: Global) -> Result<bool, PlanFault> {
    let mut judge = judge(alloc)?;
    if judge.finished() {
        return Ok(false);
    }
    for (time, text) in &OFFERED {
        let offered = take_offered(&mut judge, *time);
        let is_so = match (text, offered) {
            (Some(text), Some(event)) => is_event_of(judge.plan(), text, event),
            (None, None) => true,
            _ => false,
        };
        if !is_so {
            return Ok(false);
        }
    }
    Ok(judge.finished())
}

/// A book takes the delay's lines, says what is wrong with others, and has those that it took.
pub fn book_takes(alloc: Global) -> Result<bool, PlanFault> {
    let mut book = book(alloc, DELAY)?;
    for (text, bad) in &TAKEN {
        let Some(line) = line_of(book.plan(), text) else {
            return Ok(false);
        };
        let is_so = match (book.take_line(&line), bad) {
            (Ok(()), None) => true,
            (Err(fault), Some(bad)) => fault == TakeFault::from(*bad),
            _ => false,
        };
        if !is_so {
            return Ok(false);
        }
    }
    let [first, second] = book.lines() else {
        return Ok(false);
    };
    let is_first = Some(*first) == line_of(book.plan(), CALL);
    Ok(is_first && Some(*second) == line_of(book.plan(), RET))
}

/// Lets the first caller go on by one line.
fn step(book: &mut Book) -> Result<(), PlanFault> {
    if book.plan().callers.len() > 0 {
        book.step(ActorId::Caller(0), 0)?;
    }
    Ok(())
}

/// Seven steps of a caller, the last of which begins a callback, and then one thread, come to what one thread
/// comes to alone.
pub fn steps_then_drain(alloc: Global) -> Result<bool, PlanFault> {
    let mut begun = book(alloc, RESUME)?;
    for _ in 0..7 {
        step(&mut begun)?;
    }
    if begun.lines().len() != 7 || !has_time(&begun) {
        return Ok(false);
    }
    fresh_books_have_time();
    let mut alone = book(alloc, RESUME)?;
    let ends = (drain(&mut begun)?, drain(&mut alone)?);
    Ok(ends == (End::Finished, End::Finished) && begun.lines() == alone.lines())
}
