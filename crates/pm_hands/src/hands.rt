//! Hands: threads that take turns with books.

ghost use Rattle.std.specs.Prelude.{◌≡◌, ◌≤◌, ◌<◌, ◌-◌, ◌^◌, ◌↔◌, IsTrue, MatchOption, length, min, true, unwrap_or};
ghost use Rattle.pm_wq.specs.Hints.{IsOf};

use crate::callback::{Callback, Gated, Wrote};
use crate::choice::Choice;
use crate::locks::{Hand, Island, Islands};
use crate::turn::{Turn, take_any_turn, take_turn};
use crate::way::next_island;
use pm_base::NoMemory;
use pm_book::Book;
use pm_gate::{Clock, Gate};
use pm_wq::{HintPass, Hints};
use std::sync::{Mutex, Wait};
use std::thread;
use std::thread::Threads;

/// Hands, at most.
const MAX_HANDS: usize = 16;

/// No clock reading counts as later, in milliseconds.
const LATEST: u64 = 1 << 61;

/// For how long at most who finds nothing to write rests before it looks again, in milliseconds.
const NAP: u64 = 2;

/// What a clock reading counts as: one above 2^61 as 2^61, and none as 0.
pub fn counted(reading: Option<u64>) -> u64
    ensures { result ≡ min (unwrap_or reading 0) (2 ^ 61) }
{
    reading.unwrap_or(0).min(LATEST)
}

// Whether so many milliseconds have passed by the clock. Where it can't be read, they have.
fn has_passed(since: u64, reading: Option<u64>, ms: u32) -> bool
    ensures { MatchOption reading (result ≡ true) (λ now. IsTrue result ↔ (ms ≤ min now (2 ^ 61) - since)) }
{
    match reading {
        Some(now) => u64::from(ms) <= now.min(LATEST).saturating_sub(since),
        None => true,
    }
}

/// Rests from this moment by the clock for 2 milliseconds at most: who finds nothing to write has to look again
/// then.
pub fn nap<C: Clock>(clock: &C, now: u64) {
    clock.rest(now.saturating_add(NAP));
}

// One turn with a book: in the order of one thread, or where there is a choice, by that.
fn turn_by(book: &mut Book, now: u64, choice: &mut Option<Choice>) -> Result<Turn, NoMemory> {
    match choice {
        Some(choice) => take_any_turn(book, now, choice.next()),
        None => take_turn(book, now),
    }
}

// One turn with a book, under its lock; none where another holds that, who writes then.
fn locked_turn<G: Gate>(
    island: &Island<'_>,
    hand: &mut Hand<'_, G>,
    now: u64,
    choice: &mut Option<Choice>,
) -> Result<Option<Turn>, NoMemory> {
    match island.try_lock(hand) {
        Some(mut book) => Ok(Some(turn_by(&mut book, now, choice)?)),
        None => Ok(None),
    }
}

// Ends a callback, if it may, under the book's lock, and gives it back where something of it is left to do.
fn locked_end<R: Wait, G: Gate>(
    rt: &R,
    island: &Island<'_>,
    hand: &mut Hand<'_, G>,
    open: Gated,
    now: u64,
    is_late: bool,
) -> Option<Gated> {
    open.end(&mut island.lock(rt, hand), now, is_late)
}

// Writes the end line of a callback that has begun at this moment by the clock when it may be written, and at
// the latest when the callback's time has passed by the clock, for which it rests.
fn end_callback<R: Wait, C: Clock, G: Gate>(
    rt: &R,
    island: &Island<'_>,
    hand: &mut Hand<'_, G>,
    gated: Gated,
    since: u64,
    clock: &C,
) {
    let ms = gated.ms();
    let until = since.saturating_add(u64::from(ms));
    let mut open = gated;
    for _ in rt.forever() {
        let reading = clock.now();
        let now = counted(reading);
        let is_late = has_passed(since, reading, ms);
        match locked_end(rt, island, hand, open, now, is_late) {
            Some(still) => open = still,
            None => return,
        }
        clock.rest(until);
    }
    unreachable!()
}

/// Lets a callback run that has begun at this moment by the clock, with no lock held, and writes its end line
/// when it may be written, and at the latest when the callback's time has passed by the clock, for which it
/// rests. Where the clock can't be read, no time is left. This may wait for other threads.
pub fn run_callback<R: Wait, C: Clock, G: Gate>(
    rt: &R,
    island: &Island<'_>,
    hand: &mut Hand<'_, G>,
    callback: Callback,
    since: u64,
    clock: &C,
) {
    let gated = hand.gate(callback);
    end_callback(rt, island, hand, gated, since, clock);
}

// One turn with a book by a number, under its lock.
fn locked_any_turn<R: Wait, G: Gate>(
    rt: &R,
    island: &Island<'_>,
    hand: &mut Hand<'_, G>,
    now: u64,
    number: u64,
) -> Result<Turn, NoMemory> {
    take_any_turn(&mut island.lock(rt, hand), now, number)
}

// Lets a few lines be written beside a callback, as many as the choice says, and says which other callback the
// last of them began, if it did. Without a choice there are none.
fn write_beside<R: Wait, G: Gate>(
    rt: &R,
    island: &Island<'_>,
    hand: &mut Hand<'_, G>,
    now: u64,
    choice: &mut Option<Choice>,
) -> Option<Callback> {
    let Some(choice) = choice else {
        return None;
    };
    for _ in 0..choice.beside() {
        match locked_any_turn(rt, island, hand, now, choice.next()) {
            Ok(Turn::Wrote(Wrote::Line)) => {}
            Ok(Turn::Wrote(Wrote::Began(callback))) => return Some(callback),
            Ok(Turn::Waits) => return None,
            Ok(Turn::Over) => return None,
            Err(_) => return None,
        }
    }
    None
}

// Lets a callback run, and each that began beside the one before. Beside one that takes no time, for which no
// other hand may come, this hand writes.
fn run_callbacks<R: Wait, C: Clock, G: Gate>(
    rt: &R,
    island: &Island<'_>,
    hand: &mut Hand<'_, G>,
    first: Callback,
    now: u64,
    choice: &mut Option<Choice>,
    clock: &C,
) {
    let mut open = first;
    for _ in rt.forever() {
        let gated = hand.gate(open);
        let next = if gated.ms() == 0 {
            write_beside(rt, island, hand, now, choice)
        } else {
            None
        };
        end_callback(rt, island, hand, gated, now, clock);
        match next {
            Some(callback) => open = callback,
            None => return,
        }
    }
    unreachable!()
}

// Tells that an island may have a line to write.
fn tell<R: Wait>(rt: &R, hints: &Hints, pass: &mut HintPass, island: usize)
    requires { IsOf hints.now pass.old }
    ensures { IsOf hints.now pass.new }
{
    if let Ok(island) = u32::try_from(island) {
        hints.tell(rt, pass, island);
    }
}

// One hand. It begins at this island and stays at one while a line may be written there. Where it finds none at
// any, one behind the other, and isn't sent to one, it naps.
fn take_turns<R: Wait, C: Clock, G: Gate>(
    rt: &R,
    islands: Islands<'_>,
    hand: &mut Hand<'_, G>,
    hints: &Hints,
    first: usize,
    mut choice: Option<Choice>,
    clock: &C,
) {
    let count = islands.len();
    if count == 0 {
        return;
    }
    let mut pass = hints.pass();
    let mut at = first % count;
    // At how many islands on the way here there was nothing to write, one behind the other, and how many of
    // these, the last ones, were over.
    let mut still = 0;
    let mut over = 0;
    for _ in rt.forever() {
        let now = counted(clock.now());
        let island = islands.at(at);
        match locked_turn(&island, hand, now, &mut choice) {
            Ok(Some(Turn::Wrote(wrote))) => {
                still = 0;
                over = 0;
                match wrote {
                    Wrote::Began(callback) => {
                        tell(rt, hints, &mut pass, at);
                        run_callbacks(rt, &island, hand, callback, now, &mut choice, clock);
                    }
                    Wrote::Line => {}
                }
                continue;
            }
            Ok(Some(Turn::Over)) => over += 1,
            Ok(Some(Turn::Waits)) => over = 0,
            Ok(None) => over = 0,
            Err(_) => break,
        }
        if over >= count {
            break;
        }
        let hint = hints.ask(rt, &mut pass);
        at = next_island(hint, at, count);
        still += 1;
        if hint.is_some() {
            still = 0;
            over = 0;
        } else if still >= count {
            still = 0;
            nap(clock, now);
        }
    }
}

// The hand at a place, of so many. One alone goes by the order of one thread.
fn hand_at<R: Wait, C: Clock, G: Gate>(
    rt: &R,
    islands: &[Mutex<Book>],
    hints: &Hints,
    place: usize,
    hands: usize,
    clock: &C,
    gate: &G,
) {
    let choice = if hands > 1 {
        Some(Choice::of(clock.seed(), place as u64))
    } else {
        None
    };
    let (islands, mut hand) = (Islands::of(islands), Hand::of(gate));
    take_turns(rt, islands, &mut hand, hints, place, choice, clock);
}

/// Runs the books of islands by 1 to 16 threads, each book under a lock of its own. Each hand takes turns
/// with one book while a line may be written there, and else, also where another hand holds the lock, goes where
/// a hint sends it, or to the next island; where it finds nothing to write at any, it rests for 2 milliseconds at
/// most. Each callback runs with
/// no lock held, between the hold of the lock in which it began and the one in which it ends. A clock reading
/// above 2^61 counts as 2^61, and where the clock can't be read, callbacks take no time.
///
/// One hand takes its turns in the order of one thread. Of several each chooses among the actors that may write,
/// by the clock's seed, by its place and by turns, so that orders differ from run to run.
///
/// A hand ends when each book is finished or full, or when it finds no memory, and before it does it ends
/// the callback that it began, unless that book is full. This may wait for other threads, and what it did
/// to the books is known by their type alone.
pub fn run_hands<R: Threads + Wait + Sync, C: Clock + Sync, G: Gate + Sync>(
    rt: &R,
    islands: &[Mutex<Book>],
    hints: &mut Hints,
    hands: u32,
    clock: &C,
    gate: &G,
)
    requires some { 1 ≤ hands }
    requires few { hands ≤ 16 }
{
    let hints = &*hints;
    let hands = hands as usize;
    let mut seats = [(); MAX_HANDS];
    thread::for_each_mut(
        rt,
        &mut seats[..hands],
        hands,
        &|place, _seat| { hand_at(rt, islands, hints, place, hands, clock, gate) },
    );
}
