//! The books of the islands of a plan, each behind a lock of its own.

ghost use Rattle.std.specs.Prelude.{◌≡◌, ◌≤◌, IfOk, vec_len};
ghost use Rattle.pm_model.specs.Islands.{Numbering};
ghost use Rattle.pm_cmd_top.specs.Started.{any_takes_time, started};

use pm_base::NoMemory;
use pm_book::Book;
use pm_gate::{Clock, Gate};
use pm_hands::run_hands;
use pm_islands::{islands, part};
use pm_model::{DeviceRow, Plan};
use pm_wq::Hints;
use std::alloc::Global;
use std::sync::{Mutex, Wait};
use std::thread::Threads;

/// Hints that wait, at most.
const HINTS: usize = 64;

/// A fresh book of the part of each island, of which there are so many, behind a lock. Fails where memory
/// runs out.
pub fn locked_parts(alloc: Global, plan: &Plan, count: u32) -> Result<Vec<Mutex<Book>>, NoMemory>
    requires { Numbering plan.now count }
    ensures { IfOk result (λ locks. vec_len locks ≡ count) }
{
    let mut locks = Vec::new(alloc);
    for island in 0..count {
        let part = part(alloc, plan, island)?;
        match Book::start(alloc, part) {
            Ok(book) => locks.push(Mutex::new(book))?,
            Err((_part, error)) => return Err(error),
        }
    }
    Ok(locks)
}

// Whether a callback of one of the devices takes time.
fn any_takes_time(rows: &[DeviceRow]) -> bool
    ensures { result ≡ any_takes_time rows.now }
{
    let [row, rest @ ..] = rows else {
        return false;
    };
    row.idle_ms > 0 || row.suspend_ms > 0 || row.resume_ms > 0 || any_takes_time(rest)
}

// How many hands are started of so many, for so many islands. Where no callback of the plan takes time, those
// beyond one for each island, and one more that writes beside the callbacks of the others, would only wait for
// the locks.
fn started(plan: &Plan, islands: u32, hands: u32) -> u32
    requires few { hands ≤ 16 }
    ensures { result ≡ started plan.now islands hands }
{
    if any_takes_time(plan.devices.as_slice()) {
        hands
    } else {
        hands.min(islands.saturating_add(1))
    }
}

// The books, from behind their locks.
fn unlocked(alloc: Global, locks: Vec<Mutex<Book>>) -> Result<Vec<Book>, NoMemory> {
    let mut books = Vec::new(alloc);
    for lock in locks {
        books.push(lock.into_inner())?;
    }
    Ok(books)
}

/// Runs the parts of a plan by threads, at most so many, and gives back a book for each island, in their order. What the
/// threads did to them is known by their type alone.
pub fn run_islands<R: Threads + Wait + Sync, C: Clock + Sync, G: Gate + Sync>(
    rt: &R,
    alloc: Global,
    plan: &Plan,
    hands: u32,
    clock: &C,
    gate: &G,
) -> Result<Vec<Book>, NoMemory>
    requires some { 1 ≤ hands }
    requires few { hands ≤ 16 }
{
    let count = islands(plan);
    let locks = locked_parts(alloc, plan, count)?;
    let mut hints = Hints::new(alloc, HINTS)?;
    let hands = started(plan, count, hands);
    run_hands(rt, &locks, &mut hints, hands, clock, gate);
    unlocked(alloc, locks)
}
