//! A call by a pass.

ghost use Rattle.std.specs.Prelude.{◌≡◌, ◌<◌, Err, IfErr, IfOk, IfSome, IsTrue, OnErr, length, true};
ghost use Rattle.pm_model.specs.IsPlan.{is_command};
ghost use Rattle.pm_desk.specs.Slips.{with_receipt, with_stop};

use crate::desk::{Desk, fresh_book};
use crate::pass::{Pass, Receipt, Stop};
use crate::returns::{is_return, returned_in};
use crate::roll::Roll;
use pm_base::{ActorId, NoMemory};
use pm_book::Book;
use pm_gate::{Clock, Gate};
use pm_hands::{
    Hand, Island, Turn, Wrote, counted, nap, run_callback, step_now, take_turn, try_step,
};
use pm_model::{Command, Line, Plan};
use std::alloc::Global;
use std::sync::Wait;

/// How often a call naps for callers that are awaited, at most: for a second, by the system's clock.
const NAPS: u32 = 500;

/// What a call found in one hold of the lock.
enum Found {
    /// Its command has returned this code.
    Returned(i32),
    /// It wrote a line.
    Wrote(Wrote),
    /// No line may be written now.
    Waits,
    /// No further line can be written.
    Over,
}

/// What a call found, and how many lines it has looked at.
struct Look {
    found: Found,
    seen: usize,
}

// Whether a book has as many callers and devices as the plan.
fn fits(book: &Book, plan: &Plan) -> bool
    ensures callers { IsTrue result → length book.now.plan.callers ≡ length plan.now.callers }
    ensures devices { IsTrue result → length book.now.plan.devices ≡ length plan.now.devices }
{
    book.plan().callers.len() == plan.callers.len()
        && book.plan().devices.len() == plan.devices.len()
}

// Replaces a book that has other callers or devices than the plan by a fresh one.
fn mend(alloc: Global, book: &mut Book, plan: &Plan) -> Result<(), NoMemory>
    ensures callers { IfOk result (λ _. length book.new.plan.callers ≡ length plan.now.callers) }
    ensures devices { IfOk result (λ _. length book.new.plan.devices ≡ length plan.now.devices) }
{
    if !fits(book, plan) {
        *book = fresh_book(alloc, plan)?;
    }
    Ok(())
}

// Puts a command at the end of a caller's script, and says how many lines there are.
fn extend(
    alloc: Global,
    book: &mut Book,
    plan: &Plan,
    caller: u32,
    command: Command,
) -> Result<usize, Stop>
    requires in_range { caller < length plan.now.callers }
    requires of_plan { is_command (length plan.now.devices) command ≡ true }
{
    mend(alloc, book, plan)?;
    book.extend(caller, command)?;
    Ok(book.lines().len())
}

// The first code that a caller's command returns with one of the lines behind the first so many.
fn code_behind(lines: &[Line], caller: u32, seen: usize) -> Option<i32> {
    for line in lines.get(seen..).unwrap_or(&[]) {
        if let Some(code) = returned_in(caller, line) {
            return Some(code);
        }
    }
    None
}

// Lets a caller go on by one line, if it may.
fn step_own(book: &mut Book, caller: u32, now: u64) -> Result<Option<Wrote>, NoMemory> {
    if (caller as usize) < book.plan().callers.len() {
        try_step(book, ActorId::Caller(caller), now)
    } else {
        Ok(None)
    }
}

// Lets an actor go on by one line that may be written now.
fn step_waiting(book: &mut Book, now: u64) -> Result<Found, NoMemory> {
    match step_now(book, now)? {
        Some(wrote) => Ok(Found::Wrote(wrote)),
        None if book.is_full() => Ok(Found::Over),
        None => Ok(Found::Waits),
    }
}

// Lets an actor go on by one line, at a later moment too.
fn step_on(book: &mut Book, now: u64) -> Result<Found, NoMemory> {
    match take_turn(book, now)? {
        Turn::Wrote(wrote) => Ok(Found::Wrote(wrote)),
        Turn::Waits => Ok(Found::Waits),
        Turn::Over => Ok(Found::Over),
    }
}

// Lets an actor go on by one line, this caller first.
fn step(book: &mut Book, caller: u32, now: u64, roll: Option<&Roll>) -> Result<Found, NoMemory> {
    if let Some(wrote) = step_own(book, caller, now)? {
        return Ok(Found::Wrote(wrote));
    }
    if roll.is_some_and(|roll| roll.awaits()) {
        step_waiting(book, now)
    } else {
        step_on(book, now)
    }
}

// Takes note of the last line, with which a call may have returned.
fn note(book: &Book, roll: Option<&Roll>) {
    if let Some(roll) = roll {
        if book.lines().last().is_some_and(|line| is_return(line)) {
            roll.returned();
        }
    }
}

// What a call does with a book: it looks whether its command has returned with one of the lines
// behind the first so many, and else lets an actor go on.
fn go_on(
    book: &mut Book,
    caller: u32,
    seen: usize,
    now: u64,
    roll: Option<&Roll>,
) -> Result<Look, NoMemory> {
    let lines = book.lines();
    let count = lines.len();
    if let Some(code) = code_behind(lines, caller, seen) {
        let found = Found::Returned(code);
        return Ok(Look { found, seen: count });
    }
    let found = step(book, caller, now, roll)?;
    if let Found::Wrote(_) = &found {
        note(book, roll);
    }
    Ok(Look { found, seen: count })
}

// Puts a command at the end of a caller's script, under the lock, and says how many lines there are.
fn begin_call<R: Wait, G: Gate>(
    rt: &R,
    desk: &Desk,
    hand: &mut Hand<'_, G>,
    caller: u32,
    command: Command,
    roll: Option<&Roll>,
) -> Result<usize, Stop>
    requires in_range { caller < length desk.now.plan.callers }
    requires of_plan { is_command (length desk.now.plan.devices) command ≡ true }
{
    let island = desk.book.island();
    let mut book = island.lock(rt, hand);
    let seen = extend(desk.alloc, &mut book, &desk.plan, caller, command)?;
    if let Some(roll) = roll {
        roll.called();
    }
    Ok(seen)
}

// What a call does in one hold of the lock.
fn locked_look<R: Wait, G: Gate>(
    rt: &R,
    island: &Island<'_>,
    hand: &mut Hand<'_, G>,
    caller: u32,
    seen: usize,
    now: u64,
    roll: Option<&Roll>,
) -> Result<Look, NoMemory> {
    go_on(&mut island.lock(rt, hand), caller, seen, now, roll)
}

// Naps where no line may be written now, and says how often it did, one behind the other, while callers were
// awaited. Where that was for long, nobody is awaited any longer.
fn wait<C: Clock>(clock: &C, now: u64, naps: u32, roll: Option<&Roll>) -> u32 {
    nap(clock, now);
    match roll {
        Some(roll) if roll.awaits() => {
            if naps < NAPS {
                return naps + 1;
            }
            roll.close();
            0
        }
        _ => 0,
    }
}

// Puts a command at the end of a caller's script, and lets actors go on until it has returned.
fn run_command<R: Wait, C: Clock, G: Gate>(
    rt: &R,
    desk: &Desk,
    hand: &mut Hand<'_, G>,
    caller: u32,
    command: Command,
    roll: Option<&Roll>,
    clock: &C,
) -> Result<i32, Stop>
    requires in_range { caller < length desk.now.plan.callers }
    requires of_plan { is_command (length desk.now.plan.devices) command ≡ true }
{
    let mut seen = begin_call(rt, desk, hand, caller, command, roll)?;
    let island = desk.book.island();
    let mut naps = 0;
    for _ in rt.forever() {
        let now = counted(clock.now());
        let look = locked_look(rt, &island, hand, caller, seen, now, roll)?;
        let Look { found, seen: count } = look;
        seen = count;
        match found {
            Found::Returned(code) => return Ok(code),
            Found::Wrote(Wrote::Line) => naps = 0,
            Found::Wrote(Wrote::Began(callback)) => {
                naps = 0;
                run_callback(rt, &island, hand, callback, now, clock);
            }
            Found::Waits => naps = wait(clock, now, naps, roll),
            Found::Over => break,
        }
    }
    Err(Stop::Limit)
}

impl Pass {
    // Makes a call, and keeps its receipt. The receipt's place is taken first.
    fn try_call<R: Wait, C: Clock, G: Gate>(
        &mut self,
        rt: &R,
        desk: &Desk,
        hand: &mut Hand<'_, G>,
        command: Command,
        roll: Option<&Roll>,
        clock: &C,
    ) -> Result<i32, Stop>
        requires in_range { self.old.caller < length desk.now.plan.callers }
        requires of_plan { is_command (length desk.now.plan.devices) command ≡ true }
        ensures ok { IfOk result (λ code. self.new ≡ with_receipt self.old (record { command = command; code = code })) }
        ensures err { OnErr result (self.new ≡ self.old) }
    {
        self.receipts.reserve(1)?;
        let code = run_command(rt, desk, hand, self.caller, command, roll, clock)?;
        self.receipts.push_reserved(Receipt { command, code });
        Ok(code)
    }

    // Makes a call unless one was stopped before, and keeps why it is stopped.
    fn call_by<R: Wait, C: Clock, G: Gate>(
        &mut self,
        rt: &R,
        desk: &Desk,
        command: Command,
        roll: Option<&Roll>,
        clock: &C,
        gate: &G,
    ) -> Result<i32, Stop>
        requires in_range { self.old.caller < length desk.now.plan.callers }
        requires of_plan { is_command (length desk.now.plan.devices) command ≡ true }
        ensures ok { IfOk result (λ code. self.new ≡ with_receipt self.old (record { command = command; code = code })) }
        ensures stop { IfErr result (λ why. self.new ≡ with_stop self.old why) }
        ensures again { IfSome self.old.stopped (λ why. result ≡ Err why) }
    {
        if let Some(why) = self.stopped {
            return Err(why);
        }
        let called = self.try_call(rt, desk, &mut Hand::of(gate), command, roll, clock);
        if let Err(why) = called {
            self.stopped = Some(why);
        }
        called
    }

    /// Calls a helper: puts the command at the end of the caller's script, and lets any actor write that may,
    /// its own caller first, until the command has returned. It answers the code, and keeps a receipt. The
    /// pass's caller is one of the desk's plan, and the command one that a script of that plan may have.
    ///
    /// Each callback that it begins runs with no lock held, and its end line is written once the gate has
    /// returned and the plan's time has passed, by the run or by the clock. A clock reading above 2^61 counts
    /// as 2^61, and where all are early, the earliest moment at which a line is due counts as now.
    ///
    /// After a `Stop` the pass has no receipt more, and each later call answers the same and does nothing.
    /// `Limit` comes where the list has all the lines that the plan allows, or the script 1,000 commands,
    /// which the closing of the desk looks at. This may wait for other threads, and what it did to the book
    /// is known by its type alone.
    pub fn call<R: Wait, C: Clock + Sync, G: Gate + Sync>(
        &mut self,
        rt: &R,
        desk: &Desk,
        command: Command,
        clock: &C,
        gate: &G,
    ) -> Result<i32, Stop>
        requires in_range { self.old.caller < length desk.now.plan.callers }
        requires of_plan { is_command (length desk.now.plan.devices) command ≡ true }
        ensures ok { IfOk result (λ code. self.new ≡ with_receipt self.old (record { command = command; code = code })) }
        ensures stop { IfErr result (λ why. self.new ≡ with_stop self.old why) }
        ensures again { IfSome self.old.stopped (λ why. result ≡ Err why) }
    {
        self.call_by(rt, desk, command, None, clock, gate)
    }

    /// Calls a helper as `call` does, by a caller of this roll, which is awaited again when the call has returned.
    /// While a caller of the roll is awaited, no moment at which a line is due later counts as now. All passes
    /// that are on the roll call so, and each leaves it behind its last call.
    pub fn call_on<R: Wait, C: Clock + Sync, G: Gate + Sync>(
        &mut self,
        rt: &R,
        desk: &Desk,
        command: Command,
        roll: &Roll,
        clock: &C,
        gate: &G,
    ) -> Result<i32, Stop>
        requires in_range { self.old.caller < length desk.now.plan.callers }
        requires of_plan { is_command (length desk.now.plan.devices) command ≡ true }
        ensures ok { IfOk result (λ code. self.new ≡ with_receipt self.old (record { command = command; code = code })) }
        ensures stop { IfErr result (λ why. self.new ≡ with_stop self.old why) }
        ensures again { IfSome self.old.stopped (λ why. result ≡ Err why) }
    {
        let called = self.call_by(rt, desk, command, Some(roll), clock, gate);
        if called.is_err() {
            roll.close();
        }
        called
    }
}
