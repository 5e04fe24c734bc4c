//! `desk PLAN`: runs each caller's script by a pass of its own.

ghost use Rattle.std.specs.Prelude.{◌≡◌, ◌<◌, ◌≢◌, All, IfOk, IfSome, IsErrOf, IsNone, IsSome, IsTrue, length, true};
ghost use Rattle.pm_model.specs.IsPlan.{is_command};
ghost use Rattle.pm_model.specs.Lawful.{IsFinished};
ghost use Rattle.pm_io.specs.Asks.{AskedOnly};
ghost use Rattle.pm_io.specs.Faults.{Rose};
ghost use Rattle.pm_cmd_ends.specs.Coming.{Came};
ghost use Rattle.pm_cmd_ends.specs.Ending.{Answered, taking};
ghost use Rattle.pm_cmd_ends.specs.Reading.{OfPlan};
ghost use Rattle.pm_serial.specs.Ends.{IsEnd};
ghost use Rattle.pm_desk.specs.Closing.{end_of};
ghost use Rattle.pm_cmd_top.specs.Runs.{RunEnds};

use crate::threads::{write_alone, write_finished};
use pm_base::NoMemory;
use pm_book::Book;
use pm_cmd_ends::{Fault, finish, load};
use pm_desk::{CloseFault, Closed, Desk, Pass, Roll, Stop};
use pm_gate::{Clock, Gate};
use pm_io::{Files, Sink};
use pm_islands::blank;
use pm_model::{Command, Plan};
use std::alloc::Global;
use std::sync::Wait;
use std::thread;
use std::thread::Threads;

/// Runs `desk PLAN`: reads the plan, runs each caller's script by a pass of its own on a thread of its own,
/// and writes the lines that they come to, to `out`. A message goes to `err`, and the answer is the status
/// that the program ends with. `clock` tells the threads the time, and `gate` is called while a callback
/// runs.
///
/// What the threads leave is known by its type alone. So the desk is closed, which compares what the passes
/// kept with the book, and where that comes to no finished run of the plan, one thread runs the plan, and its
/// lines are written. Where a call found no memory, the status is that of no memory. This may wait for other
/// threads.
pub fn desk_top<
    R: Threads + Wait + Sync,
    F: Files,
    O: Sink,
    E: Sink,
    C: Clock + Sync,
    G: Gate + Sync,
>(
    rt: &R,
    alloc: Global,
    plan: &str,
    files: &mut F,
    out: &mut O,
    err: &mut E,
    clock: &C,
    gate: &G,
) -> u8
    ensures answer { Answered (OfPlan F.tells_all (F.told files.old plan.now) RunEnds) result
        (Rose (F.faults files.old) (F.faults files.new))
        (taking O.taken O.faults out.old out.new) (taking E.taken E.faults err.old err.new) }
    ensures calm { result ≢ 4 → F.faults files.new ≡ F.faults files.old }
    ensures alone { IsSome (F.told files.old plan.now) → AskedOnly plan.now (F.asked files.old) (F.asked files.new) }
{
    finish(desk_file(rt, alloc, plan, files, out, clock, gate), err)
}

/// Reads the plan, runs it by passes and writes the lines of a run.
fn desk_file<R: Threads + Wait + Sync, F: Files, O: Sink, C: Clock + Sync, G: Gate + Sync>(
    rt: &R,
    alloc: Global,
    plan: &str,
    files: &mut F,
    out: &mut O,
    clock: &C,
    gate: &G,
) -> Result<(), Fault>
    ensures came { Came (OfPlan F.tells_all (F.told files.old plan.now) RunEnds) result
        (Rose (F.faults files.old) (F.faults files.new))
        (taking O.taken O.faults out.old out.new) }
    ensures calm { ¬ IsErrOf result Fault.ReadFailed → F.faults files.new ≡ F.faults files.old }
    ensures alone { IsSome (F.told files.old plan.now) → AskedOnly plan.now (F.asked files.old) (F.asked files.new) }
{
    let plan = load(alloc, plan, files)?;
    desk_plan(rt, alloc, plan, out, clock, gate)
}

/// Runs the plan by passes, and writes the lines that they come to, or where those are no finished run, the
/// lines of one thread.
fn desk_plan<R: Threads + Wait + Sync, O: Sink, C: Clock + Sync, G: Gate + Sync>(
    rt: &R,
    alloc: Global,
    plan: Plan,
    out: &mut O,
    clock: &C,
    gate: &G,
) -> Result<(), Fault>
    ensures { Came (RunEnds plan) result ⊥ (taking O.taken O.faults out.old out.new) }
{
    match run_passes(rt, alloc, &plan, clock, gate)? {
        Some(book) => write_closed(alloc, &plan, &book, out),
        None => write_alone(alloc, plan, out),
    }
}

/// Writes the lines of a book of the plan whose run is finished.
fn write_closed<O: Sink>(alloc: Global, plan: &Plan, book: &Book, out: &mut O) -> Result<(), Fault>
    requires plan { book.now.plan ≡ plan.now }
    requires finished { IsFinished book.now.plan book.now.lines }
    ensures { Came (RunEnds plan.now) result ⊥ (taking O.taken O.faults out.old out.new) }
{
    write_finished(alloc, plan, book.lines(), out)
}

/// The book that the plan's scripts come to, each run by a pass of its own; none where it isn't one of the
/// plan, or isn't finished, or the passes don't agree with it. Fails where memory runs out.
fn run_passes<R: Threads + Wait + Sync, C: Clock + Sync, G: Gate + Sync>(
    rt: &R,
    alloc: Global,
    plan: &Plan,
    clock: &C,
    gate: &G,
) -> Result<Option<Book>, NoMemory>
    ensures plan { IfOk result (λ o. IfSome o (λ book. book.plan ≡ plan.now)) }
    ensures finished { IfOk result (λ o. IfSome o (λ book. IsFinished book.plan book.lines)) }
{
    let mut desk = open(alloc, plan)?;
    let mut passes = take_passes(alloc, &mut desk)?;
    run_scripts(rt, &desk, plan, &mut passes, clock, gate);
    if lacks_memory(&passes) {
        return Err(NoMemory);
    }
    close_whole(desk, plan, passes)
}

/// The desk of a plan. Fails where memory runs out.
fn open(alloc: Global, plan: &Plan) -> Result<Desk, NoMemory> {
    match Desk::new(alloc, blank(alloc, plan)?) {
        Ok(desk) => Ok(desk),
        Err((_plan, error)) => Err(error),
    }
}

/// The passes of all callers, in the order of the plan. Fails where memory runs out.
fn take_passes(alloc: Global, desk: &mut Desk) -> Result<Vec<Pass>, NoMemory> {
    let mut passes = Vec::new(alloc);
    let callers = desk.plan().callers.len() as u32;
    for caller in 0..callers {
        if let Some(pass) = desk.pass(caller) {
            passes.push(pass)?;
        }
    }
    Ok(passes)
}

/// Runs the script of each pass's caller on a thread of its own. Each caller is awaited until its script has ended.
fn run_scripts<R: Threads + Wait + Sync, C: Clock + Sync, G: Gate + Sync>(
    rt: &R,
    desk: &Desk,
    plan: &Plan,
    passes: &mut [Pass],
    clock: &C,
    gate: &G,
) {
    let threads = passes.len().max(1);
    let roll = Roll::of(plan.callers.len() as u32);
    thread::for_each_mut(
        rt,
        passes,
        threads,
        &|_place, pass| run_script(rt, desk, plan, pass, &roll, clock, gate),
    );
}

/// Calls what the script of a pass's caller has, which leaves the roll then.
fn run_script<R: Wait, C: Clock + Sync, G: Gate + Sync>(
    rt: &R,
    desk: &Desk,
    plan: &Plan,
    pass: &mut Pass,
    roll: &Roll,
    clock: &C,
    gate: &G,
) {
    if let Some(script) = script_of(desk, plan, pass.caller()) {
        call_all(rt, desk, pass, script, roll, clock, gate);
    }
    roll.leaves();
}

/// The script of a caller in a plan that has as many devices as the desk's, where the desk's has this caller
/// too.
fn script_of<'a>(desk: &Desk, plan: &'a Plan, caller: u32) -> Option<&'a [Command]>
    ensures caller { IfSome result (λ script. caller < length desk.now.plan.callers) }
    ensures of_plan { IfSome result (λ script.
        All (λ command. is_command (length desk.now.plan.devices) command ≡ true) script.now) }
{
    if !fits(desk, plan, caller) {
        return None;
    }
    let row = plan.callers.get(caller as usize)?;
    Some(row.script.as_slice())
}

/// Whether the desk's plan has this caller, and as many devices as the plan.
fn fits(desk: &Desk, plan: &Plan, caller: u32) -> bool
    ensures caller { IsTrue result → caller < length desk.now.plan.callers }
    ensures devices { IsTrue result → length plan.now.devices ≡ length desk.now.plan.devices }
{
    (caller as usize) < desk.plan().callers.len() && plan.devices.len() == desk.plan().devices.len()
}

/// Calls by a pass what the commands say, in turn, until a call is stopped.
fn call_all<R: Wait, C: Clock + Sync, G: Gate + Sync>(
    rt: &R,
    desk: &Desk,
    pass: &mut Pass,
    commands: &[Command],
    roll: &Roll,
    clock: &C,
    gate: &G,
)
    requires in_range { pass.old.caller < length desk.now.plan.callers }
    requires of_plan { All (λ command. is_command (length desk.now.plan.devices) command ≡ true) commands.now }
{
    for command in commands {
        if pass.call_on(rt, desk, *command, roll, clock, gate).is_err() {
            break;
        }
    }
}

/// Whether a call of one of the passes found no memory.
fn lacks_memory(passes: &[Pass]) -> bool {
    passes
        .iter()
        .any(|pass| matches!(pass.stopped(), Some(Stop::NoMemory)))
}

/// Closes the desk and hands back its book, where that is one of the plan and its run is finished. Fails where
/// memory runs out.
fn close_whole(desk: Desk, plan: &Plan, passes: Vec<Pass>) -> Result<Option<Book>, NoMemory>
    ensures plan { IfOk result (λ o. IfSome o (λ book. book.plan ≡ plan.now)) }
    ensures finished { IfOk result (λ o. IfSome o (λ book. IsFinished book.plan book.lines)) }
{
    match close_desk(desk, passes)? {
        Some(closed) => Ok(whole_book(closed, plan)),
        None => Ok(None),
    }
}

/// Closes the desk; none where the passes don't agree with its book. Fails where memory runs out.
fn close_desk(desk: Desk, passes: Vec<Pass>) -> Result<Option<Closed>, NoMemory>
    ensures { IfOk result (λ o. IfSome o (λ closed. IsEnd closed.book (end_of closed.full))) }
{
    if !desk.takes_back(&passes) {
        return Ok(None);
    }
    match desk.close(passes) {
        Ok(closed) => Ok(Some(closed)),
        Err(fault) => without_book(fault),
    }
}

/// None, where a desk wasn't closed for another reason than want of memory.
fn without_book(fault: CloseFault) -> Result<Option<Closed>, NoMemory>
    ensures { IfOk result IsNone }
{
    match fault {
        CloseFault::NoMemory => Err(NoMemory),
        CloseFault::Differs { .. } | CloseFault::NotFull { .. } => Ok(None),
    }
}

/// The book of a desk that was closed, where it is one of the plan and its run is finished.
fn whole_book(closed: Closed, plan: &Plan) -> Option<Book>
    requires { IsEnd closed.book (end_of closed.full) }
    ensures plan { IfSome result (λ book. book.plan ≡ plan.now) }
    ensures finished { IfSome result (λ book. IsFinished book.plan book.lines) }
{
    if closed.full || !closed.book.plan().same(plan) {
        return None;
    }
    Some(closed.book)
}
