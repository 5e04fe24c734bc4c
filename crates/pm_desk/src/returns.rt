//! The calls of a caller that have returned.

ghost use Rattle.std.specs.Prelude.{◌≡◌, ◌≤◌, IfOk, length, reverse, vec_len};
ghost use Rattle.pm_desk.specs.Returns.{called_in, calls, is_by, receipt_of, returned_in};

use crate::pass::Receipt;
use pm_base::{ActorId, NoMemory};
use pm_model::{Command, Event, Line};
use std::alloc::Global;

// Whether an actor is this caller.
fn is_by(caller: u32, actor: ActorId) -> bool
    ensures { result ≡ is_by caller actor }
{
    match actor {
        ActorId::Caller(number) => number == caller,
        _ => false,
    }
}

// The command that this caller calls with a line.
fn called_in(caller: u32, line: &Line) -> Option<Command>
    ensures { result ≡ called_in caller line.now }
{
    match line.event {
        Event::Call { command } if is_by(caller, line.actor) => Some(command),
        _ => None,
    }
}

/// The code that a command of this caller returns with a line.
pub fn returned_in(caller: u32, line: &Line) -> Option<i32>
    ensures { result ≡ returned_in caller line.now }
{
    match line.event {
        Event::Ret { code, .. } if is_by(caller, line.actor) => Some(code),
        _ => None,
    }
}

// Whether a command of any caller returns with a line.
pub(crate) fn is_return(line: &Line) -> bool {
    match line.actor {
        ActorId::Caller(caller) => returned_in(caller, line).is_some(),
        _ => false,
    }
}

// The receipt of the command that this caller called last, where a line returns from it.
fn receipt_of(caller: u32, line: &Line, last: Option<Command>) -> Option<Receipt>
    ensures { result ≡ receipt_of caller line.now last }
{
    let command = last?;
    let code = returned_in(caller, line)?;
    Some(Receipt { command, code })
}

/// The calls of a caller that have returned, from lines in order. Fails where memory runs out.
pub fn calls_of(alloc: Global, caller: u32, lines: &[Line]) -> Result<Vec<Receipt>, NoMemory>
    ensures calls { IfOk result (λ v. v.items ≡ calls (reverse lines.now) caller) }
    ensures few { IfOk result (λ v. vec_len v ≤ length lines.now) }
{
    let mut calls = Vec::new(alloc);
    let mut last = None;
    for line in lines {
        if let Some(receipt) = receipt_of(caller, line, last) {
            calls.push(receipt)?;
        }
        last = called_in(caller, line).or(last);
    }
    Ok(calls)
}
