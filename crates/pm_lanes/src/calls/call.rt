//! The calls of callers, read off the lines of a run.

ghost use Rattle.std.specs.Prelude.{◌≡◌, ◌+◌, ◌<◌, ◌^◌, ◌++◌, ℕ, IfOk, OnOk, length, nat_eq};
ghost use Rattle.std.specs.Option.{option_to_list};
ghost use Rattle.indexmap.specs.IndexMap.{get};
ghost use Rattle.pm_lanes.specs.calls.Calls.{answer_by, call_by, calls_from};

use indexmap::IndexMap;
use pm_base::{ActorId, NoMemory};
use pm_model::{Command, Event, Line};
use std::alloc::Global;

/// What a call returned, and at which line, counted from 1.
#[derive(Clone, Copy, PartialEq, Eq)]
pub struct Answer {
    pub line: u32,
    pub code: i32,
}

/// A call of a caller, and the line at which it was made, counted from 1.
#[derive(Clone, Copy, PartialEq, Eq)]
pub struct Call {
    /// Its place in the plan.
    pub caller: u32,
    pub command: Command,
    pub line: u32,
    /// `None` where it hasn't returned.
    pub answer: Option<Answer>,
}

// Takes note of a line that is a return of a caller.
fn note(answers: &mut IndexMap<u32, Answer>, number: u32, line: &Line) -> Result<(), NoMemory>
    ensures { OnOk result ((c : ℕ) → get nat_eq answers.new c ≡ answer_by c number line.now.actor line.now.event (get nat_eq answers.old c)) }
{
    if let (ActorId::Caller(caller), Event::Ret { code, .. }) = (line.actor, line.event) {
        answers.insert(caller, Answer { line: number, code })?;
    }
    Ok(())
}

// The call of a line, if it is one of a caller, where these are the next returns of callers behind it.
fn call_of(answers: &IndexMap<u32, Answer>, number: u32, line: &Line) -> Option<Call>
    ensures { result ≡ call_by number line.now.actor line.now.event (λ c. get nat_eq answers.now c) }
{
    match (line.actor, line.event) {
        (ActorId::Caller(caller), Event::Call { command }) => Some(Call {
            caller,
            command,
            line: number,
            answer: answers.get(&caller).copied(),
        }),
        _ => None,
    }
}

// Appends a call, if there is one.
fn push(all: &mut Vec<Call>, call: Option<Call>) -> Result<(), NoMemory>
    ensures { OnOk result (all.new.items ≡ all.old.items ++ option_to_list call) }
{
    if let Some(call) = call {
        all.push(call)?;
    }
    Ok(())
}

/// The calls of callers at these lines, in their order. It reads the lines once. Fails where memory runs out.
pub fn calls(alloc: Global, lines: &[Line]) -> Result<Vec<Call>, NoMemory>
    requires few { length lines.now < 2 ^ 32 }
    ensures { IfOk result (λ all. all.items ≡ calls_from 1 lines.now) }
{
    let mut all = Vec::new(alloc);
    let mut answers: IndexMap<u32, Answer> = IndexMap::new(alloc);
    let mut place = lines.len();
    while place > 0 {
        place -= 1;
        let line = &lines[place];
        let number = place as u32 + 1;
        push(&mut all, call_of(&answers, number, line))?;
        note(&mut answers, number, line)?;
    }
    all.reverse();
    Ok(all)
}
