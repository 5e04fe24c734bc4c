//! The calls of callers, and which of them have returned.

ghost use Rattle.std.specs.Prelude.{ℕ, ◌≡◌, ◌<◌, ◌^◌, ◌∷◌, ◌++◌, [], IfOk, None, OnOk, length, reverse, slice_index_or, slice_set, true};
ghost use Rattle.std.specs.List.{list_all};
ghost use Rattle.std.specs.Option.{option_to_list};
ghost use Rattle.pm_expect.specs.verdicts.Calls.{AreCalls, call_said, calls_after, return_in, returned_at, returns};
ghost use Rattle.pm_model.specs.History.{History};
ghost use Rattle.pm_model.specs.LineOf.{is_line_of};

use pm_base::{ActorId, NoMemory};
use pm_model::{Command, Event, Line, Plan};
use std::alloc::Global;
use std::marker::Model;

/// A call that has returned.
#[derive(Clone, Copy, PartialEq, Eq)]
pub struct Return {
    /// The caller, by its place in the plan.
    pub caller: u32,
    pub command: Command,
    /// The line of its return, counted from 1.
    pub line: u32,
    pub code: i32,
}

/// The call that each caller is in, by the lines so far.
#[derive(Drop)]
pub struct Calls {
    current: Vec<Option<Command>>,
}

impl Model for Calls {
    ghost use Rattle.std.specs.Prelude.{List, Option};
    ghost use Rattle.pm_model.specs.declared.event.Command.{Command};

    ghost Value = { List (Option Command) };

    ghost view = { λ calls. calls.current.items };
}

/// What an event says of the call that its caller is in: a call begins one, and a return ends it.
pub fn call_said(event: &Event) -> Option<Option<Command>>
    ensures { result ≡ call_said event.now }
{
    match *event {
        Event::Call { command } => Some(Some(command)),
        Event::Ret { .. } => Some(None),
        _ => None,
    }
}

impl Calls {
    /// No caller is in a call. Fails where memory runs out.
    #[tactic(auto, using(crate::proofs::verdicts::CallLemmas::calls_start))]
    pub fn new(alloc: Global, plan: &Plan) -> Result<Calls, NoMemory>
        ensures { IfOk result (λ calls. AreCalls (length plan.now.callers) [] calls) }
    {
        Ok(Calls {
            current: vec![in alloc; None; plan.callers.len()]?,
        })
    }

    /// The call that a caller is in.
    pub fn current(&self, caller: u32) -> Option<Command>
        ensures { result ≡ slice_index_or self.now caller None }
    {
        match self.current.get(caller as usize) {
            Some(call) => *call,
            None => None,
        }
    }

    /// Takes note of what is said of the call of a caller.
    fn note(&mut self, caller: u32, said: Option<Command>)
        ensures { self.new ≡ slice_set self.old caller said }
    {
        let place = caller as usize;
        if place < self.current.len() {
            self.current[place] = said;
        }
    }

    /// Takes note of a line.
    fn take(&mut self, line: &Line)
        ensures { self.new ≡ calls_after line.now.actor (call_said line.now.event) self.old }
    {
        if let ActorId::Caller(caller) = line.actor {
            if let Some(said) = call_said(&line.event) {
                self.note(caller, said);
            }
        }
    }

    /// Goes on by one line: the lines before it are those that it stands for.
    #[tactic(auto, using(crate::proofs::verdicts::CallLemmas::calls_step))]
    pub fn follow(&mut self, line: &Line)
        ensures { (n : ℕ) (h : History) → AreCalls n h self.old → AreCalls n (line.now ∷ h) self.new }
    {
        self.take(line);
    }
}

/// The return of the call that a caller is in, with this event in a line of this number.
fn return_in(number: u32, called: Option<Command>, caller: u32, event: &Event) -> Option<Return>
    ensures { result ≡ return_in number called caller event.now }
{
    let command = called?;
    match *event {
        Event::Ret { code, .. } => Some(Return {
            caller,
            command,
            line: number,
            code,
        }),
        _ => None,
    }
}

/// The call that returns with a line of this number.
fn returned_at(calls: &Calls, number: u32, line: &Line) -> Option<Return>
    ensures { result ≡ returned_at calls.now number line.now }
{
    match line.actor {
        ActorId::Caller(caller) => return_in(number, calls.current(caller), caller, &line.event),
        ActorId::Work(_) | ActorId::Timer(_) => None,
    }
}

/// Appends a return, if there is one.
fn push(all: &mut Vec<Return>, returned: Option<Return>) -> Result<(), NoMemory>
    ensures { OnOk result (all.new.items ≡ all.old.items ++ option_to_list returned) }
{
    if let Some(returned) = returned {
        all.push(returned)?;
    }
    Ok(())
}

/// The calls of callers that return in these lines, in order. It reads each line once. Fails where memory runs out.
pub fn returns(alloc: Global, plan: &Plan, lines: &[Line]) -> Result<Vec<Return>, NoMemory>
    requires few { length lines.now < 2 ^ 32 }
    requires of_plan { list_all (is_line_of plan.now) (reverse lines.now) ≡ true }
    ensures { IfOk result (λ all. all.items ≡ returns (reverse lines.now)) }
{
    let mut calls = Calls::new(alloc, plan)?;
    let mut all = Vec::new(alloc);
    let mut number = 0;
    for line in lines {
        number += 1;
        push(&mut all, returned_at(&calls, number, line))?;
        calls.follow(line);
    }
    Ok(all)
}
