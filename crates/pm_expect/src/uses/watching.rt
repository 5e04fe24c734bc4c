//! What is kept of uses while the lines of a run are read.

ghost use Rattle.std.specs.Prelude.{◌≡◌, ◌<◌, All, IfOk, [], length, map};
ghost use Rattle.pm_device.specs.Parts.{IsFor};
ghost use Rattle.pm_expect.specs.uses.Lacks.{lack_now};
ghost use Rattle.pm_expect.specs.uses.Watching.{is_inside, missed_with, said_of, watch_after, watch_of};

use crate::uses::missing::{Missed, lack_now};
use crate::verdicts::call_said;
use crate::{Use, is_same_command};
use pm_base::{ActorId, NoMemory};
use pm_device::Parts;
use pm_model::{Command, Line, Plan};
use std::alloc::Global;

/// A use, and what is known of it after some lines.
#[derive(Clone, Copy)]
pub(crate) struct Watch {
    pub expected: Use,
    /// Whether its caller is in a call of its command.
    pub inside: bool,
    /// The first line of such a call after which the device lacks something.
    pub missed: Option<Missed>,
}

/// Of each use before any line.
pub(crate) fn fresh(alloc: Global, plan: &Plan, expected: &[Use]) -> Result<Vec<Watch>, NoMemory>
    ensures { IfOk result (λ watches. watches.items ≡ map (watch_of plan.now []) expected.now) }
{
    let _plan = plan;
    let mut watches = Vec::with_capacity(alloc, expected.len())?;
    for each in expected {
        watches.push(Watch {
            expected: *each,
            inside: false,
            missed: None,
        })?;
    }
    Ok(watches)
}

/// What a line says of the call that a caller is in.
fn said_of(caller: u32, line: &Line) -> Option<Option<Command>>
    ensures { result ≡ said_of caller line.now }
{
    match line.actor {
        ActorId::Caller(other) if other == caller => call_said(&line.event),
        _ => None,
    }
}

/// Whether a caller is in a call of a command, by what was said of its call.
fn is_inside(command: &Command, inside: bool, said: Option<Option<Command>>) -> bool
    ensures { result ≡ is_inside command.now inside said }
{
    match said {
        Some(Some(call)) => is_same_command(command, &call),
        Some(None) => false,
        None => inside,
    }
}

/// What is missed first of a use, with a line of this number that is of a call.
fn missed_with(
    plan: &Plan,
    parts: &Parts,
    number: u32,
    of_call: bool,
    watch: &Watch,
) -> Option<Missed>
    requires made_for { IsFor plan.now parts.now.shape }
    requires in_range { watch.now.expected.dev.0 < length plan.now.devices }
    ensures { result ≡ missed_with number of_call (lack_now plan.now parts.now.views watch.now.expected.dev) watch.now.missed }
{
    if let Some(missed) = watch.missed {
        return Some(missed);
    }
    if !of_call {
        return None;
    }
    match lack_now(parts, plan, watch.expected.dev) {
        Some(lack) => Some(Missed { line: number, lack }),
        None => None,
    }
}

/// The same use with a line more of this number, by the counters after it.
fn watch_after(plan: &Plan, parts: &Parts, number: u32, line: &Line, watch: &Watch) -> Watch
    requires made_for { IsFor plan.now parts.now.shape }
    requires in_range { watch.now.expected.dev.0 < length plan.now.devices }
    ensures { result ≡ watch_after plan.now parts.now.views number line.now watch.now }
{
    let said = said_of(watch.expected.caller, line);
    let inside = is_inside(&watch.expected.command, watch.inside, said);
    let missed = missed_with(plan, parts, number, watch.inside || inside, watch);
    Watch {
        expected: watch.expected,
        inside,
        missed,
    }
}

/// Takes note of a line of this number, by the counters after it. It looks at each use.
pub(crate) fn follow(watches: &mut Vec<Watch>, plan: &Plan, parts: &Parts, number: u32, line: &Line)
    requires made_for { IsFor plan.now parts.now.shape }
    requires of_plan { All (λ w. w.expected.dev.0 < length plan.now.devices) watches.old.items }
    ensures { watches.new.items ≡ map (watch_after plan.now parts.now.views number line.now) watches.old.items }
{
    for place in 0..watches.len() {
        watches[place] = watch_after(plan, parts, number, line, &watches[place]);
    }
}
