//! Where a finding stands in the plan's file.

ghost use Rattle.std.specs.Prelude.{◌≡◌, ◌++◌, ◌≤◌, ◌↔◌, [], IfOk, IfSome, IsTrue, Ok, codes, count_by, drop, length, map, take, true};
ghost use Rattle.pm_find.specs.trace.PlanPlaces.{IsPlaceOf, ShowsCommand, calls_of, is_call, is_of_end, spoken_at, spoken_by, spoken_command, spoken_of};
ghost use Rattle.pm_script.specs.Command.{command_of};
ghost use Rattle.pm_spans.specs.source.Lines.{place_text};

use crate::findings::{Finding, Kind};
use crate::text::push;
use pm_base::{ActorId, NoMemory};
use pm_model::{Command, Event, Line, Plan};
use pm_script::read_command;
use pm_spans::keys::{Path, find};
use pm_spans::source::push_place;
use std::alloc::Global;
use toml_parser::{ParseError, quoted, starts_string};

/// The file of a plan: how it is called, and its text.
#[derive(Clone, Copy)]
pub struct PlanFile<'a> {
    pub name: &'a [u8],
    pub text: &'a [u8],
}

/// Which command of a caller's script a line belongs to.
#[derive(Clone, Copy, PartialEq, Eq)]
pub struct Spoken {
    pub caller: u32,
    /// Counted from 1.
    pub nth: usize,
}

// Whether an event is a call.
fn is_call(event: &Event) -> bool
    ensures { result ≡ is_call event.now }
{
    matches!(event, Event::Call { .. })
}

// Whether a line calls a command of this caller.
fn calls_of(caller: u32, line: &Line) -> bool
    ensures { result ≡ calls_of caller line.now }
{
    match line.actor {
        ActorId::Caller(of) => caller == of && is_call(&line.event),
        ActorId::Work(_) | ActorId::Timer(_) => false,
    }
}

// How many commands of a caller these lines call.
fn calls_in(lines: &[Line], caller: u32) -> usize
    ensures { result ≡ count_by (calls_of caller) lines.now }
{
    lines.iter().filter(|line| calls_of(caller, *line)).count()
}

// The command in which an actor writes the last of these lines.
fn spoken_by(lines: &[Line], actor: ActorId) -> Option<Spoken>
    ensures { result ≡ spoken_by lines.now actor }
{
    match actor {
        ActorId::Caller(caller) => Some(Spoken {
            caller,
            nth: calls_in(lines, caller),
        }),
        ActorId::Work(_) | ActorId::Timer(_) => None,
    }
}

// The first so many lines, or all of fewer.
fn front(lines: &[Line], number: u32) -> &[Line]
    ensures { result.now ≡ take number lines.now }
{
    match lines.get(..number as usize) {
        Some(front) => front,
        None => lines,
    }
}

// The command in which a line is written.
fn spoken_at(lines: &[Line], number: u32) -> Option<Spoken>
    ensures { result ≡ spoken_at lines.now number }
{
    match lines.get((number as usize).saturating_sub(1)) {
        Some(line) => spoken_by(front(lines, number), line.actor),
        None => None,
    }
}

// Whether a finding is told of what is left on at the end.
fn is_of_end(kind: &Kind) -> bool
    ensures { result ≡ is_of_end kind.now }
{
    matches!(kind, Kind::LeftOn { .. } | Kind::DomainOn(_))
}

// The command of which a finding is told. It goes through the lines up to the finding's.
fn spoken_of(lines: &[Line], found: &Finding) -> Option<Spoken>
    ensures { result ≡ spoken_of lines.now found.now }
{
    if is_of_end(&found.kind) {
        None
    } else {
        spoken_at(lines, found.line)
    }
}

// A command of a caller's script.
fn spoken_command(plan: &Plan, spoken: Spoken) -> Option<Command>
    ensures { result ≡ spoken_command plan.now spoken }
{
    match plan.callers.get(spoken.caller as usize) {
        Some(row) => row
            .script
            .as_slice()
            .get(spoken.nth.saturating_sub(1))
            .copied(),
        None => None,
    }
}

// Whether a text is this command over the plan's devices.
fn is_command_text(plan: &Plan, word: &[u8], command: Command) -> bool
    ensures { result ≡ true → command_of (map (λ row. row.name) plan.now.devices) word.now ≡ Ok command }
{
    match read_command(word, plan) {
        Ok(read) => is_same_command(&read, &command),
        Err(_) => false,
    }
}

// Whether two commands are equal.
fn is_same_command(one: &Command, other: &Command) -> bool
    ensures { IsTrue result ↔ (one.now ≡ other.now) }
{
    one == other
}

// What stands from a place on.
fn behind(text: &str, at: usize) -> Option<&str>
    ensures { IfSome result (λ rest. (at ≤ length text.now) × (rest.now ≡ drop at text.now)) }
{
    text.get(at..)
}

// The place, where a TOML string begins there that is this command.
fn shown_at(
    alloc: Global,
    plan: &Plan,
    text: &str,
    at: usize,
    command: Command,
) -> Result<Option<usize>, NoMemory>
    ensures { IfOk result (λ place. IfSome place (λ at. ShowsCommand plan.now text.now at command)) }
{
    let Some(rest) = behind(text, at) else {
        return Ok(None);
    };
    if !starts_string(rest) {
        return Ok(None);
    }
    match quoted(alloc, rest) {
        Ok((word, _)) if is_command_text(plan, word.as_bytes(), command) => Ok(Some(at)),
        Err(ParseError::OutOfMemory) => Err(NoMemory),
        _ => Ok(None),
    }
}

// Where a command of a caller's script is looked for.
fn path_of(spoken: Spoken) -> Path<'static> {
    Path {
        top: "caller",
        item: Some(spoken.caller as usize),
        key: Some("script"),
        element: Some(spoken.nth.saturating_sub(1)),
    }
}

// The place of a command of a caller's script in the text of the plan.
fn place_in(
    alloc: Global,
    plan: &Plan,
    text: &[u8],
    spoken: Spoken,
    command: Command,
) -> Result<Option<usize>, NoMemory>
    ensures { IfOk result (λ place. IfSome place (λ at. ShowsCommand plan.now text.now at command)) }
{
    let Ok(text) = str::from_utf8(text) else {
        return Ok(None);
    };
    match find(alloc, text, path_of(spoken))? {
        Some(found) => shown_at(alloc, plan, text, found.value.start, command),
        None => Ok(None),
    }
}

// What is told of a place.
fn told_place(alloc: Global, file: &[u8], text: &[u8], at: usize) -> Result<Vec<u8>, NoMemory>
    requires { at ≤ length text.now }
    ensures { IfOk result (λ told. told.items ≡ codes " (" ++ (place_text file.now text.now at ++ codes ")")) }
{
    let mut told = Vec::new(alloc);
    push(&mut told, b" (")?;
    push_place(&mut told, file, text, at)?;
    push(&mut told, b")")?;
    Ok(told)
}

// What is told of no place.
fn nowhere(alloc: Global) -> Result<Vec<u8>, NoMemory>
    ensures { IfOk result (λ told. told.items ≡ []) }
{
    Ok(Vec::new(alloc))
}

/// What is told of the place of a finding in the plan's file, which has this name and text: nothing, or that of the
/// command of which it is told. It goes through the lines up to the finding's, and through the text. Fails where memory
/// runs out.
pub(crate) fn place_of(
    alloc: Global,
    plan: &Plan,
    lines: &[Line],
    file: &[u8],
    text: &[u8],
    found: &Finding,
) -> Result<Vec<u8>, NoMemory>
    ensures { IfOk result (λ told. IsPlaceOf plan.now lines.now file.now text.now found.now told.items) }
{
    let Some(spoken) = spoken_of(lines, found) else {
        return nowhere(alloc);
    };
    let Some(command) = spoken_command(plan, spoken) else {
        return nowhere(alloc);
    };
    match place_in(alloc, plan, text, spoken, command)? {
        Some(at) => told_place(alloc, file, text, at),
        None => nowhere(alloc),
    }
}
