//! The lines of the text.

ghost use Rattle.std.specs.Prelude.{◌≡◌, ◌++◌, IfOk, OnOk, filter, length};
ghost use Rattle.std.specs.List.{flat_map, range_with_len};
ghost use Rattle.pm_outcomes.specs.text.Texts.{call_line, caller_lines, command_line, end_line, is_end, is_left_out, is_return, last_line, reach_text, script_lines};
ghost use Rattle.pm_model.specs.Spelling.{device_name};
ghost use Rattle.pm_model.specs.Text.{names_of};

use crate::list::{Observation, Outcome};
use crate::text::pieces::push_choices;
use crate::text::reach::Reach;
use pm_base::NoMemory;
use pm_linetext::{push, push_command, push_number};
use pm_model::{CallerRow, Command, Named, Plan};
use std::alloc::{AllocError, Global};

// Whether an observation is a return of this command, from 1, of this caller.
fn is_return(caller: usize, command: usize, observation: &Observation) -> bool
    ensures { result ≡ is_return caller command observation.now }
{
    match observation {
        Observation::Return(returned) => {
            returned.caller as usize == caller && returned.command as usize == command
        }
        Observation::End(_) => false,
    }
}

// Whether an observation tells how this device is left.
fn is_end(device: usize, observation: &Observation) -> bool
    ensures { result ≡ is_end device observation.now }
{
    match observation {
        Observation::Return(_) => false,
        Observation::End(left) => left.device.0 as usize == device,
    }
}

// Those of the outcomes that are returns of a command.
fn returns_of(
    alloc: Global,
    outcomes: &[Outcome],
    caller: usize,
    command: usize,
) -> Result<Vec<Outcome>, AllocError>
    ensures { IfOk result (λ out. out.items ≡ filter (λ o. is_return caller command o.observation) outcomes.now) }
{
    let mut out = Vec::new(alloc);
    for outcome in outcomes {
        if is_return(caller, command, &outcome.observation) {
            out.push(*outcome)?;
        }
    }
    Ok(out)
}

// Those that tell how a device is left.
fn ends_of(alloc: Global, outcomes: &[Outcome], device: usize) -> Result<Vec<Outcome>, AllocError>
    ensures { IfOk result (λ out. out.items ≡ filter (λ o. is_end device o.observation) outcomes.now) }
{
    let mut out = Vec::new(alloc);
    for outcome in outcomes {
        if is_end(device, &outcome.observation) {
            out.push(*outcome)?;
        }
    }
    Ok(out)
}

// Whether so many outcomes aren't told.
fn is_left_out(differ: bool, outcomes: &[Outcome]) -> bool
    ensures { result ≡ is_left_out differ outcomes.now }
{
    differ && outcomes.len() <= 1
}

// Appends the line of a command, numbered from 1.
fn push_call(
    text: &mut Vec<u8>,
    alloc: Global,
    plan: &Plan,
    outcomes: &[Outcome],
    differ: bool,
    caller: usize,
    name: &[u8],
    number: usize,
    command: &Command,
) -> Result<(), NoMemory>
    ensures { OnOk result (text.new.items ≡ text.old.items ++ call_line plan.now differ outcomes.now caller name.now number command.now) }
{
    let told = returns_of(alloc, outcomes, caller, number)?;
    if is_left_out(differ, told.as_slice()) {
        return Ok(());
    }
    push(text, name)?;
    push(text, b" ")?;
    push_number(text, number as u64)?;
    push(text, b" ")?;
    push_command(text, plan, command)?;
    push(text, b": ")?;
    push_choices(text, told.as_slice())?;
    push(text, b"\n")
}

// Appends a line for each command of a caller.
fn push_script(
    text: &mut Vec<u8>,
    alloc: Global,
    plan: &Plan,
    outcomes: &[Outcome],
    differ: bool,
    caller: usize,
    row: &CallerRow,
) -> Result<(), NoMemory>
    ensures { OnOk result (text.new.items ≡ text.old.items ++ script_lines plan.now differ outcomes.now caller row.now) }
{
    let script = row.script.as_slice();
    for place in 0..script.len() {
        let command = &script[place];
        push_call(
            text,
            alloc,
            plan,
            outcomes,
            differ,
            caller,
            row.name.as_slice(),
            place + 1,
            command,
        )?;
    }
    Ok(())
}

/// Appends a line for each command of each caller.
pub fn push_callers(
    text: &mut Vec<u8>,
    alloc: Global,
    plan: &Plan,
    outcomes: &[Outcome],
    differ: bool,
) -> Result<(), NoMemory>
    ensures { OnOk result (text.new.items ≡ text.old.items ++ flat_map (caller_lines plan.now differ outcomes.now) (range_with_len 0 (length plan.now.callers))) }
{
    let rows = plan.callers.as_slice();
    for caller in 0..rows.len() {
        push_script(text, alloc, plan, outcomes, differ, caller, &rows[caller])?;
    }
    Ok(())
}

// The name of the device at a place of the plan, and no bytes for another.
#[tactic(auto, using(crate::proofs::text::TextLemmas::name_here))]
fn name_at(plan: &Plan, place: usize) -> &[u8]
    ensures { result.now ≡ device_name (names_of plan.now) place }
{
    match plan.devices.get(place) {
        Some(row) => row.name().as_slice(),
        None => &[],
    }
}

// Appends the line of a device.
fn push_end(
    text: &mut Vec<u8>,
    alloc: Global,
    plan: &Plan,
    outcomes: &[Outcome],
    differ: bool,
    device: usize,
) -> Result<(), NoMemory>
    ensures { OnOk result (text.new.items ≡ text.old.items ++ end_line plan.now differ outcomes.now device) }
{
    let told = ends_of(alloc, outcomes, device)?;
    if is_left_out(differ, told.as_slice()) {
        return Ok(());
    }
    push(text, b"end ")?;
    push(text, name_at(plan, device))?;
    push(text, b": ")?;
    push_choices(text, told.as_slice())?;
    push(text, b"\n")
}

/// Appends a line for each device.
pub fn push_ends(
    text: &mut Vec<u8>,
    alloc: Global,
    plan: &Plan,
    outcomes: &[Outcome],
    differ: bool,
) -> Result<(), NoMemory>
    ensures { OnOk result (text.new.items ≡ text.old.items ++ flat_map (end_line plan.now differ outcomes.now) (range_with_len 0 (length plan.now.devices))) }
{
    for device in 0..plan.devices.len() {
        push_end(text, alloc, plan, outcomes, differ, device)?;
    }
    Ok(())
}

// Appends how far the list is exact.
fn push_reach(text: &mut Vec<u8>, reach: Reach) -> Result<(), NoMemory>
    ensures { OnOk result (text.new.items ≡ text.old.items ++ reach_text reach) }
{
    match reach {
        Reach::All => push(text, b"all "),
        Reach::Within(round) => {
            push(text, b"within ")?;
            push_number(text, round as u64)?;
            push(text, b", ")
        }
        Reach::Limit(Some(round)) => {
            push(text, b"limit within ")?;
            push_number(text, round as u64)?;
            push(text, b", ")
        }
        Reach::Limit(None) => push(text, b"limit none, "),
    }
}

/// Appends the last line.
pub fn push_last(text: &mut Vec<u8>, reach: Reach, snapshots: usize) -> Result<(), NoMemory>
    ensures { OnOk result (text.new.items ≡ text.old.items ++ last_line reach snapshots) }
{
    push_reach(text, reach)?;
    push_number(text, snapshots as u64)?;
    push(text, b" states\n")
}
