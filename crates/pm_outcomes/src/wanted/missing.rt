//! The line that names what of the words a plan doesn't have.

ghost use Rattle.std.specs.Prelude.{◌≡◌, ◌++◌, [], IfOk, OnOk, map, slice_get};
ghost use Rattle.std.specs.List.{flat_map};
ghost use Rattle.std.specs.Option.{option_map_or};
ghost use Rattle.pm_lab_words.specs.Request.{sought_in};
ghost use Rattle.pm_outcomes.specs.wanted.Missing.{commands_text, further_name, missing_text, names_text, no_command, no_name, some_names};

use crate::wanted::sought::Missing;
use pm_base::NoMemory;
use pm_lab_words::Sought;
use pm_model::{Named, Plan};
use pm_spans::source::{push, push_number, push_visible};
use std::alloc::Global;

/// So many names are shown behind the first, at most.
const FURTHER: usize = 9;

// Appends names behind another.
fn push_further<T: Named>(text: &mut Vec<u8>, rows: &[T]) -> Result<(), NoMemory>
    ensures { OnOk result (text.new.items ≡ text.old.items ++ flat_map further_name (map T.name_of rows.now)) }
{
    for row in rows {
        push(text, b", ")?;
        push(text, row.name().as_slice())?;
    }
    Ok(())
}

// Appends at most so many names behind another, and dots where there are more.
fn push_some<T: Named>(text: &mut Vec<u8>, rows: &[T]) -> Result<(), NoMemory>
    ensures { OnOk result (text.new.items ≡ text.old.items ++ some_names (map T.name_of rows.now)) }
{
    if rows.len() <= FURTHER {
        return push_further(text, rows);
    }
    push_further(text, &rows[..FURTHER])?;
    push(text, b", ..")
}

// Appends at most ten names.
fn push_names<T: Named>(text: &mut Vec<u8>, rows: &[T]) -> Result<(), NoMemory>
    ensures { OnOk result (text.new.items ≡ text.old.items ++ names_text (map T.name_of rows.now)) }
{
    let [first, rest @ ..] = rows else {
        return push(text, b"none");
    };
    push(text, first.name().as_slice())?;
    push_some(text, rest)
}

// The line of a name that no row has.
fn no_name<T: Named>(
    alloc: Global,
    kind: &[u8],
    name: &str,
    rows: &[T],
) -> Result<Vec<u8>, NoMemory>
    ensures { IfOk result (λ text. text.items ≡ no_name kind.now name.now (map T.name_of rows.now)) }
{
    let mut text = Vec::new(alloc);
    push(&mut text, b"order: no ")?;
    push(&mut text, kind)?;
    push(&mut text, b" \"")?;
    push_visible(&mut text, name.as_bytes())?;
    push(&mut text, b"\": the plan has ")?;
    push_names(&mut text, rows)?;
    push(&mut text, b"\n")?;
    Ok(text)
}

// Appends how many commands the caller at a place has.
fn push_commands(text: &mut Vec<u8>, plan: &Plan, caller: u32) -> Result<(), NoMemory>
    ensures { OnOk result (text.new.items ≡ text.old.items ++ option_map_or commands_text (slice_get plan.now.callers caller) []) }
{
    match plan.callers.get(caller as usize) {
        Some(row) => push_number(text, row.script.as_slice().len()),
        None => Ok(()),
    }
}

// The line of a command that the caller at a place doesn't have.
fn no_command(
    alloc: Global,
    plan: &Plan,
    name: &str,
    number: u32,
    caller: u32,
) -> Result<Vec<u8>, NoMemory>
    ensures { IfOk result (λ text. text.items ≡ no_command plan.now name.now number caller) }
{
    let mut text = Vec::new(alloc);
    push(&mut text, b"order: no command ")?;
    push_number(&mut text, number as usize)?;
    push(&mut text, b" of ")?;
    push(&mut text, name.as_bytes())?;
    push(&mut text, b": it has ")?;
    push_commands(&mut text, plan, caller)?;
    push(&mut text, b"\n")?;
    Ok(text)
}

/// The line that names what of the words the plan doesn't have. Fails where memory runs out.
pub fn missing_text(
    alloc: Global,
    plan: &Plan,
    asked: &Sought<'_>,
    missing: Missing,
) -> Result<Vec<u8>, NoMemory>
    ensures { IfOk result (λ text. text.items ≡ missing_text plan.now (sought_in asked.now) missing) }
{
    match asked {
        Sought::Return { caller, number, .. } => match missing {
            Missing::Command(place) => no_command(alloc, plan, caller, *number, place),
            Missing::Caller | Missing::Device => {
                no_name(alloc, b"caller", caller, plan.callers.as_slice())
            }
        },
        Sought::End { device, .. } => { no_name(alloc, b"device", device, plan.devices.as_slice()) }
    }
}
