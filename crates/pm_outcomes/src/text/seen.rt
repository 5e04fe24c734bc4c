//! The line that places the outcome of a kernel's run.

ghost use Rattle.std.specs.Prelude.{◌≡◌, ◌++◌, [], OnOk, option_map, slice_get};
ghost use Rattle.std.specs.Option.{option_map_or};
ghost use Rattle.pm_outcomes.specs.text.Seen.{called_text, command_there, few_text, none_within, none_words, seen_line, tell_text};

use crate::kernel_log::Tell;
use crate::text::pieces::status_text;
use crate::text::reach::Reach;
use pm_base::NoMemory;
use pm_linetext::{push, push_command, push_device, push_number, push_signed};
use pm_model::{CallerRow, Plan};

// Appends of how many preemptions at most.
#[tactic(auto, unfolding(crate::specs::text::Seen::few_text))]
fn push_few(text: &mut Vec<u8>, count: usize) -> Result<(), NoMemory>
    ensures { OnOk result (text.new.items ≡ text.old.items ++ few_text count) }
{
    push(text, b" of at most ")?;
    push_number(text, count as u64)?;
    push(text, b" preemptions")
}

// Appends that no schedule of at most so many preemptions shows it.
fn push_none_within(text: &mut Vec<u8>, round: usize) -> Result<(), NoMemory>
    ensures { OnOk result (text.new.items ≡ text.old.items ++ none_within round) }
{
    push(text, b"in no schedule")?;
    push_few(text, round)
}

/// Appends of which schedules none shows it.
pub fn push_none(text: &mut Vec<u8>, reach: Reach) -> Result<(), NoMemory>
    ensures { OnOk result (text.new.items ≡ text.old.items ++ none_words reach) }
{
    match reach {
        Reach::All => push(text, b"in no schedule"),
        Reach::Within(round) => push_none_within(text, round),
        Reach::Limit(Some(round)) => push_none_within(text, round),
        Reach::Limit(None) => push(text, b"no round is complete"),
    }
}

// Appends the command at a place of a script, if there is one.
fn push_command_at(
    text: &mut Vec<u8>,
    plan: &Plan,
    row: &CallerRow,
    place: usize,
) -> Result<(), NoMemory>
    ensures { OnOk result (text.new.items ≡ text.old.items ++ command_there plan.now row.now place) }
{
    match row.script.as_slice().get(place) {
        Some(command) => push_command(text, plan, command),
        None => Ok(()),
    }
}

// Appends a command of a caller, from 1.
fn push_called(
    text: &mut Vec<u8>,
    plan: &Plan,
    number: u32,
    row: &CallerRow,
) -> Result<(), NoMemory>
    ensures { OnOk result (text.new.items ≡ text.old.items ++ called_text plan.now number row.now) }
{
    push(text, row.name.as_slice())?;
    push(text, b" ")?;
    push_number(text, number as u64)?;
    push(text, b" ")?;
    push_command_at(text, plan, row, (number as usize).saturating_sub(1))
}

/// Appends the caller's command, if there is one.
pub fn push_caller(
    text: &mut Vec<u8>,
    plan: &Plan,
    number: u32,
    caller: u32,
) -> Result<(), NoMemory>
    ensures { OnOk result (text.new.items ≡ text.old.items ++ option_map_or (called_text plan.now number) (slice_get plan.now.callers caller) []) }
{
    match plan.callers.get(caller as usize) {
        Some(row) => push_called(text, plan, number, row),
        None => Ok(()),
    }
}

// Appends what a kernel tells.
fn push_tell(text: &mut Vec<u8>, plan: &Plan, tell: &Tell) -> Result<(), NoMemory>
    ensures { OnOk result (text.new.items ≡ text.old.items ++ tell_text plan.now tell.now) }
{
    match tell {
        Tell::Answer {
            caller,
            command,
            code,
        } => {
            push_caller(text, plan, *command, *caller)?;
            push(text, b" answered ")?;
            push_signed(text, i64::from(*code))
        }
        Tell::End {
            device,
            status,
            usage,
        } => {
            push_device(text, plan, *device)?;
            push(text, b" ended ")?;
            push(text, status_text(*status))?;
            push(text, b" usage ")?;
            push_signed(text, *usage)
        }
    }
}

/// Appends the line that says of what was told the first that none of the schedules shows, if there is one.
pub fn push_seen(
    text: &mut Vec<u8>,
    plan: &Plan,
    reach: Reach,
    unlisted: Option<&Tell>,
) -> Result<(), NoMemory>
    ensures { OnOk result (text.new.items ≡ text.old.items ++ seen_line plan.now reach (option_map (λ t. t.now) unlisted.entry)) }
{
    match unlisted {
        None => push(text, b"seen: every observation is listed\n"),
        Some(tell) => {
            push(text, b"seen: ")?;
            push_tell(text, plan, tell)?;
            push(text, b": ")?;
            push_none(text, reach)?;
            push(text, b"\n")
        }
    }
}
