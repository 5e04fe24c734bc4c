//! What an observation tells, appended to what stands before it.

ghost use Rattle.std.specs.Prelude.{◌≡◌, ◌++◌, OnOk, decimal};
ghost use Rattle.std.specs.List.{flat_map};
ghost use Rattle.pm_outcomes.specs.text.Texts.{after_text, choices_text, further_text, left_text, outcome_text, status_text, value_text};

use crate::list::{Left, Observation, Outcome};
use pm_base::{NoMemory, Status};
use pm_linetext::{push, push_signed};

/// Appends a count in decimal.
pub fn push_number(text: &mut Vec<u8>, number: usize) -> Result<(), NoMemory>
    ensures { OnOk result (text.new.items ≡ text.old.items ++ decimal number) }
{
    pm_linetext::push_number(text, number as u64)
}

/// The word of a status.
pub fn status_text(status: Status) -> &'static [u8]
    ensures { result.now ≡ status_text status }
{
    match status {
        Status::Active => b"active",
        Status::Suspended => b"suspended",
        Status::Suspending => b"suspending",
        Status::Resuming => b"resuming",
    }
}

// Appends how a device is left.
fn push_left(text: &mut Vec<u8>, left: &Left) -> Result<(), NoMemory>
    ensures { OnOk result (text.new.items ≡ text.old.items ++ left_text left.now) }
{
    push(text, status_text(left.status))?;
    push(text, b" usage ")?;
    push_number(text, left.usage as usize)?;
    push(text, b" error ")?;
    push_signed(text, i64::from(left.error))
}

/// Appends what an observation tells.
pub fn push_value(text: &mut Vec<u8>, observation: &Observation) -> Result<(), NoMemory>
    ensures { OnOk result (text.new.items ≡ text.old.items ++ value_text observation.now) }
{
    match observation {
        Observation::Return(returned) => push_signed(text, i64::from(returned.code)),
        Observation::End(left) => push_left(text, left),
    }
}

/// Appends a number of preemptions, where it isn't 0.
pub fn push_after(text: &mut Vec<u8>, round: usize) -> Result<(), NoMemory>
    ensures { OnOk result (text.new.items ≡ text.old.items ++ after_text round) }
{
    if round == 0 {
        return Ok(());
    }
    push(text, b" after ")?;
    push_number(text, round)
}

// Appends an outcome.
fn push_outcome(text: &mut Vec<u8>, outcome: &Outcome) -> Result<(), NoMemory>
    ensures { OnOk result (text.new.items ≡ text.old.items ++ outcome_text outcome.now) }
{
    push_value(text, &outcome.observation)?;
    push_after(text, outcome.round)
}

// Appends an outcome behind another.
fn push_further(text: &mut Vec<u8>, outcome: &Outcome) -> Result<(), NoMemory>
    ensures { OnOk result (text.new.items ≡ text.old.items ++ further_text outcome.now) }
{
    push(text, b" / ")?;
    push_outcome(text, outcome)
}

// Appends outcomes behind another.
fn push_rest(text: &mut Vec<u8>, outcomes: &[Outcome]) -> Result<(), NoMemory>
    ensures { OnOk result (text.new.items ≡ text.old.items ++ flat_map further_text outcomes.now) }
{
    for outcome in outcomes {
        push_further(text, outcome)?;
    }
    Ok(())
}

/// Appends the outcomes of a command or a device.
pub fn push_choices(text: &mut Vec<u8>, outcomes: &[Outcome]) -> Result<(), NoMemory>
    ensures { OnOk result (text.new.items ≡ text.old.items ++ choices_text outcomes.now) }
{
    let [first, rest @ ..] = outcomes else {
        return push(text, b"never");
    };
    push_outcome(text, first)?;
    push_rest(text, rest)
}
