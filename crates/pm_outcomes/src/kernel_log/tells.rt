//! What a line tells.

ghost use Rattle.std.specs.Prelude.{◌≡◌};
ghost use Rattle.pm_outcomes.specs.kernel_log.Tells.{behind_word, command_in, told_answer, told_answer_of, told_by, told_end, told_end_of, word};

use crate::kernel_log::lines::split_at_byte;
use pm_base::{DevId, Status};
use pm_lab_words::{code_in, number_between, status_in};
use pm_model::{CallerRow, Plan};

/// What is told of a run.
#[derive(Clone, Copy, PartialEq, Eq, Hash)]
pub enum Tell {
    /// A command of a caller, from 1, answered this code.
    Answer {
        caller: u32,
        command: u32,
        code: i32,
    },
    /// A device ended so. A kernel's usage may be below 0.
    End {
        device: DevId,
        status: Status,
        usage: i64,
    },
}

/// What a line tells.
#[derive(Clone, Copy, PartialEq, Eq)]
pub enum Told {
    Tells(Tell),
    /// The outcome is whole.
    Done,
}

/// A script has no more commands.
const MOST_COMMANDS: u32 = 1000;

/// The text before the first space.
#[tactic(auto, using(crate::proofs::kernel_log::SplitLemmas::whole_before))]
fn word(text: &[u8]) -> &[u8]
    ensures { result.now ≡ word text.now }
{
    match split_at_byte(text, b' ') {
        Some((before, _)) => before,
        None => text,
    }
}

/// The text behind the first space.
#[tactic(auto, using(crate::proofs::kernel_log::SplitLemmas::nothing_behind))]
fn behind_word(text: &[u8]) -> &[u8]
    ensures { result.now ≡ behind_word text.now }
{
    match split_at_byte(text, b' ') {
        Some((_, behind)) => behind,
        None => &[],
    }
}

/// The number of a command of the caller, from 1.
fn command_in(row: &CallerRow, word: &[u8]) -> Option<u32>
    ensures { result ≡ command_in row.now word.now }
{
    let number = number_between(1, MOST_COMMANDS, word)?;
    if number as usize <= row.script.as_slice().len() {
        Some(number)
    } else {
        None
    }
}

/// What is told of a command of a caller.
fn told_answer_of(caller: u32, number: &[u8], code: &[u8], row: &CallerRow) -> Option<Told>
    ensures { result ≡ told_answer_of caller number.now code.now row.now }
{
    let command = command_in(row, number)?;
    let code = code_in(code)?;
    Some(Told::Tells(Tell::Answer {
        caller,
        command,
        code,
    }))
}

/// What `CALLER N CODE` tells.
fn told_answer(plan: &Plan, text: &[u8]) -> Option<Told>
    ensures { result ≡ told_answer plan.now text.now }
{
    let caller = plan.callers.find(word(text))?;
    let row = plan.callers.get(caller)?;
    let rest = behind_word(text);
    told_answer_of(caller as u32, word(rest), behind_word(rest), row)
}

/// What is told of a device.
fn told_end_of(status: &[u8], usage: &[u8], device: DevId) -> Option<Told>
    ensures { result ≡ told_end_of status.now usage.now device.0 }
{
    let status = status_in(status)?;
    let usage = i64::from(code_in(usage)?);
    Some(Told::Tells(Tell::End {
        device,
        status,
        usage,
    }))
}

/// What `DEVICE STATUS USAGE` tells.
fn told_end(plan: &Plan, text: &[u8]) -> Option<Told>
    ensures { result ≡ told_end plan.now text.now }
{
    let device = plan.devices.find(word(text))?;
    let rest = behind_word(text);
    told_end_of(word(rest), behind_word(rest), DevId(device as u32))
}

/// What a text behind `pm_lab: ` tells.
pub fn told_by(plan: &Plan, text: &[u8]) -> Option<Told>
    ensures { result ≡ told_by plan.now text.now }
{
    if text == b"done".as_slice() {
        return Some(Told::Done);
    }
    let first = word(text);
    if first == b"answer".as_slice() {
        told_answer(plan, behind_word(text))
    } else if first == b"end".as_slice() {
        told_end(plan, behind_word(text))
    } else {
        None
    }
}
