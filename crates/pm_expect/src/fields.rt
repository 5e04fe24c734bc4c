//! The fields of a table.

ghost use Rattle.std.specs.Prelude.{◌≡◌, ◌<◌, ◌≤◌, IfOk, length};
ghost use Rattle.toml.specs.View.{table_view};
ghost use Rattle.pm_expect.specs.Fields.{caller_in, caller_named, code_in, command_in, command_read, device_in, device_named, left_in, left_named, nth_of, times_by, times_in, usage_in, usage_of, which_in, within};
ghost use Rattle.pm_expect.specs.Same.{is_same_command, is_same_helper, times_of};

use crate::expectation::{Left, Which};
use crate::refusal::{Key, Why};
use crate::tree::{number_at, optional_at, text_at};
use pm_base::{DevId, MAX_LINES, MIN_CODE};
use pm_linetext::helper_place;
use pm_model::{Command, Helper, Plan};
use pm_script::read_command;
use toml::Table;

/// The caller of this name.
fn caller_named(plan: &Plan, name: &[u8]) -> Result<u32, Why>
    ensures value { result ≡ caller_named plan.now name.now }
    ensures over { IfOk result (λ c. c < length plan.now.callers) }
{
    match plan.callers.find(name) {
        Some(place) => Ok(place as u32),
        None => Err(Why::NoCaller),
    }
}

/// The caller that a table names.
#[tactic(auto, unfolding(crate::specs::Fields::caller_in))]
pub(crate) fn caller_in(plan: &Plan, table: &Table) -> Result<u32, Why>
    ensures value { result ≡ caller_in plan.now (table_view table.now) }
    ensures over { IfOk result (λ c. c < length plan.now.callers) }
{
    caller_named(plan, text_at(Key::Caller, table)?.as_slice())
}

/// The device of this name.
fn device_named(plan: &Plan, name: &[u8]) -> Result<DevId, Why>
    ensures value { result ≡ device_named plan.now name.now }
    ensures over { IfOk result (λ d. d.0 < length plan.now.devices) }
{
    match plan.devices.find(name) {
        Some(place) => Ok(DevId(place as u32)),
        None => Err(Why::NoDevice),
    }
}

/// The device that a table names.
#[tactic(auto, unfolding(crate::specs::Fields::device_in))]
pub(crate) fn device_in(plan: &Plan, table: &Table) -> Result<DevId, Why>
    ensures value { result ≡ device_in plan.now (table_view table.now) }
    ensures over { IfOk result (λ d. d.0 < length plan.now.devices) }
{
    device_named(plan, text_at(Key::Device, table)?.as_slice())
}

/// The command that these bytes are.
fn command_read(plan: &Plan, text: &[u8]) -> Result<Command, Why>
    ensures { result ≡ command_read plan.now text.now }
{
    match read_command(text, plan) {
        Ok(command) => Ok(command),
        Err(fault) => Err(Why::NoCommand { fault }),
    }
}

/// The command that a table names.
#[tactic(auto, unfolding(crate::specs::Fields::command_in))]
pub(crate) fn command_in(plan: &Plan, table: &Table) -> Result<Command, Why>
    ensures { result ≡ command_in plan.now (table_view table.now) }
{
    command_read(plan, text_at(Key::Command, table)?.as_slice())
}

/// Whether two helpers are one.
fn is_same_helper(helper: Helper, other: Helper) -> bool
    ensures { result ≡ is_same_helper helper other }
{
    helper_place(helper) == helper_place(other)
}

/// Whether two commands are read the same.
#[tactic(auto, unfolding(crate::specs::Same::is_same_command))]
pub fn is_same_command(command: &Command, other: &Command) -> bool
    ensures { result ≡ is_same_command command.now other.now }
{
    is_same_helper(command.helper, other.helper)
        && command.dev.0 == other.dev.0
        && command.number == other.number
}

/// How often a script has a command.
fn times_of(command: &Command, script: &[Command]) -> usize
    ensures { result ≡ times_of command.now script.now }
{
    script
        .iter()
        .filter(|other| is_same_command(command, other))
        .count()
}

/// How often the script of a caller has a command.
fn counted(plan: &Plan, caller: u32, command: &Command) -> usize
    ensures { result ≡ times_by plan.now caller command.now }
{
    match plan.callers.get(caller as usize) {
        Some(row) => times_of(command, row.script.as_slice()),
        None => 0,
    }
}

/// How often the script of a caller has a command: at most 1,000 times, as many as it may have commands.
pub fn times_by(plan: &Plan, caller: u32, command: &Command) -> usize
    ensures times { result ≡ times_by plan.now caller command.now }
    ensures few { result ≤ 1000 }
{
    counted(plan, caller, command)
}

/// The same, where it is at least once.
pub(crate) fn times_in(plan: &Plan, caller: u32, command: &Command) -> Result<usize, Why>
    ensures times { result ≡ times_in plan.now caller command.now }
    ensures few { IfOk result (λ times. times ≤ 1000) }
{
    let times = times_by(plan, caller, command);
    if times == 0 {
        Err(Why::NotInScript)
    } else {
        Ok(times)
    }
}

/// The number, where it is in the range.
fn within(key: Key, low: i64, high: i64, number: i64) -> Result<i64, Why>
    ensures { result ≡ within key low high number }
{
    if low <= number && number <= high {
        Ok(number)
    } else {
        Err(Why::Range { key })
    }
}

/// The number of a call, of so many.
fn nth_of(times: usize, number: Option<i64>) -> Result<Which, Why>
    requires { times ≤ 1000 }
    ensures { result ≡ nth_of times number }
{
    match number {
        Some(number) => {
            let nth = within(Key::Nth, 1, times as i64, number)?;
            Ok(Which::Nth(nth as u32))
        }
        None => Ok(Which::Each),
    }
}

/// Which calls a table names, of so many.
#[tactic(auto, unfolding(crate::specs::Fields::which_in))]
pub(crate) fn which_in(times: usize, table: &Table) -> Result<Which, Why>
    requires { times ≤ 1000 }
    ensures { result ≡ which_in times (table_view table.now) }
{
    nth_of(times, optional_at(Key::Nth, table)?)
}

/// The code that a table names.
#[tactic(auto, unfolding(crate::specs::Fields::code_in))]
pub(crate) fn code_in(table: &Table) -> Result<i32, Why>
    ensures { result ≡ code_in (table_view table.now) }
{
    let code = within(
        Key::Code,
        i64::from(MIN_CODE),
        1,
        number_at(Key::Code, table)?,
    )?;
    Ok(code as i32)
}

/// How a word says that a device is left.
fn left_named(word: &[u8]) -> Result<Left, Why>
    ensures { result ≡ left_named word.now }
{
    if word == b"suspended".as_slice() {
        Ok(Left::Suspended)
    } else if word == b"active".as_slice() {
        Ok(Left::Active)
    } else {
        Err(Why::NoStatus)
    }
}

/// How a table says that a device is left.
#[tactic(auto, unfolding(crate::specs::Fields::left_in))]
pub(crate) fn left_in(table: &Table) -> Result<Left, Why>
    ensures { result ≡ left_in (table_view table.now) }
{
    left_named(text_at(Key::Status, table)?.as_slice())
}

/// A usage count that is one.
fn usage_of(number: Option<i64>) -> Result<Option<u32>, Why>
    ensures { result ≡ usage_of number }
{
    match number {
        Some(number) => {
            let usage = within(Key::Usage, 0, i64::from(MAX_LINES), number)?;
            Ok(Some(usage as u32))
        }
        None => Ok(None),
    }
}

/// The usage count that a table names.
#[tactic(auto, unfolding(crate::specs::Fields::usage_in))]
pub(crate) fn usage_in(table: &Table) -> Result<Option<u32>, Why>
    ensures { result ≡ usage_in (table_view table.now) }
{
    usage_of(optional_at(Key::Usage, table)?)
}
