//! Whether codes and scripts keep to the limits of a plan.

ghost use Rattle.std.specs.Prelude.{◌≡◌, ◌&&◌, length};
ghost use Rattle.std.specs.List.{list_all};
ghost use Rattle.pm_model.specs.IsPlan.{are_codes, is_code, is_command, is_operand, is_script, least_ms};
ghost use Rattle.pm_driver_runs.specs.Limits.{have_codes, have_scripts};

use pm_base::{EACCES, MAX_CODES, MAX_COMMANDS, MAX_MS, MIN_CODE};
use pm_linetext::{operand_of, takes_device};
use pm_model::{CallerRow, Command, DeviceRow, Helper, Operand};

fn is_code(code: i32) -> bool
    ensures { result ≡ is_code code }
{
    MIN_CODE <= code && code <= 0 && code != EACCES
}

fn has_codes_alone(codes: &[i32]) -> bool
    ensures { result ≡ list_all is_code codes.now }
{
    codes.iter().all(|code| is_code(*code))
}

fn are_codes(codes: &[i32]) -> bool
    ensures { result ≡ are_codes codes.now }
{
    codes.len() <= MAX_CODES && has_codes_alone(codes)
}

// Whether the suspend and resume callbacks of each device answer the codes of a plan.
fn have_codes(rows: &[DeviceRow]) -> bool
    ensures { result ≡ have_codes rows.now }
{
    rows.iter().all(|row| are_codes(row.suspend.as_slice()) && are_codes(row.resume.as_slice()))
}

// The least number of milliseconds that a helper takes.
fn least_ms(helper: Helper) -> i64
    ensures { result ≡ least_ms helper }
{
    match helper {
        Helper::SetAutosuspendDelay => -i64::from(MAX_MS),
        _ => 0,
    }
}

// Whether a number is one that a helper takes, over so many devices.
fn is_operand(devices: usize, helper: Helper, operand: Operand, number: i64) -> bool
    ensures { result ≡ is_operand devices helper operand number }
{
    match operand {
        Operand::Nothing => number == 0,
        Operand::Milliseconds => least_ms(helper) <= number && number <= i64::from(MAX_MS),
        Operand::Switch => number == 0 || number == 1,
        Operand::Supplier => 0 <= number && number.unsigned_abs() < devices as u64,
    }
}

// Whether a command is one over so many devices.
fn is_command(devices: usize, command: &Command) -> bool
    ensures { result ≡ is_command devices command.now }
{
    let is_over = if takes_device(command.helper) {
        (command.dev.0 as usize) < devices
    } else {
        command.dev.0 == 0
    };
    let operand = operand_of(command.helper);
    is_over && is_operand(devices, command.helper, operand, command.number)
}

fn has_commands_alone(devices: usize, commands: &[Command]) -> bool
    ensures { result ≡ list_all (is_command devices) commands.now }
{
    commands.iter().all(|command| is_command(devices, command))
}

fn is_script(devices: usize, commands: &[Command]) -> bool
    ensures { result ≡ is_script devices commands.now }
{
    commands.len() <= MAX_COMMANDS && has_commands_alone(devices, commands)
}

// Whether each caller's script is one of a plan of so many devices.
fn have_scripts(devices: usize, rows: &[CallerRow]) -> bool
    ensures { result ≡ have_scripts devices rows.now }
{
    rows.iter()
        .all(|row| is_script(devices, row.script.as_slice()))
}

/// Whether these codes and scripts keep to the limits of a plan. It takes no memory.
pub fn are_fit(devices: &[DeviceRow], callers: &[CallerRow]) -> bool
    ensures { result ≡ (have_codes devices.now && have_scripts (length devices.now) callers.now) }
{
    have_codes(devices) && have_scripts(devices.len(), callers)
}
