//! What is looked for at the end of the schedules of a driver.

ghost use Rattle.std.specs.Prelude.{◌≡◌, ◌+◌, ◌<◌, ◌++◌, ◌^◌, IfOk, OnOk, length};
ghost use Rattle.std.specs.List.{list_any};
ghost use Rattle.pm_driver_find.specs.Ends.{any_at};
ghost use Rattle.pm_driver_find.specs.Leftovers.{device_suspects, devices_from, is_own, is_probe_at, is_taker, keeps, keeps_at, left_held, left_set, makes, sets, sets_at, takes};

use crate::ahead::{Aim, ahead_of, goes_to};
use crate::examined::{CallerOrigin, ExaminedDriver};
use crate::sights::{DriverSight, ProbeSetting};
use pm_base::DevId;
use pm_driver_rules::CallerRules;
use pm_driver_script::{Goal, Program, ProgramPlace};
use pm_model::{Command, DeviceRow, Helper};
use std::alloc::{AllocError, Global};

/// Whether a step of the program is one of the file.
pub fn is_own(lines: &[Option<u32>], goal: Goal) -> bool
    ensures { result ≡ is_own lines.now goal }
{
    let Goal::At { step, .. } = goal else {
        return false;
    };
    match lines.get(step as usize).copied() {
        Some(line) => line.is_some(),
        None => false,
    }
}

fn is_taker(helper: Helper) -> bool
    ensures { result ≡ is_taker helper }
{
    matches!(
        helper,
        Helper::GetSync
            | Helper::Get
            | Helper::GetNoresume
            | Helper::GetIfInUse
            | Helper::GetIfActive
    )
}

// Whether the call of a place may take a count of the device, and a return may come before any put of it.
fn takes(marks: &[bool], dev: DevId, place: &ProgramPlace) -> bool
    ensures { result ≡ takes marks.now dev place.now }
{
    is_taker(place.command.helper) && place.command.dev.0 == dev.0 && goes_to(marks, place)
}

fn some_take(marks: &[bool], dev: DevId, places: &[ProgramPlace]) -> bool
    ensures { result ≡ list_any (takes marks.now dev) places.now }
{
    for place in places {
        if takes(marks, dev, place) {
            return true;
        }
    }
    false
}

// Whether a caller may hold a count of the device where it has returned.
fn keeps(alloc: Global, dev: DevId, program: &Program) -> Result<bool, AllocError>
    ensures { IfOk result (λ yes. yes ≡ keeps dev program.now) }
{
    let marks = ahead_of(alloc, program, Aim::KeptReturn { dev })?;
    Ok(some_take(marks.as_slice(), dev, program.places.as_slice()))
}

fn is_probe_at(origins: &[CallerOrigin], number: u32) -> bool
    ensures { result ≡ is_probe_at origins.now number }
{
    match origins.get(number as usize) {
        Some(origin) => origin.is_probe,
        None => false,
    }
}

fn keeps_at(
    alloc: Global,
    origins: &[CallerOrigin],
    dev: DevId,
    number: u32,
    caller: &CallerRules,
) -> Result<bool, AllocError>
    ensures { IfOk result (λ yes. yes ≡ keeps_at origins.now dev number caller.now) }
{
    if is_probe_at(origins, number) {
        keeps(alloc, dev, caller.program)
    } else {
        Ok(false)
    }
}

// Whether a probe among these callers, counted on from a number, may.
fn may_keep(
    alloc: Global,
    origins: &[CallerOrigin],
    dev: DevId,
    number: u32,
    callers: &[CallerRules],
) -> Result<bool, AllocError>
    requires { number + length callers.now < 2 ^ 32 }
    ensures { IfOk result (λ yes. yes ≡ any_at (keeps_at origins.now dev) number callers.now) }
{
    let [caller, rest @ ..] = callers else {
        return Ok(false);
    };
    if keeps_at(alloc, origins, dev, number, caller)? {
        return Ok(true);
    }
    may_keep(alloc, origins, dev, number + 1, rest)
}

fn makes(setting: ProbeSetting, helper: Helper) -> bool
    ensures { result ≡ makes setting helper }
{
    match setting {
        ProbeSetting::Enabled => matches!(helper, Helper::Enable),
        ProbeSetting::Forbidden => matches!(helper, Helper::Forbid),
        ProbeSetting::Autosuspend => matches!(helper, Helper::UseAutosuspend),
    }
}

fn sets(setting: ProbeSetting, dev: DevId, lines: &[Option<u32>], place: &ProgramPlace) -> bool
    ensures { result ≡ sets setting dev lines.now place.now }
{
    makes(setting, place.command.helper)
        && place.command.dev.0 == dev.0
        && is_own(lines, place.standing.goal)
}

fn some_set(
    setting: ProbeSetting,
    dev: DevId,
    lines: &[Option<u32>],
    places: &[ProgramPlace],
) -> bool
    ensures { result ≡ list_any (sets setting dev lines.now) places.now }
{
    for place in places {
        if sets(setting, dev, lines, place) {
            return true;
        }
    }
    false
}

fn sets_at(
    setting: ProbeSetting,
    dev: DevId,
    origins: &[CallerOrigin],
    number: u32,
    caller: &CallerRules,
) -> bool
    ensures { result ≡ sets_at setting dev origins.now number caller.now }
{
    match origins.get(number as usize) {
        Some(origin) => {
            origin.is_probe
                && some_set(setting, dev, origin.lines, caller.program.places.as_slice())
        }
        None => false,
    }
}

// Whether a probe among these callers, counted on from a number, sets the device so.
fn sets_up(
    setting: ProbeSetting,
    dev: DevId,
    origins: &[CallerOrigin],
    number: u32,
    callers: &[CallerRules],
) -> bool
    requires { number + length callers.now < 2 ^ 32 }
    ensures { result ≡ any_at (sets_at setting dev origins.now) number callers.now }
{
    let [caller, rest @ ..] = callers else {
        return false;
    };
    sets_at(setting, dev, origins, number, caller)
        || sets_up(setting, dev, origins, number + 1, rest)
}

fn push_set(
    out: &mut Vec<DriverSight>,
    examined: &ExaminedDriver,
    dev: DevId,
    setting: ProbeSetting,
) -> Result<(), AllocError>
    requires { length examined.now.rules.now.callers.now < 2 ^ 32 }
    ensures { OnOk result (out.new.items ≡ out.old.items ++ left_set examined.now dev setting) }
{
    if sets_up(setting, dev, examined.origins, 0, examined.rules.callers) {
        out.push(DriverSight::LeftSet { dev, setting })?;
    }
    Ok(())
}

fn push_held(
    out: &mut Vec<DriverSight>,
    alloc: Global,
    examined: &ExaminedDriver,
    dev: DevId,
) -> Result<(), AllocError>
    requires { length examined.now.rules.now.callers.now < 2 ^ 32 }
    ensures { OnOk result (out.new.items ≡ out.old.items ++ left_held examined.now dev) }
{
    let kept = may_keep(alloc, examined.origins, dev, 0, examined.rules.callers)?;
    out.push(DriverSight::LeftOn { dev })?;
    out.push(DriverSight::Leaks { dev, kept })?;
    Ok(())
}

fn push_device(
    out: &mut Vec<DriverSight>,
    alloc: Global,
    examined: &ExaminedDriver,
    dev: DevId,
) -> Result<(), AllocError>
    requires { length examined.now.rules.now.callers.now < 2 ^ 32 }
    ensures { OnOk result (out.new.items ≡ out.old.items ++ device_suspects examined.now dev) }
{
    push_held(out, alloc, examined, dev)?;
    push_set(out, examined, dev, ProbeSetting::Enabled)?;
    push_set(out, examined, dev, ProbeSetting::Forbidden)?;
    push_set(out, examined, dev, ProbeSetting::Autosuspend)?;
    Ok(())
}

/// Appends what is looked for of these devices, counted on from a number.
pub fn push_devices(
    out: &mut Vec<DriverSight>,
    alloc: Global,
    examined: &ExaminedDriver,
    number: u32,
    rows: &[DeviceRow],
) -> Result<(), AllocError>
    requires callers { length examined.now.rules.now.callers.now < 2 ^ 32 }
    requires devices { number + length rows.now < 2 ^ 32 }
    ensures { OnOk result (out.new.items ≡ out.old.items ++ devices_from examined.now number rows.now) }
{
    let [_, rest @ ..] = rows else {
        return Ok(());
    };
    push_device(out, alloc, examined, DevId(number))?;
    push_devices(out, alloc, examined, number + 1, rest)?;
    Ok(())
}
