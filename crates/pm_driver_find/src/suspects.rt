//! What is looked for in the schedules of a driver.

ghost use Rattle.std.specs.Prelude.{◌≡◌, ◌+◌, ◌<◌, ◌++◌, ◌&&◌, ◌^◌, IfOk, OnOk, length};
ghost use Rattle.std.specs.List.{list_any};
ghost use Rattle.pm_base.specs.declared.codes.TheConstants.{EACCES};
ghost use Rattle.pm_driver_find.specs.Ahead.{is_marked};
ghost use Rattle.pm_driver_find.specs.Suspects.{caller_suspects, fails_to, hanging, is_for, is_for_failures, is_open, leads_to_touch, lines_at, own_suspects, place_suspects, program_suspects, reads_failures, refused_put, refused_status, resumes, resumes_now, sets_status, suspects_from, suspects_of, touched_off, unread_access, unread_failure};

use crate::ahead::{Aim, ahead_of, is_marked, is_put, some_marked};
use crate::ends::begins_turn;
use crate::examined::{CallerOrigin, ExaminedDriver};
use crate::leftovers::{is_own, push_devices};
use crate::sights::DriverSight;
use pm_base::{DevId, EACCES, EAGAIN, EBUSY};
use pm_driver_rules::CallerRules;
use pm_driver_script::{Guard, PlaceExit, Program, ProgramPlace};
use pm_driver_text::CodeTest;
use pm_model::Helper;
use std::alloc::{AllocError, Global};

// Whether an exit is for this very code.
fn is_for(code: i32, exit: &PlaceExit) -> bool
    ensures { result ≡ is_for code exit.now }
{
    match exit.test {
        CodeTest::Is { code: own } => own == i64::from(code),
        _ => false,
    }
}

// Whether one of these exits is for access that is denied.
fn reads_access(exits: &[PlaceExit]) -> bool
    ensures { result ≡ list_any (is_for EACCES) exits.now }
{
    for exit in exits {
        if is_for(EACCES, exit) {
            return true;
        }
    }
    false
}

// Whether an exit is for a call that has failed.
fn is_for_failures(exit: &PlaceExit) -> bool
    ensures { result ≡ is_for_failures exit.now }
{
    match exit.test {
        CodeTest::Negative | CodeTest::Nonzero => true,
        CodeTest::Is { code } => code < 0 && code != i64::from(EACCES),
    }
}

// Whether one of these exits is.
fn some_for_failures(exits: &[PlaceExit]) -> bool
    ensures { result ≡ list_any is_for_failures exits.now }
{
    for exit in exits {
        if is_for_failures(exit) {
            return true;
        }
    }
    false
}

fn reads_failures(place: &ProgramPlace) -> bool
    ensures { result ≡ reads_failures place.now }
{
    place.reads && some_for_failures(place.exits.as_slice())
}

// Whether one of those is marked at which a program goes on from a call that has failed.
fn some_failure_marked(marks: &[bool], exits: &[PlaceExit]) -> bool
    ensures { result ≡ list_any (λ x. is_for_failures x && is_marked marks.now x.to) exits.now }
{
    for exit in exits {
        if is_for_failures(exit) && is_marked(marks, exit.to) {
            return true;
        }
    }
    false
}

fn fails_to(marks: &[bool], place: &ProgramPlace) -> bool
    ensures { result ≡ fails_to marks.now place.now }
{
    some_failure_marked(marks, place.exits.as_slice())
        || some_marked(marks, place.otherwise.as_slice())
}

fn leads_to_touch(
    alloc: Global,
    program: &Program,
    place: &ProgramPlace,
) -> Result<bool, AllocError>
    ensures { IfOk result (λ yes. yes ≡ leads_to_touch program.now place.now) }
{
    let marks = ahead_of(
        alloc,
        program,
        Aim::Touch {
            dev: place.command.dev,
        },
    )?;
    Ok(fails_to(marks.as_slice(), place))
}

fn resumes(helper: Helper) -> bool
    ensures { result ≡ resumes helper }
{
    matches!(
        helper,
        Helper::GetSync | Helper::Get | Helper::Resume | Helper::RequestResume
    )
}

fn resumes_now(helper: Helper) -> bool
    ensures { result ≡ resumes_now helper }
{
    matches!(helper, Helper::GetSync | Helper::Resume)
}

fn sets_status(helper: Helper) -> bool
    ensures { result ≡ sets_status helper }
{
    matches!(helper, Helper::SetActive | Helper::SetSuspended)
}

fn is_open(guard: Guard) -> bool
    ensures { result ≡ is_open guard }
{
    matches!(guard, Guard::Open)
}

fn push_unread(
    out: &mut Vec<DriverSight>,
    caller: u32,
    number: usize,
    place: &ProgramPlace,
) -> Result<(), AllocError>
    ensures { OnOk result (out.new.items ≡ out.old.items ++ unread_access caller number place.now) }
{
    if resumes(place.command.helper) && !reads_access(place.exits.as_slice()) {
        out.push(DriverSight::Answers {
            caller,
            place: number,
            code: EACCES,
        })?;
    }
    Ok(())
}

// A caller's program, with the step of the file that each of its steps is of.
#[derive(Clone, Copy)]
struct OwnProgram<'a> {
    caller: u32,
    lines: &'a [Option<u32>],
    program: &'a Program,
}

fn push_failure(
    out: &mut Vec<DriverSight>,
    alloc: Global,
    own: &OwnProgram,
    number: usize,
    place: &ProgramPlace,
) -> Result<(), AllocError>
    ensures { OnOk result (out.new.items ≡ out.old.items ++ unread_failure own.now.caller own.now.program.now number place.now) }
{
    if !resumes_now(place.command.helper) || reads_failures(place) {
        return Ok(());
    }
    if leads_to_touch(alloc, own.program, place)? {
        out.push(DriverSight::FailsUnread {
            caller: own.caller,
            place: number,
        })?;
    }
    Ok(())
}

fn push_refused(
    out: &mut Vec<DriverSight>,
    caller: u32,
    number: usize,
    place: &ProgramPlace,
) -> Result<(), AllocError>
    ensures { OnOk result (out.new.items ≡ out.old.items ++ refused_status caller number place.now) }
{
    if sets_status(place.command.helper) && !place.reads {
        out.push(DriverSight::Answers {
            caller,
            place: number,
            code: EAGAIN,
        })?;
        out.push(DriverSight::Answers {
            caller,
            place: number,
            code: EBUSY,
        })?;
    }
    Ok(())
}

fn push_put(
    out: &mut Vec<DriverSight>,
    caller: u32,
    number: usize,
    place: &ProgramPlace,
) -> Result<(), AllocError>
    ensures { OnOk result (out.new.items ≡ out.old.items ++ refused_put caller number place.now) }
{
    if is_put(place.command.helper) {
        out.push(DriverSight::PutsNone {
            caller,
            place: number,
            dev: place.command.dev,
        })?;
    }
    Ok(())
}

fn push_touched(
    out: &mut Vec<DriverSight>,
    caller: u32,
    number: usize,
    touches: Option<DevId>,
) -> Result<(), AllocError>
    ensures { OnOk result (out.new.items ≡ out.old.items ++ touched_off caller number touches) }
{
    if let Some(dev) = touches {
        out.push(DriverSight::MeetsOff {
            caller,
            place: number,
            dev,
        })?;
    }
    Ok(())
}

fn push_hanging(
    out: &mut Vec<DriverSight>,
    own: &OwnProgram,
    number: usize,
    place: &ProgramPlace,
) -> Result<(), AllocError>
    ensures { OnOk result (out.new.items ≡ out.old.items ++ hanging own.now.caller own.now.program.now number place.now) }
{
    if !is_open(place.guard) && !begins_turn(own.program, place) {
        out.push(DriverSight::Hangs {
            caller: own.caller,
            place: number,
        })?;
    }
    Ok(())
}

// What is looked for at a place of a step of the file.
fn push_own(
    out: &mut Vec<DriverSight>,
    alloc: Global,
    own: &OwnProgram,
    number: usize,
    place: &ProgramPlace,
) -> Result<(), AllocError>
    ensures { OnOk result (out.new.items ≡ out.old.items ++ own_suspects own.now.caller own.now.program.now number place.now) }
{
    push_unread(out, own.caller, number, place)?;
    push_failure(out, alloc, own, number, place)?;
    push_refused(out, own.caller, number, place)?;
    push_put(out, own.caller, number, place)?;
    push_touched(out, own.caller, number, place.touches)?;
    push_hanging(out, own, number, place)?;
    Ok(())
}

fn push_place(
    out: &mut Vec<DriverSight>,
    alloc: Global,
    own: &OwnProgram,
    number: usize,
    place: &ProgramPlace,
) -> Result<(), AllocError>
    ensures { OnOk result (out.new.items ≡ out.old.items ++ place_suspects own.now.caller own.now.lines.now own.now.program.now number place.now) }
{
    if is_own(own.lines, place.standing.goal) {
        push_own(out, alloc, own, number, place)?;
    }
    Ok(())
}

// What is looked for at these places, counted on from a number.
fn push_places(
    out: &mut Vec<DriverSight>,
    alloc: Global,
    own: &OwnProgram,
    number: usize,
    places: &[ProgramPlace],
) -> Result<(), AllocError>
    requires { number + length places.now < 2 ^ 64 }
    ensures { OnOk result (out.new.items ≡ out.old.items ++ program_suspects own.now.caller own.now.lines.now own.now.program.now number places.now) }
{
    let [place, rest @ ..] = places else {
        return Ok(());
    };
    push_place(out, alloc, own, number, place)?;
    push_places(out, alloc, own, number + 1, rest)?;
    Ok(())
}

// The step of the file that each step of a caller's program is of.
fn lines_at<'a>(origins: &[CallerOrigin<'a>], number: u32) -> &'a [Option<u32>]
    ensures { result.now ≡ lines_at origins.now number }
{
    match origins.get(number as usize) {
        Some(origin) => origin.lines,
        None => &[],
    }
}

fn push_caller(
    out: &mut Vec<DriverSight>,
    alloc: Global,
    origins: &[CallerOrigin],
    number: u32,
    caller: &CallerRules,
) -> Result<(), AllocError>
    ensures { OnOk result (out.new.items ≡ out.old.items ++ caller_suspects origins.now number caller.now) }
{
    let own = OwnProgram {
        caller: number,
        lines: lines_at(origins, number),
        program: caller.program,
    };
    push_places(out, alloc, &own, 0, caller.program.places.as_slice())?;
    Ok(())
}

// And in the programs of these callers, counted on from a number.
fn push_callers(
    out: &mut Vec<DriverSight>,
    alloc: Global,
    origins: &[CallerOrigin],
    number: u32,
    callers: &[CallerRules],
) -> Result<(), AllocError>
    requires { number + length callers.now < 2 ^ 32 }
    ensures { OnOk result (out.new.items ≡ out.old.items ++ suspects_from origins.now number callers.now) }
{
    let [caller, rest @ ..] = callers else {
        return Ok(());
    };
    push_caller(out, alloc, origins, number, caller)?;
    push_callers(out, alloc, origins, number + 1, rest)?;
    Ok(())
}

/// What is looked for in the schedules of a driver.
#[tactic(auto, using(crate::proofs::FewLemmas::few_devices))]
pub fn suspects(alloc: Global, examined: &ExaminedDriver) -> Result<Vec<DriverSight>, AllocError>
    requires { length examined.now.rules.now.callers.now < 2 ^ 32 }
    ensures { IfOk result (λ out. out.items ≡ suspects_of examined.now) }
{
    let mut out = Vec::new(alloc);
    push_callers(&mut out, alloc, examined.origins, 0, examined.rules.callers)?;
    push_devices(
        &mut out,
        alloc,
        examined,
        0,
        examined.rules.plan.devices.as_slice(),
    )?;
    Ok(out)
}
