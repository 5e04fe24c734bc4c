//! Whether a caller may call the command before which it stands.

ghost use Rattle.std.specs.Prelude.{◌≡◌, ◌+◌, ◌<◌, ◌^◌, length, slice_get};
ghost use Rattle.std.specs.List.{list_all};
ghost use Rattle.pm_model.specs.IsPlan.{each_at};
ghost use Rattle.pm_driver_rules.specs.Rules.{guard_holds, is_active_status, is_same_flag, leaves_begin, leaves_lock, leaves_run, may_begin, may_call, may_call_at, may_call_by, may_call_from, need_at, need_holds, need_of, status_at};

use crate::rules::{BeginNeed, CallerRules};
use crate::standing::{has_bit, has_returned, holds_lock, is_before, is_running, past_of};
use pm_base::{DevId, Status};
use pm_driver_orders::Position;
use pm_driver_script::{Guard, Past, Program, ProgramPlace};
use pm_model::Device;

/// The position of a caller.
fn position_at(positions: &[Position], caller: u32) -> Option<Position>
    ensures { result ≡ slice_get positions.now caller }
{
    positions.get(caller as usize).copied()
}

/// The status of a device.
pub fn status_at(devices: &[Device], dev: DevId) -> Status
    ensures { result ≡ status_at devices.now dev }
{
    match devices.get(dev.0 as usize) {
        Some(device) => device.status,
        None => Status::Suspended,
    }
}

pub fn is_active_status(status: Status) -> bool
    ensures { result ≡ is_active_status status }
{
    matches!(status, Status::Active)
}

// Whether the caller of a number is this one, or doesn't hold a lock.
fn leaves_lock(
    positions: &[Position],
    own: u32,
    lock: u32,
    number: u32,
    caller: &CallerRules,
) -> bool
    ensures { result ≡ leaves_lock positions.now own lock number caller.now }
{
    if number == own {
        return true;
    }
    match position_at(positions, number) {
        Some(position) => !holds_lock(caller.program, lock, position),
        None => true,
    }
}

// Whether no other of these callers, counted on from a number, holds a lock.
fn is_free(
    positions: &[Position],
    own: u32,
    lock: u32,
    number: u32,
    callers: &[CallerRules],
) -> bool
    requires { number + length callers.now < 2 ^ 32 }
    ensures { result ≡ each_at (leaves_lock positions.now own lock) number callers.now }
{
    let [caller, rest @ ..] = callers else {
        return true;
    };
    leaves_lock(positions, own, lock, number, caller)
        && is_free(positions, own, lock, number + 1, rest)
}

// Whether the caller of a number isn't in a set, or doesn't run.
fn leaves_run(positions: &[Position], stopped: u64, number: u32, caller: &CallerRules) -> bool
    ensures { result ≡ leaves_run positions.now stopped number caller.now }
{
    if !has_bit(stopped, number) {
        return true;
    }
    match position_at(positions, number) {
        Some(position) => !is_running(caller.program, position),
        None => true,
    }
}

// Whether none of these callers, counted on from a number, is in a set and runs.
fn have_ended(positions: &[Position], stopped: u64, number: u32, callers: &[CallerRules]) -> bool
    requires { number + length callers.now < 2 ^ 32 }
    ensures { result ≡ each_at (leaves_run positions.now stopped) number callers.now }
{
    let [caller, rest @ ..] = callers else {
        return true;
    };
    leaves_run(positions, stopped, number, caller)
        && have_ended(positions, stopped, number + 1, rest)
}

// Whether the caller of a number hasn't stopped another.
fn leaves_begin(positions: &[Position], own: u32, number: u32, caller: &CallerRules) -> bool
    ensures { result ≡ leaves_begin positions.now own number caller.now }
{
    let stopped = match position_at(positions, number) {
        Some(position) => past_of(caller.program, position).stopped,
        None => 0,
    };
    !has_bit(stopped, own)
}

// Whether none of these callers, counted on from a number, has stopped another.
fn has_no_stop(positions: &[Position], own: u32, number: u32, callers: &[CallerRules]) -> bool
    requires { number + length callers.now < 2 ^ 32 }
    ensures { result ≡ each_at (leaves_begin positions.now own) number callers.now }
{
    let [caller, rest @ ..] = callers else {
        return true;
    };
    leaves_begin(positions, own, number, caller) && has_no_stop(positions, own, number + 1, rest)
}

// Whether a caller at a place has passed a mark, or has returned.
fn need_at(mark: Option<u32>, program: &Program, position: Position) -> bool
    ensures { result ≡ need_at mark program.now position }
{
    match mark {
        Some(mark) => has_bit(past_of(program, position).marks, mark),
        None => has_returned(program, position),
    }
}

fn need_of(mark: Option<u32>, caller: &CallerRules, position: Option<Position>) -> bool
    ensures { result ≡ need_of mark caller.now position }
{
    match position {
        Some(position) => need_at(mark, caller.program, position),
        None => false,
    }
}

fn need_holds(callers: &[CallerRules], positions: &[Position], need: BeginNeed) -> bool
    ensures { result ≡ need_holds callers.now positions.now need }
{
    match callers.get(need.caller as usize) {
        Some(caller) => need_of(need.mark, caller, position_at(positions, need.caller)),
        None => false,
    }
}

fn needs_hold(callers: &[CallerRules], positions: &[Position], needs: &[BeginNeed]) -> bool
    ensures { result ≡ list_all (need_holds callers.now positions.now) needs.now }
{
    for need in needs {
        if !need_holds(callers, positions, *need) {
            return false;
        }
    }
    true
}

fn is_same_flag(set: bool, active: bool) -> bool
    ensures { result ≡ is_same_flag set active }
{
    if set { active } else { !active }
}

// Whether the guard holds of a call of a caller that has come so far.
fn guard_holds(
    callers: &[CallerRules],
    positions: &[Position],
    devices: &[Device],
    own: u32,
    past: Past,
    guard: Guard,
) -> bool
    requires { length callers.now < 2 ^ 32 }
    ensures { result ≡ guard_holds callers.now positions.now devices.now own past guard }
{
    match guard {
        Guard::Open => true,
        Guard::Free { lock } => is_free(positions, own, lock, 0, callers),
        Guard::Stopped => have_ended(positions, past.stopped, 0, callers),
        Guard::Flag { dev, set } => is_same_flag(set, is_active_status(status_at(devices, dev))),
    }
}

// Whether a caller may begin: all that it needs holds, and nobody has stopped it.
fn may_begin(
    callers: &[CallerRules],
    positions: &[Position],
    own: u32,
    caller: &CallerRules,
) -> bool
    requires { length callers.now < 2 ^ 32 }
    ensures { result ≡ may_begin callers.now positions.now own caller.now }
{
    needs_hold(callers, positions, caller.after) && has_no_stop(positions, own, 0, callers)
}

fn may_call_at(
    callers: &[CallerRules],
    positions: &[Position],
    devices: &[Device],
    own: u32,
    caller: &CallerRules,
    number: u32,
    place: &ProgramPlace,
) -> bool
    requires { length callers.now < 2 ^ 32 }
    ensures { result ≡ may_call_at callers.now positions.now devices.now own caller.now number place.now }
{
    guard_holds(
        callers,
        positions,
        devices,
        own,
        place.standing.past,
        place.guard,
    ) && (!is_before(caller.program, number) || may_begin(callers, positions, own, caller))
}

fn may_call_from(
    callers: &[CallerRules],
    positions: &[Position],
    devices: &[Device],
    own: u32,
    caller: &CallerRules,
    position: Position,
) -> bool
    requires { length callers.now < 2 ^ 32 }
    ensures { result ≡ may_call_from callers.now positions.now devices.now own caller.now position }
{
    let Position::At(number) = position else {
        return false;
    };
    match caller.program.places.as_slice().get(number as usize) {
        Some(place) => may_call_at(callers, positions, devices, own, caller, number, place),
        None => false,
    }
}

/// Whether a caller may call the command before which it stands, where all stand so and the devices are so.
pub fn may_call(
    callers: &[CallerRules],
    positions: &[Position],
    devices: &[Device],
    caller: u32,
) -> bool
    requires { length callers.now < 2 ^ 32 }
    ensures { result ≡ may_call callers.now positions.now devices.now caller }
{
    let Some(own) = callers.get(caller as usize) else {
        return false;
    };
    match position_at(positions, caller) {
        Some(position) => may_call_from(callers, positions, devices, caller, own, position),
        None => false,
    }
}
