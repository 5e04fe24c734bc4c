//! Where a schedule has come to its end.

ghost use Rattle.std.specs.Prelude.{◌≡◌, ◌+◌, ◌<◌, ◌^◌, length};
ghost use Rattle.pm_driver_rules.specs.Nodes.{driver_snapshot_of};
ghost use Rattle.pm_driver_rules.specs.Rules.{is_first, is_returned};
ghost use Rattle.pm_driver_find.specs.Ends.{any_at, begins_turn, came_at, came_by, end_at, has_come, has_happened, is_at_rest, is_failed, is_over, is_unbound, is_undone, is_within, may_call_on, stands_within};

use crate::examined::{CallerOrigin, ExaminedDriver};
use crate::quiet::is_quiet;
use pm_driver_orders::Position;
use pm_driver_rules::{CallerRules, DriverNode, may_call};
use pm_driver_script::{Goal, Program, ProgramPlace};

// Whether one of these callers, counted on from a number, may call.
fn may_call_on<'a>(
    callers: &[CallerRules<'a>],
    node: &DriverNode,
    number: u32,
    counted: &[CallerRules<'a>],
) -> bool
    requires few { length callers.now < 2 ^ 32 }
    requires counted { number + length counted.now < 2 ^ 32 }
    ensures { result ≡ any_at (may_call_on callers.now (driver_snapshot_of node.now)) number counted.now }
{
    let [_, rest @ ..] = counted else {
        return false;
    };
    let positions = node.positions.as_slice();
    let devices = node.snapshot.devices.as_slice();
    may_call(callers, positions, devices, number) || may_call_on(callers, node, number + 1, rest)
}

/// Whether nothing more may come.
pub fn is_over(examined: &ExaminedDriver, node: &DriverNode) -> bool
    requires { length examined.now.rules.now.callers.now < 2 ^ 32 }
    ensures { result ≡ is_over examined.now (driver_snapshot_of node.now) }
{
    let callers = examined.rules.callers;
    is_quiet(&node.snapshot) && !may_call_on(callers, node, 0, callers)
}

// Whether two goals are the same step and part.
fn is_first(first: Goal, goal: Goal) -> bool
    ensures { result ≡ is_first first goal }
{
    match first {
        Goal::At { step, part } => match goal {
            Goal::At {
                step: other,
                part: other_part,
            } => step == other && part == other_part,
            Goal::Returned | Goal::Failed => false,
        },
        Goal::Returned | Goal::Failed => false,
    }
}

/// Whether a turn of a program begins at a place.
pub fn begins_turn(program: &Program, place: &ProgramPlace) -> bool
    ensures { result ≡ begins_turn program.now place.now }
{
    match program.places.as_slice().get(0) {
        Some(first) => is_first(first.standing.goal, place.standing.goal),
        None => false,
    }
}

// Whether a caller that stands there is within a turn of its program.
fn is_within(program: &Program, position: Position) -> bool
    ensures { result ≡ is_within program.now position }
{
    match position {
        Position::In(_) => true,
        Position::At(number) => match program.places.as_slice().get(number as usize) {
            Some(place) => !begins_turn(program, place),
            None => false,
        },
    }
}

fn stands_within(positions: &[Position], number: u32, caller: &CallerRules) -> bool
    ensures { result ≡ stands_within positions.now number caller.now }
{
    match positions.get(number as usize).copied() {
        Some(position) => is_within(caller.program, position),
        None => false,
    }
}

// Whether one of these callers, counted on from a number, stands within a turn.
fn some_within(positions: &[Position], number: u32, callers: &[CallerRules]) -> bool
    requires { number + length callers.now < 2 ^ 32 }
    ensures { result ≡ any_at (stands_within positions.now) number callers.now }
{
    let [caller, rest @ ..] = callers else {
        return false;
    };
    stands_within(positions, number, caller) || some_within(positions, number + 1, rest)
}

/// Whether nothing more may come, and each caller has ended or hasn't begun.
pub fn is_at_rest(examined: &ExaminedDriver, node: &DriverNode) -> bool
    requires { length examined.now.rules.now.callers.now < 2 ^ 32 }
    ensures { result ≡ is_at_rest examined.now (driver_snapshot_of node.now) }
{
    is_over(examined, node) && !some_within(node.positions.as_slice(), 0, examined.rules.callers)
}

// The end of a program at which a caller stands there.
fn end_at(program: &Program, position: Position) -> Option<Goal>
    ensures { result ≡ end_at program.now position }
{
    let Position::At(number) = position else {
        return None;
    };
    let places = program.places.as_slice().len();
    let number = number as usize;
    if number < places {
        return None;
    }
    let end = program.ends.as_slice().get(number - places)?;
    Some(end.goal)
}

fn is_returned(goal: Goal) -> bool
    ensures { result ≡ is_returned goal }
{
    matches!(goal, Goal::Returned)
}

fn is_failed(goal: Goal) -> bool
    ensures { result ≡ is_failed goal }
{
    matches!(goal, Goal::Failed)
}

/// What may have come of a driver by its probe and its remove.
#[derive(Clone, Copy)]
pub enum BindEvent {
    /// A probe has returned: the driver is bound.
    Bound,
    /// A probe has failed.
    ProbeFailed,
    /// A remove has ended.
    Removed,
}

fn has_come(event: BindEvent, origin: &CallerOrigin, end: Goal) -> bool
    ensures { result ≡ has_come event origin.now end }
{
    match event {
        BindEvent::Bound => origin.is_probe && is_returned(end),
        BindEvent::ProbeFailed => origin.is_probe && is_failed(end),
        BindEvent::Removed => origin.is_remove,
    }
}

// Whether it came by the caller of a number, which stands there.
fn came_at(
    event: BindEvent,
    origin: &CallerOrigin,
    caller: &CallerRules,
    position: Option<Position>,
) -> bool
    ensures { result ≡ came_at event origin.now caller.now position }
{
    let Some(position) = position else {
        return false;
    };
    match end_at(caller.program, position) {
        Some(end) => has_come(event, origin, end),
        None => false,
    }
}

fn came_by(
    event: BindEvent,
    origins: &[CallerOrigin],
    positions: &[Position],
    number: u32,
    caller: &CallerRules,
) -> bool
    ensures { result ≡ came_by event origins.now positions.now number caller.now }
{
    match origins.get(number as usize) {
        Some(origin) => {
            came_at(
                event,
                origin,
                caller,
                positions.get(number as usize).copied(),
            )
        }
        None => false,
    }
}

// Whether it came by one of these callers, counted on from a number.
fn some_came(
    event: BindEvent,
    origins: &[CallerOrigin],
    positions: &[Position],
    number: u32,
    callers: &[CallerRules],
) -> bool
    requires { number + length callers.now < 2 ^ 32 }
    ensures { result ≡ any_at (came_by event origins.now positions.now) number callers.now }
{
    let [caller, rest @ ..] = callers else {
        return false;
    };
    came_by(event, origins, positions, number, caller)
        || some_came(event, origins, positions, number + 1, rest)
}

fn has_happened(examined: &ExaminedDriver, node: &DriverNode, event: BindEvent) -> bool
    requires { length examined.now.rules.now.callers.now < 2 ^ 32 }
    ensures { result ≡ has_happened examined.now (driver_snapshot_of node.now) event }
{
    let positions = node.positions.as_slice();
    some_came(
        event,
        examined.origins,
        positions,
        0,
        examined.rules.callers,
    )
}

/// Whether what a probe holds is to be given back: none has returned, or a remove has ended.
pub fn is_unbound(examined: &ExaminedDriver, node: &DriverNode) -> bool
    requires { length examined.now.rules.now.callers.now < 2 ^ 32 }
    ensures { result ≡ is_unbound examined.now (driver_snapshot_of node.now) }
{
    !has_happened(examined, node, BindEvent::Bound)
        || has_happened(examined, node, BindEvent::Removed)
}

/// Whether what a probe set up is to be undone: one has failed and none has returned, or a remove has ended.
pub fn is_undone(examined: &ExaminedDriver, node: &DriverNode) -> bool
    requires { length examined.now.rules.now.callers.now < 2 ^ 32 }
    ensures { result ≡ is_undone examined.now (driver_snapshot_of node.now) }
{
    is_unbound(examined, node)
        && (has_happened(examined, node, BindEvent::ProbeFailed)
            || has_happened(examined, node, BindEvent::Removed))
}
