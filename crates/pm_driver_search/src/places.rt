//! Where callers stand after a line.

ghost use Rattle.std.specs.Prelude.{◌≡◌, ◌<◌, ◌^◌, ◌∷◌, [], IfOk, length, map, slice_get, slice_set};
ghost use Rattle.std.specs.Option.{option_and_then, option_copied, option_map_or};
ghost use Rattle.pm_base.specs.declared.ActorId.TheVariants.{Caller};
ghost use Rattle.pm_driver_orders.specs.Drivers.{ways_at};
ghost use Rattle.pm_driver_orders.specs.Programs.{goes_on_at};
ghost use Rattle.pm_driver_orders.specs.DriverSnapshots.{all_after, is_failure, positions_after, returned_step};
ghost use Rattle.pm_driver_orders.specs.declared.Position.TheVariants.{At};
ghost use Rattle.pm_driver_rules.specs.GoingOn.{driver_of};
ghost use Rattle.pm_driver_search.specs.Standing.{code_in};
ghost use Rattle.pm_model.specs.Views.{Views as AViews};

use pm_base::ActorId;
use pm_driver_orders::Position;
use pm_driver_rules::{DriverRules, goes_on, may_call};
use pm_driver_script::ProgramPlace;
use pm_model::{Device, Event};
use std::alloc::{AllocError, Global};

/// Whether a callback ends with this event, and fails.
pub fn is_failure(event: &Event) -> bool
    ensures { result ≡ is_failure event.now }
{
    match event {
        Event::End { code, .. } => *code != 0,
        _ => false,
    }
}

/// The place whose call returns with this event.
pub fn returned_step(actor: ActorId, event: &Event, positions: &[Position]) -> Option<u32>
    ensures { result ≡ returned_step actor event.now positions.now }
{
    let ActorId::Caller(caller) = actor else {
        return None;
    };
    let Event::Ret { .. } = *event else {
        return None;
    };
    match positions.get(caller as usize) {
        Some(Position::In(place)) => Some(*place),
        _ => None,
    }
}

// A place of a caller's program.
fn place_of<'a>(rules: &DriverRules<'a>, caller: u32, place: u32) -> Option<&'a ProgramPlace>
    ensures { option_copied result ≡ option_and_then (λ c. slice_get c.program.now.places place) (slice_get rules.now.callers.now caller) }
{
    let caller = rules.callers.get(caller as usize)?;
    caller.program.places.as_slice().get(place as usize)
}

// The places, before their calls.
fn before_all(alloc: Global, places: &[u32]) -> Result<Vec<Position>, AllocError>
    ensures { IfOk result (λ out. out.items ≡ map At places.now) }
{
    let mut out = Vec::with_capacity(alloc, places.len())?;
    for place in places {
        out.push(Position::At(*place))?;
    }
    Ok(out)
}

// Where a caller may stand after its call has returned a code.
fn returns_to(
    alloc: Global,
    rules: &DriverRules,
    devices: &[Device],
    caller: u32,
    place: u32,
    code: i32,
) -> Result<Vec<Position>, AllocError>
    ensures { IfOk result (λ out. (v : AViews) → v.devices ≡ devices.now → out.items ≡ option_map_or (λ ways. map At (goes_on_at ways v code)) (ways_at (driver_of rules.now) caller place) []) }
{
    let Some(place) = place_of(rules, caller, place) else {
        return Ok(Vec::new(alloc));
    };
    let places = goes_on(alloc, rules.plan, place, devices, code)?;
    let all = before_all(alloc, places.as_slice())?;
    Ok(all)
}

// One position.
fn only(alloc: Global, position: Position) -> Result<Vec<Position>, AllocError>
    ensures { IfOk result (λ out. out.items ≡ position ∷ []) }
{
    let mut out = Vec::new(alloc);
    out.push(position)?;
    Ok(out)
}

// The code that an event returns.
fn code_in(event: &Event) -> i32
    ensures { result ≡ code_in event.now }
{
    match event {
        Event::Ret { code, .. } => *code,
        _ => 0,
    }
}

// Where a caller may stand after an event of its own.
fn positions_after(
    alloc: Global,
    rules: &DriverRules,
    positions: &[Position],
    devices: &[Device],
    caller: u32,
    event: &Event,
    position: Position,
) -> Result<Vec<Position>, AllocError>
    requires few { length rules.now.callers.now < 2 ^ 32 }
    ensures { IfOk result (λ out. (v : AViews) → v.devices ≡ devices.now → out.items ≡ positions_after (driver_of rules.now) positions.now v caller event.now position) }
{
    match *event {
        Event::Call { .. } => match position {
            Position::At(place) => {
                if may_call(rules.callers, positions, devices, caller) {
                    only(alloc, Position::In(place))
                } else {
                    Ok(Vec::new(alloc))
                }
            }
            Position::In(_) => Ok(Vec::new(alloc)),
        },
        Event::Ret { .. } => match position {
            Position::At(_) => Ok(Vec::new(alloc)),
            Position::In(place) => {
                let code = code_in(event);
                let all = returns_to(alloc, rules, devices, caller, place, code)?;
                Ok(all)
            }
        },
        _ => only(alloc, position),
    }
}

/// The same positions but for that of one caller.
pub fn with_position(
    alloc: Global,
    positions: &[Position],
    caller: u32,
    position: Position,
) -> Result<Vec<Position>, AllocError>
    ensures { IfOk result (λ out. out.items ≡ slice_set positions.now caller position) }
{
    let mut out = Vec::new(alloc);
    out.extend_from_slice(positions)?;
    if (caller as usize) < out.len() {
        out[caller as usize] = position;
    }
    Ok(out)
}

// The same positions, with each of these for a caller.
fn with_each(
    alloc: Global,
    positions: &[Position],
    caller: u32,
    own: &[Position],
) -> Result<Vec<Vec<Position>>, AllocError>
    ensures { IfOk result (λ out. map (λ v. v.items) out.items ≡ map (slice_set positions.now caller) own.now) }
{
    let mut out = Vec::with_capacity(alloc, own.len())?;
    for position in own {
        let all = with_position(alloc, positions, caller, *position)?;
        out.push(all)?;
    }
    Ok(out)
}

fn position_of(positions: &[Position], caller: u32) -> Option<Position>
    ensures { result ≡ slice_get positions.now caller }
{
    positions.get(caller as usize).copied()
}

// Where all may stand after an event of a caller.
fn after_caller(
    alloc: Global,
    rules: &DriverRules,
    devices: &[Device],
    caller: u32,
    event: &Event,
    positions: &[Position],
) -> Result<Vec<Vec<Position>>, AllocError>
    requires few { length rules.now.callers.now < 2 ^ 32 }
    ensures { IfOk result (λ out. (v : AViews) → v.devices ≡ devices.now → map (λ v. v.items) out.items ≡ all_after (driver_of rules.now) v (Caller caller) event.now positions.now) }
{
    let Some(position) = position_of(positions, caller) else {
        return Ok(Vec::new(alloc));
    };
    let own = positions_after(alloc, rules, positions, devices, caller, event, position)?;
    let all = with_each(alloc, positions, caller, own.as_slice())?;
    Ok(all)
}

/// Where all may stand after a line.
pub fn all_after(
    alloc: Global,
    rules: &DriverRules,
    devices: &[Device],
    actor: ActorId,
    event: &Event,
    positions: &[Position],
) -> Result<Vec<Vec<Position>>, AllocError>
    requires few { length rules.now.callers.now < 2 ^ 32 }
    ensures { IfOk result (λ out. (v : AViews) → v.devices ≡ devices.now → map (λ v. v.items) out.items ≡ all_after (driver_of rules.now) v actor event.now positions.now) }
{
    if let ActorId::Caller(caller) = actor {
        let all = after_caller(alloc, rules, devices, caller, event, positions)?;
        return Ok(all);
    }
    let mut same = Vec::new(alloc);
    same.extend_from_slice(positions)?;
    let mut out = Vec::new(alloc);
    out.push(same)?;
    Ok(out)
}
