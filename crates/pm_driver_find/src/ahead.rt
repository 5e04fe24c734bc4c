//! What may lie ahead of a place of a program.

ghost use Rattle.std.specs.Prelude.{◌≡◌, ◌++◌, IfOk, OnOk, length, map};
ghost use Rattle.std.specs.List.{list_any};
ghost use Rattle.pm_driver_rules.specs.Rules.{is_returned};
ghost use Rattle.pm_driver_find.specs.Ahead.{ahead_of, bars, comes_to, goes_to, is_marked, is_of, is_put, marks_after, marks_next, meets, meets_end};

use pm_base::DevId;
use pm_driver_script::{Goal, PlaceExit, Program, ProgramPlace, Standing};
use pm_model::Helper;
use std::alloc::{AllocError, Global};

/// What is looked for ahead.
#[derive(Clone, Copy)]
pub enum Aim {
    /// A use of the device.
    Touch { dev: DevId },
    /// A return, with no put of the device before it.
    KeptReturn { dev: DevId },
}

/// Whether a helper gives a count back.
pub fn is_put(helper: Helper) -> bool
    ensures { result ≡ is_put helper }
{
    matches!(
        helper,
        Helper::Put
            | Helper::PutSync
            | Helper::PutNoidle
            | Helper::PutAutosuspend
            | Helper::PutSyncSuspend
            | Helper::PutSyncAutosuspend
    )
}

fn is_of(touched: Option<DevId>, dev: DevId) -> bool
    ensures { result ≡ is_of touched dev }
{
    match touched {
        Some(other) => other.0 == dev.0,
        None => false,
    }
}

// Whether a place is what is looked for.
fn meets(aim: Aim, place: &ProgramPlace) -> bool
    ensures { result ≡ meets aim place.now }
{
    match aim {
        Aim::Touch { dev } => is_of(place.touches, dev),
        Aim::KeptReturn { .. } => false,
    }
}

// Whether an end of a program is.
fn meets_end(aim: Aim, end: &Standing) -> bool
    ensures { result ≡ meets_end aim end.now }
{
    match aim {
        Aim::Touch { .. } => false,
        Aim::KeptReturn { .. } => matches!(end.goal, Goal::Returned),
    }
}

// Whether nothing behind a place is looked for.
fn bars(aim: Aim, place: &ProgramPlace) -> bool
    ensures { result ≡ bars aim place.now }
{
    match aim {
        Aim::Touch { .. } => false,
        Aim::KeptReturn { dev } => is_put(place.command.helper) && place.command.dev.0 == dev.0,
    }
}

pub fn is_marked(marks: &[bool], at: u32) -> bool
    ensures { result ≡ is_marked marks.now at }
{
    marks.get(at as usize).copied().unwrap_or(false)
}

fn some_exit_marked(marks: &[bool], exits: &[PlaceExit]) -> bool
    ensures { result ≡ list_any (λ x. is_marked marks.now x.to) exits.now }
{
    for exit in exits {
        if is_marked(marks, exit.to) {
            return true;
        }
    }
    false
}

pub fn some_marked(marks: &[bool], to: &[u32]) -> bool
    ensures { result ≡ list_any (is_marked marks.now) to.now }
{
    for at in to {
        if is_marked(marks, *at) {
            return true;
        }
    }
    false
}

/// Whether one of those is marked at which a program may go on from a place.
pub fn goes_to(marks: &[bool], place: &ProgramPlace) -> bool
    ensures { result ≡ goes_to marks.now place.now }
{
    some_exit_marked(marks, place.exits.as_slice())
        || some_marked(marks, place.otherwise.as_slice())
}

fn comes_to(aim: Aim, marks: &[bool], place: &ProgramPlace) -> bool
    ensures { result ≡ comes_to aim marks.now place.now }
{
    meets(aim, place) || (!bars(aim, place) && goes_to(marks, place))
}

fn push_ends(out: &mut Vec<bool>, aim: Aim, ends: &[Standing]) -> Result<(), AllocError>
    ensures { OnOk result (out.new.items ≡ out.old.items ++ map (meets_end aim) ends.now) }
{
    for end in ends {
        out.push(meets_end(aim, end))?;
    }
    Ok(())
}

// The marks where a way may be one call longer.
fn marks_next(
    alloc: Global,
    program: &Program,
    aim: Aim,
    marks: &[bool],
) -> Result<Vec<bool>, AllocError>
    ensures { IfOk result (λ out. out.items ≡ marks_next program.now aim marks.now) }
{
    let mut out = Vec::new(alloc);
    let places = program.places.as_slice();
    for place in places {
        out.push(comes_to(aim, marks, place))?;
    }
    push_ends(&mut out, aim, program.ends.as_slice())?;
    Ok(out)
}

/// For each place of a program, and behind them for each of its ends, whether a way leads to what is looked for.
pub fn ahead_of(alloc: Global, program: &Program, aim: Aim) -> Result<Vec<bool>, AllocError>
    ensures { IfOk result (λ out. out.items ≡ ahead_of program.now aim) }
{
    let mut marks = Vec::new(alloc);
    for _call in 0..program.places.as_slice().len() {
        marks = marks_next(alloc, program, aim, marks.as_slice())?;
    }
    marks_next(alloc, program, aim, marks.as_slice())
}
