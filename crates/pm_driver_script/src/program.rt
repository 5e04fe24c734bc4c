//! A caller's program.

ghost use Rattle.std.specs.Prelude.{◌≡◌, ◌<◌, ◌≤◌, ◌^◌, IfOk, IfSome, OnOk, drop, filter, length, map, option_map, slice_get};
ghost use Rattle.std.specs.List.{filter_map};
ghost use Rattle.pm_driver_script.specs.Places.{is_end};
ghost use Rattle.pm_driver_script.specs.Fits.{IsFew, ScriptFits};
ghost use Rattle.pm_driver_script.specs.Programs.{followed_by, followed_from, goal_number, is_place, place_exit, program_in, program_of, row_from, row_of, standings_of, to_of};

use crate::calls::{Asked, Guard, asks_at, command_at, guard_at, touched_by};
use crate::goals::Goal;
use crate::marks::{Past, passed};
use crate::names::ScriptNames;
use crate::places::{Standing, goals_at, is_end, place_of, push_all, settled, start_of};
use crate::ways::{GoalExit, exits_at, otherwise_at};
use pm_base::DevId;
use pm_driver_text::{CodeTest, ScriptStep};
use pm_model::{Command, Items};
use std::alloc::{AllocError, Global};

/// The places and ends of a program, at most.
pub const MAX_STANDINGS: usize = 1_000;

/// A script of a driver's file with the names of all, and how often its caller runs it.
#[derive(Clone, Copy)]
pub struct Script<'a, 'b> {
    pub steps: &'b [ScriptStep<'a>],
    pub names: &'b ScriptNames<'a>,
    pub turns: u32,
}

/// For which codes a program goes on where.
#[derive(Clone, Copy)]
pub struct PlaceExit {
    pub test: CodeTest,
    /// A place of the program, or an end, counted on behind the places.
    pub to: u32,
}

/// A place of a program.
#[derive(Drop)]
pub struct ProgramPlace {
    pub standing: Standing,
    pub command: Command,
    pub asks: Option<Asked>,
    pub guard: Guard,
    /// The device that is used during the call.
    pub touches: Option<DevId>,
    /// Whether the step has exits of its own.
    pub reads: bool,
    /// Where it goes on by the code, or by the answer of what it asks. The first that fits is taken.
    pub exits: Items<PlaceExit>,
    /// Where it may go on for every other code.
    pub otherwise: Items<u32>,
}

/// A caller's program. It begins at its first place.
#[derive(Drop)]
pub struct Program {
    pub places: Items<ProgramPlace>,
    pub ends: Items<Standing>,
}

/// Appends the places that follow a part of the first of these steps, which has this number.
#[tactic(auto, using(crate::proofs::FitLemmas::few_at))]
fn follow_from(
    alloc: Global,
    found: &mut Vec<Standing>,
    script: &Script,
    standing: Standing,
    number: u32,
    part: u32,
) -> Result<(), AllocError>
    requires { ScriptFits script.now }
    ensures { OnOk result (found.new.items ≡ followed_from script.now.steps.now script.now.names.now script.now.turns found.old.items standing number part (drop number script.now.steps.now)) }
{
    let Some((_, from)) = script.steps.split_at_checked(number as usize) else {
        return Ok(());
    };
    let [step, behind @ ..] = from else {
        return Ok(());
    };
    let goals = goals_at(alloc, script.names, step, number, behind, part)?;
    let past = passed(script.names, &step.what, part, standing.past);
    push_all(
        found,
        script.steps,
        script.turns,
        standing.turn,
        past,
        goals.as_slice(),
    )
}

/// Appends the places that follow one.
fn follow(
    alloc: Global,
    found: &mut Vec<Standing>,
    script: &Script,
    standing: Standing,
) -> Result<(), AllocError>
    requires { ScriptFits script.now }
    ensures { OnOk result (found.new.items ≡ followed_by script.now.steps.now script.now.names.now script.now.turns found.old.items standing) }
{
    match standing.goal {
        Goal::At { step, part } => { follow_from(alloc, found, script, standing, step, part) }
        Goal::Returned | Goal::Failed => Ok(()),
    }
}

/// The places and ends of a program, where there aren't too many.
fn closed(alloc: Global, script: &Script) -> Result<Option<Vec<Standing>>, AllocError>
    requires { ScriptFits script.now }
    ensures all { IfOk result (λ found. option_map (λ v. v.items) found ≡ standings_of script.now.steps.now script.now.names.now script.now.turns) }
    ensures few { IfOk result (λ found. IfSome found (λ v. length v.items ≤ 1000)) }
{
    let mut found = Vec::new(alloc);
    found.push(start_of(script.steps))?;
    for at in 0..MAX_STANDINGS {
        let Some(standing) = standing_at(found.as_slice(), at) else {
            return Ok(Some(found));
        };
        follow(alloc, &mut found, script, standing)?;
    }
    if found.len() > MAX_STANDINGS {
        Ok(None)
    } else {
        Ok(Some(found))
    }
}

/// The standing at a place.
fn standing_at(found: &[Standing], at: usize) -> Option<Standing>
    ensures { result ≡ slice_get found.now at }
{
    found.get(at).copied()
}

/// The places among them.
fn places_in(alloc: Global, found: &[Standing]) -> Result<Vec<Standing>, AllocError>
    ensures { IfOk result (λ v. v.items ≡ filter is_place found.now) }
{
    let mut places = Vec::new(alloc);
    for standing in found {
        if !is_end(standing.goal) {
            places.push(*standing)?;
        }
    }
    Ok(places)
}

/// The ends among them.
fn ends_in(alloc: Global, found: &[Standing]) -> Result<Vec<Standing>, AllocError>
    ensures { IfOk result (λ v. v.items ≡ filter (λ s. is_end s.goal) found.now) }
{
    let mut ends = Vec::new(alloc);
    for standing in found {
        if is_end(standing.goal) {
            ends.push(*standing)?;
        }
    }
    Ok(ends)
}

/// The number of a standing: of the places, and behind them of the ends.
fn to_of(places: &[Standing], ends: &[Standing], standing: Standing) -> u32
    requires places { length places.now < 2 ^ 31 }
    requires ends { length ends.now < 2 ^ 31 }
    ensures { result ≡ to_of places.now ends.now standing }
{
    match place_of(standing, places) {
        Some(place) => place as u32,
        None => (places.len() + place_of(standing, ends).unwrap_or(0)) as u32,
    }
}

/// The places and the ends of a program, in the order in which they are numbered.
#[derive(Drop)]
pub struct Numbered {
    pub places: Vec<Standing>,
    pub ends: Vec<Standing>,
}

/// The exits of a place, by number.
fn place_exits(
    alloc: Global,
    script: &Script,
    numbered: &Numbered,
    turn: u32,
    past: Past,
    exits: &[GoalExit],
) -> Result<Vec<PlaceExit>, AllocError>
    requires fits { ScriptFits script.now }
    requires few { IsFew numbered.now }
    ensures { IfOk result (λ v. v.items ≡ map (place_exit script.now.steps.now script.now.turns numbered.now.places.items numbered.now.ends.items turn past) exits.now) }
{
    let mut made = Vec::with_capacity(alloc, exits.len())?;
    for exit in exits {
        made.push(PlaceExit {
            test: exit.test,
            to: goal_number(script, numbered, turn, past, exit.goal),
        })?;
    }
    Ok(made)
}

/// The number of the place that a goal is.
#[tactic(auto, unfolding(crate::specs::Programs::goal_number))]
fn goal_number(script: &Script, numbered: &Numbered, turn: u32, past: Past, goal: Goal) -> u32
    requires fits { ScriptFits script.now }
    requires few { IsFew numbered.now }
    ensures { result ≡ goal_number script.now.steps.now script.now.turns numbered.now.places.items numbered.now.ends.items turn past goal }
{
    let standing = settled(script.steps, script.turns, turn, goal, past);
    to_of(&numbered.places, &numbered.ends, standing)
}

/// The goals of a place, by number.
fn place_goals(
    alloc: Global,
    script: &Script,
    numbered: &Numbered,
    turn: u32,
    past: Past,
    goals: &[Goal],
) -> Result<Vec<u32>, AllocError>
    requires fits { ScriptFits script.now }
    requires few { IsFew numbered.now }
    ensures { IfOk result (λ v. v.items ≡ map (goal_number script.now.steps.now script.now.turns numbered.now.places.items numbered.now.ends.items turn past) goals.now) }
{
    let mut made = Vec::with_capacity(alloc, goals.len())?;
    for goal in goals {
        made.push(goal_number(script, numbered, turn, past, *goal))?;
    }
    Ok(made)
}

/// The row of a place at a part of a step.
#[tactic(auto, using(crate::proofs::FitLemmas::few_at))]
fn row_from(
    alloc: Global,
    script: &Script,
    numbered: &Numbered,
    standing: Standing,
    number: u32,
    part: u32,
) -> Result<Option<ProgramPlace>, AllocError>
    requires fits { ScriptFits script.now }
    requires few { IsFew numbered.now }
    ensures { IfOk result (λ row. row ≡ row_from script.now.steps.now script.now.names.now script.now.turns numbered.now.places.items numbered.now.ends.items standing number part (drop number script.now.steps.now)) }
{
    let Some((_, from)) = script.steps.split_at_checked(number as usize) else {
        return Ok(None);
    };
    let [step, behind @ ..] = from else {
        return Ok(None);
    };
    let past = passed(script.names, &step.what, part, standing.past);
    let exits = exits_at(alloc, script.names, step, number, behind, part)?;
    let goals = otherwise_at(alloc, step, number, behind, part)?;
    let exits = place_exits(
        alloc,
        script,
        numbered,
        standing.turn,
        past,
        exits.as_slice(),
    )?;
    let goals = place_goals(
        alloc,
        script,
        numbered,
        standing.turn,
        past,
        goals.as_slice(),
    )?;
    Ok(Some(ProgramPlace {
        standing,
        command: command_at(script.names, &step.what, part),
        asks: asks_at(script.names, &step.what, part),
        guard: guard_at(script.names, &step.what, part),
        touches: touched_by(&step.what),
        reads: !step.exits.as_slice().is_empty(),
        exits: Items::new(exits),
        otherwise: Items::new(goals),
    }))
}

/// The row of a place.
fn row_of(
    alloc: Global,
    script: &Script,
    numbered: &Numbered,
    standing: Standing,
) -> Result<Option<ProgramPlace>, AllocError>
    requires fits { ScriptFits script.now }
    requires few { IsFew numbered.now }
    ensures { IfOk result (λ row. row ≡ row_of script.now.steps.now script.now.names.now script.now.turns numbered.now.places.items numbered.now.ends.items standing) }
{
    match standing.goal {
        Goal::At { step, part } => row_from(alloc, script, numbered, standing, step, part),
        Goal::Returned | Goal::Failed => Ok(None),
    }
}

/// The rows of the places.
fn rows_of(
    alloc: Global,
    script: &Script,
    numbered: &Numbered,
) -> Result<Vec<ProgramPlace>, AllocError>
    requires fits { ScriptFits script.now }
    requires few { IsFew numbered.now }
    ensures { IfOk result (λ v. v.items ≡ filter_map (row_of script.now.steps.now script.now.names.now script.now.turns numbered.now.places.items numbered.now.ends.items) numbered.now.places.items) }
{
    let mut rows = Vec::with_capacity(alloc, numbered.places.len())?;
    let places = numbered.places.as_slice();
    for standing in places {
        if let Some(row) = row_of(alloc, script, numbered, *standing)? {
            rows.push(row)?;
        }
    }
    Ok(rows)
}

/// The program of standings.
fn program_in(alloc: Global, script: &Script, found: &[Standing]) -> Result<Program, AllocError>
    requires fits { ScriptFits script.now }
    requires few { length found.now ≤ 1000 }
    ensures { IfOk result (λ program. program ≡ program_in script.now.steps.now script.now.names.now script.now.turns found.now) }
{
    let numbered = Numbered {
        places: places_in(alloc, found)?,
        ends: ends_in(alloc, found)?,
    };
    let places = rows_of(alloc, script, &numbered)?;
    Ok(Program {
        places: Items::new(places),
        ends: Items::new(numbered.ends),
    })
}

/// The program of a script; nothing where it has more than 1,000 places and ends.
pub fn program_of(alloc: Global, script: &Script) -> Result<Option<Program>, AllocError>
    requires { ScriptFits script.now }
    ensures { IfOk result (λ program. program ≡ program_of script.now.steps.now script.now.names.now script.now.turns) }
{
    match closed(alloc, script)? {
        Some(found) => Ok(Some(program_in(alloc, script, found.as_slice())?)),
        None => Ok(None),
    }
}
