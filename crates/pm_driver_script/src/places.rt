//! The places of a program.

ghost use Rattle.std.specs.Prelude.{◌≡◌, ◌+◌, ◌<◌, ◌++◌, ◌^◌, IfOk, OnOk, length, map, nat_lt};
ghost use Rattle.pm_driver_script.specs.Places.{goals_at, is_end, is_same_goal, is_same_past, is_same_standing, place_of, settled, start_goal, start_of, with_goals, with_standing};

use crate::goals::{Goal, goal_from};
use crate::marks::Past;
use crate::names::ScriptNames;
use crate::ways::{GoalExit, exits_at, otherwise_at};
use pm_driver_text::ScriptStep;
use std::alloc::{AllocError, Global};

/// A place of a program: where a caller stands in its script, in which of its turns, and how far it has come.
#[derive(Clone, Copy)]
pub struct Standing {
    pub turn: u32,
    pub goal: Goal,
    pub past: Past,
}

/// Whether two goals are the same.
fn is_same_goal(a: Goal, b: Goal) -> bool
    ensures { result ≡ is_same_goal a b }
{
    match a {
        Goal::At { step, part } => match b {
            Goal::At {
                step: other,
                part: other_part,
            } => step == other && part == other_part,
            Goal::Returned | Goal::Failed => false,
        },
        Goal::Returned => match b {
            Goal::Returned => true,
            Goal::At { .. } | Goal::Failed => false,
        },
        Goal::Failed => match b {
            Goal::Failed => true,
            Goal::At { .. } | Goal::Returned => false,
        },
    }
}

/// Whether two callers have come as far.
fn is_same_past(a: Past, b: Past) -> bool
    ensures { result ≡ is_same_past a b }
{
    a.marks == b.marks && a.locks == b.locks && a.stopped == b.stopped
}

/// Whether two places are the same.
fn is_same_standing(a: Standing, b: Standing) -> bool
    ensures { result ≡ is_same_standing a b }
{
    a.turn == b.turn && is_same_goal(a.goal, b.goal) && is_same_past(a.past, b.past)
}

/// The place of a standing in a list.
pub(crate) fn place_of(standing: Standing, list: &[Standing]) -> Option<usize>
    ensures { result ≡ place_of standing list.now }
{
    for (place, other) in list.iter().enumerate() {
        if is_same_standing(standing, *other) {
            return Some(place);
        }
    }
    None
}

/// Whether a goal is an end.
pub(crate) fn is_end(goal: Goal) -> bool
    ensures { result ≡ is_end goal }
{
    match goal {
        Goal::At { .. } => false,
        Goal::Returned | Goal::Failed => true,
    }
}

/// Where a turn begins.
fn start_goal(steps: &[ScriptStep]) -> Goal
    requires { length steps.now < 2 ^ 32 }
    ensures { result ≡ start_goal steps.now }
{
    goal_from(None, steps, 0)
}

/// Where a program begins.
pub(crate) fn start_of(steps: &[ScriptStep]) -> Standing
    requires { length steps.now < 2 ^ 32 }
    ensures { result ≡ start_of steps.now }
{
    Standing {
        turn: 0,
        goal: start_goal(steps),
        past: Past {
            marks: 0,
            locks: 0,
            stopped: 0,
        },
    }
}

/// Where a caller stands that has come to a goal: where a turn has ended and another follows, at its begin.
pub(crate) fn settled(
    steps: &[ScriptStep],
    turns: u32,
    turn: u32,
    goal: Goal,
    past: Past,
) -> Standing
    requires { length steps.now < 2 ^ 32 }
    ensures { result ≡ settled steps.now turns turn goal past }
{
    if is_end(goal) && is_followed(turn, turns) {
        Standing {
            turn: turn + 1,
            goal: start_goal(steps),
            past,
        }
    } else {
        Standing { turn, goal, past }
    }
}

/// Whether another turn follows.
fn is_followed(turn: u32, turns: u32) -> bool
    ensures { result ≡ nat_lt (turn + 1) turns }
{
    turns >= 1 && turn < turns - 1
}

/// Appends a place that isn't there yet.
fn push_standing(found: &mut Vec<Standing>, standing: Standing) -> Result<(), AllocError>
    ensures { OnOk result (found.new.items ≡ with_standing found.old.items standing) }
{
    if place_of(standing, found.as_slice()).is_none() {
        found.push(standing)?;
    }
    Ok(())
}

/// The goals of exits.
fn push_goals(goals: &mut Vec<Goal>, exits: &[GoalExit]) -> Result<(), AllocError>
    ensures { OnOk result (goals.new.items ≡ goals.old.items ++ map (λ exit. exit.goal) exits.now) }
{
    for exit in exits {
        goals.push(exit.goal)?;
    }
    Ok(())
}

/// Where a part of a step may go on: at its other goals, and by its exits.
pub(crate) fn goals_at<'a>(
    alloc: Global,
    names: &ScriptNames,
    step: &ScriptStep<'a>,
    number: u32,
    behind: &[ScriptStep<'a>],
    part: u32,
) -> Result<Vec<Goal>, AllocError>
    requires few { number + 1 + length behind.now < 2 ^ 32 }
    requires exits { length step.now.exits < 2 ^ 16 }
    ensures { IfOk result (λ v. v.items ≡ goals_at names.now step.now number behind.now part) }
{
    let exits = exits_at(alloc, names, step, number, behind, part)?;
    let mut goals = otherwise_at(alloc, step, number, behind, part)?;
    push_goals(&mut goals, exits.as_slice())?;
    Ok(goals)
}

/// Appends the places that goals are, of a caller that comes so far.
pub(crate) fn push_all(
    found: &mut Vec<Standing>,
    steps: &[ScriptStep],
    turns: u32,
    turn: u32,
    past: Past,
    goals: &[Goal],
) -> Result<(), AllocError>
    requires { length steps.now < 2 ^ 32 }
    ensures { OnOk result (found.new.items ≡ with_goals steps.now turns turn past found.old.items goals.now) }
{
    for goal in goals {
        push_standing(found, settled(steps, turns, turn, *goal, past))?;
    }
    Ok(())
}
