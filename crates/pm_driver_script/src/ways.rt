//! Where a script goes on from a part of a step.

ghost use Rattle.std.specs.Prelude.{◌≡◌, ◌+◌, ◌<◌, ◌≤◌, ◌++◌, ◌^◌, [], ◌∷◌, IfOk, OnOk, Some, length, map};
ghost use Rattle.pm_driver_script.specs.Ways.{asked_exit, exits_at, found_exit, get_exits, get_goal, get_test, holds_zero, is_forced, label_goal, labelled, next_goal, otherwise_at, part_goal, put_goal, resume_exits, resume_goal, suspend_exits, suspend_goal, takes_all, zero_goal};

use crate::calls::force_place;
use crate::goals::{Goal, goal_from};
use crate::names::ScriptNames;
use pm_base::DevId;
use pm_driver_text::{CodeTest, ScriptStep, StepExit, StepWhat};
use std::alloc::{AllocError, Global};

/// Where a caller goes on for some codes.
#[derive(Clone, Copy)]
pub struct GoalExit {
    pub test: CodeTest,
    pub goal: Goal,
}

/// Where a step goes on by an exit.
fn label_goal<'a>(number: u32, behind: &[ScriptStep<'a>], exit: &StepExit<'a>) -> Goal
    requires { number + 1 + length behind.now < 2 ^ 32 }
    ensures { result ≡ label_goal number behind.now exit.now }
{
    goal_from(Some(exit.label.as_slice()), behind, number + 1)
}

/// Where a step goes on by none.
fn next_goal(number: u32, behind: &[ScriptStep]) -> Goal
    requires { number + 1 + length behind.now < 2 ^ 32 }
    ensures { result ≡ next_goal number behind.now }
{
    goal_from(None, behind, number + 1)
}

/// Another part of the step.
fn part_goal(number: u32, part: u32) -> Goal
    ensures { result ≡ part_goal number part }
{
    Goal::At { step: number, part }
}

/// Whether an exit is taken where the code is 0.
fn holds_zero(test: CodeTest) -> bool
    ensures { result ≡ holds_zero test }
{
    match test {
        CodeTest::Is { code } => code == 0,
        CodeTest::Negative | CodeTest::Nonzero => false,
    }
}

/// Where a step goes on that answers 0.
fn zero_goal<'a>(step: &ScriptStep<'a>, number: u32, behind: &[ScriptStep<'a>]) -> Goal
    requires { number + 1 + length behind.now < 2 ^ 32 }
    ensures { result ≡ zero_goal number behind.now step.now.exits }
{
    let exits = step.exits.as_slice();
    for exit in exits {
        if holds_zero(exit.test) {
            return label_goal(number, behind, exit);
        }
    }
    next_goal(number, behind)
}

/// The exits of a step.
fn labelled<'a>(
    alloc: Global,
    step: &ScriptStep<'a>,
    number: u32,
    behind: &[ScriptStep<'a>],
) -> Result<Vec<GoalExit>, AllocError>
    requires { number + 1 + length behind.now < 2 ^ 32 }
    ensures { IfOk result (λ v. v.items ≡ labelled number behind.now step.now.exits) }
{
    let exits = step.exits.as_slice();
    let mut made = Vec::with_capacity(alloc, exits.len())?;
    for exit in exits {
        made.push(GoalExit {
            test: exit.test,
            goal: label_goal(number, behind, exit),
        })?;
    }
    Ok(made)
}

/// The codes below 0 for which an exit of `resume_and_get` is taken.
fn get_test(test: CodeTest) -> Option<CodeTest>
    ensures { result ≡ get_test test }
{
    match test {
        CodeTest::Negative | CodeTest::Nonzero => Some(CodeTest::Negative),
        CodeTest::Is { code } => { if code < 0 { Some(test) } else { None } }
    }
}

/// Whether an exit is taken for each code below 0.
fn takes_all(test: CodeTest) -> bool
    ensures { result ≡ takes_all test }
{
    match test {
        CodeTest::Negative | CodeTest::Nonzero => true,
        CodeTest::Is { .. } => false,
    }
}

/// Appends an exit, where it may be taken.
fn push_exit(
    exits: &mut Vec<GoalExit>,
    test: Option<CodeTest>,
    goal: Goal,
) -> Result<(), AllocError>
    ensures { OnOk result (exits.new.items ≡ exits.old.items ++ found_exit test goal) }
{
    if let Some(test) = test {
        exits.push(GoalExit { test, goal })?;
    }
    Ok(())
}

/// Where `get_sync` goes on that is part of a `resume_and_get`: where it fails, to the put for its code.
#[tactic(auto, using(crate::proofs::WayLemmas::one_more_exit, crate::proofs::WayLemmas::last_exit, crate::proofs::WayLemmas::no_exit))]
fn get_exits(alloc: Global, step: &ScriptStep, number: u32) -> Result<Vec<GoalExit>, AllocError>
    requires { length step.now.exits < 2 ^ 16 }
    ensures { IfOk result (λ v. v.items ≡ get_exits number 1 step.now.exits) }
{
    let mut made = Vec::new(alloc);
    let exits = step.exits.as_slice();
    let mut part = 1;
    for exit in exits {
        push_exit(&mut made, get_test(exit.test), part_goal(number, part))?;
        if takes_all(exit.test) {
            return Ok(made);
        }
        part += 1;
    }
    push_exit(&mut made, Some(CodeTest::Negative), part_goal(number, part))?;
    Ok(made)
}

/// Where the put goes on that is such a part of a `resume_and_get`.
fn put_goal<'a>(step: &ScriptStep<'a>, number: u32, behind: &[ScriptStep<'a>], part: u32) -> Goal
    requires few { number + 1 + length behind.now < 2 ^ 32 }
    requires part { 1 ≤ part }
    ensures { result ≡ put_goal step.now number behind.now part }
{
    match step.exits.as_slice().get(part as usize - 1) {
        Some(exit) => label_goal(number, behind, exit),
        None => next_goal(number, behind),
    }
}

/// Where a question goes on that is answered 1.
fn asked_exit(alloc: Global, goal: Goal) -> Result<Vec<GoalExit>, AllocError>
    ensures { IfOk result (λ v. v.items ≡ asked_exit goal) }
{
    let mut made = Vec::new(alloc);
    push_exit(&mut made, Some(CodeTest::Is { code: 1 }), goal)?;
    Ok(made)
}

/// Where the parts of `force_suspend` go on that ask.
fn suspend_exits(
    alloc: Global,
    forced: bool,
    number: u32,
    part: u32,
) -> Result<Vec<GoalExit>, AllocError>
    ensures { IfOk result (λ v. v.items ≡ suspend_exits forced number part) }
{
    match part {
        1 => asked_exit(alloc, part_goal(number, if forced { 3 } else { 2 })),
        3 => asked_exit(alloc, part_goal(number, 4)),
        _ => Ok(Vec::new(alloc)),
    }
}

/// Where the part of `force_resume` goes on that asks.
fn resume_exits(alloc: Global, number: u32, part: u32) -> Result<Vec<GoalExit>, AllocError>
    ensures { IfOk result (λ v. v.items ≡ resume_exits number part) }
{
    if part == 0 {
        asked_exit(alloc, part_goal(number, 1))
    } else {
        Ok(Vec::new(alloc))
    }
}

/// Whether a step resumes the device by force.
fn is_forced(names: &ScriptNames, dev: DevId) -> bool
    ensures { result ≡ is_forced names.now dev }
{
    force_place(names, dev).is_some()
}

/// Where a part of a step goes on by the code that it is answered.
pub(crate) fn exits_at<'a>(
    alloc: Global,
    names: &ScriptNames,
    step: &ScriptStep<'a>,
    number: u32,
    behind: &[ScriptStep<'a>],
    part: u32,
) -> Result<Vec<GoalExit>, AllocError>
    requires few { number + 1 + length behind.now < 2 ^ 32 }
    requires exits { length step.now.exits < 2 ^ 16 }
    ensures { IfOk result (λ v. v.items ≡ exits_at names.now step.now number behind.now part) }
{
    match &step.what {
        StepWhat::Do { .. } => Ok(Vec::new(alloc)),
        StepWhat::Stop { .. } => {
            if part == 0 {
                Ok(Vec::new(alloc))
            } else {
                labelled(alloc, step, number, behind)
            }
        }
        StepWhat::ResumeAndGet { .. } => {
            if part == 0 {
                get_exits(alloc, step, number)
            } else {
                Ok(Vec::new(alloc))
            }
        }
        StepWhat::ForceSuspend { dev } => {
            suspend_exits(alloc, is_forced(names, *dev), number, part)
        }
        StepWhat::ForceResume { .. } => resume_exits(alloc, number, part),
        _ => labelled(alloc, step, number, behind),
    }
}

/// One goal alone.
fn one_goal(alloc: Global, goal: Goal) -> Result<Vec<Goal>, AllocError>
    ensures { IfOk result (λ v. v.items ≡ goal ∷ []) }
{
    let mut made = Vec::new(alloc);
    made.push(goal)?;
    Ok(made)
}

/// Where a step of the driver's own goes on: at the next step, or by one of its exits.
fn choices<'a>(
    alloc: Global,
    step: &ScriptStep<'a>,
    number: u32,
    behind: &[ScriptStep<'a>],
) -> Result<Vec<Goal>, AllocError>
    requires { number + 1 + length behind.now < 2 ^ 32 }
    ensures { IfOk result (λ v. v.items ≡ next_goal number behind.now ∷ map (label_goal number behind.now) step.now.exits) }
{
    let mut made = one_goal(alloc, next_goal(number, behind))?;
    let exits = step.exits.as_slice();
    for exit in exits {
        made.push(label_goal(number, behind, exit))?;
    }
    Ok(made)
}

/// Where the put or the get goes on that is part of a `resume_and_get`, where no exit is taken.
fn get_goal<'a>(step: &ScriptStep<'a>, number: u32, behind: &[ScriptStep<'a>], part: u32) -> Goal
    requires { number + 1 + length behind.now < 2 ^ 32 }
    ensures { result ≡ get_goal step.now number behind.now part }
{
    if part == 0 {
        zero_goal(step, number, behind)
    } else {
        put_goal(step, number, behind, part)
    }
}

/// Where a part of `force_suspend` goes on where no exit is taken.
fn suspend_goal<'a>(
    step: &ScriptStep<'a>,
    number: u32,
    behind: &[ScriptStep<'a>],
    part: u32,
) -> Goal
    requires { number + 1 + length behind.now < 2 ^ 32 }
    ensures { result ≡ suspend_goal step.now number behind.now part }
{
    if part == 0 {
        part_goal(number, 1)
    } else if part > 2 {
        part_goal(number, 2)
    } else {
        zero_goal(step, number, behind)
    }
}

/// Where a part of `force_resume` goes on where no exit is taken.
fn resume_goal<'a>(step: &ScriptStep<'a>, number: u32, behind: &[ScriptStep<'a>], part: u32) -> Goal
    requires { number + 1 + length behind.now < 2 ^ 32 }
    ensures { result ≡ resume_goal step.now number behind.now part }
{
    if part == 1 {
        part_goal(number, 2)
    } else if part < 3 {
        part_goal(number, 3)
    } else {
        zero_goal(step, number, behind)
    }
}

/// Where a part of a step goes on where no exit is taken.
pub(crate) fn otherwise_at<'a>(
    alloc: Global,
    step: &ScriptStep<'a>,
    number: u32,
    behind: &[ScriptStep<'a>],
    part: u32,
) -> Result<Vec<Goal>, AllocError>
    requires { number + 1 + length behind.now < 2 ^ 32 }
    ensures { IfOk result (λ v. v.items ≡ otherwise_at step.now number behind.now part) }
{
    match &step.what {
        StepWhat::Do { .. } => choices(alloc, step, number, behind),
        StepWhat::Stop { .. } => {
            if part == 0 {
                one_goal(alloc, part_goal(number, 1))
            } else {
                one_goal(alloc, next_goal(number, behind))
            }
        }
        StepWhat::ResumeAndGet { .. } => one_goal(alloc, get_goal(step, number, behind, part)),
        StepWhat::ForceSuspend { .. } => {
            one_goal(alloc, suspend_goal(step, number, behind, part))
        }
        StepWhat::ForceResume { .. } => one_goal(alloc, resume_goal(step, number, behind, part)),
        _ => one_goal(alloc, next_goal(number, behind)),
    }
}
