//! The outcome of a run beside what the schedules of its plan show.

ghost use Rattle.std.specs.Prelude.{◌≡◌, ◌++◌, ◌↔◌, IfNone, IfOk, IfSome, IsTrue, OnOk, length};
ghost use Rattle.pm_outcomes.specs.kernel_log.Placing.{AreListed, AreOf, IsFirstUnlisted, IsShown, IsWhole, calls_of, devices_to, shown, subjects, told_of};

use crate::kernel_log::tells::Tell;
use crate::list::{Observation, Outcome};
use pm_base::NoMemory;
use pm_model::Plan;
use std::alloc::Global;

/// What is told of.
#[derive(Clone, Copy, PartialEq, Eq)]
pub enum Subject {
    /// A call, by its caller and its number in the script, from 1.
    Call { caller: usize, command: usize },
    Device { device: usize },
}

/// What this is told of.
fn told_of(tell: Tell) -> Subject
    ensures { result ≡ told_of tell }
{
    match tell {
        Tell::Answer {
            caller,
            command,
            ..
        } => Subject::Call {
            caller: caller as usize,
            command: command as usize,
        },
        Tell::End { device, .. } => Subject::Device {
            device: device.0 as usize,
        },
    }
}

/// Appends the first so many calls of a caller.
fn push_calls(all: &mut Vec<Subject>, caller: usize, count: usize) -> Result<(), NoMemory>
    ensures { OnOk result (all.new.items ≡ all.old.items ++ calls_of caller count) }
{
    for number in 0..count {
        all.push(Subject::Call {
            caller,
            command: number + 1,
        })?;
    }
    Ok(())
}

/// Appends the first so many devices.
fn push_devices(all: &mut Vec<Subject>, count: usize) -> Result<(), NoMemory>
    ensures { OnOk result (all.new.items ≡ all.old.items ++ devices_to count) }
{
    for device in 0..count {
        all.push(Subject::Device { device })?;
    }
    Ok(())
}

/// What an outcome tells of, in order.
#[tactic(auto, using(crate::proofs::kernel_log::SubjectLemmas::calls_left))]
fn subjects(alloc: Global, plan: &Plan) -> Result<Vec<Subject>, NoMemory>
    ensures { IfOk result (λ all. all.items ≡ subjects plan.now) }
{
    let mut all = Vec::new(alloc);
    for (caller, row) in plan.callers.as_slice().iter().enumerate() {
        push_calls(&mut all, caller, row.script.as_slice().len())?;
    }
    push_devices(&mut all, plan.devices.len())?;
    Ok(all)
}

/// Whether both are the same.
fn is_subject(one: Subject, other: Subject) -> bool
    ensures { IsTrue result ↔ (one ≡ other) }
{
    one == other
}

/// Whether as much is told as there are subjects, and of each the one at its place.
fn are_of(all: &[Subject], tells: &[Tell]) -> bool
    ensures { IsTrue result ↔ ((length tells.now ≡ length all.now) × AreOf all.now tells.now (length tells.now)) }
{
    if tells.len() != all.len() {
        return false;
    }
    for place in 0..tells.len() {
        if !is_subject(all[place], told_of(tells[place])) {
            return false;
        }
    }
    true
}

/// Whether each call of the plan and each device is told of once, in the order in which the module tells them. Fails where
/// memory runs out.
pub fn is_whole(alloc: Global, plan: &Plan, tells: &[Tell]) -> Result<bool, NoMemory>
    ensures { IfOk result (λ whole. IsTrue whole ↔ IsWhole plan.now tells.now) }
{
    let all = subjects(alloc, plan)?;
    Ok(are_of(all.as_slice(), tells))
}

/// What a kernel tells where this observation shows: all but a device's error.
fn shown(observation: Observation) -> Tell
    ensures { result ≡ shown observation }
{
    match observation {
        Observation::Return(returned) => Tell::Answer {
            caller: returned.caller,
            command: returned.command,
            code: returned.code,
        },
        Observation::End(left) => Tell::End {
            device: left.device,
            status: left.status,
            usage: i64::from(left.usage),
        },
    }
}

/// Whether both are the same.
fn is_same(one: Tell, other: Tell) -> bool
    ensures { IsTrue result ↔ (one ≡ other) }
{
    one == other
}

/// Whether one of the observations shows this.
fn is_listed(outcomes: &[Outcome], tell: Tell) -> bool
    ensures { IsTrue result ↔ IsShown outcomes.now tell }
{
    for outcome in outcomes {
        if is_same(shown(outcome.observation), tell) {
            return true;
        }
    }
    false
}

/// The place of the first of these that no observation shows.
pub fn first_unlisted(outcomes: &[Outcome], tells: &[Tell]) -> Option<usize>
    ensures some { IfSome result (IsFirstUnlisted outcomes.now tells.now) }
    ensures none { IfNone result (AreListed outcomes.now tells.now (length tells.now)) }
{
    for place in 0..tells.len() {
        if !is_listed(outcomes, tells[place]) {
            return Some(place);
        }
    }
    None
}
