//! The front of a line: its time and its actor.

ghost use Rattle.std.specs.Prelude.{◌≡◌, ◌^◌, ◌<◌, ◌≤◌, true, length, IfSome};
ghost use Rattle.pm_model.specs.LineOf.{is_actor_of};

use crate::finders::{Finders, caller_finder, device_finder};
use crate::pieces::{number, word_len};
use pm_base::ActorId;
use pm_model::Plan;
use pm_names::find;

/// The place of the device that has this name.
#[tactic(auto, using(crate::proofs::PlanNames::devices_apart))]
fn device_named(plan: &Plan, by: &Finders, name: &[u8]) -> Option<u32>
    ensures { IfSome result (λ place. place < length plan.now.devices) }
{
    let place = find(device_finder(Some(by)), &plan.devices, name)?;
    Some(place as u32)
}

/// The place of the caller that has this name.
#[tactic(auto, using(crate::proofs::PlanNames::callers_apart))]
fn caller_named(plan: &Plan, by: &Finders, name: &[u8]) -> Option<u32>
    ensures { IfSome result (λ place. place < length plan.now.callers) }
{
    let place = find(caller_finder(Some(by)), &plan.callers, name)?;
    Some(place as u32)
}

/// The actor that a word names. No caller's name has a dot.
fn actor_named(plan: &Plan, by: &Finders, word: &[u8]) -> Option<ActorId>
    ensures { IfSome result
        (λ actor. is_actor_of (length plan.now.devices) (length plan.now.callers) actor ≡ true) }
{
    if let Some(name) = word.strip_prefix(b"work.") {
        Some(ActorId::Work(device_named(plan, by, name)?))
    } else if let Some(name) = word.strip_prefix(b"timer.") {
        Some(ActorId::Timer(device_named(plan, by, name)?))
    } else {
        Some(ActorId::Caller(caller_named(plan, by, word)?))
    }
}

/// The actor whose name, up to a space, these bytes begin with.
fn actor_start(plan: &Plan, by: &Finders, bytes: &[u8]) -> Option<ActorId>
    ensures { IfSome result
        (λ actor. is_actor_of (length plan.now.devices) (length plan.now.callers) actor ≡ true) }
{
    let (word, _) = bytes.split_at(word_len(b' ', bytes));
    actor_named(plan, by, word)
}

/// The time, in milliseconds of the run, of the line whose text these bytes may be, behind a line of time `base`, which
/// is 0 in format 1, and what is behind it and its space. It takes no memory.
///
/// No clause says that a line has it: who is given it compares the whole text.
pub fn time_start(base: u64, bytes: &[u8]) -> Option<(u64, &[u8])>
    requires { base < 2 ^ 63 }
    ensures in_time { IfSome result (λ start. start.0 < 2 ^ 63) }
    ensures not_before { IfSome result (λ start. base ≤ start.0) }
{
    let Ok((since, rest)) = number(10, 0, (1 << 63) - 1 - base, bytes) else {
        return None;
    };
    Some((base + since, rest.strip_prefix(b" ")?))
}

/// The time, in milliseconds of the run, and the actor of the line whose text these bytes may be, behind a
/// line of time `base`, which is 0 in format 1. It takes no memory.
///
/// It is found from the front of the text alone, and no clause says that a line has it: who is given it
/// compares the whole text.
pub fn line_start(plan: &Plan, by: &Finders, base: u64, bytes: &[u8]) -> Option<(u64, ActorId)>
    requires { base < 2 ^ 63 }
    ensures in_time { IfSome result (λ start. start.0 < 2 ^ 63) }
    ensures not_before { IfSome result (λ start. base ≤ start.0) }
    ensures in_range { IfSome result
        (λ start. is_actor_of (length plan.now.devices) (length plan.now.callers) start.1 ≡ true) }
{
    let (time, rest) = time_start(base, bytes)?;
    Some((time, actor_start(plan, by, rest)?))
}
