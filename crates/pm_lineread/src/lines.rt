//! A line: its time, its actor and its event.

ghost use Rattle.std.specs.Prelude.{◌≡◌, ◌^◌, ◌<◌, codes};
ghost use Rattle.pm_base.specs.declared.ActorId.TheVariants.{Timer, Work};
ghost use Rattle.pm_model.specs.Text.{names_of};
ghost use Rattle.pm_lineread.specs.Reading.{caller_step_at, device_step_at, line_at, some_line_at, step_at, step_of};

use crate::events::event;
use crate::finders::Finders;
use crate::pieces::{Left, caller, device, either, literal, number};
use pm_base::ActorId;
use pm_model::{Event, Line, Plan};

/// What follows an actor.
#[tactic(auto, unfolding(crate::specs::Reading::step_of))]
fn step_of(
    plan: &Plan,
    by: Option<&Finders>,
    actor: ActorId,
    bytes: &[u8],
) -> Result<(ActorId, Event), Left>
    ensures { result ≡ step_of (names_of plan.now) actor bytes.now }
{
    let event = event(plan, by, literal(b" ", bytes)?)?;
    Ok((actor, event))
}

/// A caller and its event.
#[tactic(auto, unfolding(crate::specs::Reading::caller_step_at))]
fn caller_step(plan: &Plan, by: Option<&Finders>, bytes: &[u8]) -> Result<(ActorId, Event), Left>
    ensures { result ≡ caller_step_at (names_of plan.now) bytes.now }
{
    let (place, rest) = caller(plan, by, bytes)?;
    step_of(plan, by, ActorId::Caller(place), rest)
}

/// A work item and its event.
#[tactic(auto, unfolding(crate::specs::Reading::device_step_at))]
fn work_step(plan: &Plan, by: Option<&Finders>, bytes: &[u8]) -> Result<(ActorId, Event), Left>
    ensures { result ≡ device_step_at (names_of plan.now) (codes "work.") Work bytes.now }
{
    let (dev, rest) = device(plan, by, literal(b"work.", bytes)?)?;
    step_of(plan, by, ActorId::Work(dev.0), rest)
}

/// A timer and its event.
#[tactic(auto, unfolding(crate::specs::Reading::device_step_at))]
fn timer_step(plan: &Plan, by: Option<&Finders>, bytes: &[u8]) -> Result<(ActorId, Event), Left>
    ensures { result ≡ device_step_at (names_of plan.now) (codes "timer.") Timer bytes.now }
{
    let (dev, rest) = device(plan, by, literal(b"timer.", bytes)?)?;
    step_of(plan, by, ActorId::Timer(dev.0), rest)
}

/// An actor and its event.
#[tactic(auto, unfolding(crate::specs::Reading::step_at))]
fn step(plan: &Plan, by: Option<&Finders>, bytes: &[u8]) -> Result<(ActorId, Event), Left>
    ensures { result ≡ step_at (names_of plan.now) bytes.now }
{
    if plan.devices.len() == 0 {
        return caller_step(plan, by, bytes);
    }
    match work_step(plan, by, bytes) {
        Ok(step) => Ok(step),
        Err(left) => {
            let other = either(timer_step(plan, by, bytes), caller_step(plan, by, bytes));
            either(Err(left), other)
        }
    }
}

/// A line over a plan with some actor.
#[tactic(auto, unfolding(crate::specs::Reading::some_line_at))]
fn some_line(plan: &Plan, by: Option<&Finders>, base: u64, bytes: &[u8]) -> Result<Line, Left>
    requires { base < 2 ^ 63 }
    ensures { result ≡ some_line_at (names_of plan.now) base bytes.now }
{
    let (since, rest) = number(10, 0, (1 << 63) - 1 - base, bytes)?;
    let (actor, event) = step(plan, by, literal(b" ", rest)?)?;
    let time = base + since;
    Ok(Line { time, actor, event })
}

/// A line whose time is given since `base`.
#[tactic(auto, unfolding(crate::specs::Reading::line_at))]
pub(crate) fn line(plan: &Plan, by: Option<&Finders>, base: u64, bytes: &[u8]) -> Result<Line, Left>
    requires { base < 2 ^ 63 }
    ensures { result ≡ line_at (names_of plan.now) base bytes.now }
{
    if plan.devices.len() == 0 && plan.callers.len() == 0 {
        Err(bytes.len())
    } else {
        some_line(plan, by, base, bytes)
    }
}
