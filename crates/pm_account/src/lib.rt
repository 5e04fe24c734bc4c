//! For how long each device was active, suspended and moving.
#![tactic(auto)]

ghost use Rattle.std.specs.Prelude.{◌≡◌, ◌+◌, All, IfOk, length, map, reverse};
ghost use Rattle.pm_base.specs.declared.DevId.{DevId};
ghost use Rattle.pm_model.specs.declared.plan.Plan.{Plan};
ghost use Rattle.pm_model.specs.History.{History};
ghost use Rattle.pm_model.specs.Lawful.{IsLawful, last_time};
ghost use Rattle.pm_account.specs.Account.{IsAccount};
ghost use Rattle.pm_account.specs.Kept.{AreKept, IsReady, until};
ghost use Rattle.pm_account.specs.AllKept.{AreTimes, Stayed, account_of};
ghost use Rattle.pm_account.specs.Times.{active, moving, suspended};

mod stay;
mod stays;
mod texts;

use pm_base::NoMemory;
use pm_model::{Line, Plan};
use stay::{Stay, UNSAID, keep};
pub use stays::Stays;
use std::alloc::Global;
pub use texts::times_text;

/// For how many milliseconds of a run a device was in which status.
#[derive(Clone, Copy, PartialEq, Eq)]
pub struct Times {
    pub active: u64,
    /// From moment 0 on, since a device starts Suspended.
    pub suspended: u64,
    /// Suspending or Resuming.
    pub moving: u64,
}

/// The three times of a device add up to the time of the last line.
pub fn times_add_up()
    ensures { (plan : Plan) (h : History) (d : DevId) → IsLawful plan h → active h d + suspended h d + moving h d ≡ last_time h }
{}

/// What is kept of all devices of a plan gives the times of each.
pub fn stays_are_account()
    ensures { (plan : Plan) (h : History) (s : Stayed) → AreTimes s h → length s.stays ≡ length plan.devices → IsAccount plan h (account_of s) }
{}

// What is kept of each device after these lines.
fn after_lines(alloc: Global, plan: &Plan, lines: &[Line]) -> Result<Vec<Stay>, NoMemory>
    requires { IsLawful plan.now (reverse lines.now) }
    ensures { IfOk result (λ stays. AreKept (length plan.now.devices) (reverse lines.now) stays.items) }
{
    let mut stays = vec![in alloc; UNSAID; plan.devices.len()]?;
    for line in lines {
        keep(&mut stays, line);
    }
    Ok(stays)
}

// The times of each device until the end.
fn until_end(alloc: Global, stays: &[Stay], end: u64) -> Result<Vec<Times>, NoMemory>
    requires { All (IsReady end) stays.now }
    ensures { IfOk result (λ times. times.items ≡ map (λ stay. until stay end) stays.now) }
{
    let mut times = Vec::with_capacity(alloc, stays.len())?;
    for stay in stays {
        times.push(stay.until(end))?;
    }
    Ok(times)
}

/// The times of each device over the lines of a run in order, one entry for each device of the plan.
/// It looks at one device for each line, and at each device once. Fails where memory runs out.
pub fn account(alloc: Global, plan: &Plan, lines: &[Line]) -> Result<Vec<Times>, NoMemory>
    requires { IsLawful plan.now (reverse lines.now) }
    ensures { IfOk result (λ times. IsAccount plan.now (reverse lines.now) times.items) }
{
    let stays = after_lines(alloc, plan, lines)?;
    until_end(alloc, &stays, last_time(lines))
}

// The time of the last line, or 0.
fn last_time(lines: &[Line]) -> u64
    ensures { result ≡ last_time (reverse lines.now) }
{
    match lines.last() {
        Some(line) => line.time,
        None => 0,
    }
}
