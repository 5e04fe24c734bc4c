//! What stands out in a run.

ghost use Rattle.std.specs.Prelude.{◌≡◌, ◌<◌, ◌^◌, IfOk, length, reverse, true};
ghost use Rattle.std.specs.List.{list_all};
ghost use Rattle.pm_find.specs.findings.AllFound.{all_found};
ghost use Rattle.pm_find.specs.findings.StandsOut.{is_follower, note_if, weight_of};
ghost use Rattle.pm_model.specs.Lawful.{IsLawful};
ghost use Rattle.pm_model.specs.LineOf.{is_line_of};

mod breaking;
mod choosing;
mod codes;
mod ending;
mod kinds;
mod laws;
mod telling;
mod watch;
mod watched;

use breaking::tell_domains;
pub use choosing::{faults, has_faults};
pub use ending::Holder;
use ending::no_drops;
pub use laws::{never_on_is_said, open_counts_are_share, puts_find_counts};
use pm_base::{ActorId, Cb, DevId, NoMemory};
use pm_laws::counts::sizes;
use pm_model::{Helper, Line, Plan};
use pm_safety::dependencies::Bonds;
pub use pm_safety::dependencies::{Bond, DomainOn, Excuse};
use std::alloc::Global;
use telling::{after, at_end, at_lines};
pub use watched::Count;

/// How much a finding weighs (this project's own).
#[derive(Clone, Copy, PartialEq, Eq)]
pub enum Weight {
    /// A driver that does so is wrong.
    Error,
    /// A driver that does so may be wrong.
    Warning,
    /// It happens in a run of a driver that is right.
    Note,
}

/// What stands out at a line (this project's own). Lines are counted from 1.
#[derive(Clone, Copy, PartialEq, Eq)]
pub enum Kind {
    /// A get whose count its caller never gives back, and the helper that took it.
    Leak {
        actor: ActorId,
        dev: DevId,
        helper: Option<Helper>,
    },
    /// A put that takes away the count of another caller: whose, and the line of its get.
    Stolen {
        actor: ActorId,
        dev: DevId,
        owner: ActorId,
        line: u32,
    },
    /// A call that answers another error, whether a count is open that the call took, and whether that is its driver's own
    /// affair: nobody reads what a put answers; or a callback failed, and the count that the call keeps, if it keeps one,
    /// is given back before its caller takes another.
    Answer {
        actor: ActorId,
        helper: Helper,
        dev: DevId,
        code: i32,
        keeps: bool,
        settled: bool,
    },
    /// A call that is to be tried again.
    Refused {
        actor: ActorId,
        helper: Helper,
        dev: DevId,
        code: i32,
    },
    /// A `set_active` or `set_suspended` that is to be tried again: the kernel prints an error there.
    RefusedStatus {
        actor: ActorId,
        helper: Helper,
        dev: DevId,
        code: i32,
    },
    /// A put that has no count to give back, and whether it only follows a `get_if_active` or `get_if_in_use` that took
    /// none and whose error nobody read.
    RefusedPut {
        actor: ActorId,
        helper: Helper,
        dev: DevId,
        code: i32,
        follows: bool,
    },
    /// A get that took no count, since the device isn't on.
    NoCount {
        actor: ActorId,
        helper: Helper,
        dev: DevId,
    },
    /// A device that is Active at the end with no count of a caller, and that is enabled, or whose disabling dropped a
    /// suspend that was still to come; and what holds it.
    LeftOn {
        dev: DevId,
        by: Holder,
    },
    /// A put of a count whose get asked for a resume, during which the device was never Active and its caller was told
    /// no error of the device, and the line of the get.
    NeverOn {
        actor: ActorId,
        dev: DevId,
        line: u32,
    },
    /// A put that lets a device, which was used, suspend once its autosuspend delay has passed, though the delay counts
    /// from an earlier moment: for so many milliseconds before the put the device wasn't marked as busy; and the delay.
    Unmarked {
        actor: ActorId,
        helper: Helper,
        dev: DevId,
        ms: u64,
        delay: u64,
    },
    /// A callback that failed.
    Failed {
        dev: DevId,
        cb: Cb,
        code: i32,
    },
    /// A call that answers `EINVAL` since the device has an error, the line that stored it, and whether a count is
    /// open that the call took.
    Poisoned {
        actor: ActorId,
        helper: Helper,
        dev: DevId,
        line: u32,
        keeps: bool,
    },
    /// A bond of an Active device that the line broke: its domain is off, or its parent or a supplier isn't Active.
    Off(Bond),
    /// A power domain that is on at the end though no device of it is Active.
    DomainOn(DomainOn),
}

/// What stands out, and at which line.
#[derive(Clone, Copy, PartialEq, Eq)]
pub struct Finding {
    pub line: u32,
    pub kind: Kind,
}

// A note, where it follows from something else that is told or that is right.
fn note_if(follows: bool, heavier: Weight) -> Weight
    ensures { result ≡ note_if follows heavier }
{
    if follows { Weight::Note } else { heavier }
}

// Whether a device that is held so follows the one that holds it.
fn is_follower(by: Holder) -> bool
    ensures { result ≡ is_follower by }
{
    matches!(by, Holder::Child(_) | Holder::Consumer(_))
}

impl Kind {
    /// How much it weighs: a finding of the caller's own fault is an error, what may be meant a warning, and a note what only
    /// follows from something else that is told, or comes in a run of a driver that is right.
    pub fn weight(&self) -> Weight
        ensures { result ≡ weight_of self.now }
    {
        match *self {
            Kind::Leak { .. } => Weight::Error,
            Kind::Answer { settled, .. } => note_if(settled, Weight::Error),
            Kind::RefusedPut { follows, .. } => note_if(follows, Weight::Error),
            Kind::LeftOn { by, .. } => note_if(is_follower(by), Weight::Warning),
            Kind::Stolen { .. }
            | Kind::RefusedStatus { .. }
            | Kind::NeverOn { .. }
            | Kind::Unmarked { .. }
            | Kind::DomainOn(_)
            | Kind::Off(_) => Weight::Warning,
            Kind::Refused { .. }
            | Kind::NoCount { .. }
            | Kind::Failed { .. }
            | Kind::Poisoned { .. } => Weight::Note,
        }
    }
}

/// All that stands out at these lines of a run of a plan, in their order, and at the end where the run is finished.
/// It reads the lines twice, and at each line it looks at the counts that are open on the line's device, and at that
/// one's children and links; at the end, for each device that is left on, at all links and devices, and for each domain
/// that is on, at all devices. Fails where memory runs out.
pub fn findings(
    alloc: Global,
    plan: &Plan,
    lines: &[Line],
    is_finished: bool,
) -> Result<Vec<Finding>, NoMemory>
    requires few { length lines.now < 2 ^ 32 }
    requires lawful { IsLawful plan.now (reverse lines.now) }
    requires of_plan { list_all (is_line_of plan.now) (reverse lines.now) ≡ true }
    ensures { IfOk result (λ all. all.items ≡ all_found plan.now is_finished (reverse lines.now)) }
{
    sizes();
    let ends = after(alloc, plan, lines)?;
    let mut bonds = Bonds::start(alloc, plan)?;
    let mut drops = no_drops(alloc, plan)?;
    if !is_finished {
        let none = after(alloc, plan, &[])?;
        let all = at_lines(alloc, plan, &none, &ends, &mut bonds, &mut drops, lines)?;
        return Ok(all);
    }
    let mut all = at_lines(alloc, plan, &ends, &ends, &mut bonds, &mut drops, lines)?;
    let number = lines.len() as u32;
    at_end(&mut all, &ends, &drops, bonds.parts(), plan, number)?;
    tell_domains(alloc, &mut all, &bonds, plan, number)?;
    Ok(all)
}
