//! What only follows from something else that is reported.

ghost use Rattle.std.specs.Prelude.{◌≡◌, ◌<◌, ◌^◌, IfOk, filter, length, option_map};
ghost use Rattle.pm_driver_report.specs.Follows.{AreWeighed, IsWeighed, IsWeighedIn, as_note, graves, is_grave, is_same_pace, pass_of};

use crate::lines::{DriverLine, sight_weight};
use crate::passes::DriverPass;
use pm_base::NoMemory;
use pm_driver_find::{DriverFinding, ExaminedDriver, shown_before};
use pm_driver_read::Driver;
use pm_explore::schedule::Pace;
use pm_find::findings::Weight;
use std::alloc::{AllocError, Global};

/// Whether both are the same pace.
pub fn is_same_pace(one: Pace, other: Pace) -> bool
    ensures { result ≡ is_same_pace one other }
{
    match (one, other) {
        (Pace::Eager, Pace::Eager) | (Pace::Late, Pace::Late) => true,
        _ => false,
    }
}

/// What was gone through of a pace with at most so many failing callbacks.
pub fn pass_of(passes: &[DriverPass], pace: Pace, failures: u32) -> Option<&DriverPass>
    ensures { option_map (λ p. p.now) result ≡ pass_of passes.now pace failures }
{
    let [pass, passes @ ..] = passes else {
        return None;
    };
    if is_same_pace(pass.pace, pace) && pass.failures == failures {
        Some(pass)
    } else {
        pass_of(passes, pace, failures)
    }
}

fn as_note(line: DriverLine) -> DriverLine
    ensures { result ≡ as_note line }
{
    DriverLine {
        weight: Weight::Note,
        ..line
    }
}

fn is_grave(driver: &Driver, finding: &DriverFinding) -> bool
    ensures { result ≡ is_grave driver.now finding.now }
{
    matches!(sight_weight(driver, finding.sight), Weight::Error)
}

// Those of what is told of a pass that are errors.
fn graves(
    alloc: Global,
    driver: &Driver,
    pass: &DriverPass,
) -> Result<Vec<DriverFinding>, AllocError>
    ensures { IfOk result (λ out. out.items ≡ graves driver.now pass.now) }
{
    let mut out = Vec::new(alloc);
    for finding in pass.all.told.as_slice() {
        if is_grave(driver, finding) {
            out.push(*finding)?;
        }
    }
    Ok(out)
}

// A line, as a note where an error that is told shows before it on the way.
#[tactic(auto, using(crate::proofs::FollowLemmas::weighed_own))]
fn weighed(
    alloc: Global,
    driver: &Driver,
    examined: &ExaminedDriver,
    pass: &DriverPass,
    line: DriverLine,
) -> Result<DriverLine, AllocError>
    requires { length examined.now.rules.now.callers.now < 2 ^ 32 }
    ensures { IfOk result (IsWeighed driver.now examined.now pass.now line) }
{
    let told = graves(alloc, driver, pass)?;
    match shown_before(examined, &pass.all.found.tree, told.as_slice(), line.place) {
        Some(_) => Ok(as_note(line)),
        None => Ok(line),
    }
}

// A line, as a note where an error of its pass shows before it on the way.
fn weighed_in(
    alloc: Global,
    driver: &Driver,
    examined: &ExaminedDriver,
    passes: &[DriverPass],
    line: DriverLine,
) -> Result<DriverLine, AllocError>
    requires { length examined.now.rules.now.callers.now < 2 ^ 32 }
    ensures { IfOk result (IsWeighedIn driver.now examined.now (pass_of passes.now line.pace line.allowed) line) }
{
    match pass_of(passes, line.pace, line.allowed) {
        Some(pass) => weighed(alloc, driver, examined, pass, line),
        None => Ok(line),
    }
}

/// These lines, each as a note where an error that is told shows before it on the way.
pub fn all_weighed(
    alloc: Global,
    driver: &Driver,
    examined: &ExaminedDriver,
    passes: &[DriverPass],
    lines: &[DriverLine],
) -> Result<Vec<DriverLine>, NoMemory>
    requires { length examined.now.rules.now.callers.now < 2 ^ 32 }
    ensures { IfOk result (λ out. AreWeighed driver.now examined.now passes.now lines.now out.items) }
{
    let mut out = Vec::new(alloc);
    for line in lines {
        let made = weighed_in(alloc, driver, examined, passes, *line)?;
        out.push(made)?;
    }
    Ok(out)
}
