//! The schedules of a driver are gone through, pass by pass.

ghost use Rattle.std.specs.Prelude.{◌≡◌, ◌<◌, ◌≤◌, ◌+◌, ◌^◌, ◌++◌, ◌∷◌, [], IfOk, OnOk, length};
ghost use Rattle.pm_driver_report.specs.Passes.{AddsPasses, ArePassesOf, IsPassOf, asked_by, eager_part, eager_parts, most_of, states_for, with_all};

use pm_base::NoMemory;
use pm_driver_find::{DriverFindings, ExaminedDriver, all_driver_findings};
use pm_explore::schedule::Pace;
use pm_lab_words::{DriverBounds, Paces};
use std::alloc::{AllocError, Global};

/// Preemptions that are gone through where none are asked for, at most.
const MOST: u32 = 99;

/// Schedules that are to be gone through.
#[derive(Clone, Copy)]
pub struct PassAsked {
    pub pace: Pace,
    /// How many callbacks fail, at most: 0 to 3.
    pub failures: u32,
    /// With a part of the states alone, since more is gone through behind it.
    pub in_part: bool,
}

/// What the schedules of a pace show of whose callbacks at most so many fail.
#[derive(Drop)]
pub struct DriverPass {
    pub pace: Pace,
    /// How many callbacks fail, at most: 0 to 3.
    pub failures: u32,
    pub all: DriverFindings,
}

fn most_of(most: Option<u32>) -> u32
    ensures { result ≡ most_of most }
{
    most.unwrap_or(MOST)
}

fn with_all(pace: Pace, failures: u32) -> PassAsked
    ensures { result ≡ with_all pace failures }
{
    PassAsked {
        pace,
        failures,
        in_part: false,
    }
}

fn eager_part(failures: u32) -> PassAsked
    ensures { result ≡ eager_part failures }
{
    PassAsked {
        pace: Pace::Eager,
        failures,
        in_part: true,
    }
}

// Asks for the eager schedules with at most 0, 1, .. failing callbacks: so many passes.
fn ask_for_eager(asked: &mut Vec<PassAsked>, passes: u32) -> Result<(), AllocError>
    ensures { OnOk result (asked.new.items ≡ asked.old.items ++ eager_parts passes) }
{
    for failures in 0..passes {
        asked.push(eager_part(failures))?;
    }
    Ok(())
}

// What is asked for, in its order.
fn asked_by(alloc: Global, paces: Paces, failures: u32) -> Result<Vec<PassAsked>, AllocError>
    ensures { IfOk result (λ asked. asked.items ≡ asked_by paces failures) }
{
    let mut asked = Vec::new(alloc);
    match paces {
        Paces::Eager => {
            ask_for_eager(&mut asked, failures)?;
            asked.push(with_all(Pace::Eager, failures))?;
        }
        Paces::Late => asked.push(with_all(Pace::Late, failures))?,
        Paces::Both => {
            ask_for_eager(&mut asked, failures)?;
            asked.push(eager_part(failures))?;
            asked.push(with_all(Pace::Late, failures))?;
        }
    }
    Ok(asked)
}

// How many states a pass has, of those that are left.
fn states_for(asked: PassAsked, left: usize) -> usize
    ensures { result ≡ states_for asked left }
{
    if asked.in_part { left / 4 + 1 } else { left }
}

// Goes through the schedules of one pass.
fn go_through(
    alloc: Global,
    examined: &ExaminedDriver,
    asked: PassAsked,
    most: u32,
    states: usize,
) -> Result<DriverPass, NoMemory>
    requires callers { length examined.now.rules.now.callers.now < 2 ^ 32 }
    ensures { IfOk result (IsPassOf examined.now asked most states) }
{
    let PassAsked { pace, failures, .. } = asked;
    let all = all_driver_findings(alloc, examined, pace, failures, most as usize, states)?;
    Ok(DriverPass {
        pace,
        failures,
        all,
    })
}

// Goes through these passes, with the states that are left.
#[tactic(auto, using(crate::proofs::PassLemmas::none_is_left))]
fn go_on_through(
    alloc: Global,
    examined: &ExaminedDriver,
    asked: &[PassAsked],
    most: u32,
    left: usize,
    passes: &mut Vec<DriverPass>,
) -> Result<(), NoMemory>
    requires callers { length examined.now.rules.now.callers.now < 2 ^ 32 }
    ensures { OnOk result (AddsPasses examined.now most left asked.now passes.old.items passes.new.items) }
{
    let [first, asked @ ..] = asked else {
        return Ok(());
    };
    if left == 0 {
        return Ok(());
    }
    let pass = go_through(alloc, examined, *first, most, states_for(*first, left))?;
    let used = pass.all.found.tree.nodes.len();
    passes.push(pass)?;
    let rest = left.saturating_sub(used);
    go_on_through(alloc, examined, asked, most, rest, passes)?;
    Ok(())
}

/// Goes through the schedules that are asked for.
pub fn all_passes(
    alloc: Global,
    examined: &ExaminedDriver,
    bounds: DriverBounds,
) -> Result<Vec<DriverPass>, NoMemory>
    requires callers { length examined.now.rules.now.callers.now < 2 ^ 32 }
    ensures { IfOk result (λ passes. ArePassesOf examined.now bounds passes.items) }
{
    let asked = asked_by(alloc, bounds.paces, bounds.failures)?;
    let mut passes = Vec::new(alloc);
    let most = most_of(bounds.most);
    let left = bounds.states as usize;
    go_on_through(alloc, examined, asked.as_slice(), most, left, &mut passes)?;
    Ok(passes)
}
