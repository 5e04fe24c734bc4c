//! What the options of `find` ask for: how far the schedules of a driver are looked through.

ghost use Rattle.std.specs.Prelude.{◌≡◌, option_map};
ghost use Rattle.pm_lab_words.specs.Driver.{driver_bounds_of, has_no_trace, is_of_plan, is_of_trace, number_if, pace_of};
ghost use Rattle.pm_lab_words.specs.Read.{options_of};

use crate::numbers::{number_between, number_or};
use crate::options::Options;

/// At which paces the schedules of a driver are looked through.
#[derive(Clone, Copy, PartialEq, Eq)]
pub enum Paces {
    /// The eager ones, and behind them the late ones.
    Both,
    Eager,
    Late,
}

/// How far the schedules of a driver are looked through.
#[derive(Clone, Copy, PartialEq, Eq)]
pub struct DriverBounds {
    pub paces: Paces,
    /// How many lines preempt, at most: 0 to 99; as many as there are, where it isn't said.
    pub most: Option<u32>,
    /// How many callbacks fail, at most: 0 to 3.
    pub failures: u32,
    /// How many states are looked at, at most: 1 to 10,000,000.
    pub states: u32,
}

/// Whether no option was given that is of a search alone.
pub fn is_of_trace(options: &Options<'_>) -> bool
    ensures { result ≡ is_of_trace (options_of options.now) }
{
    !options.late
        && !options.eager
        && options.most.is_none()
        && options.fail.is_none()
        && options.states.is_none()
}

/// Whether no option was given that is of a trace alone.
pub fn has_no_trace(options: &Options<'_>) -> bool
    ensures { result ≡ has_no_trace (options_of options.now) }
{
    !options.ktap && options.expect.is_none()
}

/// Whether no option was given that is of a driver's file alone.
pub fn is_of_plan(options: &Options<'_>) -> bool
    ensures { result ≡ is_of_plan (options_of options.now) }
{
    !options.eager && !options.notes && !options.plan && options.fail.is_none()
}

/// The paces that are asked for. Both words at once are refused: without them both paces are looked through.
fn pace_of(late: bool, eager: bool) -> Option<Paces>
    ensures { result ≡ pace_of late eager }
{
    match (late, eager) {
        (false, false) => Some(Paces::Both),
        (true, false) => Some(Paces::Late),
        (false, true) => Some(Paces::Eager),
        (true, true) => None,
    }
}

/// The number that an option's value writes, where the option was given; it has to be in this range.
fn number_if(least: u32, most: u32, word: Option<&str>) -> Option<Option<u32>>
    ensures { result ≡ number_if least most (option_map (λ w. w.now) word.entry) }
{
    match word {
        Some(word) => Some(Some(number_between(least, most, word.as_bytes())?)),
        None => Some(None),
    }
}

/// How far the schedules of a driver are looked through: with at most one failing callback and 200,000 states where
/// nothing is said.
pub fn driver_bounds_of(options: &Options<'_>) -> Option<DriverBounds>
    ensures { result ≡ driver_bounds_of (options_of options.now) }
{
    let paces = pace_of(options.late, options.eager)?;
    let most = number_if(0, 99, options.most)?;
    let failures = number_or(0, 3, 1, options.fail)?;
    let states = number_or(1, 10_000_000, 200_000, options.states)?;
    Some(DriverBounds {
        paces,
        most,
        failures,
        states,
    })
}
