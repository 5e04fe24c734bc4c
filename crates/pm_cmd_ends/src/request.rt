//! The commands that the words of the command line name.
//!
//! The words are those after the program's name: the word of a command, and behind it that command's words.

ghost use Rattle.std.specs.Prelude.{◌≡◌, ◌<◌, ◌≤◌, ◌^◌, map, option_map, string_bytes, IfSome};
ghost use Rattle.pm_cmd_ends.specs.Ordering.{ordered_of};
ghost use Rattle.pm_cmd_ends.specs.Request.{IsInRange, asked, asked_by, asked_of, asked_of_one, asked_of_three, asked_of_two, asked_with, make_of, run_with};

use crate::numbers::{devices_in, hands_in, number_in};
use crate::ordering::{Words, ordered};

/// Hands of `run`, at most.
pub const MAX_HANDS: u32 = 16;

/// Hands of `run` where the words don't say.
pub const DEFAULT_HANDS: u32 = 4;

/// A command, with what its words name. A plan and a trace are named by the paths of their files.
#[derive(Clone, Copy, PartialEq, Eq)]
pub enum Request<'a> {
    /// `serial PLAN`: runs the plan on one thread.
    Serial {
        plan: &'a str,
    },
    /// `run PLAN`: runs the plan with this many threads, 1 to `MAX_HANDS`.
    Run {
        plan: &'a str,
        hands: u32,
    },
    /// `audit PLAN TRACE`: judges the trace.
    Audit {
        plan: &'a str,
        trace: &'a str,
    },
    /// `check PLAN`: reads the plan and counts.
    Check {
        plan: &'a str,
    },
    /// `make NUMBER DEVICES`: makes a plan of 1 to `MAX_DEVICES` devices and runs it.
    Make {
        number: u64,
        devices: u32,
    },
    /// `convert PLAN TRACE`: writes the trace in format 2.
    Convert {
        plan: &'a str,
        trace: &'a str,
    },
    /// `times PLAN TRACE`: how long each device was active.
    Times {
        plan: &'a str,
        trace: &'a str,
    },
    /// `why PLAN TRACE DEVICE`: what keeps the device from suspending.
    Why {
        plan: &'a str,
        trace: &'a str,
        device: &'a str,
    },
    /// `desk PLAN`: runs each caller's script by a thread of its own.
    Desk {
        plan: &'a str,
    },
}

/// The command that the words name: they are those after the program's name. `None` comes exactly where
/// they are none of the commands. It takes no memory.
#[tactic(auto, unfolding(crate::specs::Request::asked_by))]
pub fn read_words(words: &[String]) -> Option<Request<'_>>
    ensures request { option_map asked result ≡ asked_by (map string_bytes words.now) }
    ensures in_range { IfSome result (λ r. IsInRange (asked r)) }
{
    let [command, words @ ..] = words else {
        return None;
    };
    let words = ordered(words)?;
    match words.hands {
        Some(number) => run_with(command.as_str(), number, &words),
        None => asked_of(command.as_str(), &words),
    }
}

/// The command of any number of positional words.
#[tactic(auto, using(crate::proofs::RequestLemmas::only_one, crate::proofs::RequestLemmas::only_two, crate::proofs::RequestLemmas::only_three))]
fn asked_of<'a>(command: &str, words: &Words<'a>) -> Option<Request<'a>>
    ensures request { option_map asked result ≡ asked_of command.now (ordered_of words.now).positional }
    ensures in_range { IfSome result (λ r. IsInRange (asked r)) }
{
    match (words.word(0), words.word(1), words.word(2), words.word(3)) {
        (Some(first), None, _, _) => asked_of_one(command, first),
        (Some(first), Some(second), None, _) => asked_of_two(command, first, second),
        (Some(first), Some(second), Some(third), None) => {
            asked_of_three(command, first, second, third)
        }
        _ => None,
    }
}

/// The command of one positional word.
fn asked_of_one<'a>(command: &str, plan: &'a str) -> Option<Request<'a>>
    ensures request { option_map asked result ≡ asked_of_one command.now plan.now }
    ensures in_range { IfSome result (λ r. IsInRange (asked r)) }
{
    if command == "serial" {
        Some(Request::Serial { plan })
    } else if command == "run" {
        Some(Request::Run {
            plan,
            hands: DEFAULT_HANDS,
        })
    } else if command == "check" {
        Some(Request::Check { plan })
    } else if command == "desk" {
        Some(Request::Desk { plan })
    } else {
        None
    }
}

/// The command of two positional words.
fn asked_of_two<'a>(command: &str, first: &'a str, second: &'a str) -> Option<Request<'a>>
    ensures request { option_map asked result ≡ asked_of_two command.now first.now second.now }
    ensures in_range { IfSome result (λ r. IsInRange (asked r)) }
{
    let (plan, trace) = (first, second);
    if command == "audit" {
        Some(Request::Audit { plan, trace })
    } else if command == "make" {
        make_of(first, second)
    } else if command == "convert" {
        Some(Request::Convert { plan, trace })
    } else if command == "times" {
        Some(Request::Times { plan, trace })
    } else {
        None
    }
}

/// `make`, with a number and a number of devices.
fn make_of<'a>(number: &str, devices: &str) -> Option<Request<'a>>
    ensures request { option_map asked result ≡ make_of number.now devices.now }
    ensures in_range { IfSome result (λ r. IsInRange (asked r)) }
{
    let number = number_in(number.as_bytes())?;
    let devices = devices_in(devices.as_bytes())?;
    Some(Request::Make { number, devices })
}

/// The command of three positional words.
fn asked_of_three<'a>(
    command: &str,
    plan: &'a str,
    trace: &'a str,
    device: &'a str,
) -> Option<Request<'a>>
    ensures request { option_map asked result
        ≡ asked_of_three command.now plan.now trace.now device.now }
    ensures in_range { IfSome result (λ r. IsInRange (asked r)) }
{
    if command == "why" {
        Some(Request::Why {
            plan,
            trace,
            device,
        })
    } else {
        None
    }
}

/// The command of one positional word and the option, which `run` alone takes.
fn run_with<'a>(command: &str, number: &[u8], words: &Words<'a>) -> Option<Request<'a>>
    ensures request { option_map asked result
        ≡ run_with command.now number.now (ordered_of words.now).positional }
    ensures in_range { IfSome result (λ r. IsInRange (asked r)) }
{
    let (Some(plan), None) = (words.word(0), words.word(1)) else {
        return None;
    };
    if command != "run" {
        return None;
    }
    let hands = hands_in(number)?;
    Some(Request::Run { plan, hands })
}
