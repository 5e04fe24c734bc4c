//! Whether anything has more than one observation.

ghost use Rattle.std.specs.Prelude.{◌≡◌};
ghost use Rattle.pm_outcomes.specs.text.Texts.{differs, is_alike};

use crate::list::{Observation, Outcome};

/// Whether two observations are of one command, or of one device.
fn is_alike(one: Observation, other: Observation) -> bool
    ensures { result ≡ is_alike one other }
{
    match (one, other) {
        (Observation::Return(r), Observation::Return(s)) => r.caller == s.caller
            && r.command == s.command,
        (Observation::End(l), Observation::End(m)) => l.device.0 == m.device.0,
        _ => false,
    }
}

/// Whether a command or a device has more than one observation, in a list in which those of one stand one behind the
/// other, as in that of `all_outcomes`.
pub fn differs(outcomes: &[Outcome]) -> bool
    ensures { result ≡ differs outcomes.now }
{
    let mut left = outcomes;
    while let [first, rest @ ..] = left {
        if let [second, ..] = rest
            && is_alike(first.observation, second.observation)
        {
            return true;
        }
        left = rest;
    }
    false
}
