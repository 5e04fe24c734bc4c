//! Where an observation stands in a list.

ghost use Rattle.std.specs.Prelude.{◌≡◌, ◌↔◌, IfNone, IfSome, IsTrue, length};
ghost use Rattle.pm_outcomes.specs.wanted.Listed.{HasItNot, IsObservationAt};

use crate::list::{Observation, Outcome};

// Whether both are the same.
fn is_same(one: Observation, other: Observation) -> bool
    ensures { IsTrue result ↔ (one ≡ other) }
{
    one == other
}

/// The place of an observation in a list.
pub fn place_of(outcomes: &[Outcome], observation: Observation) -> Option<usize>
    ensures some { IfSome result (IsObservationAt outcomes.now observation) }
    ensures none { IfNone result (HasItNot outcomes.now observation (length outcomes.now)) }
{
    for place in 0..outcomes.len() {
        if is_same(outcomes[place].observation, observation) {
            return Some(place);
        }
    }
    None
}
