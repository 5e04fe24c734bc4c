//! The list of outcomes.

ghost use Rattle.std.specs.Prelude.{◌≡◌, IfOk};
ghost use Rattle.std.specs.List.{filter_map};
ghost use Rattle.pm_outcomes.specs.list.Listing.{AreListed, outcome_of, round_of};

use crate::list::firsts::Firsts;
use crate::list::observations::{Observation, Outcome};
use crate::list::ranks::rank_of;
use std::alloc::{AllocError, Global};

/// The first round that reaches beyond a place, or how many there are.
pub fn round_of(rounds: &[usize], place: usize) -> usize
    ensures { result ≡ round_of rounds.now place }
{
    for round in 0..rounds.len() {
        if place < rounds[round] {
            return round;
        }
    }
    rounds.len()
}

// An observation told by its round, if that counts.
fn outcome_of(
    rounds: &[usize],
    whole: bool,
    observation: Observation,
    place: usize,
) -> Option<Outcome>
    ensures { result ≡ outcome_of rounds.now whole (observation, place) }
{
    let round = round_of(rounds, place);
    if whole || round < rounds.len() {
        Some(Outcome {
            observation,
            round,
            place,
        })
    } else {
        None
    }
}

// The outcomes in the order in which their observations showed.
fn unsorted(
    alloc: Global,
    firsts: &Firsts,
    rounds: &[usize],
    whole: bool,
) -> Result<Vec<Outcome>, AllocError>
    ensures { IfOk result (λ out. out.items ≡ filter_map (outcome_of rounds.now whole) firsts.now.entries.entries) }
{
    let mut out = Vec::new(alloc);
    for i in 0..firsts.entries.len() {
        let Some((observation, place)) = firsts.entries.get_index(i) else {
            unreachable!();
        };
        if let Some(outcome) = outcome_of(rounds, whole, *observation, *place) {
            out.push(outcome)?;
        }
    }
    Ok(out)
}

/// The outcomes of the observations that showed within the rounds, or of all, in the order of the text. A round is told by
/// how many snapshots there are up to its end.
pub fn listed(
    alloc: Global,
    firsts: &Firsts,
    rounds: &[usize],
    whole: bool,
) -> Result<Vec<Outcome>, AllocError>
    ensures { IfOk result (λ out. AreListed firsts.now.entries.entries rounds.now whole out.items) }
{
    let mut out = unsorted(alloc, firsts, rounds, whole)?;
    out.sort_unstable_by_key(|outcome| rank_of(outcome));
    Ok(out)
}
