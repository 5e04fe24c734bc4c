//! By what hands choose among lawful orders.

use rand_core::{Rng, SeedableRng};
use rand_xoshiro::SplitMix64;

/// Numbers by which one hand chooses, one for each turn. No result rests on them.
///
/// A hand keeps its number for some turns, so that it stays with an actor for a while: for 1, 2, 4, 8 or 16 turns
/// on the average, as the numbers decide once for the run.
#[derive(Drop)]
pub struct Choice {
    steps: SplitMix64,
    /// With which bits of a step the number stays.
    stays: u64,
    number: u64,
}

/// For how long a number stays is one of so many.
const WAYS: u64 = 5;

/// Beside a callback so many lines may be written at most, and in as many cases none is.
const BESIDE: u64 = 4;

impl Choice {
    /// Of the hand at this place, in the run of this seed.
    pub fn of(seed: u64, place: u64) -> Choice {
        // The steps of two seeds that are next to one another have nothing in common, but those of two hands
        // would be the same numbers, one behind the other: so a hand's seed is a step of its place.
        let place = SplitMix64::seed_from_u64(place).next_u64();
        let mut steps = SplitMix64::seed_from_u64(seed ^ place);
        let stays = (1 << (steps.next_u64() % WAYS)) - 1;
        let number = steps.next_u64();
        Choice {
            steps,
            stays,
            number,
        }
    }

    /// The number of the next turn.
    pub fn next(&mut self) -> u64 {
        if self.steps.next_u64() & self.stays == 0 {
            self.number = self.steps.next_u64();
        }
        self.number
    }

    /// How many lines are to be written beside a callback before it ends.
    pub fn beside(&mut self) -> u64 {
        (self.steps.next_u64() % (2 * BESIDE)).saturating_sub(BESIDE - 1)
    }
}
