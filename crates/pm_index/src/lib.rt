//! What is found without a walk over all: a set of numbers in which the next one is at hand (`Bits`), the least
//! of many moments and whose it is (`Moments`), and marks with the count of each owner (`Tally`).
//! Nothing here knows of plans or devices.
#![tactic(auto)]

mod bits;
mod moments;
mod tally;
mod tree;
mod words;

pub use bits::Bits;
pub use moments::Moments;
pub use tally::Tally;
