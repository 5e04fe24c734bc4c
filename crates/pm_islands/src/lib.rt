//! The islands of a plan, which run apart: their numbers, the part of each, and the merge of their
//! lists of lines.
#![tactic(auto)]

mod labels;
mod merging;
mod numbers;
mod parts;
mod touching;

pub use merging::merge;
pub use numbers::{IslandNumbers, islands, number};
pub use parts::{blank, part};
