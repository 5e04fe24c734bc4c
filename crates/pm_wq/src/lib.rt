//! Hints between threads: numbers of islands that may have a line to write. A hint may be lost or wrong; no
//! result rests on one.
#![tactic(auto)]

mod hints;
mod rule;

pub use hints::{HintPass, Hints};
