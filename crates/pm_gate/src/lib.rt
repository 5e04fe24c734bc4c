//! What a run calls while a callback is open, and what tells it the time.
#![tactic(auto)]

mod clocks;
mod gates;

pub use clocks::{Clock, Stopwatch, Ticker};
pub use gates::{Gate, Meet, Quiet};
