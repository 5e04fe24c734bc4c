//! Who writes the next line of a run on one thread, and when (this project's own).
#![tactic(auto)]

mod queue;
mod rows;
mod settle;
mod turns;
mod waiting;
mod waking;

pub use turns::Turns;
pub use waiting::device_at;
