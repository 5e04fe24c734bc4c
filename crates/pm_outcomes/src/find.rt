//! What the schedules of a plan show: each code that a command returns in some schedule and each way in which a device ends,
//! with the least number of preemptions (this project's own).

mod finding;
mod firsts;
mod witness;

pub use finding::{Outcomes, all_outcomes};
pub use witness::witness_of;
