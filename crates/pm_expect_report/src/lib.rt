//! What is told of expectations: of a file that is refused, of a trace, and over all schedules of a plan (this project's own).
#![tactic(auto)]

pub mod broken;
pub mod orders;
pub mod refused;
pub mod trace;
