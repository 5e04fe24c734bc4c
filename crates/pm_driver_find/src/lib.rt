//! What the schedules of a driver show, each with the least number of preemptions (this project's own).
#![tactic(auto)]

mod ahead;
mod ends;
mod examined;
mod finding;
mod firsts;
mod following;
mod leftovers;
mod quiet;
mod sights;
mod suspects;

pub use examined::{CallerOrigin, ExaminedDriver};
pub use finding::{DriverFindings, all_driver_findings};
pub use firsts::DriverFinding;
pub use following::shown_before;
pub use sights::{DriverSight, ProbeSetting, is_seen};
