//! A list of a plan's lines, as a schedule of them, gone on with on one thread until the run is finished (this project's
//! own).

mod going;

pub use going::{Gone, go_on, schedules_are_near};
