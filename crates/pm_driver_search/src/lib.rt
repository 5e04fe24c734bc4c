//! The schedules of a driver, searched through: where they stand by which number of preemptions, with at most so many
//! callbacks that fail (this project's own).
#![tactic(auto)]

mod can_take;
mod graph;
mod moments;
mod next;
mod places;
mod pose;
mod rooms;
mod run;
mod searching;
mod steady;
mod step;
mod witness;

pub use run::DriverRun;
pub use searching::all_driver_schedules;
pub use witness::witness_to;
