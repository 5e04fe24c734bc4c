//! The schedules of a plan's lines at a pace, searched through: where they stand by which number of preemptions (this
//! project's own).

mod graph;
mod next;
mod replay;
mod run;
mod searching;
mod witness;

pub use searching::all_schedules;
pub use witness::schedule_to;
