//! The schedules in which a plan's lines may come: as definitions, and as a search from state to state that is exact at each
//! number of preemptions (this project's own).
#![tactic(auto)]

pub mod schedule;
pub mod search;
pub mod state;
pub mod successors;
