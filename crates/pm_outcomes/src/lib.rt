//! What the schedules of a plan show, each with the least number of preemptions; a run that shows what is asked for; and what
//! a kernel's log tells of a run (this project's own).
#![tactic(auto)]

pub mod find;
pub mod islands;
pub mod kernel_log;
pub mod list;
pub mod observe;
pub mod paths;
pub mod text;
pub mod wanted;
pub mod witness;
