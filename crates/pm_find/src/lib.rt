//! What `pm_lab find` tells of a trace: what stands out in its run, line by line, and the text of it (this project's own).
#![tactic(auto)]

pub mod findings;
pub mod text;
pub mod trace;
