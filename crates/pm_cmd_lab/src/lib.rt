//! The commands of `pm_lab`, over files and sinks that are handed in (this project's own).
#![tactic(auto)]

pub mod ends;
pub mod find;
pub mod order;
pub mod orders;
pub mod others;
pub mod picture;
