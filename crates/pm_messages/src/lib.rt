//! The words for each refusal of a plan, and the text that shows where it is (this project's own).
#![tactic(auto)]

pub mod located;
pub mod notes;
