//! What a plan is told of: where it is refused, in the words of a person, or what looks wrong in it and how
//! much it has (this project's own).
//!
//! `read_plan` decides, and `pm_messages::located` tells of what is refused; `lints` says what
//! looks wrong, and `lint_text` tells of it.
#![tactic(auto)]

pub mod further;
pub mod lint_text;
pub mod lints;
pub mod notes;
mod others;
mod refused;
mod told;
mod warned;

pub use refused::too_long_text;
pub use told::{Kind, NoPlan, Said, read_or_tell, say};
