//! The text that is told of a plan's warnings: the place of each, what looks wrong, and what may help
//! (this project's own).
//!
//! `lints` says which there are, and `pm_messages::located` shows the tokens.

mod commands;
mod names;
mod notes;
mod rows;
mod told;

pub use told::{MAX_TOLD, warnings_text};
