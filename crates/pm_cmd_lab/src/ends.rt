//! What all commands of `pm_lab` share: how each ends, by which status and message, and what is read of a plan's file.
//!
//! Statuses are those of `pm_top`. A read that failed names the file, and a refused plan is told in a person's words.

mod ending;
mod loading;

pub use ending::{FOUND, Fault, Outcome, USAGE, finish, refuse_words, write_text};
pub use loading::{Loaded, load, load_text, plan_bytes};
