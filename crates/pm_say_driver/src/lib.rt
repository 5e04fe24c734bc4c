//! What a driver's file is told of: where it is refused, in the words of a person, or what looks wrong in it and how
//! much it has (this project's own).
//!
//! `read_driver` of `pm_driver_read` decides. `notes` has the words for each refusal; a file without a driver's words is
//! told of as a plan.
#![tactic(auto)]

mod counts;
mod devices;
mod keys;
mod lints;
mod refused;
mod scripts;
mod steps;
mod told;
mod tree_words;

pub use told::say_file;
