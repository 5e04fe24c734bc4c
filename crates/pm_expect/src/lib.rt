//! Reads what an author expects of a plan's runs (this project's own).
//!
//! A file of expectations is TOML text. `read` gives what it says over a plan: which calls answer which codes, how
//! devices are left, and where a caller uses a device; or its first refusal.
#![tactic(auto)]

mod expectation;
mod fields;
mod reading;
mod refusal;
mod rows;
pub mod text;
mod tree;
pub mod uses;
pub mod verdicts;

pub use expectation::{Answer, End, Expectations, Left, Use, Which};
pub use fields::{is_same_command, times_by};
pub use reading::{EXPECT_BYTES, MAX_TABLES, read};
pub use refusal::{Fault, Key, Refusal, Section, Why};
