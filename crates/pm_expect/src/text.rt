//! What is told of expectations in a run (this project's own).
//!
//! Each has a name, as `end imx suspended`, and a line that says how it fails where it does. They are told as KTAP, which
//! the kernel's own tests write, or those that fail as lines of their file.

mod items;
mod ktap;
mod names;
mod plain;
mod told;

pub use items::{Item, Outcome, answer_items, end_items, use_items};
pub use ktap::push_ktap;
pub use names::{answer_name, end_name, use_name};
pub use plain::{has_failed, is_broken, push_counts, push_failed};
pub use told::{answer_told, end_told, use_told};
