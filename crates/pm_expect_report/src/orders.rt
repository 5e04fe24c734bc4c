//! What the schedules of a plan make of the expectations of a file, and its text (this project's own).

mod judging;
mod pieces;
mod texts;

pub use judging::{Judged, has_broken, judge};
pub use texts::{no_expectation_text, push_judged, unbroken_text};
