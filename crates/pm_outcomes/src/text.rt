//! The text of what the schedules of a plan show (this project's own).

mod absent;
mod differing;
mod lines;
mod pieces;
mod reach;
mod seen;
mod texts;

pub use absent::{absent_text, push_limit};
pub use differing::differs;
pub use pieces::{push_after, push_number};
pub use pm_linetext::push;
pub use reach::{Reach, reach_of};
pub use seen::push_seen;
pub use texts::{orders_text, told_text};
