//! The islands of a plan one by one: the part of each, where an observation is at home, and that what is lawful for the part of
//! one is lawful for the plan (this project's own).

mod alone;
mod homes;
mod parts;

pub use alone::islands_stand_alone;
pub use homes::{has_rest, home_of, push_own};
pub use parts::{home_part, part_at};
