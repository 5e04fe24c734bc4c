//! What may come next in a schedule of a plan's lines at a pace: all of it, and nothing else (this project's own).

mod laws;
mod lines;
mod listing;
mod moments;
mod moves;

pub use laws::{lines_are_all, lines_are_by_one, next_snapshots_are_all, times_are_near};
pub use lines::next_lines;
pub use listing::actors;
pub use moves::Last;
