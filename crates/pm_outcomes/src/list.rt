//! What shows at the snapshots of a plan's schedules, each with where it showed first, and all of it as a list in the order
//! of its text (this project's own).

mod firsts;
mod listing;
mod observations;
mod ranks;

pub use firsts::{Firsts, new_firsts, note};
pub use listing::{listed, round_of};
pub use observations::{Left, Observation, Outcome, Returned};
