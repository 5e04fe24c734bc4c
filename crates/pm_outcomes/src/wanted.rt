//! What a run is asked to show: an observation, as words name it; and what of it a plan doesn't have (this project's own).

mod listed;
mod missing;
mod sought;

pub use listed::place_of;
pub use missing::missing_text;
pub use sought::{Missing, observation_sought};
