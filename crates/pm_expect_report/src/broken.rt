//! Where the schedules of a plan break what its author expects (this project's own).

mod answering;
mod ending;
mod expectation;
mod firsts;
mod laws;
mod using;

pub use expectation::{Breach, Expectation, all_of, breach_at};
pub use firsts::{Broken, first_broken};
pub use laws::firsts_decide;
