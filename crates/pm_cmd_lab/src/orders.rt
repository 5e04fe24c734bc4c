//! The commands of `pm_lab` that go through the schedules of a plan: what they show, where the outcome of a kernel's run
//! stands among it, and what they make of what an author expects. Files and sinks are handed in.

mod apart;
mod expect;
mod laws;
mod orders;
mod seen;

pub use expect::expect_top;
pub use laws::{islands_are_exact, two_observations_differ};
pub use orders::{orders_top, outcomes_of, pace_of};
pub use seen::seen_top;
