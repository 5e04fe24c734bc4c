//! What is told of a trace: what stands out in its run, or its first bad line.

mod places;
mod telling;
mod texts;
mod trace;

pub use places::PlanFile;
pub use telling::{Found, tell, tell_unlawful};
pub use trace::find;
