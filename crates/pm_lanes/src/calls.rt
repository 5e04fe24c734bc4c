//! The calls of a run: each `pm_call` line of a caller, with the line of its return.

mod call;

pub use call::{Answer, Call, calls};
