//! The command of `pm_lab` that finds what is wrong: in a run, with whether what its author expects holds, or in the schedules of a
//! driver. Files and sinks are handed in.

mod check;
mod driver;
mod find;

pub use check::{Read, check_top, expectations, tell_unread};
pub use driver::find_driver_top;
pub use find::find_top;
