//! Whose turn it is, and that a run goes on: where an idle callback runs and which stages wait for their device,
//! from which moment on each actor may write, what a line changes of these moments, and that a run that isn't
//! finished is never stuck.

mod idles;
mod order;
mod stuck;
mod wakes;

pub use idles::{one_idle, stages_wait};
pub use order::{changes, frame, settles, starts, stirred, touched, waiters};
pub use stuck::{never_stuck, serial_ends, serial_stops};
pub use wakes::{moments, turns};
