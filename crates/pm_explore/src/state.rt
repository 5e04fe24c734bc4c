//! Where a schedule of a plan's lines stands, as a search keeps it (this project's own).

mod fill;
mod reading;
mod snapshot;

pub use snapshot::{Snapshot, is_same_snapshot};
