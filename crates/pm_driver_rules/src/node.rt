//! Where a schedule of a driver stands, kept.

use pm_driver_orders::Position;
use pm_explore::state::Snapshot;

/// Where a schedule of a driver stands. Of its snapshot counts of calls and of begins are forgotten.
#[derive(PartialEq, Eq, Hash, Drop)]
pub struct DriverNode {
    pub snapshot: Snapshot,
    /// Where each caller stands in its program.
    pub positions: Vec<Position>,
    /// The place whose call returned with the last line.
    pub returned: Option<u32>,
    /// How many callbacks have failed.
    pub failures: u32,
}
