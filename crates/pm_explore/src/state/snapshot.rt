//! Where a schedule stands, kept.

ghost use Rattle.std.specs.Prelude.{◌≡◌, ◌↔◌, IsTrue};
ghost use Rattle.pm_explore.specs.state.SnapshotOf.{snapshot_of};

use pm_base::{ActorId, Armed, Pending};
use pm_model::{Device, Stage};

/// Where a schedule stands. It has no more than decides how the schedule goes on and what shows there, so that
/// schedules which come to one snapshot are gone on with once.
#[derive(PartialEq, Eq, Hash, Drop)]
pub struct Snapshot {
    pub devices: Vec<Device>,
    pub pending: Vec<Pending>,
    pub timers: Vec<Option<Armed>>,
    pub on: Vec<bool>,
    pub held: Vec<bool>,
    pub present: Vec<bool>,
    pub caller_places: Vec<Vec<Stage>>,
    pub work_places: Vec<Vec<Stage>>,
    pub timer_places: Vec<Vec<Stage>>,
    pub called: Vec<u32>,
    /// When the last line was written, 0 before any.
    pub time: u64,
    /// Who wrote it.
    pub last: Option<ActorId>,
    /// What it returned to a caller.
    pub code: Option<i32>,
}

/// Whether two stand for the same snapshot.
pub fn is_same_snapshot(one: &Snapshot, other: &Snapshot) -> bool
    ensures { IsTrue result ↔ (snapshot_of one.now ≡ snapshot_of other.now) }
{
    one == other
}
