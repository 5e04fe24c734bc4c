//! Whether anybody has anything to do.

ghost use Rattle.std.specs.Prelude.{◌≡◌, map, not, is_none};
ghost use Rattle.std.specs.List.{list_all};
ghost use Rattle.pm_model.specs.Lawful.{is_empty_place};
ghost use Rattle.pm_explore.specs.state.SnapshotOf.{world_of};
ghost use Rattle.pm_driver_orders.specs.DriverObservations.{is_quiet};

use pm_base::{Armed, Pending};
use pm_explore::state::Snapshot;
use pm_model::Stage;

// No stage is open at a place.
fn is_empty(place: &Vec<Stage>) -> bool
    ensures { result ≡ is_empty_place place.now.items }
{
    place.is_empty()
}

// No stage is open.
fn each_empty(places: &[Vec<Stage>]) -> bool
    ensures { result ≡ list_all (λ v. is_empty_place v.items) places.now }
{
    places.iter().all(|place| is_empty(place))
}

// The same, told of the lists of stages.
fn all_empty(places: &[Vec<Stage>]) -> bool
    ensures { result ≡ list_all is_empty_place (map (λ v. v.items) places.now) }
{
    each_empty(places)
}

// No device is queued.
fn none_queued(pending: &[Pending]) -> bool
    ensures { result ≡ list_all (λ p. not p.queued) pending.now }
{
    pending.iter().all(|pending| !pending.queued)
}

// No timer is armed.
fn none_armed(timers: &[Option<Armed>]) -> bool
    ensures { result ≡ list_all is_none timers.now }
{
    timers.iter().all(|timer| timer.is_none())
}

/// Whether no actor has anything to do but what a program calls.
pub fn is_quiet(snapshot: &Snapshot) -> bool
    ensures { result ≡ is_quiet (world_of snapshot.now) }
{
    all_empty(&snapshot.caller_places)
        && all_empty(&snapshot.work_places)
        && all_empty(&snapshot.timer_places)
        && none_queued(&snapshot.pending)
        && none_armed(&snapshot.timers)
}
