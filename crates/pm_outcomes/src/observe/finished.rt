//! Whether a run that stands at a snapshot is finished.

ghost use Rattle.std.specs.Prelude.{◌≡◌, length, map, nat_le, not, slice_index_or, is_none};
ghost use Rattle.std.specs.List.{enumerate_from, list_all};
ghost use Rattle.pm_model.specs.Lawful.{is_empty_place, is_finished};
ghost use Rattle.pm_explore.specs.state.SnapshotOf.{world_of};

use pm_base::{Armed, Pending};
use pm_explore::state::Snapshot;
use pm_model::{CallerRow, Plan, Stage};

// Every script has ended, where the callers have called so many commands.
fn scripts_ended(rows: &[CallerRow], called: &[u32]) -> bool
    ensures { result ≡ list_all (λ p. nat_le (length p.1.script) (slice_index_or called.now p.0 0)) (enumerate_from 0 rows.now) }
{
    rows.iter().enumerate().all(|(caller, row)| row.script.as_slice().len()
        <= called_by(called, caller))
}

// How many commands the caller at a place has called.
fn called_by(called: &[u32], caller: usize) -> usize
    ensures { result ≡ slice_index_or called.now caller 0 }
{
    called.get(caller).copied().unwrap_or(0) as usize
}

// No stage is open at a place.
fn is_empty(place: &Vec<Stage>) -> bool
    ensures { result ≡ is_empty_place place.now.items }
{
    place.is_empty()
}

// No stage is open.
fn each_empty(places: &[Vec<Stage>]) -> bool
    ensures { result ≡ list_all (λ v. is_empty_place v.items) places.now }
{
    places.iter().all(|place| is_empty(place))
}

// The same, told of the lists of stages.
fn all_empty(places: &[Vec<Stage>]) -> bool
    ensures { result ≡ list_all is_empty_place (map (λ v. v.items) places.now) }
{
    each_empty(places)
}

// No device is queued.
fn none_queued(pending: &[Pending]) -> bool
    ensures { result ≡ list_all (λ p. not p.queued) pending.now }
{
    pending.iter().all(|pending| !pending.queued)
}

// No timer is armed.
fn none_armed(timers: &[Option<Armed>]) -> bool
    ensures { result ≡ list_all is_none timers.now }
{
    timers.iter().all(|timer| timer.is_none())
}

/// Whether a run that stands there is finished: every script has ended, every place is empty, no device is queued and
/// no timer is armed.
pub fn is_finished(plan: &Plan, snapshot: &Snapshot) -> bool
    ensures { result ≡ is_finished plan.now (world_of snapshot.now) }
{
    scripts_ended(plan.callers.as_slice(), &snapshot.called)
        && all_empty(&snapshot.caller_places)
        && all_empty(&snapshot.work_places)
        && all_empty(&snapshot.timer_places)
        && none_queued(&snapshot.pending)
        && none_armed(&snapshot.timers)
}
