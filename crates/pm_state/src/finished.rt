//! Whether a run is finished.

ghost use Rattle.std.specs.Prelude.{◌≡◌, ◌+◌, ◌<◌, ◌&&◌, length, nat_le, not, slice_index_or, is_none};
ghost use Rattle.std.specs.List.{enumerate_from, list_all};
ghost use Rattle.pm_laws.specs.counts.Sizes.{HasEntries};
ghost use Rattle.pm_model.specs.Lawful.{is_empty_place, is_finished};
ghost use Rattle.pm_state.specs.Standing.{IsOf};

use crate::state::State;
use pm_base::DevId;
use pm_device::Parts;
use pm_model::{CallerRow, Plan};

// Every script has ended, of these callers, of which the first is the one with this number.
fn scripts_ended(first: usize, rows: &[CallerRow], called: &[u32]) -> bool
    requires { first + length rows.now ≡ length called.now }
    ensures { result ≡ list_all (λ p. nat_le (length p.1.script) (slice_index_or called.now p.0 0)) (enumerate_from first rows.now) }
{
    let [row, rest @ ..] = rows else {
        return true;
    };
    row.script.as_slice().len() <= called[first] as usize && scripts_ended(first + 1, rest, called)
}

// No device is queued.
fn none_queued(parts: &Parts, devices: u32) -> bool
    requires counted { devices ≡ length parts.now.shape.parents }
    requires each { devices ≡ length parts.now.views.pending }
    ensures { result ≡ list_all (λ p. not p.queued) parts.now.views.pending }
{
    for device in 0..devices {
        if parts.pending(DevId(device)).queued {
            return false;
        }
    }
    true
}

// No timer is armed.
fn none_armed(parts: &Parts, devices: u32) -> bool
    requires counted { devices ≡ length parts.now.shape.parents }
    requires each { devices ≡ length parts.now.views.timers }
    ensures { result ≡ list_all is_none parts.now.views.timers }
{
    for device in 0..devices {
        if parts.timer(DevId(device)).is_some() {
            return false;
        }
    }
    true
}

impl State {
    // No stage is open at any place.
    fn none_open(&self) -> bool
        ensures { let w = self.now.world in result ≡ (list_all is_empty_place w.caller_places && list_all is_empty_place w.work_places && list_all is_empty_place w.timer_places) }
    {
        self.places.all_empty()
    }

    /// Whether the run is finished: every script has ended, every place is empty, no device is queued
    /// and no timer is armed. It looks at all actors.
    pub fn is_finished(&self, plan: &Plan) -> bool
        requires is_of { IsOf plan.now self.now }
        requires entries { HasEntries plan.now self.now.world.views }
        ensures { result ≡ is_finished plan.now self.now.world }
    {
        let devices = plan.devices.len() as u32;
        scripts_ended(0, plan.callers.as_slice(), &self.called)
            && self.none_open()
            && none_queued(&self.parts, devices)
            && none_armed(&self.parts, devices)
    }
}
