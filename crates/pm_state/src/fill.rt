//! A state is set to stand elsewhere.

ghost use Rattle.std.specs.Prelude.{◌≡◌, length, map};
ghost use Rattle.pm_device.specs.Filling.{CanBe, views_of};
ghost use Rattle.pm_state.specs.Places.{HasRoom};
ghost use Rattle.pm_state.specs.Standing.{IsOf};

use crate::State;
use pm_base::{Armed, Pending};
use pm_model::{Device, Plan, Stage};

impl State {
    /// The views become these. It takes no memory.
    pub fn fill_views(
        &mut self,
        plan: &Plan,
        devices: &[Device],
        pending: &[Pending],
        timers: &[Option<Armed>],
        on: &[bool],
        held: &[bool],
        present: &[bool],
    )
        requires is_of { IsOf plan.now self.old }
        requires can { CanBe self.old.world.views (views_of devices.now pending.now timers.now on.now held.now present.now) }
        ensures { self.new ≡ record self.old { world = record self.old.world { views = views_of devices.now pending.now timers.now on.now held.now present.now } } }
    {
        self.parts
            .fill(plan, devices, pending, timers, on, held, present);
    }

    /// The open stages of all actors become these, for each the one that writes next first, and so do the
    /// numbers of commands that the callers have called. It takes no memory.
    pub fn fill_places(
        &mut self,
        callers: &[Vec<Stage>],
        works: &[Vec<Stage>],
        timers: &[Vec<Stage>],
        called: &[u32],
    )
        requires callers { length callers.now ≡ length self.old.world.caller_places }
        requires works { length works.now ≡ length self.old.world.work_places }
        requires timers { length timers.now ≡ length self.old.world.timer_places }
        requires called { length called.now ≡ length self.old.world.called }
        requires caller_room { HasRoom self.old.room (map (λ v. v.items) callers.now) }
        requires work_room { HasRoom self.old.room (map (λ v. v.items) works.now) }
        requires timer_room { HasRoom self.old.room (map (λ v. v.items) timers.now) }
        ensures { self.new ≡ record self.old { world = record self.old.world { caller_places = map (λ v. v.items) callers.now; work_places = map (λ v. v.items) works.now; timer_places = map (λ v. v.items) timers.now; called = called.now } } }
    {
        self.places.fill(0, callers);
        self.places.fill(self.callers, works);
        self.places.fill(self.callers + self.devices, timers);
        self.called.copy_from_slice(called);
    }
}
