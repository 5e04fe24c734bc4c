//! What a line changes of the turns.

ghost use Rattle.std.specs.Prelude.{◌≡◌, ◌+◌, ◌*◌, ◌<◌, ◌≤◌, ◌^◌, ◌∷◌, ◌⊎◌, false, true, IfNone, IfSome};
ghost use Rattle.pm_index.specs.Marks.{NoneMarked};
ghost use Rattle.pm_model.specs.declared.event.Line.{Line as ALine};
ghost use Rattle.pm_model.specs.History.{History};
ghost use Rattle.pm_laws.specs.turns.Told.{is_actor};
ghost use Rattle.pm_state.specs.Seats.{actor_at, actor_in, seats};
ghost use Rattle.pm_state.specs.Standing.{AllStandWell, IsActor, IsOf};
ghost use Rattle.pm_laws.specs.turns.Wakes.{wakes};
ghost use Rattle.pm_turns.specs.Seats.{Asks, IsSeated, moment_by};
ghost use Rattle.pm_turns.specs.Turning.{AreOf, IsIndex, Leads, Looked, Touched, TouchedAny, queue};

use crate::turns::Turns;
use crate::waiting::{device_in, stirs};
use pm_base::{ActorId, DevId};
use pm_model::{Change, Event, Plan};
use pm_state::State;

impl Turns {
    // The first seat at or after this one of somebody who is listed for a device.
    #[tactic(auto, using(crate::proofs::QueueLemmas::none_in_nothing))]
    fn waiter(&self, dev: DevId, from: usize) -> Option<usize>
        requires { from ≤ self.now.rows.callers + 2 * self.now.rows.devices }
        ensures found { IfSome result (λ i. (from ≤ i) × (i < self.now.rows.callers + 2 * self.now.rows.devices)) }
        ensures first { IfSome result (λ i. NoneMarked (queue self.now dev) from i) }
        ensures missing { IfNone result (NoneMarked (queue self.now dev) from (self.now.rows.callers + 2 * self.now.rows.devices)) }
    {
        match self.waiters.get(dev.0 as usize) {
            Some(waiters) => waiters.first(from),
            None => None,
        }
    }

    // Looks anew at who sits here. Mostly nobody waits, so that it stands out of line.
    #[inline(never)]
    fn refresh_seat(&mut self, plan: &Plan, state: &State, seat: usize)
        requires is_of { IsOf plan.now state.now }
        requires stand { AllStandWell plan.now state.now.world }
        requires seats { AreOf plan.now self.old.rows }
        requires in_range { seat < self.old.rows.callers + 2 * self.old.rows.devices }
        ensures asks { Asks (wakes plan.now state.now.world) self.old.rows self.new.rows }
        ensures right { let actor = actor_at self.old.rows.callers self.old.rows.devices seat in moment_by self.new.rows actor ≡ wakes plan.now state.now.world actor }
        ensures queues { self.new.queues ≡ self.old.queues }
    {
        self.refresh_at(plan, state, seat);
    }

    // Looks anew at those who wait for a device; mostly that is nobody.
    #[inline(always)]
    fn refresh_waiters(&mut self, plan: &Plan, state: &State, dev: DevId)
        requires is_of { IsOf plan.now state.now }
        requires stand { AllStandWell plan.now state.now.world }
        requires seats { AreOf plan.now self.old.rows }
        ensures { Looked (wakes plan.now state.now.world) self.old self.new dev (self.old.rows.callers + 2 * self.old.rows.devices) }
    {
        let mut from = 0;
        while let Some(seat) = self.waiter(dev, from) {
            self.refresh_seat(plan, state, seat);
            from = seat + 1;
        }
    }

    // Looks anew at who sits here, unless it is this one.
    #[tactic(auto, using(crate::proofs::IndexLemmas::asks_none))]
    #[inline(always)]
    fn refresh_but(&mut self, plan: &Plan, state: &State, seat: usize, but: usize)
        requires is_of { IsOf plan.now state.now }
        requires stand { AllStandWell plan.now state.now.world }
        requires seats { AreOf plan.now self.old.rows }
        requires in_range { seat < seats plan.now }
        ensures asks { Asks (wakes plan.now state.now.world) self.old.rows self.new.rows }
        ensures right { is_actor (actor_in plan.now seat) (actor_in plan.now but) ≡ false → moment_by self.new.rows (actor_in plan.now seat) ≡ wakes plan.now state.now.world (actor_in plan.now seat) }
        ensures queues { self.new.queues ≡ self.old.queues }
    {
        if seat != but {
            self.refresh_resting(plan, state, seat);
        }
    }

    // Looks anew at the work item and the timer of a device, but for who sits here.
    #[tactic(auto, using(crate::proofs::IndexLemmas::asks_none, crate::proofs::IndexLemmas::asks_then))]
    #[inline(always)]
    fn refresh_own(&mut self, plan: &Plan, state: &State, dev: DevId, but: usize)
        requires is_of { IsOf plan.now state.now }
        requires stand { AllStandWell plan.now state.now.world }
        requires seats { AreOf plan.now self.old.rows }
        ensures asks { Asks (wakes plan.now state.now.world) self.old.rows self.new.rows }
        ensures queues { self.new.queues ≡ self.old.queues }
        ensures work { IsSeated self.old.rows (ActorId.Work dev.0) → is_actor (ActorId.Work dev.0) (actor_in plan.now but) ≡ false → moment_by self.new.rows (ActorId.Work dev.0) ≡ wakes plan.now state.now.world (ActorId.Work dev.0) }
        ensures timer { IsSeated self.old.rows (ActorId.Timer dev.0) → is_actor (ActorId.Timer dev.0) (actor_in plan.now but) ≡ false → moment_by self.new.rows (ActorId.Timer dev.0) ≡ wakes plan.now state.now.world (ActorId.Timer dev.0) }
    {
        if dev.0 as usize >= self.rows.devices() {
            return;
        }
        let work = self.rows.place(ActorId::Work(dev.0));
        let timer = self.rows.place(ActorId::Timer(dev.0));
        self.refresh_but(plan, state, work, but);
        self.refresh_but(plan, state, timer, but);
    }

    // The same after a line that stirs them.
    #[tactic(auto, using(crate::proofs::IndexLemmas::asks_none))]
    #[inline(always)]
    fn refresh_stirred(&mut self, plan: &Plan, state: &State, stirred: bool, dev: DevId, but: usize)
        requires is_of { IsOf plan.now state.now }
        requires stand { AllStandWell plan.now state.now.world }
        requires seats { AreOf plan.now self.old.rows }
        ensures asks { Asks (wakes plan.now state.now.world) self.old.rows self.new.rows }
        ensures queues { self.new.queues ≡ self.old.queues }
        ensures work { stirred ≡ true → IsSeated self.old.rows (ActorId.Work dev.0) → is_actor (ActorId.Work dev.0) (actor_in plan.now but) ≡ false → moment_by self.new.rows (ActorId.Work dev.0) ≡ wakes plan.now state.now.world (ActorId.Work dev.0) }
        ensures timer { stirred ≡ true → IsSeated self.old.rows (ActorId.Timer dev.0) → is_actor (ActorId.Timer dev.0) (actor_in plan.now but) ≡ false → moment_by self.new.rows (ActorId.Timer dev.0) ≡ wakes plan.now state.now.world (ActorId.Timer dev.0) }
    {
        if stirred {
            self.refresh_own(plan, state, dev, but);
        }
    }

    // Looks anew at all whom a line of this device may reach, but for who sits here.
    #[inline(always)]
    fn touch(&mut self, plan: &Plan, state: &State, stirred: bool, dev: DevId, but: usize)
        requires is_of { IsOf plan.now state.now }
        requires stand { AllStandWell plan.now state.now.world }
        requires seats { AreOf plan.now self.old.rows }
        ensures { Touched (wakes plan.now state.now.world) stirred self.old self.new dev (actor_in plan.now but) }
    {
        self.refresh_stirred(plan, state, stirred, dev, but);
        self.refresh_waiters(plan, state, dev);
    }

    // The same, out of line: most lines touch one device only.
    #[inline(never)]
    fn touch_apart(&mut self, plan: &Plan, state: &State, stirred: bool, dev: DevId, but: usize)
        requires is_of { IsOf plan.now state.now }
        requires stand { AllStandWell plan.now state.now.world }
        requires seats { AreOf plan.now self.old.rows }
        ensures { Touched (wakes plan.now state.now.world) stirred self.old self.new dev (actor_in plan.now but) }
    {
        self.touch(plan, state, stirred, dev, but);
    }

    // Looks anew at all whom a line of this device, if it is one, may reach, but for who sits here.
    #[tactic(auto, using(crate::proofs::IndexLemmas::touched_none, crate::proofs::IndexLemmas::touched_some))]
    #[inline(always)]
    fn touch_any(
        &mut self,
        plan: &Plan,
        state: &State,
        stirred: bool,
        dev: Option<DevId>,
        but: usize,
    )
        requires is_of { IsOf plan.now state.now }
        requires stand { AllStandWell plan.now state.now.world }
        requires seats { AreOf plan.now self.old.rows }
        ensures { TouchedAny (wakes plan.now state.now.world) stirred self.old self.new dev (actor_in plan.now but) }
    {
        if let Some(dev) = dev {
            self.touch(plan, state, stirred, dev, but);
        }
    }

    // The same of a device that most lines don't have.
    #[tactic(auto, using(crate::proofs::IndexLemmas::touched_none, crate::proofs::IndexLemmas::touched_some))]
    #[inline(always)]
    fn touch_seldom(
        &mut self,
        plan: &Plan,
        state: &State,
        stirred: bool,
        dev: Option<DevId>,
        but: usize,
    )
        requires is_of { IsOf plan.now state.now }
        requires stand { AllStandWell plan.now state.now.world }
        requires seats { AreOf plan.now self.old.rows }
        ensures { TouchedAny (wakes plan.now state.now.world) stirred self.old self.new dev (actor_in plan.now but) }
    {
        if let Some(dev) = dev {
            self.touch_apart(plan, state, stirred, dev, but);
        }
    }

    /// Takes note of a line by its parts, which was written by the actor at this seat, at a stage of this device, if it has
    /// one, and led to this state; its row named this change. It takes no memory, and looks anew at the line's writer, at
    /// those who wait for the device of the stage or of the event, and at the work items and timers of these devices where
    /// the line stirs them.
    #[inline(always)]
    pub fn settle_at(
        &mut self,
        plan: &Plan,
        state: &State,
        at: Option<DevId>,
        time: u64,
        seat: usize,
        event: &Event,
        change: &Change,
    )
        requires is_of { IsOf plan.now state.now }
        requires stand { AllStandWell plan.now state.now.world }
        requires seats { AreOf plan.now self.old.rows }
        requires in_range { seat < seats plan.now }
        requires in_time { time < 2 ^ 63 }
        ensures { let line : ALine = record { time = time; actor = actor_in plan.now seat; event = event.now } in (h : History) → Leads plan.now h line at change.now state.now.world → IsIndex plan.now h self.old → IsIndex plan.now (line ∷ h) self.new }
    {
        let of = other_than(device_in(event), at);
        let stirred = stirs(event, change);
        self.note(at, time, seat, event);
        self.refresh_at(plan, state, seat);
        self.touch_any(plan, state, stirred, at, seat);
        self.touch_seldom(plan, state, stirred, of, seat);
    }

    /// The same by the actor.
    #[inline(always)]
    pub fn settle(
        &mut self,
        plan: &Plan,
        state: &State,
        at: Option<DevId>,
        time: u64,
        actor: ActorId,
        event: &Event,
        change: &Change,
    )
        requires is_of { IsOf plan.now state.now }
        requires stand { AllStandWell plan.now state.now.world }
        requires seats { AreOf plan.now self.old.rows }
        requires in_range { IsActor plan.now actor }
        requires in_time { time < 2 ^ 63 }
        ensures { let line : ALine = record { time = time; actor = actor; event = event.now } in (h : History) → Leads plan.now h line at change.now state.now.world → IsIndex plan.now h self.old → IsIndex plan.now (line ∷ h) self.new }
    {
        let seat = state.seat(plan, actor);
        self.settle_at(plan, state, at, time, seat, event, change);
    }
}

// This device, unless it is the other one.
#[tactic(auto, using(crate::proofs::IndexLemmas::same_device))]
fn other_than(of: Option<DevId>, at: Option<DevId>) -> Option<DevId>
    ensures { (result ≡ of) ⊎ (of ≡ at) }
{
    let Some(dev) = of else {
        return of;
    };
    match at {
        Some(same) if dev.0 == same.0 => None,
        _ => of,
    }
}
