//! Who waits for which device after a line.

ghost use Rattle.std.specs.Prelude.{◌≡◌, ◌≢◌, ◌+◌, ◌*◌, ◌<◌, ◌^◌, ℕ, false, true, slice_set, Some};
ghost use Rattle.pm_base.specs.declared.DevId.{DevId as ADevice};
ghost use Rattle.pm_index.specs.Marks.{is_marked};
ghost use Rattle.pm_model.specs.World.{place};
ghost use Rattle.pm_laws.specs.turns.Looks.{change_stirs, device_at, device_in, event_stirs, looks, stirs};
ghost use Rattle.pm_laws.specs.turns.Told.{top_looks, wait_in};
ghost use Rattle.pm_state.specs.Seats.{actor_at, actor_in, seats};
ghost use Rattle.pm_state.specs.Standing.{IsOf};
ghost use Rattle.pm_turns.specs.Seats.{seat_after};
ghost use Rattle.pm_turns.specs.Turning.{Noted, queue};

use crate::turns::Turns;
use pm_base::DevId;
use pm_model::{Change, ControlStage, Event, HelperStage, Plan, ResumeStage, Stage, SuspendStage};
use pm_state::{State, device_of};

/// The device that a line at this stage may change; a call line only names one.
pub fn device_at(stage: &Stage) -> Option<DevId>
    ensures { result ≡ device_at stage.now }
{
    match stage {
        Stage::Helper(HelperStage::Call { .. }) => None,
        _ => device_of(stage),
    }
}

// The device that a line's event speaks of; a call line only names one.
pub(crate) fn device_in(event: &Event) -> Option<DevId>
    ensures { result ≡ device_in event.now }
{
    match event {
        Event::Call { .. } => None,
        Event::Ret { dev, .. }
        | Event::Get { dev, .. }
        | Event::Put { dev, .. }
        | Event::Usage { dev, .. }
        | Event::Idle { dev, .. }
        | Event::Suspend { dev, .. }
        | Event::Resume { dev, .. }
        | Event::Return { dev, .. }
        | Event::Wait { dev }
        | Event::State { dev, .. }
        | Event::Begin { dev, .. }
        | Event::End { dev, .. }
        | Event::Domain { dev, .. }
        | Event::Work { dev, .. }
        | Event::Timer { dev, .. } => Some(*dev),
    }
}

// Whether an event may queue a work item or begin it, or arm a timer or disarm it.
fn event_stirs(event: &Event) -> bool
    ensures { result ≡ event_stirs event.now }
{
    matches!(
        event,
        Event::State { .. } | Event::Work { .. } | Event::Timer { .. }
    )
}

// Whether a change may take a work item from its queue, or disarm a timer.
fn change_stirs(change: &Change) -> bool
    ensures { result ≡ change_stirs change.now }
{
    matches!(
        change,
        Change::Disarm { .. }
            | Change::Cancel { .. }
            | Change::CancelAll { .. }
            | Change::ResumeCancel { .. }
            | Change::SuspendEnded { .. }
            | Change::DisableBusy { .. }
            | Change::DisableAtOnce { .. }
    )
}

// Whether a line with this event, whose row names this change, may move from when a work item or a timer may start.
#[inline(always)]
pub(crate) fn stirs(event: &Event, change: &Change) -> bool
    ensures { result ≡ stirs event.now change.now }
{
    event_stirs(event) || change_stirs(change)
}

// The device on which it depends from when a line at this stage may be written, if there is one.
fn looks(stage: &Stage) -> Option<DevId>
    ensures { result ≡ looks stage.now }
{
    match stage {
        Stage::Suspend(SuspendStage::Waiting { dev, .. })
        | Stage::Control(ControlStage::Disabled { dev } | ControlStage::BarrierWait { dev, .. })
        | Stage::Helper(HelperStage::Timer { dev }) => Some(*dev),
        Stage::Resume(ResumeStage::Waiting { call, .. }) => Some(call.dev),
        _ => None,
    }
}

// The device that the actor at a seat waits for at its open stage, if there is one.
#[tactic(auto, using(crate::proofs::AfterLemmas::looks_some, crate::proofs::AfterLemmas::looks_none))]
pub(crate) fn looked_at(plan: &Plan, state: &State, seat: usize) -> Option<DevId>
    requires is_of { IsOf plan.now state.now }
    requires in_range { seat < seats plan.now }
    ensures { result ≡ top_looks (place state.now.world (actor_in plan.now seat)) }
{
    match state.top_at(plan, seat) {
        Some(stage) => looks(stage),
        None => None,
    }
}

impl Turns {
    // Who sits here doesn't wait for the device any longer.
    #[inline(always)]
    fn leave(&mut self, dev: DevId, seat: usize)
        requires { seat < self.old.rows.callers + 2 * self.old.rows.devices }
        ensures { self.new ≡ record self.old { queues = slice_set self.old.queues dev.0 (slice_set (queue self.old dev) seat false) } }
    {
        let place = dev.0 as usize;
        if place < self.waiters.len() {
            self.waiters[place].leave(seat);
        }
    }

    // Who sits here waits for the device from now on.
    #[tactic(auto, using(crate::proofs::QueueLemmas::mark_set))]
    fn join(&mut self, dev: DevId, seat: usize)
        requires { seat < self.old.rows.callers + 2 * self.old.rows.devices }
        ensures marked { dev.0 < self.old.rows.devices → is_marked (queue self.new dev) seat ≡ true }
        ensures queues { self.new ≡ record self.old { queues = slice_set self.old.queues dev.0 (slice_set (queue self.old dev) seat true) } }
    {
        let place = dev.0 as usize;
        if place < self.waiters.len() {
            self.waiters[place].join(seat);
        }
    }

    // Who sits here has written a line at a stage of this device, if it has one, and doesn't wait for it any
    // longer. Whether the stage was that after a wait line isn't asked, since mostly nobody waits.
    #[inline(always)]
    fn leave_at(&mut self, at: Option<DevId>, seat: usize)
        requires { seat < self.old.rows.callers + 2 * self.old.rows.devices }
        ensures rows { self.new.rows ≡ self.old.rows }
        ensures others { (d : ADevice) (i : ℕ) → i ≢ seat → is_marked (queue self.old d) i ≡ true → is_marked (queue self.new d) i ≡ true }
    {
        if let Some(dev) = at {
            self.leave(dev, seat);
        }
    }

    // Who sits here has written a line with this event, and waits from now on where it is a wait line.
    fn join_in(&mut self, event: &Event, seat: usize)
        requires { seat < self.old.rows.callers + 2 * self.old.rows.devices }
        ensures rows { self.new.rows ≡ self.old.rows }
        ensures others { (d : ADevice) (i : ℕ) → is_marked (queue self.old d) i ≡ true → is_marked (queue self.new d) i ≡ true }
        ensures joined { (d : ADevice) → wait_in event.now ≡ Some d → d.0 < self.old.rows.devices → is_marked (queue self.new d) seat ≡ true }
    {
        if let Event::Wait { dev } = event {
            self.join(*dev, seat);
        }
    }

    // Who sits here waits from now on for this device, if it is one.
    #[tactic(auto, using(crate::proofs::QueueLemmas::marks_kept))]
    pub(crate) fn join_at(&mut self, at: Option<DevId>, seat: usize)
        requires { seat < self.old.rows.callers + 2 * self.old.rows.devices }
        ensures rows { self.new.rows ≡ self.old.rows }
        ensures others { (d : ADevice) (i : ℕ) → is_marked (queue self.old d) i ≡ true → is_marked (queue self.new d) i ≡ true }
        ensures joined { (d : ADevice) → at ≡ Some d → d.0 < self.old.rows.devices → is_marked (queue self.new d) seat ≡ true }
    {
        if let Some(dev) = at {
            self.join(dev, seat);
        }
    }

    // Takes note of the seat of a line's writer, and of its time.
    #[inline(always)]
    pub(crate) fn write_down(&mut self, seat: usize, time: u64)
        requires below { seat < self.old.rows.callers + 2 * self.old.rows.devices }
        requires in_time { time < 2 ^ 63 }
        ensures { self.new ≡ record self.old { rows = record self.old.rows { seat = seat_after self.old.rows (actor_at self.old.rows.callers self.old.rows.devices seat); time = time } } }
    {
        self.rows.note(seat, time);
    }

    // Takes note of a line of the actor at this seat at this moment with this event, that was written at a stage of this
    // device, if it has one.
    #[inline(always)]
    pub(crate) fn note(&mut self, at: Option<DevId>, time: u64, seat: usize, event: &Event)
        requires below { seat < self.old.rows.callers + 2 * self.old.rows.devices }
        requires in_time { time < 2 ^ 63 }
        ensures { Noted self.old self.new (record { time = time; actor = actor_at self.old.rows.callers self.old.rows.devices seat; event = event.now }) }
    {
        self.leave_at(at, seat);
        self.join_in(event, seat);
        self.write_down(seat, time);
    }
}
