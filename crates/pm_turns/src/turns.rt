//! The index of turns.

ghost use Rattle.std.specs.Prelude.{◌≡◌, ◌+◌, ◌*◌, ◌<◌, ◌^◌, ℕ, Some, false, true, length, option_map, replicate, reverse, slice_get, IfOk, IfSome};
ghost use Rattle.std.specs.Option.{option_copied};
ghost use Rattle.pm_base.specs.declared.DevId.{DevId as ADevice};
ghost use Rattle.pm_index.specs.Marks.{is_marked};
ghost use Rattle.pm_model.specs.declared.plan.Plan.{Plan as APlan};
ghost use Rattle.pm_model.specs.History.{History};
ghost use Rattle.pm_model.specs.Lawful.{IsLawful, last_time};
ghost use Rattle.pm_model.specs.Serial.{next_turn, seat};
ghost use Rattle.pm_model.specs.World.{place, world};
ghost use Rattle.pm_laws.specs.turns.Told.{top_looks};
ghost use Rattle.pm_state.specs.Seats.{actor_in, seats};
ghost use Rattle.pm_state.specs.Standing.{AllStandWell, IsActor, IsOf};
ghost use Rattle.pm_laws.specs.turns.Wakes.{wakes};
ghost use Rattle.pm_turns.specs.Seats.{Asks, IsSeated, moment_by, writer_in};
ghost use Rattle.pm_turns.specs.Turning.{AreOf, IsIndex, Seen, is_listed, queue};

use crate::queue::Waiters;
use crate::rows::Rows;
use crate::waiting::looked_at;
use crate::waking::{rests_or_wakes, wakes};
use pm_base::{ActorId, NoMemory};
use pm_model::{Line, Plan};
use pm_state::{State, few};
use std::alloc::Global;
use std::marker::Model;

/// Who writes the next line of a run on one thread, and when: from when each actor may write, and for
/// each device who waits for it.
pub struct Turns {
    pub(crate) rows: Rows,
    // For each device who waits for it, by seat.
    pub(crate) waiters: Vec<Waiters>,
}

impl Drop for Turns {
    fn drop(self) {
        let Turns { rows, waiters } = self;
        drop(rows);
        drop(waiters);
    }
}

impl Model for Turns {
    ghost use Rattle.pm_turns.specs.Turning.{AreQueues, Index};

    ghost Value = { Index };

    ghost view = { λ t. record { rows = t.rows; queues = t.waiters.items } };

    ghost invariant = { λ t. AreQueues t.rows t.waiters.items };
}

// Nobody waits for any device.
fn no_waiters(alloc: Global, devices: usize, seats: usize) -> Result<Vec<Waiters>, NoMemory>
    requires { seats < 2 ^ 32 }
    ensures { IfOk result (λ v. v.items ≡ replicate devices (replicate seats false)) }
{
    let mut waiters = Vec::with_capacity(alloc, devices)?;
    for _ in 0..devices {
        waiters.push(Waiters::none(alloc, seats)?)?;
    }
    Ok(waiters)
}

// The last of these lines, if there is one.
fn newest(lines: &[Line]) -> Option<&Line>
    ensures { option_copied result ≡ slice_get (reverse lines.now) 0 }
{
    lines.last()
}

impl Turns {
    // Looks anew at the actor at a seat, as things stand now. It takes no memory.
    #[inline(always)]
    pub(crate) fn refresh_at(&mut self, plan: &Plan, state: &State, seat: usize)
        requires is_of { IsOf plan.now state.now }
        requires stand { AllStandWell plan.now state.now.world }
        requires seats { AreOf plan.now self.old.rows }
        requires in_range { seat < seats plan.now }
        ensures asks { Asks (wakes plan.now state.now.world) self.old.rows self.new.rows }
        ensures right { moment_by self.new.rows (actor_in plan.now seat) ≡ wakes plan.now state.now.world (actor_in plan.now seat) }
        ensures queues { self.new.queues ≡ self.old.queues }
    {
        let moment = wakes(plan, state, seat);
        self.rows.set(seat, moment);
    }

    /// Looks anew at an actor, as things stand now: for one who has more to start than before. It takes
    /// no memory.
    pub fn refresh(&mut self, plan: &Plan, state: &State, actor: ActorId)
        requires is_of { IsOf plan.now state.now }
        requires stand { AllStandWell plan.now state.now.world }
        requires seats { AreOf plan.now self.old.rows }
        requires in_range { IsActor plan.now actor }
        ensures asks { Asks (wakes plan.now state.now.world) self.old.rows self.new.rows }
        ensures right { moment_by self.new.rows actor ≡ wakes plan.now state.now.world actor }
        ensures queues { self.new.queues ≡ self.old.queues }
    {
        let seat = state.seat(plan, actor);
        self.refresh_at(plan, state, seat);
    }

    // The same of an actor that mostly rests, as work items and timers do.
    #[inline(always)]
    pub(crate) fn refresh_resting(&mut self, plan: &Plan, state: &State, seat: usize)
        requires is_of { IsOf plan.now state.now }
        requires stand { AllStandWell plan.now state.now.world }
        requires seats { AreOf plan.now self.old.rows }
        requires in_range { seat < seats plan.now }
        ensures asks { Asks (wakes plan.now state.now.world) self.old.rows self.new.rows }
        ensures right { moment_by self.new.rows (actor_in plan.now seat) ≡ wakes plan.now state.now.world (actor_in plan.now seat) }
        ensures queues { self.new.queues ≡ self.old.queues }
    {
        let moment = rests_or_wakes(plan, state, seat);
        self.rows.set(seat, moment);
    }

    // Looks anew at the actor at a seat, and lists it where it waits for a device.
    fn look_at(&mut self, plan: &Plan, state: &State, seat: usize)
        requires is_of { IsOf plan.now state.now }
        requires stand { AllStandWell plan.now state.now.world }
        requires seats { AreOf plan.now self.old.rows }
        requires in_range { seat < seats plan.now }
        ensures asks { Asks (wakes plan.now state.now.world) self.old.rows self.new.rows }
        ensures right { moment_by self.new.rows (actor_in plan.now seat) ≡ wakes plan.now state.now.world (actor_in plan.now seat) }
        ensures others { (d : ADevice) (i : ℕ) → is_marked (queue self.old d) i ≡ true → is_marked (queue self.new d) i ≡ true }
        ensures listed { (d : ADevice) → top_looks (place state.now.world (actor_in plan.now seat)) ≡ Some d → d.0 < self.old.rows.devices → is_listed self.new d (actor_in plan.now seat) ≡ true }
    {
        self.refresh_at(plan, state, seat);
        self.join_at(looked_at(plan, state, seat), seat);
    }

    // The same of all actors.
    fn look_at_all(&mut self, plan: &Plan, state: &State)
        requires is_of { IsOf plan.now state.now }
        requires stand { AllStandWell plan.now state.now.world }
        requires seats { AreOf plan.now self.old.rows }
        ensures { Seen plan.now state.now.world self.old self.new (self.old.rows.callers + 2 * self.old.rows.devices) }
    {
        for seat in 0..self.rows.seats() {
            self.look_at(plan, state, seat);
        }
    }

    // Takes note of the writer and the time of the last of these lines, if there is one.
    #[tactic(auto, using(crate::proofs::AfterLemmas::no_seat, crate::proofs::AfterLemmas::no_time))]
    fn note_last(&mut self, plan: &Plan, lines: &[Line])
        requires seats { AreOf plan.now self.old.rows }
        requires begins { self.old.rows.seat ≡ 0 }
        requires time { self.old.rows.time ≡ 0 }
        requires lawful { IsLawful plan.now (reverse lines.now) }
        requires in_time { last_time (reverse lines.now) < 2 ^ 63 }
        ensures seats { AreOf plan.now self.new.rows }
        ensures seat { self.new.rows.seat ≡ seat plan.now (reverse lines.now) }
        ensures time { self.new.rows.time ≡ last_time (reverse lines.now) }
    {
        let _ = plan;
        let Some(line) = newest(lines) else {
            return;
        };
        let seat = self.rows.place(line.actor);
        self.write_down(seat, line.time);
    }

    /// The turns after the lines of a run, which led to this state: each actor is looked at. All memory is
    /// taken here, for each device a bit for each actor among it. Fails where it runs out.
    #[tactic(auto, using(crate::proofs::QueueLemmas::queues_none))]
    pub fn after(
        alloc: Global,
        plan: &Plan,
        state: &State,
        lines: &[Line],
    ) -> Result<Turns, NoMemory>
        requires is_of { IsOf plan.now state.now }
        requires stand { AllStandWell plan.now state.now.world }
        requires lawful { IsLawful plan.now (reverse lines.now) }
        requires world_is { state.now.world ≡ world plan.now (reverse lines.now) }
        requires in_time { last_time (reverse lines.now) < 2 ^ 63 }
        ensures { IfOk result (IsIndex plan.now (reverse lines.now)) }
    {
        few(plan);
        let callers = plan.callers.len();
        let devices = plan.devices.len();
        let rows = Rows::fresh(alloc, callers, devices)?;
        let waiters = no_waiters(alloc, devices, callers + 2 * devices)?;
        let mut turns = Turns { rows, waiters };
        turns.note_last(plan, lines);
        turns.look_at_all(plan, state);
        Ok(turns)
    }

    /// At which seat the next line is written, and when: at the moment of the last line where somebody may write
    /// then, else at the least moment that a line awaits. It takes no memory, and a number of steps
    /// that is logarithmic in the number of actors.
    #[inline(always)]
    pub fn next_seat(&self) -> Option<(usize, u64)>
        ensures turn { (plan : APlan) (h : History) → IsIndex plan h self.now → option_map (writer_in plan) result ≡ next_turn plan h }
        ensures below { IfSome result (λ turn. turn.0 < self.now.rows.callers + 2 * self.now.rows.devices) }
    {
        self.rows.next()
    }

    /// The same with the actor that sits there.
    pub fn next(&self) -> Option<(ActorId, u64)>
        ensures turn { (plan : APlan) (h : History) → IsIndex plan h self.now → result ≡ next_turn plan h }
        ensures seated { IfSome result (λ turn. IsSeated self.now.rows turn.0) }
    {
        let (seat, time) = self.next_seat()?;
        Some((self.rows.actor_at(seat), time))
    }
}
