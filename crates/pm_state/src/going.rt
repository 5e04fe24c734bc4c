//! What a line makes of the state.

ghost use Rattle.std.specs.Prelude.{◌≡◌, ◌<◌, ◌^◌, drop, true};
ghost use Rattle.pm_model.specs.Handing.{after_then};
ghost use Rattle.pm_model.specs.World.{counts_call, place, with_place};
ghost use Rattle.pm_state.specs.Seats.{actor_in, seats};
ghost use Rattle.pm_state.specs.Standing.{HasRoomFor, IsActor, IsOf, Takes, after_write, can_count};

use crate::apply;
use crate::state::State;
use pm_base::ActorId;
use pm_model::{Change, Event, Plan, Then};

impl State {
    // What comes after a line takes the place of the top of the stages at a seat.
    #[inline(always)]
    fn give_way(&mut self, plan: &Plan, seat: usize, then: &Then)
        requires is_of { IsOf plan.now self.old }
        requires in_range { seat < seats plan.now }
        requires room { HasRoomFor self.old (actor_in plan.now seat) then.now }
        ensures { self.new ≡ record self.old { world = with_place self.old.world (actor_in plan.now seat) (after_then then.now (drop 1 (place self.old.world (actor_in plan.now seat)))) } }
    {
        self.places.go(seat, then);
    }

    // A call line of a caller is one more command that it has called. Callers sit first.
    #[inline(always)]
    fn count_call(&mut self, plan: &Plan, seat: usize, event: &Event)
        requires is_of { IsOf plan.now self.old }
        requires in_range { seat < seats plan.now }
        requires room { can_count self.old.world (actor_in plan.now seat) event.now ≡ true }
        ensures { self.new ≡ record self.old { world = record self.old.world { called = counts_call (actor_in plan.now seat) event.now self.old.world.called } } }
    {
        let Event::Call { .. } = *event else {
            return;
        };
        if seat < self.called.len() {
            self.called[seat] += 1;
        }
    }

    /// Writes the line of a stage, by the actor at this seat at this moment, in milliseconds of the run, with this event:
    /// its effects, and what takes the stage's place. It takes no memory.
    #[inline(always)]
    pub fn go_at(
        &mut self,
        plan: &Plan,
        time: u64,
        seat: usize,
        event: &Event,
        change: &Change,
        then: &Then,
    )
        requires is_of { IsOf plan.now self.old }
        requires in_range { seat < seats plan.now }
        requires takes { Takes plan.now self.old.world (actor_in plan.now seat) change.now event.now }
        requires room { HasRoomFor self.old (actor_in plan.now seat) then.now }
        requires in_time { time < 2 ^ 63 }
        ensures { self.new ≡ record self.old { world = after_write plan.now self.old.world change.now (record { time = time; actor = actor_in plan.now seat; event = event.now }) then.now } }
    {
        self.give_way(plan, seat, then);
        self.count_call(plan, seat, event);
        apply(&mut self.parts, plan, time, change, event);
    }

    /// The same by the actor.
    #[inline(always)]
    pub fn go(
        &mut self,
        plan: &Plan,
        time: u64,
        actor: ActorId,
        event: &Event,
        change: &Change,
        then: &Then,
    )
        requires is_of { IsOf plan.now self.old }
        requires in_range { IsActor plan.now actor }
        requires takes { Takes plan.now self.old.world actor change.now event.now }
        requires room { HasRoomFor self.old actor then.now }
        requires in_time { time < 2 ^ 63 }
        ensures { self.new ≡ record self.old { world = after_write plan.now self.old.world change.now (record { time = time; actor = actor; event = event.now }) then.now } }
    {
        let seat = self.seat(plan, actor);
        self.go_at(plan, time, seat, event, change, then);
    }
}
