//! The state of a run, and at which stage each actor stands.

ghost use Rattle.std.specs.Prelude.{◌≡◌, ◌<◌, ◌^◌, map, length, option_map, slice_get, IfOk, None};
ghost use Rattle.std.specs.Option.{option_and_then, option_copied};
ghost use Rattle.pm_model.specs.World.{due, place, ready, stage_at, start, top};
ghost use Rattle.pm_state.specs.Seats.{actor_in, seat_in, seats};
ghost use Rattle.pm_state.specs.Standing.{IsActor, IsOf, counters};

use crate::Places;
use crate::rooms::stack_room;
use pm_base::{ActorId, DevId, NoMemory};
use pm_device::Parts;
use pm_model::{Command, HelperStage, Plan, Stage};
use std::alloc::{AllocError, Global};
use std::marker::Model;

/// Where a run of a plan stands, which contracts see as the views, the places of all actors with the
/// room of each, and the number of commands that each caller has called.
pub struct State {
    pub(crate) parts: Parts,
    // The places of all actors, in a row by seat: callers, then work items, then timers, each in plan order.
    pub(crate) places: Places,
    pub(crate) callers: usize,
    pub(crate) devices: usize,
    // How many commands each caller has called.
    pub(crate) called: Vec<u32>,
}

impl Drop for State {
    fn drop(self) {
        let State {
            parts,
            places,
            callers: _,
            devices: _,
            called,
        } = self;
        drop(parts);
        drop(places);
        drop(called);
    }
}

impl Model for State {
    ghost use Rattle.pm_state.specs.Seats.{AreSeats, world_of};
    ghost use Rattle.pm_state.specs.Standing.{Standing};

    ghost Value = { Standing };

    ghost view = { λ s. record {
      shape = s.parts.shape;
      world = world_of s.parts.views s.callers s.devices s.places.stages s.called.items;
      room = s.places.room;
    } };

    ghost invariant = { λ s. AreSeats s.callers s.devices s.places.stages };
}

/// A plan has no more actors than can be numbered.
#[tactic(auto, using(crate::proofs::FewLemmas::few_actors))]
pub fn few(plan: &Plan)
    ensures { seats plan.now < 2 ^ 32 }
{}

// Nothing is called.
fn none_called<T>(alloc: Global, rows: &[T]) -> Result<Vec<u32>, AllocError>
    ensures { IfOk result (λ v. v.items ≡ map (λ row. 0) rows.now) }
{
    rows.iter().map(|_row| 0).collect(alloc)
}

// The next command of a caller's script.
fn next_command_of(plan: &Plan, caller: u32, called: u32) -> Option<Command>
    requires { caller < length plan.now.callers }
    ensures { result ≡ option_and_then (λ row. slice_get row.script called) (slice_get plan.now.callers caller) }
{
    let row = &plan.callers.as_slice()[caller as usize];
    row.script.as_slice().get(called as usize).copied()
}

impl State {
    /// The state of a plan before any line. All memory that a state ever needs is taken here.
    pub fn fresh(alloc: Global, plan: &Plan) -> Result<State, NoMemory>
        ensures is_of { IfOk result (IsOf plan.now) }
        ensures start { IfOk result (λ s. s.world ≡ start plan.now) }
    {
        few(plan);
        let callers = plan.callers.len();
        let devices = plan.devices.len();
        let room = stack_room(alloc, plan)?;
        Ok(State {
            places: Places::empty(alloc, callers + 2 * devices, room)?,
            callers,
            devices,
            called: none_called(alloc, plan.callers.as_slice())?,
            parts: Parts::fresh(alloc, plan)?,
        })
    }

    /// A copy of the open stages of an actor, the one that writes next first.
    pub fn open(&self, alloc: Global, plan: &Plan, actor: ActorId) -> Result<Vec<Stage>, AllocError>
        requires is_of { IsOf plan.now self.now }
        requires in_range { IsActor plan.now actor }
        ensures { IfOk result (λ stages. stages.items ≡ place self.now.world actor) }
    {
        let seat = self.seat(plan, actor);
        self.places.copied(alloc, seat)
    }

    /// How many commands each caller has called.
    pub fn called(&self) -> &[u32]
        ensures { result.now ≡ self.now.world.called }
    {
        self.called.as_slice()
    }

    /// The counters.
    pub fn parts(&self) -> &Parts
        ensures { result.now ≡ counters self.now }
    {
        &self.parts
    }

    /// The stage of an actor that is open and writes next; `None` comes exactly where its place is
    /// empty. It takes no memory.
    #[inline(always)]
    pub fn top(&self, plan: &Plan, actor: ActorId) -> Option<&Stage>
        requires is_of { IsOf plan.now self.now }
        requires in_range { IsActor plan.now actor }
        ensures { option_copied result ≡ top None (place self.now.world actor) }
    {
        let seat = self.seat(plan, actor);
        self.top_at(plan, seat)
    }

    /// The same of the actor at a seat.
    #[inline(always)]
    pub fn top_at(&self, plan: &Plan, seat: usize) -> Option<&Stage>
        requires is_of { IsOf plan.now self.now }
        requires in_range { seat < seats plan.now }
        ensures { option_copied result ≡ top None (place self.now.world (actor_in plan.now seat)) }
    {
        self.places.top(seat)
    }

    /// The seat of an actor in the row of all: callers, then work items, then timers, each in plan order.
    #[inline(always)]
    pub fn seat(&self, plan: &Plan, actor: ActorId) -> usize
        requires is_of { IsOf plan.now self.now }
        requires in_range { IsActor plan.now actor }
        ensures is { result ≡ seat_in plan.now actor }
        ensures below { result < seats plan.now }
        ensures sits { actor_in plan.now result ≡ actor }
    {
        match actor {
            ActorId::Caller(caller) => caller as usize,
            ActorId::Work(device) => self.callers + device as usize,
            ActorId::Timer(device) => self.callers + self.devices + device as usize,
        }
    }

    /// The actor at a seat.
    #[inline(always)]
    pub fn actor(&self, plan: &Plan, seat: usize) -> ActorId
        requires is_of { IsOf plan.now self.now }
        requires in_range { seat < seats plan.now }
        ensures is { result ≡ actor_in plan.now seat }
        ensures within { IsActor plan.now result }
    {
        let timers = self.callers + self.devices;
        if seat < self.callers {
            ActorId::Caller(seat as u32)
        } else if seat < timers {
            ActorId::Work((seat - self.callers) as u32)
        } else {
            ActorId::Timer((seat - timers) as u32)
        }
    }

    /// What an actor with an empty place has to start. It takes no memory.
    pub fn ready(&self, plan: &Plan, actor: ActorId) -> Option<Stage>
        requires is_of { IsOf plan.now self.now }
        requires in_range { IsActor plan.now actor }
        ensures { result ≡ ready plan.now self.now.world actor }
    {
        let start = match actor {
            ActorId::Caller(caller) => {
                let called = self.called[caller as usize];
                let command = next_command_of(plan, caller, called)?;
                HelperStage::Call { command }
            }
            ActorId::Work(device) => {
                let dev = DevId(device);
                if !self.parts.pending(dev).queued {
                    return None;
                }
                HelperStage::Work { dev }
            }
            ActorId::Timer(device) => {
                let dev = DevId(device);
                let _ = self.parts.timer(dev)?;
                HelperStage::Timer { dev }
            }
        };
        Some(Stage::Helper(start))
    }

    /// The stage at which an actor stands; `None` comes exactly where its place is empty and it has
    /// nothing to start. It takes no memory.
    pub fn stage_at(&self, plan: &Plan, actor: ActorId) -> Option<Stage>
        requires is_of { IsOf plan.now self.now }
        requires in_range { IsActor plan.now actor }
        ensures { result ≡ stage_at plan.now self.now.world actor }
    {
        match self.top(plan, actor) {
            Some(stage) => Some(*stage),
            None => self.ready(plan, actor),
        }
    }

    /// From when an actor with an empty place may start, in milliseconds of the run; `None` comes
    /// exactly where it has nothing to start. It takes no memory.
    pub fn ready_from(&self, plan: &Plan, actor: ActorId) -> Option<u64>
        requires is_of { IsOf plan.now self.now }
        requires in_range { IsActor plan.now actor }
        ensures { result ≡ option_map (due plan.now self.now.world.views) (ready plan.now self.now.world actor) }
    {
        match actor {
            ActorId::Caller(caller) => {
                let called = self.called[caller as usize];
                let _ = next_command_of(plan, caller, called)?;
                Some(0)
            }
            ActorId::Work(device) => {
                if self.parts.pending(DevId(device)).queued {
                    Some(0)
                } else {
                    None
                }
            }
            ActorId::Timer(device) => {
                let armed = self.parts.timer(DevId(device))?;
                Some(armed.deadline)
            }
        }
    }
}
