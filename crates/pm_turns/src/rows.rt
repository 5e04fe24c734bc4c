//! From when the actor at each seat may write, and whose turn it is by these moments.

ghost use Rattle.std.specs.Prelude.{◌≡◌, ◌+◌, ◌*◌, ◌<◌, ◌≤◌, ◌^◌, ℕ, Option, None, option_map, replicate, IfNone, IfOk, IfSome};
ghost use Rattle.pm_base.specs.declared.ActorId.{ActorId as AnActor};
ghost use Rattle.pm_index.specs.Moments.{NoneWithin};
ghost use Rattle.pm_laws.specs.turns.Wakes.{first_awake, turn_by};
ghost use Rattle.pm_state.specs.Seats.{actor_at};
ghost use Rattle.pm_turns.specs.Seats.{AreMoments, IsFirst, IsSeated, Sets, place_of, round_of, seat_after, writer_at};

use pm_base::{ActorId, NoMemory};
use pm_index::Moments;
use std::alloc::Global;
use std::marker::Model;

/// From when the actor at each seat may write its next line, where the search for the next one begins, and
/// when the last line was written, in milliseconds of the run.
#[derive(Drop)]
pub struct Rows {
    callers: usize,
    devices: usize,
    // The moment of each actor, by its seat; `None` where it rests or waits for a device.
    moments: Moments,
    // The seat at which the search for the next actor begins.
    seat: usize,
    // When the last line was written.
    time: u64,
}

impl Model for Rows {
    ghost use Rattle.std.specs.Prelude.{length};
    ghost use Rattle.pm_turns.specs.Seats.{AreKept, Seating};

    ghost Value = { Seating };

    ghost view = { λ t. record { callers = t.callers; devices = t.devices; moments = t.moments; seat = t.seat; time = t.time } };

    ghost invariant = { λ t. AreKept t.callers t.devices (length t.moments) t.seat t.time };
}

impl Rows {
    /// Nobody may write. All memory is taken here.
    pub fn fresh(alloc: Global, callers: usize, devices: usize) -> Result<Rows, NoMemory>
        requires { callers + 2 * devices < 2 ^ 32 }
        ensures { IfOk result (λ rows. rows ≡ record { callers = callers; devices = devices; moments = replicate (callers + 2 * devices) None; seat = 0; time = 0 }) }
    {
        Ok(Rows {
            callers,
            devices,
            moments: Moments::new(alloc, callers + 2 * devices)?,
            seat: 0,
            time: 0,
        })
    }

    /// How many seats there are.
    pub fn seats(&self) -> usize
        ensures { result ≡ self.now.callers + 2 * self.now.devices }
    {
        self.callers + 2 * self.devices
    }

    /// How many devices there are.
    pub fn devices(&self) -> usize
        ensures { result ≡ self.now.devices }
    {
        self.devices
    }

    /// The seat of an actor.
    pub fn place(&self, actor: ActorId) -> usize
        requires { IsSeated self.now actor }
        ensures is { result ≡ place_of self.now actor }
        ensures below { result < self.now.callers + 2 * self.now.devices }
    {
        match actor {
            ActorId::Caller(caller) => caller as usize,
            ActorId::Work(device) => self.callers + device as usize,
            ActorId::Timer(device) => self.callers + self.devices + device as usize,
        }
    }

    /// The actor at a seat.
    pub fn actor_at(&self, place: usize) -> ActorId
        requires { place < self.now.callers + 2 * self.now.devices }
        ensures is { result ≡ actor_at self.now.callers self.now.devices place }
        ensures seated { IsSeated self.now result }
    {
        let row = self.callers + self.devices;
        if place < self.callers {
            ActorId::Caller(place as u32)
        } else if place < row {
            ActorId::Work((place - self.callers) as u32)
        } else {
            ActorId::Timer((place - row) as u32)
        }
    }

    /// Takes note of the seat of a line's writer, and of its time.
    #[inline(always)]
    pub fn note(&mut self, seat: usize, time: u64)
        requires below { seat < self.old.callers + 2 * self.old.devices }
        requires in_time { time < 2 ^ 63 }
        ensures { self.new ≡ record self.old { seat = seat_after self.old (actor_at self.old.callers self.old.devices seat); time = time } }
    {
        self.seat = if seat < self.callers + self.devices {
            seat + 1
        } else {
            0
        };
        self.time = time;
    }

    /// From when the actor at a seat may write.
    #[inline(always)]
    pub fn set(&mut self, seat: usize, moment: Option<u64>)
        requires { seat < self.old.callers + 2 * self.old.devices }
        ensures { Sets self.old self.new (actor_at self.old.callers self.old.devices seat) moment }
    {
        if self.moments.get(seat) != moment {
            self.moments.set(seat, moment);
        }
    }

    // The first seat at which somebody may write at this moment: once round callers and work items from the seat
    // at which the search begins, and then the timers.
    fn first_place(&self, moment: u64) -> Option<usize>
        ensures found { IfSome result (IsFirst self.now moment) }
        ensures missing { IfNone result (NoneWithin self.now.moments moment 0 (self.now.callers + 2 * self.now.devices)) }
    {
        let row = self.callers + self.devices;
        match self.moments.first_within(self.seat, moment) {
            Some(place) if place < row => Some(place),
            _ => self.moments.first_within(0, moment),
        }
    }

    // At which seat somebody writes at a moment.
    fn seat_at(&self, moment: u64) -> Option<usize>
        ensures first { (wake : AnActor → Option ℕ) → AreMoments wake self.now → option_map (actor_at self.now.callers self.now.devices) result ≡ first_awake wake (round_of self.now) moment }
        ensures below { IfSome result (λ seat. seat < self.now.callers + 2 * self.now.devices) }
    {
        let _ = &self.seat;
        self.first_place(moment)
    }

    /// At which seat the next line is written, and when: at the moment of the last line where somebody may write
    /// then, else at the least moment that a line awaits. It takes no memory, and a number of steps
    /// that is logarithmic in the number of actors.
    #[inline(always)]
    pub fn next(&self) -> Option<(usize, u64)>
        ensures turn { (wake : AnActor → Option ℕ) → AreMoments wake self.now → option_map (writer_at self.now) result ≡ turn_by wake (round_of self.now) self.now.time }
        ensures below { IfSome result (λ turn. turn.0 < self.now.callers + 2 * self.now.devices) }
        ensures begins { self.now.seat ≤ self.now.callers + self.now.devices }
    {
        let _ = &self.seat;
        match self.seat_at(self.time) {
            Some(seat) => Some((seat, self.time)),
            None => self.later(),
        }
    }

    // The same where nobody may write at the moment of the last line. It is seldom so, and this stands out
    // of line.
    #[inline(never)]
    fn later(&self) -> Option<(usize, u64)>
        requires nobody { (wake : AnActor → Option ℕ) → AreMoments wake self.now → None ≡ first_awake wake (round_of self.now) self.now.time }
        ensures turn { (wake : AnActor → Option ℕ) → AreMoments wake self.now → option_map (writer_at self.now) result ≡ turn_by wake (round_of self.now) self.now.time }
        ensures below { IfSome result (λ turn. turn.0 < self.now.callers + 2 * self.now.devices) }
    {
        let _ = &self.seat;
        match self.moments.least() {
            Some(later) => match self.seat_at(later) {
                Some(seat) => Some((seat, later)),
                None => None,
            },
            None => None,
        }
    }
}
