//! The judge.

ghost use Rattle.std.specs.Prelude.{◌≡◌, ◌<◌, ◌^◌, ◌∷◌, [], List, Ok, IfErr, IfOk, OnErr, OnOk, false, true};
ghost use Rattle.pm_book.specs.Judging.{IsAnswer, JudgeStandsFor, Judged};
ghost use Rattle.pm_book.specs.Offering.{IsOffer, IsOfPlan, line_by};
ghost use Rattle.pm_book.specs.Sometime.{MayCome, Writes};
ghost use Rattle.pm_model.specs.declared.event.Event.{Event as AnEvent};
ghost use Rattle.pm_model.specs.declared.event.Line.{Line};
ghost use Rattle.pm_model.specs.Lawful.{IsLawful, is_finished};
ghost use Rattle.pm_model.specs.World.{world};
ghost use Rattle.pm_state.specs.Standing.{IsActor, IsOf};

use crate::deciding::decide;
use crate::judge_laws::{all_stand_well, each_line_fits, each_line_is_taken};
use crate::offering::offered;
use pm_base::{ActorId, NoMemory};
use pm_laws::bounds::lines_are_of_plan;
use pm_laws::counts::sizes;
use pm_model::{Change, Event, Line, Move, Plan, Then};
use pm_state::State;
use std::alloc::Global;
use std::marker::Model;

/// What is wrong with a line. The first that holds, in this order, is the answer.
#[derive(Clone, Copy, PartialEq, Eq)]
pub enum Bad {
    /// There are as many lines as the plan allows.
    Limit,
    /// At no time may the line come next.
    Step,
    /// It may at another time.
    Time,
}

/// The counters, places, last time and number of lines after some lawful list of lines of a plan, without
/// the lines. Contracts say for which lists it stands.
pub struct Judge {
    plan: Plan,
    state: State,
    // When the last line was written, in milliseconds of the run; 0 where there is none.
    last: u64,
    lines: u32,
}

impl Drop for Judge {
    fn drop(self) {
        let Judge {
            plan,
            state,
            last: _,
            lines: _,
        } = self;
        drop(plan);
        drop(state);
    }
}

impl Model for Judge {
    ghost use Rattle.pm_book.specs.Judging.{Judged, StandsForSome};

    ghost Value = { Judged };

    ghost view = { λ j. record { plan = j.plan; world = j.state.world; last = j.last; lines = j.lines } };

    ghost invariant = { λ j. StandsForSome j.plan j.state j.last j.lines };
}

impl Judge {
    /// The judge of a plan, which stands for no lines. All memory is taken here; where it runs out, the
    /// plan is handed back.
    pub fn start(alloc: Global, plan: Plan) -> Result<Judge, (Plan, NoMemory)>
        ensures plan { IfOk result (λ judge. judge.plan ≡ plan) }
        ensures stands { IfOk result (λ judge. JudgeStandsFor judge []) }
        ensures err { IfErr result (λ back. back.0 ≡ plan) }
    {
        match State::fresh(alloc, &plan) {
            Ok(state) => Ok(Judge {
                plan,
                state,
                last: 0,
                lines: 0,
            }),
            Err(error) => Err((plan, error)),
        }
    }

    /// The plan.
    pub fn plan(&self) -> &Plan
        ensures { result.now ≡ self.now.plan }
    {
        &self.plan
    }

    /// When the last line was written, in milliseconds of the run; 0 where there is none.
    pub fn last_time(&self) -> u64
        ensures time { result ≡ self.now.last }
        ensures in_time { result < 2 ^ 63 }
    {
        self.last
    }

    /// How many lines there are.
    pub fn lines(&self) -> u32
        ensures { result ≡ self.now.lines }
    {
        self.lines
    }

    /// Judges a line by an actor of the plan, at a time below 2^63 milliseconds of the run: takes it where
    /// it may come next, and else says what is wrong. It takes no memory, and a refusal changes nothing.
    pub fn judge(&mut self, line: &Line) -> Result<(), Bad>
        requires in_range { IsActor self.old.plan line.now.actor }
        requires in_time { line.now.time < 2 ^ 63 }
        ensures answer { (h : List Line) → IsLawful self.old.plan h → JudgeStandsFor self.old h → IsAnswer self.old.plan h line.now result }
        ensures taken { OnOk result ((h : List Line) → IsLawful self.old.plan h → JudgeStandsFor self.old h → JudgeStandsFor self.new (line.now ∷ h)) }
        ensures plan { self.new.plan ≡ self.old.plan }
        ensures err { OnErr result (self.new ≡ self.old) }
    {
        if self.lines >= self.plan.lines {
            return Err(Bad::Limit);
        }
        all_stand_well();
        let coming = decide(&self.plan, &self.state, self.last, line)?;
        self.accept(
            line.time,
            line.actor,
            &line.event,
            &coming.change,
            &coming.next,
        );
        Ok(())
    }

    /// Whether an actor of the plan may write a line at a time below 2^63 milliseconds of the run: there is one
    /// at most, and none where there are as many lines as the plan allows. The move that writes it is put in
    /// `out`, which a caller keeps, since a move is large. It takes no memory.
    #[inline(always)]
    pub fn offer(&self, actor: ActorId, time: u64, out: &mut Move) -> bool
        requires in_range { IsActor self.now.plan actor }
        requires in_time { time < 2 ^ 63 }
        ensures writes { result ≡ true → IsOffer self.now.plan self.now.world self.now.last actor time out.new }
        ensures of_plan { result ≡ true → IsOfPlan self.now.plan actor time out.new }
        ensures room { result ≡ true → self.now.lines < self.now.plan.lines }
        ensures none { result ≡ false → self.now.lines < self.now.plan.lines → (event : Event) → ¬ MayCome self.now.plan self.now.world self.now.last (record { time = time; actor = actor; event = event }) }
    {
        if self.plan.lines <= self.lines {
            return false;
        }
        all_stand_well();
        lines_are_of_plan();
        offered(&self.plan, &self.state, self.last, actor, time, out)
    }

    /// Takes the line by an actor of the plan, at a time below 2^63 milliseconds of the run, with this event, where
    /// it may come next: its row changes this beside the event, and this takes the place of its actor's stage. It
    /// takes no memory.
    #[inline(always)]
    pub fn accept(&mut self, time: u64, actor: ActorId, event: &Event, change: &Change, next: &Then)
        requires in_range { IsActor self.old.plan actor }
        requires in_time { time < 2 ^ 63 }
        requires room { self.old.lines < self.old.plan.lines }
        requires writes { Writes self.old.plan self.old.world self.old.last (line_by actor time event.now) change.now next.now }
        ensures answer { (h : List Line) → IsLawful self.old.plan h → JudgeStandsFor self.old h → IsAnswer self.old.plan h (line_by actor time event.now) (Ok tt) }
        ensures taken { (h : List Line) → IsLawful self.old.plan h → JudgeStandsFor self.old h → JudgeStandsFor self.new ((line_by actor time event.now) ∷ h) }
        ensures plan { self.new.plan ≡ self.old.plan }
    {
        each_line_is_taken();
        each_line_fits();
        self.state.go(&self.plan, time, actor, event, change, next);
        self.last = time;
        self.lines += 1;
    }

    /// The plan, and the counters and places after the lines.
    pub fn into_parts(self) -> (Plan, State)
        ensures plan { result.0 ≡ self.plan }
        ensures world { result.1.world ≡ self.world }
        ensures is_of { IsOf result.0 result.1 }
        ensures in_time { self.last < 2 ^ 63 }
    {
        let Judge {
            plan,
            state,
            last: _,
            lines: _,
        } = self;
        (plan, state)
    }

    /// Whether the run is finished: each script has ended, each place is empty, no device is queued and no
    /// timer is armed. It looks at all actors, and takes no memory.
    pub fn finished(&self) -> bool
        ensures { (h : List Line) → JudgeStandsFor self.now h → result ≡ is_finished self.now.plan (world self.now.plan h) }
    {
        sizes();
        self.state.is_finished(&self.plan)
    }
}
