//! How a run goes on.

ghost use Rattle.std.specs.Prelude.{◌≡◌, ◌≢◌, ◌<◌, ◌^◌, length, false, true, IfOk, IsOk, OnErr, OnOk};
ghost use Rattle.pm_model.specs.World.{move};
ghost use Rattle.pm_state.specs.Standing.{IsActor};
ghost use Rattle.pm_state.specs.Turns.{is_running};
ghost use Rattle.pm_book.specs.Pages.{Adds, BeginsWithin, Longer, MayGo, MayWrite, by_move, end_answer, has_written, moment_from, step_answer, world_of, written};
ghost use Rattle.pm_book.specs.Sheets.{begins_callback};

use crate::book::Book;
use crate::laws::{all_stand_well, each_line_is_taken, stacks_have_room};
use crate::steps::{EndStep, Step};
use pm_base::{ActorId, NoMemory};
use pm_laws::bounds::lines_are_of_plan;
use pm_model::{Change, Event, Line, Move, Stage, Then};
use pm_turns::device_at;

// Whether a line with this event begins a callback.
pub(crate) fn begins_callback(event: &Event) -> bool
    ensures { result ≡ begins_callback event.now }
{
    matches!(*event, Event::Begin { .. })
}

impl Book {
    // When the next line is written at the earliest, at this moment by the clock.
    fn moment(&self, now: u64) -> u64
        ensures moment { result ≡ moment_from self.now.lines now }
        ensures in_time { result < 2 ^ 63 }
    {
        self.lines.last_time().max(now.min(1 << 62))
    }

    // The answer to a line with this event that is about to be written.
    fn answer(&self, event: &Event) -> Step
        requires { BeginsWithin (length self.now.plan.devices) event.now }
        ensures { result ≡ written (world_of self.now).views event.now }
    {
        match *event {
            Event::Begin { dev, cb } => {
                let nth = u64::from(self.state.parts().begun(dev, cb)) + 1;
                Step::Begun(dev, cb, nth)
            }
            _ => Step::Wrote,
        }
    }

    // Writes a line that may come next.
    pub(crate) fn write(
        &mut self,
        stage: &Stage,
        line: &Line,
        change: Change,
        then: &Then,
    ) -> Result<(), NoMemory>
        requires in_range { IsActor self.old.plan line.now.actor }
        requires may { MayWrite self.old.plan self.old.lines stage.now line.now change then.now }
        ensures ok { OnOk result (Longer self.old self.new line.now) }
        ensures room { 0 < self.old.spare → IsOk result }
        ensures err { OnErr result (self.new ≡ self.old) }
    {
        each_line_is_taken();
        stacks_have_room();
        all_stand_well();
        self.lines.reserve(1)?;
        self.state.go(
            &self.plan,
            line.time,
            line.actor,
            &line.event,
            &change,
            then,
        );
        self.lines.push(*line, begins_callback(&line.event));
        self.turns.settle(
            &self.plan,
            &self.state,
            device_at(stage),
            line.time,
            line.actor,
            &line.event,
            &change,
        );
        Ok(())
    }

    // Writes the end line of a callback, at the place that is kept for it. It takes no memory.
    fn write_end(&mut self, stage: &Stage, line: &Line, change: Change, then: &Then)
        requires in_range { IsActor self.old.plan line.now.actor }
        requires may { MayWrite self.old.plan self.old.lines stage.now line.now change then.now }
        requires running { is_running self.old.plan (world_of self.old) line.now.actor ≡ true }
        ensures { Longer self.old self.new line.now }
    {
        each_line_is_taken();
        stacks_have_room();
        all_stand_well();
        self.state.go(
            &self.plan,
            line.time,
            line.actor,
            &line.event,
            &change,
            then,
        );
        self.lines.push_end(*line);
        self.turns.settle(
            &self.plan,
            &self.state,
            device_at(stage),
            line.time,
            line.actor,
            &line.event,
            &change,
        );
    }
}

impl Book {
    // Writes the line that an actor's move is.
    fn write_move(
        &mut self,
        stage: &Stage,
        line: &Line,
        change: Change,
        then: &Then,
    ) -> Result<Step, NoMemory>
        requires in_range { IsActor self.old.plan line.now.actor }
        requires may { MayWrite self.old.plan self.old.lines stage.now line.now change then.now }
        requires within { BeginsWithin (length self.old.plan.devices) line.now.event }
        ensures answer { IfOk result (λ s. s ≡ written (world_of self.old).views line.now.event) }
        ensures ok { OnOk result (Longer self.old self.new line.now) }
        ensures room { 0 < self.old.spare → IsOk result }
        ensures err { OnErr result (self.new ≡ self.old) }
    {
        let answer = self.answer(&line.event);
        self.write(stage, line, change, then)?;
        Ok(answer)
    }

    // Lets an actor go on by one line at this moment, at the stage where it stands and no callback runs.
    fn go_on(&mut self, actor: ActorId, stage: &Stage, time: u64) -> Result<Step, NoMemory>
        requires in_range { IsActor self.old.plan actor }
        requires may { MayGo self.old.plan self.old.lines actor stage.now time }
        ensures answer { IfOk result (λ s. s ≡ by_move (world_of self.old).views (move self.old.plan (world_of self.old).views stage.now time)) }
        ensures writes { IfOk result (λ s. has_written s ≡ true → Adds self.old self.new actor time) }
        ensures stays { IfOk result (λ s. has_written s ≡ false → self.new ≡ self.old) }
        ensures room { 0 < self.old.spare → IsOk result }
        ensures err { OnErr result (self.new ≡ self.old) }
    {
        all_stand_well();
        lines_are_of_plan();
        let mut next = Move::Late(time);
        self.state.write_next(&self.plan, stage, time, &mut next);
        match &next {
            Move::Wait(dev) => Ok(Step::Blocked(*dev)),
            Move::Late(at) => Ok(Step::Early(*at)),
            Move::Write(event, change, then) => {
                let line = Line {
                    time,
                    actor,
                    event: *event,
                };
                self.write_move(stage, &line, *change, then)
            }
        }
    }

    /// Lets an actor go on by one line at the moment of the last line, or at this later one by the
    /// clock, in milliseconds of the run; a clock above 2^62 counts as 2^62. It takes memory for lines
    /// alone, and none where one more can be written without: a line lowers their number by at most one.
    /// After `NoMemory` nothing is changed.
    pub fn step(&mut self, actor: ActorId, now: u64) -> Result<Step, NoMemory>
        requires { IsActor self.old.plan actor }
        ensures answer { IfOk result (λ s. s ≡ step_answer self.old actor now) }
        ensures writes { IfOk result (λ s. has_written s ≡ true → Adds self.old self.new actor (moment_from self.old.lines now)) }
        ensures stays { IfOk result (λ s. has_written s ≡ false → self.new ≡ self.old) }
        ensures room { 0 < self.old.spare → IsOk result }
        ensures err { OnErr result (self.new ≡ self.old) }
    {
        if self.is_full() {
            return Ok(Step::AtLimit);
        }
        let time = self.moment(now);
        let Some(stage) = self.state.stage_at(&self.plan, actor) else {
            return Ok(Step::Resting);
        };
        all_stand_well();
        if let Some(at) = self.state.running_until(&self.plan, &stage) {
            return Ok(Step::Running(at));
        }
        self.go_on(actor, &stage, time)
    }

    /// Lets a callback end that the actor began. It takes no memory.
    pub fn end_callback(&mut self, actor: ActorId, now: u64) -> EndStep
        requires in_range { IsActor self.old.plan actor }
        requires running { is_running self.old.plan (world_of self.old) actor ≡ true }
        ensures answer { result ≡ end_answer self.old actor now }
        ensures writes { result ≡ EndStep.Wrote → Adds self.old self.new actor (moment_from self.old.lines now) }
        ensures stays { result ≢ EndStep.Wrote → self.new ≡ self.old }
    {
        if self.is_full() {
            return EndStep::AtLimit;
        }
        let time = self.moment(now);
        all_stand_well();
        let Some(stage) = self.state.stage_at(&self.plan, actor) else {
            unreachable!();
        };
        let mut next = Move::Late(time);
        self.state.write_next(&self.plan, &stage, time, &mut next);
        match &next {
            Move::Late(at) => EndStep::Early(*at),
            Move::Write(event, change, then) => {
                let line = Line {
                    time,
                    actor,
                    event: *event,
                };
                self.write_end(&stage, &line, *change, then);
                EndStep::Wrote
            }
            Move::Wait(_) => unreachable!(),
        }
    }
}
