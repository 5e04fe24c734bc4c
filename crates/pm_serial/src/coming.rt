//! The lines of a run on one thread, one by one.

ghost use Rattle.std.specs.Prelude.{◌≡◌, ◌+◌, ◌<◌, ◌^◌, length, reverse, slice_get, true, IfNone, IfOk, IfSome, IsSome, None, Some};
ghost use Rattle.std.specs.List.{list_all};
ghost use Rattle.pm_laws.specs.turns.Looks.{device_at};
ghost use Rattle.pm_model.specs.declared.plan.Plan.{Plan as APlan};
ghost use Rattle.pm_model.specs.Lawful.{IsLawful};
ghost use Rattle.pm_model.specs.LineOf.{is_line_of};
ghost use Rattle.pm_model.specs.Serial.{serial};
ghost use Rattle.pm_serial.specs.Coming.{IsAfter, IsComing, Moves};
ghost use Rattle.pm_serial.specs.Ends.{IsSerialEnd};
ghost use Rattle.pm_model.specs.World.{move, stage_at};
ghost use Rattle.pm_state.specs.Seats.{actor_in, seats};
ghost use Rattle.pm_state.specs.Standing.{IsOf, StandsWell, can_go_on};

use crate::{End, NextTurn, fresh_books_have_time};
use pm_base::{ActorId, DevId, NoMemory};
use pm_book::{all_stand_well, each_line_fits, each_line_is_taken};
use pm_laws::bounds::{due_moments, lines_are_of_plan};
use pm_laws::turns::{serial_ends, serial_stops};
use pm_model::{Event, Line, Move, Plan, Stage};
use pm_state::State;
use pm_turns::{Turns, device_at};
use std::alloc::Global;
use std::marker::Model;

/// A run on one thread that keeps no lines: each is handed out as it comes. Contracts see the plan, and how many
/// lines have come.
#[derive(Drop)]
pub struct SerialLines<'p> {
    plan: &'p Plan,
    state: State,
    turns: Turns,
    came: u32,
}

impl<'p> Model for SerialLines<'p> {
    ghost use Rattle.pm_serial.specs.Coming.{Coming, IsAfter};

    ghost Value = { Coming };

    ghost view = { λ l. record { plan = l.plan.now; came = l.came } };

    ghost invariant = { λ l. IsAfter l.plan.now l.came l.state l.turns };
}

// Puts in `out` what the actor may do at this stage, at which it stands, and answers the stage's device.
#[inline(always)]
fn move_at(plan: &Plan, state: &State, stage: &Stage, time: u64, out: &mut Move) -> Option<DevId>
    requires is_of { IsOf plan.now state.now }
    requires stands { can_go_on plan.now state.now.world.views stage.now ≡ true }
    requires in_time { time < 2 ^ 63 }
    ensures moves { Some out.new ≡ move plan.now state.now.world.views stage.now time }
    ensures at { result ≡ device_at stage.now }
{
    state.write_next(plan, stage, time, out);
    device_at(stage)
}

// Puts in `out` what the actor at a seat may do at the stage where it stands, and answers the stage's device. Mostly the stage is
// open, and then it is read where it is kept.
#[tactic(auto, using(crate::proofs::ComingLemmas::stands_open, crate::proofs::ComingLemmas::stands_ready))]
#[inline(always)]
fn move_of(plan: &Plan, state: &State, seat: usize, time: u64, out: &mut Move) -> Option<DevId>
    requires is_of { IsOf plan.now state.now }
    requires in_range { seat < seats plan.now }
    requires stands { IsSome (stage_at plan.now state.now.world (actor_in plan.now seat)) }
    requires well { StandsWell plan.now state.now.world (actor_in plan.now seat) }
    requires in_time { time < 2 ^ 63 }
    ensures { Moves plan.now state.now.world (actor_in plan.now seat) time out.new result }
{
    match state.top_at(plan, seat) {
        Some(stage) => move_at(plan, state, stage, time, out),
        None => {
            let Some(start) = state.ready(plan, state.actor(plan, seat)) else {
                unreachable!();
            };
            move_at(plan, state, &start, time, out)
        }
    }
}

// Puts in `out` the move by which the next line is written, if there is one, and answers whose turn it is.
#[inline(always)]
fn next_turn(
    plan: &Plan,
    state: &State,
    turns: &Turns,
    _came: u32,
    out: &mut Move,
) -> Option<NextTurn>
    requires after { IsAfter plan.now _came state.now turns.now }
    requires room { _came < plan.now.lines }
    ensures some { IfSome result (λ turn. IsComing plan.now _came turn out.new) }
    ensures none { IfNone result (slice_get (serial plan.now) _came ≡ None) }
{
    all_stand_well();
    due_moments();
    let (seat, time) = turns.next_seat()?;
    let at = move_of(plan, state, seat, time, out);
    Some(NextTurn { seat, time, at })
}

// Writes the line that comes next, by this move of the actor whose turn it is.
#[inline(always)]
fn write_line(
    plan: &Plan,
    state: &mut State,
    turns: &mut Turns,
    _came: u32,
    turn: &NextTurn,
    next: &Move,
)
    requires after { IsAfter plan.now _came state.old turns.old }
    requires coming { IsComing plan.now _came turn.now next.now }
    ensures { IsAfter plan.now (_came + 1) state.new turns.new }
{
    all_stand_well();
    each_line_is_taken();
    each_line_fits();
    due_moments();
    let Move::Write(event, change, then) = next else {
        unreachable!();
    };
    state.go_at(plan, turn.time, turn.seat, event, change, then);
    turns.settle_at(plan, state, turn.at, turn.time, turn.seat, event, change);
}

impl<'p> SerialLines<'p> {
    /// The run of a plan before its first line. All memory is taken here; fails where it runs out.
    pub fn start(alloc: Global, plan: &'p Plan) -> Result<SerialLines<'p>, NoMemory>
        ensures { IfOk result (λ lines. lines ≡ record { plan = plan.now; came = 0 }) }
    {
        all_stand_well();
        fresh_books_have_time();
        let state = State::fresh(alloc, plan)?;
        let turns = Turns::after(alloc, plan, &state, &[])?;
        Ok(SerialLines {
            plan,
            state,
            turns,
            came: 0,
        })
    }

    /// The next line of the run that one thread makes of the plan; none comes exactly where all have come. It takes
    /// no memory, and a number of steps that is logarithmic in the number of actors.
    pub fn next(&mut self) -> Option<Line>
        ensures line { result ≡ slice_get (serial self.old.plan) self.old.came }
        ensures plan { self.new.plan ≡ self.old.plan }
        ensures some { IfSome result (λ line. self.new.came ≡ self.old.came + 1) }
        ensures none { IfNone result (self.new.came ≡ self.old.came) }
    {
        let mut next = Move::Late(0);
        let turn = self.coming(&mut next)?;
        let line = Line {
            time: turn.time,
            actor: self.actor(&turn),
            event: *self.event(&turn, &next),
        };
        self.go_on(&turn, &next);
        Some(line)
    }

    /// Whose turn it is to write the next line, and in `out` the move by which it is written; none exactly where all
    /// lines have come. So the line can be spelled from where it stands, before the run goes on by it.
    #[inline(always)]
    pub fn coming(&self, out: &mut Move) -> Option<NextTurn>
        ensures some { IfSome result (λ turn. IsComing self.now.plan self.now.came turn out.new) }
        ensures none { IfNone result (slice_get (serial self.now.plan) self.now.came ≡ None) }
    {
        if self.came >= self.plan.lines {
            return None;
        }
        next_turn(self.plan, &self.state, &self.turns, self.came, out)
    }

    /// What the line that comes next says, where it stands in the move by which it is written; its time is that of the turn,
    /// and its actor the one whose turn it is.
    #[inline(always)]
    pub fn event<'m>(&self, turn: &NextTurn, next: &'m Move) -> &'m Event
        requires { IsComing self.now.plan self.now.came turn.now next.now }
        ensures { slice_get (serial self.now.plan) self.now.came ≡ Some (record { time = turn.now.time; actor = actor_in self.now.plan turn.now.seat; event = result.now }) }
    {
        let Move::Write(event, _, _) = next else {
            unreachable!();
        };
        event
    }

    /// The actor whose turn it is.
    #[inline(always)]
    pub fn actor(&self, turn: &NextTurn) -> ActorId
        requires { turn.now.seat < seats self.now.plan }
        ensures { result ≡ actor_in self.now.plan turn.now.seat }
    {
        self.state.actor(self.plan, turn.seat)
    }

    /// Goes on by the line that comes next.
    #[inline(always)]
    pub fn go_on(&mut self, turn: &NextTurn, next: &Move)
        requires { IsComing self.old.plan self.old.came turn.now next.now }
        ensures { self.new ≡ record { plan = self.old.plan; came = self.old.came + 1 } }
    {
        write_line(
            self.plan,
            &mut self.state,
            &mut self.turns,
            self.came,
            turn,
            next,
        );
        self.came += 1;
    }

    /// How the run ends, once all its lines have come.
    pub fn end(&self) -> End
        requires { self.now.came ≡ length (serial self.now.plan) }
        ensures { IsSerialEnd self.now.plan result }
    {
        serial_stops();
        serial_ends();
        match self.turns.next() {
            Some(_) => End::AtLimit,
            None => End::Finished,
        }
    }
}

/// The lines of a run on one thread are lawful, and each has a text.
pub fn serial_lines_are_lawful()
    ensures lawful { (plan : APlan) → IsLawful plan (reverse (serial plan)) }
    ensures of_plan { (plan : APlan) → list_all (is_line_of plan) (reverse (serial plan)) ≡ true }
{
    due_moments();
    lines_are_of_plan();
    fresh_books_have_time();
}
