//! The book, and what it shows.

ghost use Rattle.std.specs.Prelude.{◌≡◌, ◌<◌, ◌≤◌, ◌^◌, [], reverse, true, IfErr, IfNone, IfOk, IfSome, IsOk, OnErr, OnOk};
ghost use Rattle.std.specs.List.{list_all};
ghost use Rattle.pm_model.specs.LineOf.{is_line_of};
ghost use Rattle.pm_model.specs.Lawful.{IsFinished, IsLawful, is_finished, last_time};
ghost use Rattle.pm_state.specs.Standing.{IsActor, IsOf, counters};
ghost use Rattle.pm_state.specs.Turns.{is_running};
ghost use Rattle.pm_model.specs.World.{start};
ghost use Rattle.pm_model.specs.Serial.{next_turn};
ghost use Rattle.pm_turns.specs.Turning.{IsIndex};
ghost use Rattle.pm_book.specs.Pages.{HasSpare, Keeps, is_full, world_of};
ghost use Rattle.pm_book.specs.Turn.{IsTurn};
ghost use Rattle.pm_device.specs.Parts.{IsFor};

use crate::laws::all_stand_well;
use crate::lines::Lines;
use pm_base::{ActorId, NoMemory};
use pm_device::Parts;
use pm_laws::bounds::{due_moments, lines_are_of_plan};
use pm_laws::counts::sizes;
use pm_laws::turns::serial_stops;
use pm_model::{Line, Plan};
use pm_state::State;
use pm_turns::Turns;
use std::alloc::Global;
use std::marker::Model;

/// A plan and the lines of a run of it, with the counters, the open stages and the turns after them.
/// Contracts see the plan, the lines, the newest first, and how many more can be written without taking
/// memory. In each value of the type the list is lawful.
pub struct Book {
    pub(crate) plan: Plan,
    pub(crate) lines: Lines,
    pub(crate) state: State,
    pub(crate) turns: Turns,
}

impl Drop for Book {
    fn drop(self) {
        let Book {
            plan,
            lines,
            state,
            turns,
        } = self;
        drop(plan);
        drop(lines);
        drop(state);
        drop(turns);
    }
}

impl Model for Book {
    ghost use Rattle.std.specs.Prelude.{reverse};
    ghost use Rattle.pm_book.specs.Pages.{IsKept, Pages};

    ghost Value = { Pages };

    ghost view = { λ b. record { plan = b.plan; lines = reverse b.lines.lines; spare = b.lines.spare } };

    ghost invariant = { λ b. IsKept b.plan b.state b.turns b.lines.ends b.lines.limit (reverse b.lines.lines) };
}

// The state before any line, with the turns.
fn start_of(alloc: Global, plan: &Plan) -> Result<(State, Turns), NoMemory>
    ensures is_of { IfOk result (λ pair. IsOf plan.now pair.0) }
    ensures start { IfOk result (λ pair. pair.0.world ≡ start plan.now) }
    ensures turns { IfOk result (λ pair. IsIndex plan.now [] pair.1) }
{
    all_stand_well();
    let state = State::fresh(alloc, plan)?;
    let turns = Turns::after(alloc, plan, &state, &[])?;
    Ok((state, turns))
}

impl Book {
    /// The book of a plan with no lines. All memory but that of lines is taken here; where it runs out,
    /// the plan is handed back.
    pub fn start(alloc: Global, plan: Plan) -> Result<Book, (Plan, NoMemory)>
        ensures plan { IfOk result (λ book. book.plan ≡ plan) }
        ensures lines { IfOk result (λ book. book.lines ≡ []) }
        ensures err { IfErr result (λ back. back.0 ≡ plan) }
    {
        let limit = plan.lines;
        match start_of(alloc, &plan) {
            Ok((state, turns)) => Ok(Book {
                plan,
                lines: Lines::none(alloc, limit),
                state,
                turns,
            }),
            Err(error) => Err((plan, error)),
        }
    }

    /// Takes memory for so many more lines, or for all that the plan still allows where those are fewer:
    /// so many can then be written without taking memory. Each may begin a callback, and the place of
    /// its end line is kept then, so memory is taken for twice as many. After `NoMemory` nothing is
    /// changed.
    pub fn reserve(&mut self, more: usize) -> Result<(), NoMemory>
        ensures keeps { Keeps self.old self.new }
        ensures ok { OnOk result (HasSpare self.new more) }
        ensures room { more ≤ self.old.spare → IsOk result }
        ensures err { OnErr result (self.new ≡ self.old) }
    {
        self.lines.reserve(more)
    }

    /// The plan.
    pub fn plan(&self) -> &Plan
        ensures { result.now ≡ self.now.plan }
    {
        &self.plan
    }

    /// The lines, in order: a lawful list.
    pub fn lines(&self) -> &[Line]
        ensures lines { reverse result.now ≡ self.now.lines }
        ensures lawful { IsLawful self.now.plan self.now.lines }
        ensures of_plan { list_all (is_line_of self.now.plan) self.now.lines ≡ true }
    {
        lines_are_of_plan();
        self.lines.as_slice()
    }

    /// When the last line was written, in milliseconds of the run; 0 where there is none.
    pub fn last_time(&self) -> u64
        ensures time { result ≡ last_time self.now.lines }
        ensures in_time { result < 2 ^ 63 }
    {
        self.lines.last_time()
    }

    /// The counters of the plan after the lines.
    pub fn parts(&self) -> &Parts
        ensures made_for { IsFor self.now.plan result.now.shape }
        ensures views { result.now.views ≡ (world_of self.now).views }
    {
        self.state.parts()
    }

    /// Whether the list has all the lines that the plan allows.
    pub fn is_full(&self) -> bool
        ensures { result ≡ is_full self.now }
    {
        self.lines.as_slice().len() >= self.plan.lines as usize
    }

    /// Whether a callback that the actor began runs. It takes no memory.
    pub fn running(&self, actor: ActorId) -> bool
        requires { IsActor self.now.plan actor }
        ensures { result ≡ is_running self.now.plan (world_of self.now) actor }
    {
        self.state.is_running(&self.plan, actor)
    }

    /// Whether the run is finished: each script has ended, each place is empty, no device is queued and
    /// no timer is armed. It looks at all actors, and takes no memory.
    pub fn finished(&self) -> bool
        ensures { result ≡ is_finished self.now.plan (world_of self.now) }
    {
        sizes();
        self.state.is_finished(&self.plan)
    }

    // Who writes the next line on one thread, and when, by the index of turns.
    fn turn_by_index(&self) -> Option<(ActorId, u64)>
        ensures turn { result ≡ next_turn self.now.plan self.now.lines }
        ensures in_range { IfSome result (λ turn. IsActor self.now.plan turn.0) }
    {
        self.turns.next()
    }

    /// Who writes the next line on one thread, and when; nobody exactly where the run is finished. It takes
    /// no memory, and a number of steps that is logarithmic in the number of actors.
    pub fn next_turn(&self) -> Option<(ActorId, u64)>
        ensures turn { result ≡ next_turn self.now.plan self.now.lines }
        ensures none { IfNone result (IsFinished self.now.plan self.now.lines) }
        ensures some { IfSome result (λ turn. IsTurn self.now turn.0 turn.1) }
    {
        due_moments();
        serial_stops();
        let _ = self.lines();
        self.turn_by_index()
    }
}
