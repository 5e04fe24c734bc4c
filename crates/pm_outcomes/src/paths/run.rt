//! A run that goes step by step, and keeps no lines.

ghost use Rattle.std.specs.Prelude.{◌≡◌, ◌<◌, ◌≤◌, ◌+◌, IfOk, IfSome, None, false, true};
ghost use Rattle.pm_model.specs.declared.event.Line.{Line as ALine};
ghost use Rattle.pm_explore.specs.schedule.Snapshots.{MayFollow, code_of, start_snapshot};
ghost use Rattle.pm_explore.specs.state.SnapshotOf.{snapshot_of};
ghost use Rattle.pm_state.specs.Standing.{IsActor};
ghost use Rattle.pm_outcomes.specs.paths.Runs.{IsListTo, IsRunOf, StandsAt, Took, snapshot_of_run};

use pm_base::{ActorId, NoMemory};
use pm_book::{all_stand_well, each_line_fits, each_line_is_taken, offered};
use pm_explore::state::Snapshot;
use pm_explore::successors::Last;
use pm_laws::bounds::{due_moments, lines_are_bounded};
use pm_laws::counts::sizes;
use pm_laws::stacks::{delays_are_bounded, stacks_are_shallow};
use pm_model::{Event, Line, Move, Plan};
use pm_state::State;
use std::alloc::{AllocError, Global};

/// Where a run stands, with its last line, and how many lines it has.
#[derive(Drop)]
pub struct Run {
    pub state: State,
    pub last: Last,
    pub lines: u32,
}

// What an event returns to a caller.
fn code_of(event: &Event) -> Option<i32>
    ensures { result ≡ code_of event.now }
{
    match event {
        Event::Ret { code, .. } => Some(*code),
        _ => None,
    }
}

impl Run {
    /// The run of a plan before any line.
    pub fn start(alloc: Global, plan: &Plan) -> Result<Run, NoMemory>
        ensures run { IfOk result (λ run. IsRunOf plan.now run) }
        ensures snapshot { IfOk result (λ run. snapshot_of_run run ≡ start_snapshot plan.now) }
        ensures lines { IfOk result (λ run. run.lines ≡ 0) }
    {
        let state = State::fresh(alloc, plan)?;
        let last = Last {
            time: 0,
            actor: None,
            code: None,
        };
        Ok(Run {
            state,
            last,
            lines: 0,
        })
    }

    /// Writes the line of an actor of the plan at a time that is near, if it may write one; whether it may. It
    /// takes no memory.
    pub fn step(&mut self, plan: &Plan, actor: ActorId, time: u64) -> bool
        requires run { IsRunOf plan.now self.old }
        requires in_range { IsActor plan.now actor }
        requires room { self.old.lines < plan.now.lines }
        requires near { time ≤ self.old.last.time + 1000000 }
        ensures took { result ≡ true → Took plan.now self.old self.new actor time }
        ensures none { result ≡ false → (line : ALine) → line.actor ≡ actor → line.time ≡ time → ¬ MayFollow plan.now (snapshot_of_run self.old) line }
    {
        all_stand_well();
        each_line_is_taken();
        each_line_fits();
        lines_are_bounded();
        let mut offer = Move::Late(time);
        if !offered(plan, &self.state, self.last.time, actor, time, &mut offer) {
            return false;
        }
        let Move::Write(event, change, next) = offer else {
            return false;
        };
        self.state.go(plan, time, actor, &event, &change, &next);
        self.last = Last {
            time,
            actor: Some(actor),
            code: code_of(&event),
        };
        self.lines += 1;
        true
    }

    /// The line of an actor of the plan at a time that is near, if it may write one.
    pub fn line(&self, plan: &Plan, actor: ActorId, time: u64) -> Option<Line>
        requires run { IsRunOf plan.now self.now }
        requires in_range { IsActor plan.now actor }
        requires room { self.now.lines < plan.now.lines }
        requires near { time ≤ self.now.last.time + 1000000 }
        ensures may { IfSome result (λ line. MayFollow plan.now (snapshot_of_run self.now) line) }
        ensures by { IfSome result (λ line. line.actor ≡ actor) }
        ensures at { IfSome result (λ line. line.time ≡ time) }
        ensures none { result ≡ None → (line : ALine) → line.actor ≡ actor → line.time ≡ time → ¬ MayFollow plan.now (snapshot_of_run self.now) line }
    {
        all_stand_well();
        lines_are_bounded();
        let mut offer = Move::Late(time);
        if !offered(plan, &self.state, self.last.time, actor, time, &mut offer) {
            return None;
        }
        let Move::Write(event, _, _) = offer else {
            unreachable!();
        };
        Some(Line { time, actor, event })
    }

    /// Where it stands, as it is kept.
    pub fn snapshot(&self, alloc: Global, plan: &Plan) -> Result<Snapshot, AllocError>
        requires run { IsRunOf plan.now self.now }
        ensures { IfOk result (λ snapshot. snapshot_of snapshot ≡ snapshot_of_run self.now) }
    {
        sizes();
        let last = self.last;
        Snapshot::of(alloc, plan, &self.state, last.time, last.actor, last.code)
    }
    /// It stands where a lawful list of so many lines does. It takes no memory.
    pub fn stand_at(&mut self, plan: &Plan, node: &Snapshot, lines: u32)
        requires run { IsRunOf plan.now self.old }
        requires there { IsListTo plan.now (snapshot_of node.now) lines }
        ensures run { IsRunOf plan.now self.new }
        ensures stands { StandsAt self.new (snapshot_of node.now) lines }
    {
        sizes();
        due_moments();
        delays_are_bounded();
        stacks_are_shallow();
        lines_are_bounded();
        node.fill(plan, &mut self.state);
        self.last = Last {
            time: node.time,
            actor: node.last,
            code: node.code,
        };
        self.lines = lines;
    }
}
