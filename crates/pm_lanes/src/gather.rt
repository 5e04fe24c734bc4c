//! All that is shown of a run.

ghost use Rattle.std.specs.Prelude.{◌≡◌, ◌+◌, ◌<◌, ◌++◌, ◌^◌, IfOk, OnOk, length, reverse, take, true};
ghost use Rattle.std.specs.List.{list_all};
ghost use Rattle.pm_device.specs.Parts.{IsFor};
ghost use Rattle.pm_book.specs.Replayed.{IsAfter};
ghost use Rattle.pm_lanes.specs.Pieces.{at_line, is_open, pieces, seen_of_plan, shown_before, shown_behind, turned_since};
ghost use Rattle.pm_lanes.specs.Showing.{IsStep};
ghost use Rattle.pm_model.specs.Lawful.{IsLawful};
ghost use Rattle.pm_model.specs.LineOf.{is_line_of};
ghost use Rattle.pm_model.specs.World.{place};
ghost use Rattle.pm_state.specs.Standing.{IsActor, IsOf};

use crate::pushing::push;
use crate::seen::{Seen, push_turned, seen_of};
use crate::shown::Piece;
use crate::telling::{device_of, push_freed, push_switched, runs, told};
use pm_base::{ActorId, DevId, NoMemory};
use pm_book::Replay;
use pm_device::Parts;
use pm_model::{Line, Plan};
use std::alloc::Global;

// What is seen of a device, if it is one of the plan.
fn glance(plan: &Plan, parts: &Parts, dev: DevId) -> Option<Seen>
    requires { IsFor plan.now parts.now.shape }
    ensures { result ≡ seen_of_plan plan.now parts.now.views dev }
{
    if (dev.0 as usize) < plan.devices.len() {
        Some(seen_of(parts, dev))
    } else {
        None
    }
}

// Appends what is otherwise of a device than it was, if it is one of the plan.
fn push_turn(
    all: &mut Vec<Piece>,
    number: u32,
    dev: DevId,
    before: Option<Seen>,
    after: Option<Seen>,
) -> Result<(), NoMemory>
    ensures { OnOk result (all.new.items ≡ all.old.items ++ at_line number (turned_since dev before after)) }
{
    match (before, after) {
        (Some(before), Some(after)) => push_turned(all, number, dev, &before, &after),
        _ => Ok(()),
    }
}

// What is seen of a device where a run stands.
fn seen_at(replay: &Replay, plan: &Plan, dev: DevId) -> Option<Seen>
    requires { IsOf plan.now replay.now.standing }
    ensures { result ≡ seen_of_plan plan.now replay.now.standing.world.views dev }
{
    glance(plan, replay.parts(), dev)
}

// Whether a stage of an actor is open where a run stands.
fn is_open(replay: &Replay, plan: &Plan, actor: ActorId) -> bool
    requires is_of { IsOf plan.now replay.now.standing }
    requires in_range { IsActor plan.now actor }
    ensures { result ≡ is_open (place replay.now.standing.world actor) }
{
    replay.state().top(plan, actor).is_some()
}

// Appends what a line tells, and which domains it switches, where the run stands before it.
#[tactic(auto, using(crate::proofs::PushLemmas::at_line_more))]
fn show_before(
    alloc: Global,
    all: &mut Vec<Piece>,
    number: u32,
    plan: &Plan,
    replay: &Replay,
    line: &Line,
) -> Result<(), NoMemory>
    requires { IsOf plan.now replay.now.standing }
    ensures { OnOk result (all.new.items ≡ all.old.items ++ at_line number (shown_before plan.now replay.now.standing.world line.now)) }
{
    push(all, number, told(line))?;
    push_switched(alloc, all, number, plan, replay.parts(), &line.event)
}

// Appends what is otherwise behind a line, by what was seen of its device and whether its actor had a stage
// open.
#[tactic(auto, using(crate::proofs::PushLemmas::at_line_more))]
fn show_behind(
    all: &mut Vec<Piece>,
    number: u32,
    plan: &Plan,
    replay: &Replay,
    line: &Line,
    seen: Option<Seen>,
    was_open: bool,
) -> Result<(), NoMemory>
    requires is_of { IsOf plan.now replay.now.standing }
    requires in_range { IsActor plan.now line.now.actor }
    ensures { OnOk result (all.new.items ≡ all.old.items ++ at_line number (shown_behind plan.now line.now seen was_open replay.now.standing.world)) }
{
    let dev = device_of(&line.event);
    push_turn(all, number, dev, seen, seen_at(replay, plan, dev))?;
    push_freed(all, number, plan, replay.parts(), &line.event)?;
    let is_open = is_open(replay, plan, line.actor);
    push(all, number, runs(line.actor, was_open, is_open))
}

// Appends what is shown from the line at this place on, and goes on behind it.
fn step(
    alloc: Global,
    all: &mut Vec<Piece>,
    replay: &mut Replay,
    plan: &Plan,
    lines: &[Line],
    place: usize,
) -> Result<(), NoMemory>
    requires lawful { IsLawful plan.now (reverse lines.now) }
    requires of_plan { list_all (is_line_of plan.now) (reverse lines.now) ≡ true }
    requires few { length lines.now < 2 ^ 32 }
    requires within { place < length lines.now }
    requires stands { IsAfter plan.now replay.old (reverse (take place lines.now)) }
    ensures stands { OnOk result (IsAfter plan.now replay.new (reverse (take (place + 1) lines.now))) }
    ensures shown { OnOk result (IsStep plan.now lines.now place replay.old replay.new all.old.items all.new.items) }
{
    let line = &lines[place];
    let number = place as u32 + 1;
    let dev = device_of(&line.event);
    let seen = seen_at(replay, plan, dev);
    let was_open = is_open(replay, plan, line.actor);
    show_before(alloc, all, number, plan, replay, line)?;
    replay.go(plan, line);
    show_behind(all, number, plan, replay, line, seen, was_open)
}

/// All that is shown of a run of a plan, line by line. At each line it looks at the line's device, its domains
/// and its actor, and at a forced suspend at the links of the plan. Fails where memory runs out.
pub fn all_pieces(alloc: Global, plan: &Plan, lines: &[Line]) -> Result<Vec<Piece>, NoMemory>
    requires lawful { IsLawful plan.now (reverse lines.now) }
    requires of_plan { list_all (is_line_of plan.now) (reverse lines.now) ≡ true }
    requires few { length lines.now < 2 ^ 32 }
    ensures { IfOk result (λ all. all.items ≡ pieces plan.now (reverse lines.now)) }
{
    let mut replay = Replay::start(alloc, plan)?;
    let mut all = Vec::new(alloc);
    for place in 0..lines.len() {
        step(alloc, &mut all, &mut replay, plan, lines, place)?;
    }
    Ok(all)
}
