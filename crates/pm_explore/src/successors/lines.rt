//! All lines that may come next at a pace, where a run stands.

ghost use Rattle.std.specs.Prelude.{ℕ, ◌≡◌, ◌<◌, ◌++◌, ◌^◌, IfOk, IfSome, OnOk, Some};
ghost use Rattle.std.specs.List.{All, filter_map, flat_map};
ghost use Rattle.pm_laws.specs.counts.Sizes.{HasEntries, HasPlaces};
ghost use Rattle.pm_model.specs.World.{stage_at};
ghost use Rattle.pm_explore.specs.schedule.Snapshots.{all_actors, anyone_may, last_may};
ghost use Rattle.pm_explore.specs.search.Exact.{HasExactly};
ghost use Rattle.pm_state.specs.Standing.{AllStandWell, IsActor, IsOf};
ghost use Rattle.pm_explore.specs.successors.Lines.{IsMoment, IsNext, comes, is_at, is_kept, is_new_observation, line_for, lines_at, marked_by_callback, marked_by_change, marked_by_event, observations};
ghost use Rattle.pm_explore.specs.successors.Standing.{snapshot_at};

use crate::schedule::Pace;
use crate::successors::laws::lines_are_all;
use crate::successors::moments::moments_at;
use crate::successors::moves::{Last, anyone_may, awaits, last_may, tested, wrote};
use pm_base::{ActorId, DevId};
use pm_device::marks_busy;
use pm_model::{Change, Event, Line, Move, Plan, Stage, Word};
use pm_state::State;
use std::alloc::{AllocError, Global};

// Whether a line is no earlier than the last one, and preempts or doesn't.
fn keeps(
    _plan: &Plan,
    _state: &State,
    last: Last,
    spends: bool,
    anyone: bool,
    own: bool,
    line: &Line,
) -> bool
    requires anyone { anyone ≡ anyone_may _plan.now (snapshot_at _state.now.world last) }
    requires own { own ≡ last_may _plan.now (snapshot_at _state.now.world last) }
    ensures { result ≡ is_kept _plan.now (snapshot_at _state.now.world last) spends line.now }
{
    let later = last.time < line.time;
    let preempts = (own && (!wrote(last.actor, line.actor) || later)) || (later && anyone);
    last.time <= line.time && (if spends { preempts } else { !preempts })
}

// The device, if its callbacks observation it as busy.
fn marked_by_callback(plan: &Plan, dev: DevId) -> Option<DevId>
    ensures { result ≡ marked_by_callback plan.now dev }
{
    if dev.0 as usize >= plan.devices.len() {
        return None;
    }
    if marks_busy(plan, dev) {
        Some(dev)
    } else {
        None
    }
}

// The device that a row's change observations as busy.
fn marked_by_change(plan: &Plan, change: &Change) -> Option<DevId>
    ensures { result ≡ marked_by_change plan.now change.now }
{
    match *change {
        Change::CallbackMarks { dev } => marked_by_callback(plan, dev),
        Change::SuspendEnded { dev, .. } => marked_by_callback(plan, dev),
        Change::MarkBusy { dev } => Some(dev),
        _ => None,
    }
}

// The device that an event observations as busy.
fn marked_by_event(event: &Event) -> Option<DevId>
    ensures { result ≡ marked_by_event event.now }
{
    match *event {
        Event::State {
            dev,
            word: Word::Active,
        } => Some(dev),
        _ => None,
    }
}

// Whether an observation at a time is one that a device hasn't.
fn is_new_observation(plan: &Plan, state: &State, time: u64, dev: DevId) -> bool
    requires is_of { IsOf plan.now state.now }
    requires entries { HasEntries plan.now state.now.world.views }
    ensures { result ≡ is_new_observation state.now.world.views time dev }
{
    (dev.0 as usize) < plan.devices.len() && state.parts().device(dev).last_busy != time
}

// Whether a line with this event and this change leaves a device with another observation.
fn observations(plan: &Plan, state: &State, time: u64, event: &Event, change: &Change) -> bool
    requires is_of { IsOf plan.now state.now }
    requires entries { HasEntries plan.now state.now.world.views }
    ensures { result ≡ observations plan.now state.now.world.views time event.now change.now }
{
    let by_change = match marked_by_change(plan, change) {
        Some(dev) => is_new_observation(plan, state, time, dev),
        None => false,
    };
    let by_event = match marked_by_event(event) {
        Some(dev) => is_new_observation(plan, state, time, dev),
        None => false,
    };
    by_change || by_event
}

// Whether a moment is this one.
fn is_at(time: u64, moment: Option<u64>) -> bool
    ensures { result ≡ is_at time moment }
{
    match moment {
        Some(at) => time == at,
        None => false,
    }
}

// Whether the pace lets a line come at one of its moments.
fn comes(plan: &Plan, state: &State, pace: Pace, last: Last, line: &Line, change: &Change) -> bool
    requires is_of { IsOf plan.now state.now }
    requires stand { AllStandWell plan.now state.now.world }
    requires entries { HasEntries plan.now state.now.world.views }
    requires in_range { IsActor plan.now line.now.actor }
    requires in_time { last.time < 2 ^ 63 }
    ensures { result ≡ comes pace plan.now (snapshot_at state.now.world last) line.now change.now }
{
    match pace {
        Pace::Eager => true,
        Pace::Late => {
            !(last.time < line.time)
                || is_at(line.time, awaits(plan, state, line.actor, last.time))
                || is_at(line.time, tested(plan, state, line.actor))
                || observations(plan, state, line.time, &line.event, change)
        }
    }
}

// The line of an actor at a time, if it is of this kind and the pace lets it come.
fn line_for(
    plan: &Plan,
    state: &State,
    pace: Pace,
    last: Last,
    spends: bool,
    anyone: bool,
    own: bool,
    time: u64,
    actor: ActorId,
    stage: &Stage,
) -> Option<Line>
    requires is_of { IsOf plan.now state.now }
    requires stand { AllStandWell plan.now state.now.world }
    requires entries { HasEntries plan.now state.now.world.views }
    requires in_range { IsActor plan.now actor }
    requires last_in_time { last.time < 2 ^ 63 }
    requires in_time { time < 2 ^ 63 }
    requires anyone { anyone ≡ anyone_may plan.now (snapshot_at state.now.world last) }
    requires own { own ≡ last_may plan.now (snapshot_at state.now.world last) }
    requires stands { stage_at plan.now state.now.world actor ≡ Some stage.now }
    ensures { result ≡ line_for pace plan.now (snapshot_at state.now.world last) spends time actor }
{
    let Move::Write(event, change, _) = state.next(plan, stage, time) else {
        return None;
    };
    let line = Line { time, actor, event };
    if keeps(plan, state, last, spends, anyone, own, &line)
        && comes(plan, state, pace, last, &line, &change)
    {
        Some(line)
    } else {
        None
    }
}

// Puts the lines of an actor at these times at the end.
fn push_at_stage(
    out: &mut Vec<Line>,
    plan: &Plan,
    state: &State,
    pace: Pace,
    last: Last,
    spends: bool,
    anyone: bool,
    own: bool,
    times: &[u64],
    actor: ActorId,
    stage: &Stage,
) -> Result<(), AllocError>
    requires is_of { IsOf plan.now state.now }
    requires stand { AllStandWell plan.now state.now.world }
    requires entries { HasEntries plan.now state.now.world.views }
    requires in_range { IsActor plan.now actor }
    requires last_in_time { last.time < 2 ^ 63 }
    requires in_time { All (λ t. t < 2 ^ 63) times.now }
    requires anyone { anyone ≡ anyone_may plan.now (snapshot_at state.now.world last) }
    requires own { own ≡ last_may plan.now (snapshot_at state.now.world last) }
    requires stands { stage_at plan.now state.now.world actor ≡ Some stage.now }
    ensures { OnOk result (out.new.items ≡ out.old.items ++ filter_map (λ t. line_for pace plan.now (snapshot_at state.now.world last) spends t actor) times.now) }
{
    for time in times {
        if let Some(line) = line_for(
            plan, state, pace, last, spends, anyone, own, *time, actor, stage,
        ) {
            out.push(line)?;
        }
    }
    Ok(())
}

// Puts the lines of an actor at the end, wherever it stands.
fn push_of_actor(
    out: &mut Vec<Line>,
    plan: &Plan,
    state: &State,
    pace: Pace,
    last: Last,
    spends: bool,
    anyone: bool,
    own: bool,
    times: &[u64],
    actor: ActorId,
) -> Result<(), AllocError>
    requires is_of { IsOf plan.now state.now }
    requires stand { AllStandWell plan.now state.now.world }
    requires entries { HasEntries plan.now state.now.world.views }
    requires in_range { IsActor plan.now actor }
    requires last_in_time { last.time < 2 ^ 63 }
    requires in_time { All (λ t. t < 2 ^ 63) times.now }
    requires anyone { anyone ≡ anyone_may plan.now (snapshot_at state.now.world last) }
    requires own { own ≡ last_may plan.now (snapshot_at state.now.world last) }
    ensures { OnOk result (out.new.items ≡ out.old.items ++ filter_map (λ t. line_for pace plan.now (snapshot_at state.now.world last) spends t actor) times.now) }
{
    let Some(stage) = state.stage_at(plan, actor) else {
        return Ok(());
    };
    push_at_stage(
        out, plan, state, pace, last, spends, anyone, own, times, actor, &stage,
    )
}

// Puts the lines of all these actors at the end.
fn push_lines(
    out: &mut Vec<Line>,
    plan: &Plan,
    state: &State,
    pace: Pace,
    last: Last,
    spends: bool,
    anyone: bool,
    own: bool,
    times: &[u64],
    actors: &[ActorId],
) -> Result<(), AllocError>
    requires is_of { IsOf plan.now state.now }
    requires stand { AllStandWell plan.now state.now.world }
    requires entries { HasEntries plan.now state.now.world.views }
    requires in_range { All (IsActor plan.now) actors.now }
    requires last_in_time { last.time < 2 ^ 63 }
    requires in_time { All (λ t. t < 2 ^ 63) times.now }
    requires anyone { anyone ≡ anyone_may plan.now (snapshot_at state.now.world last) }
    requires own { own ≡ last_may plan.now (snapshot_at state.now.world last) }
    ensures { OnOk result (out.new.items ≡ out.old.items ++ flat_map (λ actor. filter_map (λ t. line_for pace plan.now (snapshot_at state.now.world last) spends t actor) times.now) actors.now) }
{
    for actor in actors {
        push_of_actor(
            out, plan, state, pace, last, spends, anyone, own, times, *actor,
        )?;
    }
    Ok(())
}

/// All lines that may come next at a pace where a run stands so, its last line was this one, and each actor stands
/// well, and that preempt, or don't.
pub fn next_lines(
    alloc: Global,
    plan: &Plan,
    state: &State,
    pace: Pace,
    last: Last,
    spends: bool,
    actors: &[ActorId],
) -> Result<Vec<Line>, AllocError>
    requires is_of { IsOf plan.now state.now }
    requires stand { AllStandWell plan.now state.now.world }
    requires entries { HasEntries plan.now state.now.world.views }
    requires places { HasPlaces plan.now state.now.world }
    requires actors { actors.now ≡ all_actors plan.now }
    requires in_range { All (IsActor plan.now) actors.now }
    requires last_in_range { IfSome last.actor (IsActor plan.now) }
    requires last_in_time { last.time < 2 ^ 63 }
    requires in_time { (t : ℕ) → IsMoment pace plan.now (snapshot_at state.now.world last) t → t < 2 ^ 63 }
    ensures { IfOk result (λ out. HasExactly (IsNext pace plan.now (snapshot_at state.now.world last) spends) out.items) }
{
    lines_are_all();
    let mut out = Vec::new(alloc);
    let own = last_may(plan, state, last);
    let anyone = anyone_may(plan, state, last, actors);
    let times = moments_at(alloc, plan, state, pace, last, anyone, actors)?;
    let times = times.as_slice();
    push_lines(
        &mut out, plan, state, pace, last, spends, anyone, own, times, actors,
    )?;
    Ok(out)
}
