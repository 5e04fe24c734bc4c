//! At which moments lines may come.

ghost use Rattle.std.specs.Prelude.{ℕ, ◌≡◌, ◌<◌, ◌^◌, IfOk, List, OnOk, [], map};
ghost use Rattle.std.specs.List.{All, cons_option, enumerate_from, filter_map};
ghost use Rattle.std.specs.Option.{option_and_then};
ghost use Rattle.pm_model.specs.Derived.{expiry};
ghost use Rattle.pm_model.specs.Serial.{late_moment, least, move_at};
ghost use Rattle.pm_explore.specs.declared.schedule.Pace.TheVariants.{Late, Eager};
ghost use Rattle.pm_explore.specs.schedule.Snapshots.{all_actors, anyone_may, due_moment, prompt_time};
ghost use Rattle.pm_explore.specs.search.Exact.{HasExactly};
ghost use Rattle.pm_state.specs.Standing.{AllStandWell, IsActor, IsOf};
ghost use Rattle.pm_explore.specs.successors.Lines.{IsMoment};
ghost use Rattle.pm_explore.specs.successors.Moments.{AreWith};
ghost use Rattle.pm_explore.specs.successors.Standing.{snapshot_at};

use crate::schedule::Pace;
use crate::successors::moves::{Last, awaits};
use pm_base::{ActorId, DevId};
use pm_model::Plan;
use pm_state::State;
use std::alloc::{AllocError, Global};

// The earlier of a moment and the least of others, of which each may be missing.
fn earlier(at: Option<u64>, later: Option<u64>) -> Option<u64>
    ensures { (xs : List ℕ) → later ≡ least xs → result ≡ least (cons_option at xs) }
{
    let Some(at) = at else {
        return later;
    };
    match later {
        Some(other) => Some(at.min(other)),
        None => Some(at),
    }
}

// The least moment that any of these actors' lines only awaits.
fn least_due(plan: &Plan, state: &State, time: u64, actors: &[ActorId]) -> Option<u64>
    requires is_of { IsOf plan.now state.now }
    requires stand { AllStandWell plan.now state.now.world }
    requires in_range { All (IsActor plan.now) actors.now }
    requires in_time { time < 2 ^ 63 }
    ensures { result ≡ least (filter_map (λ actor. option_and_then late_moment (move_at plan.now state.now.world time actor)) actors.now) }
{
    let mut least = None;
    let mut left = actors.len();
    while left > 0 {
        left -= 1;
        let at = awaits(plan, state, actors[left], time);
        least = earlier(at, least);
    }
    least
}

// When the next line is written at an eager pace.
fn prompt_time(
    plan: &Plan,
    state: &State,
    last: Last,
    anyone: bool,
    actors: &[ActorId],
) -> Option<u64>
    requires is_of { IsOf plan.now state.now }
    requires stand { AllStandWell plan.now state.now.world }
    requires actors { actors.now ≡ all_actors plan.now }
    requires in_range { All (IsActor plan.now) actors.now }
    requires in_time { last.time < 2 ^ 63 }
    requires anyone { anyone ≡ anyone_may plan.now (snapshot_at state.now.world last) }
    ensures { result ≡ prompt_time plan.now (snapshot_at state.now.world last) }
{
    if anyone {
        Some(last.time)
    } else {
        least_due(plan, state, last.time, actors)
    }
}

// The moment at which lines may come at an eager pace, if there is one.
fn prompt_moments(
    alloc: Global,
    plan: &Plan,
    state: &State,
    last: Last,
    anyone: bool,
    actors: &[ActorId],
) -> Result<Vec<u64>, AllocError>
    requires is_of { IsOf plan.now state.now }
    requires stand { AllStandWell plan.now state.now.world }
    requires actors { actors.now ≡ all_actors plan.now }
    requires in_range { All (IsActor plan.now) actors.now }
    requires in_time { last.time < 2 ^ 63 }
    requires anyone { anyone ≡ anyone_may plan.now (snapshot_at state.now.world last) }
    ensures { IfOk result (λ out. HasExactly (IsMoment Eager plan.now (snapshot_at state.now.world last)) out.items) }
{
    let mut out = Vec::new(alloc);
    if let Some(time) = prompt_time(plan, state, last, anyone, actors) {
        out.push(time)?;
    }
    Ok(out)
}

// Notes a moment that is later than a time, unless it is there.
fn push_moment(out: &mut Vec<u64>, from: u64, at: Option<u64>) -> Result<(), AllocError>
    ensures { OnOk result (AreWith from out.old.items (cons_option at []) out.new.items) }
{
    if let Some(at) = at
        && from < at
        && !out.as_slice().contains(&at)
    {
        out.push(at)?;
    }
    Ok(())
}

// Notes the moments that these actors' lines only await.
fn push_due(
    out: &mut Vec<u64>,
    plan: &Plan,
    state: &State,
    last: Last,
    actors: &[ActorId],
) -> Result<(), AllocError>
    requires is_of { IsOf plan.now state.now }
    requires stand { AllStandWell plan.now state.now.world }
    requires in_range { All (IsActor plan.now) actors.now }
    requires in_time { last.time < 2 ^ 63 }
    ensures { OnOk result (AreWith last.time out.old.items (filter_map (due_moment plan.now (snapshot_at state.now.world last)) actors.now) out.new.items) }
{
    for actor in actors {
        push_moment(out, last.time, awaits(plan, state, *actor, last.time))?;
    }
    Ok(())
}

// Notes the expiries of the devices.
fn push_expiries(
    out: &mut Vec<u64>,
    plan: &Plan,
    state: &State,
    last: Last,
) -> Result<(), AllocError>
    requires is_of { IsOf plan.now state.now }
    ensures { OnOk result (AreWith last.time out.old.items (filter_map (λ p. expiry state.now.world.views (record { 0 = p.0 })) (enumerate_from 0 plan.now.devices)) out.new.items) }
{
    for dev in 0..plan.devices.len() {
        push_moment(out, last.time, state.parts().expiry(DevId(dev as u32)))?;
    }
    Ok(())
}

// The moments at which lines may come at a late pace, each once.
fn late_moments(
    alloc: Global,
    plan: &Plan,
    state: &State,
    last: Last,
    actors: &[ActorId],
) -> Result<Vec<u64>, AllocError>
    requires is_of { IsOf plan.now state.now }
    requires stand { AllStandWell plan.now state.now.world }
    requires actors { actors.now ≡ all_actors plan.now }
    requires in_range { All (IsActor plan.now) actors.now }
    requires in_time { last.time < 2 ^ 63 }
    ensures { IfOk result (λ out. HasExactly (IsMoment Late plan.now (snapshot_at state.now.world last)) out.items) }
{
    let mut out = Vec::new(alloc);
    out.push(last.time)?;
    push_due(&mut out, plan, state, last, actors)?;
    push_expiries(&mut out, plan, state, last)?;
    Ok(out)
}

/// The moments at which lines may come at a pace, each once.
pub fn moments_at(
    alloc: Global,
    plan: &Plan,
    state: &State,
    pace: Pace,
    last: Last,
    anyone: bool,
    actors: &[ActorId],
) -> Result<Vec<u64>, AllocError>
    requires is_of { IsOf plan.now state.now }
    requires stand { AllStandWell plan.now state.now.world }
    requires actors { actors.now ≡ all_actors plan.now }
    requires in_range { All (IsActor plan.now) actors.now }
    requires in_time { last.time < 2 ^ 63 }
    requires anyone { anyone ≡ anyone_may plan.now (snapshot_at state.now.world last) }
    ensures { IfOk result (λ out. HasExactly (IsMoment pace plan.now (snapshot_at state.now.world last)) out.items) }
{
    match pace {
        Pace::Eager => prompt_moments(alloc, plan, state, last, anyone, actors),
        Pace::Late => late_moments(alloc, plan, state, last, actors),
    }
}
