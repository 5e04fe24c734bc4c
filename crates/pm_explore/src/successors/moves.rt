//! What the actors may do, where a run stands.

ghost use Rattle.std.specs.Prelude.{◌≡◌, ◌<◌, ◌^◌, IfSome, false};
ghost use Rattle.std.specs.List.{All, list_any};
ghost use Rattle.std.specs.Option.{option_and_then, option_map_or};
ghost use Rattle.pm_model.specs.Promises.{is_actor};
ghost use Rattle.pm_model.specs.Serial.{late_moment, may_write, move_at};
ghost use Rattle.pm_explore.specs.schedule.Snapshots.{all_actors, anyone_may, expiry_at, last_may};
ghost use Rattle.pm_model.specs.World.{stage_at};
ghost use Rattle.pm_state.specs.Standing.{AllStandWell, IsActor, IsOf};
ghost use Rattle.pm_explore.specs.successors.Standing.{snapshot_at};

use pm_base::ActorId;
use pm_model::{Move, Plan, Stage, SuspendStage};
use pm_state::State;

/// What decides, beside where a run stands, how it goes on and what shows there.
#[derive(Clone, Copy)]
pub struct Last {
    /// When the last line was written, 0 before any.
    pub time: u64,
    /// Who wrote it.
    pub actor: Option<ActorId>,
    /// What it returned to a caller.
    pub code: Option<i32>,
}

/// What an actor may do at a time.
pub fn move_of(plan: &Plan, state: &State, actor: ActorId, time: u64) -> Option<Move>
    requires is_of { IsOf plan.now state.now }
    requires stand { AllStandWell plan.now state.now.world }
    requires in_range { IsActor plan.now actor }
    requires in_time { time < 2 ^ 63 }
    ensures { result ≡ move_at plan.now state.now.world time actor }
{
    let stage = state.stage_at(plan, actor)?;
    Some(state.next(plan, &stage, time))
}

// Whether an actor may write.
fn may(plan: &Plan, state: &State, actor: ActorId, time: u64) -> bool
    requires is_of { IsOf plan.now state.now }
    requires stand { AllStandWell plan.now state.now.world }
    requires in_range { IsActor plan.now actor }
    requires in_time { time < 2 ^ 63 }
    ensures { result ≡ may_write plan.now state.now.world time actor }
{
    matches!(
        move_of(plan, state, actor, time),
        Some(Move::Write(_, _, _))
    )
}

/// The moment that an actor's line only awaits.
pub fn awaits(plan: &Plan, state: &State, actor: ActorId, time: u64) -> Option<u64>
    requires is_of { IsOf plan.now state.now }
    requires stand { AllStandWell plan.now state.now.world }
    requires in_range { IsActor plan.now actor }
    requires in_time { time < 2 ^ 63 }
    ensures { result ≡ option_and_then late_moment (move_at plan.now state.now.world time actor) }
{
    match move_of(plan, state, actor, time)? {
        Move::Late(at) => Some(at),
        _ => None,
    }
}

/// The expiry that the tests compare with the time, where an actor is about to suspend a device.
pub fn tested(plan: &Plan, state: &State, actor: ActorId) -> Option<u64>
    requires is_of { IsOf plan.now state.now }
    requires stand { AllStandWell plan.now state.now.world }
    requires in_range { IsActor plan.now actor }
    ensures { result ≡ option_and_then (expiry_at state.now.world.views) (stage_at plan.now state.now.world actor) }
{
    match state.stage_at(plan, actor)? {
        Stage::Suspend(SuspendStage::Verdict { dev, .. }) => state.parts().expiry(dev),
        Stage::Suspend(SuspendStage::Waiting { dev, .. }) => state.parts().expiry(dev),
        _ => None,
    }
}

// Whether any of these actors may write.
fn any_may(plan: &Plan, state: &State, time: u64, actors: &[ActorId]) -> bool
    requires is_of { IsOf plan.now state.now }
    requires stand { AllStandWell plan.now state.now.world }
    requires in_range { All (IsActor plan.now) actors.now }
    requires in_time { time < 2 ^ 63 }
    ensures { result ≡ list_any (may_write plan.now state.now.world time) actors.now }
{
    for actor in actors {
        if may(plan, state, *actor, time) {
            return true;
        }
    }
    false
}

/// Whether this is who wrote the last line.
pub fn wrote(who: Option<ActorId>, actor: ActorId) -> bool
    ensures { result ≡ option_map_or (is_actor actor) who false }
{
    match who {
        Some(ActorId::Caller(other)) => matches!(actor, ActorId::Caller(own) if own == other),
        Some(ActorId::Work(other)) => matches!(actor, ActorId::Work(own) if own == other),
        Some(ActorId::Timer(other)) => matches!(actor, ActorId::Timer(own) if own == other),
        None => false,
    }
}

/// Whether who wrote the last line may write now.
pub fn last_may(plan: &Plan, state: &State, last: Last) -> bool
    requires is_of { IsOf plan.now state.now }
    requires stand { AllStandWell plan.now state.now.world }
    requires in_range { IfSome last.actor (IsActor plan.now) }
    requires in_time { last.time < 2 ^ 63 }
    ensures { result ≡ last_may plan.now (snapshot_at state.now.world last) }
{
    match last.actor {
        Some(actor) => may(plan, state, actor, last.time),
        None => false,
    }
}

/// Whether anybody may write now.
pub fn anyone_may(plan: &Plan, state: &State, last: Last, actors: &[ActorId]) -> bool
    requires is_of { IsOf plan.now state.now }
    requires stand { AllStandWell plan.now state.now.world }
    requires actors { actors.now ≡ all_actors plan.now }
    requires in_range { All (IsActor plan.now) actors.now }
    requires in_time { last.time < 2 ^ 63 }
    ensures { result ≡ anyone_may plan.now (snapshot_at state.now.world last) }
{
    any_may(plan, state, last.time, actors)
}
