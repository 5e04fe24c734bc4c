//! Whether the moments at which the next line may come are ones that a run can reckon with.

ghost use Rattle.std.specs.Prelude.{ℕ, ◌≡◌, ◌<◌, ◌^◌, IfSome, length, true};
ghost use Rattle.std.specs.List.{All};
ghost use Rattle.std.specs.Option.{option_and_then};
ghost use Rattle.pm_laws.specs.counts.Sizes.{HasEntries, HasPlaces};
ghost use Rattle.pm_model.specs.declared.event.Line.{Line as ALine};
ghost use Rattle.pm_driver_search.specs.Standing.{IsSoon};
ghost use Rattle.pm_model.specs.Derived.{expiry};
ghost use Rattle.pm_model.specs.Serial.{late_moment, move_at};
ghost use Rattle.pm_explore.specs.declared.schedule.Pace.{Pace as APace};
ghost use Rattle.pm_explore.specs.schedule.Snapshots.{all_actors};
ghost use Rattle.pm_explore.specs.successors.Lines.{IsMoment};
ghost use Rattle.pm_explore.specs.successors.Standing.{snapshot_at};
ghost use Rattle.pm_state.specs.Standing.{AllStandWell, IsActor, IsOf};

use pm_base::{ActorId, DevId};
use pm_explore::successors::Last;
use pm_model::{Move, Plan};
use pm_state::State;

const END: u64 = 1 << 63;

fn is_early(moment: Option<u64>) -> bool
    ensures { result ≡ true → IfSome moment (λ t. t < 2 ^ 63) }
{
    match moment {
        Some(moment) => moment < END,
        None => true,
    }
}

// The moment that an actor's line only awaits.
fn late_at(plan: &Plan, state: &State, actor: ActorId, time: u64) -> Option<u64>
    requires is_of { IsOf plan.now state.now }
    requires stand { AllStandWell plan.now state.now.world }
    requires in_range { IsActor plan.now actor }
    requires in_time { time < 2 ^ 63 }
    ensures { result ≡ option_and_then late_moment (move_at plan.now state.now.world time actor) }
{
    let stage = state.stage_at(plan, actor)?;
    match state.next(plan, &stage, time) {
        Move::Late(at) => Some(at),
        _ => None,
    }
}

// Whether the moments that these actors' lines only await are early.
#[tactic(auto, using(crate::proofs::ListLemmas::all_more, crate::proofs::ListLemmas::all_whole))]
fn are_due_early(plan: &Plan, state: &State, time: u64, actors: &[ActorId]) -> bool
    requires is_of { IsOf plan.now state.now }
    requires stand { AllStandWell plan.now state.now.world }
    requires in_range { All (IsActor plan.now) actors.now }
    requires in_time { time < 2 ^ 63 }
    ensures { result ≡ true → All (λ actor. IfSome (option_and_then late_moment (move_at plan.now state.now.world time actor)) (λ t. t < 2 ^ 63)) actors.now }
{
    for actor in actors {
        if !is_early(late_at(plan, state, *actor, time)) {
            return false;
        }
    }
    true
}

// Whether the expiries of the devices are early.
fn expire_early(plan: &Plan, state: &State) -> bool
    requires is_of { IsOf plan.now state.now }
    ensures { result ≡ true → (d : ℕ) → d < length plan.now.devices → IfSome (expiry state.now.world.views (record { 0 = d })) (λ t. t < 2 ^ 63) }
{
    for dev in 0..plan.devices.len() {
        if !is_early(state.parts().expiry(DevId(dev as u32))) {
            return false;
        }
    }
    true
}

/// Whether each moment at which the next line may come is below 2^63 milliseconds of the run.
pub fn are_early(plan: &Plan, state: &State, last: Last, actors: &[ActorId]) -> bool
    requires is_of { IsOf plan.now state.now }
    requires stand { AllStandWell plan.now state.now.world }
    requires actors { actors.now ≡ all_actors plan.now }
    requires in_range { All (IsActor plan.now) actors.now }
    requires entries { HasEntries plan.now state.now.world.views }
    requires places { HasPlaces plan.now state.now.world }
    requires in_time { last.time < 2 ^ 63 }
    ensures moments { result ≡ true → (pace : APace) (t : ℕ) → IsMoment pace plan.now (snapshot_at state.now.world last) t → t < 2 ^ 63 }
    ensures lines { result ≡ true → (line : ALine) → IsSoon plan.now (snapshot_at state.now.world last) line }
{
    are_due_early(plan, state, last.time, actors) && expire_early(plan, state)
}
