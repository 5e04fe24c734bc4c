//! From when an actor may write, by the stage at which it stands.

ghost use Rattle.std.specs.Prelude.{◌≡◌, ◌+◌, ◌<◌, ◌^◌, Some, None, length, option_map, true, if◌then◌else◌};
ghost use Rattle.std.specs.Option.{option_map_or};
ghost use Rattle.pm_device.specs.Parts.{IsFor};
ghost use Rattle.pm_model.specs.PlanRows.{ms_of};
ghost use Rattle.pm_model.specs.Views.{timer};
ghost use Rattle.pm_model.specs.World.{due, ready};
ghost use Rattle.pm_model.specs.WellFormed.{is_well_formed};
ghost use Rattle.pm_model.specs.declared.stage.Stage.TheVariants as the_stage;
ghost use Rattle.pm_state.specs.Seats.{actor_in, seats};
ghost use Rattle.pm_state.specs.Standing.{IsOf, StandsWell};
ghost use Rattle.pm_laws.specs.turns.Wakes.{wakes, wakes_at};

use pm_base::{Cb, DevId};
use pm_device::{Parts, ms_of};
use pm_model::{ControlStage, HelperStage, IdleStage, Plan, ResumeStage, Stage, SuspendStage};
use pm_state::State;

// When a callback that began at this moment ends.
fn ends_at(plan: &Plan, cb: Cb, dev: DevId, since: u64) -> u64
    requires in_range { dev.0 < length plan.now.devices }
    requires reckons { since + ms_of plan.now cb dev < 2 ^ 64 }
    ensures { result ≡ since + ms_of plan.now cb dev }
{
    since + u64::from(ms_of(plan, cb, dev))
}

// The deadline of a timer, and 0 where it isn't armed.
fn deadline(parts: &Parts, dev: DevId) -> u64
    requires { dev.0 < length parts.now.shape.parents }
    ensures { result ≡ option_map_or (λ armed. armed.deadline) (timer parts.now.views dev) 0 }
{
    match parts.timer(dev) {
        Some(armed) => armed.deadline,
        None => 0,
    }
}

// At once, unless the stage blocks.
fn unless(blocks: bool) -> Option<u64>
    ensures { result ≡ (if blocks then None else Some 0) }
{
    if blocks { None } else { Some(0) }
}

// From when the line of a stage of idle may be written.
fn idle_wakes(plan: &Plan, parts: &Parts, stage: &IdleStage) -> Option<u64>
    requires made_for { IsFor plan.now parts.now.shape }
    requires well_formed { is_well_formed plan.now parts.now.views (the_stage.Idle stage.now) ≡ true }
    ensures { result ≡ wakes_at plan.now parts.now.views (the_stage.Idle stage.now) }
{
    match stage {
        IdleStage::Running { dev, since, .. } => Some(ends_at(plan, Cb::Idle, *dev, *since)),
        _ => Some(0),
    }
}

// The same of a stage of suspend.
fn suspend_wakes(plan: &Plan, parts: &Parts, stage: &SuspendStage) -> Option<u64>
    requires made_for { IsFor plan.now parts.now.shape }
    requires well_formed { is_well_formed plan.now parts.now.views (the_stage.Suspend stage.now) ≡ true }
    ensures { result ≡ wakes_at plan.now parts.now.views (the_stage.Suspend stage.now) }
{
    match stage {
        SuspendStage::Running { dev, since, .. } => Some(ends_at(plan, Cb::Suspend, *dev, *since)),
        SuspendStage::Waiting { dev, .. } => unless(parts.is_moving(*dev)),
        _ => Some(0),
    }
}

// The same of a stage of resume.
fn resume_wakes(plan: &Plan, parts: &Parts, stage: &ResumeStage) -> Option<u64>
    requires made_for { IsFor plan.now parts.now.shape }
    requires well_formed { is_well_formed plan.now parts.now.views (the_stage.Resume stage.now) ≡ true }
    ensures { result ≡ wakes_at plan.now parts.now.views (the_stage.Resume stage.now) }
{
    match stage {
        ResumeStage::Running { call, since } => Some(ends_at(plan, Cb::Resume, call.dev, *since)),
        ResumeStage::Waiting { call, .. } => unless(parts.is_moving(call.dev)),
        _ => Some(0),
    }
}

// The same of a stage of a helper, of a work item or of a timer.
fn helper_wakes(plan: &Plan, parts: &Parts, stage: &HelperStage) -> Option<u64>
    requires made_for { IsFor plan.now parts.now.shape }
    requires well_formed { is_well_formed plan.now parts.now.views (the_stage.Helper stage.now) ≡ true }
    ensures { result ≡ wakes_at plan.now parts.now.views (the_stage.Helper stage.now) }
{
    match stage {
        HelperStage::Timer { dev } => Some(deadline(parts, *dev)),
        HelperStage::Delay { ms, since } => Some(*since + ms.unsigned_abs()),
        _ => Some(0),
    }
}

// The same of a stage of a control function.
fn control_wakes(plan: &Plan, parts: &Parts, stage: &ControlStage) -> Option<u64>
    requires made_for { IsFor plan.now parts.now.shape }
    requires well_formed { is_well_formed plan.now parts.now.views (the_stage.Control stage.now) ≡ true }
    ensures { result ≡ wakes_at plan.now parts.now.views (the_stage.Control stage.now) }
{
    match stage {
        ControlStage::Disabled { dev } | ControlStage::BarrierWait { dev, .. } => {
            unless(parts.busy(*dev))
        }
        _ => Some(0),
    }
}

// The same of a stage of any group; `None` where it blocks or awaits a call.
#[inline(always)]
fn stage_wakes(plan: &Plan, parts: &Parts, stage: &Stage) -> Option<u64>
    requires made_for { IsFor plan.now parts.now.shape }
    requires well_formed { is_well_formed plan.now parts.now.views stage.now ≡ true }
    ensures { result ≡ wakes_at plan.now parts.now.views stage.now }
{
    match stage {
        Stage::Idle(stage) => idle_wakes(plan, parts, stage),
        Stage::Suspend(stage) => suspend_wakes(plan, parts, stage),
        Stage::Resume(stage) => resume_wakes(plan, parts, stage),
        Stage::Helper(stage) => helper_wakes(plan, parts, stage),
        Stage::Control(stage) => control_wakes(plan, parts, stage),
        Stage::Await(_) => None,
    }
}

// The same, out of line: work items and timers mostly rest, and then it isn't asked.
#[inline(never)]
fn stage_wakes_apart(plan: &Plan, parts: &Parts, stage: &Stage) -> Option<u64>
    requires made_for { IsFor plan.now parts.now.shape }
    requires well_formed { is_well_formed plan.now parts.now.views stage.now ≡ true }
    ensures { result ≡ wakes_at plan.now parts.now.views stage.now }
{
    stage_wakes(plan, parts, stage)
}

// From when the actor at a seat, whose place is empty, may start, if it has something to start.
#[inline(never)]
fn starts(plan: &Plan, state: &State, seat: usize) -> Option<u64>
    requires is_of { IsOf plan.now state.now }
    requires in_range { seat < seats plan.now }
    ensures { result ≡ option_map (due plan.now state.now.world.views) (ready plan.now state.now.world (actor_in plan.now seat)) }
{
    state.ready_from(plan, state.actor(plan, seat))
}

/// From when the actor at a seat may write, in milliseconds of the run, as things stand; `None` where it rests or
/// waits. No move is made to learn it.
#[tactic(auto, using(crate::proofs::WakeLemmas::well_at, crate::proofs::WakeLemmas::stage_wakes, crate::proofs::WakeLemmas::start_wakes))]
#[inline(always)]
pub fn wakes(plan: &Plan, state: &State, seat: usize) -> Option<u64>
    requires is_of { IsOf plan.now state.now }
    requires in_range { seat < seats plan.now }
    requires stands { StandsWell plan.now state.now.world (actor_in plan.now seat) }
    ensures { result ≡ wakes plan.now state.now.world (actor_in plan.now seat) }
{
    match state.top_at(plan, seat) {
        Some(stage) => stage_wakes(plan, state.parts(), stage),
        None => starts(plan, state, seat),
    }
}

/// The same of an actor that mostly rests, as work items and timers do: what is left to ask of it then is
/// little, and inlined.
#[tactic(auto, using(crate::proofs::WakeLemmas::well_at, crate::proofs::WakeLemmas::stage_wakes, crate::proofs::WakeLemmas::start_wakes))]
#[inline(always)]
pub fn rests_or_wakes(plan: &Plan, state: &State, seat: usize) -> Option<u64>
    requires is_of { IsOf plan.now state.now }
    requires in_range { seat < seats plan.now }
    requires stands { StandsWell plan.now state.now.world (actor_in plan.now seat) }
    ensures { result ≡ wakes plan.now state.now.world (actor_in plan.now seat) }
{
    match state.top_at(plan, seat) {
        Some(stage) => stage_wakes_apart(plan, state.parts(), stage),
        None => starts(plan, state, seat),
    }
}
