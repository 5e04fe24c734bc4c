//! Whether each actor may go on where it stands.

ghost use Rattle.std.specs.Prelude.{◌≡◌, ◌<◌, true, length};
ghost use Rattle.std.specs.List.{All};
ghost use Rattle.pm_device.specs.Parts.{IsFor};
ghost use Rattle.pm_laws.specs.counts.Sizes.{HasEntries, HasPlaces};
ghost use Rattle.pm_model.specs.IsPlan.{is_command, is_operand, least_ms};
ghost use Rattle.std.specs.Option.{option_map_or};
ghost use Rattle.pm_model.specs.PlanRows.{has_parent};
ghost use Rattle.pm_model.specs.WellFormed.{can_tell, can_tell_helper, has_begun, is_in};
ghost use Rattle.pm_explore.specs.schedule.Snapshots.{all_actors};
ghost use Rattle.pm_state.specs.Standing.{AllStandWell, IsActor, IsOf, StandsWell, can_go_on, is_awake};

use pm_base::{ActorId, Cb, DevId};
use pm_device::{Parts, has_parent, ms_of};
use pm_linetext::{operand_of, takes_device};
use pm_model::{
    Command, ControlStage, Helper, HelperStage, IdleStage, Operand, Plan, ResumeStage, Stage,
    SuspendStage,
};
use pm_state::{State, device_of};

// The least number of milliseconds that a helper takes.
fn least_ms(helper: Helper) -> i64
    ensures { result ≡ least_ms helper }
{
    match helper {
        Helper::SetAutosuspendDelay => -1_000_000,
        _ => 0,
    }
}

// Whether a number is one that a helper takes, over so many devices.
fn is_operand(devices: usize, helper: Helper, operand: Operand, number: i64) -> bool
    ensures { result ≡ is_operand devices helper operand number }
{
    match operand {
        Operand::Nothing => number == 0,
        Operand::Milliseconds => least_ms(helper) <= number && number <= 1_000_000,
        Operand::Switch => number == 0 || number == 1,
        Operand::Supplier => 0 <= number && number.unsigned_abs() < devices as u64,
    }
}

// Whether a command is one over so many devices.
fn is_command(devices: usize, command: &Command) -> bool
    ensures { result ≡ is_command devices command.now }
{
    let named = if takes_device(command.helper) {
        (command.dev.0 as usize) < devices
    } else {
        command.dev.0 == 0
    };
    named
        && is_operand(
            devices,
            command.helper,
            operand_of(command.helper),
            command.number,
        )
}

// Whether a callback that runs since this moment has begun, and ends at a moment.
fn has_begun(plan: &Plan, parts: &Parts, cb: Cb, dev: DevId, since: u64) -> bool
    requires { IsFor plan.now parts.now.shape }
    ensures { result ≡ true → has_begun plan.now parts.now.views cb dev since ≡ true }
{
    if dev.0 as usize >= plan.devices.len() {
        return false;
    }
    let ms = ms_of(plan, cb, dev) as u64;
    parts.begun(dev, cb) > 0 && since.checked_add(ms).is_some()
}

// Whether a device has a parent.
fn is_child(plan: &Plan, dev: DevId) -> bool
    ensures { result ≡ true → has_parent plan.now dev ≡ true }
{
    (dev.0 as usize) < plan.devices.len() && has_parent(plan, dev)
}

fn can_tell_helper(devices: usize, stage: &HelperStage) -> bool
    ensures { result ≡ true → can_tell_helper devices stage.now ≡ true }
{
    match stage {
        HelperStage::Call { command } => is_command(devices, command),
        HelperStage::Start { command } => is_command(devices, command),
        HelperStage::PutSuspends { command } => is_command(devices, command),
        HelperStage::Delay { ms, since } => {
            *ms >= 0 && since.checked_add(ms.unsigned_abs()).is_some()
        }
        _ => true,
    }
}

// Whether the line of a stage can be told.
fn can_tell(plan: &Plan, parts: &Parts, stage: &Stage) -> bool
    requires { IsFor plan.now parts.now.shape }
    ensures { result ≡ true → can_tell plan.now parts.now.views stage.now ≡ true }
{
    match stage {
        Stage::Idle(IdleStage::Running { dev, since, .. }) => {
            has_begun(plan, parts, Cb::Idle, *dev, *since)
        }
        Stage::Suspend(SuspendStage::Running { dev, since, .. }) => {
            has_begun(plan, parts, Cb::Suspend, *dev, *since)
        }
        Stage::Resume(ResumeStage::Running { call, since }) => {
            has_begun(plan, parts, Cb::Resume, call.dev, *since)
        }
        Stage::Resume(ResumeStage::Parent { call, .. }) => call.held && is_child(plan, call.dev),
        Stage::Helper(stage) => can_tell_helper(plan.devices.len(), stage),
        Stage::Control(ControlStage::Start { command }) => is_command(plan.devices.len(), command),
        _ => true,
    }
}

// Whether the device of a stage is one of the plan's.
fn is_in_plan(plan: &Plan, dev: Option<DevId>) -> bool
    ensures { result ≡ option_map_or (is_in (length plan.now.devices)) dev true }
{
    match dev {
        Some(dev) => (dev.0 as usize) < plan.devices.len(),
        None => true,
    }
}

fn is_awake(stage: &Stage) -> bool
    ensures { result ≡ is_awake stage.now }
{
    !matches!(stage, Stage::Await(_))
}

// Whether an actor may go on at a stage.
fn can_go_on(plan: &Plan, parts: &Parts, stage: &Stage) -> bool
    requires { IsFor plan.now parts.now.shape }
    ensures { result ≡ true → can_go_on plan.now parts.now.views stage.now ≡ true }
{
    is_in_plan(plan, device_of(stage)) && can_tell(plan, parts, stage) && is_awake(stage)
}

// Whether an actor may go on where it stands.
fn stands_well(plan: &Plan, state: &State, actor: ActorId) -> bool
    requires is_of { IsOf plan.now state.now }
    requires in_range { IsActor plan.now actor }
    ensures { result ≡ true → StandsWell plan.now state.now.world actor }
{
    match state.stage_at(plan, actor) {
        Some(stage) => can_go_on(plan, state.parts(), &stage),
        None => true,
    }
}

// Whether all of these may.
#[tactic(auto, using(crate::proofs::ListLemmas::all_more, crate::proofs::ListLemmas::all_whole))]
fn stand_well(plan: &Plan, state: &State, actors: &[ActorId]) -> bool
    requires is_of { IsOf plan.now state.now }
    requires in_range { All (IsActor plan.now) actors.now }
    ensures { result ≡ true → All (StandsWell plan.now state.now.world) actors.now }
{
    for actor in actors {
        if !stands_well(plan, state, *actor) {
            return false;
        }
    }
    true
}

/// Whether each actor of the plan may go on where it stands.
pub fn all_stand(plan: &Plan, state: &State, actors: &[ActorId]) -> bool
    requires is_of { IsOf plan.now state.now }
    requires entries { HasEntries plan.now state.now.world.views }
    requires places { HasPlaces plan.now state.now.world }
    requires actors { actors.now ≡ all_actors plan.now }
    ensures { result ≡ true → AllStandWell plan.now state.now.world }
{
    stand_well(plan, state, actors)
}
