//! The lines of the control functions (`runtime_pm.rst`, sections 4, 5 and 9) and of the topology
//! helpers, which are this project's own.
#![tactic(auto)]

ghost use Rattle.std.specs.Prelude.{◌≡◌, ◌<◌, ◌≤◌, ◌^◌, length, nat_abs, true};
ghost use Rattle.pm_base.specs.declared.limits.TheConstants.{MAX_MS};
ghost use Rattle.pm_model.specs.declared.event.Event.TheVariants as event;
ghost use Rattle.pm_model.specs.declared.event.Helper.TheVariants as helper;
ghost use Rattle.pm_model.specs.declared.stage.Change.TheVariants as change;
ghost use Rattle.pm_model.specs.declared.stage.Move.TheVariants as move;
ghost use Rattle.pm_model.specs.declared.stage.Stage.TheVariants as the_stage;
ghost use Rattle.pm_model.specs.ControlTable.{control_row, control_starts, control_goes};
ghost use Rattle.pm_model.specs.IsPlan.{is_command};
ghost use Rattle.pm_model.specs.Row.{move_of, timed};
ghost use Rattle.pm_model.specs.WellFormed.{is_well_formed};
ghost use Rattle.pm_model.specs.World.{due};
ghost use Rattle.pm_device.specs.Parts.{IsFor};

mod active;
mod barrier;
mod disable;
mod setting;
mod topology;

use pm_base::{DevId, Why};
use pm_device::{Parts, added, goes, helper_returns, removed};
use pm_model::{Change, Command, ControlStage, Event, Helper, Move, Plan, Stage, Then, Word};

// A stage of a control function takes the place.
fn control_goes(stage: ControlStage) -> Then
    ensures { result ≡ control_goes stage }
{
    goes(Stage::Control(stage))
}

// A count is taken for this reason.
fn takes(dev: DevId, why: Why, change: Change, then: Then) -> Move
    ensures { result ≡ move.Write (event.Get dev why) change then }
{
    Move::Write(Event::Get { dev, why }, change, then)
}

// A count that was taken for this reason is given back.
fn gives(dev: DevId, why: Why, change: Change, then: Then) -> Move
    ensures { result ≡ move.Write (event.Put dev why) change then }
{
    Move::Write(Event::Put { dev, why }, change, then)
}

// The status line.
fn writes_status(dev: DevId, word: Word, then: Then) -> Move
    ensures { result ≡ move.Write (event.State dev word) change.Same then }
{
    Move::Write(Event::State { dev, word }, Change::Same, then)
}

// The milliseconds of `schedule_suspend`.
fn milliseconds(plan: &Plan, command: Command) -> u64
    requires command { is_command (length plan.now.devices) command ≡ true }
    requires helper { command.helper ≡ helper.ScheduleSuspend }
    ensures number { result ≡ nat_abs command.number }
    ensures most { result ≤ MAX_MS }
{
    command.number.unsigned_abs()
}

// The line after the call line.
#[tactic(auto, unfolding(pm_model::specs::ControlTable::control_starts))]
fn starts(plan: &Plan, parts: &Parts, command: Command, time: u64) -> Move
    requires made_for { IsFor plan.now parts.now.shape }
    requires in_range { command.dev.0 < length plan.now.devices }
    requires command { is_command (length plan.now.devices) command ≡ true }
    requires in_time { time < 2 ^ 63 }
    ensures { result ≡ move_of (control_starts plan.now parts.now.views command time) }
{
    let Command {
        helper,
        dev,
        number,
    } = command;
    let device = parts.device(dev);
    match helper {
        Helper::ScheduleSuspend => {
            let ms = milliseconds(plan, command);
            setting::schedules(plan, parts, dev, ms, time)
        }
        Helper::Enable => disable::enabling(parts, dev),
        Helper::Disable => disable::disable_starts(parts, dev),
        Helper::Barrier => {
            takes(
                dev,
                Why::Control,
                Change::Same,
                control_goes(ControlStage::BarrierResume { dev }),
            )
        }
        Helper::SetActive => active::active_starts(plan, parts, dev),
        Helper::SetSuspended => active::suspended_starts(parts, dev),
        Helper::Allow => setting::allowing(parts, dev),
        Helper::Forbid => setting::forbidding(parts, dev),
        Helper::UseAutosuspend => setting::sets(parts, helper, dev, true, device.delay),
        Helper::DontUseAutosuspend => setting::sets(parts, helper, dev, false, device.delay),
        Helper::SetAutosuspendDelay => {
            setting::sets(parts, helper, dev, device.use_auto, number)
        }
        Helper::LinkAdd => topology::link_adds(plan, parts, dev, added(plan, command)),
        Helper::LinkDel => topology::link_dels(plan, parts, dev, removed(plan, command)),
        Helper::MarkLastBusy => helper_returns(helper, dev, 0, Change::MarkBusy { dev }),
        Helper::IgnoreChildren => helper_returns(
            helper,
            dev,
            0,
            Change::Ignore {
                dev,
                ignores: number != 0,
            },
        ),
        _ => helper_returns(helper, dev, 0, Change::Same),
    }
}

// The only move at a stage of a control function.
fn move_at(plan: &Plan, parts: &Parts, stage: ControlStage, time: u64) -> Move
    requires made_for { IsFor plan.now parts.now.shape }
    requires well_formed { is_well_formed plan.now parts.now.views (the_stage.Control stage) ≡ true }
    requires in_time { time < 2 ^ 63 }
    ensures { result ≡ timed (due plan.now parts.now.views (the_stage.Control stage)) time (control_row plan.now parts.now.views stage time) }
{
    match stage {
        ControlStage::Start { command } => starts(plan, parts, command, time),
        ControlStage::DisablePut { dev } => {
            gives(
                dev,
                Why::Control,
                Change::Same,
                control_goes(ControlStage::Disable { dev }),
            )
        }
        ControlStage::Disable { dev } => disable::disabling(parts, dev),
        ControlStage::Disabled { dev } => disable::disable_ends(parts, dev),
        ControlStage::BarrierResume { dev } => barrier::barrier_resumes(plan, parts, dev),
        ControlStage::BarrierIdle { dev, code } => barrier::barrier_idles(parts, dev, code),
        ControlStage::BarrierWait { dev, code } => barrier::barrier_ends(parts, dev, code),
        ControlStage::ActiveLinks { dev } => active::active_links(plan, parts, dev),
        ControlStage::ActiveUnwind { dev, code } => {
            active::active_unwinds(plan, parts, dev, code)
        }
        ControlStage::SuppliersIdle { dev, last } => {
            active::suppliers_idle(plan, parts, dev, last)
        }
    }
}

/// The only move at a stage of a control function: its line, with what takes the stage's place; or the
/// device for which it waits. `time` is in milliseconds of the run. It takes no memory.
pub fn next(plan: &Plan, parts: &Parts, stage: ControlStage, time: u64) -> Move
    requires made_for { IsFor plan.now parts.now.shape }
    requires well_formed { is_well_formed plan.now parts.now.views (the_stage.Control stage) ≡ true }
    requires in_time { time < 2 ^ 63 }
    ensures { result ≡ timed (due plan.now parts.now.views (the_stage.Control stage)) time (control_row plan.now parts.now.views stage time) }
{
    move_at(plan, parts, stage, time)
}

/// Puts what `next` answers in `out`, which its caller keeps, since a move is large. It takes no
/// memory.
#[inline(always)]
pub fn write_next(plan: &Plan, parts: &Parts, stage: ControlStage, time: u64, out: &mut Move)
    requires made_for { IsFor plan.now parts.now.shape }
    requires well_formed { is_well_formed plan.now parts.now.views (the_stage.Control stage) ≡ true }
    requires in_time { time < 2 ^ 63 }
    ensures { out.new ≡ timed (due plan.now parts.now.views (the_stage.Control stage)) time (control_row plan.now parts.now.views stage time) }
{
    *out = next(plan, parts, stage, time);
}
