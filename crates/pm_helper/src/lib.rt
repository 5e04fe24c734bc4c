//! The lines of the helpers that no control function is, of work items and of timers
//! (`runtime_pm.rst`, section 4).
#![tactic(auto)]

ghost use Rattle.std.specs.Prelude.{◌≡◌, ◌+◌, ◌<◌, ◌≤ℤ◌, ◌^◌, length, nat_abs, pos, true};
ghost use Rattle.std.specs.Option.{option_map_or};
ghost use Rattle.pm_base.specs.declared.Why.TheVariants as why;
ghost use Rattle.pm_model.specs.declared.event.Event.TheVariants as event;
ghost use Rattle.pm_model.specs.declared.event.Helper.TheVariants as helper;
ghost use Rattle.pm_model.specs.declared.event.WorkAct.TheVariants.{Run};
ghost use Rattle.pm_model.specs.declared.stage.Change.TheVariants as change;
ghost use Rattle.pm_model.specs.declared.stage.Move.TheVariants as move;
ghost use Rattle.pm_model.specs.declared.stage.Stage.TheVariants as the_stage;
ghost use Rattle.pm_model.specs.HelperTable.{begins, carries_out, flags_of, gets_if, helper_row, helper_starts, put_suspends, callers_put, timer_fires, to_idle, to_suspend};
ghost use Rattle.pm_model.specs.Row.{move_of, helper_returns, timed};
ghost use Rattle.pm_model.specs.Views.{pending_of, timer};
ghost use Rattle.pm_model.specs.WellFormed.{is_well_formed};
ghost use Rattle.pm_model.specs.World.{due};
ghost use Rattle.pm_device.specs.Parts.{IsFor};

use pm_base::{ASYNC, AUTO, DevId, EINVAL, GET_PUT, Req, Why};
use pm_device::{Parts, back, calls, goes, helper_returns, then_returns, to_resume};
use pm_model::{
    Await, Change, Command, ControlStage, Event, Helper, HelperStage, IdleStage, Move, Plan, Stage,
    SuspendStage, Then, TimerAct, WorkAct,
};

// The flags of a helper.
fn flags_of(helper: Helper) -> u8
    ensures { result ≡ flags_of helper }
{
    match helper {
        Helper::GetSync | Helper::PutSync | Helper::PutSyncSuspend => GET_PUT,
        Helper::Get | Helper::Put => ASYNC + GET_PUT,
        Helper::RequestResume | Helper::RequestIdle | Helper::ScheduleSuspend => ASYNC,
        Helper::PutAutosuspend => ASYNC + GET_PUT + AUTO,
        Helper::PutSyncAutosuspend => GET_PUT + AUTO,
        Helper::Autosuspend => AUTO,
        Helper::RequestAutosuspend => ASYNC + AUTO,
        _ => 0,
    }
}

// The first stage of an idle.
fn to_idle(dev: DevId, flags: u8) -> Stage
    ensures { result ≡ to_idle dev flags }
{
    Stage::Idle(IdleStage::Enter { dev, flags })
}

// The first stage of a suspend.
fn to_suspend(dev: DevId, flags: u8) -> Stage
    ensures { result ≡ to_suspend dev flags }
{
    Stage::Suspend(SuspendStage::Enter { dev, flags })
}

// Where a command goes on after its call line, written at this moment.
fn begins(command: Command, time: u64) -> Then
    ensures { result ≡ begins command time }
{
    let Command {
        helper,
        dev,
        number,
    } = command;
    let flags = flags_of(helper);
    let its_code = Await::Return { helper, dev };
    match helper {
        Helper::Resume | Helper::RequestResume => calls(to_resume(dev, flags), its_code),
        Helper::Idle | Helper::RequestIdle => calls(to_idle(dev, flags), its_code),
        Helper::Suspend | Helper::Autosuspend | Helper::RequestAutosuspend => {
            calls(to_suspend(dev, flags), its_code)
        }
        Helper::Delay => goes(Stage::Helper(HelperStage::Delay {
            ms: number,
            since: time,
        })),
        Helper::GetSync
        | Helper::Get
        | Helper::GetNoresume
        | Helper::GetIfInUse
        | Helper::GetIfActive
        | Helper::Put
        | Helper::PutSync
        | Helper::PutNoidle
        | Helper::PutAutosuspend
        | Helper::PutSyncSuspend
        | Helper::PutSyncAutosuspend => goes(Stage::Helper(HelperStage::Start { command })),
        _ => goes(Stage::Control(ControlStage::Start { command })),
    }
}

// A caller takes a count.
fn takes(dev: DevId, then: Then) -> Move
    ensures { result ≡ move.Write (event.Get dev why.Caller) change.Same then }
{
    Move::Write(
        Event::Get {
            dev,
            why: Why::Caller,
        },
        Change::Same,
        then,
    )
}

// A get that may not resume.
fn gets_if(parts: &Parts, command: Command, holds: bool, out: &mut Move)
    requires { command.dev.0 < length parts.now.shape.parents }
    ensures { out.new ≡ move_of (gets_if parts.now.views command holds) }
{
    let Command { helper, dev, .. } = command;
    if parts.is_disabled(dev) {
        *out = helper_returns(helper, dev, EINVAL, Change::Same);
    } else if parts.is_active(dev) && holds {
        *out = takes(dev, then_returns(helper, dev, 1));
    } else {
        *out = helper_returns(helper, dev, 0, Change::Same);
    }
}

// A put finds a count that a caller took.
fn callers_put(parts: &Parts, command: Command, then: Then, out: &mut Move)
    requires { command.dev.0 < length parts.now.shape.parents }
    ensures { out.new ≡ move_of (callers_put parts.now.views command then) }
{
    let Command { helper, dev, .. } = command;
    if parts.device(dev).share == 0 {
        *out = helper_returns(helper, dev, EINVAL, Change::Same);
        return;
    }
    *out = Move::Write(
        Event::Put {
            dev,
            why: Why::Caller,
        },
        Change::Same,
        then,
    );
}

// The line after the call line.
#[tactic(auto, unfolding(pm_model::specs::HelperTable::helper_starts))]
fn starts(parts: &Parts, command: Command, out: &mut Move)
    requires { command.dev.0 < length parts.now.shape.parents }
    ensures { out.new ≡ move_of (helper_starts parts.now.views command) }
{
    let Command { helper, dev, .. } = command;
    let flags = flags_of(helper);
    let its_code = Await::Return { helper, dev };
    match helper {
        Helper::GetSync | Helper::Get => {
            *out = takes(dev, calls(to_resume(dev, flags), its_code));
        }
        Helper::GetNoresume => {
            *out = takes(dev, then_returns(helper, dev, 0));
        }
        Helper::GetIfInUse => {
            gets_if(parts, command, parts.is_in_use(dev), out);
        }
        Helper::GetIfActive => {
            gets_if(parts, command, true, out);
        }
        Helper::Put | Helper::PutSync => {
            let after_put = Stage::Idle(IdleStage::AfterPut { dev, flags });
            callers_put(parts, command, calls(after_put, its_code), out);
        }
        Helper::PutAutosuspend | Helper::PutSyncSuspend | Helper::PutSyncAutosuspend => {
            let suspends = Stage::Helper(HelperStage::PutSuspends { command });
            callers_put(parts, command, goes(suspends), out);
        }
        Helper::PutNoidle => {
            callers_put(parts, command, then_returns(helper, dev, 0), out);
        }
        _ => {
            *out = helper_returns(helper, dev, 0, Change::Same);
        }
    }
}

// A put that goes on to suspend where nothing else counts.
#[tactic(auto, unfolding(pm_model::specs::HelperTable::put_suspends))]
fn put_suspends(plan: &Plan, parts: &Parts, command: Command, out: &mut Move)
    requires made_for { IsFor plan.now parts.now.shape }
    requires in_range { command.dev.0 < length plan.now.devices }
    ensures { out.new ≡ move_of (put_suspends plan.now parts.now.views command) }
{
    let Command { helper, dev, .. } = command;
    let flags = flags_of(helper);
    if parts.is_in_use(dev) {
        *out = Move::Write(
            Event::Usage {
                dev,
                fields: parts.fields(dev, flags),
            },
            Change::Same,
            then_returns(helper, dev, 0),
        );
        return;
    }
    *out = parts.calls_suspend(dev, flags, Await::Return { helper, dev });
}

// What a work item carries out.
fn carries_out(dev: DevId, req: Req) -> Then
    ensures { result ≡ carries_out dev req }
{
    match req {
        Req::Nothing => back(0),
        Req::Idle => goes(to_idle(dev, 2)),
        Req::Suspend => goes(to_suspend(dev, 2)),
        Req::Autosuspend => goes(to_suspend(dev, 10)),
        Req::Resume => goes(to_resume(dev, 2)),
    }
}

// A work item runs its request.
fn works(parts: &Parts, dev: DevId) -> Move
    requires { dev.0 < length parts.now.shape.parents }
    ensures { result ≡ move.Write (event.Work dev (Run (pending_of parts.now.views dev).request)) change.Same (carries_out dev (pending_of parts.now.views dev).request) }
{
    let request = parts.pending(dev).request;
    Move::Write(
        Event::Work {
            dev,
            act: WorkAct::Run(request),
        },
        Change::Same,
        carries_out(dev, request),
    )
}

// A timer fires.
#[tactic(auto, unfolding(pm_model::specs::HelperTable::timer_fires))]
fn fires(parts: &Parts, dev: DevId) -> Move
    requires { dev.0 < length parts.now.shape.parents }
    ensures { result ≡ move_of (timer_fires parts.now.views dev) }
{
    let autosuspends = parts.has_auto_timer(dev);
    let flags = if autosuspends { 9 } else { 1 };
    Move::Write(
        Event::Timer {
            dev,
            act: TimerAct::Fire { autosuspends },
        },
        Change::Same,
        goes(to_suspend(dev, flags)),
    )
}

// A timer, once its deadline has passed.
fn timer(parts: &Parts, dev: DevId, time: u64, out: &mut Move)
    requires { dev.0 < length parts.now.shape.parents }
    ensures { out.new ≡ timed (option_map_or (λ armed. armed.deadline) (timer parts.now.views dev) 0) time (timer_fires parts.now.views dev) }
{
    let due = match parts.timer(dev) {
        Some(armed) => armed.deadline,
        None => 0,
    };
    if time < due {
        *out = Move::Late(due);
    } else {
        *out = fires(parts, dev);
    }
}

// A delay, once it has passed.
fn delay(ms: i64, since: u64, time: u64, out: &mut Move)
    requires positive { pos 0 ≤ℤ ms }
    requires reckons { since + nat_abs ms < 2 ^ 64 }
    ensures { out.new ≡ timed (since + nat_abs ms) time (helper_returns helper.Delay (record { 0 = 0 }) (pos 0) change.Same) }
{
    let due = since + ms.unsigned_abs();
    if time < due {
        *out = Move::Late(due);
    } else {
        *out = helper_returns(Helper::Delay, DevId(0), 0, Change::Same);
    }
}

/// The only move at a stage of a helper, of a work item or of a timer: its line, with what takes the
/// stage's place; or the moment at which its line is due, where that is later than `time`
/// (milliseconds of the run). It takes no memory.
pub fn next(plan: &Plan, parts: &Parts, stage: HelperStage, time: u64) -> Move
    requires made_for { IsFor plan.now parts.now.shape }
    requires well_formed { is_well_formed plan.now parts.now.views (the_stage.Helper stage) ≡ true }
    ensures { result ≡ timed (due plan.now parts.now.views (the_stage.Helper stage)) time (helper_row plan.now parts.now.views stage time) }
{
    let mut out = Move::Late(time);
    write_next(plan, parts, stage, time, &mut out);
    out
}

/// Puts what `next` answers in `out`, which its caller keeps, since a move is large. It takes no
/// memory.
#[inline(always)]
pub fn write_next(plan: &Plan, parts: &Parts, stage: HelperStage, time: u64, out: &mut Move)
    requires made_for { IsFor plan.now parts.now.shape }
    requires well_formed { is_well_formed plan.now parts.now.views (the_stage.Helper stage) ≡ true }
    ensures { out.new ≡ timed (due plan.now parts.now.views (the_stage.Helper stage)) time (helper_row plan.now parts.now.views stage time) }
{
    match stage {
        HelperStage::Call { command } => {
            *out = Move::Write(Event::Call { command }, Change::Same, begins(command, time));
        }
        HelperStage::Work { dev } => {
            *out = works(parts, dev);
        }
        HelperStage::Timer { dev } => {
            timer(parts, dev, time, out);
        }
        HelperStage::Start { command } => {
            starts(parts, command, out);
        }
        HelperStage::PutSuspends { command } => {
            put_suspends(plan, parts, command, out);
        }
        HelperStage::Delay { ms, since } => {
            delay(ms, since, time, out);
        }
        HelperStage::Ret { helper, dev, code } => {
            *out = helper_returns(helper, dev, code, Change::Same);
        }
    }
}
