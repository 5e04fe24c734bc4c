//! The lines of idle, and of the stage after a put (`runtime_pm.rst`, sections 2 and 4).
#![tactic(auto)]

ghost use Rattle.std.specs.Prelude.{◌≡◌, ◌+◌, ◌<◌, ◌^◌, length, pos, true, if◌then◌else◌};
ghost use Rattle.std.specs.Ordering.{int_eq};
ghost use Rattle.pm_base.specs.declared.Cb.TheVariants as cb;
ghost use Rattle.pm_model.specs.declared.event.Event.TheVariants as event;
ghost use Rattle.pm_model.specs.declared.stage.Change.TheVariants as change;
ghost use Rattle.pm_model.specs.declared.stage.Move.TheVariants as move;
ghost use Rattle.pm_model.specs.declared.stage.Stage.TheVariants as the_stage;
ghost use Rattle.pm_model.specs.Derived.{begun};
ghost use Rattle.pm_model.specs.IdleTable.{after_put, idle_ends, idle_row, idle_verdict, then_suspends};
ghost use Rattle.pm_model.specs.PlanRows.{ms_of};
ghost use Rattle.pm_model.specs.Row.{back, move_of, timed};
ghost use Rattle.pm_model.specs.WellFormed.{is_well_formed};
ghost use Rattle.pm_model.specs.World.{due};
ghost use Rattle.pm_device.specs.Parts.{IsFor};

use pm_base::{ASYNC, AUTO, Cb, DevId, EAGAIN, EINPROGRESS, Req};
use pm_device::{Parts, back, call_returns, goes, has, has_idle, is_above_idle, ms_of};
use pm_model::{Change, Event, IdleStage, Move, Plan, Stage, SuspendStage, Then, WorkAct};

// An idle that answers 0 goes on to suspend by the autosuspend rule.
fn then_suspends(dev: DevId, flags: u8) -> Then
    ensures { result ≡ then_suspends dev flags }
{
    goes(Stage::Suspend(SuspendStage::Enter {
        dev,
        flags: flags | AUTO,
    }))
}

// I1
#[tactic(auto, unfolding(pm_model::specs::IdleTable::idle_verdict))]
fn verdict(plan: &Plan, parts: &Parts, dev: DevId, flags: u8, time: u64, out: &mut Move)
    requires made_for { IsFor plan.now parts.now.shape }
    requires in_range { dev.0 < length plan.now.devices }
    ensures { out.new ≡ move_of (idle_verdict plan.now parts.now.views dev flags time) }
{
    let refusal = parts.refusal(plan, dev);
    if refusal < 0 {
        *out = call_returns(Cb::Idle, dev, refusal, Change::Same);
        return;
    }
    if !parts.is_active(dev) {
        *out = call_returns(Cb::Idle, dev, EAGAIN, Change::Same);
        return;
    }
    if is_above_idle(parts.pending(dev).request) {
        *out = call_returns(Cb::Idle, dev, EAGAIN, Change::Same);
        return;
    }
    if parts.device(dev).idle_running {
        *out = call_returns(Cb::Idle, dev, EINPROGRESS, Change::Same);
        return;
    }
    if !has_idle(plan, dev) {
        *out = Move::Write(
            Event::Return {
                func: Cb::Idle,
                dev,
                code: 0,
            },
            Change::CancelRequest { dev },
            then_suspends(dev, flags),
        );
        return;
    }
    if has(flags, ASYNC) {
        *out = Move::Write(
            Event::Work {
                dev,
                act: WorkAct::Queue(Req::Idle),
            },
            Change::Same,
            goes(Stage::Idle(IdleStage::Queued { dev, flags })),
        );
        return;
    }
    *out = Move::Write(
        Event::Begin { dev, cb: Cb::Idle },
        Change::CancelRequest { dev },
        goes(Stage::Idle(IdleStage::Running {
            dev,
            flags,
            since: time,
        })),
    );
}

// I2
#[tactic(auto, unfolding(pm_model::specs::IdleTable::idle_ends))]
fn ends(plan: &Plan, parts: &Parts, dev: DevId, flags: u8, time: u64) -> Move
    requires made_for { IsFor plan.now parts.now.shape }
    requires in_range { dev.0 < length plan.now.devices }
    requires begun { 0 < begun parts.now.views cb.Idle dev }
    ensures { result ≡ move_of (idle_ends plan.now parts.now.views dev flags time) }
{
    let code = parts.callback_code(plan, Cb::Idle, dev);
    Move::Write(
        Event::End {
            dev,
            cb: Cb::Idle,
            code,
        },
        Change::CallbackMarks { dev },
        goes(Stage::Idle(IdleStage::Done { dev, flags, code })),
    )
}

// I2, once its callback's time has passed.
fn running(plan: &Plan, parts: &Parts, dev: DevId, flags: u8, since: u64, time: u64, out: &mut Move)
    requires made_for { IsFor plan.now parts.now.shape }
    requires in_range { dev.0 < length plan.now.devices }
    requires begun { 0 < begun parts.now.views cb.Idle dev }
    requires reckons { since + ms_of plan.now cb.Idle dev < 2 ^ 64 }
    ensures { out.new ≡ timed (since + ms_of plan.now cb.Idle dev) time (idle_ends plan.now parts.now.views dev flags time) }
{
    let due = since + u64::from(ms_of(plan, Cb::Idle, dev));
    if time < due {
        *out = Move::Late(due);
    } else {
        *out = ends(plan, parts, dev, flags, time);
    }
}

// I3
fn done(dev: DevId, flags: u8, code: i32) -> Move
    ensures { result ≡ move.Write (event.Return cb.Idle dev code) change.Same (if int_eq code (pos 0) then then_suspends dev flags else back code) }
{
    let then = if code == 0 {
        then_suspends(dev, flags)
    } else {
        back(code)
    };
    Move::Write(
        Event::Return {
            func: Cb::Idle,
            dev,
            code,
        },
        Change::Same,
        then,
    )
}

// T
#[tactic(auto, unfolding(pm_model::specs::IdleTable::after_put))]
fn after_put(plan: &Plan, parts: &Parts, dev: DevId, flags: u8, out: &mut Move)
    requires made_for { IsFor plan.now parts.now.shape }
    requires in_range { dev.0 < length plan.now.devices }
    ensures { out.new ≡ move_of (after_put plan.now parts.now.views dev flags) }
{
    if parts.is_in_use(dev) {
        *out = Move::Write(
            Event::Usage {
                dev,
                fields: parts.fields(dev, flags),
            },
            Change::Same,
            back(0),
        );
        return;
    }
    *out = parts.idles(dev, flags);
}

/// The only move at a stage of idle, or at the stage after a put: its line, with what takes the
/// stage's place; or the moment at which its line is due, where that is later than `time`
/// (milliseconds of the run). It takes no memory.
pub fn next(plan: &Plan, parts: &Parts, stage: IdleStage, time: u64) -> Move
    requires made_for { IsFor plan.now parts.now.shape }
    requires well_formed { is_well_formed plan.now parts.now.views (the_stage.Idle stage) ≡ true }
    ensures { result ≡ timed (due plan.now parts.now.views (the_stage.Idle stage)) time (idle_row plan.now parts.now.views stage time) }
{
    let mut out = Move::Late(time);
    write_next(plan, parts, stage, time, &mut out);
    out
}

/// Puts what `next` answers in `out`, which its caller keeps, since a move is large. It takes no
/// memory.
#[inline(always)]
pub fn write_next(plan: &Plan, parts: &Parts, stage: IdleStage, time: u64, out: &mut Move)
    requires made_for { IsFor plan.now parts.now.shape }
    requires well_formed { is_well_formed plan.now parts.now.views (the_stage.Idle stage) ≡ true }
    ensures { out.new ≡ timed (due plan.now parts.now.views (the_stage.Idle stage)) time (idle_row plan.now parts.now.views stage time) }
{
    match stage {
        IdleStage::Enter { dev, flags } => {
            *out = parts.idles(dev, flags);
        }
        IdleStage::Verdict { dev, flags } => {
            verdict(plan, parts, dev, flags, time, out);
        }
        IdleStage::Running { dev, flags, since } => {
            running(plan, parts, dev, flags, since, time, out);
        }
        IdleStage::Done { dev, flags, code } => {
            *out = done(dev, flags, code);
        }
        IdleStage::Queued { dev, .. } => {
            *out = call_returns(Cb::Idle, dev, 0, Change::Same);
        }
        IdleStage::AfterPut { dev, flags } => {
            after_put(plan, parts, dev, flags, out);
        }
    }
}
