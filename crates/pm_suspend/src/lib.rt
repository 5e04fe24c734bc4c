//! The lines of suspend (`runtime_pm.rst`, sections 2, 4 and 9).
#![tactic(auto)]

ghost use Rattle.std.specs.Prelude.{◌≡◌, ◌+◌, ◌<◌, ◌^◌, length, true};
ghost use Rattle.pm_base.specs.declared.Cb.TheVariants as cb;
ghost use Rattle.pm_model.specs.declared.event.Event.TheVariants as event;
ghost use Rattle.pm_model.specs.declared.stage.Change.TheVariants as change;
ghost use Rattle.pm_model.specs.declared.stage.Move.TheVariants as move;
ghost use Rattle.pm_model.specs.declared.stage.Purpose.TheVariants.{Plain};
ghost use Rattle.pm_model.specs.declared.stage.Stage.TheVariants as the_stage;
ghost use Rattle.pm_model.specs.declared.stage.SuspendStage.TheVariants as suspend;
ghost use Rattle.pm_model.specs.ChangeViews.{suspend_ended};
ghost use Rattle.pm_model.specs.Derived.{begun, expiry, is_ahead};
ghost use Rattle.pm_model.specs.Events.{by_event};
ghost use Rattle.pm_model.specs.PlanRows.{ms_of};
ghost use Rattle.pm_model.specs.Row.{move_of, timed};
ghost use Rattle.pm_model.specs.SuspendTable.{suspend_goes, suspend_domain, suspend_ends, suspend_links, suspend_parent, suspend_request, suspend_row, suspend_verdict};
ghost use Rattle.pm_model.specs.Views.{device};
ghost use Rattle.pm_model.specs.WellFormed.{is_well_formed};
ghost use Rattle.pm_model.specs.World.{due};
ghost use Rattle.pm_device.specs.Parts.{IsFor};
ghost use Rattle.pm_suspend.specs.SuspendMove.{expiry_of, last_mark};

use pm_base::{ASYNC, AUTO, Cb, DevId, EAGAIN, EINPROGRESS, Req, Why};
use pm_device::{
    Parts, call_returns, calls, goes, has, has_domain, is_try_again, marks_busy, may_not_wait,
    ms_of, no_callbacks, parent_of,
};
use pm_model::{
    Await, Change, Event, IdleStage, Move, Plan, Purpose, Stage, SuspendStage, Then, TimerAct,
    Word, WorkAct,
};

// A stage of suspend takes the place.
fn suspend_goes(stage: SuspendStage) -> Then
    ensures { result ≡ suspend_goes stage }
{
    goes(Stage::Suspend(stage))
}

// The request of a suspend that is queued.
fn suspend_request(flags: u8) -> Req
    ensures { result ≡ suspend_request flags }
{
    if has(flags, AUTO) {
        Req::Autosuspend
    } else {
        Req::Suspend
    }
}

// S1
#[tactic(auto, unfolding(pm_model::specs::SuspendTable::suspend_verdict))]
fn verdict(plan: &Plan, parts: &Parts, dev: DevId, flags: u8, time: u64, out: &mut Move)
    requires made_for { IsFor plan.now parts.now.shape }
    requires in_range { dev.0 < length plan.now.devices }
    ensures { out.new ≡ move_of (suspend_verdict plan.now parts.now.views dev flags time) }
{
    let refusal = parts.refusal(plan, dev);
    if refusal != 0 {
        *out = call_returns(Cb::Suspend, dev, refusal, Change::Same);
        return;
    }
    if parts.is_resuming(dev) && !has(flags, ASYNC) {
        *out = call_returns(Cb::Suspend, dev, EAGAIN, Change::Same);
        return;
    }
    if parts.is_early(dev, flags, time) {
        let act = TimerAct::Arm {
            at: parts.autosuspend_at(dev),
            autosuspends: true,
        };
        *out = Move::Write(
            Event::Timer { dev, act },
            Change::CancelRequest { dev },
            suspend_goes(SuspendStage::Done {
                dev,
                flags,
                code: 0,
            }),
        );
        return;
    }
    if parts.is_suspending(dev) && may_not_wait(flags) {
        *out = call_returns(Cb::Suspend, dev, EINPROGRESS, Change::Cancel { dev });
        return;
    }
    if parts.is_suspending(dev) {
        *out = Move::Write(
            Event::Wait { dev },
            Change::Cancel { dev },
            suspend_goes(SuspendStage::Waiting { dev, flags }),
        );
        return;
    }
    if no_callbacks(plan, dev) {
        *out = Move::Write(
            Event::State {
                dev,
                word: Word::Suspended,
            },
            Change::Cancel { dev },
            suspend_goes(SuspendStage::Parent { dev, flags }),
        );
        return;
    }
    if has(flags, ASYNC) {
        *out = Move::Write(
            Event::Work {
                dev,
                act: WorkAct::Queue(suspend_request(flags)),
            },
            Change::Disarm { dev },
            suspend_goes(SuspendStage::Done {
                dev,
                flags,
                code: 0,
            }),
        );
        return;
    }
    *out = Move::Write(
        Event::Begin {
            dev,
            cb: Cb::Suspend,
        },
        Change::Cancel { dev },
        suspend_goes(SuspendStage::Running {
            dev,
            flags,
            since: time,
        }),
    );
}

// When the device was last marked busy, once a callback of it has ended at this moment.
fn last_mark(plan: &Plan, parts: &Parts, dev: DevId, time: u64) -> u64
    requires made_for { IsFor plan.now parts.now.shape }
    requires in_range { dev.0 < length plan.now.devices }
    requires in_time { time < 2 ^ 63 }
    ensures mark { result ≡ last_mark plan.now parts.now.views dev time }
    ensures in_time { result < 2 ^ 63 }
    ensures in_views { dev.0 < length parts.now.views.devices }
{
    let device = parts.device(dev);
    if marks_busy(plan, dev) {
        time
    } else {
        device.last_busy
    }
}

// Whether an autosuspend may begin only after this moment, where the device was last marked busy at
// that one.
fn is_ahead_from(parts: &Parts, dev: DevId, last_busy: u64, time: u64) -> bool
    requires in_range { dev.0 < length parts.now.shape.parents }
    requires in_time { last_busy < 2 ^ 63 }
    ensures { result ≡ is_ahead (expiry_of (device parts.now.views dev).use_auto (device parts.now.views dev).delay last_busy) time }
{
    let device = parts.device(dev);
    if device.use_auto && device.delay >= 0 {
        time < last_busy + device.delay.unsigned_abs()
    } else {
        false
    }
}

// Whether an expiry is ahead once a suspend callback of the device has ended with this code.
fn is_ahead_after(plan: &Plan, parts: &Parts, dev: DevId, code: i32, time: u64) -> bool
    requires made_for { IsFor plan.now parts.now.shape }
    requires in_range { dev.0 < length plan.now.devices }
    requires in_time { time < 2 ^ 63 }
    ensures { result ≡ is_ahead (expiry (by_event plan.now time (event.End dev cb.Suspend code) (suspend_ended plan.now dev code time parts.now.views)) dev) time }
{
    is_ahead_from(parts, dev, last_mark(plan, parts, dev, time), time)
}

// S2
#[tactic(auto, unfolding(pm_model::specs::SuspendTable::suspend_ends))]
fn ends(plan: &Plan, parts: &Parts, dev: DevId, flags: u8, time: u64) -> Move
    requires made_for { IsFor plan.now parts.now.shape }
    requires in_range { dev.0 < length plan.now.devices }
    requires begun { 0 < begun parts.now.views cb.Suspend dev }
    requires in_time { time < 2 ^ 63 }
    ensures { result ≡ move_of (suspend_ends plan.now parts.now.views dev flags time) }
{
    let code = parts.callback_code(plan, Cb::Suspend, dev);
    let again = is_try_again(code)
        && has(flags, AUTO)
        && is_ahead_after(plan, parts, dev, code, time);
    let next = if code == 0 {
        SuspendStage::Domain { dev, flags }
    } else if again {
        SuspendStage::Verdict { dev, flags }
    } else {
        SuspendStage::Done { dev, flags, code }
    };
    Move::Write(
        Event::End {
            dev,
            cb: Cb::Suspend,
            code,
        },
        Change::SuspendEnded { dev, code },
        suspend_goes(next),
    )
}

// The status line with which the device is suspended.
fn suspended(dev: DevId, word: Word, next: SuspendStage) -> Move
    ensures { result ≡ move.Write (event.State dev word) change.Same (suspend_goes next) }
{
    Move::Write(Event::State { dev, word }, Change::Same, suspend_goes(next))
}

// S4
#[tactic(auto, unfolding(pm_model::specs::SuspendTable::suspend_links))]
fn links(plan: &Plan, parts: &Parts, dev: DevId, flags: u8, out: &mut Move)
    requires made_for { IsFor plan.now parts.now.shape }
    requires in_range { dev.0 < length plan.now.devices }
    ensures { out.new ≡ move_of (suspend_links plan.now parts.now.views dev flags) }
{
    match parts.first_held(plan, dev) {
        Some((_, supplier)) => {
            *out = Move::Write(
                Event::Put {
                    dev: supplier,
                    why: Why::Link(dev),
                },
                Change::Same,
                calls(
                    Stage::Idle(IdleStage::AfterPut {
                        dev: supplier,
                        flags: 5,
                    }),
                    Await::SuspendLinks { dev, flags },
                ),
            );
        }
        None => {
            if parts.pending(dev).deferred {
                *out = suspended(dev, Word::Deferred, SuspendStage::Deferred { dev, flags });
            } else {
                *out = suspended(dev, Word::Suspended, SuspendStage::Parent { dev, flags });
            }
        }
    }
}

// S3
#[tactic(auto, unfolding(pm_model::specs::SuspendTable::suspend_domain))]
fn domain(plan: &Plan, parts: &Parts, dev: DevId, flags: u8, out: &mut Move)
    requires made_for { IsFor plan.now parts.now.shape }
    requires in_range { dev.0 < length plan.now.devices }
    ensures { out.new ≡ move_of (suspend_domain plan.now parts.now.views dev flags) }
{
    if has_domain(plan, dev) {
        *out = Move::Write(
            Event::Domain {
                dev,
                up: false,
                count: parts.down_count(plan, dev),
            },
            Change::Same,
            suspend_goes(SuspendStage::Links { dev, flags }),
        );
        return;
    }
    links(plan, parts, dev, flags, out);
}

// S6
#[tactic(auto, unfolding(pm_model::specs::SuspendTable::suspend_parent))]
fn parent(plan: &Plan, parts: &Parts, dev: DevId, flags: u8, out: &mut Move)
    requires made_for { IsFor plan.now parts.now.shape }
    requires in_range { dev.0 < length plan.now.devices }
    ensures { out.new ≡ move_of (suspend_parent plan.now parts.now.views dev flags) }
{
    if !parts.tells_parent(plan, dev) {
        *out = call_returns(Cb::Suspend, dev, 0, Change::Same);
        return;
    }
    *out = parts.calls_idle(
        parent_of(plan, dev),
        1,
        Change::Same,
        Await::SuspendParent { dev, flags },
    );
}

// S2, once its callback's time has passed.
fn running(plan: &Plan, parts: &Parts, dev: DevId, flags: u8, since: u64, time: u64, out: &mut Move)
    requires made_for { IsFor plan.now parts.now.shape }
    requires in_range { dev.0 < length plan.now.devices }
    requires begun { 0 < begun parts.now.views cb.Suspend dev }
    requires reckons { since + ms_of plan.now cb.Suspend dev < 2 ^ 64 }
    requires in_time { time < 2 ^ 63 }
    ensures { out.new ≡ timed (since + ms_of plan.now cb.Suspend dev) time (suspend_ends plan.now parts.now.views dev flags time) }
{
    let due = since + u64::from(ms_of(plan, Cb::Suspend, dev));
    if time < due {
        *out = Move::Late(due);
    } else {
        *out = ends(plan, parts, dev, flags, time);
    }
}

// S1 after its wait line.
fn waiting(plan: &Plan, parts: &Parts, dev: DevId, flags: u8, time: u64, out: &mut Move)
    requires made_for { IsFor plan.now parts.now.shape }
    requires in_range { dev.0 < length plan.now.devices }
    ensures { out.new ≡ move_of (suspend_row plan.now parts.now.views (suspend.Waiting dev flags) time) }
{
    if parts.is_moving(dev) {
        *out = Move::Wait(dev);
    } else {
        verdict(plan, parts, dev, flags, time, out);
    }
}

/// The only move at a stage of suspend: its line, with what takes the stage's place; or the moment at
/// which its line is due, where that is later than `time` (milliseconds of the run); or the device for
/// which it waits. It takes no memory.
pub fn next(plan: &Plan, parts: &Parts, stage: SuspendStage, time: u64) -> Move
    requires made_for { IsFor plan.now parts.now.shape }
    requires well_formed { is_well_formed plan.now parts.now.views (the_stage.Suspend stage) ≡ true }
    requires in_time { time < 2 ^ 63 }
    ensures { result ≡ timed (due plan.now parts.now.views (the_stage.Suspend stage)) time (suspend_row plan.now parts.now.views stage time) }
{
    let mut out = Move::Late(time);
    write_next(plan, parts, stage, time, &mut out);
    out
}

/// Puts what `next` answers in `out`, which its caller keeps, since a move is large. It takes no
/// memory.
#[inline(always)]
pub fn write_next(plan: &Plan, parts: &Parts, stage: SuspendStage, time: u64, out: &mut Move)
    requires made_for { IsFor plan.now parts.now.shape }
    requires well_formed { is_well_formed plan.now parts.now.views (the_stage.Suspend stage) ≡ true }
    requires in_time { time < 2 ^ 63 }
    ensures { out.new ≡ timed (due plan.now parts.now.views (the_stage.Suspend stage)) time (suspend_row plan.now parts.now.views stage time) }
{
    match stage {
        SuspendStage::Enter { dev, flags } => {
            *out = parts.suspends(dev, flags);
        }
        SuspendStage::Verdict { dev, flags } => {
            verdict(plan, parts, dev, flags, time, out);
        }
        SuspendStage::Waiting { dev, flags } => {
            waiting(plan, parts, dev, flags, time, out);
        }
        SuspendStage::Running { dev, flags, since } => {
            running(plan, parts, dev, flags, since, time, out);
        }
        SuspendStage::Domain { dev, flags } => {
            domain(plan, parts, dev, flags, out);
        }
        SuspendStage::Links { dev, flags } => {
            links(plan, parts, dev, flags, out);
        }
        SuspendStage::Deferred { dev, flags } => {
            *out = parts.calls_resume(
                dev,
                0,
                Purpose::Plain,
                Await::SuspendDeferred { dev, flags },
            );
        }
        SuspendStage::Parent { dev, flags } => {
            parent(plan, parts, dev, flags, out);
        }
        SuspendStage::Done { dev, code, .. } => {
            *out = call_returns(Cb::Suspend, dev, code, Change::Same);
        }
    }
}
