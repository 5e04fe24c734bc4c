//! Whether an event may come next at some time, however late. The time matters in two rows alone: a suspend
//! is put off until its expiry, and `schedule_suspend` arms a timer. So no moment past 2^63 is asked.

ghost use Rattle.std.specs.Prelude.{◌≡◌, ◌+◌, ◌<◌, ◌≤◌, ◌^◌, ◌↔◌, ℕ, IsTrue, IfNone, IfSome, Some, None, false, length, true};
ghost use Rattle.pm_device.specs.Parts.{IsFor};
ghost use Rattle.pm_book.specs.Sometime.{Comes, Follows, awaited, is_put_off, once_expired, tested_at};
ghost use Rattle.pm_model.specs.declared.event.Event.TheVariants as event;
ghost use Rattle.pm_model.specs.declared.event.TimerAct.TheVariants.{Arm};
ghost use Rattle.pm_model.specs.Derived.{begun, callback_code};
ghost use Rattle.pm_model.specs.SuspendTable.{suspend_request};
ghost use Rattle.pm_model.specs.WellFormed.{is_well_formed};
ghost use Rattle.pm_model.specs.World.{due};
ghost use Rattle.pm_state.specs.Standing.{IsOf, can_go_on};
ghost use Rattle.pm_laws.specs.bounds.Times.{arms_for, event_at};

use crate::standing::{event_of, same};
use pm_base::{ASYNC, AUTO, Cb, DevId, Req};
use pm_device::{Parts, has, no_callbacks};
use pm_laws::bounds::dependence;
use pm_model::{
    ControlStage, Event, Helper, HelperStage, IdleStage, Plan, ResumeStage, Stage, SuspendStage,
    TimerAct, Word, WorkAct,
};
use pm_state::State;

// How a callback ends that runs.
fn ended(plan: &Plan, parts: &Parts, dev: DevId, cb: Cb) -> Event
    requires made_for { IsFor plan.now parts.now.shape }
    requires in_range { dev.0 < length plan.now.devices }
    requires begun { 0 < begun parts.now.views cb dev }
    ensures { result ≡ event.End dev cb (callback_code plan.now parts.now.views cb dev) }
{
    let code = parts.callback_code(plan, cb, dev);
    Event::End { dev, cb, code }
}

// The event of a line that is due some time after an earlier one.
fn awaited(plan: &Plan, parts: &Parts, stage: Stage) -> Option<Event>
    requires made_for { IsFor plan.now parts.now.shape }
    requires well_formed { is_well_formed plan.now parts.now.views stage ≡ true }
    ensures { result ≡ awaited plan.now parts.now.views stage }
{
    match stage {
        Stage::Idle(stage) => match stage {
            IdleStage::Running { dev, .. } => Some(ended(plan, parts, dev, Cb::Idle)),
            _ => None,
        },
        Stage::Suspend(stage) => match stage {
            SuspendStage::Running { dev, .. } => Some(ended(plan, parts, dev, Cb::Suspend)),
            _ => None,
        },
        Stage::Resume(stage) => match stage {
            ResumeStage::Running { call, .. } => Some(ended(plan, parts, call.dev, Cb::Resume)),
            _ => None,
        },
        Stage::Helper(stage) => match stage {
            HelperStage::Delay { .. } => Some(Event::Ret {
                helper: Helper::Delay,
                dev: DevId(0),
                code: 0,
            }),
            HelperStage::Timer { dev } => {
                let autosuspends = parts.has_auto_timer(dev);
                Some(Event::Timer {
                    dev,
                    act: TimerAct::Fire { autosuspends },
                })
            }
            _ => None,
        },
        _ => None,
    }
}

// For which device a plain timer is armed at a stage, and for how many milliseconds, if it is.
fn armed(plan: &Plan, parts: &Parts, stage: Stage) -> Option<(DevId, u64)>
    requires made_for { IsFor plan.now parts.now.shape }
    requires well_formed { is_well_formed plan.now parts.now.views stage ≡ true }
    ensures some { IfSome result (λ p. (t : ℕ) → event_at plan.now parts.now.views stage t ≡ Some (event.Timer p.0 (Arm (t + p.1) false))) }
    ensures few { IfSome result (λ p. p.1 ≤ 2 ^ 63) }
    ensures none { IfNone result (arms_for plan.now parts.now.views stage ≡ None) }
{
    dependence();
    let Stage::Control(ControlStage::Start { command }) = stage else {
        return None;
    };
    let ms = command.number.unsigned_abs();
    let schedules = matches!(command.helper, Helper::ScheduleSuspend);
    if schedules && ms != 0 && parts.refusal(plan, command.dev) == 0 {
        Some((command.dev, ms))
    } else {
        None
    }
}

// Whether a plain timer of a device is armed for this moment or for a later one.
fn arms_from(dev: DevId, moment: u64, later: Event) -> bool
    ensures { IsTrue result ↔ ((at : ℕ) × (moment ≤ at) × (later ≡ event.Timer dev (Arm at false))) }
{
    match later {
        Event::Timer {
            dev: other,
            act: TimerAct::Arm {
                at,
                autosuspends: false,
            },
        } => other == dev && moment <= at,
        _ => false,
    }
}

// The device and the flags of a suspend whose tests are made at a stage.
fn tested_at(stage: Stage) -> Option<(DevId, u8)>
    ensures { result ≡ tested_at stage }
{
    match stage {
        Stage::Suspend(stage) => match stage {
            SuspendStage::Verdict { dev, flags } | SuspendStage::Waiting { dev, flags } => {
                Some((dev, flags))
            }
            _ => None,
        },
        _ => None,
    }
}

// Whether the event puts an autosuspend off until its expiry.
fn is_put_off(event: Event) -> bool
    ensures { result ≡ is_put_off event }
{
    match event {
        Event::Timer { act, .. } => match act {
            TimerAct::Arm { autosuspends, .. } => autosuspends,
            TimerAct::Fire { .. } => false,
        },
        _ => false,
    }
}

// The request of a suspend that is queued.
fn suspend_request(flags: u8) -> Req
    ensures { result ≡ suspend_request flags }
{
    if has(flags, AUTO) {
        Req::Autosuspend
    } else {
        Req::Suspend
    }
}

// What is written of a suspend that was put off, once its expiry has passed.
fn once_expired(plan: &Plan, dev: DevId, flags: u8) -> Event
    requires { dev.0 < length plan.now.devices }
    ensures { result ≡ once_expired plan.now dev flags }
{
    if no_callbacks(plan, dev) {
        return Event::State {
            dev,
            word: Word::Suspended,
        };
    }
    if has(flags, ASYNC) {
        return Event::Work {
            dev,
            act: WorkAct::Queue(suspend_request(flags)),
        };
    }
    Event::Begin {
        dev,
        cb: Cb::Suspend,
    }
}

// Whether a suspend at this stage that is put off by one event writes the other once its expiry has
// passed.
fn follows(plan: &Plan, stage: Stage, now: Event, later: Event) -> bool
    requires { IfSome (tested_at stage) (λ p. p.0.0 < length plan.now.devices) }
    ensures { IsTrue result ↔ Follows plan.now stage now later }
{
    match tested_at(stage) {
        Some((dev, flags)) => is_put_off(now) && same(once_expired(plan, dev, flags), later),
        None => false,
    }
}

// Whether this event may come next at a stage at some time that is no earlier than the last line's.
pub(crate) fn comes(plan: &Plan, state: &State, stage: Stage, last: u64, event: Event) -> bool
    requires is_of { IsOf plan.now state.now }
    requires stands { can_go_on plan.now state.now.world.views stage ≡ true }
    requires in_time { last < 2 ^ 63 }
    ensures { IsTrue result ↔ Comes plan.now state.now.world.views stage last event }
{
    let parts = state.parts();
    if let Some(only) = awaited(plan, parts, stage) {
        return same(only, event);
    }
    if let Some((dev, ms)) = armed(plan, parts, stage) {
        return arms_from(dev, last + ms, event);
    }
    match event_of(plan, state, stage, last) {
        Some(now) => same(now, event) || follows(plan, stage, now, event),
        None => false,
    }
}
