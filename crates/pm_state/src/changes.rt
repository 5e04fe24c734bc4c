//! What a change that a row names makes of the counters (`runtime_pm.rst`, sections 3, 4 and 9).

ghost use Rattle.std.specs.Prelude.{◌≡◌, ◌+◌, ◌<◌, ◌^◌, length, true};
ghost use Rattle.pm_model.specs.CanTake.{can_change};
ghost use Rattle.pm_model.specs.Changes.{callback_marks, disabled_at_once, disables_busy, keeps_status};
ghost use Rattle.pm_model.specs.ChangeViews.{change_views, suspend_ended};
ghost use Rattle.pm_model.specs.Views.{device};
ghost use Rattle.pm_device.specs.Parts.{IsFor};

use pm_base::DevId;
use pm_device::{Parts, is_try_again, marks_busy};
use pm_model::{Change, Plan};

// A callback that ends marks a device that the plan calls busy.
#[tactic(auto, unfolding(pm_model::specs::Changes::callback_marks))]
fn callback_marks(parts: &mut Parts, plan: &Plan, dev: DevId, time: u64)
    requires made_for { IsFor plan.now parts.old.shape }
    requires in_range { dev.0 < length parts.old.shape.parents }
    requires in_time { time < 2 ^ 63 }
    ensures { parts.new ≡ record parts.old { views = callback_marks plan.now dev time parts.old.views } }
{
    if marks_busy(plan, dev) {
        parts.set_last_busy(dev, time);
    }
}

// A suspend callback has ended with this code.
#[tactic(auto, unfolding(pm_model::specs::ChangeViews::suspend_ended))]
fn suspend_ended(parts: &mut Parts, plan: &Plan, dev: DevId, code: i32, time: u64)
    requires made_for { IsFor plan.now parts.old.shape }
    requires in_range { dev.0 < length parts.old.shape.parents }
    requires in_time { time < 2 ^ 63 }
    ensures { parts.new ≡ record parts.old { views = suspend_ended plan.now dev code time parts.old.views } }
{
    callback_marks(parts, plan, dev, time);
    if code != 0 {
        parts.set_deferred(dev, false);
        if !is_try_again(code) {
            parts.cancel(dev);
        }
    }
}

// The depth rises and nothing stays pending.
fn disables_busy(parts: &mut Parts, dev: DevId)
    requires in_range { dev.0 < length parts.old.shape.parents }
    requires fits { (device parts.old.views dev).depth + 1 < 2 ^ 32 }
    ensures { parts.new ≡ record parts.old { views = disables_busy dev parts.old.views } }
{
    parts.disables(dev);
    parts.cancel_all(dev);
}

// What the status was is kept.
fn keeps_status(parts: &mut Parts, dev: DevId)
    requires { dev.0 < length parts.old.shape.parents }
    ensures { parts.new ≡ record parts.old { views = keeps_status dev parts.old.views } }
{
    let active = parts.is_active(dev);
    parts.set_last(dev, active);
}

// The depth rises, nothing stays pending, and what the status was is kept.
fn disables_at_once(parts: &mut Parts, dev: DevId)
    requires in_range { dev.0 < length parts.old.shape.parents }
    requires fits { (device parts.old.views dev).depth + 1 < 2 ^ 32 }
    ensures { parts.new ≡ record parts.old { views = disabled_at_once dev parts.old.views } }
{
    let active = parts.is_active(dev);
    disables_busy(parts, dev);
    parts.set_last(dev, active);
}

/// What a change of a line at this moment, in milliseconds of the run, makes of the counters. It takes
/// no memory.
#[inline(always)]
pub fn change(parts: &mut Parts, plan: &Plan, time: u64, change: &Change)
    requires made_for { IsFor plan.now parts.old.shape }
    requires fits { can_change (length plan.now.devices) parts.old.views change.now ≡ true }
    requires in_time { time < 2 ^ 63 }
    ensures { parts.new ≡ record parts.old { views = change_views plan.now time change.now parts.old.views } }
{
    match *change {
        Change::Same => {}
        Change::CancelRequest { dev } => parts.cancel_request(dev),
        Change::Disarm { dev } => parts.disarm(dev),
        Change::Cancel { dev } => parts.cancel(dev),
        Change::CancelAll { dev } => parts.cancel_all(dev),
        Change::ResumeCancel { dev } => parts.rcancel(dev),
        Change::CallbackMarks { dev } => callback_marks(parts, plan, dev, time),
        Change::SuspendEnded { dev, code } => suspend_ended(parts, plan, dev, code, time),
        Change::MarkBusy { dev } => parts.set_last_busy(dev, time),
        Change::Enable { dev } => parts.enables(dev),
        Change::Disable { dev } => parts.disables(dev),
        Change::DisableBusy { dev } => disables_busy(parts, dev),
        Change::DisableAtOnce { dev } => disables_at_once(parts, dev),
        Change::KeepStatus { dev } => keeps_status(parts, dev),
        Change::Set {
            dev,
            use_auto,
            delay,
        } => parts.set_setting(dev, use_auto, delay),
        Change::Ignore { dev, ignores } => parts.set_ignores(dev, ignores),
        Change::Link {
            consumer,
            supplier,
            present,
        } => parts.set_present(plan, consumer, supplier, present),
    }
}
