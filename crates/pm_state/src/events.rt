//! What a line's event makes of the counters, whoever writes it and at whatever stage
//! (`runtime_pm.rst`, section 3).

ghost use Rattle.std.specs.Prelude.{◌≡◌, ◌+◌, ◌-◌, ◌<◌, ◌^◌, length, true};
ghost use Rattle.pm_model.specs.declared.event.Word.TheVariants.{ForcedSuspended};
ghost use Rattle.pm_model.specs.CanTake.{can_free, can_get, can_happen, can_put, can_say};
ghost use Rattle.pm_model.specs.Events.{by_end, by_event, by_timer, by_word, by_work, gave, got, set_usage, suspend_failed};
ghost use Rattle.pm_model.specs.Views.{device};
ghost use Rattle.pm_device.specs.Parts.{IsFor};

use pm_base::{Cb, DevId, Status, Why};
use pm_device::{Parts, is_try_again};
use pm_model::{Event, Plan, TimerAct, Word, WorkAct};

// A count was taken for this reason.
#[tactic(auto, using(crate::proofs::CountLemmas::usage_has_room))]
fn get(parts: &mut Parts, plan: &Plan, dev: DevId, why: Why)
    requires made_for { IsFor plan.now parts.old.shape }
    requires in_range { dev.0 < length parts.old.shape.parents }
    requires fits { can_get parts.old.views dev why ≡ true }
    ensures { parts.new ≡ record parts.old { views = got plan.now dev why (set_usage ((device parts.old.views dev).usage + 1) dev parts.old.views) } }
{
    parts.take_count(dev);
    match why {
        Why::Caller => parts.take_share(dev),
        Why::Forbid => parts.set_auto(dev, false),
        Why::Link(consumer) => parts.set_held(plan, consumer, dev, true),
        Why::Control | Why::Delay | Why::Child(_) => {}
    }
}

// A count was given back that was taken for this reason.
#[tactic(auto, using(crate::proofs::CountLemmas::usage_is_taken))]
fn put(parts: &mut Parts, plan: &Plan, dev: DevId, why: Why)
    requires made_for { IsFor plan.now parts.old.shape }
    requires in_range { dev.0 < length parts.old.shape.parents }
    requires fits { can_put parts.old.views dev why ≡ true }
    ensures { parts.new ≡ record parts.old { views = gave plan.now dev why (set_usage ((device parts.old.views dev).usage - 1) dev parts.old.views) } }
{
    parts.give_count(dev);
    match why {
        Why::Caller => parts.give_share(dev),
        Why::Forbid => parts.set_auto(dev, true),
        Why::Link(consumer) => parts.set_held(plan, consumer, dev, false),
        Why::Control | Why::Delay | Why::Child(_) => {}
    }
}

// A callback ended with this code.
fn end(parts: &mut Parts, dev: DevId, cb: Cb, code: i32)
    requires { dev.0 < length parts.old.shape.parents }
    ensures { parts.new ≡ record parts.old { views = by_end dev cb code parts.old.views } }
{
    match cb {
        Cb::Idle => parts.end_idle(dev),
        Cb::Suspend => {
            if code != 0 {
                fail_suspend(parts, dev, code);
            }
        }
        Cb::Resume => {
            if code != 0 {
                parts.set_error(dev, code);
            }
        }
    }
}

// A suspend callback failed with this code.
fn fail_suspend(parts: &mut Parts, dev: DevId, code: i32)
    requires { dev.0 < length parts.old.shape.parents }
    ensures { parts.new ≡ record parts.old { views = suspend_failed dev code parts.old.views } }
{
    parts.set_status(dev, Status::Active);
    if !is_try_again(code) {
        parts.set_error(dev, code);
    }
}

// The work item of a device is queued or runs, or a resume is deferred.
fn work(parts: &mut Parts, dev: DevId, act: WorkAct)
    requires { dev.0 < length parts.old.shape.parents }
    ensures { parts.new ≡ record parts.old { views = by_work dev act parts.old.views } }
{
    match act {
        WorkAct::Queue(req) => parts.place(dev, req),
        WorkAct::Defer => parts.set_deferred(dev, true),
        WorkAct::Run(_) => parts.clear(dev),
    }
}

// The timer of a device is armed or fires.
fn fire(parts: &mut Parts, dev: DevId, act: TimerAct)
    requires { dev.0 < length parts.old.shape.parents }
    ensures { parts.new ≡ record parts.old { views = by_timer dev act parts.old.views } }
{
    match act {
        TimerAct::Arm { at, autosuspends } => parts.arm(dev, at, autosuspends),
        TimerAct::Fire { .. } => parts.disarm(dev),
    }
}

// The status of a device is written.
fn state(parts: &mut Parts, plan: &Plan, dev: DevId, word: Word, time: u64)
    requires made_for { IsFor plan.now parts.old.shape }
    requires in_range { dev.0 < length parts.old.shape.parents }
    requires in_time { time < 2 ^ 63 }
    requires fits { can_say plan.now parts.old.views dev word ≡ true }
    ensures { parts.new ≡ record parts.old { views = by_word plan.now time dev word parts.old.views } }
{
    match word {
        Word::Active => {
            parts.set_status(dev, Status::Active);
            parts.set_last_busy(dev, time);
        }
        Word::Resuming => parts.set_status(dev, Status::Resuming),
        Word::Suspended => {
            parts.set_status(dev, Status::Suspended);
            parts.disarm(dev);
        }
        Word::Deferred => {
            parts.set_status(dev, Status::Suspended);
            parts.disarm(dev);
            parts.set_deferred(dev, false);
        }
        Word::ForcedActive => {
            parts.set_status(dev, Status::Active);
            parts.set_error(dev, 0);
        }
        Word::ForcedSuspended => force_suspended(parts, plan, dev),
    }
}

// The status of a device is forced: its held links are free, and their suppliers have their counts
// back.
#[tactic(auto, using(crate::proofs::CalmLemmas::can_free_forced))]
fn force_suspended(parts: &mut Parts, plan: &Plan, dev: DevId)
    requires made_for { IsFor plan.now parts.old.shape }
    requires in_range { dev.0 < length parts.old.shape.parents }
    requires fits { can_free plan.now parts.old.views dev ≡ true }
    ensures { parts.new ≡ record parts.old { views = by_word plan.now 0 dev ForcedSuspended parts.old.views } }
{
    parts.set_status(dev, Status::Suspended);
    parts.set_error(dev, 0);
    parts.disarm(dev);
    parts.free_links(plan, dev);
}

/// What the event of a line at this moment, in milliseconds of the run, makes of the counters. It
/// takes no memory.
#[tactic(auto, unfolding(pm_model::specs::Events::by_event))]
#[inline(always)]
pub fn happen(parts: &mut Parts, plan: &Plan, time: u64, event: &Event)
    requires made_for { IsFor plan.now parts.old.shape }
    requires in_time { time < 2 ^ 63 }
    requires fits { can_happen plan.now parts.old.views event.now ≡ true }
    ensures { parts.new ≡ record parts.old { views = by_event plan.now time event.now parts.old.views } }
{
    match *event {
        Event::Get { dev, why } => get(parts, plan, dev, why),
        Event::Put { dev, why } => put(parts, plan, dev, why),
        Event::State { dev, word } => state(parts, plan, dev, word, time),
        Event::Begin { dev, cb } => parts.begin(dev, cb),
        Event::End { dev, cb, code } => end(parts, dev, cb, code),
        Event::Domain { dev, up: true, .. } => parts.switch_up(plan, dev),
        Event::Domain { dev, up: false, .. } => parts.switch_down(plan, dev),
        Event::Work { dev, act } => work(parts, dev, act),
        Event::Timer { dev, act } => fire(parts, dev, act),
        Event::Call { .. }
        | Event::Ret { .. }
        | Event::Usage { .. }
        | Event::Idle { .. }
        | Event::Suspend { .. }
        | Event::Resume { .. }
        | Event::Return { .. }
        | Event::Wait { .. } => {}
    }
}
