//! `forbid`, `allow`, the autosuspend settings and `schedule_suspend` (`runtime_pm.rst`, sections 4,
//! 5 and 9).

ghost use Rattle.std.specs.Prelude.{◌≡◌, ◌+◌, ◌<◌, ◌^◌, length};
ghost use Rattle.pm_model.specs.declared.plan.Plan.{Plan as APlan};
ghost use Rattle.pm_model.specs.ControlTable.{allowing, forbidding, schedules, sets};
ghost use Rattle.pm_model.specs.Row.{move_of};
ghost use Rattle.pm_device.specs.Parts.{IsFor};

use crate::{gives, takes};
use pm_base::{DevId, Why};
use pm_device::{Parts, calls, helper_returns, prevented, then_returns, to_resume};
use pm_model::{Await, Change, Event, Helper, IdleStage, Move, Plan, Stage, TimerAct};

/// `forbid`.
#[tactic(auto, unfolding(pm_model::specs::ControlTable::forbidding))]
pub fn forbidding(parts: &Parts, dev: DevId) -> Move
    requires { dev.0 < length parts.now.shape.parents }
    ensures { result ≡ move_of (forbidding parts.now.views dev) }
{
    if !parts.device(dev).auto_on {
        return helper_returns(Helper::Forbid, dev, 0, Change::Same);
    }
    let under = Await::ReturnZero {
        helper: Helper::Forbid,
        dev,
    };
    takes(
        dev,
        Why::Forbid,
        Change::Same,
        calls(to_resume(dev, 0), under),
    )
}

/// `allow`.
#[tactic(auto, unfolding(pm_model::specs::ControlTable::allowing))]
pub fn allowing(parts: &Parts, dev: DevId) -> Move
    requires { dev.0 < length parts.now.shape.parents }
    ensures { result ≡ move_of (allowing parts.now.views dev) }
{
    if parts.device(dev).auto_on {
        return helper_returns(Helper::Allow, dev, 0, Change::Same);
    }
    let after_put = Stage::Idle(IdleStage::AfterPut { dev, flags: 9 });
    let under = Await::ReturnZero {
        helper: Helper::Allow,
        dev,
    };
    gives(dev, Why::Forbid, Change::Same, calls(after_put, under))
}

/// A helper that sets whether autosuspend is in use and its delay, to these.
#[tactic(auto, unfolding(pm_model::specs::ControlTable::sets))]
pub fn sets(parts: &Parts, helper: Helper, dev: DevId, use_auto: bool, delay: i64) -> Move
    requires { dev.0 < length parts.now.shape.parents }
    ensures { (plan : APlan) → IsFor plan parts.now.shape → result ≡ move_of (sets plan parts.now.views helper dev use_auto delay) }
{
    let device = parts.device(dev);
    let was = prevented(device.use_auto, device.delay);
    let is = prevented(use_auto, delay);
    let new = Change::Set {
        dev,
        use_auto,
        delay,
    };
    let under = Await::ReturnZero { helper, dev };
    if !was && is {
        return takes(dev, Why::Delay, new, calls(to_resume(dev, 0), under));
    }
    if was && is {
        return helper_returns(helper, dev, 0, new);
    }
    if was && !is {
        let idle = Stage::Idle(IdleStage::Enter { dev, flags: 8 });
        return gives(dev, Why::Delay, new, calls(idle, under));
    }
    parts.calls_idle(dev, 8, new, under)
}

/// `schedule_suspend` in so many milliseconds, called at this moment.
#[tactic(auto, unfolding(pm_model::specs::ControlTable::schedules))]
pub fn schedules(plan: &Plan, parts: &Parts, dev: DevId, ms: u64, time: u64) -> Move
    requires made_for { IsFor plan.now parts.now.shape }
    requires in_range { dev.0 < length plan.now.devices }
    requires reckons { time + ms < 2 ^ 64 }
    ensures { result ≡ move_of (schedules plan.now parts.now.views dev ms time) }
{
    let helper = Helper::ScheduleSuspend;
    if ms == 0 {
        return parts.calls_suspend(dev, 1, Await::Return { helper, dev });
    }
    let refusal = parts.refusal(plan, dev);
    if refusal != 0 {
        return helper_returns(helper, dev, refusal, Change::Same);
    }
    let act = TimerAct::Arm {
        at: time + ms,
        autosuspends: false,
    };
    Move::Write(
        Event::Timer { dev, act },
        Change::CancelRequest { dev },
        then_returns(helper, dev, 0),
    )
}
