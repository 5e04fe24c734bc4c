//! `barrier` (`runtime_pm.rst`, section 4).

ghost use Rattle.std.specs.Prelude.{◌≡◌, ◌<◌, length};
ghost use Rattle.pm_model.specs.ControlTable.{barrier_ends, barrier_idles, barrier_resumes};
ghost use Rattle.pm_model.specs.Row.{move_of};
ghost use Rattle.pm_device.specs.Parts.{IsFor};

use crate::{control_goes, gives};
use pm_base::{DevId, Why};
use pm_device::{Parts, then_returns};
use pm_model::{Await, Change, ControlStage, Event, Helper, Move, Plan, Purpose};

/// Once no resume is pending.
#[tactic(auto, unfolding(pm_model::specs::ControlTable::barrier_idles))]
pub fn barrier_idles(parts: &Parts, dev: DevId, code: i32) -> Move
    requires { dev.0 < length parts.now.shape.parents }
    ensures { result ≡ move_of (barrier_idles parts.now.views dev code) }
{
    if parts.busy(dev) {
        return Move::Write(
            Event::Wait { dev },
            Change::CancelAll { dev },
            control_goes(ControlStage::BarrierWait { dev, code }),
        );
    }
    gives(
        dev,
        Why::Control,
        Change::CancelAll { dev },
        then_returns(Helper::Barrier, dev, code),
    )
}

/// A pending resume is carried out first.
#[tactic(auto, unfolding(pm_model::specs::ControlTable::barrier_resumes))]
pub fn barrier_resumes(plan: &Plan, parts: &Parts, dev: DevId) -> Move
    requires made_for { IsFor plan.now parts.now.shape }
    requires in_range { dev.0 < length plan.now.devices }
    ensures { result ≡ move_of (barrier_resumes plan.now parts.now.views dev) }
{
    if parts.asks_resume(dev) {
        return parts.calls_resume(dev, 0, Purpose::Plain, Await::BarrierResume { dev });
    }
    barrier_idles(parts, dev, 0)
}

/// After its wait line.
#[tactic(auto, unfolding(pm_model::specs::ControlTable::barrier_ends))]
pub fn barrier_ends(parts: &Parts, dev: DevId, code: i32) -> Move
    requires { dev.0 < length parts.now.shape.parents }
    ensures { result ≡ move_of (barrier_ends parts.now.views dev code) }
{
    if parts.busy(dev) {
        return Move::Wait(dev);
    }
    gives(
        dev,
        Why::Control,
        Change::Same,
        then_returns(Helper::Barrier, dev, code),
    )
}
