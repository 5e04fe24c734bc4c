//! `enable` and `disable` (`runtime_pm.rst`, sections 4 and 5).

ghost use Rattle.std.specs.Prelude.{◌≡◌, ◌<◌, length};
ghost use Rattle.pm_model.specs.ControlTable.{disable_ends, disable_starts, disabling, enabling};
ghost use Rattle.pm_model.specs.Row.{move_of};

use crate::{control_goes, takes};
use pm_base::{DevId, EINVAL, Why};
use pm_device::{Parts, calls, helper_returns, to_resume};
use pm_model::{Await, Change, ControlStage, Event, Helper, Move};

/// `enable`.
#[tactic(auto, unfolding(pm_model::specs::ControlTable::enabling))]
pub fn enabling(parts: &Parts, dev: DevId) -> Move
    requires { dev.0 < length parts.now.shape.parents }
    ensures { result ≡ move_of (enabling parts.now.views dev) }
{
    if parts.is_disabled(dev) {
        helper_returns(Helper::Enable, dev, 0, Change::Enable { dev })
    } else {
        helper_returns(Helper::Enable, dev, EINVAL, Change::Same)
    }
}

/// [X2]
#[tactic(auto, unfolding(pm_model::specs::ControlTable::disabling))]
pub fn disabling(parts: &Parts, dev: DevId) -> Move
    requires { dev.0 < length parts.now.shape.parents }
    ensures { result ≡ move_of (disabling parts.now.views dev) }
{
    if parts.is_disabled(dev) {
        return helper_returns(Helper::Disable, dev, 0, Change::Disable { dev });
    }
    if parts.busy(dev) {
        return Move::Write(
            Event::Wait { dev },
            Change::DisableBusy { dev },
            control_goes(ControlStage::Disabled { dev }),
        );
    }
    helper_returns(Helper::Disable, dev, 0, Change::DisableAtOnce { dev })
}

/// [X1]
#[tactic(auto, unfolding(pm_model::specs::ControlTable::disable_starts))]
pub fn disable_starts(parts: &Parts, dev: DevId) -> Move
    requires { dev.0 < length parts.now.shape.parents }
    ensures { result ≡ move_of (disable_starts parts.now.views dev) }
{
    if parts.resumes_first(dev) {
        let then = calls(to_resume(dev, 0), Await::DisableResume { dev });
        return takes(dev, Why::Control, Change::Same, then);
    }
    disabling(parts, dev)
}

/// [X3]
#[tactic(auto, unfolding(pm_model::specs::ControlTable::disable_ends))]
pub fn disable_ends(parts: &Parts, dev: DevId) -> Move
    requires { dev.0 < length parts.now.shape.parents }
    ensures { result ≡ move_of (disable_ends parts.now.views dev) }
{
    if parts.busy(dev) {
        return Move::Wait(dev);
    }
    if parts.is_disabled(dev) {
        return helper_returns(Helper::Disable, dev, 0, Change::KeepStatus { dev });
    }
    helper_returns(Helper::Disable, dev, 0, Change::Same)
}
