//! `set_active` and `set_suspended` (`runtime_pm.rst`, section 4; `device_link.rst` for the
//! suppliers).

ghost use Rattle.std.specs.Prelude.{◌≡◌, ◌<◌, length};
ghost use Rattle.pm_model.specs.ControlTable.{active_links, active_starts, active_unwinds, forces_active, suppliers_idle, suspended_starts};
ghost use Rattle.pm_model.specs.Row.{move_of};
ghost use Rattle.pm_device.specs.Parts.{IsFor};

use crate::{control_goes, gives, takes, writes_status};
use pm_base::{DevId, EAGAIN, EBUSY, Why};
use pm_device::{Parts, calls, helper_returns, parent_of, supplier_call, then_returns};
use pm_model::{Await, Change, ControlStage, Helper, IdleStage, Move, Plan, Stage, Word};

// The device becomes Active.
fn forces_active(dev: DevId) -> Move
    ensures { result ≡ move_of (forces_active dev) }
{
    writes_status(
        dev,
        Word::ForcedActive,
        then_returns(Helper::SetActive, dev, 0),
    )
}

/// [A1]
#[tactic(auto, unfolding(pm_model::specs::ControlTable::active_starts))]
pub fn active_starts(plan: &Plan, parts: &Parts, dev: DevId) -> Move
    requires made_for { IsFor plan.now parts.now.shape }
    requires in_range { dev.0 < length plan.now.devices }
    ensures { result ≡ move_of (active_starts plan.now parts.now.views dev) }
{
    if parts.may_not_force(dev) {
        return helper_returns(Helper::SetActive, dev, EAGAIN, Change::Same);
    }
    if parts.is_active(dev) {
        return forces_active(dev);
    }
    if parts.has_link(plan, dev) {
        return writes_status(
            dev,
            Word::Resuming,
            control_goes(ControlStage::ActiveLinks { dev }),
        );
    }
    if parts.awaits_parent(plan, dev) {
        return helper_returns(Helper::SetActive, dev, EBUSY, Change::Same);
    }
    forces_active(dev)
}

/// [A4]
#[tactic(auto, unfolding(pm_model::specs::ControlTable::active_unwinds))]
pub fn active_unwinds(plan: &Plan, parts: &Parts, dev: DevId, code: i32) -> Move
    requires made_for { IsFor plan.now parts.now.shape }
    requires in_range { dev.0 < length plan.now.devices }
    ensures { result ≡ move_of (active_unwinds plan.now parts.now.views dev code) }
{
    match parts.first_held(plan, dev) {
        Some((_, supplier)) => {
            let after_put = Stage::Idle(IdleStage::AfterPut {
                dev: supplier,
                flags: 5,
            });
            gives(
                supplier,
                Why::Link(dev),
                Change::Same,
                calls(after_put, Await::ActiveUnwind { dev, code }),
            )
        }
        None => writes_status(
            dev,
            Word::Suspended,
            then_returns(Helper::SetActive, dev, code),
        ),
    }
}

/// [A2]
#[tactic(auto, unfolding(pm_model::specs::ControlTable::active_links))]
pub fn active_links(plan: &Plan, parts: &Parts, dev: DevId) -> Move
    requires made_for { IsFor plan.now parts.now.shape }
    requires in_range { dev.0 < length plan.now.devices }
    ensures { result ≡ move_of (active_links plan.now parts.now.views dev) }
{
    match parts.first_free(plan, dev) {
        Some((link, supplier)) => takes(
            supplier,
            Why::Link(dev),
            Change::Same,
            calls(
                supplier_call(link, supplier),
                Await::ActiveSupplier { dev, link },
            ),
        ),
        None => {
            if parts.awaits_parent(plan, dev) {
                active_unwinds(plan, parts, dev, EBUSY)
            } else {
                forces_active(dev)
            }
        }
    }
}

/// `set_suspended`.
#[tactic(auto, unfolding(pm_model::specs::ControlTable::suspended_starts))]
pub fn suspended_starts(parts: &Parts, dev: DevId) -> Move
    requires { dev.0 < length parts.now.shape.parents }
    ensures { result ≡ move_of (suspended_starts parts.now.views dev) }
{
    if parts.may_not_force(dev) {
        return helper_returns(Helper::SetSuspended, dev, EAGAIN, Change::Same);
    }
    let next = ControlStage::SuppliersIdle { dev, last: None };
    writes_status(dev, Word::ForcedSuspended, control_goes(next))
}

/// `set_suspended` tells each supplier in turn, then the parent.
#[tactic(auto, unfolding(pm_model::specs::ControlTable::suppliers_idle))]
pub fn suppliers_idle(plan: &Plan, parts: &Parts, dev: DevId, last: Option<DevId>) -> Move
    requires made_for { IsFor plan.now parts.now.shape }
    requires in_range { dev.0 < length plan.now.devices }
    ensures { result ≡ move_of (suppliers_idle plan.now parts.now.views dev last) }
{
    match parts.next_supplier(plan, dev, last) {
        Some((_, supplier)) => {
            parts.calls_idle(
                supplier,
                1,
                Change::Same,
                Await::SuppliersIdle { dev, supplier },
            )
        }
        None => {
            if parts.tells_parent(plan, dev) {
                let under = Await::ReturnZero {
                    helper: Helper::SetSuspended,
                    dev,
                };
                parts.calls_idle(parent_of(plan, dev), 1, Change::Same, under)
            } else {
                helper_returns(Helper::SetSuspended, dev, 0, Change::Same)
            }
        }
    }
}
