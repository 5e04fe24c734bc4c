//! `link_add` and `link_del` (this project's own).

ghost use Rattle.std.specs.Prelude.{◌≡◌, ◌<◌, ◌||◌, length, not};
ghost use Rattle.pm_model.specs.ControlTable.{is_pair_in, link_adds, link_dels, may_be_absent};
ghost use Rattle.pm_model.specs.Derived.{busy, is_suspended};
ghost use Rattle.pm_model.specs.Row.{move_of};
ghost use Rattle.pm_device.specs.Parts.{IsFor};

use crate::gives;
use pm_base::{DevId, EAGAIN, EINVAL, Why};
use pm_device::{Parts, calls, helper_returns};
use pm_model::{Await, Change, Helper, IdleStage, Move, Plan, Stage};

// No link of the pair can be added now.
fn cannot_add(plan: &Plan, parts: &Parts, consumer: DevId, supplier: DevId) -> bool
    requires { IsFor plan.now parts.now.shape }
    ensures { result ≡ (not (may_be_absent plan.now consumer supplier) || is_pair_in plan.now consumer supplier parts.now.views.present) }
{
    !parts.may_be_absent(plan, consumer, supplier) || parts.is_present(plan, consumer, supplier)
}

// No link of the pair can be removed now.
fn cannot_remove(plan: &Plan, parts: &Parts, consumer: DevId, supplier: DevId) -> bool
    requires { IsFor plan.now parts.now.shape }
    ensures { result ≡ (not (may_be_absent plan.now consumer supplier) || not (is_pair_in plan.now consumer supplier parts.now.views.present)) }
{
    !parts.may_be_absent(plan, consumer, supplier) || !parts.is_present(plan, consumer, supplier)
}

// The consumer isn't at rest.
fn is_at_work(parts: &Parts, consumer: DevId) -> bool
    requires { consumer.0 < length parts.now.shape.parents }
    ensures { result ≡ (not (is_suspended parts.now.views consumer) || busy parts.now.views consumer) }
{
    !parts.is_suspended(consumer) || parts.busy(consumer)
}

/// `link_add`.
#[tactic(auto, unfolding(pm_model::specs::ControlTable::link_adds))]
pub fn link_adds(plan: &Plan, parts: &Parts, consumer: DevId, supplier: DevId) -> Move
    requires made_for { IsFor plan.now parts.now.shape }
    requires in_range { consumer.0 < length plan.now.devices }
    ensures { result ≡ move_of (link_adds plan.now parts.now.views consumer supplier) }
{
    let change = Change::Link {
        consumer,
        supplier,
        present: true,
    };
    if cannot_add(plan, parts, consumer, supplier) {
        helper_returns(Helper::LinkAdd, consumer, EINVAL, Change::Same)
    } else if is_at_work(parts, consumer) {
        helper_returns(Helper::LinkAdd, consumer, EAGAIN, Change::Same)
    } else {
        helper_returns(Helper::LinkAdd, consumer, 0, change)
    }
}

/// `link_del`.
#[tactic(auto, unfolding(pm_model::specs::ControlTable::link_dels))]
pub fn link_dels(plan: &Plan, parts: &Parts, consumer: DevId, supplier: DevId) -> Move
    requires made_for { IsFor plan.now parts.now.shape }
    requires in_range { consumer.0 < length plan.now.devices }
    ensures { result ≡ move_of (link_dels plan.now parts.now.views consumer supplier) }
{
    let change = Change::Link {
        consumer,
        supplier,
        present: false,
    };
    if cannot_remove(plan, parts, consumer, supplier) {
        return helper_returns(Helper::LinkDel, consumer, EINVAL, Change::Same);
    }
    if parts.busy(consumer) {
        return helper_returns(Helper::LinkDel, consumer, EAGAIN, Change::Same);
    }
    if parts.is_held(plan, consumer, supplier) {
        let after_put = Stage::Idle(IdleStage::AfterPut {
            dev: supplier,
            flags: 5,
        });
        let under = Await::ReturnZero {
            helper: Helper::LinkDel,
            dev: consumer,
        };
        return gives(
            supplier,
            Why::Link(consumer),
            change,
            calls(after_put, under),
        );
    }
    helper_returns(Helper::LinkDel, consumer, 0, change)
}
