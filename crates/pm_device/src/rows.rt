//! What a plan says of its devices, and which of them a topology helper names as the supplier.

ghost use Rattle.std.specs.Prelude.{◌≡◌, ◌<◌, IfSome, Some, length, nat_abs, pos, slice_get, true, unwrap_or};
ghost use Rattle.pm_model.specs.declared.event.Helper.TheVariants as helper;
ghost use Rattle.pm_model.specs.IsPlan.{is_command};
ghost use Rattle.pm_model.specs.PlanRows.{codes_of, domain, has_domain, has_idle, has_parent, marks_busy, ms_of, no_callbacks, parent, parent_of};

use pm_base::{Cb, DevId, DomId};
use pm_model::{Codes, Command, DeviceRow, Plan};

// The row of a device.
fn row(plan: &Plan, dev: DevId) -> &DeviceRow
    requires { dev.0 < length plan.now.devices }
    ensures { slice_get plan.now.devices dev.0 ≡ Some result.now }
{
    &plan.devices.as_slice()[dev.0 as usize]
}

/// Whether a device has no callbacks of its own (`runtime_pm.rst`, section 8).
#[tactic(auto, unfolding(pm_model::specs::PlanRows::no_callbacks))]
pub fn no_callbacks(plan: &Plan, dev: DevId) -> bool
    requires { dev.0 < length plan.now.devices }
    ensures { result ≡ no_callbacks plan.now dev }
{
    row(plan, dev).no_callbacks
}

/// Whether a device has an idle callback.
#[tactic(auto, unfolding(pm_model::specs::PlanRows::has_idle))]
pub fn has_idle(plan: &Plan, dev: DevId) -> bool
    requires { dev.0 < length plan.now.devices }
    ensures { result ≡ has_idle plan.now dev }
{
    let row = row(plan, dev);
    row.idle.is_some() && !row.no_callbacks
}

/// Whether the callbacks of a device mark it as last busy when they end.
#[tactic(auto, unfolding(pm_model::specs::PlanRows::marks_busy))]
pub fn marks_busy(plan: &Plan, dev: DevId) -> bool
    requires { dev.0 < length plan.now.devices }
    ensures { result ≡ marks_busy plan.now dev }
{
    row(plan, dev).busy
}

/// The parent of a device, which stands earlier.
#[tactic(auto, unfolding(pm_model::specs::PlanRows::parent))]
pub fn parent(plan: &Plan, dev: DevId) -> Option<DevId>
    requires { dev.0 < length plan.now.devices }
    ensures parent { result ≡ parent plan.now dev }
    ensures earlier { IfSome result (λ p. p.0 < dev.0) }
{
    row(plan, dev).parent
}

/// Whether a device has a parent.
#[tactic(auto, unfolding(pm_model::specs::PlanRows::has_parent))]
pub fn has_parent(plan: &Plan, dev: DevId) -> bool
    requires { dev.0 < length plan.now.devices }
    ensures { result ≡ has_parent plan.now dev }
{
    parent(plan, dev).is_some()
}

/// The parent of a device that has one, and else the device.
#[tactic(auto, unfolding(pm_model::specs::PlanRows::parent_of))]
pub fn parent_of(plan: &Plan, dev: DevId) -> DevId
    requires { dev.0 < length plan.now.devices }
    ensures parent { result ≡ parent_of plan.now dev }
    ensures in_range { result.0 < length plan.now.devices }
{
    match parent(plan, dev) {
        Some(parent) => parent,
        None => dev,
    }
}

/// The power domain to which a device is attached.
#[tactic(auto, unfolding(pm_model::specs::PlanRows::domain))]
pub fn domain(plan: &Plan, dev: DevId) -> Option<DomId>
    requires { dev.0 < length plan.now.devices }
    ensures { result ≡ domain plan.now dev }
{
    row(plan, dev).domain
}

/// Whether a device is attached to a power domain.
#[tactic(auto, unfolding(pm_model::specs::PlanRows::has_domain))]
pub fn has_domain(plan: &Plan, dev: DevId) -> bool
    requires { dev.0 < length plan.now.devices }
    ensures { result ≡ has_domain plan.now dev }
{
    domain(plan, dev).is_some()
}

/// How long a callback of a device takes, in milliseconds, 0 to 1,000,000.
#[tactic(auto, unfolding(pm_model::specs::PlanRows::ms_of))]
pub fn ms_of(plan: &Plan, cb: Cb, dev: DevId) -> u32
    requires { dev.0 < length plan.now.devices }
    ensures { result ≡ ms_of plan.now cb dev }
{
    let row = row(plan, dev);
    match cb {
        Cb::Idle => row.idle_ms,
        Cb::Suspend => row.suspend_ms,
        Cb::Resume => row.resume_ms,
    }
}

// The code at a place of a list of codes, and 0 past its end.
fn code_at(codes: &Codes, place: usize) -> i32
    ensures { result ≡ unwrap_or (slice_get codes.now place) (pos 0) }
{
    codes.as_slice().get(place).copied().unwrap_or(0)
}

/// What the callback of this kind that begins as the n-th, counted from 0, answers.
#[tactic(auto, unfolding(pm_model::specs::PlanRows::codes_of))]
pub fn code_of(plan: &Plan, cb: Cb, dev: DevId, n: u32) -> i32
    requires { dev.0 < length plan.now.devices }
    ensures { result ≡ unwrap_or (slice_get (codes_of plan.now cb dev) n) (pos 0) }
{
    let row = row(plan, dev);
    match cb {
        Cb::Idle => match &row.idle {
            Some(codes) => code_at(codes, n as usize),
            None => 0,
        },
        Cb::Suspend => code_at(&row.suspend, n as usize),
        Cb::Resume => code_at(&row.resume, n as usize),
    }
}

/// The supplier that `link_add` names.
pub fn added(plan: &Plan, command: Command) -> DevId
    requires command { is_command (length plan.now.devices) command ≡ true }
    requires helper { command.helper ≡ helper.LinkAdd }
    ensures { result ≡ record { 0 = nat_abs command.number } }
{
    DevId(command.number.unsigned_abs() as u32)
}

/// The supplier that `link_del` names.
pub fn removed(plan: &Plan, command: Command) -> DevId
    requires command { is_command (length plan.now.devices) command ≡ true }
    requires helper { command.helper ≡ helper.LinkDel }
    ensures { result ≡ record { 0 = nat_abs command.number } }
{
    DevId(command.number.unsigned_abs() as u32)
}
