//! Whether a snapshot breaks a use.

ghost use Rattle.std.specs.Prelude.{◌≡◌, not};
ghost use Rattle.std.specs.List.{list_all};
ghost use Rattle.pm_base.specs.declared.ActorId.TheVariants.{Caller};
ghost use Rattle.pm_safety.specs.dependencies.Bonds.{off_domain};
ghost use Rattle.pm_expect_report.specs.broken.Breaches.{is_in_call_of, is_in_use, is_return_of, lack_in_use};
ghost use Rattle.pm_model.specs.Derived.{is_active};
ghost use Rattle.pm_model.specs.Lawful.{is_empty_place};
ghost use Rattle.pm_model.specs.PlanRows.{chain, domain, domain_parent, domains_of};
ghost use Rattle.pm_model.specs.Views.{is_on};
ghost use Rattle.pm_model.specs.World.{called_by, place};
ghost use Rattle.pm_explore.specs.state.SnapshotOf.{snapshot_of, views_of, world_of};
ghost use Rattle.pm_expect.specs.uses.Lacks.{lack_now};

use crate::broken::answering::{is_command_at, script_of};
use pm_base::{DevId, DomId, Status};
use pm_expect::Use;
use pm_expect::verdicts::Lack;
use pm_explore::state::Snapshot;
use pm_model::Plan;
use pm_outcomes::observe::{device_at, shown_return};

// The domain of a device.
fn domain_of(plan: &Plan, dev: DevId) -> Option<DomId>
    ensures { result ≡ domain plan.now dev }
{
    match plan.devices.get(dev.0 as usize) {
        Some(row) => row.domain,
        None => None,
    }
}

// The domain above a domain.
fn domain_above(plan: &Plan, domain: DomId) -> Option<DomId>
    ensures { result ≡ domain_parent plan.now.domains domain }
{
    match plan.domains.get(domain.0 as usize) {
        Some(row) => row.parent,
        None => None,
    }
}

// Whether a domain is on.
fn is_on(snapshot: &Snapshot, domain: DomId) -> bool
    ensures { result ≡ is_on (views_of snapshot.now) domain.0 }
{
    snapshot
        .on
        .as_slice()
        .get(domain.0 as usize)
        .copied()
        .unwrap_or(false)
}

// Whether a domain and those above it, so many at most, are on.
fn are_on(plan: &Plan, snapshot: &Snapshot, most: usize, domain: Option<DomId>) -> bool
    ensures { result ≡ list_all (is_on (views_of snapshot.now)) (chain plan.now.domains most domain) }
{
    if most == 0 {
        return true;
    }
    let Some(domain) = domain else {
        return true;
    };
    is_on(snapshot, domain) && are_on(plan, snapshot, most - 1, domain_above(plan, domain))
}

// Whether the domains of a device are on.
#[tactic(auto, unfolding(pm_model::specs::PlanRows::domains_of))]
fn is_powered(plan: &Plan, snapshot: &Snapshot, dev: DevId) -> bool
    ensures { result ≡ list_all (is_on (views_of snapshot.now)) (domains_of plan.now dev) }
{
    are_on(plan, snapshot, plan.domains.len(), domain_of(plan, dev))
}

// Whether a device is active.
fn is_active(snapshot: &Snapshot, dev: DevId) -> bool
    ensures { result ≡ is_active (views_of snapshot.now) dev }
{
    matches!(device_at(snapshot, dev).status, Status::Active)
}

// The domain of an active device, where it or one above it is off.
fn off_domain(plan: &Plan, snapshot: &Snapshot, dev: DevId) -> Option<DomId>
    ensures { result ≡ off_domain plan.now (views_of snapshot.now) dev }
{
    match domain_of(plan, dev) {
        Some(domain) if is_active(snapshot, dev) && !is_powered(plan, snapshot, dev) => Some(
            domain,
        ),
        _ => None,
    }
}

// What a device lacks to be used.
fn lack_now(plan: &Plan, snapshot: &Snapshot, dev: DevId) -> Option<Lack>
    ensures { result ≡ lack_now plan.now (views_of snapshot.now) dev }
{
    if !is_active(snapshot, dev) {
        return Some(Lack::Inactive {
            status: device_at(snapshot, dev).status,
        });
    }
    match off_domain(plan, snapshot, dev) {
        Some(domain) => Some(Lack::Domain { domain }),
        None => None,
    }
}

// Whether a caller has open stages.
fn is_busy(snapshot: &Snapshot, caller: u32) -> bool
    ensures { result ≡ not (is_empty_place (place (world_of snapshot.now) (Caller caller))) }
{
    match snapshot.caller_places.as_slice().get(caller as usize) {
        Some(stages) => !stages.is_empty(),
        None => false,
    }
}

// Whether the last line is a return of a caller's.
fn is_return_of(snapshot: &Snapshot, caller: u32) -> bool
    ensures { result ≡ is_return_of (snapshot_of snapshot.now) caller }
{
    match shown_return(snapshot) {
        Some(returned) => returned.caller == caller,
        None => false,
    }
}

// Whether the last line is of a call by a caller.
fn is_in_call_of(snapshot: &Snapshot, caller: u32) -> bool
    ensures { result ≡ is_in_call_of (snapshot_of snapshot.now) caller }
{
    is_busy(snapshot, caller) || is_return_of(snapshot, caller)
}

// How many commands a caller has called.
fn called_by(snapshot: &Snapshot, caller: u32) -> u32
    ensures { result ≡ called_by (world_of snapshot.now) caller }
{
    snapshot
        .called
        .as_slice()
        .get(caller as usize)
        .copied()
        .unwrap_or(0)
}

// Whether the last line is of a call of the command of a use.
fn is_in_use(plan: &Plan, each: &Use, snapshot: &Snapshot) -> bool
    ensures { result ≡ is_in_use plan.now each.now (snapshot_of snapshot.now) }
{
    is_in_call_of(snapshot, each.caller)
        && is_command_at(
            &each.command,
            script_of(plan, each.caller),
            called_by(snapshot, each.caller),
        )
}

/// What the device of a use lacks at a snapshot, in a call of its command.
pub fn lack_in_use(plan: &Plan, each: &Use, snapshot: &Snapshot) -> Option<Lack>
    ensures { result ≡ lack_in_use plan.now each.now (snapshot_of snapshot.now) }
{
    if is_in_use(plan, each, snapshot) {
        lack_now(plan, snapshot, each.dev)
    } else {
        None
    }
}
