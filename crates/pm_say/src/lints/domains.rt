//! Which power domains are on.

ghost use Rattle.std.specs.Prelude.{◌≡◌, ◌≤◌, ◌&&◌, [], IfOk, Some, length, nat_eq};
ghost use Rattle.std.specs.List.{list_any};
ghost use Rattle.pm_model.specs.PlanRows.{chain, domain, domain_parent, is_kept_on};
ghost use Rattle.pm_say.specs.lints.Commands.{switches_on};
ghost use Rattle.pm_say.specs.lints.Marks.{Adds, AreLit};

use crate::lints::helpers::resumes;
use crate::lints::marks::set_mark;
use pm_base::{DevId, DomId, NoMemory};
use pm_model::{Command, DomainRow, Plan};
use std::alloc::Global;

/// The domain of a device.
#[tactic(auto, unfolding(pm_model::specs::PlanRows::domain))]
pub(crate) fn domain_of(plan: &Plan, dev: DevId) -> Option<DomId>
    ensures { result ≡ domain plan.now dev }
{
    match plan.devices.get(dev.0 as usize) {
        Some(row) => row.domain,
        None => None,
    }
}

/// Marks a domain and those above it.
fn switch_on(on: &mut [bool], rows: &[DomainRow], lowest: Option<DomId>)
    ensures { Adds (λ o. list_any (nat_eq o) (chain rows.now (length rows.now) lowest)) on.old on.new }
{
    let mut next = lowest;
    for _step in 0..rows.len() {
        let Some(domain) = next else {
            return;
        };
        set_mark(on, domain.0 as usize);
        next = parent_of(rows, domain);
    }
}

fn parent_of(rows: &[DomainRow], domain: DomId) -> Option<DomId>
    ensures { result ≡ domain_parent rows.now domain }
{
    match rows.get(domain.0 as usize) {
        Some(row) => row.parent,
        None => None,
    }
}

/// For each domain, whether it is always on, or one below it is. Fails where memory runs out.
pub(crate) fn kept_on(alloc: Global, plan: &Plan) -> Result<Vec<bool>, NoMemory>
    ensures { IfOk result (λ on. AreLit plan.now [] on.items) }
{
    let rows = plan.domains.as_slice();
    let mut on = vec![in alloc; false; rows.len()]?;
    keep_on(&mut on, rows);
    Ok(on)
}

/// Marks what the rows keep on.
fn keep_on(on: &mut [bool], rows: &[DomainRow])
    requires { length rows.now ≤ 128 }
    ensures { Adds (is_kept_on rows.now) on.old on.new }
{
    for (place, row) in rows.iter().enumerate() {
        keep_row(on, rows, DomId(place as u32), row.always_on);
    }
}

/// Marks a domain that is always on, and those above it.
fn keep_row(on: &mut [bool], rows: &[DomainRow], domain: DomId, always_on: bool)
    ensures { Adds (λ o. always_on && list_any (nat_eq o) (chain rows.now (length rows.now) (Some domain))) on.old on.new }
{
    if always_on {
        switch_on(on, rows, Some(domain));
    }
}

/// Marks what a command switches on.
#[tactic(auto, unfolding(pm_model::specs::PlanRows::domains_of))]
pub(crate) fn follow(on: &mut [bool], plan: &Plan, command: &Command)
    ensures { Adds (λ o. switches_on plan.now o command.now) on.old on.new }
{
    if resumes(command.helper) {
        switch_on(on, plan.domains.as_slice(), domain_of(plan, command.dev));
    }
}
