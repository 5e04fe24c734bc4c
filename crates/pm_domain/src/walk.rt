//! From a device's domain up to its ancestors.

ghost use Rattle.std.specs.Prelude.{◌≡◌, ◌<◌, ℕ, length, option_and_then, IfSome};
ghost use Rattle.pm_model.specs.PlanRows.{chain, domain, domain_parent, is_always_on};
ghost use Rattle.pm_domain.specs.Walk.{switched, those_off};

use pm_base::{DevId, DomId};
use pm_index::Tally;
use pm_model::Plan;

/// The domain of a device.
pub fn home(plan: &Plan, dev: DevId) -> Option<DomId>
    ensures domain { result ≡ domain plan.now dev }
    ensures in_range { IfSome result (λ o. o.0 < length plan.now.domains) }
{
    match plan.devices.get(dev.0 as usize) {
        Some(row) => row.domain,
        None => None,
    }
}

/// The domain above a domain.
pub fn parent(plan: &Plan, dom: DomId) -> Option<DomId>
    ensures parent { result ≡ domain_parent plan.now.domains dom }
    ensures earlier { IfSome result (λ o. o.0 < dom.0) }
    ensures in_range { IfSome result (λ o. o.0 < length plan.now.domains) }
{
    match plan.domains.get(dom.0 as usize) {
        Some(row) => row.parent,
        None => None,
    }
}

/// Whether a domain never goes off.
pub fn is_always_on(plan: &Plan, dom: DomId) -> bool
    ensures { result ≡ is_always_on plan.now dom.0 }
{
    match plan.domains.get(dom.0 as usize) {
        Some(row) => row.always_on,
        None => false,
    }
}

/// Switches a domain and its ancestors, so many at most, the nearest first.
pub fn switch(on: &mut Tally, plan: &Plan, first: Option<DomId>, most: usize, to: bool)
    requires on_len { length on.old.owners ≡ length plan.now.domains }
    requires in_range { IfSome first (λ o. o.0 < length plan.now.domains) }
    ensures { on.new ≡ record on.old { bits = switched to on.old.bits (chain plan.now.domains most first) } }
{
    let mut next = first;
    'chain: for _ in 0..most {
        let Some(dom) = next else {
            return;
        };
        on.set(dom.0, to);
        next = parent(plan, dom);
    }
}

/// How many of a domain and its ancestors are off.
pub fn count_off(on: &Tally, plan: &Plan, first: Option<DomId>) -> u32
    requires { IfSome first (λ o. o.0 < length plan.now.domains) }
    ensures { result ≡ length (those_off on.now.bits (chain plan.now.domains (length plan.now.domains) first)) }
{
    let mut count = 0;
    let mut next = first;
    while let Some(dom) = next {
        if !on.is_marked(dom.0) {
            count += 1;
        }
        next = parent(plan, dom);
    }
    count
}
