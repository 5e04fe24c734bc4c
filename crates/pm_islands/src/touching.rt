//! The nodes of a plan, in their order, and the pairs of them that touch.

ghost use Rattle.std.specs.Prelude.{◌≡◌, ◌≤◌, ◌<◌, ◌^◌};
ghost use Rattle.pm_model.specs.Islands.{the_domain};
ghost use Rattle.pm_islands.specs.declared.touching.TheConstants.{MAX_NODES};
ghost use Rattle.pm_islands.specs.declared.touching.Tie.TheVariants.{OfCaller, OfDomains, ToDomain, ToParent, ToSupplier};
ghost use Rattle.pm_islands.specs.Places.{nodes, place, places, rows, tied};

use pm_base::{MAX_CALLERS, MAX_DEVICES, MAX_DOMAINS};
use pm_model::{Helper, Plan};

/// Nodes of a plan, at most: devices, callers and domains.
pub const MAX_NODES: usize = MAX_DEVICES + MAX_CALLERS + MAX_DOMAINS;

/// What ties two nodes of a plan.
#[derive(Clone, Copy)]
pub enum Tie {
    /// A device and its parent.
    ToParent,
    /// A device and its domain.
    ToDomain,
    /// The consumer and the supplier of a runtime link, present or not.
    ToSupplier,
    /// A domain and its parent.
    OfDomains,
    /// The caller at this place, and the device of a command of its script.
    OfCaller(usize),
}

/// How many nodes a plan has.
#[tactic(auto, using(crate::proofs::PartLemmas::few_nodes))]
pub fn node_count(plan: &Plan) -> usize
    ensures count { result ≡ nodes plan.now }
    ensures few { result ≤ MAX_NODES }
{
    plan.devices.len() + plan.callers.len() + plan.domains.len()
}

// Where a domain stands among the nodes.
#[tactic(auto, using(crate::proofs::PartLemmas::few_nodes))]
fn domain_place(plan: &Plan, domain: usize) -> usize
    requires { domain < 2 ^ 32 }
    ensures { result ≡ place plan.now (the_domain domain) }
{
    plan.devices.len() + plan.callers.len() + domain
}

/// How many rows may tie nodes in this way.
pub fn row_count(plan: &Plan, tie: Tie) -> usize
    ensures { result ≡ rows plan.now tie }
{
    match tie {
        Tie::ToParent | Tie::ToDomain => plan.devices.len(),
        Tie::ToSupplier => plan.links.as_slice().len(),
        Tie::OfDomains => plan.domains.len(),
        Tie::OfCaller(caller) => match plan.callers.get(caller) {
            Some(row) => row.script.as_slice().len(),
            None => 0,
        },
    }
}

fn to_parent(plan: &Plan, row: usize) -> Option<(usize, usize)>
    ensures { result ≡ places plan.now (tied plan.now ToParent row) }
{
    let parent = plan.devices.get(row)?.parent?;
    Some((row, parent.0 as usize))
}

fn to_domain(plan: &Plan, row: usize) -> Option<(usize, usize)>
    ensures { result ≡ places plan.now (tied plan.now ToDomain row) }
{
    let domain = plan.devices.get(row)?.domain?;
    Some((row, domain_place(plan, domain.0 as usize)))
}

fn to_supplier(plan: &Plan, row: usize) -> Option<(usize, usize)>
    ensures { result ≡ places plan.now (tied plan.now ToSupplier row) }
{
    let link = plan.links.as_slice().get(row)?;
    if link.pm_runtime {
        Some((link.consumer.0 as usize, link.supplier.0 as usize))
    } else {
        None
    }
}

fn of_domains(plan: &Plan, row: usize) -> Option<(usize, usize)>
    ensures { result ≡ places plan.now (tied plan.now OfDomains row) }
{
    let parent = plan.domains.get(row)?.parent?;
    Some((
        domain_place(plan, row),
        domain_place(plan, parent.0 as usize),
    ))
}

fn of_caller(plan: &Plan, caller: usize, row: usize) -> Option<(usize, usize)>
    ensures { result ≡ places plan.now (tied plan.now (OfCaller caller) row) }
{
    let command = plan.callers.get(caller)?.script.as_slice().get(row)?;
    match command.helper {
        Helper::Delay => None,
        _ => Some((plan.devices.len() + caller, command.dev.0 as usize)),
    }
}

/// Where the nodes stand that the row ties in this way, if it ties any.
pub fn tied(plan: &Plan, tie: Tie, row: usize) -> Option<(usize, usize)>
    ensures { result ≡ places plan.now (tied plan.now tie row) }
{
    match tie {
        Tie::ToParent => to_parent(plan, row),
        Tie::ToDomain => to_domain(plan, row),
        Tie::ToSupplier => to_supplier(plan, row),
        Tie::OfDomains => of_domains(plan, row),
        Tie::OfCaller(caller) => of_caller(plan, caller, row),
    }
}
