//! For how many open stages each place of a plan needs room.

ghost use Rattle.std.specs.Prelude.{◌≡◌, ◌<◌, ◌≤◌, length, max, IfOk};
ghost use Rattle.std.specs.Option.{option_map_or};
ghost use Rattle.pm_model.specs.PlanRows.{parent};
ghost use Rattle.pm_laws.specs.stacks.Depth.{greatest, of_supplier};
ghost use Rattle.pm_state.specs.Chains.{AreChains, AreOwn, chain_at, chain_from};
ghost use Rattle.pm_state.specs.Standing.{IsRoomy};

use crate::own::OwnLinks;
use pm_base::{DevId, NoMemory};
use pm_model::{LinkRow, Plan};
use std::alloc::Global;

// How many devices are on the longest chain from this one, 0 where the list has none.
fn chain_at(chains: &[usize], dev: DevId) -> usize
    ensures { result ≡ chain_at chains.now dev }
{
    chains.get(dev.0 as usize).copied().unwrap_or(0)
}

// The chain from the supplier of a runtime link of this consumer, 0 of every other.
fn link_chain(link: &LinkRow, chains: &[usize], dev: DevId) -> usize
    ensures { result ≡ of_supplier dev (chain_at chains.now) link.now }
{
    if link.consumer.0 == dev.0 && link.pm_runtime {
        chain_at(chains, link.supplier)
    } else {
        0
    }
}

// The longest of the chains from the suppliers of a device, present or not. It looks at its own links
// alone, from the last.
fn supplier_chain(links: &[LinkRow], own: &OwnLinks, chains: &[usize], dev: DevId) -> usize
    requires in_range { dev.0 < length own.now.last }
    requires own { AreOwn links.now (length links.now) own.now.last own.now.before }
    ensures { result ≡ greatest (of_supplier dev (chain_at chains.now)) links.now }
{
    let mut longest = 0;
    let mut left = own.last(dev);
    while left > 0 {
        let link = left - 1;
        longest = longest.max(link_chain(&links[link], chains, dev));
        left = own.before(link);
    }
    longest
}

// The chain from the parent of a device, 0 where it has none.
#[tactic(auto, unfolding(pm_model::specs::PlanRows::parent))]
fn parent_chain(plan: &Plan, chains: &[usize], dev: DevId) -> usize
    requires { dev.0 < length plan.now.devices }
    ensures { result ≡ option_map_or (chain_at chains.now) (parent plan.now dev) 0 }
{
    match plan.devices.as_slice()[dev.0 as usize].parent {
        Some(parent) => chain_at(chains, parent),
        None => 0,
    }
}

// The chain from a device whose parent and suppliers the list has.
fn chain_from(plan: &Plan, own: &OwnLinks, chains: &[usize], dev: DevId) -> usize
    requires in_range { dev.0 < length plan.now.devices }
    requires each { length own.now.last ≡ length plan.now.devices }
    requires own { AreOwn plan.now.links (length plan.now.links) own.now.last own.now.before }
    requires few { AreChains plan.now chains.now }
    requires next { dev.0 ≡ length chains.now }
    ensures { result ≡ chain_from plan.now chains.now dev }
{
    let suppliers = supplier_chain(plan.links.as_slice(), own, chains, dev);
    parent_chain(plan, chains, dev).max(suppliers) + 1
}

// The longest chain from each device by parents and suppliers, which stand earlier.
fn chains_of(alloc: Global, plan: &Plan) -> Result<Vec<usize>, NoMemory>
    ensures chains { IfOk result (λ chains. AreChains plan.now chains.items) }
    ensures all { IfOk result (λ chains. length chains.items ≡ length plan.now.devices) }
{
    let devices = plan.devices.len();
    let own = OwnLinks::of(alloc, plan)?;
    let mut chains = Vec::with_capacity(alloc, devices)?;
    for device in 0..devices {
        let chain = chain_from(plan, &own, &chains, DevId(device as u32));
        chains.push(chain)?;
    }
    Ok(chains)
}

// The longest of some chains, at least 1.
fn longest(chains: &[usize]) -> usize
    ensures { result ≡ max 1 (greatest (λ n. n) chains.now) }
{
    let mut longest = 1;
    for chain in chains {
        longest = longest.max(*chain);
    }
    longest
}

// How many stages each actor's place has room for: no more are ever open at one (`runtime_pm.rst`,
// sections 2 and 4; `device_link.rst` for suppliers).
pub(crate) fn stack_room(alloc: Global, plan: &Plan) -> Result<usize, NoMemory>
    ensures { IfOk result (IsRoomy plan.now) }
{
    let chains = chains_of(alloc, plan)?;
    Ok(longest(&chains) + 3)
}
