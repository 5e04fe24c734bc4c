//! The numbers of the islands of a plan.

ghost use Rattle.std.specs.Prelude.{ℕ, ◌≡◌, ◌≤◌, ◌<◌, None, IfOk, length, map, slice_index_or};
ghost use Rattle.pm_base.specs.declared.ActorId.TheVariants.{Work};
ghost use Rattle.pm_model.specs.Islands.{Numbering, the_caller};
ghost use Rattle.pm_islands.specs.declared.touching.TheConstants.{MAX_NODES};
ghost use Rattle.pm_islands.specs.Labels.{AreShared};
ghost use Rattle.pm_islands.specs.Numbers.{AreIslands, AreNumbers, actor_in, island_in};
ghost use Rattle.pm_islands.specs.Ranks.{number_of, of_callers, rank};

use crate::labels::label;
use crate::touching::{MAX_NODES, node_count};
use pm_base::{ActorId, DevId, DomId, NoMemory};
use pm_model::Plan;
use std::alloc::Global;
use std::marker::Model;

// How many places before this one are among the labels.
#[tactic(auto, using(crate::proofs::Ranking::rank_more))]
fn rank(labels: &[u32], place: u32) -> u32
    ensures { result ≡ rank labels.now place }
{
    let mut rank = 0;
    for other in 0..place {
        if labels.contains(&other) {
            rank += 1;
        }
    }
    rank
}

// The number of the island of nodes with this label.
fn number_of(callers: &[u32], label: u32) -> Option<u32>
    ensures { result ≡ number_of callers.now label }
{
    if callers.contains(&label) {
        Some(rank(callers, label))
    } else {
        None
    }
}

fn numbers_of(alloc: Global, callers: &[u32], labels: &[u32]) -> Result<Vec<Option<u32>>, NoMemory>
    ensures { IfOk result (λ numbers. numbers.items ≡ map (number_of callers.now) labels.now) }
{
    let mut numbers = Vec::new(alloc);
    for label in labels {
        numbers.push(number_of(callers, *label))?;
    }
    Ok(numbers)
}

// The numbers of the islands of nodes with these labels, which are all callers'.
fn ranks_of(alloc: Global, callers: &[u32]) -> Result<Vec<u32>, NoMemory>
    ensures { IfOk result (λ numbers. numbers.items ≡ map (rank callers.now) callers.now) }
{
    let mut numbers = Vec::new(alloc);
    for label in callers {
        numbers.push(rank(callers, *label))?;
    }
    Ok(numbers)
}

// The labels of the callers.
fn of_callers<'a>(plan: &Plan, labels: &'a [u32]) -> &'a [u32]
    requires { AreShared plan.now labels.now }
    ensures { result.now ≡ of_callers plan.now labels.now }
{
    let first = plan.devices.len();
    &labels[first..first + plan.callers.len()]
}

/// The numbers of the islands of a plan's nodes: devices, callers and domains. An island is all that
/// is connected with one of the plan's callers, by parents, runtime links, domains and scripts (this
/// project's own).
#[derive(Drop)]
pub struct IslandNumbers {
    count: u32,
    devices: Vec<Option<u32>>,
    callers: Vec<u32>,
    domains: Vec<Option<u32>>,
}

impl Model for IslandNumbers {
    ghost use Rattle.pm_islands.specs.Numbers.{NodeNumbers};

    ghost Value = { NodeNumbers };

    ghost view = { λ n. record { count = n.count; devices = n.devices.items; callers = n.callers.items; domains = n.domains.items } };
}

impl IslandNumbers {
    /// How many islands there are.
    pub fn count(&self) -> u32
        ensures { result ≡ self.now.count }
    {
        self.count
    }

    /// The number of a caller's island. The caller is one of the plan's, by its place.
    pub fn island_of_caller(&self, caller: u32) -> u32
        requires { caller < length self.now.callers }
        ensures { result ≡ island_in self.now (the_caller caller) }
    {
        self.callers[caller as usize]
    }

    /// The number of a device's island; `None` where no caller is connected with it.
    pub fn island_of_device(&self, dev: DevId) -> Option<u32>
        ensures { result ≡ actor_in self.now (Work dev.0) }
    {
        *self.devices.get(dev.0 as usize)?
    }

    /// The number of a domain's island; `None` where no caller is connected with it.
    pub fn island_of_domain(&self, domain: DomId) -> Option<u32>
        ensures { result ≡ slice_index_or self.now.domains domain.0 None }
    {
        *self.domains.get(domain.0 as usize)?
    }

    /// The number of an actor's island; a work item and a timer are where their device is. `None`
    /// where no caller is connected with it.
    pub fn island_of(&self, actor: ActorId) -> Option<u32>
        ensures { result ≡ actor_in self.now actor }
    {
        match actor {
            ActorId::Caller(caller) => self.callers.get(caller as usize).copied(),
            ActorId::Work(dev) | ActorId::Timer(dev) => self.island_of_device(DevId(dev)),
        }
    }
}

// The numbers by the labels of all nodes.
fn numbered(alloc: Global, plan: &Plan, labels: &[u32]) -> Result<IslandNumbers, NoMemory>
    requires shared { AreShared plan.now labels.now }
    requires few { length labels.now ≤ MAX_NODES }
    ensures { IfOk result (λ numbers. AreIslands plan.now numbers) }
{
    let (devices, others) = labels.split_at(plan.devices.len());
    let (callers, domains) = others.split_at(plan.callers.len());
    Ok(IslandNumbers {
        count: rank(callers, labels.len() as u32),
        devices: numbers_of(alloc, callers, devices)?,
        callers: ranks_of(alloc, callers)?,
        domains: numbers_of(alloc, callers, domains)?,
    })
}

/// The numbers of a plan's islands: those with a device come first, by their least device, and then
/// those without, by their least caller (this project's own). Fails where memory runs out.
pub fn number(alloc: Global, plan: &Plan) -> Result<IslandNumbers, NoMemory>
    ensures { IfOk result (λ numbers. AreIslands plan.now numbers) }
{
    let mut row = [0; MAX_NODES];
    let labels = &mut row[..node_count(plan)];
    label(plan, labels);
    numbered(alloc, plan, labels)
}

/// How many islands a plan has. It takes no memory.
pub fn islands(plan: &Plan) -> u32
    ensures { Numbering plan.now result }
{
    let mut row = [0; MAX_NODES];
    let labels = &mut row[..node_count(plan)];
    label(plan, labels);
    rank(of_callers(plan, labels), labels.len() as u32)
}

/// The number of each caller's island. Fails where memory runs out.
pub(crate) fn caller_numbers(alloc: Global, plan: &Plan) -> Result<Vec<u32>, NoMemory>
    ensures one_each { IfOk result (λ numbers. length numbers.items ≡ length plan.now.callers) }
    ensures numbers { IfOk result (λ numbers. (count : ℕ) (k : Numbering plan.now count) → AreNumbers plan.now k.island numbers.items) }
{
    let mut row = [0; MAX_NODES];
    let labels = &mut row[..node_count(plan)];
    label(plan, labels);
    ranks_of(alloc, of_callers(plan, labels))
}
