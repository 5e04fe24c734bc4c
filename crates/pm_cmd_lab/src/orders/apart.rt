//! What the schedules of a plan show, island by island.

ghost use Rattle.std.specs.Prelude.{◌≡◌, ◌≤◌, ◌+◌, [], IfOk, OnOk};
ghost use Rattle.pm_islands.specs.Numbers.{AreIslands, island_in};
ghost use Rattle.pm_cmd_lab.specs.orders.Apart.{IsAdded, IsApart, IsSoFar};
ghost use Rattle.pm_cmd_lab.specs.orders.Orders.{both, lesser_round};
ghost use Rattle.pm_outcomes.specs.declared.text.reach.Reach.TheVariants.{All};

use crate::orders::orders::outcomes_of;
use pm_base::NoMemory;
use pm_islands::{IslandNumbers, number};
use pm_lab_words::Bounds;
use pm_model::Plan;
use pm_outcomes::islands::{has_rest, part_at, push_own};
use pm_outcomes::list::Outcome;
use pm_outcomes::text::{Reach, reach_of};
use std::alloc::Global;

/// What the schedules of a plan's islands show.
#[derive(Drop)]
pub struct Apart {
    /// The outcomes of each island that are at home there, in the order of the islands and then of their text.
    pub observations: Vec<Outcome>,
    /// How far they are exact.
    pub reach: Reach,
    /// How many snapshots were found.
    pub snapshots: usize,
}

/// The lesser of two rounds; no round is less than any.
fn lesser_round(one: Option<usize>, other: Option<usize>) -> Option<usize>
    ensures { result ≡ lesser_round one other }
{
    match (one, other) {
        (Some(one), Some(other)) => Some(one.min(other)),
        _ => None,
    }
}

/// How far two lists are exact together.
fn both(one: Reach, other: Reach) -> Reach
    ensures { result ≡ both one other }
{
    match (one, other) {
        (Reach::All, reach) => reach,
        (reach, Reach::All) => reach,
        (Reach::Within(one), Reach::Within(other)) => Reach::Within(one.min(other)),
        (Reach::Within(one), Reach::Limit(other)) => Reach::Limit(lesser_round(Some(one), other)),
        (Reach::Limit(one), Reach::Within(other)) => Reach::Limit(lesser_round(one, Some(other))),
        (Reach::Limit(one), Reach::Limit(other)) => Reach::Limit(lesser_round(one, other)),
    }
}

/// Adds what the schedules of one more island show.
fn add_island(
    alloc: Global,
    plan: &Plan,
    numbers: &IslandNumbers,
    bounds: Bounds,
    island: u32,
    all: &mut Apart,
) -> Result<(), NoMemory>
    requires numbers { AreIslands plan.now numbers.now }
    requires within { island ≤ numbers.now.count }
    ensures { OnOk result (IsAdded bounds plan.now (island_in numbers.now) island all.old all.new) }
{
    let part = part_at(alloc, plan, numbers, island)?;
    let outcomes = outcomes_of(alloc, &part, bounds)?;
    let observations = outcomes.observations.as_slice();
    push_own(&mut all.observations, observations, numbers, island)?;
    let reach = reach_of(outcomes.found.ended, outcomes.found.rounds.len());
    all.reach = both(all.reach, reach);
    all.snapshots = more_snapshots(all.snapshots, outcomes.found.tree.nodes.len())?;
    Ok(())
}

/// So many snapshots more. That they aren't to be counted counts as want of memory.
fn more_snapshots(snapshots: usize, more: usize) -> Result<usize, NoMemory>
    ensures { IfOk result (λ sum. sum ≡ snapshots + more) }
{
    match snapshots.checked_add(more) {
        Some(sum) => Ok(sum),
        None => Err(NoMemory),
    }
}

/// No island yet.
fn no_island(alloc: Global) -> Apart
    ensures observations { result.observations.items ≡ [] }
    ensures exact { result.reach ≡ Reach.All }
    ensures snapshots { result.snapshots ≡ 0 }
{
    Apart {
        observations: Vec::new(alloc),
        reach: Reach::All,
        snapshots: 0,
    }
}

/// Adds what the schedules of each island show.
fn add_islands(
    alloc: Global,
    plan: &Plan,
    numbers: &IslandNumbers,
    bounds: Bounds,
    all: &mut Apart,
) -> Result<(), NoMemory>
    requires numbers { AreIslands plan.now numbers.now }
    requires none { IsSoFar bounds plan.now (island_in numbers.now) 0 all.old }
    ensures { OnOk result (IsSoFar bounds plan.now (island_in numbers.now) numbers.now.count all.new) }
{
    for island in 0..numbers.count() {
        add_island(alloc, plan, numbers, bounds, island, all)?;
    }
    Ok(())
}

/// Adds what no caller is connected with, if there is anything.
fn add_rest(
    alloc: Global,
    plan: &Plan,
    numbers: &IslandNumbers,
    bounds: Bounds,
    all: &mut Apart,
) -> Result<(), NoMemory>
    requires numbers { AreIslands plan.now numbers.now }
    requires islands { IsSoFar bounds plan.now (island_in numbers.now) numbers.now.count all.old }
    ensures { OnOk result (IsApart bounds plan.now all.new) }
{
    if !has_rest(plan, numbers) {
        return Ok(());
    }
    add_island(alloc, plan, numbers, bounds, numbers.count(), all)?;
    Ok(())
}

/// What the schedules of a plan's islands show within bounds, of each island within them all; `NoMemory` also where a search
/// wanted memory.
pub fn apart_of(alloc: Global, plan: &Plan, bounds: Bounds) -> Result<Apart, NoMemory>
    ensures { IfOk result (IsApart bounds plan.now) }
{
    let numbers = number(alloc, plan)?;
    let mut all = no_island(alloc);
    add_islands(alloc, plan, &numbers, bounds, &mut all)?;
    add_rest(alloc, plan, &numbers, bounds, &mut all)?;
    Ok(all)
}
