//! Places by whom they belong to.

ghost use Rattle.std.specs.Prelude.{◌≡◌, [], IfOk, OnOk, length, replicate};
ghost use Rattle.pm_safety.specs.dependencies.Grouped.{AreGroups, with_place};

use pm_base::NoMemory;
use pm_model::Items;
use std::alloc::Global;

// So many groups without a place.
fn empty_groups(alloc: Global, count: usize) -> Result<Vec<Items<usize>>, NoMemory>
    ensures { IfOk result (λ groups. groups.items ≡ replicate count []) }
{
    let mut groups = Vec::with_capacity(alloc, count)?;
    for _ in 0..count {
        groups.push(Items::new(Vec::new(alloc)))?;
    }
    Ok(groups)
}

// Puts a place into the group of its owner, if it has one.
fn put(groups: &mut Vec<Items<usize>>, owner: Option<u32>, place: usize) -> Result<(), NoMemory>
    ensures { OnOk result (groups.new.items ≡ with_place owner place groups.old.items) }
{
    let Some(owner) = owner else {
        return Ok(());
    };
    if (owner as usize) < groups.len() {
        groups[owner as usize].push(place)?;
    }
    Ok(())
}

/// The places of each of so many owners, where these are the owners of the places in order.
pub fn grouped(
    alloc: Global,
    owners: &[Option<u32>],
    count: usize,
) -> Result<Vec<Items<usize>>, NoMemory>
    ensures { IfOk result (λ groups. AreGroups count (length owners.now) owners.now groups.items) }
{
    let mut groups = empty_groups(alloc, count)?;
    for place in 0..owners.len() {
        put(&mut groups, owners[place], place)?;
    }
    Ok(groups)
}
