//! Lists of items that have parents, in the order in which a tree of them is read.

use pm_base::NoMemory;
use std::alloc::Global;
use std::mem;

/// An item, by its place, and how many ancestors it has.
#[derive(Clone, Copy, PartialEq, Eq)]
pub struct Member {
    pub place: u32,
    pub depth: u32,
}

/// For each owner the first of its items, for each item the next one of the same owner, and the first that none owns.
#[derive(Drop)]
pub(crate) struct Chains {
    roots: Option<u32>,
    firsts: Vec<Option<u32>>,
    nexts: Vec<Option<u32>>,
}

// Puts a number in place of another, which is the answer.
fn swap(numbers: &mut [Option<u32>], place: usize, number: u32) -> Option<u32> {
    if place < numbers.len() {
        mem::replace(&mut numbers[place], Some(number))
    } else {
        None
    }
}

impl Chains {
    // No item has an owner yet.
    fn none(alloc: Global, owners: usize, items: usize) -> Result<Chains, NoMemory> {
        Ok(Chains {
            roots: None,
            firsts: vec![in alloc; None; owners]?,
            nexts: vec![in alloc; None; items]?,
        })
    }

    // Puts an item before the others of its owner.
    fn put(&mut self, item: u32, owner: Option<u32>) {
        let next = match owner {
            Some(owner) => swap(&mut self.firsts, owner as usize, item),
            None => mem::replace(&mut self.roots, Some(item)),
        };
        if let Some(slot) = self.nexts.get_mut(item as usize) {
            *slot = next;
        }
    }

    /// Items with their owners. Those of an owner keep their order.
    pub fn of(alloc: Global, owners: usize, parents: &[Option<u32>]) -> Result<Chains, NoMemory> {
        let mut chains = Chains::none(alloc, owners, parents.len())?;
        let mut place = parents.len();
        while place > 0 {
            place -= 1;
            if let Ok(item) = u32::try_from(place) {
                chains.put(item, parents[place]);
            }
        }
        Ok(chains)
    }

    /// The first item of an owner.
    pub fn first(&self, owner: u32) -> Option<u32> {
        self.firsts.get(owner as usize).copied().flatten()
    }

    /// The item behind one of the same owner.
    pub fn next(&self, item: u32) -> Option<u32> {
        self.nexts.get(item as usize).copied().flatten()
    }
}

// Puts an item on those that are still to be gone to, if there is one.
fn push_open(open: &mut Vec<Member>, place: Option<u32>, depth: u32) -> Result<(), NoMemory> {
    if let Some(place) = place {
        open.push(Member { place, depth })?;
    }
    Ok(())
}

/// The items with these parents, each before its children and these before what comes behind it. It looks at each
/// item once. Fails where memory runs out.
pub fn in_families(alloc: Global, parents: &[Option<u32>]) -> Result<Vec<Member>, NoMemory> {
    let chains = Chains::of(alloc, parents.len(), parents)?;
    let mut members = Vec::new(alloc);
    let mut open = Vec::new(alloc);
    push_open(&mut open, chains.roots, 0)?;
    'items: for _ in 0..parents.len() {
        let Some(member) = open.pop() else {
            return Ok(members);
        };
        members.push(member)?;
        push_open(&mut open, chains.next(member.place), member.depth)?;
        push_open(
            &mut open,
            chains.first(member.place),
            member.depth.saturating_add(1),
        )?;
    }
    Ok(members)
}
