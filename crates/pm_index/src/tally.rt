//! Marks at places, with the number of those that each owner has, so that a question about all places
//! of an owner is answered without a look at them (this project's own).

ghost use Rattle.std.specs.Prelude.{◌≡◌, ◌+◌, ◌-◌, ◌<◌, ◌≤◌, ◌^◌, cond, false, length, replicate, slice_index_or, slice_set, true, ℕ, IfOk};
ghost use Rattle.pm_index.specs.OwnMarks.{AreBelow, bit_at, is_of, marked_of, owner_at, unmarked};

use pm_base::NoMemory;
use std::alloc::{AllocError, Global};
use std::marker::Model;

/// A mark at each place, and for each owner how many of its places are marked. Contracts see the owner
/// and the mark of each place.
#[derive(Drop)]
pub struct Tally {
    owners: Vec<Option<u32>>,
    bits: Vec<bool>,
    // How many of each owner's places are marked.
    counts: Vec<u32>,
}

impl Model for Tally {
    ghost use Rattle.pm_index.specs.OwnMarks.{IsTallied, Marks};

    ghost Value = { Marks };

    ghost view = { λ t. record { owners = t.owners.items; bits = t.bits.items } };

    ghost invariant = { λ t. IsTallied t.owners.items t.bits.items t.counts.items };
}

// So many places that aren't marked.
fn clear(alloc: Global, count: usize) -> Result<Vec<bool>, AllocError>
    ensures { IfOk result (λ v. v.items ≡ replicate count false) }
{
    vec![in alloc; false; count]
}

// So many owners of whose places none is marked.
fn zeros(alloc: Global, count: usize) -> Result<Vec<u32>, AllocError>
    ensures { IfOk result (λ v. v.items ≡ replicate count 0) }
{
    vec![in alloc; 0; count]
}

// The owner of a place; none past the last.
fn owner_at(owners: &[Option<u32>], place: u32) -> Option<u32>
    ensures { result ≡ owner_at owners.now place }
{
    owners.get(place as usize).copied().unwrap_or(None)
}

// Whether a place is marked; none past the last is.
fn bit_at(bits: &[bool], place: u32) -> bool
    ensures { result ≡ bit_at bits.now place }
{
    bits.get(place as usize).copied().unwrap_or(false)
}

// The number kept for an owner; 0 past the last.
fn count_at(counts: &[u32], owner: u32) -> u32
    ensures { result ≡ slice_index_or counts.now owner 0 }
{
    counts.get(owner as usize).copied().unwrap_or(0)
}

// Whether a place with this owner is this one's.
fn is_of(owner: u32, of: Option<u32>) -> bool
    ensures { result ≡ is_of owner of }
{
    match of {
        Some(one) => one == owner,
        None => false,
    }
}

// One place of this owner was marked and now isn't, or the other way round.
fn recount(counts: &mut Vec<u32>, owner: u32, was: bool, is: bool)
    requires in_range { owner < length counts.old.items }
    requires fits { slice_index_or counts.old.items owner 0 + 1 < 2 ^ 32 }
    requires counted { was ≡ true → 0 < slice_index_or counts.old.items owner 0 }
    ensures { counts.new.items ≡ slice_set counts.old.items owner (slice_index_or counts.old.items owner 0 + cond is 1 0 - cond was 1 0) }
{
    let count = &mut counts[owner as usize];
    *count = *count + u32::from(is) - u32::from(was);
}

impl Tally {
    /// Places of which none is marked, with the owner of each, a number below this bound. Fails where
    /// memory runs out; no other call takes any.
    pub fn new(alloc: Global, owners: Vec<Option<u32>>, bound: usize) -> Result<Tally, NoMemory>
        requires few { length owners.items + 1 < 2 ^ 32 }
        requires below { AreBelow bound owners.items }
        ensures { IfOk result (λ tally. tally ≡ record { owners = owners.items; bits = replicate (length owners.items) false }) }
    {
        let bits = clear(alloc, owners.as_slice().len())?;
        let counts = zeros(alloc, bound)?;
        Ok(Tally {
            owners,
            bits,
            counts,
        })
    }

    /// Whether a place is marked; no place past the last is.
    pub fn is_marked(&self, place: u32) -> bool
        ensures { result ≡ bit_at self.now.bits place }
    {
        bit_at(&self.bits, place)
    }

    /// Marks a place, or takes its mark away. One that is so already is not counted again.
    pub fn set(&mut self, place: u32, mark: bool)
        requires { place < length self.old.owners }
        ensures { self.new ≡ record self.old { bits = slice_set self.old.bits place mark } }
    {
        let was = bit_at(&self.bits, place);
        if was == mark {
            return;
        }
        self.bits[place as usize] = mark;
        if let Some(owner) = owner_at(&self.owners, place) {
            recount(&mut self.counts, owner, was, mark);
        }
    }

    /// Marks each place.
    pub fn mark_all(&mut self)
        ensures { self.new ≡ record self.old { bits = replicate (length self.old.owners) true } }
    {
        for place in 0..self.owners.as_slice().len() as u32 {
            self.set(place, true);
        }
    }

    /// How many places of an owner are marked.
    pub fn count(&self, owner: u32) -> u32
        ensures { result ≡ marked_of self.now.owners self.now.bits owner }
    {
        count_at(&self.counts, owner)
    }

    // Whether this place is marked, and an owner's.
    fn has(&self, owner: u32, place: Option<u32>) -> bool
        ensures { marked_of self.now.owners (unmarked place self.now.bits) owner + cond result 1 0 ≡ marked_of self.now.owners self.now.bits owner }
    {
        match place {
            Some(place) => self.is_marked(place) && is_of(owner, owner_at(&self.owners, place)),
            None => false,
        }
    }

    /// How many places of an owner are marked, but for this one.
    pub fn count_but(&self, owner: u32, place: Option<u32>) -> u32
        ensures { result ≡ marked_of self.now.owners (unmarked place self.now.bits) owner }
    {
        self.count(owner) - u32::from(self.has(owner, place))
    }
}
