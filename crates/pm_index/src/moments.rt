//! Which of many actors may move first: from which moment on each may move, with the least of these
//! moments and the first place that is due at hand.

ghost use Rattle.std.specs.Prelude.{◌≡◌, ◌<◌, ◌≤◌, ◌^◌, ℕ, Some, None, true, length, replicate, slice_set, IfNone, IfOk, IfSome, SomeIndex};
ghost use Rattle.pm_index.specs.Moments.{IsNoLater, NoneWithin, is_within, moment_of};

use crate::Bits;
use crate::tree::{
    first_under, is_now, key_of, later_of, leaves_below, lesser, levels_for, nothing, put, top,
};
use pm_base::NoMemory;
use std::alloc::Global;
use std::marker::Model;

/// From which moment on the actor at each place may move, in milliseconds of the run, or `None`
/// where it waits for none. Contracts see the list of these moments by place.
#[derive(Drop)]
pub struct Moments {
    places: usize,
    // The places whose moment is 0: they may move now.
    at_once: Bits,
    // The leaves of the tree are a power of two, so that they stand in the order of the places.
    leaves: usize,
    levels: u32,
    // The later moments, each less 1.
    nodes: Vec<u64>,
}

impl Model for Moments {
    ghost use Rattle.std.specs.Prelude.{List, Option, ℕ};
    ghost use Rattle.pm_index.specs.Tree.{AreMoments, shown};

    ghost Value = { List (Option ℕ) };

    ghost view = { λ m. shown m.places m.leaves m.at_once m.nodes.items };

    ghost invariant = { λ m. AreMoments m.places m.leaves m.levels m.at_once m.nodes.items };
}

// Puts a place into the set, or takes it out.
fn mark(places: &mut Bits, place: usize, is_in: bool)
    requires { place < length places.old }
    ensures { places.new ≡ slice_set places.old place is_in }
{
    if is_in {
        places.put(place);
    } else {
        places.remove(place);
    }
}

impl Moments {
    /// No moment at any of so many places, fewer than 2^32. All memory is taken here. Fails where it
    /// runs out.
    pub fn new(alloc: Global, places: usize) -> Result<Moments, NoMemory>
        requires { places < 2 ^ 32 }
        ensures { IfOk result (λ moments. moments ≡ replicate places None) }
    {
        let levels = levels_for(places);
        let leaves = leaves_below(levels);
        let nodes = nothing(alloc, 2 * leaves)?;
        Ok(Moments {
            places,
            at_once: Bits::new(alloc, places)?,
            leaves,
            levels,
            nodes,
        })
    }

    /// Sets the moment of a place, or takes it away. It takes a number of steps that is logarithmic
    /// in the number of places, but few where a moment of 0 comes or goes, or nothing changes.
    pub fn set(&mut self, place: usize, moment: Option<u64>)
        requires { place < length self.old }
        ensures { self.new ≡ slice_set self.old place moment }
    {
        mark(&mut self.at_once, place, is_now(moment));
        put(&mut self.nodes, self.leaves, place, key_of(moment));
    }

    /// The moment of a place, if it has one.
    pub fn get(&self, place: usize) -> Option<u64>
        requires { place < length self.now }
        ensures { result ≡ moment_of self.now place }
    {
        if self.at_once.contains(place) {
            return Some(0);
        }
        later_of(self.nodes[self.leaves + place])
    }

    /// The least moment of all. `None` comes exactly where no place has one. It looks at one word for
    /// each 4,096 places, and at three entries besides, at most.
    pub fn least(&self) -> Option<u64>
        ensures held { IfSome result (λ at. SomeIndex self.now (λ i. moment_of self.now i ≡ Some at)) }
        ensures least { IfSome result (λ at. (i other : ℕ) → moment_of self.now i ≡ Some other → at ≤ other) }
        ensures missing { IfNone result ((i : ℕ) → moment_of self.now i ≡ None) }
    {
        if self.at_once.first(0).is_some() {
            return Some(0);
        }
        later_of(top(&self.nodes))
    }

    /// The first place at or after `from` whose moment is at most the bound. It takes as many steps as
    /// `set`, and looks at one word for each 4,096 places besides, at most.
    pub fn first_within(&self, from: usize, bound: u64) -> Option<usize>
        requires { from ≤ length self.now }
        ensures found { IfSome result (λ i. (from ≤ i) × (i < length self.now) × (is_within bound (moment_of self.now i) ≡ true)) }
        ensures first { IfSome result (λ i. NoneWithin self.now bound from i) }
        ensures missing { IfNone result (NoneWithin self.now bound from (length self.now)) }
    {
        let now = self.at_once.first(from);
        let Some(leaf) = first_under(&self.nodes, self.levels, self.leaves + from, bound) else {
            return now;
        };
        lesser(now, Some(leaf - self.leaves))
    }

    /// The least moment, and of several places that have it the least. `None` comes exactly where no
    /// place has one.
    pub fn first(&self) -> Option<(u64, usize)>
        ensures held { IfSome result (λ first. (first.1 < length self.now) × (moment_of self.now first.1 ≡ Some first.0)) }
        ensures least { IfSome result (λ first. (place at : ℕ) → moment_of self.now place ≡ Some at → IsNoLater first (at, place)) }
        ensures missing { IfNone result ((place : ℕ) → moment_of self.now place ≡ None) }
    {
        let at = self.least()?;
        let place = self.first_within(0, at)?;
        Some((at, place))
    }
}
