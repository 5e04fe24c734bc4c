//! Those who wait for one device.

ghost use Rattle.std.specs.Prelude.{◌≡◌, ◌<◌, ◌≤◌, ◌^◌, false, true, length, replicate, slice_set, IfNone, IfOk, IfSome};
ghost use Rattle.pm_index.specs.Marks.{NoneMarked, is_marked};

use pm_base::NoMemory;
use pm_index::Bits;
use std::alloc::Global;
use std::marker::Model;

/// Who waits for one device. Contracts see a mark for each seat.
#[derive(Drop)]
pub struct Waiters {
    seats: Bits,
    // Whether anybody waits. Most often nobody does, and then no mark is looked at.
    any: bool,
}

impl Model for Waiters {
    ghost use Rattle.std.specs.Prelude.{◌≡◌, Bool, List, false, length};
    ghost use Rattle.pm_index.specs.Marks.{NoneMarked};

    ghost Value = { List Bool };

    ghost view = { λ w. w.seats };

    ghost invariant = { λ w. w.any ≡ false → NoneMarked w.seats 0 (length w.seats) };
}

impl Waiters {
    /// Nobody waits at any of so many seats. All memory is taken here.
    pub fn none(alloc: Global, seats: usize) -> Result<Waiters, NoMemory>
        requires { seats < 2 ^ 32 }
        ensures { IfOk result (λ waiters. waiters ≡ replicate seats false) }
    {
        Ok(Waiters {
            seats: Bits::new(alloc, seats)?,
            any: false,
        })
    }

    /// Who sits here waits.
    #[inline(never)]
    pub fn join(&mut self, seat: usize)
        requires { seat < length self.old }
        ensures { self.new ≡ slice_set self.old seat true }
    {
        self.seats.put(seat);
        self.any = true;
    }

    // Takes a seat out, where somebody may wait.
    #[inline(never)]
    fn take_out(&mut self, seat: usize)
        requires { seat < length self.old }
        ensures { self.new ≡ slice_set self.old seat false }
    {
        self.seats.remove(seat);
        self.any = self.seats.first(0).is_some();
    }

    /// Who sits here doesn't wait, or not any longer.
    #[tactic(auto, using(crate::proofs::QueueLemmas::unmarked_kept))]
    #[inline(always)]
    pub fn leave(&mut self, seat: usize)
        requires { seat < length self.old }
        ensures { self.new ≡ slice_set self.old seat false }
    {
        if self.any {
            self.take_out(seat);
        }
    }

    /// The first seat at or after this one of somebody who waits.
    pub fn first(&self, from: usize) -> Option<usize>
        requires { from ≤ length self.now }
        ensures found { IfSome result (λ i. (from ≤ i) × (i < length self.now) × (is_marked self.now i ≡ true)) }
        ensures first { IfSome result (λ i. NoneMarked self.now from i) }
        ensures missing { IfNone result (NoneMarked self.now from (length self.now)) }
    {
        if self.any {
            self.seats.first(from)
        } else {
            None
        }
    }
}
