//! A set of numbers below a bound, in which the next number is found without a scan (this project's
//! own).

ghost use Rattle.std.specs.Prelude.{◌≡◌, ◌<◌, ◌≤◌, ◌^◌, true, false, length, replicate, slice_set, IfNone, IfOk, IfSome};
ghost use Rattle.pm_index.specs.Marks.{NoneMarked, is_marked};

use crate::words::{clear_bit, first_after, first_beside, is_set, nothing, set_bit};
use pm_base::NoMemory;
use std::alloc::Global;
use std::marker::Model;

/// A set of numbers below a bound. Contracts see a mark for each number.
#[derive(Drop)]
pub struct Bits {
    bound: usize,
    // A bit for each number.
    words: Vec<u64>,
    // A bit for each of these words, set where the word has one.
    sums: Vec<u64>,
}

impl Model for Bits {
    ghost use Rattle.std.specs.Prelude.{Bool, List};
    ghost use Rattle.pm_index.specs.Words.{AreBits, marks_of};

    ghost Value = { List Bool };

    ghost view = { λ b. marks_of b.bound b.words.items };

    ghost invariant = { λ b. AreBits b.bound b.words.items b.sums.items };
}

impl Bits {
    /// The empty set, which takes numbers below this bound, at most 2^32 - 1. All memory is taken
    /// here. Fails where it runs out.
    pub fn new(alloc: Global, bound: usize) -> Result<Bits, NoMemory>
        requires { bound < 2 ^ 32 }
        ensures { IfOk result (λ bits. bits ≡ replicate bound false) }
    {
        let words = bound / 64 + 1;
        Ok(Bits {
            bound,
            words: nothing(alloc, words)?,
            sums: nothing(alloc, words / 64 + 1)?,
        })
    }

    /// Puts a number into the set, if it isn't there yet.
    pub fn put(&mut self, number: usize)
        requires { number < length self.old }
        ensures { self.new ≡ slice_set self.old number true }
    {
        set_bit(&mut self.words, number);
        set_bit(&mut self.sums, number / 64);
    }

    /// Takes a number out of the set, if it is there.
    pub fn remove(&mut self, number: usize)
        requires { number < length self.old }
        ensures { self.new ≡ slice_set self.old number false }
    {
        if clear_bit(&mut self.words, number) {
            clear_bit(&mut self.sums, number / 64);
        }
    }

    /// Whether a number is in the set.
    pub fn contains(&self, number: usize) -> bool
        requires { number < length self.now }
        ensures { result ≡ is_marked self.now number }
    {
        is_set(&self.words, number)
    }

    /// The first number of the set at or after `from`. `None` comes exactly where there is none. It
    /// looks at two words of numbers, and skips 4,096 numbers at each word between.
    pub fn first(&self, from: usize) -> Option<usize>
        requires { from ≤ length self.now }
        ensures found { IfSome result (λ i. (from ≤ i) × (i < length self.now) × (is_marked self.now i ≡ true)) }
        ensures first { IfSome result (λ i. NoneMarked self.now from i) }
        ensures missing { IfNone result (NoneMarked self.now from (length self.now)) }
    {
        if let Some(number) = first_beside(&self.words, from) {
            return Some(number);
        }
        let word = first_after(&self.sums, from / 64 + 1)?;
        first_beside(&self.words, 64 * word)
    }
}
