//! The queue of hints.

ghost use Rattle.std.specs.Prelude.{◌≡◌, ◌≤◌, IfOk, MatchBool, MatchOption};
ghost use Rattle.pm_wq.specs.Hints.{IsOf, WasEmpty, WasFull, log, places};
ghost use Rattle.pm_wq.specs.Order.{nothing, with_answer, with_told};

use crate::rule::{Answers, InOrder, Log, Tells};
use crossbeam_queue::{Pass, RuledArrayQueue};
use pm_base::NoMemory;
use std::alloc::Global;
use std::sync::Wait;

/// A queue of hints, which threads share: numbers of islands that may have a line to write. It keeps 1 to
/// 64 hints.
#[derive(Drop)]
pub struct Hints {
    queue: RuledArrayQueue<u32, Log, InOrder>,
}

/// What a thread tells and asks with. Contracts see what it has told and what it was answered.
#[derive(Drop)]
pub struct HintPass {
    pass: Pass<u32, Log>,
}

impl Hints {
    /// A queue with no hints and this many places. Fails where memory runs out.
    pub fn new(alloc: Global, capacity: usize) -> Result<Hints, NoMemory>
        requires some { 1 ≤ capacity }
        requires few { capacity ≤ 64 }
        ensures { IfOk result (λ hints. places hints ≡ capacity) }
    {
        let (queue, _pass) = RuledArrayQueue::ruled(alloc, capacity)?;
        Ok(Hints { queue })
    }

    /// A pass, for one thread. Any thread may make its own.
    pub fn pass(&self) -> HintPass
        ensures of { IsOf self.now result }
        ensures nothing { log result ≡ nothing }
    {
        HintPass {
            pass: self.queue.pass(),
        }
    }

    /// Puts a hint at the back, and says whether it did. It did not only where the queue was full at some
    /// moment of the call.
    pub fn tell<R: Wait>(&self, rt: &R, pass: &mut HintPass, island: u32) -> bool
        requires { IsOf self.now pass.old }
        ensures of { IsOf self.now pass.new }
        ensures told { MatchBool result
            (log pass.new ≡ with_told (log pass.old) island)
            ((log pass.new ≡ log pass.old) × WasFull self.now pass.old) }
    {
        self.queue
            .push_as::<Tells, R>(rt, &mut pass.pass, island)
            .is_ok()
    }

    /// Takes the hint at the front. There is none only where the queue was empty at some moment of the
    /// call.
    pub fn ask<R: Wait>(&self, rt: &R, pass: &mut HintPass) -> Option<u32>
        requires { IsOf self.now pass.old }
        ensures of { IsOf self.now pass.new }
        ensures answer { MatchOption result
            ((log pass.new ≡ log pass.old) × WasEmpty pass.old)
            (λ island. log pass.new ≡ with_answer (log pass.old) island) }
    {
        self.queue.pop_as::<Answers, R>(rt, &mut pass.pass)
    }
}
