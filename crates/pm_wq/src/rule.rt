//! The rule of the queue: one order of all hints.

use crossbeam_queue::protocol::{Lesson, Outcome, Protocol};
use std::collections::LinkedList;

/// What a pass has told and what it was answered, each in order. No value of it is made.
pub struct Log {
    pub told: LinkedList<u32>,
    pub answered: LinkedList<u32>,
}

/// Hints come out in the order in which they were put in.
pub struct InOrder;

impl Protocol<u32, Log> for InOrder {
    ghost use Rattle.pm_wq.specs.Order.{IsInOrder, nothing};

    ghost holds = { IsInOrder };

    ghost first = { nothing };
}

/// A hint is put at the back.
pub struct Tells;

impl Outcome<u32, Log> for Tells {
    ghost use Rattle.std.specs.Prelude.{◌≡◌};
    ghost use Rattle.pm_wq.specs.Order.{with_told};

    ghost then = { λ before island after. after ≡ with_told before island };
}

impl Lesson<u32, Log> for Tells {
    ghost use Rattle.pm_wq.specs.Order.{Fits};

    ghost fact = { Fits };
}

/// A hint is taken from the front.
pub struct Answers;

impl Outcome<u32, Log> for Answers {
    ghost use Rattle.std.specs.Prelude.{◌≡◌};
    ghost use Rattle.pm_wq.specs.Order.{with_answer};

    ghost then = { λ before island after. after ≡ with_answer before island };
}

impl Lesson<u32, Log> for Answers {
    ghost use Rattle.pm_wq.specs.Order.{Fits};

    ghost fact = { Fits };
}
