//! Callbacks that hands begin: each is let run with no lock held, and ended.

ghost use Rattle.std.specs.Prelude.{◌≡◌, false, true, IfOk, IfSome, IsNone, MatchOption, OnErr};
ghost use Rattle.pm_model.specs.PlanRows.{ms_of};
ghost use Rattle.pm_book.specs.Pages.{has_written, step_answer};
ghost use Rattle.pm_state.specs.Standing.{IsActor};
ghost use Rattle.pm_hands.specs.Turning.{ByWrote, Goes};

use crate::turn::end_of;
use pm_base::{ActorId, Cb, DevId, NoMemory};
use pm_book::{Book, Step};
use pm_device::ms_of;
use pm_gate::Gate;
use pm_model::Plan;

/// A callback that a hand began and that wasn't let run. Whoever has it can't let go of it, but only let it run, by
/// `Hand::gate`.
pub struct Callback {
    // Who began it.
    actor: ActorId,
    // The device's.
    dev: DevId,
    cb: Cb,
    // Which of its kind on the device it is, counted from 1.
    nth: u64,
    // How long it takes by the plan, in milliseconds.
    ms: u32,
}

/// A callback that was let run and isn't ended. Whoever has it can't let go of it, but only end it.
pub struct Gated {
    actor: ActorId,
    ms: u32,
}

/// A line that was written.
pub enum Wrote {
    /// It began this callback.
    Began(Callback),
    /// It began none.
    Line,
}

// How long a callback of a device takes, in milliseconds; 0 of a device that isn't the plan's.
#[tactic(auto, using(crate::proofs::StepLemmas::no_device))]
fn callback_ms(plan: &Plan, dev: DevId, cb: Cb) -> u32
    ensures { result ≡ ms_of plan.now cb dev }
{
    if (dev.0 as usize) < plan.devices.len() {
        ms_of(plan, cb, dev)
    } else {
        0
    }
}

/// Lets an actor go on by one line, if it may, at the moment of the last line, or at this later one by the
/// clock. Else nothing is changed, and after `NoMemory` neither.
pub fn try_step(book: &mut Book, actor: ActorId, now: u64) -> Result<Option<Wrote>, NoMemory>
    requires { IsActor book.old.plan actor }
    ensures ok { IfOk result (λ wrote. MatchOption wrote
        ((book.new ≡ book.old) × (has_written (step_answer book.old actor now) ≡ false))
        (ByWrote book.old book.new)) }
    ensures err { OnErr result (book.new ≡ book.old) }
{
    match book.step(actor, now)? {
        Step::Begun(dev, cb, nth) => Ok(Some(Wrote::Began(Callback {
            actor,
            dev,
            cb,
            nth,
            ms: callback_ms(book.plan(), dev, cb),
        }))),
        Step::Wrote => Ok(Some(Wrote::Line)),
        _ => Ok(None),
    }
}

impl Callback {
    // Calls the gate for it.
    pub(crate) fn run<G: Gate>(self, gate: &G) -> Gated
        ensures actor { result.actor ≡ self.actor }
        ensures ms { result.ms ≡ self.ms }
    {
        let Callback {
            actor,
            dev,
            cb,
            nth,
            ms,
        } = self;
        gate.callback(dev, cb, nth);
        Gated { actor, ms }
    }
}

impl Gated {
    // How long it takes by the plan, in milliseconds.
    pub(crate) fn ms(&self) -> u32
        ensures { result ≡ self.now.ms }
    {
        self.ms
    }

    /// Writes its end line, and gives it back where something of it is left to do. Nothing is, where the line was
    /// written, or the list is full, or no callback of its actor runs. It is written at this moment by the clock, or
    /// where it is late, at the moment at which it is due.
    pub fn end(self, book: &mut Book, now: u64, is_late: bool) -> Option<Gated>
        ensures goes { Goes book.old book.new }
        ensures late { is_late ≡ true → IsNone result }
        ensures open { IfSome result (λ left. (left ≡ self) × (book.new ≡ book.old)) }
    {
        let Gated { actor, ms } = self;
        if end_of(book, actor, now, is_late) {
            None
        } else {
            Some(Gated { actor, ms })
        }
    }
}
