//! How a book takes a line that was written elsewhere.

ghost use Rattle.std.specs.Prelude.{◌≡◌, ◌≢◌, ◌<◌, ◌^◌, Err, OnErr, OnOk};
ghost use Rattle.pm_book.specs.Judging.{IsAnswer};
ghost use Rattle.pm_state.specs.Standing.{IsActor};
ghost use Rattle.pm_book.specs.Pages.{Longer};
ghost use Rattle.pm_book.specs.Takes.{judged_as};

use crate::book::Book;
use crate::laws::all_stand_well;
use crate::{Bad, decide};
use pm_base::NoMemory;
use pm_model::Line;

/// Why a line isn't taken. The first that holds, in this order, is the answer.
#[derive(Clone, Copy, PartialEq, Eq)]
pub enum TakeFault {
    /// The list has all the lines that the plan allows.
    Limit,
    /// At no time may the line come next.
    Step,
    /// It may at another time.
    Time,
    /// It may come next, but memory ran out.
    NoMemory,
}

impl From<Bad> for TakeFault {
    ghost use Rattle.std.specs.Prelude.{◌≡◌};
    ghost use Rattle.pm_book.specs.Takes.{fault_of};

    ghost from_gives = { λ bad fault. fault ≡ fault_of bad };

    fn from(bad: Bad) -> TakeFault {
        match bad {
            Bad::Limit => TakeFault::Limit,
            Bad::Step => TakeFault::Step,
            Bad::Time => TakeFault::Time,
        }
    }
}

impl From<NoMemory> for TakeFault {
    ghost use Rattle.std.specs.Prelude.{◌≡◌};
    ghost use Rattle.pm_book.specs.declared.taking.TakeFault.TheVariants.{NoMemory};

    ghost from_gives = { λ _ fault. fault ≡ NoMemory };

    fn from(_error: NoMemory) -> TakeFault {
        TakeFault::NoMemory
    }
}

impl Book {
    /// Takes a line by an actor of the plan, at a time below 2^63 milliseconds of the run, where it may
    /// come next; any other is refused, as a judge refuses it. It takes memory for lines alone, and none
    /// where one more can be written without. A refusal changes nothing.
    pub fn take_line(&mut self, line: &Line) -> Result<(), TakeFault>
        requires in_range { IsActor self.old.plan line.now.actor }
        requires in_time { line.now.time < 2 ^ 63 }
        ensures answer { IsAnswer self.old.plan self.old.lines line.now (judged_as result) }
        ensures ok { OnOk result (Longer self.old self.new line.now) }
        ensures room { 0 < self.old.spare → result ≢ Err TakeFault.NoMemory }
        ensures err { OnErr result (self.new ≡ self.old) }
    {
        if self.is_full() {
            return Err(TakeFault::Limit);
        }
        all_stand_well();
        let coming = decide(&self.plan, &self.state, self.lines.last_time(), line)?;
        self.write(&coming.stage, line, coming.change, &coming.next)?;
        Ok(())
    }
}
