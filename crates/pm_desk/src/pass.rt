//! Passes, and what they keep.

ghost use Rattle.std.specs.Prelude.{◌≡◌, []};
ghost use Rattle.pm_desk.specs.Slips.{fresh};

use pm_base::NoMemory;
use pm_book::ExtendFault;
use pm_model::Command;
use std::alloc::{AllocError, Global};
use std::marker::Model;

/// A command of a caller that has returned.
#[derive(Clone, Copy, PartialEq, Eq)]
pub struct Receipt {
    pub command: Command,
    /// What it returned: 0 or more, or an error code below 0.
    pub code: i32,
}

/// Why a call was stopped.
#[derive(Clone, Copy, PartialEq, Eq)]
pub enum Stop {
    /// The list has all the lines that the plan allows, or the caller's script has 1,000 commands.
    Limit,
    /// Memory ran out.
    NoMemory,
}

impl From<AllocError> for Stop {
    ghost use Rattle.std.specs.Prelude.{◌≡◌};
    ghost use Rattle.pm_desk.specs.declared.pass.Stop.TheVariants.{NoMemory};

    ghost from_gives = { λ _ why. why ≡ NoMemory };

    fn from(_error: AllocError) -> Stop {
        Stop::NoMemory
    }
}

impl From<NoMemory> for Stop {
    ghost use Rattle.std.specs.Prelude.{◌≡◌};
    ghost use Rattle.pm_desk.specs.declared.pass.Stop.TheVariants.{NoMemory};

    ghost from_gives = { λ _ why. why ≡ NoMemory };

    fn from(_error: NoMemory) -> Stop {
        Stop::NoMemory
    }
}

impl From<ExtendFault> for Stop {
    ghost use Rattle.std.specs.Prelude.{◌≡◌};
    ghost use Rattle.pm_desk.specs.Slips.{stop_of};

    ghost from_gives = { λ full why. why ≡ stop_of full };

    fn from(fault: ExtendFault) -> Stop {
        match fault {
            ExtendFault::Full => Stop::Limit,
            ExtendFault::NoMemory => Stop::NoMemory,
        }
    }
}

/// What one thread calls a caller's helpers by. It keeps a receipt of each call that returned, in order, and
/// whether a call was stopped.
#[derive(Drop)]
pub struct Pass {
    pub(crate) caller: u32,
    pub(crate) receipts: Vec<Receipt>,
    pub(crate) stopped: Option<Stop>,
}

impl Model for Pass {
    ghost use Rattle.pm_desk.specs.Slips.{Slip};

    ghost Value = { Slip };

    ghost view = { λ p. record { caller = p.caller; receipts = p.receipts.items; stopped = p.stopped } };
}

impl Pass {
    // A pass by which nothing was called.
    pub(crate) fn fresh(alloc: Global, caller: u32) -> Pass
        ensures { result ≡ fresh caller }
    {
        Pass {
            caller,
            receipts: Vec::new(alloc),
            stopped: None,
        }
    }

    /// The caller's number in the plan, counted from 0.
    pub fn caller(&self) -> u32
        ensures { result ≡ self.now.caller }
    {
        self.caller
    }

    /// A receipt of each call that returned, in order.
    pub fn receipts(&self) -> &[Receipt]
        ensures { result.now ≡ self.now.receipts }
    {
        &self.receipts
    }

    /// Why a call was stopped; `None` where none was.
    pub fn stopped(&self) -> Option<Stop>
        ensures { result ≡ self.now.stopped }
    {
        self.stopped
    }
}
