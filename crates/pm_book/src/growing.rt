//! How a caller's script becomes longer.

ghost use Rattle.std.specs.Prelude.{◌≡◌, ◌<◌, ◌↔◌, Err, OnErr, OnOk, length, true};
ghost use Rattle.pm_base.specs.declared.limits.TheConstants.{MAX_COMMANDS};
ghost use Rattle.pm_model.specs.IsPlan.{is_command};
ghost use Rattle.pm_model.specs.Scripts.{with_command};
ghost use Rattle.pm_book.specs.Growing.{Extends, HasCallers, IsPlanWith, script_of};

use crate::book::Book;
use crate::laws::all_stand_well;
use pm_base::{ActorId, MAX_COMMANDS, NoMemory};
use pm_model::{Command, Plan};

/// Why a script doesn't become longer. The first that holds, in this order, is the answer.
#[derive(Clone, Copy, PartialEq, Eq)]
pub enum ExtendFault {
    /// The script has 1,000 commands.
    Full,
    /// Memory ran out.
    NoMemory,
}

impl From<NoMemory> for ExtendFault {
    ghost use Rattle.std.specs.Prelude.{◌≡◌};
    ghost use Rattle.pm_book.specs.declared.growing.ExtendFault.TheVariants.{NoMemory};

    ghost from_gives = { λ _ fault. fault ≡ NoMemory };

    fn from(_error: NoMemory) -> ExtendFault {
        ExtendFault::NoMemory
    }
}

// Puts a command at the end of a caller's script, in place. Fails where memory runs out, and changes nothing
// then.
fn push_command(plan: &mut Plan, caller: usize, command: Command) -> Result<(), NoMemory>
    requires in_range { caller < length plan.old.callers }
    requires is_plan { IsPlanWith plan.old (with_command command caller plan.old.callers) }
    ensures ok { OnOk result (HasCallers plan.old plan.new (with_command command caller plan.old.callers)) }
    ensures err { OnErr result (plan.new ≡ plan.old) }
{
    plan.callers.push_command(caller, command)
}

impl Book {
    // How many commands a caller's script has.
    fn script_len(&self, caller: u32) -> usize
        ensures { result ≡ length (script_of self.now.plan.callers caller) }
    {
        match self.plan.callers.get(caller as usize) {
            Some(row) => row.script.as_slice().len(),
            None => 0,
        }
    }

    /// Puts a command of the plan at the end of a caller's script, in place. The lines stay, and stay lawful;
    /// the caller may have something to start now. A refusal changes nothing. It takes memory for the command
    /// alone, and none for lines.
    pub fn extend(&mut self, caller: u32, command: Command) -> Result<(), ExtendFault>
        requires in_range { caller < length self.old.plan.callers }
        requires of_plan { is_command (length self.old.plan.devices) command ≡ true }
        ensures ok { OnOk result (Extends self.old self.new caller command) }
        ensures full { (result ≡ Err ExtendFault.Full) ↔ (length (script_of self.old.plan.callers caller) ≡ 1000) }
        ensures err { OnErr result (self.new ≡ self.old) }
    {
        if self.script_len(caller) >= MAX_COMMANDS {
            return Err(ExtendFault::Full);
        }
        push_command(&mut self.plan, caller as usize, command)?;
        all_stand_well();
        self.turns
            .refresh(&self.plan, &self.state, ActorId::Caller(caller));
        Ok(())
    }
}
